//! The tree of a text as a self-contained page of HTML: the text and the tree side by side.
//!
//! The page has the text once, and its tree as a list of numbers; its script makes the lines that
//! come into view. In that list a node is `KIND[..]` and a token `KIND=LENGTH`, with the letter of
//! its role: the name of a kind stands where it comes first, and then its number in the order of
//! these names. `LENGTH` counts units of UTF-16, as the script does, with `/` and the bytes where
//! these are more. What is not shown in the tree has a `-` before it.

use crate::html::{in_html, write_head};
use crate::page_parts::{write_script, write_style};
use crate::tree::{Showing, is_shown};
use lossless_tree::{NodeOrToken, SyntaxElement, SyntaxKind, SyntaxNode, SyntaxToken, WalkEvent};
use ras_front_end::SyntaxError;
use rust_print::names::Named;
use rust_report::{Role, role_of};
use std::alloc::Global;
use std::io;
use std::io::Write;

// The letter of a role in the list; empty for plain tokens.
fn letter_of(role: Role) -> &'static str {
    match role {
        Role::Plain => "",
        Role::Comment => "c",
        Role::Keyword => "k",
        Role::Text => "s",
        Role::Number => "n",
        Role::Lifetime => "l",
        Role::Function => "f",
        Role::Type => "t",
        Role::Field => "d",
        Role::Path => "p",
        Role::Macro => "m",
        Role::Attribute => "a",
        Role::Error => "e",
    }
}

// Writes a kind: its name where it comes first, then its number among those that came before.
fn write_kind<W: Write>(out: &mut W, known: &mut Vec<u32>, kind: SyntaxKind) -> io::Result<()> {
    let raw = kind.to_raw();
    match known.iter().position(|it| *it == raw) {
        Some(number) => write!(out, "{number}"),
        None => {
            known.push(raw)?;
            write!(out, "{}", Named(kind))
        }
    }
}

// Writes the length and the role of a token.
fn write_token<W: Write>(out: &mut W, token: &SyntaxToken) -> io::Result<()> {
    let bytes = token.text().len();
    let units = token
        .text()
        .chars()
        .fold(0usize, |sum, it| sum.saturating_add(it.len_utf16()));
    write!(out, "={units}")?;
    if bytes != units {
        write!(out, "/{bytes}")?;
    }
    writeln!(out, "{}", letter_of(role_of(token)))
}

// Writes the front of an element, and all of a token.
fn write_element<W: Write>(
    out: &mut W,
    known: &mut Vec<u32>,
    element: &SyntaxElement,
    is_shown: bool,
) -> io::Result<()> {
    if !is_shown {
        out.write_all(b"-")?;
    }
    write_kind(out, known, element.kind())?;
    match element {
        NodeOrToken::Node(_) => out.write_all(b"["),
        NodeOrToken::Token(token) => write_token(out, token),
    }
}

// Writes the list of the nodes and tokens.
fn write_rows<W: Write>(
    alloc: Global,
    out: &mut W,
    root: &SyntaxNode,
    showing: &Showing,
) -> io::Result<()> {
    let mut known = Vec::new(alloc);
    let mut level = 0usize;
    for event in root.preorder_with_tokens() {
        match event {
            WalkEvent::Enter(element) => {
                let is_shown = is_shown(showing, level, &element);
                write_element(out, &mut known, &element, is_shown)?;
                level = level.saturating_add(1);
            }
            WalkEvent::Leave(element) => {
                if let NodeOrToken::Node(_) = element {
                    out.write_all(b"]")?;
                }
                level = level.saturating_sub(1);
            }
        }
    }
    Ok(())
}

// Writes the errors: each message, and behind it the ranges of the errors that have it one after
// another, in bytes.
fn write_errors<W: Write>(out: &mut W, errors: &[SyntaxError]) -> io::Result<()> {
    let mut last = None;
    for error in errors {
        let (message, range) = (error.message(), error.range());
        if last != Some(message) {
            let shown = in_html(message);
            write!(out, "<li>{shown}:")?;
            last = Some(message);
        }
        write!(out, " {}-{}", range.start().raw(), range.end().raw())?;
    }
    Ok(())
}

/// Writes the page of a node, with the errors of its text. It has some three bytes for each of a
/// usual text.
pub fn show<W: Write>(
    alloc: Global,
    out: &mut W,
    name: &str,
    root: &SyntaxNode,
    errors: &[SyntaxError],
    showing: &Showing,
) -> io::Result<()> {
    write_head(out, &[name])?;
    write_style(out)?;
    let start = root.text_range().start().raw();
    writeln!(out, "<pre id=\"source\" data-start=\"{start}\">")?;
    write!(
        out,
        "{}</pre>\n<ol id=\"errors\" hidden>",
        in_html(root.as_str())
    )?;
    write_errors(out, errors)?;
    out.write_all(b"</ol>\n<script type=\"text/plain\" id=\"rows\">\n")?;
    write_rows(alloc, out, root, showing)?;
    out.write_all(b"\n</script>\n")?;
    if let Some(grammar) = &showing.grammar {
        let grammar = in_html(grammar.as_str());
        writeln!(out, "<a id=\"grammar\" href=\"{grammar}\" hidden></a>")?;
    }
    write_script(out)
}
