//! Prints the items of a Rust file, read from standard input: the line, kind and name of each,
//! indented by the items around it.
#![tactic(auto)]

use line_index::LineIndex;
use ra_ap_syntax::{AstNode, Edition, ParseError, SourceFile, SyntaxNode, ast};
use rust_front::Rust;
use std::alloc::{AllocError, Global};
use std::fmt::Write;
use std::io;

// A line for an item: its own name is the first one in it.
fn push_item(out: &mut String, lines: &LineIndex<'_>, item: &SyntaxNode) -> Result<(), AllocError> {
    for around in item.ancestors().skip(1) {
        if ast::Item::can_cast(around.kind()) {
            out.push_str("  ")?;
        }
    }
    if let Some(at) = lines.line_col(item.text_range().start()) {
        write!(out, "{}: ", at.line.saturating_add(1))?;
    }
    write!(out, "{}", item.kind())?;
    if let Some(name) = item.children().filter_map(ast::Name::cast).next() {
        write!(out, " {}", name.syntax().as_str())?;
    }
    out.push_str("\n")
}

fn outline(alloc: Global, text: &str) -> Result<String, ParseError> {
    if text.len() > u32::MAX as usize {
        return Err(ParseError::TooLong);
    }
    let lines = LineIndex::new(alloc, text)?;
    let file = SourceFile::parse(alloc, text, &Rust, Edition::CURRENT)?;
    let mut out = String::new(alloc);
    for node in file.syntax_node().descendants() {
        if ast::Item::can_cast(node.kind()) {
            push_item(&mut out, &lines, &node)?;
        }
    }
    Ok(out)
}

fn main(rt: HostRuntime) -> io::Result<()> {
    let input = io::read_to_string(rt.alloc(), rt.reader())?;
    match outline(rt.alloc(), input.as_str()) {
        Ok(text) => print!(rt; "{text}"),
        Err(_) => println!(rt; "the text is too long, or memory ran out"),
    }
}
