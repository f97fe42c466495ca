//! The command `outline`: the items of a text, the variants and fields in them, and regions of
//! comments.

use crate::failure::Failure;
use crate::forms::{ReportFormat, ReportOptions};
use crate::json;
use crate::shown::{cut, write_indent, write_place, write_short};
use crate::source::{Source, move_to, parsed, spots};
use lossless_tree::{
    NodeOrToken, SyntaxElement, SyntaxKind, SyntaxNode, SyntaxToken, TextRange, TextSize, WalkEvent,
};
use ras_node::support::share;
use rust_report::{Row, Spot, Spots, is_listed, label_line, label_of, word_of};
use serde::Serialize;
use std::alloc::Global;
use std::io;
use std::io::Write;

// A line in JSON. The line and the column count from 1, the column in characters, and are those of
// the label, if it has one. `start` and `end` are the offsets in bytes of the whole, with its
// attributes and documentation. Without a label the name is empty. Of a long name the front is
// written, and `cut` says so.
#[derive(Drop, Serialize)]
struct ItemRecord<'a> {
    path: &'a str,
    line: u64,
    column: u64,
    kind: &'a str,
    name: &'a str,
    cut: bool,
    depth: usize,
    start: u32,
    end: u32,
}

// What a line is about.
#[derive(Clone, Copy)]
struct Line<'a> {
    word: &'static str,
    label: &'a str,
    // Where the label starts, or the whole if it has none.
    start: TextSize,
    range: TextRange,
    depth: usize,
}

// The word of a node that is listed and is no item.
fn part_word(kind: SyntaxKind, has_locals: bool) -> Option<&'static str> {
    match kind {
        SyntaxKind::VARIANT => Some("variant"),
        SyntaxKind::RECORD_FIELD => Some("field"),
        SyntaxKind::LET_STMT if has_locals => Some("let"),
        _ => None,
    }
}

// The word of a node that is listed.
fn listed_word(kind: SyntaxKind, has_locals: bool) -> Option<&'static str> {
    if is_listed(kind) {
        Some(word_of(kind))
    } else {
        part_word(kind, has_locals)
    }
}

// Whether a child of a node is its name: of a `let` the pattern, which no attribute is.
fn is_label(parent: SyntaxKind, child: SyntaxKind) -> bool {
    if parent == SyntaxKind::LET_STMT {
        child != SyntaxKind::ATTR && child != SyntaxKind::DOC_COMMENT
    } else {
        child == SyntaxKind::NAME
    }
}

// The name of a node.
fn name_of(node: &SyntaxNode) -> Option<SyntaxNode> {
    for child in node.children() {
        if is_label(node.kind(), child.kind()) {
            return Some(child);
        }
    }
    None
}

// The name of a region that a comment begins: `// region: name`.
fn region_of(token: &SyntaxToken) -> Option<&str> {
    if token.kind() != SyntaxKind::COMMENT {
        return None;
    }
    let comment = token.text().trim().strip_prefix("//")?;
    let name = comment.trim_start().strip_prefix("region:")?.trim();
    if name.is_empty() { None } else { Some(name) }
}

fn write_json<W: Write>(
    alloc: Global,
    out: &mut W,
    path: &str,
    at: Spot,
    line: &Line<'_>,
) -> io::Result<()> {
    let (name, cut) = cut(line.label);
    let record = ItemRecord {
        path,
        line: at.line,
        column: at.column,
        kind: line.word,
        name,
        cut,
        depth: line.depth,
        start: line.range.start().raw(),
        end: line.range.end().raw(),
    };
    json::write_line(alloc, out, &record)
}

fn write_text<W: Write>(out: &mut W, line: &Line<'_>) -> io::Result<()> {
    write_indent(out, line.depth)?;
    if line.label.is_empty() {
        return writeln!(out, "{}", line.word);
    }
    write!(out, "{} ", line.word)?;
    write_short(out, line.label)
}

fn write_line<W: Write>(
    alloc: Global,
    out: &mut W,
    source: Source<'_>,
    spots: &mut Spots<'_>,
    line: &Line<'_>,
    options: ReportOptions,
) -> io::Result<()> {
    let at = move_to(spots, line.start);
    match options.format {
        ReportFormat::Json => write_json(alloc, out, source.name, at, line),
        ReportFormat::Text | ReportFormat::Github | ReportFormat::Sarif => {
            write_place(out, source, at, options.style)?;
            write_text(out, line)
        }
    }
}

// Writes the line of a node.
fn write_node<W: Write>(
    alloc: Global,
    out: &mut W,
    source: Source<'_>,
    spots: &mut Spots<'_>,
    node: &SyntaxNode,
    word: &'static str,
    depth: usize,
    options: ReportOptions,
) -> io::Result<()> {
    let row = Row {
        item: share(node),
        name: name_of(node),
        depth,
    };
    let range = node.text_range();
    let start = match label_of(&row) {
        Some(label) => label.text_range().start(),
        None => range.start(),
    };
    let label = label_line(alloc, &row)?;
    let line = Line {
        word,
        label: label.as_str(),
        start,
        range,
        depth,
    };
    write_line(alloc, out, source, spots, &line, options)
}

// What a walk enters.
#[derive(Clone, Copy)]
enum Entered {
    // An item, a variant, a field or a local; what is in it is one level deeper.
    Item,
    // A comment that begins a region.
    Region,
    // Not listed.
    Other,
}

// Writes the line of what a walk enters, if it is listed.
fn write_entered<W: Write>(
    alloc: Global,
    out: &mut W,
    source: Source<'_>,
    spots: &mut Spots<'_>,
    element: &SyntaxElement,
    depth: usize,
    options: ReportOptions,
) -> io::Result<Entered> {
    match element {
        NodeOrToken::Node(node) => match listed_word(node.kind(), options.has_locals) {
            Some(word) => {
                write_node(alloc, out, source, spots, node, word, depth, options)?;
                Ok(Entered::Item)
            }
            None => Ok(Entered::Other),
        },
        NodeOrToken::Token(token) => {
            let Some(label) = region_of(token) else {
                return Ok(Entered::Other);
            };
            let range = token.text_range();
            let line = Line {
                word: "region",
                label,
                start: range.start(),
                range,
                depth,
            };
            write_line(alloc, out, source, spots, &line, options)?;
            Ok(Entered::Region)
        }
    }
}

// Whether the lines in a node are one level deeper than its own.
fn is_level(element: &SyntaxElement, options: ReportOptions) -> bool {
    match element {
        NodeOrToken::Node(node) => listed_word(node.kind(), options.has_locals).is_some(),
        NodeOrToken::Token(_) => false,
    }
}

/// Writes the items of a text, each before what is in it. Returns the number of lines.
pub fn show<W: Write>(
    alloc: Global,
    out: &mut W,
    source: Source<'_>,
    options: ReportOptions,
) -> Result<u64, Failure> {
    let parse = parsed(alloc, source.text, options.reading)?;
    let mut spots = spots(alloc, source.text)?;
    let mut depth = 0usize;
    let mut count = 0u64;
    for event in parse.root().preorder_with_tokens() {
        match event {
            WalkEvent::Enter(element) => {
                match write_entered(alloc, out, source, &mut spots, &element, depth, options)? {
                    Entered::Item => {
                        depth = depth.saturating_add(1);
                        count = count.saturating_add(1);
                    }
                    Entered::Region => count = count.saturating_add(1),
                    Entered::Other => {}
                }
            }
            WalkEvent::Leave(element) => {
                if is_level(&element, options) {
                    depth = depth.saturating_sub(1);
                }
            }
        }
    }
    Ok(count)
}
