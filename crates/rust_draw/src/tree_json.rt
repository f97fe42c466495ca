//! A tree as one object of JSON, which is written piece by piece during a walk.

use lossless_tree::{NodeOrToken, SyntaxElement, SyntaxNode, SyntaxToken};
use ras_front_end::SyntaxError;
use rust_print::json::{write, write_keys};
use rust_print::names::Named;
use serde::Serialize;
use std::alloc::Global;
use std::io;
use std::io::Write;

// The keys of a file, without those of its topmost element. The lists of records are empty, since
// what is in them is written one by one.
#[derive(Drop, Serialize)]
struct FileRecord<'a> {
    path: &'a str,
    errors: [u8; 0],
}

// An error. In each record, `start` and `end` are offsets in bytes.
#[derive(Drop, Serialize)]
struct ErrorRecord<'a> {
    start: u32,
    end: u32,
    message: &'a str,
}

#[derive(Drop, Serialize)]
struct NodeRecord {
    kind: Named,
    start: u32,
    end: u32,
    children: [u8; 0],
}

#[derive(Drop, Serialize)]
struct TokenRecord<'a> {
    kind: Named,
    start: u32,
    end: u32,
    text: &'a str,
}

fn error_record(error: &SyntaxError) -> ErrorRecord<'_> {
    let range = error.range();
    ErrorRecord {
        start: range.start().raw(),
        end: range.end().raw(),
        message: error.message(),
    }
}

fn node_record(node: &SyntaxNode) -> NodeRecord {
    let range = node.text_range();
    NodeRecord {
        kind: Named(node.kind()),
        start: range.start().raw(),
        end: range.end().raw(),
        children: [],
    }
}

fn token_record(token: &SyntaxToken) -> TokenRecord<'_> {
    let range = token.text_range();
    TokenRecord {
        kind: Named(token.kind()),
        start: range.start().raw(),
        end: range.end().raw(),
        text: token.text(),
    }
}

/// Writes the front of a file's object: its path and its errors.
pub fn write_file<W: Write>(
    alloc: Global,
    out: &mut W,
    path: &str,
    errors: &[SyntaxError],
) -> io::Result<()> {
    out.write_all(b"{")?;
    write_keys(alloc, out, &FileRecord { path, errors: [] }, "]}")?;
    let mut is_first = true;
    for error in errors {
        out.write_all(if is_first { b"" } else { b"," })?;
        write(alloc, out, &error_record(error))?;
        is_first = false;
    }
    out.write_all(b"]")
}

/// Writes the front of an element's object: that of a node up to its children. The topmost element
/// has no object of its own: its keys are those of the object of the file.
pub fn write_element<W: Write>(
    alloc: Global,
    out: &mut W,
    level: usize,
    element: &SyntaxElement,
) -> io::Result<()> {
    out.write_all(if level > 0 { b"{" } else { b"," })?;
    match element {
        NodeOrToken::Node(node) => write_keys(alloc, out, &node_record(node), "]}"),
        NodeOrToken::Token(token) => write_keys(alloc, out, &token_record(token), "}"),
    }
}

/// Writes the end of an element's object.
pub fn write_end<W: Write>(out: &mut W, level: usize, element: &SyntaxElement) -> io::Result<()> {
    if element.as_node().is_some() {
        out.write_all(b"]")?;
    }
    out.write_all(if level > 0 { b"}" } else { b"" })
}
