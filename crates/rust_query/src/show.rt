//! The command `query`: nodes and tokens by their kinds, places and texts.

use crate::pattern::{Pattern, TextPattern};
use crate::search::{Found, matches_of};
use lossless_tree::{SyntaxElement, SyntaxNode};
use rust_print::failure::Failure;
use rust_print::forms::{ReportFormat, ReportOptions};
use rust_print::json;
use rust_print::names::Named;
use rust_print::shown::{cut, write_place, write_short};
use rust_print::source::{Source, move_to, parsed, spots};
use rust_report::{Spot, Spots, query};
use serde::Serialize;
use std::alloc::Global;
use std::io;
use std::io::Write;

// A node or token in JSON. The line and the column count from 1, the column in characters; `start`
// and `end` are offsets in bytes. Of a long text the front is written, and `cut` says so. What fits
// the named steps is written behind it, one by one.
#[derive(Drop, Serialize)]
struct MatchRecord<'a> {
    path: &'a str,
    line: u64,
    column: u64,
    start: u32,
    end: u32,
    kind: Named,
    text: &'a str,
    cut: bool,
    captures: [u8; 0],
}

// What fits a named step.
#[derive(Drop, Serialize)]
struct CaptureRecord<'a> {
    name: &'a str,
    start: u32,
    end: u32,
    kind: Named,
    text: &'a str,
    cut: bool,
}

fn write_capture<W: Write>(
    alloc: Global,
    out: &mut W,
    name: &str,
    element: &SyntaxElement,
) -> io::Result<()> {
    let range = element.text_range();
    let (text, cut) = cut(element.text());
    let record = CaptureRecord {
        name,
        start: range.start().raw(),
        end: range.end().raw(),
        kind: Named(element.kind()),
        text,
        cut,
    };
    json::write(alloc, out, &record)
}

// The name of a step.
fn name_of(pattern: &TextPattern, number: usize) -> &str {
    match pattern.steps.get(number) {
        Some(step) => match &step.name {
            Some(name) => name.as_str(),
            None => "",
        },
        None => "",
    }
}

fn write_captures<W: Write>(
    alloc: Global,
    out: &mut W,
    root: &SyntaxNode,
    pattern: &TextPattern,
    found: &Found,
) -> io::Result<()> {
    let mut is_first = true;
    for &(number, row) in found.named.iter().rev() {
        if let Some(element) = root.element_at_row(row) {
            out.write_all(if is_first { b"" } else { b"," })?;
            write_capture(alloc, out, name_of(pattern, number), &element)?;
            is_first = false;
        }
    }
    out.write_all(b"]}\n")
}

fn write_json<W: Write>(
    alloc: Global,
    out: &mut W,
    path: &str,
    at: Spot,
    element: &SyntaxElement,
) -> io::Result<()> {
    let range = element.text_range();
    let (text, cut) = cut(element.text());
    let record = MatchRecord {
        path,
        line: at.line,
        column: at.column,
        start: range.start().raw(),
        end: range.end().raw(),
        kind: Named(element.kind()),
        text,
        cut,
        captures: [],
    };
    out.write_all(b"{")?;
    json::write_keys(alloc, out, &record, "]}")
}

fn write_match<W: Write>(
    alloc: Global,
    out: &mut W,
    source: Source<'_>,
    spots: &mut Spots<'_>,
    element: &SyntaxElement,
    options: ReportOptions,
) -> io::Result<()> {
    let at = move_to(spots, element.text_range().start());
    match options.format {
        ReportFormat::Json => write_json(alloc, out, source.name, at, element),
        _ => {
            write_place(out, source, at, options.style)?;
            write_short(out, element.text())
        }
    }
}

// Writes what fits a pattern of kinds.
fn write_elements<W: Write>(
    alloc: Global,
    out: &mut W,
    source: Source<'_>,
    found: &[SyntaxElement],
    options: ReportOptions,
) -> Result<u64, Failure> {
    if found.is_empty() {
        return Ok(0);
    }
    let mut spots = spots(alloc, source.text)?;
    for element in found {
        write_match(alloc, out, source, &mut spots, element, options)?;
        if matches!(options.format, ReportFormat::Json) {
            out.write_all(b"]}\n")?;
        }
    }
    Ok(found.len() as u64)
}

// Writes what fits a pattern with texts, alternatives or names.
fn write_matches<W: Write>(
    alloc: Global,
    out: &mut W,
    source: Source<'_>,
    root: &SyntaxNode,
    pattern: &TextPattern,
    found: &[Found],
    options: ReportOptions,
) -> Result<u64, Failure> {
    if found.is_empty() {
        return Ok(0);
    }
    let mut spots = spots(alloc, source.text)?;
    for it in found {
        let Some(element) = root.element_at_row(it.row) else {
            continue;
        };
        write_match(alloc, out, source, &mut spots, &element, options)?;
        if matches!(options.format, ReportFormat::Json) {
            write_captures(alloc, out, root, pattern, it)?;
        }
    }
    Ok(found.len() as u64)
}

/// Writes the nodes and tokens that fit a pattern. Returns their number.
pub fn show<W: Write>(
    alloc: Global,
    out: &mut W,
    source: Source<'_>,
    pattern: &Pattern,
    options: ReportOptions,
) -> Result<u64, Failure> {
    let parse = parsed(alloc, source.text, options.reading)?;
    match pattern {
        Pattern::Kinds(steps) => {
            let found = query(alloc, parse.root(), steps.as_slice())?;
            write_elements(alloc, out, source, found.as_slice(), options)
        }
        Pattern::Texts(pattern) => {
            let found = matches_of(alloc, parse.root(), pattern)?;
            let found = found.as_slice();
            write_matches(alloc, out, source, parse.root(), pattern, found, options)
        }
    }
}
