//! The command `check`: the errors of a text.

use crate::failure::Failure;
use crate::forms::{ReportFormat, ReportOptions};
use crate::json;
use crate::run::more_behind;
use crate::sarif::{Region, Rule, write_result};
use crate::shown::{name, write_place};
use crate::source::{Source, move_to, parsed, spot, spots};
use lossless_tree::SyntaxNode;
use ras_front_end::SyntaxError;
use rust_report::{Escaped, Marks, Medium, Spots, excerpt_at, plain_message};
use serde::Serialize;
use std::alloc::Global;
use std::io::Write;
use std::{fmt, io};

// An error in JSON. Lines and columns count from 1, columns in characters; `start` and `end` are
// offsets in bytes.
#[derive(Drop, Serialize)]
struct ErrorRecord<'a> {
    path: &'a str,
    line: u64,
    column: u64,
    end_line: u64,
    end_column: u64,
    start: u32,
    end: u32,
    message: &'a str,
}

// How many errors are not shown, as they are of the run that a shown one begins.
#[derive(Clone, Copy)]
struct More(usize);

impl fmt::Display for More {
    fn fmt<W: fmt::Write>(&self, f: &mut fmt::Formatter<W>) -> fmt::Result {
        if self.0 == 0 {
            Ok(())
        } else {
            write!(f, " (and {} more here)", self.0)
        }
    }
}

// The message of an error in the words that are asked for.
fn message_of<'e>(error: &'e SyntaxError, options: ReportOptions) -> &'e str {
    if options.is_upstream {
        error.message()
    } else {
        plain_message(error.message())
    }
}

// Writes the line that an error is in, or the part of a long line around it, and marks the error in
// the line below.
fn write_text<W: Write>(
    out: &mut W,
    source: Source<'_>,
    spots: &mut Spots<'_>,
    error: &SyntaxError,
    more: More,
    options: ReportOptions,
) -> io::Result<()> {
    let style = options.style;
    let from = move_to(spots, error.range().start());
    let (red, plain) = (style.red(), style.plain());
    write_place(out, source, from, style)?;
    writeln!(
        out,
        "{red}{}{plain}{more}",
        name(message_of(error, options))
    )?;
    let excerpt = excerpt_at(spots.lines(), error.range());
    writeln!(out, "{:>5} | {excerpt}", from.line)?;
    writeln!(out, "      | {red}{}{plain}", Marks { excerpt })
}

fn write_json<W: Write>(
    alloc: Global,
    out: &mut W,
    name: &str,
    spots: &mut Spots<'_>,
    error: &SyntaxError,
) -> io::Result<()> {
    let range = error.range();
    let from = move_to(spots, range.start());
    let to = spot(spots, range.end());
    let record = ErrorRecord {
        path: name,
        line: from.line,
        column: from.column,
        end_line: to.line,
        end_column: to.column,
        start: range.start().raw(),
        end: range.end().raw(),
        message: error.message(),
    };
    json::write_line(alloc, out, &record)
}

// Writes a result of SARIF.
fn write_sarif<W: Write>(
    alloc: Global,
    out: &mut W,
    path: &str,
    spots: &mut Spots<'_>,
    error: &SyntaxError,
    is_first: bool,
    options: ReportOptions,
) -> io::Result<()> {
    let range = error.range();
    let from = move_to(spots, range.start());
    let at = Region {
        from,
        to: spot(spots, range.end()),
        start: range.start().raw(),
        end: range.end().raw(),
    };
    let message = message_of(error, options);
    write_result(alloc, out, is_first, Rule::Syntax, message, path, at)
}

fn write_github<W: Write>(
    out: &mut W,
    name: &str,
    spots: &mut Spots<'_>,
    error: &SyntaxError,
    more: More,
    options: ReportOptions,
) -> io::Result<()> {
    let from = move_to(spots, error.range().start());
    let to = spot(spots, error.range().end());
    let file = Escaped {
        text: name,
        medium: Medium::Parameter,
    };
    let message = Escaped {
        text: message_of(error, options),
        medium: Medium::Message,
    };
    write!(out, "::error file={file},")?;
    write!(out, "line={},col={},", from.line, from.column)?;
    write!(out, "endLine={},endColumn={}", to.line, to.column)?;
    writeln!(out, "::{message}{more}")
}

fn write_all<W: Write>(
    alloc: Global,
    out: &mut W,
    source: Source<'_>,
    root: &SyntaxNode,
    errors: &[SyntaxError],
    options: ReportOptions,
) -> Result<u64, Failure> {
    if errors.is_empty() {
        return Ok(0);
    }
    let Source { name, text, .. } = source;
    let mut spots = spots(alloc, text)?;
    let mut left = options.max_errors;
    let folds = !options.all_errors
        && !options.is_upstream
        && !matches!(options.format, ReportFormat::Json | ReportFormat::Sarif);
    let mut folded: usize = 0;
    let mut is_first = options.is_first;
    for (at, error) in errors.iter().enumerate() {
        if folded > 0 {
            folded -= 1;
            continue;
        }
        if left == 0 {
            break;
        }
        left -= 1;
        if folds {
            folded = more_behind(root, errors, at);
        }
        let more = More(folded);
        match options.format {
            ReportFormat::Text => write_text(out, source, &mut spots, error, more, options)?,
            ReportFormat::Json => write_json(alloc, out, name, &mut spots, error)?,
            ReportFormat::Github => write_github(out, name, &mut spots, error, more, options)?,
            ReportFormat::Sarif => write_sarif(
                alloc, out, name, &mut spots, error, is_first, options,
            )?,
        }
        is_first = false;
    }
    Ok(errors.len() as u64)
}

/// Writes the errors of a text, at most `options.max_errors`, and of a run of them, as one wrong
/// character begins, only the first and how many more there are, unless all are asked for. JSON and
/// SARIF have all. Returns the number of all of them.
pub fn check<W: Write>(
    alloc: Global,
    out: &mut W,
    source: Source<'_>,
    options: ReportOptions,
) -> Result<u64, Failure> {
    let parse = parsed(alloc, source.text, options.reading)?;
    if !options.reading.validates {
        return write_all(alloc, out, source, parse.root(), parse.stored(), options);
    }
    let errors = parse.errors(alloc)?;
    write_all(alloc, out, source, parse.root(), errors.as_slice(), options)
}
