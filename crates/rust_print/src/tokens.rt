//! The command `tokens`: the lexer's tokens of a text.

use crate::failure::Failure;
use crate::forms::{ReportFormat, ReportOptions};
use crate::json;
use crate::names::Named;
use crate::shown::name;
use crate::source::Source;
use ras_front_end::ParseError;
use rust_lexer::{LexError, lex};
use serde::Serialize;
use std::alloc::Global;
use std::io;
use std::io::Write;
use text_size::TextSize;
use token_layout::Token;

// A token in JSON; `start` and `end` are offsets in bytes.
#[derive(Drop, Serialize)]
struct TokenRecord<'a> {
    path: &'a str,
    kind: Named,
    start: usize,
    end: usize,
    text: &'a str,
}

// An error in JSON; `start` and `end` are offsets in bytes.
#[derive(Drop, Serialize)]
struct ErrorRecord<'a> {
    path: &'a str,
    start: u32,
    end: u32,
    message: &'a str,
}

fn write_error<W: Write>(
    alloc: Global,
    out: &mut W,
    source: Source<'_>,
    error: &LexError,
    format: ReportFormat,
) -> io::Result<()> {
    let (front, back) = error.problem.message();
    let range = error.range;
    let (start, end) = (range.start().raw(), range.end().raw());
    let own = if back.is_empty() {
        ""
    } else {
        source.text.get(start as usize..end as usize).unwrap_or("")
    };
    let message = format!(in alloc; "{front}{own}{back}")?;
    match format {
        ReportFormat::Json => {
            let record = ErrorRecord {
                path: source.name,
                start,
                end,
                message: message.as_str(),
            };
            json::write_line(alloc, out, &record)
        }
        ReportFormat::Text | ReportFormat::Github | ReportFormat::Sarif => writeln!(
            out,
            "error {range}: {}",
            name(message.as_str())
        ),
    }
}

fn write_token<W: Write>(
    alloc: Global,
    out: &mut W,
    path: &str,
    kind: Named,
    start: usize,
    text: &str,
    format: ReportFormat,
) -> io::Result<()> {
    let end = start.saturating_add(text.len());
    match format {
        ReportFormat::Json => {
            let record = TokenRecord {
                path,
                kind,
                start,
                end,
                text,
            };
            json::write_line(alloc, out, &record)
        }
        ReportFormat::Text | ReportFormat::Github | ReportFormat::Sarif => {
            let text = format!(in alloc; "{text:?}")?;
            write!(out, "{kind}@{start}..{end}")?;
            writeln!(out, " {}", name(text.as_str()))
        }
    }
}

fn write_tokens<W: Write>(
    alloc: Global,
    out: &mut W,
    source: Source<'_>,
    tokens: &[Token],
    format: ReportFormat,
) -> io::Result<()> {
    let mut start = 0usize;
    for token in tokens {
        let end = start.saturating_add(token.len.raw() as usize);
        let own = source.text.get(start..end).unwrap_or("");
        let kind = Named(token.kind);
        write_token(alloc, out, source.name, kind, start, own, format)?;
        start = end;
    }
    Ok(())
}

fn write_errors<W: Write>(
    alloc: Global,
    out: &mut W,
    source: Source<'_>,
    errors: &[LexError],
    format: ReportFormat,
) -> io::Result<()> {
    for error in errors {
        write_error(alloc, out, source, error, format)?;
    }
    Ok(())
}

/// Writes the tokens of a text, and the lexer's errors after them. Returns the number of errors.
pub fn show<W: Write>(
    alloc: Global,
    out: &mut W,
    source: Source<'_>,
    options: ReportOptions,
) -> Result<u64, Failure> {
    if TextSize::of(source.text).is_none() {
        return Err(Failure::Text(ParseError::TooLong));
    }
    let lexed = lex(alloc, source.text, options.reading.edition)?;
    write_tokens(alloc, out, source, lexed.tokens.as_slice(), options.format)?;
    write_errors(alloc, out, source, lexed.errors.as_slice(), options.format)?;
    Ok(lexed.errors.len() as u64)
}
