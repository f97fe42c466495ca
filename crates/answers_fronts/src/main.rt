//! Reads requests on front ends, parses and edits, one on each line, and prints each request with
//! its result.
//!
//! A request is a word and what it is about. In it `\n`, `\t`, `\r` and `\\` are escapes. `FRONT`
//! is `tiny`, or one of the useless front ends `wrong` and `flat`.
//!
//! - `run COMMAND INPUT`: what the program writes, and its status; `bytes COMMAND` runs it on the
//!   byte 255.
//! - `file FRONT TEXT`, `expr FRONT TEXT`: the parse's dump, its errors, the results of `tree`,
//!   `cast` and `ok`.
//! - `edit FRONT START END |INSERT|TEXT`: the re-parsed range, the new text, whether the parse
//!   equals that of the new text, errors.
//! - `edits FRONT TEXT`: each range of the text edited with nothing, `x`, `}`, `"` and a newline.
//! - `offsets FRONT TEXT`: each offset and each range of the text, by the tree's searches and by
//!   plain ones.
//! - `walk TEXT`: its items, their names, and what is in and around the last expression of each
//!   body.
//! - `built WORDS`: the errors of a tree that is built; `KIND(` enters, `)` leaves, `KIND:text` is
//!   a token, `!5` an error at 5.
//! - `name WORD`: whether it is an identifier, and a raw one.
//! - `parens WANTED ROW`: whether a marked node of a tree needs parentheses, and whether that is as
//!   wanted.
//! - `terms N`: every operator term of at most N forms, parsed by `tiny`; how many had each result.
//!
//! A line that begins with `#` is skipped.
#![tactic(auto)]

mod built;
mod edits;
mod every_edit;
mod every_offset;
mod every_term;
mod parens;
mod parses;
mod request;
mod stopped;
mod useless;
mod walk;

use built::show_built;
use edits::show_edit;
use every_edit::show_every_edit;
use every_offset::show_every_offset;
use every_term::show_every_term;
use grammar_front::GrammarFront;
use parens::show_parens;
use parses::{show_expr, show_file};
use ra_ap_syntax::utils::{is_identifier, is_raw_identifier};
use ra_ap_syntax::{Edition, FrontEnd};
use request::unescaped;
use std::alloc::Global;
use std::fmt::Write;
use std::io;
use std::process::ExitCode;
use stopped::Stopped;
use tiny_front::Tiny;
use tiny_lexer::TinyLexer;
use useless::Useless;
use walk::show_walk;

fn show_written(out: &mut String, written: &[u8]) -> Result<(), Stopped> {
    match std::str::from_utf8(written) {
        Ok(text) => Ok(out.push_str(text)?),
        Err(_) => Ok(out.push_str("no text\n")?),
    }
}

// What the program writes for an input.
fn show_run(alloc: Global, out: &mut String, command: &str, input: &[u8]) -> Result<(), Stopped> {
    let mut reader = input;
    let mut written: Vec<u8> = Vec::new(alloc);
    let status = syntax_tool::run(alloc, &mut reader, &mut written, command);
    show_written(out, written.as_slice())?;
    Ok(writeln!(out, "status {status}")?)
}

fn show_name(out: &mut String, word: &str) -> Result<(), Stopped> {
    let identifier = is_identifier(word, &Tiny, Edition::CURRENT);
    let raw = is_raw_identifier(word, &Tiny, Edition::CURRENT);
    Ok(writeln!(out, "identifier {identifier}, raw {raw}")?)
}

// A request to a front end.
fn show_by<F: FrontEnd>(
    alloc: Global,
    out: &mut String,
    front: &F,
    request: &str,
    text: &str,
) -> Result<(), Stopped> {
    match request {
        "file" => show_file(alloc, out, front, text),
        "expr" => show_expr(alloc, out, front, text),
        "edit" => show_edit(alloc, out, front, text),
        "edits" => show_every_edit(alloc, out, front, text),
        "offsets" => show_every_offset(alloc, out, front, text),
        _ => Err(Stopped::NoRequest),
    }
}

fn with(language: Useless) -> GrammarFront<TinyLexer, Useless> {
    GrammarFront {
        lexer: TinyLexer,
        language,
    }
}

// A request, given its first word and the rest.
fn show(alloc: Global, out: &mut String, request: &str, rest: &str) -> Result<(), Stopped> {
    match request {
        "name" => return show_name(out, rest),
        "walk" => return show_walk(alloc, out, rest),
        "built" => return show_built(alloc, out, rest),
        "parens" => return show_parens(alloc, out, rest),
        "terms" => return show_every_term(alloc, out, rest),
        "bytes" => return show_run(alloc, out, rest, b"\xff"),
        _ => {}
    }
    let (word, text) = rest.split_once(' ').unwrap_or((rest, ""));
    match (request, word) {
        ("run", _) => show_run(alloc, out, word, text.as_bytes()),
        (_, "tiny") => show_by(alloc, out, &Tiny, request, text),
        (_, "wrong") => show_by(alloc, out, &with(Useless::Wrong), request, text),
        (_, "flat") => show_by(alloc, out, &with(Useless::Flat), request, text),
        _ => Err(Stopped::NoRequest),
    }
}

fn show_line(alloc: Global, out: &mut String, line: &str) -> Result<(), Stopped> {
    writeln!(out, "> {line}")?;
    let line = unescaped(alloc, line)?;
    let (request, rest) = line.as_str().split_once(' ').unwrap_or((line.as_str(), ""));
    show(alloc, out, request, rest)
}

fn answer(rt: &HostRuntime) -> Result<(), Stopped> {
    let input = io::read_to_string(rt.alloc(), rt.reader())?;
    let mut out = String::new(rt.alloc());
    for line in input.as_str().lines() {
        if !line.is_empty() && !line.starts_with('#') {
            show_line(rt.alloc(), &mut out, line)?;
        }
    }
    print!(rt; "{out}")?;
    Ok(())
}

fn main(rt: HostRuntime) -> ExitCode {
    match answer(&rt) {
        Ok(()) => ExitCode::SUCCESS,
        Err(stopped) => {
            let _said = eprintln!(rt; "answers_fronts: {stopped}");
            ExitCode::FAILURE
        }
    }
}
