//! Edits of a file.

use crate::parses::push_errors;
use crate::stopped::Stopped;
use ra_ap_syntax::{Edition, FrontEnd, Parse, ParseError, SourceFile, TextRange, TextSize};
use std::alloc::Global;
use std::fmt::Write;

pub type File = Parse<SourceFile>;

/// The start and the end of the removed range, in bytes, and the inserted text.
#[derive(Clone, Copy)]
pub struct Change<'a> {
    pub start: u32,
    pub end: u32,
    pub insert: &'a str,
}

/// The file after an edit, and the range that was parsed again, unless the whole text was.
pub type Edited = (File, Option<TextRange>);

fn with_piece(
    found: Result<Option<(File, TextRange)>, ParseError>,
) -> Result<Option<Edited>, Stopped> {
    match found? {
        Some((new, range)) => Ok(Some((new, Some(range)))),
        None => Ok(None),
    }
}

fn read_whole(new: Result<File, ParseError>) -> Result<Option<Edited>, Stopped> {
    Ok(Some((new?, None)))
}

/// The file after an edit, or `None` if the text has no such range.
pub fn edited<F: FrontEnd>(
    alloc: Global,
    front: &F,
    old: &File,
    change: Change,
) -> Result<Option<Edited>, Stopped> {
    let root = old.syntax_node();
    let (text, from, to) = (root.as_str(), change.start as usize, change.end as usize);
    if change.start > change.end || !text.is_char_boundary(from) || !text.is_char_boundary(to) {
        return Ok(None);
    }
    let delete = TextRange::new(TextSize::new(change.start), TextSize::new(change.end));
    let insert = change.insert;
    let found = old.incremental_reparse(alloc, front, delete, insert, Edition::CURRENT);
    if let Ok(None) = &found {
        return read_whole(old.full_reparse(alloc, front, delete, insert, Edition::CURRENT));
    }
    with_piece(found)
}

fn show_piece(out: &mut String, piece: Option<TextRange>) -> Result<(), Stopped> {
    match piece {
        Some(range) => Ok(writeln!(out, "piece {range}")?),
        None => Ok(out.push_str("whole\n")?),
    }
}

// Whether a file equals a new parse of its text.
fn is_as_parsed<F: FrontEnd>(
    alloc: Global,
    front: &F,
    file: &File,
    text: &str,
) -> Result<bool, Stopped> {
    let anew = SourceFile::parse(alloc, text, front, Edition::CURRENT)?;
    Ok(*file == anew)
}

fn show_text<F: FrontEnd>(
    alloc: Global,
    out: &mut String,
    front: &F,
    new: &File,
) -> Result<(), Stopped> {
    let root = new.syntax_node();
    let equal = is_as_parsed(alloc, front, new, root.as_str())?;
    Ok(writeln!(out, "{:?}, equal {equal}", root.as_str())?)
}

// The output for an edit.
fn show_edited<F: FrontEnd>(
    alloc: Global,
    out: &mut String,
    front: &F,
    new: &File,
    piece: Option<TextRange>,
) -> Result<(), Stopped> {
    show_piece(out, piece)?;
    show_text(alloc, out, front, new)?;
    push_errors(alloc, out, new)
}

fn show_found<F: FrontEnd>(
    alloc: Global,
    out: &mut String,
    front: &F,
    found: &Option<Edited>,
) -> Result<(), Stopped> {
    match found {
        Some((new, piece)) => show_edited(alloc, out, front, new, *piece),
        None => Ok(out.push_str("no range\n")?),
    }
}

fn show_change<F: FrontEnd>(
    alloc: Global,
    out: &mut String,
    front: &F,
    old: &File,
    change: Change,
) -> Result<(), Stopped> {
    let found = edited(alloc, front, old, change)?;
    show_found(alloc, out, front, &found)
}

fn read_range(range: &str) -> Option<(u32, u32)> {
    let (start, end) = range.split_once(' ')?;
    let start = start.parse::<u32>().ok()?;
    let end = end.parse::<u32>().ok()?;
    Some((start, end))
}

// The edit that a request writes, and its text.
fn read_request(request: &str) -> Option<(Change, &str)> {
    let (range, rest) = request.split_once(" |")?;
    let (insert, text) = rest.split_once('|')?;
    let (start, end) = read_range(range)?;
    Some((Change { start, end, insert }, text))
}

fn show_edit_of<F: FrontEnd>(
    alloc: Global,
    out: &mut String,
    front: &F,
    change: Change,
    text: &str,
) -> Result<(), Stopped> {
    let old = SourceFile::parse(alloc, text, front, Edition::CURRENT)?;
    show_change(alloc, out, front, &old, change)
}

/// An edit that is written `START END |INSERT|TEXT`.
pub fn show_edit<F: FrontEnd>(
    alloc: Global,
    out: &mut String,
    front: &F,
    request: &str,
) -> Result<(), Stopped> {
    match read_request(request) {
        Some((change, text)) => show_edit_of(alloc, out, front, change, text),
        None => Err(Stopped::NoRequest),
    }
}
