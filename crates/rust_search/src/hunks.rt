//! The hunks of a patch, by an edit of a text.

use rust_report::lines_of;
use std::alloc::{AllocError, Global};
use std::io;
use std::io::Write;
use text_edit::{Indel, TextEdit};

// Lines of the old text that an edit changes, from the start of the first to the end of the last,
// and their new text so far: what stands for the old text up to `done`.
#[derive(Drop)]
struct Hunk {
    start: usize,
    end: usize,
    done: usize,
    new: String,
}

// Where the line of an offset starts.
fn line_start(text: &str, offset: usize) -> usize {
    let before = text.get(..offset).unwrap_or("");
    match before.rfind('\n') {
        Some(at) => at.saturating_add(1),
        None => 0,
    }
}

// Where the line of an offset ends, behind its line feed.
fn line_end(text: &str, offset: usize) -> usize {
    let behind = text.get(offset..).unwrap_or("");
    match behind.find('\n') {
        Some(at) => offset.saturating_add(at).saturating_add(1),
        None => text.len(),
    }
}

fn starts_at(indel: &Indel) -> usize {
    indel.deleted().start().raw() as usize
}

fn ends_at(indel: &Indel) -> usize {
    indel.deleted().end().raw() as usize
}

// Appends the old text of a range.
fn push_old(new: &mut String, text: &str, from: usize, to: usize) -> Result<(), AllocError> {
    new.push_str(text.get(from..to).unwrap_or(""))
}

// Adds the change of one range to a hunk.
fn push_change(hunk: &mut Hunk, text: &str, indel: &Indel) -> Result<(), AllocError> {
    push_old(&mut hunk.new, text, hunk.done, starts_at(indel))?;
    hunk.new.push_str(indel.inserted())?;
    hunk.done = ends_at(indel);
    hunk.end = line_end(text, ends_at(indel));
    Ok(())
}

/// The whole lines that a replacement changes, and what they become by it alone.
pub fn lines_by<'a>(
    alloc: Global,
    text: &'a str,
    indel: &Indel,
) -> Result<(&'a str, String), AllocError> {
    let start = line_start(text, starts_at(indel));
    let end = line_end(text, ends_at(indel));
    let mut new = String::new(alloc);
    push_old(&mut new, text, start, starts_at(indel))?;
    new.push_str(indel.inserted())?;
    push_old(&mut new, text, ends_at(indel), end)?;
    Ok((text.get(start..end).unwrap_or(""), new))
}

// The hunks: a run of changed lines each.
fn hunks_of(alloc: Global, text: &str, edit: &TextEdit) -> Result<Vec<Hunk>, AllocError> {
    let mut hunks: Vec<Hunk> = Vec::new(alloc);
    for indel in edit.iter() {
        let start = line_start(text, starts_at(indel));
        let is_near = match hunks.last() {
            Some(last) => start <= last.end,
            None => false,
        };
        if !is_near {
            hunks.push(Hunk {
                start,
                end: start,
                done: start,
                new: String::new(alloc),
            })?;
        }
        if let Some(last) = hunks.last_mut() {
            push_change(last, text, indel)?;
        }
    }
    Ok(hunks)
}

/// Writes lines with a sign before each.
pub fn write_lines<W: Write>(out: &mut W, sign: &str, lines: &[&str]) -> io::Result<()> {
    for line in lines {
        write!(out, "{sign}{line}")?;
        if !line.ends_with('\n') {
            writeln!(out, "\n\\ No newline at end of file")?;
        }
    }
    Ok(())
}

// How many lines a text has that end in it.
fn feeds(text: &str) -> usize {
    text.bytes().filter(|byte| *byte == b'\n').count()
}

// The numbers of the lines that are next, in the old text and in the new one.
#[derive(Clone, Copy)]
struct Next {
    old: usize,
    new: usize,
}

// Writes the lines of a hunk, the first of which have these numbers.
fn write_changed<W: Write>(out: &mut W, next: Next, old: &[&str], new: &[&str]) -> io::Result<()> {
    writeln!(
        out,
        "@@ -{},{} +{},{} @@",
        next.old,
        old.len(),
        next.new,
        new.len()
    )?;
    write_lines(out, "-", old)?;
    write_lines(out, "+", new)
}

// Writes a hunk, and passes over its lines.
fn write_hunk<W: Write>(
    alloc: Global,
    out: &mut W,
    text: &str,
    hunk: &mut Hunk,
    next: &mut Next,
) -> io::Result<()> {
    push_old(&mut hunk.new, text, hunk.done, hunk.end)?;
    let old = lines_of(alloc, text.get(hunk.start..hunk.end).unwrap_or(""))?;
    let new = lines_of(alloc, hunk.new.as_str())?;
    write_changed(out, *next, &old, &new)?;
    next.old = next.old.saturating_add(old.len());
    next.new = next.new.saturating_add(new.len());
    Ok(())
}

// Passes over the lines of a text that is in no hunk.
fn pass(next: &mut Next, text: &str) {
    let lines = feeds(text);
    next.old = next.old.saturating_add(lines);
    next.new = next.new.saturating_add(lines);
}

/// Writes a hunk for each run of lines that an edit changes, without context lines. The edit has to
/// be one of the text.
pub fn write_hunks<W: Write>(
    alloc: Global,
    out: &mut W,
    text: &str,
    edit: &TextEdit,
) -> io::Result<()> {
    let mut next = Next { old: 1, new: 1 };
    let mut at = 0usize;
    let mut hunks = hunks_of(alloc, text, edit)?;
    for hunk in &mut hunks {
        pass(&mut next, text.get(at..hunk.start).unwrap_or(""));
        write_hunk(alloc, out, text, hunk, &mut next)?;
        at = hunk.end;
    }
    Ok(())
}
