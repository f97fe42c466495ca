//! Parses, their errors, and edits of them.
use crate::asking::{First, Stopped, say};
use ra_ap_syntax::{Edition, OkError, Parse, ParseError, SourceFile, TextRange, TextSize};
use std::alloc::Global;
use tiny_front::Tiny;

type File = Parse<SourceFile>;

const NOW: Edition = Edition::CURRENT;

const TEXT: &str = "fn foo() { 1 + 1 }\n";

const BROKEN: &str = "fn f() { 1 +";

// An edit of the name, of a token in the block, and of what precedes all.
const EDITS: [Edit; 3] = [
    ("reparse of a token", 3, 6, "main"),
    ("reparse of a block", 11, 12, "2 *"),
    ("reparse of all", 0, 0, "fn g() {}\n"),
];

// The name of the edit, the start and the end of the removed range in bytes, and the inserted text.
type Edit = (&'static str, u32, u32, &'static str);

// The file after an edit; `None` where the text has no such range.
fn edited(alloc: Global, old: &File, edit: Edit) -> Result<Option<File>, ParseError> {
    let (_, start, end, insert) = edit;
    let root = old.syntax_node();
    let (text, from, to) = (root.as_str(), start as usize, end as usize);
    if start > end || !text.is_char_boundary(from) || !text.is_char_boundary(to) {
        return Ok(None);
    }
    let delete = TextRange::new(TextSize::new(start), TextSize::new(end));
    Ok(Some(old.reparse(alloc, &Tiny, delete, insert, NOW)?))
}

// The piece that is parsed again, if it is not the whole text.
fn replaced(alloc: Global, old: &File, edit: Edit) -> Result<Option<TextRange>, ParseError> {
    let (_, start, end, insert) = edit;
    let root = old.syntax_node();
    let (text, from, to) = (root.as_str(), start as usize, end as usize);
    if start > end || !text.is_char_boundary(from) || !text.is_char_boundary(to) {
        return Ok(None);
    }
    let delete = TextRange::new(TextSize::new(start), TextSize::new(end));
    let piece = old.incremental_reparse(alloc, &Tiny, delete, insert, NOW)?;
    Ok(piece.map(|(_, range)| range))
}

fn edit(rt: &HostRuntime, old: &File, edit: Edit) -> Result<(), Stopped> {
    let before = old.clone()?;
    let (new, first) = crate::asked!(edit.0, edited(rt.alloc(), old, edit));
    let len = new.map_or(0, |file| file.syntax_node().text_range().len().raw());
    say(rt, edit.0, first, *old == before, len)
}

fn piece(rt: &HostRuntime, old: &File, edit: Edit) -> Result<(), Stopped> {
    let before = old.clone()?;
    let (range, first) = crate::asked!("incremental_reparse", replaced(rt.alloc(), old, edit));
    let nothing = TextRange::empty(TextSize::new(0));
    let range = range.unwrap_or(nothing);
    say(rt, "incremental_reparse", first, *old == before, range)
}

fn errors(rt: &HostRuntime, name: &'static str, parse: &File) -> Result<(), Stopped> {
    let before = parse.clone()?;
    let (errors, first) = crate::asked!(name, parse.errors(rt.alloc()));
    say(rt, name, first, *parse == before, errors.len())
}

fn dump(rt: &HostRuntime, parse: &File) -> Result<(), Stopped> {
    let before = parse.clone()?;
    let (dump, first) = crate::asked!("debug_dump", parse.debug_dump(rt.alloc()));
    say(rt, "debug_dump", first, *parse == before, dump.len())
}

// The result of `ok`, as a word.
fn word(answer: &Result<SourceFile, OkError<SourceFile>>) -> &'static str {
    match answer {
        Ok(_) => "the file",
        Err(OkError::Errors(_, _)) => "errors",
        Err(OkError::OtherRoot(_)) => "another root",
        Err(OkError::Memory(_)) => "no memory",
    }
}

fn error_count(alloc: Global, parse: &File) -> Result<usize, Stopped> {
    let (errors, _) = crate::asked!("errors after ok", parse.errors(alloc));
    Ok(errors.len())
}

fn ok_word(alloc: Global, parse: File) -> &'static str {
    word(&parse.ok(alloc))
}

// The parse that `ok` returns when memory runs out is its receiver, and has its errors.
fn handed_back(
    rt: &HostRuntime,
    name: &'static str,
    parse: &File,
    back: File,
) -> Result<(), Stopped> {
    let count = error_count(rt.alloc(), parse)?;
    let stands = back == *parse && error_count(rt.alloc(), &back)? == count;
    say(rt, name, First::Refused, stands, ok_word(rt.alloc(), back))
}

fn ok(rt: &HostRuntime, name: &'static str, parse: &File) -> Result<(), Stopped> {
    match parse.clone()?.ok(rt.alloc()) {
        Err(OkError::Memory(back)) => handed_back(rt, name, parse, back),
        answer => say(rt, name, First::Answered, true, word(&answer)),
    }
}

fn parsed(rt: &HostRuntime, text: &str) -> Result<File, Stopped> {
    let (file, first) = crate::asked!("parse", SourceFile::parse(rt.alloc(), text, &Tiny, NOW));
    let len = file.syntax_node().text_range().len().raw();
    say(rt, "parse", first, true, len)?;
    Ok(file)
}

fn ask_file(rt: &HostRuntime, file: &File) -> Result<(), Stopped> {
    for change in EDITS {
        edit(rt, file, change)?;
        piece(rt, file, change)?;
    }
    ok(rt, "ok of a file", file)
}

fn ask_broken(rt: &HostRuntime, broken: &File) -> Result<(), Stopped> {
    errors(rt, "errors", broken)?;
    dump(rt, broken)?;
    ok(rt, "ok of a broken file", broken)
}

/// Makes each call that parses, and repeats it if memory was refused.
pub fn ask(rt: &HostRuntime) -> Result<(), Stopped> {
    ask_file(rt, &parsed(rt, TEXT)?)?;
    ask_broken(rt, &parsed(rt, BROKEN)?)
}
