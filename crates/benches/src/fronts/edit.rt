//! Edits of a text: one token, one block, or all parsed again.

use super::parse::print;
use super::text::Input;
use crate::stopped::Stopped;
use crate::timing::{least_of, time_once};
use ra_ap_syntax::{
    Edition, Parse, ReplaceError, SourceFile, SyntaxNode, SyntaxToken, TextRange, TextSize,
};
use std::alloc::{AllocError, Global};
use tiny_front::Tiny;

const NOW: Edition = Edition::CURRENT;

type File = Parse<SourceFile>;

// The nanoseconds of an edit, and whether a piece was parsed again.
fn edit(
    rt: &HostRuntime,
    old: &File,
    from: u32,
    to: u32,
    insert: &str,
) -> Result<(u128, bool), Stopped> {
    let root = old.syntax_node();
    let (text, start, end) = (root.as_str(), from as usize, to as usize);
    if from > to || !text.is_char_boundary(start) || !text.is_char_boundary(end) {
        return Err(Stopped::Edit);
    }
    let delete = TextRange::new(TextSize::new(from), TextSize::new(to));
    let nanoseconds = time_once(
        rt,
        || Ok(old.reparse(rt.alloc(), &Tiny, delete, insert, NOW)?),
    )?;
    let piece = old.incremental_reparse(rt.alloc(), &Tiny, delete, insert, NOW)?;
    Ok((nanoseconds, piece.is_some()))
}

fn time_edit(
    rt: &HostRuntime,
    name: &str,
    input: Input,
    old: &File,
    change: (u32, u32, &str),
    runs: u32,
) -> Result<(), Stopped> {
    let (from, to, insert) = change;
    let mut least = u128::MAX;
    for _run in 0..runs {
        let (nanoseconds, piece) = edit(rt, old, from, to, insert)?;
        if piece == (name == "whole") {
            return Err(Stopped::Edit);
        }
        least = least.min(nanoseconds);
    }
    print(rt, name, input, old.syntax_node().as_str(), least)
}

fn replaced(alloc: Global, token: &SyntaxToken) -> Result<SyntaxNode, Stopped> {
    match token.replace_with(alloc, token.kind(), "x") {
        Ok(root) => Ok(root),
        Err(ReplaceError::Memory) => Err(Stopped::Memory(AllocError)),
        Err(ReplaceError::TooLong) => Err(Stopped::Edit),
    }
}

// A copy of the tree's text, one of its text and rows, and a tree with another text of the token at
// an offset.
fn time_copies(
    rt: &HostRuntime,
    input: Input,
    old: &File,
    offset: u32,
    runs: u32,
) -> Result<(), Stopped> {
    let root = old.syntax_node();
    let text = root.as_str();
    let token = root.token_at_offset(TextSize::new(offset)).right_biased();
    let token = token.ok_or(Stopped::Edit)?;
    let alone = least_of(rt, runs, || Ok(String::from_str(rt.alloc(), text)?))?;
    print(rt, "text", input, text, alone)?;
    let whole = least_of(rt, runs, || Ok(root.clone_subtree(rt.alloc())?))?;
    print(rt, "copy", input, text, whole)?;
    let new = least_of(rt, runs, || replaced(rt.alloc(), &token))?;
    print(rt, "replace", input, text, new)
}

/// Times copies of a tree's text and rows, and edits of it: another text of a token, and edits that
/// parse one token, one block and all again.
pub fn time_edits(rt: &HostRuntime, input: Input, runs: u32) -> Result<(), Stopped> {
    let text = input.text(rt.alloc())?;
    let old = SourceFile::parse(rt.alloc(), text.as_str(), &Tiny, NOW)?;
    let function = input.function(text.as_str()).ok_or(Stopped::Edit)?;
    let rest = text.as_str().get(function..).ok_or(Stopped::Edit)?;
    let statement = rest.find(";").ok_or(Stopped::Edit)?;
    let at = u32::try_from(function).unwrap_or(0);
    let name = at.saturating_add(3);
    let block = at.saturating_add(u32::try_from(statement).unwrap_or(0));
    time_copies(rt, input, &old, name, runs)?;
    time_edit(
        rt,
        "token",
        input,
        &old,
        (name, name.saturating_add(1), "x"),
        runs,
    )?;
    time_edit(rt, "block", input, &old, (block, block, " + 1"), runs)?;
    time_edit(rt, "whole", input, &old, (at, at, "fn g() {} "), runs)
}
