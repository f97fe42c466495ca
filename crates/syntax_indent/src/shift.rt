//! Nodes whose lines have more or fewer blanks.
ghost use Rattle.std.specs.Prelude.{◌≡◌, ◌∷◌, [], ◌++◌, ◌<◌, map, OnOk, IfOk, IfErr, string_bytes, encode_utf8_all};
ghost use Rattle.std.specs.Str.{chars};
ghost use Rattle.tree_model.specs.Tree.{cons, nil, size};
ghost use Rattle.tree_model.specs.Rows.{tree_at};
ghost use Rattle.tree_model.specs.Cursor.{focus};
ghost use Rattle.tree_model.specs.Events.{leaf, events_of};
ghost use Rattle.tree_model.specs.Edit.{root_of};
ghost use Rattle.tree_edits.specs.Walked.{step_events};
ghost use Rattle.syntax_indent.specs.Level.{level_in};
ghost use Rattle.syntax_indent.specs.Shifted.{kept, left_after, without_blanks, shifted_space, shifted_text, shifted_event, shifted, indented, dedented, IsShort, IsNotMade};

use crate::level::{IndentLevel, has_newline};
use lossless_tree::{FinishError, SyntaxNode, TreeBuilder};
use std::alloc::{AllocError, Global};
use syntax_kind::SyntaxKind;
use tree_rows::Table;

// What is done to the lines of a node: levels more or fewer.
#[derive(Clone, Copy, Drop)]
enum Shift {
    More(u8),
    Fewer(u8),
}

/// The node, as the root of a tree of its own, with its lines indented by this many levels more;
/// its first line stays.
///
/// Each `WHITESPACE` token with a newline gets 4 blanks for each level at its end, so behind its
/// last newline: lines that are empty stay empty. No other token changes, so lines inside a string
/// or a comment stay where they are. With level 1, an `x` in column 4 is in column 8 then, and a
/// `}` in column 0 is in column 4. With level 0 it is a copy.
///
/// Takes time and memory linear in the node and in what is put in.
///
/// # Errors
///
/// `TooLong` if the new text has 2^32 bytes or more, and `Memory` if memory runs out; no other.
pub fn indent(
    alloc: Global,
    node: &SyntaxNode,
    level: IndentLevel,
) -> Result<SyntaxNode, FinishError>
    ensures ok { IfOk result (λ new. new ≡ root_of (indented level.number (focus node.now))) }
    ensures short { OnOk result (IsShort (indented level.number (focus node.now))) }
    ensures refused { IfErr result (IsNotMade (indented level.number (focus node.now))) }
{
    shifted(alloc, node, Shift::More(level.number))
}

/// The node, as the root of a tree of its own, with its lines indented by this many levels less;
/// its first line stays.
///
/// In each `WHITESPACE` token, of the blanks that are directly behind a newline, the first 4 for
/// each level are left out: all of them, if there are no more. So `dedent` by any level takes away
/// blanks alone. No other token changes. With level 1, an `x` in column 6 is in column 2 then, and
/// a `}` in column 1 is in column 0. A tab is no blank.
///
/// Takes time and memory linear in the node.
///
/// # Errors
///
/// `Memory` if memory runs out. The text does not get longer.
pub fn dedent(
    alloc: Global,
    node: &SyntaxNode,
    level: IndentLevel,
) -> Result<SyntaxNode, FinishError>
    ensures ok { IfOk result (λ new. new ≡ root_of (dedented level.number (focus node.now))) }
    ensures short { OnOk result (IsShort (dedented level.number (focus node.now))) }
    ensures refused { IfErr result (IsNotMade (dedented level.number (focus node.now))) }
{
    shifted(alloc, node, Shift::Fewer(level.number))
}

/// The node, as the root of a tree of its own, as if the line that it begins in were not indented:
/// [`dedent`] by its own level, [`IndentLevel::from_node`]. Takes the time of these two.
///
/// # Errors
///
/// Those of [`dedent`].
pub fn reset_indent(alloc: Global, node: &SyntaxNode) -> Result<SyntaxNode, FinishError>
    ensures ok { IfOk result
        (λ new. new ≡ root_of (dedented (level_in node.now) (focus node.now))) }
    ensures short { OnOk result (IsShort (dedented (level_in node.now) (focus node.now))) }
    ensures refused { IfErr result (IsNotMade (dedented (level_in node.now) (focus node.now))) }
{
    dedent(alloc, node, IndentLevel::from_node(node))
}

// How many blanks may be left out behind a character.
fn left_after(count: usize, left: usize, c: char) -> usize
    ensures { result ≡ left_after count left c }
{
    match c {
        '\n' => count,
        ' ' => left.saturating_sub(1),
        _ => 0,
    }
}

// Appends a character, unless it is a blank that is left out.
fn push_kept(out: &mut String, left: usize, c: char) -> Result<(), AllocError>
    ensures { OnOk result
        (string_bytes out.new ≡ string_bytes out.old ++ encode_utf8_all (kept left c)) }
{
    if c == ' ' && left > 0 {
        Ok(())
    } else {
        out.push(c)
    }
}

// Appends the text without the first blanks behind each newline.
fn push_dedented(out: &mut String, text: &str, count: usize) -> Result<(), AllocError>
    ensures { OnOk result
        (string_bytes out.new
        ≡ string_bytes out.old ++ encode_utf8_all (without_blanks count 0 (chars text.now))) }
{
    let mut left = 0;
    for c in text.chars() {
        push_kept(out, left, c)?;
        left = left_after(count, left, c);
    }
    Ok(())
}

// The text of white space after the shift.
fn shifted_space(alloc: Global, text: &str, shift: Shift) -> Result<String, AllocError>
    ensures { IfOk result (λ s. string_bytes s ≡ shifted_space shift text.now) }
{
    let mut out = String::new(alloc);
    match shift {
        Shift::More(levels) => {
            out.push_str(text)?;
            if has_newline(text) {
                out.push_str("    ".repeat(alloc, levels as usize)?.as_str())?;
            }
        }
        Shift::Fewer(levels) => push_dedented(&mut out, text, levels as usize * 4)?,
    }
    Ok(out)
}

// Appends a token after the shift.
fn push_token(
    alloc: Global,
    out: &mut TreeBuilder,
    kind: SyntaxKind,
    text: &str,
    shift: Shift,
) -> Result<(), AllocError>
    ensures { OnOk result (out.new ≡ out.old ++ leaf kind (shifted_text shift kind text.now) ∷ []) }
{
    if kind != SyntaxKind::WHITESPACE {
        return out.token(kind, text);
    }
    let text = shifted_space(alloc, text, shift)?;
    out.token(kind, text.as_str())
}

// Appends what one step of a walk adds.
fn push_step(
    alloc: Global,
    out: &mut TreeBuilder,
    table: &Table,
    row: usize,
    enters: bool,
    shift: Shift,
) -> Result<(), AllocError>
    requires { row < size table.now }
    ensures { OnOk result
        (out.new
        ≡ out.old ++ map (shifted_event shift) (step_events (tree_at table.now row) enters)) }
{
    let is_token = table.is_token_at(row);
    if enters {
        let kind = table.kind_at(row);
        if is_token {
            push_token(alloc, out, kind, table.text_at(row), shift)
        } else {
            out.start_node(kind)
        }
    } else if is_token {
        Ok(())
    } else {
        out.finish_node()
    }
}

// Appends the events of the subtree at a row.
fn push_rows(
    alloc: Global,
    out: &mut TreeBuilder,
    table: &Table,
    row: usize,
    shift: Shift,
) -> Result<(), AllocError>
    requires { row < size table.now }
    ensures { OnOk result
        (out.new ≡ out.old ++ events_of (cons (shifted shift (tree_at table.now row)) nil)) }
{
    let mut next = row;
    let mut innermost = None;
    while let Some(step) = table.walk_step(row, next, innermost) {
        next = step.next;
        innermost = step.innermost;
        push_step(alloc, out, table, step.row, step.enters, shift)?;
    }
    Ok(())
}

// The node after the shift, as the root of a tree of its own.
fn shifted(alloc: Global, node: &SyntaxNode, shift: Shift) -> Result<SyntaxNode, FinishError>
    ensures ok { IfOk result (λ new. new ≡ root_of (shifted shift (focus node.now))) }
    ensures short { OnOk result (IsShort (shifted shift (focus node.now))) }
    ensures refused { IfErr result (IsNotMade (shifted shift (focus node.now))) }
{
    // For the proof: there is a node.
    node.placed();
    let mut out = TreeBuilder::new(alloc);
    match push_rows(alloc, &mut out, node.table().as_ref(), node.row(), shift) {
        Ok(()) => out.finish(),
        Err(_) => Err(FinishError::Memory),
    }
}
