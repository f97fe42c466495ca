//! Every range of a text, edited in five ways.

use crate::edits::{Change, File, edited};
use crate::stopped::Stopped;
use ra_ap_syntax::{
    Edition, FrontEnd, NodeOrToken, SourceFile, Step, SyntaxElement, SyntaxNode, SyntaxToken,
    SyntaxTreeBuilder, TextRange, TextSize,
};
use std::alloc::Global;
use std::fmt::Write;

const INSERTS: [&str; 5] = ["", "x", "}", "\"", "\n"];

// The text after an edit, by concatenation.
fn spliced(alloc: Global, text: &str, change: Change) -> Result<String, Stopped> {
    let front = text.get(..change.start as usize).unwrap_or("");
    let back = text.get(change.end as usize..).unwrap_or("");
    let insert = change.insert;
    Ok(format!(in alloc; "{front}{insert}{back}")?)
}

// Whether all errors are inside the text.
fn errors_lie(alloc: Global, file: &File) -> Result<bool, Stopped> {
    let range = file.syntax_node().text_range();
    for error in &file.errors(alloc)? {
        if !range.contains_range(error.range()) {
            return Ok(false);
        }
    }
    Ok(true)
}

// The tree that the front end parses from a node's text alone; `None` if such a node may not be
// parsed alone.
fn read_alone<F: FrontEnd>(
    alloc: Global,
    front: &F,
    node: &SyntaxNode,
) -> Result<Option<SyntaxNode>, Stopped> {
    let first = node.first_child_or_token().map(|child| child.kind());
    let parent = node.parent().map(|parent| parent.kind());
    let Some(reparser) = front.reparser(node.kind(), first, parent) else {
        return Ok(None);
    };
    let text = node.as_str();
    let output = front.parse_piece(alloc, reparser, text, Edition::CURRENT)?;
    let mut builder = SyntaxTreeBuilder::new(alloc);
    let mut at: usize = 0;
    for step in output.steps {
        match step {
            Step::Enter(kind) => builder.start_node(kind)?,
            Step::Token(kind, len) => {
                let end = at.saturating_add(len.raw() as usize);
                builder.token(kind, text.get(at..end).unwrap_or(""))?;
                at = end;
            }
            Step::Exit => builder.finish_node()?,
            Step::Error(_position, _message) => {}
        }
    }
    Ok(Some(builder.finish()?.syntax_node()))
}

// Whether a token's text alone is one token of the same kind.
fn is_single<F: FrontEnd>(alloc: Global, front: &F, token: &SyntaxToken) -> Result<bool, Stopped> {
    let single = front.single_token(alloc, token.text(), Edition::CURRENT)?;
    Ok(single.map(|(kind, _error)| kind) == Some(token.kind()))
}

// Whether a node equals the parse of its text alone; `None` if it may not be parsed alone.
fn is_as_read_alone<F: FrontEnd>(
    alloc: Global,
    front: &F,
    node: &SyntaxNode,
) -> Result<Option<bool>, Stopped> {
    match read_alone(alloc, front, node)? {
        Some(alone) => Ok(Some(node.clone_subtree(alloc)? == alone)),
        None => Ok(None),
    }
}

// The same for a node with this range; `None` also if its range is another.
fn is_as_read_over<F: FrontEnd>(
    alloc: Global,
    front: &F,
    node: &SyntaxNode,
    range: TextRange,
) -> Result<Option<bool>, Stopped> {
    if node.text_range() == range {
        is_as_read_alone(alloc, front, node)
    } else {
        Ok(None)
    }
}

// Whether one of the nodes from an element up that have this range and may be parsed alone equals
// the parse of its text. The root of a piece of `wrong` has the same range as the `ERROR` in it.
fn is_node_piece<F: FrontEnd>(
    alloc: Global,
    front: &F,
    covering: &SyntaxElement,
    range: TextRange,
) -> Result<bool, Stopped> {
    for node in covering.ancestors() {
        if is_as_read_over(alloc, front, &node, range)? == Some(true) {
            return Ok(true);
        }
    }
    Ok(false)
}

fn token_with_range(element: &SyntaxElement, range: TextRange) -> Option<&SyntaxToken> {
    match element {
        NodeOrToken::Token(token) if token.text_range() == range => Some(token),
        _ => None,
    }
}

// Whether the token or node with a range equals the result of lexing or parsing its text alone.
fn is_piece<F: FrontEnd>(
    alloc: Global,
    front: &F,
    root: &SyntaxNode,
    range: TextRange,
) -> Result<bool, Stopped> {
    let covering = root.covering_element(range);
    match token_with_range(&covering, range) {
        Some(token) => is_single(alloc, front, token),
        None => is_node_piece(alloc, front, &covering, range),
    }
}

// The range in the new text of the piece that was parsed again.
fn new_range(old: &SyntaxNode, new: &SyntaxNode, replaced: TextRange) -> TextRange {
    let behind = old
        .text_range()
        .end()
        .raw()
        .saturating_sub(replaced.end().raw());
    let end = new.text_range().end().raw().saturating_sub(behind);
    let start = replaced.start().raw().min(end);
    TextRange::new(TextSize::new(start), TextSize::new(end))
}

// Whether the text after an edit is the concatenated one.
fn is_spliced(
    alloc: Global,
    before: &SyntaxNode,
    after: &SyntaxNode,
    change: Change,
) -> Result<bool, Stopped> {
    let expected = spliced(alloc, before.as_str(), change)?;
    Ok(after.as_str() == expected.as_str())
}

// Whether what was parsed again in place of a range is right.
fn is_right_piece<F: FrontEnd>(
    alloc: Global,
    front: &F,
    old: &File,
    new: &File,
    replaced: TextRange,
) -> Result<bool, Stopped> {
    let before = old.syntax_node();
    let after = new.syntax_node();
    is_piece(alloc, front, &after, new_range(&before, &after, replaced))
}

// Whether an edit keeps the text and the errors right.
fn is_right_file(alloc: Global, old: &File, new: &File, change: Change) -> Result<bool, Stopped> {
    Ok(
        is_spliced(alloc, &old.syntax_node(), &new.syntax_node(), change)?
            && errors_lie(alloc, new)?,
    )
}

// Whether an edit keeps the text, the errors and the piece right.
fn is_right_edit<F: FrontEnd>(
    alloc: Global,
    front: &F,
    old: &File,
    change: Change,
    new: &File,
    piece: Option<TextRange>,
) -> Result<bool, Stopped> {
    let right = is_right_file(alloc, old, new, change)?;
    match piece {
        Some(replaced) => Ok(is_right_piece(alloc, front, old, new, replaced)? && right),
        None => Ok(right),
    }
}

// Whether an edit is right, and whether it parsed a piece.
fn judged<F: FrontEnd>(
    alloc: Global,
    front: &F,
    old: &File,
    change: Change,
    new: &File,
    piece: Option<TextRange>,
) -> Result<(bool, bool), Stopped> {
    let right = is_right_edit(alloc, front, old, change, new, piece)?;
    Ok((right, piece.is_some()))
}

// Whether an edit keeps the text, the errors and the piece right; and whether it parsed a piece.
fn try_edit<F: FrontEnd>(
    alloc: Global,
    front: &F,
    old: &File,
    change: Change,
) -> Result<(bool, bool), Stopped> {
    let found = edited(alloc, front, old, change)?;
    match &found {
        Some((new, piece)) => judged(alloc, front, old, change, new, *piece),
        None => Ok((false, false)),
    }
}

// How many edits were tried, and how many of them parsed a piece.
#[derive(Clone, Copy)]
struct Tried {
    edits: u32,
    pieces: u32,
}

fn show_wrong(out: &mut String, change: Change) -> Result<(), Stopped> {
    let (start, end, insert) = (change.start, change.end, change.insert);
    Ok(writeln!(out, "wrong: {start} {end} {insert:?}")?)
}

fn show_try<F: FrontEnd>(
    alloc: Global,
    out: &mut String,
    front: &F,
    old: &File,
    tried: &mut Tried,
    change: Change,
) -> Result<(), Stopped> {
    let (right, piece) = try_edit(alloc, front, old, change)?;
    tried.edits = tried.edits.saturating_add(1);
    tried.pieces = tried.pieces.saturating_add(piece as u32);
    if right {
        Ok(())
    } else {
        show_wrong(out, change)
    }
}

// A range, edited with each of the insertions.
fn show_inserts<F: FrontEnd>(
    alloc: Global,
    out: &mut String,
    front: &F,
    old: &File,
    tried: &mut Tried,
    start: u32,
    end: u32,
) -> Result<(), Stopped> {
    for insert in INSERTS {
        show_try(alloc, out, front, old, tried, Change { start, end, insert })?;
    }
    Ok(())
}

// The ranges from an offset to each that is not before it.
fn show_ends<F: FrontEnd>(
    alloc: Global,
    out: &mut String,
    front: &F,
    old: &File,
    tried: &mut Tried,
    start: u32,
    behind: u32,
) -> Result<(), Stopped> {
    for end in start..behind {
        show_inserts(alloc, out, front, old, tried, start, end)?;
    }
    Ok(())
}

fn show_edits<F: FrontEnd>(
    alloc: Global,
    out: &mut String,
    front: &F,
    old: &File,
) -> Result<(), Stopped> {
    let behind = old.syntax_node().text_range().end().raw().saturating_add(1);
    let mut tried = Tried {
        edits: 0,
        pieces: 0,
    };
    for start in 0..behind {
        show_ends(alloc, out, front, old, &mut tried, start, behind)?;
    }
    Ok(writeln!(out, "edits {}, pieces {}", tried.edits, tried.pieces)?)
}

/// Each range of a text, edited with each of five insertions.
pub fn show_every_edit<F: FrontEnd>(
    alloc: Global,
    out: &mut String,
    front: &F,
    text: &str,
) -> Result<(), Stopped> {
    let old = SourceFile::parse(alloc, text, front, Edition::CURRENT)?;
    show_edits(alloc, out, front, &old)
}
