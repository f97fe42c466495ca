//! One token that gets another text by an edit, where the front end sees that nothing else changes.
ghost use Rattle.std.specs.Prelude.{◌≡◌, ◌↔◌, IsTrue, ◌+◌, ◌-◌, ◌<◌, ◌≤◌, ◌^◌, [], length, IfOk, IfSome, MatchOption, string_bytes, take, drop, position};
ghost use Rattle.tree_model.specs.Tree.{text};
ghost use Rattle.tree_model.specs.Cursor.{IsRoot};
ghost use Rattle.ras_parsing.specs.Edit.{IsEditOf, edited, covered, edited_at, replacing};
ghost use Rattle.ras_parsing.specs.Document.{is_brace_byte, brace_before, brace_behind, window_around, BeginsToken, edited_in, counted_from, is_retold_in, range_after, StandsAlone, NoTokenPath, IsRetoldOf};
ghost use Rattle.ras_parsing.specs.ExactSteps.{FitsAround, IsRetoldToken};

use crate::exact::{Counted, is_quiet_from, range_from, spliced};
use crate::ordered::lexer_part;
use crate::parse::Parse;
use crate::reparse::edited_text;
use exact_front::ExactFront;
use lossless_tree::laws::token_is_placed;
use lossless_tree::{ReplaceError, SyntaxNode, SyntaxToken, TextRange, TextSize};
use ras_front_end::Edition;
use std::alloc::{AllocError, Global};

/// The longest part of a text, in bytes, that is lexed again for an edit of one token.
const LONGEST_WINDOW: u32 = 32_768;

// A token with its new text.
#[derive(Drop)]
pub(crate) struct RetoldToken {
    token: SyntaxToken,
    text: String,
}

fn is_brace(byte: u8) -> bool
    ensures { result ≡ is_brace_byte byte }
{
    byte == b'{' || byte == b'}'
}

// Where the last brace before a byte is; at the start, if there is none.
#[tactic(auto, unfolding(crate::specs::Document::brace_before))]
fn brace_before(bytes: &[u8], end: usize) -> usize
    requires { end ≤ length bytes.now }
    ensures value { result ≡ brace_before bytes.now end }
    ensures before { result ≤ end - 1 }
{
    let mut at = end;
    while at > 0 {
        at -= 1;
        if is_brace(bytes[at]) {
            return at;
        }
    }
    0
}

fn first_brace(bytes: &[u8]) -> Option<usize>
    ensures value { result ≡ position is_brace_byte bytes.now }
    ensures within { IfSome result (λ n. n < length bytes.now) }
{
    bytes.iter().position(|byte| is_brace(*byte))
}

// Where the first brace from a byte on ends; at the end of the text, if there is none.
fn brace_behind(bytes: &[u8], start: usize) -> usize
    requires { start ≤ length bytes.now }
    ensures value { result ≡ brace_behind bytes.now start }
    ensures behind { start ≤ result }
    ensures within { result ≤ length bytes.now }
{
    match first_brace(&bytes[start..]) {
        Some(count) => start + (count + 1),
        None => bytes.len(),
    }
}

// The part of a text around a range, with the nearest brace on each side.
fn window_around(text: &str, range: TextRange) -> TextRange
    requires within { range.end ≤ length text.now }
    requires short { length text.now < 2 ^ 32 }
    ensures value { result ≡ window_around text.now range }
    ensures fits { FitsAround text.now range result }
    ensures early { result.start ≤ range.start - 1 }
{
    let bytes = text.as_bytes();
    let start = brace_before(bytes, range.start().raw() as usize);
    let end = brace_behind(bytes, range.end().raw() as usize);
    TextRange::new(TextSize::new(start as u32), TextSize::new(end as u32))
}

// A range, counted from a byte.
fn counted_from(range: TextRange, at: TextSize) -> TextRange
    requires { at ≤ range.start }
    ensures { result ≡ counted_from at range }
{
    let end = TextSize::new(range.end().raw() - at.raw());
    TextRange::new(TextSize::new(range.start().raw() - at.raw()), end)
}

// Whether a token of the tree begins at a byte, or the text.
fn begins_token(root: &SyntaxNode, at: TextSize) -> bool
    requires root { IsRoot root.now }
    requires fits { at + 1 < 2 ^ 32 }
    ensures { IsTrue result ↔ BeginsToken root.now.tree at }
{
    if at.raw() == 0 {
        return true;
    }
    let byte = TextRange::new(at, TextSize::new(at.raw() + 1));
    match root.covering_element(byte).into_token() {
        Some(token) => token.text_range().start().raw() == at.raw(),
        None => false,
    }
}

// Whether a window may be lexed by itself: it is not too long, it begins with a token of the tree,
// and no error of the lexer is behind it.
fn stands_alone<T>(old: &Parse<T>, count: usize, window: TextRange) -> bool
    requires { window.start + 1 < 2 ^ 32 }
    ensures { IsTrue result ↔ StandsAlone old.now count window }
{
    window.len().raw() <= LONGEST_WINDOW
        && begins_token(old.root(), window.start())
        && is_quiet_from(window.end(), lexer_part(old.stored(), count))
}

// What a window of a text has after an edit inside of it.
fn edited_in(
    alloc: Global,
    text: &str,
    window: TextRange,
    delete: TextRange,
    insert: &str,
) -> Result<String, AllocError>
    requires edit { IsEditOf text.now (replacing delete insert.now) }
    requires window { FitsAround text.now delete window }
    ensures { IfOk result (λ s. string_bytes s
        ≡ edited_in text.now window (replacing delete insert.now)) }
{
    let piece = &text[window.start().raw() as usize..window.end().raw() as usize];
    edited_text(alloc, piece, window.start(), delete, insert)
}

// Whether the front end sees that only the text of one token of a window is another one.
fn is_retold<F: ExactFront>(
    alloc: Global,
    front: &F,
    text: &str,
    window: TextRange,
    token: TextRange,
    delete: TextRange,
    insert: &str,
    edition: Edition,
) -> Result<bool, AllocError>
    requires edit { IsEditOf text.now (replacing delete insert.now) }
    requires window { FitsAround text.now token window }
    requires around { (token.start ≤ delete.start) × (delete.end ≤ token.end) }
    ensures { IfOk result (λ b. b
        ≡ is_retold_in (F.exact front.now) edition text.now window token
        (replacing delete insert.now)) }
{
    let new = edited_in(alloc, text, window, delete, insert)?;
    let start = window.start().raw() as usize;
    let end = window.end().raw() as usize;
    front.is_retold(
        alloc,
        &text[..start],
        &text[start..end],
        new.as_str(),
        &text[end..],
        counted_from(token, window.start()),
        edition,
    )
}

/// The token that an edit gives another text, if nothing else changes by it. The first `count`
/// errors of the parse are the parser's.
pub(crate) fn token_path<T, F: ExactFront>(
    alloc: Global,
    old: &Parse<T>,
    count: usize,
    front: &F,
    delete: TextRange,
    insert: &str,
    edition: Edition,
) -> Result<Option<RetoldToken>, AllocError>
    requires edit { IsEditOf (text old.now.tree) (replacing delete insert.now) }
    ensures { IfOk result (λ o. MatchOption o
        (NoTokenPath (F.exact front.now) edition old.now count (replacing delete insert.now))
        (λ r.
        IsRetoldToken (F.exact front.now) edition old.now count
        (replacing delete insert.now) r.token (string_bytes r.text))) }
{
    let root = old.root();
    let token = match root.covering_element(delete).into_token() {
        Some(token) => token,
        None => return Ok(None),
    };
    token_is_placed(&token);
    let range = token.text_range();
    let window = window_around(root.as_str(), range);
    if front.has_head(root.as_str()) || !stands_alone(old, count, window) {
        return Ok(None);
    }
    if !is_retold(
        alloc,
        front,
        root.as_str(),
        window,
        range,
        delete,
        insert,
        edition,
    )? {
        return Ok(None);
    }
    let text = edited_text(alloc, token.text(), range.start(), delete, insert)?;
    Ok(Some(RetoldToken { token, text }))
}

/// The parse with a token's new text. The first `count` errors of the old parse are the parser's.
pub(crate) fn with_retold<T>(
    alloc: Global,
    old: &Parse<T>,
    count: usize,
    new: RetoldToken,
    delete: TextRange,
    insert: &str,
) -> Result<Counted<T>, AllocError>
    requires edit { IsEditOf (text old.now.tree) (replacing delete insert.now) }
    requires short { length
        (edited (text old.now.tree) (replacing delete insert.now))
        < 2 ^ 32 }
    requires covers { new.token
        ≡ covered old.now.tree (replacing delete insert.now) }
    requires text { string_bytes new.text
        ≡ edited_at new.token (replacing delete insert.now) }
    ensures new { IfOk result (λ n.
        IsRetoldOf old.now count (replacing delete insert.now) new.token
        n.parse n.parser_errors) }
    ensures range { IfOk result
        (λ n. n.range ≡ range_after new.token (replacing delete insert.now)) }
    ensures same_text { IfOk result (λ n. text n.parse.tree
        ≡ edited (text old.now.tree) (replacing delete insert.now)) }
{
    let RetoldToken { token, text } = new;
    token_is_placed(&token);
    let replaced = token.text_range();
    let root = match token.replace_with(alloc, token.kind(), text.as_str()) {
        Ok(root) => root,
        Err(refusal) => match refusal {
            ReplaceError::Memory => return Err(AllocError),
            ReplaceError::TooLong => unreachable!(),
        },
    };
    let range = range_from(replaced.start(), text.as_str());
    let none = Vec::new(alloc);
    spliced(
        alloc, old, count, root, none, 0, replaced, range, delete, insert,
    )
}
