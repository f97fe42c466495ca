//! Windows of a text in which one token is given another text.
ghost use Rattle.std.specs.Prelude.{◌≡◌, ◌-◌, ◌<◌, ◌^◌, IfOk, length, slice_get};
ghost use Rattle.std.specs.List.{list_all};
ghost use Rattle.std.specs.Char.{is_ascii_whitespace};
ghost use Rattle.token_layout.specs.Laid.{IsCut};
ghost use Rattle.event_layout.specs.Trivia.{newlines_after, has_blank_line};
ghost use Rattle.syntax_kind.specs.Kinds.{is_same_kind};
ghost use Rattle.rust_grammar.specs.Seeing.{sights_of};
ghost use Rattle.rust_lexer.specs.Lexing.{tokens_of, errors_of};
ghost use Rattle.rust_front.specs.Retold.{is_brace, is_brace_at, begins_well, ends_well, stands_alone, ends_in_dot, has_no_head, is_same_token, are_same_tokens, retold_kind, has_dot, keeps_lines, keeps_whole, may_be_retold, if_retold, part_of, len_of, new_len, keeps_tokens, is_same_sight, are_same_sights, is_inside, is_of_word, keeps_sort, token_keeps_sort, may_be_inside, retold_in, retold_with, are_short, is_retold_of};

use crate::exact::has_head;
use crate::front::is_short;
use grammar_machine::Sight;
use ras_front_end::Edition;
use rust_grammar::sights;
use rust_lexer::{LexError, lex};
use std::alloc::{AllocError, Global};
use syntax_kind::SyntaxKind;
use text_size::TextRange;
use token_layout::Token;

// ---- braces around a window

fn is_brace(kind: SyntaxKind) -> bool
    ensures { result ≡ is_brace kind }
{
    matches!(kind, SyntaxKind::L_CURLY | SyntaxKind::R_CURLY)
}

fn begins_in_brace(tokens: &[Token]) -> bool
    ensures { result ≡ is_brace_at (slice_get tokens.now 0) }
{
    match tokens.first() {
        None => false,
        Some(token) => is_brace(token.kind),
    }
}

fn ends_in_brace(tokens: &[Token]) -> bool
    ensures { result ≡ is_brace_at (slice_get tokens.now (length tokens.now - 1)) }
{
    match tokens.last() {
        None => false,
        Some(token) => is_brace(token.kind),
    }
}

fn begins_well(before: &str, tokens: &[Token]) -> bool
    ensures { result ≡ begins_well before.now tokens.now }
{
    before.is_empty() || begins_in_brace(tokens)
}

fn ends_well(behind: &str, tokens: &[Token]) -> bool
    ensures { result ≡ ends_well behind.now tokens.now }
{
    behind.is_empty() || ends_in_brace(tokens)
}

// Whether a window has in the text the tokens that it has by itself, and no errors.
fn stands_alone(before: &str, behind: &str, tokens: &[Token], errors: &[LexError]) -> bool
    ensures { result ≡ stands_alone before.now behind.now tokens.now errors.now }
{
    begins_well(before, tokens) && ends_well(behind, tokens) && errors.is_empty()
}

// A number is cut at its dots, so a dot may be where a leaf of the tree begins.
fn ends_in_dot(before: &str) -> bool
    ensures { result ≡ ends_in_dot before.now }
{
    match before.as_bytes().last() {
        None => false,
        Some(byte) => *byte == b'.',
    }
}

fn has_no_head(before: &str, new: &str) -> bool
    ensures { result ≡ has_no_head before.now new.now }
{
    !before.is_empty() || !has_head(new)
}

// ---- the tokens

fn is_same_kind(old: SyntaxKind, new: SyntaxKind) -> bool
    ensures { result ≡ is_same_kind old new }
{
    old.to_raw() == new.to_raw()
}

fn is_same_token(old: Token, new: Token) -> bool
    ensures { result ≡ is_same_token old new }
{
    is_same_kind(old.kind, new.kind) && old.len.raw() == new.len.raw()
}

#[tactic(auto, unfolding(crate::specs::Retold::are_same_tokens))]
fn are_same_tokens(old: &[Token], new: &[Token]) -> bool
    ensures { result ≡ are_same_tokens old.now new.now }
{
    let mut left = new;
    for token in old {
        match left.split_first() {
            None => return false,
            Some((other, others)) => {
                if !is_same_token(*token, *other) {
                    return false;
                }
                left = others;
            }
        }
    }
    left.is_empty()
}

// The kind of the token that begins at a byte and has so many bytes in the old text, if all tokens
// are the same but for its length.
#[tactic(auto, unfolding(crate::specs::Retold::retold_kind))]
fn retold_kind(at: usize, len: usize, old: &[Token], new: &[Token]) -> Option<SyntaxKind>
    ensures { result ≡ retold_kind at len old.now new.now }
{
    let mut start = at;
    let mut old_left = old;
    let mut new_left = new;
    while let (Some((token, tokens)), Some((other, others))) = (
        old_left.split_first(),
        new_left.split_first(),
    ) {
        let size = token.len.raw() as usize;
        if start == 0 {
            let is_retold = is_same_kind(token.kind, other.kind)
                && size == len
                && are_same_tokens(tokens, others);
            return if is_retold { Some(token.kind) } else { None };
        }
        if !is_same_token(*token, *other) || size > start {
            return None;
        }
        start -= size;
        old_left = tokens;
        new_left = others;
    }
    None
}

// ---- the token's texts

fn has_dot(text: &[u8]) -> bool
    ensures { result ≡ has_dot text.now }
{
    text.iter().any(|byte| *byte == b'.')
}

fn newlines_after(count: u8, byte: u8) -> u8
    ensures { result ≡ newlines_after count byte }
{
    if count == 2 {
        2
    } else if byte != b'\n' {
        0
    } else if count == 0 {
        1
    } else {
        2
    }
}

// Whether there are two line feeds with nothing between them.
#[tactic(auto, unfolding(event_layout::specs::Trivia::has_blank_line))]
fn has_blank_line(text: &[u8]) -> bool
    ensures { result ≡ has_blank_line text.now }
{
    let mut newlines = 0;
    for byte in text {
        newlines = newlines_after(newlines, *byte);
    }
    newlines == 2
}

// Whether white space has a blank line as before: the comments above one are not those of the next
// item.
fn keeps_lines(kind: SyntaxKind, old: &[u8], new: &[u8]) -> bool
    ensures { result ≡ keeps_lines kind old.now new.now }
{
    (!kind.is_trivia() || matches!(kind, SyntaxKind::COMMENT))
        || has_blank_line(old) == has_blank_line(new)
}

// Whether a token is one leaf of the tree with both texts. In `a.0.1` the number `0.1` is three.
fn keeps_whole(kind: SyntaxKind, old: &[u8], new: &[u8]) -> bool
    ensures { result ≡ keeps_whole kind old.now new.now }
{
    !matches!(kind, SyntaxKind::FLOAT_NUMBER) || (!has_dot(old) && !has_dot(new))
}

// Whether the layout of the tree is the same for both texts of a token.
fn may_be_retold(kind: SyntaxKind, old: &[u8], new: &[u8]) -> bool
    ensures { result ≡ may_be_retold kind old.now new.now }
{
    keeps_lines(kind, old, new) && keeps_whole(kind, old, new)
}

// The `len` bytes from the byte `start` on, or fewer if the text ends before.
fn part(text: &[u8], start: usize, len: usize) -> &[u8]
    ensures { result.now ≡ part_of text.now start len }
{
    let rest = &text[start.min(text.len())..];
    &rest[..len.min(rest.len())]
}

fn len_of(token: TextRange) -> usize
    ensures { result ≡ len_of token }
{
    token.len().raw() as usize
}

// How long the token is in the new text, in place of `len` bytes: the others stay.
fn new_len(old: &str, new: &str, len: usize) -> usize
    ensures { result ≡ new_len old.now new.now len }
{
    let others = old.len().saturating_sub(len);
    new.len().saturating_sub(others)
}

fn keeps_tokens(
    old: &str,
    new: &str,
    token: TextRange,
    old_tokens: &[Token],
    new_tokens: &[Token],
) -> bool
    ensures { result ≡ keeps_tokens old.now new.now token old_tokens.now new_tokens.now }
{
    let start = token.start().raw() as usize;
    let len = len_of(token);
    match retold_kind(start, len, old_tokens, new_tokens) {
        None => false,
        Some(kind) => {
            let old_part = part(old.as_bytes(), start, len);
            let new_part = part(new.as_bytes(), start, new_len(old, new, len));
            may_be_retold(kind, old_part, new_part)
        }
    }
}

// ---- what the machine sees

#[tactic(auto, unfolding(crate::specs::Retold::is_same_sight))]
fn is_same_sight(old: Sight, new: Sight) -> bool
    ensures { result ≡ is_same_sight old new }
{
    old.one == new.one && old.two == new.two && old.three == new.three && old.word == new.word
}

#[tactic(auto, unfolding(crate::specs::Retold::are_same_sights))]
fn are_same_sights(old: &[Sight], new: &[Sight]) -> bool
    ensures { result ≡ are_same_sights old.now new.now }
{
    let mut old_left = old;
    let mut new_left = new;
    while let (Some((sight, sights)), Some((other, others))) = (
        old_left.split_first(),
        new_left.split_first(),
    ) {
        if !is_same_sight(*sight, *other) {
            return false;
        }
        old_left = sights;
        new_left = others;
    }
    old_left.is_empty() && new_left.is_empty()
}

fn are_seen_alike(
    alloc: Global,
    old: &str,
    new: &str,
    old_tokens: &[Token],
    new_tokens: &[Token],
    edition: Edition,
) -> Result<bool, AllocError>
    ensures { IsCut old_tokens.now old.now → IsCut new_tokens.now new.now
        → IfOk result (λ b. b
        ≡ are_same_sights (sights_of edition old.now old_tokens.now)
        (sights_of edition new.now new_tokens.now)) }
{
    let seen = sights(alloc, old, old_tokens, edition)?;
    let seen_now = sights(alloc, new, new_tokens, edition)?;
    Ok(are_same_sights(&seen, &seen_now))
}

// ---- the whole

fn is_inside(before: &str, old: &str, new: &str, token: TextRange) -> bool
    ensures { result ≡ is_inside before.now old.now new.now token }
{
    let len = len_of(token);
    0 < len && 0 < new_len(old, new, len) && (before.is_empty() || 0 < token.start().raw())
}

fn are_blank(text: &[u8]) -> bool
    ensures { result ≡ list_all is_ascii_whitespace text.now }
{
    text.iter().all(|byte| byte.is_ascii_whitespace())
}

fn are_of_word(text: &[u8]) -> bool
    ensures { result ≡ list_all is_of_word text.now }
{
    text.iter().all(|byte| byte.is_ascii_alphanumeric() || *byte == b'_' || *byte >= 128)
}

// Whether white space stays white space, and a word a word. With a bracket typed in the midst of a
// name the windows need not be lexed.
fn keeps_sort(old: &[u8], new: &[u8]) -> bool
    ensures { result ≡ keeps_sort old.now new.now }
{
    (!are_blank(old) || are_blank(new)) && (!are_of_word(old) || are_of_word(new))
}

fn token_keeps_sort(old: &str, new: &str, token: TextRange) -> bool
    ensures { result ≡ token_keeps_sort old.now new.now token }
{
    let start = token.start().raw() as usize;
    let len = len_of(token);
    let new_part = part(new.as_bytes(), start, new_len(old, new, len));
    keeps_sort(part(old.as_bytes(), start, len), new_part)
}

// What can be said without the tokens.
fn may_be_inside(before: &str, old: &str, new: &str, token: TextRange) -> bool
    ensures { result ≡ may_be_inside before.now old.now new.now token }
{
    (is_inside(before, old, new, token) && token_keeps_sort(old, new, token))
        && (!ends_in_dot(before) && has_no_head(before, new))
}

fn are_short(old: &str, new: &str) -> bool
    ensures { result ≡ are_short old.now new.now }
{
    is_short(old) && is_short(new)
}

fn is_retold_in(
    alloc: Global,
    before: &str,
    old: &str,
    new: &str,
    behind: &str,
    token: TextRange,
    edition: Edition,
) -> Result<bool, AllocError>
    ensures { length old.now < 2 ^ 32 → length new.now < 2 ^ 32
        → IfOk result (λ b. b ≡ retold_with edition before.now old.now new.now behind.now token) }
{
    let lexed = lex(alloc, old, edition)?;
    if !stands_alone(before, behind, &lexed.tokens, &lexed.errors) {
        return Ok(false);
    }
    let relexed = lex(alloc, new, edition)?;
    if !stands_alone(before, behind, &relexed.tokens, &relexed.errors)
        || !keeps_tokens(old, new, token, &lexed.tokens, &relexed.tokens)
    {
        return Ok(false);
    }
    are_seen_alike(alloc, old, new, &lexed.tokens, &relexed.tokens, edition)
}

/// Whether a window of a text has the same tokens with the text `new` as with `old`, but for the
/// text of the token at the range `token` of `old`, and the machine and the layout take this token
/// for what it was.
///
/// By itself each window begins and ends with a brace, but at the start and the end of the text; so
/// it has its tokens there if it begins with a token of the text. In neither the lexer finds an
/// error. Windows of 4 GiB or more are not looked at. Takes the time of the lexer for both.
#[tactic(auto, unfolding(crate::specs::Retold::is_retold_of))]
pub fn is_retold(
    alloc: Global,
    before: &str,
    old: &str,
    new: &str,
    behind: &str,
    token: TextRange,
    edition: Edition,
) -> Result<bool, AllocError>
    ensures { IfOk result
        (λ b. b ≡ is_retold_of edition before.now old.now new.now behind.now token) }
{
    if are_short(old, new) && may_be_inside(before, old, new, token) {
        is_retold_in(alloc, before, old, new, behind, token, edition)
    } else {
        Ok(false)
    }
}
