//! How the machine sees the tokens of a text.
ghost use Rattle.std.specs.Prelude.{◌≡◌, ◌≤◌, ◌++◌, ◌==◌, OnOk, IfOk, IsUtf8, length, reverse, slice_get, take, drop};
ghost use Rattle.std.specs.List.{list_any};
ghost use Rattle.token_layout.specs.Laid.{IsCut};
ghost use Rattle.rust_grammar.specs.Seeing.{byte_or_0, in_tables, number_of, number_on, joined_of, is_dot, first_of, shape_of, word_on, finer_of, seen_of, sights_of};
ghost use Rattle.rust_kinds.specs.Contextual.{contextual_keyword_of};

use crate::tables::joint_table::{FIRST_SIGN, JOINTS, SIGNS};
use crate::tables::kind_table::{
    FLOAT_DOT, FLOAT_NUMBER, FLOAT_PAIR, IDENT, OTHERS, TOKENS, WORD_OTHERS, WORD_TOKENS,
};
use grammar_machine::Sight;
use ras_front_end::Edition;
use rust_kinds::contextual_keyword;
use std::alloc::{AllocError, Global};
use syntax_kind::SyntaxKind;
use token_layout::Token;

/// The first number of a kind `OTHER(n)`.
const FIRST_OTHER: u32 = 65_536;

fn byte_at(bytes: &[u8], i: usize) -> u8
    ensures { result ≡ byte_or_0 (slice_get bytes.now i) }
{
    match bytes.get(i) {
        None => 0,
        Some(byte) => *byte,
    }
}

fn in_tables(named: &[u8], others: &[u8], kind: SyntaxKind) -> u8
    ensures { result ≡ in_tables named.now others.now kind }
{
    let raw = kind.to_raw();
    if raw < FIRST_OTHER {
        byte_at(named, raw as usize)
    } else {
        byte_at(others, (raw - FIRST_OTHER) as usize)
    }
}

// The number of a token's kind, 0 for trivia.
fn number_of(kind: SyntaxKind) -> u8
    ensures { result ≡ number_of kind }
{
    in_tables(&TOKENS, &OTHERS, kind)
}

fn number_at(tokens: &[Token], i: usize) -> u8
    ensures { result ≡ number_on (slice_get tokens.now i) }
{
    match tokens.get(i) {
        None => 0,
        Some(token) => number_of(token.kind),
    }
}

// The number of what a token and a sign right after it make together, or 0.
fn joined(left: u8, sign: u8) -> u8
    ensures { result ≡ joined_of left sign }
{
    if sign < FIRST_SIGN || SIGNS <= (sign - FIRST_SIGN) as usize {
        0
    } else {
        byte_at(
            &JOINTS,
            left as usize * SIGNS + (sign - FIRST_SIGN) as usize,
        )
    }
}

fn ends_with_dot(number: &[u8]) -> bool
    ensures { result ≡ is_dot (first_of (reverse number.now)) }
{
    match number.last().copied() {
        None => false,
        Some(byte) => byte == b'.',
    }
}

fn has_dot(number: &[u8]) -> bool
    ensures { result ≡ list_any (λ b. b == 46) number.now }
{
    number.iter().any(|byte| *byte == b'.')
}

fn shape_of(number: &[u8]) -> u8
    ensures { result ≡ shape_of number.now }
{
    if ends_with_dot(number) {
        FLOAT_DOT
    } else if has_dot(number) {
        FLOAT_PAIR
    } else {
        0
    }
}

// Not inlined: its comparisons would take the registers that the loop of `sights` needs.
#[inline(never)]
fn word_of(word: &str, edition: Edition) -> u8
    ensures { result ≡ word_on (contextual_keyword_of edition word.now) }
{
    match contextual_keyword(word, edition) {
        None => 0,
        Some(kind) => in_tables(&WORD_TOKENS, &WORD_OTHERS, kind),
    }
}

fn finer(one: u8, text: &str, edition: Edition) -> u8
    ensures { result ≡ finer_of edition one text.now }
{
    if one == IDENT {
        word_of(text, edition)
    } else if one == FLOAT_NUMBER {
        shape_of(text.as_bytes())
    } else {
        0
    }
}

// The sight of a token with the two after it, if it is no trivia.
fn see(
    sights: &mut Vec<Sight>,
    edition: Edition,
    text: &str,
    one: u8,
    second: u8,
    third: u8,
) -> Result<(), AllocError>
    ensures { OnOk result
        (sights.new.items ≡ sights.old.items ++ seen_of edition text.now one second third) }
{
    if one == 0 {
        return Ok(());
    }
    let two = joined(one, second);
    let three = joined(two, third);
    let word = finer(one, text, edition);
    sights.push(Sight {
        one,
        two,
        three,
        word,
    })?;
    Ok(())
}

// The first bytes and the others. Where no character begins after them, all and nothing.
fn cut(text: &str, len: usize) -> (&str, &str)
    ensures { len ≤ length text.now → IsUtf8 (take len text.now)
        → (result.0.now ≡ take len text.now) × (result.1.now ≡ drop len text.now) }
{
    match text.split_at_checked(len) {
        None => (text, ""),
        Some(parts) => parts,
    }
}

/// How the machine sees the tokens that are not trivia, in order. A token's text is looked at only
/// if it is an identifier or a number with a dot.
///
/// Time is linear in the tokens and in those texts. Where the tokens don't cut the text, which no
/// lexer does, the finer kinds of identifiers and numbers may be those of other pieces of it.
pub fn sights(
    alloc: Global,
    text: &str,
    tokens: &[Token],
    edition: Edition,
) -> Result<Vec<Sight>, AllocError>
    ensures { IsCut tokens.now text.now
        → IfOk result (λ sights. sights.items ≡ sights_of edition text.now tokens.now) }
{
    let mut sights = Vec::with_capacity(alloc, tokens.len())?;
    let mut left = tokens;
    let mut rest = text;
    let mut one = number_at(tokens, 0);
    let mut second = number_at(tokens, 1);
    while let Some((token, behind)) = left.split_first() {
        let (piece, others) = cut(rest, token.len.raw() as usize);
        let third = number_at(behind, 1);
        see(&mut sights, edition, piece, one, second, third)?;
        one = second;
        second = third;
        left = behind;
        rest = others;
    }
    Ok(sights)
}
