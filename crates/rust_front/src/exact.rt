//! The pieces of a text that are read by themselves as they are in the text.
ghost use Rattle.std.specs.Prelude.{◌≡◌, ◌-◌, ◌<◌, ◌^◌, IfOk, option_map, length, slice_get, take};
ghost use Rattle.ras_front_end.specs.Reading.{reading_of};
ghost use Rattle.exact_front.specs.Exact.{is_piece};
ghost use Rattle.token_layout.specs.Laid.{IsCut};
ghost use Rattle.rust_grammar.specs.Seeing.{sights_of};
ghost use Rattle.rust_front.specs.Exact.{opens_with, closes_with, is_braced_by, is_in, errs_early, if_closed, alone_with, whole_exact_of, exact_piece_of};
ghost use Rattle.rust_front.specs.Heads.{is_byte, has_shebang_of, is_visible, has_fence_of, has_head_of};

use crate::front::{assemble, is_short};
use crate::piece::rule_by;
use event_layout::ends_in_token;
use grammar_machine::{Event, run_alone};
use ras_front_end::{Edition, Output, Reparser};
use rust_grammar::{Rule, grammar, rule_of, sights};
use rust_lexer::{LexError, lex};
use std::alloc::{AllocError, Global};
use syntax_kind::SyntaxKind;
use token_layout::Token;

/// The message of the lexer's error in a token depends on no more tokens before it than these.
const MEMORY: usize = 5;

/// The longest text, in bytes, of which pieces may be read by themselves: the machine makes at most
/// 2,403 events a token, and numbers them with 32 bits.
pub const LONGEST_EXACT: usize = 1_700_000;

fn is_byte_at(text: &str, index: usize, byte: u8) -> bool
    ensures { result ≡ is_byte byte (slice_get text.now index) }
{
    match text.as_bytes().get(index) {
        None => false,
        Some(found) => *found == byte,
    }
}

// Whether a text begins as a shebang does, and not as an attribute. (For the lexer it is none
// either if white space stands before the bracket.)
fn has_shebang(text: &str) -> bool
    ensures { result ≡ has_shebang_of text.now }
{
    is_byte_at(text, 0, b'#') && is_byte_at(text, 1, b'!') && !is_byte_at(text, 2, b'[')
}

fn is_visible(byte: u8) -> bool
    ensures { result ≡ is_visible byte }
{
    b' ' < byte && byte < 127
}

// Whether the first visible character of a text is a dash, as in the fence of a front matter. Each
// character that is not a visible one of ASCII is passed over.
fn has_fence(text: &str) -> bool
    ensures { result ≡ has_fence_of text.now }
{
    for byte in text.as_bytes() {
        if is_visible(*byte) {
            return *byte == b'-';
        }
    }
    false
}

/// Whether a text perhaps begins with a shebang or a front matter.
pub fn has_head(text: &str) -> bool
    ensures { result ≡ has_head_of text.now }
{
    has_shebang(text) || has_fence(text)
}

fn opens(tokens: &[Token]) -> bool
    ensures { result ≡ opens_with (slice_get tokens.now 0) }
{
    match tokens.first() {
        None => false,
        Some(token) => matches!(token.kind, SyntaxKind::L_CURLY),
    }
}

fn closes(tokens: &[Token]) -> bool
    ensures { result ≡ closes_with (slice_get tokens.now (length tokens.now - 1)) }
{
    match tokens.last() {
        None => false,
        Some(token) => matches!(token.kind, SyntaxKind::R_CURLY),
    }
}

// Whether the first token is `{` and the last `}`.
fn is_braced(tokens: &[Token]) -> bool
    ensures { result ≡ is_braced_by tokens.now }
{
    opens(tokens) && closes(tokens)
}

// The first tokens, whose messages may depend on what stands before the text.
fn first_tokens(tokens: &[Token]) -> &[Token]
    ensures { result.now ≡ take 5 tokens.now }
{
    &tokens[..tokens.len().min(MEMORY)]
}

// Whether a byte is in one of the tokens, which begin at 0.
fn is_in(byte: usize, tokens: &[Token]) -> bool
    ensures { result ≡ is_in byte tokens.now }
{
    let mut left = byte;
    for token in tokens {
        let len = token.len.raw() as usize;
        if left < len {
            return true;
        }
        left -= len;
    }
    false
}

// Whether the first error is in a token whose message may depend on what stands before the text.
fn errs_early(tokens: &[Token], errors: &[LexError]) -> bool
    ensures { result ≡ errs_early tokens.now errors.now }
{
    match errors.first() {
        None => false,
        Some(error) => is_in(error.range.start().raw() as usize, first_tokens(tokens)),
    }
}

// Events that end in a token and the node of the piece.
fn if_closed(events: Vec<Event>) -> Option<Vec<Event>>
    ensures { option_map (λ v. v.items) result ≡ if_closed events.items }
{
    if ends_in_token(&events) {
        Some(events)
    } else {
        None
    }
}

// The events that the grammar makes of the tokens, if they are made of these alone and end with the
// last of them.
fn events_alone(
    alloc: Global,
    rule: Rule,
    text: &str,
    tokens: &[Token],
    edition: Edition,
) -> Result<Option<Vec<Event>>, AllocError>
    ensures { IsCut tokens.now text.now
        → IfOk result (λ o. option_map (λ v. v.items) o
        ≡ alone_with rule (sights_of edition text.now tokens.now)) }
{
    let sights = sights(alloc, text, tokens, edition)?;
    match run_alone(alloc, &grammar(), rule_of(rule), &sights)? {
        None => Ok(None),
        Some(events) => Ok(if_closed(events)),
    }
}

fn whole_exact(
    alloc: Global,
    reparser: Reparser,
    text: &str,
    edition: Edition,
) -> Result<Option<Output>, AllocError>
    ensures { length text.now < 2 ^ 32
        → IfOk result (λ o. option_map reading_of o ≡ whole_exact_of reparser edition text.now) }
{
    let lexed = lex(alloc, text, edition)?;
    if !is_braced(&lexed.tokens) || errs_early(&lexed.tokens, &lexed.errors) {
        return Ok(None);
    }
    match events_alone(
        alloc,
        rule_by(reparser.number),
        text,
        &lexed.tokens,
        edition,
    )? {
        None => Ok(None),
        Some(events) => Ok(Some(assemble(alloc, reparser.kind, text, &lexed, &events)?)),
    }
}

/// The output for a piece, or `None` if it depends on what stands around the piece.
///
/// The piece is from `{` to `}`; the rule that parses it stops right behind the `}`, looks neither
/// at what follows nor at what stands before, and makes nothing but the piece's node behind the
/// `}`; and none of its first five tokens has an error of the lexer, whose message might depend on
/// tokens before the piece.
#[tactic(auto, unfolding(crate::specs::Exact::exact_piece_of))]
pub fn exact_piece(
    alloc: Global,
    reparser: Reparser,
    text: &str,
    edition: Edition,
) -> Result<Option<Output>, AllocError>
    ensures { IfOk result
        (λ o. option_map reading_of o ≡ exact_piece_of reparser edition text.now) }
{
    if is_short(text) {
        whole_exact(alloc, reparser, text, edition)
    } else {
        Ok(None)
    }
}

fn is_whole_exact(
    alloc: Global,
    reparser: Reparser,
    text: &str,
    edition: Edition,
) -> Result<bool, AllocError>
    ensures { length text.now < 2 ^ 32
        → IfOk result (λ b. b ≡ is_piece (whole_exact_of reparser edition text.now)) }
{
    let lexed = lex(alloc, text, edition)?;
    if !is_braced(&lexed.tokens) || errs_early(&lexed.tokens, &lexed.errors) {
        return Ok(false);
    }
    match events_alone(
        alloc,
        rule_by(reparser.number),
        text,
        &lexed.tokens,
        edition,
    )? {
        None => Ok(false),
        Some(_) => Ok(true),
    }
}

/// Whether [`exact_piece`] parses a text.
#[tactic(auto, unfolding(crate::specs::Exact::exact_piece_of))]
pub fn is_exact_piece(
    alloc: Global,
    reparser: Reparser,
    text: &str,
    edition: Edition,
) -> Result<bool, AllocError>
    ensures { IfOk result (λ b. b ≡ is_piece (exact_piece_of reparser edition text.now)) }
{
    if is_short(text) {
        is_whole_exact(alloc, reparser, text, edition)
    } else {
        Ok(false)
    }
}
