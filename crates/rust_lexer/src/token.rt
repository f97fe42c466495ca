//! The first token of a text.
ghost use Rattle.rust_lexer.specs.declared.class.Class.TheVariants as classes;
ghost use Rattle.rust_lexer.specs.Classes.{test_on, is_in_of};
ghost use Rattle.std.specs.Prelude.{◌≡◌, true, slice_get, ◌-◌, IfSome, drop, length};
ghost use Rattle.rust_lexer.specs.Cuts.{IsEnd};
ghost use Rattle.syntax_kind.specs.declared.syntax_kind.SyntaxKind.TheVariants.{Token};
ghost use Rattle.syntax_kind.specs.declared.syntax_kind.token_kind.TokenKind.TheVariants as token;
ghost use Rattle.rust_lexer.specs.Fast.{opens_literal_of};
ghost use Rattle.rust_lexer.specs.Shapes.{plain_of};
ghost use Rattle.rust_lexer.specs.Tokens.{space_of, sign_of, slash_of, is_reserved_of, pound_of, opens_raw_of, letter_r_of, letter_b_of, letter_c_of, beyond_of, letter_of, mark_of, other_of, token_of};

use crate::class::{
    Class, Wide, after, after_char, begins, begins_beyond, begins_wide, count, first_byte,
    is_digit, is_in, is_letter, is_prefix, skip, skip_wide,
};
use crate::comment::{block_comment, line_comment};
use crate::name::{begins_emoji, begins_name, emoji_name, name, plain_name, skip_name};
use crate::number::number;
use crate::problem::Problem;
use crate::punctuation::sign_kind;
use crate::quote::{character, character_or_lifetime, string};
use crate::raw_string::raw_string;
use crate::shape::Shape;
use literal_escape::Mode;
use ras_front_end::Edition;
use syntax_kind::SyntaxKind;

#[inline]
fn space(bytes: &[u8]) -> Shape
    ensures { result ≡ space_of bytes.now }
{
    let rest = skip(Class::Space, bytes);
    if begins_beyond(rest) {
        Shape::plain(SyntaxKind::WHITESPACE, skip_wide(Wide::Space, rest).len())
    } else {
        Shape::plain(SyntaxKind::WHITESPACE, rest.len())
    }
}

// The token of a sign, or of no token.
fn sign(first: u8, rest: &[u8]) -> Shape
    ensures { result ≡ sign_of first rest.now }
{
    Shape::plain(sign_kind(first), rest.len())
}

fn slash(rest: &[u8]) -> Shape
    ensures { result ≡ slash_of rest.now }
{
    if begins(b'/', rest) {
        line_comment(after(rest, 1))
    } else if begins(b'*', rest) {
        block_comment(after(rest, 1))
    } else {
        sign(b'/', rest)
    }
}

fn opens_raw(rest: &[u8]) -> bool
    ensures { result ≡ opens_raw_of rest.now }
{
    begins(b'"', rest) || begins(b'#', rest)
}

// Whether `#` and what follows it is reserved for strings with a guard.
fn is_reserved(rest: &[u8], edition: Edition) -> bool
    ensures { result ≡ is_reserved_of edition rest.now }
{
    match edition {
        Edition::Edition2024 => opens_raw(rest),
        _ => false,
    }
}

fn pound(rest: &[u8], edition: Edition) -> Shape
    ensures { result ≡ pound_of edition rest.now }
{
    if is_reserved(rest, edition) {
        Shape::with(
            SyntaxKind::ERROR,
            after(rest, 1).len(),
            Problem::ReservedGuard,
        )
    } else {
        sign(b'#', rest)
    }
}

// A token that begins with `r`; `rest` is the text after the `r`.
fn letter_r(text: &str, rest: &[u8], edition: Edition) -> Shape
    ensures { result ≡ letter_r_of edition text.now rest.now }
{
    if begins(b'#', rest) && begins_name(after(rest, 1)) {
        Shape::plain(SyntaxKind::IDENT, skip_name(after(rest, 1)).len())
    } else if opens_raw(rest) {
        raw_string(SyntaxKind::STRING, rest)
    } else {
        name(text, edition)
    }
}

// A token that begins with `b`; `rest` is the text after the `b`.
fn letter_b(text: &str, rest: &[u8], edition: Edition) -> Shape
    ensures { result ≡ letter_b_of edition text.now rest.now }
{
    if begins(b'r', rest) && opens_raw(after(rest, 1)) {
        raw_string(SyntaxKind::BYTE_STRING, after(rest, 1))
    } else if begins(b'"', rest) {
        string(Mode::ByteStr, after(rest, 1))
    } else if begins(b'\'', rest) {
        character(Mode::Byte, after(rest, 1))
    } else {
        name(text, edition)
    }
}

// A token that begins with `c`; `rest` is the text after the `c`.
fn letter_c(text: &str, rest: &[u8], edition: Edition) -> Shape
    ensures { result ≡ letter_c_of edition text.now rest.now }
{
    if begins(b'r', rest) && opens_raw(after(rest, 1)) {
        raw_string(SyntaxKind::C_STRING, after(rest, 1))
    } else if begins(b'"', rest) {
        string(Mode::CStr, after(rest, 1))
    } else {
        name(text, edition)
    }
}

// A token that begins with a letter or `_`.
#[inline]
fn letter(first: u8, text: &str, rest: &[u8], edition: Edition) -> Shape
    ensures { result ≡ letter_of edition first text.now rest.now }
{
    match first {
        b'r' => letter_r(text, rest, edition),
        b'b' => letter_b(text, rest, edition),
        b'c' => letter_c(text, rest, edition),
        _ => name(text, edition),
    }
}

// A token that begins with a character that is not ASCII.
fn beyond(text: &str, edition: Edition) -> Shape
    ensures { result ≡ beyond_of edition text.now }
{
    let bytes = text.as_bytes();
    if begins_wide(Wide::Space, bytes) {
        space(bytes)
    } else if begins_name(bytes) {
        name(text, edition)
    } else if begins_emoji(bytes) {
        emoji_name(after_char(bytes))
    } else {
        Shape::plain(SyntaxKind::ERROR, after_char(bytes).len())
    }
}

// A token that begins with a mark that is not a letter.
#[inline]
fn mark(first: u8, rest: &[u8], edition: Edition) -> Shape
    ensures { result ≡ mark_of edition first rest.now }
{
    match first {
        b'/' => slash(rest),
        b'"' => string(Mode::Str, rest),
        b'\'' => character_or_lifetime(rest),
        b'#' => pound(rest, edition),
        _ => sign(first, rest),
    }
}

// A token that begins with neither an ASCII letter nor ASCII white space.
#[inline]
fn other(first: u8, text: &str, rest: &[u8], edition: Edition) -> Shape
    ensures { result ≡ other_of edition first text.now rest.now }
{
    if is_digit(first) {
        number(first, rest)
    } else if 128 <= first {
        beyond(text, edition)
    } else {
        mark(first, rest, edition)
    }
}

/// The first token of the text. For an empty text the result has no meaning.
#[tactic(auto, unfolding(crate::specs::Tokens::token_of))]
#[inline]
pub fn token(text: &str, edition: Edition) -> Shape
    ensures { result ≡ token_of edition text.now }
{
    let bytes = text.as_bytes();
    match first_byte(bytes) {
        None => Shape::plain(SyntaxKind::ERROR, 0),
        Some(first) => {
            if is_in(Class::Space, first) {
                space(bytes)
            } else if is_letter(first) || first == b'_' {
                letter(first, text, after(bytes, 1), edition)
            } else {
                other(first, text, after(bytes, 1), edition)
            }
        }
    }
}

// Whether it is `r`, `b` or `c`, and may begin a literal or a raw name; `rest` is the text after
// it.
#[inline(always)]
fn opens_literal(first: u8, rest: &[u8]) -> bool
    ensures { result ≡ opens_literal_of first rest.now }
{
    is_prefix(first)
        && (opens_raw(rest)
            || begins(b'\'', rest)
            || (begins(b'r', rest) && opens_raw(after(rest, 1))))
}

/// The length of white space in ASCII that begins the text, unless a character past ASCII follows.
#[inline(always)]
pub fn plain_space(text: &str) -> Option<usize>
    requires { test_on (is_in_of classes.Space) (slice_get text.now 0) ≡ true }
    ensures space { IfSome result (λ n. space_of text.now
        ≡ plain_of (Token token.WHITESPACE) (length text.now - n)) }
    ensures end { IfSome result (λ n. IsEnd text.now n) }
{
    let bytes = text.as_bytes();
    let len = count(Class::Space, bytes);
    if begins_beyond(after(bytes, len)) {
        None
    } else {
        Some(len)
    }
}

/// The kind and the length of a name or keyword of ASCII that begins the text with its letter
/// `first`.
#[inline(always)]
pub fn plain_letter(first: u8, text: &str, edition: Edition) -> Option<(SyntaxKind, usize)>
    requires { test_on (is_in_of classes.Name) (slice_get text.now 0) ≡ true }
    ensures letter { IfSome result (λ r. letter_of edition first text.now (drop 1 text.now)
        ≡ plain_of r.0 (length text.now - r.1)) }
    ensures end { IfSome result (λ r. IsEnd text.now r.1) }
{
    if opens_literal(first, after(text.as_bytes(), 1)) {
        return None;
    }
    plain_name(text, edition)
}
