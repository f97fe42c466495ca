//! Characters, lifetimes, strings and their like.
ghost use Rattle.std.specs.Prelude.{◌≡◌};
ghost use Rattle.rust_lexer.specs.Quotes.{kind_of, unterminated_of, opening_of, closed_of, open_of, string_of, is_mark_of, character_of, lifetime_of, is_raw_lifetime_of, may_be_lifetime_of, character_or_lifetime_of};

use crate::class::{after, after_char, begins, begins_digit};
use crate::name::{begins_name, skip_name, skip_suffix};
use crate::problem::Problem;
use crate::scan::{Scan, run};
use crate::shape::{Check, Shape};
use literal_escape::Mode;
use syntax_kind::SyntaxKind;

fn kind(mode: Mode) -> SyntaxKind
    ensures { result ≡ kind_of mode }
{
    match mode {
        Mode::Char => SyntaxKind::CHAR,
        Mode::Byte => SyntaxKind::BYTE,
        Mode::Str => SyntaxKind::STRING,
        Mode::ByteStr => SyntaxKind::BYTE_STRING,
        Mode::CStr => SyntaxKind::C_STRING,
    }
}

fn unterminated(mode: Mode) -> Problem
    ensures { result ≡ unterminated_of mode }
{
    match mode {
        Mode::Char => Problem::UnterminatedChar,
        Mode::Byte => Problem::UnterminatedByte,
        Mode::Str => Problem::UnterminatedString,
        Mode::ByteStr => Problem::UnterminatedByteString,
        Mode::CStr => Problem::UnterminatedCString,
    }
}

// The number of bytes before the content.
fn opening(mode: Mode) -> usize
    ensures { result ≡ opening_of mode }
{
    match mode {
        Mode::Char => 1,
        Mode::Byte => 2,
        Mode::Str => 1,
        Mode::ByteStr => 2,
        Mode::CStr => 2,
    }
}

// A literal whose closing quote precedes `rest`.
fn closed(mode: Mode, rest: &[u8]) -> Shape
    ensures { result ≡ closed_of mode rest.now }
{
    Shape {
        kind: kind(mode),
        left: skip_suffix(rest).len(),
        check: Check::Content(mode, opening(mode), rest.len().saturating_add(1)),
    }
}

fn open(mode: Mode, left: usize) -> Shape
    ensures { result ≡ open_of mode left }
{
    Shape::with(kind(mode), left, unterminated(mode))
}

/// The string of this mode, given the text after its opening quote.
pub fn string(mode: Mode, rest: &[u8]) -> Shape
    ensures { result ≡ string_of mode rest.now }
{
    let (scan, rest) = run(Scan::Text, rest);
    match scan {
        Scan::Closed => closed(mode, rest),
        _ => open(mode, rest.len()),
    }
}

// A quote may be the character itself, and so may a slash.
fn is_mark(bytes: &[u8]) -> bool
    ensures { result ≡ is_mark_of bytes.now }
{
    (begins(b'\'', bytes) || begins(b'/', bytes)) && begins(b'\'', after(bytes, 1))
}

/// The character or byte, given the text after its opening quote.
pub fn character(mode: Mode, rest: &[u8]) -> Shape
    ensures { result ≡ character_of mode rest.now }
{
    if is_mark(rest) {
        return closed(mode, after(rest, 2));
    }
    let (scan, rest) = run(Scan::Quote, rest);
    match scan {
        Scan::Closed => closed(mode, rest),
        // without the newline
        Scan::QuoteLine => open(mode, rest.len().saturating_add(1)),
        _ => open(mode, rest.len()),
    }
}

// What follows the quote is a lifetime, or a character of several letters.
fn lifetime(rest: &[u8]) -> Shape
    ensures { result ≡ lifetime_of rest.now }
{
    let tail = skip_name(rest);
    if begins(b'\'', tail) {
        Shape {
            kind: SyntaxKind::CHAR,
            left: after(tail, 1).len(),
            check: Check::Content(Mode::Char, 1, tail.len()),
        }
    } else if begins_digit(rest) {
        Shape::with(
            SyntaxKind::LIFETIME_IDENT,
            tail.len(),
            Problem::NumberedLifetime,
        )
    } else if begins(b'#', tail) {
        Shape::with(
            SyntaxKind::LIFETIME_IDENT,
            tail.len(),
            Problem::LifetimePrefix,
        )
    } else {
        Shape::plain(SyntaxKind::LIFETIME_IDENT, tail.len())
    }
}

fn is_raw_lifetime(rest: &[u8]) -> bool
    ensures { result ≡ is_raw_lifetime_of rest.now }
{
    begins(b'r', rest) && begins(b'#', after(rest, 1)) && begins_name(after(rest, 2))
}

fn may_be_lifetime(rest: &[u8]) -> bool
    ensures { result ≡ may_be_lifetime_of rest.now }
{
    (begins_digit(rest) || begins_name(rest)) && !begins(b'\'', after_char(rest))
}

/// The character or lifetime, given the text after its quote.
pub fn character_or_lifetime(rest: &[u8]) -> Shape
    ensures { result ≡ character_or_lifetime_of rest.now }
{
    if !may_be_lifetime(rest) {
        character(Mode::Char, rest)
    } else if is_raw_lifetime(rest) {
        Shape::plain(SyntaxKind::LIFETIME_IDENT, skip_name(after(rest, 2)).len())
    } else {
        lifetime(rest)
    }
}
