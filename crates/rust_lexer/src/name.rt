//! Names and keywords.
ghost use Rattle.rust_lexer.specs.declared.class.Class.TheVariants as classes;
ghost use Rattle.rust_lexer.specs.Classes.{test_on, is_in_of};
ghost use Rattle.std.specs.Prelude.{◌≡◌, true, slice_get, ◌-◌, IfSome, length};
ghost use Rattle.rust_lexer.specs.Cuts.{IsEnd};
ghost use Rattle.rust_lexer.specs.Shapes.{plain_of};
ghost use Rattle.rust_lexer.specs.Names.{begins_name_of, begins_emoji_of, skip_name_of, skip_suffix_of, emoji_name_of, word_kind_of, prefix_of, name_of, begins_wide_name_of, is_literal_mark_of, begins_wide_emoji_of};

use crate::class::{
    Class, Wide, after, begins_beyond, count, first_byte, is_emoji, is_letter, is_name_start, skip,
    skip_wide,
};
use crate::cut::split;
use crate::problem::Problem;
use crate::shape::{Check, Shape};
use bstr::decode_utf8;
use ras_front_end::Edition;
use rust_kinds::keyword;
use syntax_kind::SyntaxKind;

fn begins_wide_name(bytes: &[u8]) -> bool
    ensures { result ≡ begins_wide_name_of bytes.now }
{
    match decode_utf8(bytes).0 {
        Some(c) => is_name_start(c),
        None => false,
    }
}

/// Whether a name begins here.
pub fn begins_name(bytes: &[u8]) -> bool
    ensures { result ≡ begins_name_of bytes.now }
{
    match first_byte(bytes) {
        None => false,
        Some(first) => {
            if first < 128 {
                is_letter(first) || first == b'_'
            } else {
                begins_wide_name(bytes)
            }
        }
    }
}

/// Whether an emoji begins here that is not ASCII.
pub fn begins_emoji(bytes: &[u8]) -> bool
    ensures { result ≡ begins_emoji_of bytes.now }
{
    match decode_utf8(bytes).0 {
        Some(c) => is_emoji(c),
        None => false,
    }
}

/// The rest after the characters that may follow in a name.
#[inline]
pub fn skip_name(bytes: &[u8]) -> &[u8]
    ensures { result.now ≡ skip_name_of bytes.now }
{
    let rest = skip(Class::Name, bytes);
    if begins_beyond(rest) {
        skip_wide(Wide::Name, rest)
    } else {
        rest
    }
}

/// The rest after a literal's suffix, which is a name.
pub fn skip_suffix(bytes: &[u8]) -> &[u8]
    ensures { result.now ≡ skip_suffix_of bytes.now }
{
    if begins_name(bytes) {
        skip_name(bytes)
    } else {
        bytes
    }
}

/// A name with an emoji; `rest` begins at the emoji.
pub fn emoji_name(rest: &[u8]) -> Shape
    ensures { result ≡ emoji_name_of rest.now }
{
    Shape::with(
        SyntaxKind::IDENT,
        skip_wide(Wide::Emoji, rest).len(),
        Problem::InvalidIdent,
    )
}

#[inline(always)]
fn word_kind(word: &str, edition: Edition) -> SyntaxKind
    ensures { result ≡ word_kind_of edition word.now }
{
    if word.len() == 1 && word == "_" {
        SyntaxKind::UNDERSCORE
    } else {
        match keyword(word, edition) {
            Some(kind) => kind,
            None => SyntaxKind::IDENT,
        }
    }
}

// A name right before a quote or a `#`.
fn prefix(word: &str, left: usize) -> Shape
    ensures { result ≡ prefix_of word.now left }
{
    if word == "builtin" {
        Shape::plain(SyntaxKind::IDENT, left)
    } else {
        Shape {
            kind: SyntaxKind::IDENT,
            left,
            check: Check::Prefix,
        }
    }
}

fn is_literal_mark(bytes: &[u8]) -> bool
    ensures { result ≡ is_literal_mark_of bytes.now }
{
    match first_byte(bytes) {
        None => false,
        Some(first) => first == b'#' || first == b'"' || first == b'\'',
    }
}

fn begins_wide_emoji(bytes: &[u8]) -> bool
    ensures { result ≡ begins_wide_emoji_of bytes.now }
{
    begins_beyond(bytes) && begins_emoji(bytes)
}

/// The token that begins with a name.
pub fn name(text: &str, edition: Edition) -> Shape
    ensures { result ≡ name_of edition text.now }
{
    let rest = skip_name(text.as_bytes());
    let left = rest.len();
    let (word, _) = split(text, left);
    if is_literal_mark(rest) {
        prefix(word, left)
    } else if begins_wide_emoji(rest) {
        emoji_name(rest)
    } else {
        Shape::plain(word_kind(word, edition), left)
    }
}

/// The kind of a name and its length, unless something follows it that needs a closer look: a
/// character past ASCII, a quote or a `#`.
#[inline(always)]
pub fn plain_name(text: &str, edition: Edition) -> Option<(SyntaxKind, usize)>
    requires { test_on (is_in_of classes.Name) (slice_get text.now 0) ≡ true }
    ensures name { IfSome result
        (λ r. name_of edition text.now ≡ plain_of r.0 (length text.now - r.1)) }
    ensures end { IfSome result (λ r. IsEnd text.now r.1) }
{
    let bytes = text.as_bytes();
    let len = count(Class::Name, bytes);
    let rest = after(bytes, len);
    if begins_beyond(rest) || is_literal_mark(rest) {
        return None;
    }
    let (word, _) = text.split_at(len);
    Some((word_kind(word, edition), len))
}
