//! The line `#!..` at a file's start.
ghost use Rattle.std.specs.Prelude.{◌≡◌, length};
ghost use Rattle.rust_lexer.specs.Heads.{begins_shebang_of, is_passed_over_of, is_bracket_of, begins_bracket_of, behind_two_of, line_left_of, shebang_of};

use crate::class::{Class, after, begins, skip};
use crate::cut::split;
use crate::token::token;
use ras_front_end::Edition;
use syntax_kind::SyntaxKind;

/// Whether the text begins with `#!`.
pub fn begins_shebang(bytes: &[u8]) -> bool
    ensures { result ≡ begins_shebang_of bytes.now }
{
    begins(b'#', bytes) && begins(b'!', after(bytes, 1))
}

fn is_passed_over(kind: SyntaxKind) -> bool
    ensures { result ≡ is_passed_over_of kind }
{
    match kind {
        SyntaxKind::WHITESPACE => true,
        SyntaxKind::COMMENT => true,
        _ => false,
    }
}

fn is_bracket(kind: SyntaxKind) -> bool
    ensures { result ≡ is_bracket_of kind }
{
    match kind {
        SyntaxKind::L_BRACK => true,
        _ => false,
    }
}

// Whether the first token that is neither white space nor a comment is a `[`.
fn begins_bracket(text: &str, edition: Edition) -> bool
    ensures { result ≡ begins_bracket_of (length text.now) edition text.now }
{
    let mut rest = text;
    for turn in 0..text.len() {
        let shape = token(rest, edition);
        if !is_passed_over(shape.kind) {
            return is_bracket(shape.kind);
        }
        let (_, tail) = split(rest, shape.left);
        rest = tail;
    }
    false
}

/// The text after its first two bytes, which are ASCII.
pub fn behind_two(text: &str) -> &str
    ensures { result.now ≡ behind_two_of text.now }
{
    let (_, tail) = split(text, text.len().saturating_sub(2));
    tail
}

// The number of bytes after the line, including its line ending.
fn line_left(bytes: &[u8]) -> usize
    ensures { result ≡ line_left_of bytes.now }
{
    let rest = skip(Class::InLine, bytes);
    let before = bytes.len().saturating_sub(rest.len()).saturating_sub(1);
    if !rest.is_empty() && begins(b'\r', after(bytes, before)) {
        rest.len().saturating_add(1)
    } else {
        rest.len()
    }
}

/// The number of bytes after the shebang of a text, or `None` if it has none. An attribute `#![..]`
/// is not a shebang, even if there are white space and comments before its bracket.
pub fn shebang(text: &str, edition: Edition) -> Option<usize>
    ensures { result ≡ shebang_of edition text.now }
{
    if begins_shebang(text.as_bytes()) && !begins_bracket(behind_two(text), edition) {
        Some(line_left(text.as_bytes()))
    } else {
        None
    }
}
