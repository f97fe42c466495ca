//! Whether a string before a token perhaps ends too late.
ghost use Rattle.std.specs.Prelude.{◌≡◌, reverse};
ghost use Rattle.rust_lexer.specs.History.{is_closed_of, holds_pair_of, holds_code_of, is_string_of, is_code_of, is_behind_code_of};

use crate::class::{Class, skip};
use crate::scan::{Scan, run};
use syntax_kind::SyntaxKind;
use token_layout::Token;

fn is_closed(scan: Scan) -> bool
    ensures { result ≡ is_closed_of scan }
{
    match scan {
        Scan::Closed => true,
        _ => false,
    }
}

fn holds_pair(first: u8, second: u8, bytes: &[u8]) -> bool
    ensures { result ≡ holds_pair_of first second bytes.now }
{
    is_closed(run(Scan::Seek(first, second), bytes).0)
}

// Code is in the string: a `(`, and a comment or the end of a statement.
fn holds_code(bytes: &[u8]) -> bool
    ensures { result ≡ holds_code_of bytes.now }
{
    !skip(Class::NoParen, bytes).is_empty()
        && (holds_pair(b'/', b'/', bytes) || holds_pair(b';', b'\n', bytes))
}

fn is_string(kind: SyntaxKind) -> bool
    ensures { result ≡ is_string_of kind }
{
    match kind {
        SyntaxKind::STRING => true,
        _ => false,
    }
}

fn is_code(kind: SyntaxKind, word: &[u8]) -> bool
    ensures { result ≡ is_code_of kind word.now }
{
    is_string(kind) && holds_code(word)
}

/// Whether one of the last five tokens is a string with code in it. `read` is the text of the
/// tokens.
pub fn is_behind_code(tokens: &[Token], read: &[u8]) -> bool
    ensures { result ≡ is_behind_code_of 5 (reverse tokens.now) read.now }
{
    let mut earlier = tokens;
    let mut text = read;
    for turn in 0..5usize {
        match earlier.split_last() {
            None => return false,
            Some((token, before)) => {
                let start = text.len().saturating_sub(token.len.raw() as usize);
                let (front, word) = text.split_at(start);
                if is_code(token.kind, word) {
                    return true;
                }
                earlier = before;
                text = front;
            }
        }
    }
    false
}
