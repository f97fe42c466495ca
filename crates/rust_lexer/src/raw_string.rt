//! Raw strings.
ghost use Rattle.std.specs.Prelude.{◌≡◌};
ghost use Rattle.rust_lexer.specs.RawStrings.{invalid_of, body_of, raw_string_of};

use crate::class::{Class, after, after_char, begins, skip};
use crate::name::skip_suffix;
use crate::problem::Problem;
use crate::scan::{Scan, run};
use crate::shape::Shape;
use syntax_kind::SyntaxKind;

fn invalid(kind: SyntaxKind, left: usize) -> Shape
    ensures { result ≡ invalid_of kind left }
{
    Shape::with(kind, left, Problem::InvalidRawString)
}

// The raw string, given the number of its `#` and the text after its opening quote.
fn body(kind: SyntaxKind, hashes: usize, rest: &[u8]) -> Shape
    ensures { result ≡ body_of kind hashes rest.now }
{
    let (scan, rest) = run(Scan::Raw(hashes), rest);
    match scan {
        Scan::Closed => {
            if hashes < 256 {
                Shape::plain(kind, skip_suffix(rest).len())
            } else {
                invalid(kind, rest.len())
            }
        }
        _ => invalid(kind, rest.len()),
    }
}

/// The raw string, given the text after its letters.
pub fn raw_string(kind: SyntaxKind, rest: &[u8]) -> Shape
    ensures { result ≡ raw_string_of kind rest.now }
{
    let opening = skip(Class::Hash, rest);
    if begins(b'"', opening) {
        let hashes = rest.len().saturating_sub(opening.len());
        body(kind, hashes, after(opening, 1))
    } else {
        // the character in place of the quote is part of the token
        invalid(kind, after_char(opening).len())
    }
}
