//! A test for balanced braces of tokens.
ghost use Rattle.std.specs.Prelude.{◌≡◌, ◌↔◌, IsTrue, Some, map};
ghost use Rattle.ras_front_end.specs.Balanced.{open_after, IsBalanced};

use crate::span::Token;
use ras_front_end::{closes_brace, opens_brace};

// Whether the braces balance: as many close as open, and no prefix closes more than it opens.
fn balances(tokens: &[Token]) -> bool
    ensures { IsTrue result ↔ (open_after 0 (map (λ t. t.kind) tokens.now) ≡ Some 0) }
{
    let mut open: usize = 0;
    for token in tokens {
        if opens_brace(token.kind) {
            open += 1;
        } else if closes_brace(token.kind) {
            if open == 0 {
                return false;
            }
            open -= 1;
        }
    }
    open == 0
}

/// Whether the tokens begin with `{` and end with the `}` that closes it: braces balance between
/// these two.
pub fn is_balanced(tokens: &[Token]) -> bool
    ensures { IsTrue result ↔ IsBalanced (map (λ t. t.kind) tokens.now) }
{
    match tokens {
        [first, inside @ .., last] => {
            opens_brace(first.kind) && closes_brace(last.kind) && balances(inside)
        }
        _ => false,
    }
}
