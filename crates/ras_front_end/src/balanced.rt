//! A test for balanced braces.
ghost use Rattle.std.specs.Prelude.{◌≡◌, ◌↔◌, IsTrue, Some};
ghost use Rattle.ras_front_end.specs.Balanced.{opens_brace, closes_brace, open_after, IsBalanced};

use syntax_kind::SyntaxKind;

/// Whether a token of the kind opens a brace: that of `{` alone does.
///
/// ```
/// opens_brace(SyntaxKind::L_CURLY) // true
/// opens_brace(SyntaxKind::L_PAREN) // false
/// ```
pub fn opens_brace(kind: SyntaxKind) -> bool
    ensures { result ≡ opens_brace kind }
{
    matches!(kind, SyntaxKind::L_CURLY)
}

/// Whether a token of the kind closes a brace: that of `}` alone does.
///
/// ```
/// closes_brace(SyntaxKind::R_CURLY) // true
/// closes_brace(SyntaxKind::R_PAREN) // false
/// ```
pub fn closes_brace(kind: SyntaxKind) -> bool
    ensures { result ≡ closes_brace kind }
{
    matches!(kind, SyntaxKind::R_CURLY)
}

// Whether the braces balance: as many close as open, and no prefix closes more than it opens.
fn balances(kinds: &[SyntaxKind]) -> bool
    ensures { IsTrue result ↔ (open_after 0 kinds.now ≡ Some 0) }
{
    let mut open: usize = 0;
    for kind in kinds {
        if opens_brace(*kind) {
            open += 1;
        } else if closes_brace(*kind) {
            if open == 0 {
                return false;
            }
            open -= 1;
        }
    }
    open == 0
}

/// Whether the kinds of a text's tokens begin with `{` and end with the `}` that closes it: braces
/// balance between these two.
///
/// ```
/// is_balanced(&[SyntaxKind::L_CURLY, SyntaxKind::R_CURLY]) // true, as in `{}`
/// is_balanced(&[SyntaxKind::L_CURLY, SyntaxKind::R_CURLY, SyntaxKind::R_CURLY]) // false
/// ```
pub fn is_balanced(kinds: &[SyntaxKind]) -> bool
    ensures { IsTrue result ↔ IsBalanced kinds.now }
{
    match kinds {
        [first, inside @ .., last] => {
            opens_brace(*first) && closes_brace(*last) && balances(inside)
        }
        _ => false,
    }
}
