//! What the tokens of a node end in, read from the last.
ghost use Rattle.std.specs.Prelude.{◌≡◌, ◌++◌, ◌∷◌, List, reverse, not, ◌&&◌, ◌||◌};
ghost use Rattle.std.specs.List.{find};
ghost use Rattle.tree_model.specs.Tree.{IsPlace};
ghost use Rattle.tree_model.specs.Cursor.{Cursor, focus, at_token, descendants_of};
ghost use Rattle.operator_terms.specs.Reading.{is_as, is_name};
ghost use Rattle.operator_terms.specs.Places.{ends_in_cast};
ghost use Rattle.operator_trees.specs.Leaves.{leaves_of};
ghost use Rattle.operator_powers.specs.LastTokens.{tokens_of, head_of};

use crate::edge::{is_as, is_name};
use lossless_tree::laws::tokens_stand_together;
use lossless_tree::{SyntaxNode, SyntaxToken};
use syntax_kind::SyntaxKind;

// The token right before one of a node's, in that node, whose first token is `first`.
fn token_before(token: &SyntaxToken, first: &Option<SyntaxToken>) -> Option<SyntaxToken>
    ensures { (c : Cursor) (before after : List Cursor) → IsPlace c.tree c.place
        → tokens_of c ≡ reverse before ++ token.now ∷ after
        → first.now ≡ find at_token (descendants_of c) → result ≡ head_of before }
{
    tokens_stand_together();
    match first {
        None => None,
        Some(first) => {
            if token == first {
                return None;
            }
            token.prev_token()
        }
    }
}

// A token that is not trivia decides, unless it is the last such token and a name.
fn decides(named: bool, kind: SyntaxKind) -> bool
    ensures { result ≡ (named || not (is_name kind)) }
{
    named || !is_name(kind)
}

// The word `as` before a name.
fn is_cast_word(named: bool, kind: SyntaxKind) -> bool
    ensures { result ≡ (named && is_as kind) }
{
    named && is_as(kind)
}

/// Whether the last tokens of a node that are not trivia are `as` and a name. Takes time linear in
/// the trivia after the two and between them, and in the nodes that begin there or at the node's
/// first token.
pub fn ends_in_cast(node: &SyntaxNode) -> bool
    ensures { result ≡ ends_in_cast (leaves_of (focus node.now)) }
{
    tokens_stand_together();
    node.placed();
    let first = node.first_token();
    let mut named = false;
    let mut next = node.last_token();
    while let Some(token) = next {
        let kind = token.kind();
        if !kind.is_trivia() {
            if decides(named, kind) {
                return is_cast_word(named, kind);
            }
            named = true;
        }
        next = token_before(&token, &first);
    }
    false
}
