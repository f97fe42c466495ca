//! The children of a node that are tokens of some kinds.
ghost use Rattle.std.specs.Prelude.{◌≡◌, map};
ghost use Rattle.std.specs.Iterator.{YieldsFirst, item_count};
ghost use Rattle.tree_model.specs.Cursor.{children_of};
ghost use Rattle.lossless_tree.specs.Element.{element_of};
ghost use Rattle.ras_node.specs.Searches.{token_among, tokens_among};

use crate::sets::KindSet;
use lossless_tree::{NodeOrToken, SyntaxElement, SyntaxElementChildren, SyntaxNode, SyntaxToken};
use std::marker::{Model, PhantomData};

// The token, if it is one, and of a kind of the set.
fn token_among<S: KindSet>(element: SyntaxElement) -> Option<SyntaxToken>
    ensures { result ≡ token_among S.kinds element }
{
    match element {
        NodeOrToken::Node(_node) => None,
        NodeOrToken::Token(token) => {
            if S::has(token.kind()) {
                Some(token)
            } else {
                None
            }
        }
    }
}

/// The children of a node that are tokens with a kind of the set, in order. A clause sees the
/// tokens that are left.
#[derive(Drop)]
pub struct TokenChildren<S: KindSet> {
    left: SyntaxElementChildren,
    kinds: PhantomData<S>,
}

impl<S: KindSet> Model for TokenChildren<S> {
    ghost use Rattle.std.specs.Prelude.{List, map};
    ghost use Rattle.std.specs.Coded.{coded_list};
    ghost use Rattle.tree_model.specs.Cursor.{Cursor, cursor_code};
    ghost use Rattle.lossless_tree.specs.Element.{element_of};
    ghost use Rattle.ras_node.specs.Searches.{tokens_among};

    ghost Value = { List Cursor };

    ghost coded = { coded_list cursor_code };

    ghost view = { λ a. tokens_among S.kinds (map element_of a.left) };
}

impl<S: KindSet> TokenChildren<S> {
    /// The tokens of the set among the children of a node.
    pub fn new(parent: &SyntaxNode) -> TokenChildren<S>
        ensures { result ≡ tokens_among S.kinds (map element_of (children_of parent.now)) }
    {
        TokenChildren {
            left: parent.children_with_tokens(),
            kinds: PhantomData,
        }
    }
}

impl<S: KindSet> Iterator for TokenChildren<S> {
    type Item = SyntaxToken;

    ghost next_gives = { YieldsFirst (λ left. left) };

    ghost remaining = { item_count (λ left. left) };

    fn next(&mut self) -> Option<SyntaxToken> {
        while let Some(child) = self.left.next() {
            if let Some(token) = token_among::<S>(child) {
                return Some(token);
            }
        }
        None
    }
}
