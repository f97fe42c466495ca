//! Searches in the children that are left, by their kinds.
ghost use Rattle.std.specs.Prelude.{◌≡◌, option_map};
ghost use Rattle.std.specs.List.{find};
ghost use Rattle.lossless_tree.specs.Element.{element_of};
ghost use Rattle.ras_node.specs.Searches.{is_node_among, is_token_among, is_other, has_other_kind, first_node, first_token, behind, before};

use crate::sets::KindSet;
use lossless_tree::{NodeOrToken, SyntaxElement, SyntaxElementChildren, SyntaxNode, SyntaxToken};

// Whether an element is a node, or a token, with a kind of the set; whether its kind is not in the
// set.
fn is_node_among<S: KindSet>(element: &SyntaxElement) -> bool
    ensures { result ≡ is_node_among S.kinds element.now }
{
    match element {
        NodeOrToken::Node(node) => S::has(node.kind()),
        NodeOrToken::Token(_) => false,
    }
}

fn is_token_among<S: KindSet>(element: &SyntaxElement) -> bool
    ensures { result ≡ is_token_among S.kinds element.now }
{
    match element {
        NodeOrToken::Node(_) => false,
        NodeOrToken::Token(token) => S::has(token.kind()),
    }
}

fn is_other<S: KindSet>(element: &SyntaxElement) -> bool
    ensures { result ≡ is_other S.kinds element.now }
{
    !S::has(element.kind())
}

/// The children after the first token with a kind of the set.
pub fn behind<T: KindSet>(left: SyntaxElementChildren) -> SyntaxElementChildren
    ensures { result ≡ behind T.kinds left }
{
    let mut left = left;
    while let Some(child) = left.next() {
        if is_token_among::<T>(&child) {
            return left;
        }
    }
    left
}

/// The first node with a kind of the set.
pub fn first_node<S: KindSet>(left: SyntaxElementChildren) -> Option<SyntaxNode>
    ensures { result ≡ first_node S.kinds left }
{
    left.node_among::<S>()
}

/// The first node with a kind of `S` before the first token with a kind of `T`.
pub fn first_node_before<S: KindSet, T: KindSet>(left: SyntaxElementChildren) -> Option<SyntaxNode>
    ensures { result ≡ first_node S.kinds (before T.kinds left) }
{
    let mut left = left;
    while let Some(child) = left.next() {
        if is_node_among::<S>(&child) {
            return child.into_node();
        }
        if is_token_among::<T>(&child) {
            return None;
        }
    }
    None
}

/// The first token with a kind of the set.
pub fn first_token<S: KindSet>(left: SyntaxElementChildren) -> Option<SyntaxToken>
    ensures { result ≡ first_token S.kinds left }
{
    left.token_among::<S>()
}

/// The first node or token whose kind is not in the set.
pub fn first_other<S: KindSet>(left: SyntaxElementChildren) -> Option<SyntaxElement>
    ensures { result ≡ option_map element_of (find (has_other_kind S.kinds) left) }
{
    let mut left = left;
    while let Some(child) = left.next() {
        if is_other::<S>(&child) {
            return Some(child);
        }
    }
    None
}
