//! Laws of the definitions that contracts cite, and of cursors. The functions do nothing: the
//! contract is the law.
ghost use Rattle.tree_model.specs.Tree.{IsNode, IsToken};
ghost use Rattle.tree_model.specs.Cursor.{focus};
ghost use Rattle.tree_model.specs.Placed.{IsPlaced};
ghost use Rattle.lossless_tree.specs.Element.{ElementEqualityIsSameness};
ghost use Rattle.lossless_tree.specs.PointerEquality.{PointerEqualityIsSameness};

use crate::cursor::node::SyntaxNode;
use crate::cursor::token::SyntaxToken;
pub use syntax_kind::laws::{kind_names_differ, kind_numbers_differ};
pub use tree_model::laws::{
    children_fill_nodes, edited_inside_a_piece, equal_cursors_hash_alike, equality_is_sameness,
    every_is_descendants, nodes_are_accepted, places_are_reached, places_end_within, refusals_hold,
    replaced_text, root_is_place, text_around_a_place, texts_are_built,
};
pub use tree_rows::laws::{
    at_most_two_tokens, covering_holds, parents_stand_around, pointers_resolve,
    siblings_stand_behind, tokens_stand_together,
};

/// A node's place is in its tree, and has a node; the root of the tree is a node, and its text is
/// UTF-8 of fewer than 2^32 bytes.
pub fn node_is_placed(node: &SyntaxNode)
    ensures placed { IsPlaced node.now }
    ensures node { IsNode (focus node.now) }
{
    node.placed()
}

/// A token's place is one of its tree's and holds a token; the tree's root is a node, and its text
/// is UTF-8 of fewer than 2^32 bytes.
pub fn token_is_placed(token: &SyntaxToken)
    ensures placed { IsPlaced token.now }
    ensures token { IsToken (focus token.now) }
{
    token.placed()
}

/// Two elements are equal exactly where both are nodes, or both tokens, at the same place in equal
/// trees.
pub fn element_equality_is_sameness()
    ensures { ElementEqualityIsSameness }
{}

/// Two pointers are equal exactly where they have the same kind and the same range.
pub fn pointer_equality_is_sameness()
    ensures { PointerEqualityIsSameness }
{}
