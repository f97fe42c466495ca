//! Tests of trees that name `lossless_tree` alone, in code and in clauses.
#![tactic(auto)]

ghost use Rattle.std.specs.Prelude.{◌≡◌, ◌↔◌, ◌≤◌, ◌++◌, IfOk, IsTrue, List, length};
ghost use Rattle.std.specs.List.{filter};
ghost use Rattle.lossless_tree.specs.Tree.{text, kind_of};
ghost use Rattle.lossless_tree.specs.Kinds.{is_trivia};
ghost use Rattle.lossless_tree.specs.Cursor.{Cursor, focus, range_of, IsRoot, children_of, descendants_of, all_tokens, at_node, at_token};
ghost use Rattle.lossless_tree.specs.Element.{cursor_of};

use lossless_tree::laws::{node_is_placed, places_end_within, tokens_stand_together};
use lossless_tree::{
    FinishError, SyntaxElement, SyntaxKind, SyntaxNode, SyntaxNodeChildren, TreeBuilder,
};
use std::alloc::Global;

#[cfg(test)]
mod tests;

/// Whether an element is a node or token of trivia.
pub fn has_trivia_kind(element: &SyntaxElement) -> bool
    ensures { result ≡ is_trivia (kind_of (focus (cursor_of element.now))) }
{
    element.kind().is_trivia()
}

/// The child nodes of a node's root.
pub fn child_nodes(node: &SyntaxNode) -> SyntaxNodeChildren
    ensures { result ≡ filter at_node (children_of node.now) }
{
    node.children()
}

/// Whether two nodes have one text.
pub fn has_same_text(a: &SyntaxNode, b: &SyntaxNode) -> bool
    ensures { IsTrue result ↔ (text (focus a.now) ≡ text (focus b.now)) }
{
    *a.as_str() == *b.as_str()
}

/// Whether two elements are the same.
pub fn is_same_element(a: &SyntaxElement, b: &SyntaxElement) -> bool
    ensures { IsTrue result ↔ (a.now ≡ b.now) }
{
    *a == *b
}

/// The tokens of a node follow one another among those of its tree: a caller has the law from two
/// calls.
pub fn tokens_of_node(node: &SyntaxNode)
    ensures { (front : List Cursor) × (back : List Cursor)
        × (all_tokens node.now ≡ front ++ (filter at_token (descendants_of node.now) ++ back)) }
{
    node_is_placed(node);
    tokens_stand_together();
}

/// A node ends within the text of its tree: a caller has this law the same way.
pub fn node_ends_within(node: &SyntaxNode)
    ensures { (range_of node.now).end ≤ length (text node.now.tree) }
{
    node_is_placed(node);
    places_end_within();
}

/// A name after white space.
pub fn name_tree(alloc: Global, name: &str) -> Result<SyntaxNode, FinishError>
    ensures { IfOk result IsRoot }
{
    let mut builder = TreeBuilder::new(alloc);
    let memory = |_| FinishError::Memory;
    builder.start_node(SyntaxKind::NAME).map_err(memory)?;
    builder.token(SyntaxKind::WHITESPACE, " ").map_err(memory)?;
    builder.token(SyntaxKind::IDENT, name).map_err(memory)?;
    builder.finish_node().map_err(memory)?;
    builder.finish()
}
