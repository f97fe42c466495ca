//! Token trees.
ghost use Rattle.std.specs.Prelude.{◌≡◌, map, option_map};
ghost use Rattle.std.specs.Iterator.{YieldsFirstBy, item_count};
ghost use Rattle.tree_model.specs.Cursor.{children_of};
ghost use Rattle.lossless_tree.specs.Element.{element_of};
ghost use Rattle.ras_node_ext.specs.TokenTrees.{as_element, as_tree, tree_or_token, is_passed_over, inner_part, trees_and_tokens, inner_parts};

use lossless_tree::{
    NodeOrToken, SyntaxElement, SyntaxElementChildren, SyntaxKind, SyntaxNode, SyntaxToken,
};
use ras_node::{AstNode, support};
use std::alloc::AllocError;
use std::marker::{Model, PhantomData};

// The view of a token tree, if a node is one.
fn as_tree<T: AstNode>(node: SyntaxNode) -> Option<NodeOrToken<T, SyntaxToken>>
    ensures { option_map (as_element T.node) result ≡ as_tree T.casts node }
{
    Some(NodeOrToken::Node(support::view::<T>(Some(node))?))
}

fn tree_or_token<T: AstNode>(element: SyntaxElement) -> Option<NodeOrToken<T, SyntaxToken>>
    ensures { option_map (as_element T.node) result ≡ tree_or_token T.casts element }
{
    match element {
        NodeOrToken::Node(node) => as_tree(node),
        NodeOrToken::Token(token) => Some(NodeOrToken::Token(token)),
    }
}

// Whether it is white space, a comment, or a closing delimiter.
fn is_passed_over(kind: SyntaxKind) -> bool
    ensures { result ≡ is_passed_over kind }
{
    matches!(
        kind,
        SyntaxKind::WHITESPACE
            | SyntaxKind::COMMENT
            | SyntaxKind::R_PAREN
            | SyntaxKind::R_BRACK
            | SyntaxKind::R_CURLY
    )
}

fn inner_part<T: AstNode>(element: SyntaxElement) -> Option<NodeOrToken<T, SyntaxToken>>
    ensures { option_map (as_element T.node) result ≡ inner_part T.casts element }
{
    match element {
        NodeOrToken::Node(node) => as_tree(node),
        NodeOrToken::Token(token) => {
            if is_passed_over(token.kind()) {
                None
            } else {
                Some(NodeOrToken::Token(token))
            }
        }
    }
}

/// The children of a token tree that are token trees or tokens, in order. A clause sees the
/// children that are left.
#[derive(Drop)]
pub struct TokenTreesAndTokens<T: AstNode> {
    left: SyntaxElementChildren,
    view: PhantomData<T>,
}

impl<T: AstNode> Model for TokenTreesAndTokens<T> {
    ghost use Rattle.std.specs.Prelude.{List, map};
    ghost use Rattle.std.specs.Coded.{coded_list};
    ghost use Rattle.tree_model.specs.Cursor.{Cursor};
    ghost use Rattle.lossless_tree.specs.declared.cursor.element.NodeOrToken.{NodeOrToken};
    ghost use Rattle.lossless_tree.specs.Element.{element_of};
    ghost use Rattle.lossless_tree.specs.ElementCode.{coded_element};
    ghost use Rattle.ras_node_ext.specs.TokenTrees.{trees_and_tokens};

    ghost Value = { List (NodeOrToken Cursor Cursor) };

    ghost coded = { coded_list coded_element };

    ghost view = { λ a. trees_and_tokens T.casts (map element_of a.left) };
}

impl<T: AstNode> TokenTreesAndTokens<T> {
    /// The token trees and tokens among the children of a token tree.
    pub fn new(tree: &SyntaxNode) -> TokenTreesAndTokens<T>
        ensures { result ≡ trees_and_tokens T.casts (map element_of (children_of tree.now)) }
    {
        TokenTreesAndTokens {
            left: tree.children_with_tokens(),
            view: PhantomData,
        }
    }
}

impl<T: AstNode> Iterator for TokenTreesAndTokens<T> {
    type Item = NodeOrToken<T, SyntaxToken>;

    ghost next_gives = { YieldsFirstBy (as_element T.node) (λ left. left) };

    ghost remaining = { item_count (λ left. left) };

    fn next(&mut self) -> Option<NodeOrToken<T, SyntaxToken>> {
        while let Some(child) = self.left.next() {
            if let Some(part) = tree_or_token::<T>(child) {
                return Some(part);
            }
        }
        None
    }
}

/// The contents of a token tree: its children that are token trees or tokens, in order, without the
/// first child, whatever it is, and without white space, comments and closing delimiters. A clause
/// sees the children that are left.
#[derive(Drop)]
pub struct TokenTreeChildren<T: AstNode> {
    left: SyntaxElementChildren,
    view: PhantomData<T>,
}

impl<T: AstNode> Model for TokenTreeChildren<T> {
    ghost use Rattle.std.specs.Prelude.{List, map};
    ghost use Rattle.std.specs.List.{filter_map};
    ghost use Rattle.std.specs.Coded.{coded_list};
    ghost use Rattle.tree_model.specs.Cursor.{Cursor};
    ghost use Rattle.lossless_tree.specs.declared.cursor.element.NodeOrToken.{NodeOrToken};
    ghost use Rattle.lossless_tree.specs.Element.{element_of};
    ghost use Rattle.lossless_tree.specs.ElementCode.{coded_element};
    ghost use Rattle.ras_node_ext.specs.TokenTrees.{inner_part};

    ghost Value = { List (NodeOrToken Cursor Cursor) };

    ghost coded = { coded_list coded_element };

    ghost view = { λ a. filter_map (inner_part T.casts) (map element_of a.left) };
}

impl<T: AstNode> TokenTreeChildren<T> {
    /// The contents of a token tree.
    pub fn new(tree: &T) -> TokenTreeChildren<T>
        ensures { result ≡ inner_parts T.casts (map element_of (children_of (T.node tree.now))) }
    {
        let mut left = tree.syntax().children_with_tokens();
        let _first = left.next();
        TokenTreeChildren {
            left,
            view: PhantomData,
        }
    }
}

impl<T: AstNode> Clone for TokenTreeChildren<T> {
    ghost use Rattle.std.specs.Prelude.{◌≡◌, ⊤};

    ghost is_clone = { λ s copy. copy ≡ s };

    ghost is_infallible = { λ _. ⊤ };

    fn clone(&self) -> Result<TokenTreeChildren<T>, AllocError> {
        Ok(TokenTreeChildren {
            left: self.left.clone()?,
            view: PhantomData,
        })
    }
}

impl<T: AstNode> Iterator for TokenTreeChildren<T> {
    type Item = NodeOrToken<T, SyntaxToken>;

    ghost next_gives = { YieldsFirstBy (as_element T.node) (λ left. left) };

    ghost remaining = { item_count (λ left. left) };

    fn next(&mut self) -> Option<NodeOrToken<T, SyntaxToken>> {
        while let Some(child) = self.left.next() {
            if let Some(part) = inner_part::<T>(child) {
                return Some(part);
            }
        }
        None
    }
}
