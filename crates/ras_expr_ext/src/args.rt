//! The arguments of a call.
ghost use Rattle.std.specs.Prelude.{◌≡◌, false, map, option_map};
ghost use Rattle.std.specs.Iterator.{YieldsFirstBy, item_count};
ghost use Rattle.tree_model.specs.Cursor.{children_of};
ghost use Rattle.lossless_tree.specs.Element.{element_of};
ghost use Rattle.ras_expr_ext.specs.Args.{begins_with_comma, is_comma, is_after, arguments};

use lossless_tree::{NodeOrToken, SyntaxElement, SyntaxElementChildren, SyntaxKind, SyntaxNode};
use ras_node::{AstNode, support};
use std::marker::{Model, PhantomData};

// Whether its first token, at any depth, is a comma.
fn begins_with_comma(node: &SyntaxNode) -> bool
    ensures { result ≡ begins_with_comma node.now }
{
    match node.first_token() {
        Some(first) => first.kind() == SyntaxKind::COMMA,
        None => false,
    }
}

fn is_comma(element: &SyntaxElement) -> bool
    ensures { result ≡ is_comma element.now }
{
    match element {
        NodeOrToken::Node(node) => node.kind() == SyntaxKind::ERROR && begins_with_comma(node),
        NodeOrToken::Token(token) => token.kind() == SyntaxKind::COMMA,
    }
}

fn is_after<N: AstNode>(after: bool, element: &SyntaxElement) -> bool
    ensures { result ≡ is_after N.casts after element.now }
{
    if is_comma(element) {
        return false;
    }
    match element {
        NodeOrToken::Node(node) => after || N::can_cast(node.kind()),
        NodeOrToken::Token(_) => after,
    }
}

/// The arguments of a call, in order, with `None` where one is missing. Each child node that can be
/// viewed as an `N` is an argument; any other node gives `None`, and so does a comma that follows
/// no argument since the last comma or the start. An `ERROR` whose first token is a comma counts as
/// a comma. A clause sees the arguments that are left.
#[derive(Drop)]
pub struct ArgsMaybeEmpty<N: AstNode> {
    left: SyntaxElementChildren,
    after: bool,
    view: PhantomData<N>,
}

impl<N: AstNode> Model for ArgsMaybeEmpty<N> {
    ghost use Rattle.std.specs.Prelude.{List, Option, map};
    ghost use Rattle.std.specs.Coded.{coded_list, coded_option};
    ghost use Rattle.tree_model.specs.Cursor.{Cursor, cursor_code};
    ghost use Rattle.lossless_tree.specs.Element.{element_of};
    ghost use Rattle.ras_expr_ext.specs.Args.{arguments};

    ghost Value = { List (Option Cursor) };

    ghost coded = { coded_list (coded_option cursor_code) };

    ghost view = { λ a. arguments N.casts a.after (map element_of a.left) };
}

impl<N: AstNode> ArgsMaybeEmpty<N> {
    /// The arguments in an argument list.
    pub fn new(list: &SyntaxNode) -> ArgsMaybeEmpty<N>
        ensures { result ≡ arguments N.casts false (map element_of (children_of list.now)) }
    {
        ArgsMaybeEmpty {
            left: list.children_with_tokens(),
            after: false,
            view: PhantomData,
        }
    }
}

impl<N: AstNode> Iterator for ArgsMaybeEmpty<N> {
    type Item = Option<N>;

    ghost next_gives = { YieldsFirstBy (option_map N.node) (λ left. left) };

    ghost remaining = { item_count (λ left. left) };

    fn next(&mut self) -> Option<Self::Item> {
        while let Some(child) = self.left.next() {
            let after = self.after;
            self.after = is_after::<N>(after, &child);
            if is_comma(&child) {
                if !after {
                    return Some(None);
                }
                continue;
            }
            match child {
                NodeOrToken::Node(node) => return Some(support::view(Some(node))),
                NodeOrToken::Token(_token) => {}
            }
        }
        None
    }
}
