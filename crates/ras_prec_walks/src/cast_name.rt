//! Whether an expression ends in the name of a cast's type.
ghost use Rattle.std.specs.Prelude.{◌≡◌, Some, false, reverse};
ghost use Rattle.std.specs.Option.{option_and_then};
ghost use Rattle.std.specs.List.{find};
ghost use Rattle.tree_model.specs.Cursor.{ancestors_from, ancestors_of, at_token, descendants_of, parent_of};
ghost use Rattle.ras_node.specs.Nodes.{typed_child};
ghost use Rattle.ras_node.specs.Sets.{is_ty};
ghost use Rattle.ras_prec_walks.specs.CastName.{is_in_name, is_type_of_cast, is_cast_type, passes_cast_type, is_cast_name, last_leaf, is_cast_name_of, ends_in_cast_name};

use crate::parts::is_it;
use lossless_tree::{Direction, SyntaxKind, SyntaxNode, SyntaxToken};
use ras_algo::algo;
use ras_node::sets::{KindSet, NameLikes, Types};
use ras_node::support::is_of_kind;

fn is_in_name(parent: Option<SyntaxNode>) -> bool
    ensures { result ≡ is_in_name parent }
{
    match parent {
        Some(holder) => NameLikes::has(holder.kind()),
        None => false,
    }
}

fn is_type_of_cast(node: &SyntaxNode, parent: &SyntaxNode) -> bool
    ensures { result ≡ is_type_of_cast node.now parent.now }
{
    is_of_kind(parent, SyntaxKind::CAST_EXPR)
        && is_it(
            node,
            ras_node::first_node::<Types>(parent.children_with_tokens()),
        )
}

fn is_cast_type(node: &SyntaxNode) -> bool
    ensures { result ≡ is_cast_type node.now (parent_of node.now) }
{
    match node.parent() {
        Some(parent) => is_type_of_cast(node, &parent),
        None => false,
    }
}

// Up from a token to the top, below the top, there is the type of a cast.
fn passes_cast_type(token: &SyntaxToken, top: &SyntaxNode) -> bool
    ensures { result ≡ passes_cast_type false top.now (ancestors_from (parent_of token.now)) }
{
    let mut above = token.parent_ancestors();
    let mut passed = false;
    while let Some(here) = above.next() {
        if here == *top {
            return passed;
        }
        passed = passed || is_cast_type(&here);
    }
    false
}

fn is_cast_name(token: &SyntaxToken, top: &SyntaxNode) -> bool
    ensures { result ≡ is_cast_name top.now token.now }
{
    is_in_name(token.parent()) && passes_cast_type(token, top)
}

// The last token that is not trivia, in the node or, if it has none, before it.
fn last_leaf(node: &SyntaxNode) -> Option<SyntaxToken>
    ensures { result ≡ last_leaf node.now }
{
    algo::skip_trivia_token(node.last_token()?, Direction::Prev)
}

/// Whether the expression ends, trivia aside, with a name in the type of a cast. `<` or `<<` after
/// it would be read as part of that type.
///
/// It takes time linear in the trivia at the end, and in how deep that token is.
pub fn ends_in_cast_name(node: &SyntaxNode) -> bool
    ensures { result ≡ ends_in_cast_name node.now }
{
    match last_leaf(node) {
        Some(token) => is_cast_name(&token, node),
        None => false,
    }
}
