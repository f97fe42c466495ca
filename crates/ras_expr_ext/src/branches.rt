//! Conditions, branches and the bodies of loops.
ghost use Rattle.std.specs.Prelude.{◌≡◌, option_map};
ghost use Rattle.ras_node.specs.Lookups.{loop_body};
ghost use Rattle.ras_expr_ext.specs.ExprParts.{unless_lone_block, second_as, third_as};

use lossless_tree::{SyntaxKind, SyntaxNode};
use ras_node::{AstNode, support};

/// The first child that can be viewed as an `N`; if it is a block, only if there is another one: a
/// lone block is the body.
pub fn unless_lone_block<N: AstNode + Drop>(parent: &SyntaxNode) -> Option<N>
    ensures { option_map N.node result ≡ unless_lone_block N.casts parent.now }
{
    let first = support::child::<N>(parent)?;
    if first.syntax().kind() == SyntaxKind::BLOCK_EXPR {
        let _second = support::second_child::<N>(parent)?;
    }
    Some(first)
}

/// The second child that can be viewed as an `N`, if it can be viewed as an `M`: the `then` branch
/// of an `if`.
pub fn second_as<N: AstNode + Drop, M: AstNode>(parent: &SyntaxNode) -> Option<M>
    ensures { option_map M.node result ≡ second_as N.casts M.casts parent.now }
{
    support::recast(support::second_child::<N>(parent))
}

/// The third child that can be viewed as an `N`, if it can be viewed as an `M`: the `else` branch
/// of an `if`.
pub fn third_as<N: AstNode + Drop, M: AstNode>(parent: &SyntaxNode) -> Option<M>
    ensures { option_map M.node result ≡ third_as N.casts M.casts parent.now }
{
    support::recast(support::third_child::<N>(parent))
}

/// The body of a loop. For a `loop` it is the first child that can be viewed as an `N`. The first
/// block of a `for` or a `while` may be its iterator or condition, so there it is the second such
/// child, or the first if there is only one.
pub fn loop_body<N: AstNode + Drop>(node: &SyntaxNode) -> Option<N>
    ensures { option_map N.node result ≡ loop_body N.casts node.now }
{
    if node.kind() == SyntaxKind::LOOP_EXPR {
        return support::child(node);
    }
    match support::second_child(node) {
        Some(body) => Some(body),
        None => support::child(node),
    }
}
