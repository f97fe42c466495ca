//! The parts of an expression that the walks ask for.
ghost use Rattle.std.specs.Prelude.{◌≡◌, false};
ghost use Rattle.ras_node.specs.Nodes.{typed_child};
ghost use Rattle.ras_node.specs.Lookups.{second_typed_child};
ghost use Rattle.ras_node.specs.Sets.{is_expr};
ghost use Rattle.ras_prec_walks.specs.Parts.{is_it, is_and, is_and_token, range_ends_in_block, second_of};

use crate::along::{Meant, Toward, reaches};
use lossless_tree::{SyntaxKind, SyntaxNode, SyntaxNodeChildren, SyntaxToken};
use ras_node::sets::{BinaryOperators, Exprs, KindSet};
use ras_node::support::{is_of_kind, is_token_of_kind};

/// The first expression among the children.
pub fn first_expr(node: &SyntaxNode) -> Option<SyntaxNode>
    ensures { result ≡ typed_child is_expr node.now }
{
    ras_node::first_node::<Exprs>(node.children_with_tokens())
}

// The second expression of some nodes.
fn second_of(nodes: SyntaxNodeChildren) -> Option<SyntaxNode>
    ensures { result ≡ second_of false nodes }
{
    let mut nodes = nodes;
    let mut passed = false;
    while let Some(node) = nodes.next() {
        if Exprs::has(node.kind()) {
            if passed {
                return Some(node);
            }
            passed = true;
        }
    }
    None
}

/// The second expression among the children.
pub fn second_expr(node: &SyntaxNode) -> Option<SyntaxNode>
    ensures { result ≡ second_typed_child is_expr node.now }
{
    second_of(node.children())
}

/// Whether a node was found, and is this one.
pub fn is_it(node: &SyntaxNode, found: Option<SyntaxNode>) -> bool
    ensures { result ≡ is_it node.now found }
{
    match found {
        Some(other) => other == *node,
        None => false,
    }
}

fn is_and_token(found: Option<SyntaxToken>) -> bool
    ensures { result ≡ is_and_token found }
{
    match found {
        Some(operator) => is_token_of_kind(&operator, SyntaxKind::AMP2),
        None => false,
    }
}

/// Whether it is an `&&`, even if it lacks operands.
pub fn is_and(node: &SyntaxNode) -> bool
    ensures { result ≡ is_and node.now }
{
    is_of_kind(node, SyntaxKind::BIN_EXPR)
        && is_and_token(ras_node::first_token::<BinaryOperators>(node.children_with_tokens()))
}

/// Whether it is a range whose end, the first expression after its operator, is a block.
pub fn range_ends_in_block(node: &SyntaxNode) -> bool
    ensures { result ≡ range_ends_in_block node.now }
{
    is_of_kind(node, SyntaxKind::RANGE_EXPR)
        && reaches(Toward::Block, Meant::BehindDots, &node.trees())
}
