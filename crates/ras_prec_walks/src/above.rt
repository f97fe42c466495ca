//! What is around an expression: a condition or scrutinee that a block follows, an ancestor.
ghost use Rattle.std.specs.Prelude.{◌≡◌};
ghost use Rattle.std.specs.List.{find};
ghost use Rattle.tree_model.specs.Cursor.{ancestors_of, parent_of};
ghost use Rattle.ras_prec_walks.specs.Above.{comes_before_block, hands_on, before_block, is_followed_by_block, is_among, is_at_or_above, is_child_of, child_toward, first_child_of_it};

use lossless_tree::{SyntaxKind, SyntaxNode};

// After a child of it, a block follows.
fn comes_before_block(kind: SyntaxKind) -> bool
    ensures { result ≡ comes_before_block kind }
{
    matches!(
        kind,
        SyntaxKind::FOR_EXPR
            | SyntaxKind::IF_EXPR
            | SyntaxKind::MATCH_EXPR
            | SyntaxKind::WHILE_EXPR
            | SyntaxKind::INCLUDE_BYTES_EXPR
    )
}

// What follows it follows its child too, or may.
fn hands_on(kind: SyntaxKind) -> bool
    ensures { result ≡ hands_on kind }
{
    matches!(
        kind,
        SyntaxKind::BIN_EXPR
            | SyntaxKind::RANGE_EXPR
            | SyntaxKind::BREAK_EXPR
            | SyntaxKind::CONTINUE_EXPR
            | SyntaxKind::PREFIX_EXPR
            | SyntaxKind::REF_EXPR
            | SyntaxKind::RETURN_EXPR
            | SyntaxKind::BECOME_EXPR
            | SyntaxKind::YIELD_EXPR
            | SyntaxKind::YEET_EXPR
            | SyntaxKind::LET_EXPR
    )
}

/// Whether a block follows the expression's children: it is a `for`, `if`, `match`, `while` or
/// `include_bytes`, or it is a binary operator, range, prefix, `&`, `let` or jump whose parent has
/// this property.
///
/// Takes time linear in the number of these ancestors.
pub fn is_followed_by_block(node: &SyntaxNode) -> bool
    ensures { result ≡ is_followed_by_block node.now }
{
    let mut above = node.ancestors();
    while let Some(here) = above.next() {
        let kind = here.kind();
        if comes_before_block(kind) {
            return true;
        }
        if !hands_on(kind) {
            return false;
        }
    }
    false
}

/// Whether a node is another one, or is above it.
pub fn is_at_or_above(node: &SyntaxNode, other: &SyntaxNode) -> bool
    ensures { result ≡ is_at_or_above node.now other.now }
{
    let mut above = other.ancestors();
    while let Some(here) = above.next() {
        if here == *node {
            return true;
        }
    }
    false
}

fn is_child_of(parent: &SyntaxNode, node: &SyntaxNode) -> bool
    ensures { result ≡ is_child_of parent.now (parent_of node.now) }
{
    match node.parent() {
        Some(above) => above == *parent,
        None => false,
    }
}

/// The child of a node at which, or below which, another one is, or `None` if it is not below it.
pub fn child_toward(parent: &SyntaxNode, node: &SyntaxNode) -> Option<SyntaxNode>
    ensures { result ≡ child_toward parent.now node.now }
{
    let mut above = node.ancestors();
    while let Some(here) = above.next() {
        if is_child_of(parent, &here) {
            return Some(here);
        }
    }
    None
}
