//! The nodes that hold the inner attributes of other nodes.
ghost use Rattle.std.specs.Prelude.{◌≡◌};
ghost use Rattle.ras_node_ext.specs.Attrs.{may_carry_attributes, inner_holder};

use lossless_tree::{SyntaxKind, SyntaxNode};
use ras_node::support;

/// Whether a block's parent is a block expression or an expression statement, so that attributes
/// may be in it.
pub fn may_carry_attributes(block: &SyntaxNode) -> bool
    ensures { result ≡ may_carry_attributes block.now }
{
    match block.parent() {
        Some(parent) => matches!(
            parent.kind(),
            SyntaxKind::BLOCK_EXPR | SyntaxKind::EXPR_STMT
        ),
        None => false,
    }
}

/// The node that holds the inner attributes of `owner`. A file holds its own, and so does a block
/// that can have some. For a function it is the statement list of its body; for an extern block, a
/// `match`, an implementation, a trait and a module it is the list in it. `None` for other nodes,
/// and if that part is missing.
pub fn inner_attributes_node(owner: &SyntaxNode) -> Option<SyntaxNode>
    ensures { result ≡ inner_holder owner.now }
{
    match owner.kind() {
        SyntaxKind::SOURCE_FILE => Some(support::share(owner)),
        SyntaxKind::EXTERN_BLOCK => owner.child_of_kind(SyntaxKind::EXTERN_ITEM_LIST),
        SyntaxKind::FN => owner
            .child_of_kind(SyntaxKind::BLOCK_EXPR)?
            .child_of_kind(SyntaxKind::STMT_LIST),
        SyntaxKind::MATCH_EXPR => owner.child_of_kind(SyntaxKind::MATCH_ARM_LIST),
        SyntaxKind::IMPL => owner.child_of_kind(SyntaxKind::ASSOC_ITEM_LIST),
        SyntaxKind::TRAIT => owner.child_of_kind(SyntaxKind::ASSOC_ITEM_LIST),
        SyntaxKind::MODULE => owner.child_of_kind(SyntaxKind::ITEM_LIST),
        SyntaxKind::BLOCK_EXPR => {
            if may_carry_attributes(owner) {
                Some(support::share(owner))
            } else {
                None
            }
        }
        _ => None,
    }
}
