//! The trait of views of nodes.
ghost use Rattle.std.specs.Prelude.{◌≡◌, ◌↔◌, Bool, true, IsTrue, IfSome, IfOk, is_some};
ghost use Rattle.syntax_kind.specs.declared.syntax_kind.SyntaxKind.{SyntaxKind};
ghost use Rattle.tree_model.specs.Cursor.{Cursor, focus};
ghost use Rattle.tree_model.specs.Edit.{root_of};
ghost use Rattle.ras_node.specs.Nodes.{kind_at};

use crate::support;
use lossless_tree::{SyntaxKind, SyntaxNode};
use std::alloc::{AllocError, Global};

/// A view of a node as one kind of syntax, or as one of several.
///
/// A view holds the node and nothing else, so a cast takes neither time nor memory.
pub trait AstNode: Sized {
    /// The kinds of the nodes that can be cast to this view.
    ghost casts: { SyntaxKind → Bool };

    /// The node of the view.
    ghost node: { Self → Cursor };

    /// The one kind that the view is of, or `None` if it is of several.
    fn kind() -> Option<SyntaxKind>
        ensures { IfSome result (λ only. (k : SyntaxKind) → IsTrue (casts k) ↔ (k ≡ only)) }
    {
        None
    }

    /// Whether a node of this kind can be cast to this view.
    fn can_cast(kind: SyntaxKind) -> bool
        ensures { result ≡ casts kind };

    /// The view of a node, or `None` if it is of another kind.
    fn cast(syntax: SyntaxNode) -> Option<Self>
        ensures exact { is_some result ≡ casts (kind_at syntax) }
        ensures same { IfSome result (λ it. node it ≡ syntax) };

    /// The node of the view.
    fn syntax(&self) -> &SyntaxNode
        ensures { result.now ≡ node self.now };

    /// The view, as `cast` gives it, of the root of a new tree that equals this node's subtree,
    /// with a text of its own.
    ///
    /// It takes time and memory linear in the subtree.
    final fn clone_subtree(&self, alloc: Global) -> Result<Self, AllocError>
        ensures { IfOk result (λ copy. node copy ≡ root_of (focus (node self.now))) }
    {
        let root = self.syntax().clone_subtree(alloc)?;
        match Self::cast(root) {
            Some(copy) => Ok(copy),
            None => unreachable!(),
        }
    }

    ghost castable: { (it : Self) → casts (kind_at (node it)) ≡ true };
}

/// Like [`AstNode::cast`], but borrows the node: its view, or `None` if it is of another kind. It
/// takes no memory.
pub fn cast_ref<N: AstNode>(syntax: &SyntaxNode) -> Option<N>
    ensures exact { is_some result ≡ N.casts (kind_at syntax.now) }
    ensures same { IfSome result (λ it. N.node it ≡ syntax.now) }
{
    if N::can_cast(syntax.kind()) {
        N::cast(support::share(syntax))
    } else {
        None
    }
}
