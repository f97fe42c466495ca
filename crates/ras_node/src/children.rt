//! The children of a node that can be viewed as one type.
ghost use Rattle.std.specs.Prelude.{◌≡◌};
ghost use Rattle.std.specs.Iterator.{YieldsFirstBy, item_count};
ghost use Rattle.ras_node.specs.Nodes.{typed_children};

use crate::AstNode;
use lossless_tree::{SyntaxNode, SyntaxNodeChildren};
use std::alloc::AllocError;
use std::marker::{Model, PhantomData};

/// The child nodes of a node that can be viewed as an `N`, in order. A clause sees the nodes that
/// are left.
#[derive(Drop)]
pub struct AstChildren<N: AstNode> {
    inner: SyntaxNodeChildren,
    view: PhantomData<N>,
}

impl<N: AstNode> Model for AstChildren<N> {
    ghost use Rattle.std.specs.Prelude.{List};
    ghost use Rattle.std.specs.List.{filter};
    ghost use Rattle.std.specs.Coded.{coded_list};
    ghost use Rattle.tree_model.specs.Cursor.{Cursor, cursor_code};
    ghost use Rattle.ras_node.specs.Nodes.{has_kind_in};

    ghost Value = { List Cursor };

    ghost coded = { coded_list cursor_code };

    ghost view = { λ a. filter (has_kind_in N.casts) a.inner };
}

impl<N: AstNode> AstChildren<N> {
    pub(crate) fn new(parent: &SyntaxNode) -> AstChildren<N>
        ensures { result ≡ typed_children N.casts parent.now }
    {
        AstChildren {
            inner: parent.children(),
            view: PhantomData,
        }
    }
}

impl<N: AstNode> Clone for AstChildren<N> {
    ghost use Rattle.std.specs.Prelude.{◌≡◌, ⊤};

    ghost is_clone = { λ s copy. copy ≡ s };

    ghost is_infallible = { λ _. ⊤ };

    fn clone(&self) -> Result<AstChildren<N>, AllocError> {
        Ok(AstChildren {
            inner: self.inner.clone()?,
            view: PhantomData,
        })
    }
}

impl<N: AstNode> Iterator for AstChildren<N> {
    type Item = N;

    ghost next_gives = { YieldsFirstBy N.node (λ left. left) };

    ghost remaining = { item_count (λ left. left) };

    fn next(&mut self) -> Option<N> {
        while let Some(node) = self.inner.next() {
            if let Some(it) = N::cast(node) {
                return Some(it);
            }
        }
        None
    }
}
