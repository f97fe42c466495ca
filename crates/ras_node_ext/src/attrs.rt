//! The attributes and documentation comments of a node.
ghost use Rattle.std.specs.Prelude.{◌≡◌};
ghost use Rattle.std.specs.Iterator.{YieldsFirstBy, item_count, IsFinite};
ghost use Rattle.std.specs.List.{filter};
ghost use Rattle.ras_node_ext.specs.Attrs.{is_inner, stands, attrs_of, attrs_with_inner, attrs_source, GivesAttr};
ghost use Rattle.ras_node.specs.Nodes.{has_kind_in};

use lossless_tree::{SyntaxKind, SyntaxNode};
use ras_node::{AstChildren, AstNode, support};
use std::alloc::AllocError;
use std::marker::{Model, PhantomData};

/// Whether an attribute has a `!`, or a documentation comment an inner comment token; `false` for
/// other nodes.
pub fn is_inner(node: &SyntaxNode) -> bool
    ensures { result ≡ is_inner node.now }
{
    match node.kind() {
        SyntaxKind::ATTR => support::token(node, SyntaxKind::BANG).is_some(),
        SyntaxKind::DOC_COMMENT => support::token(node, SyntaxKind::INNER_DOC_COMMENT).is_some(),
        _ => false,
    }
}

// Whether the node is of the wanted style: inner or outer.
fn stands(inner: bool, node: &SyntaxNode) -> bool
    ensures { result ≡ stands inner node.now }
{
    if inner {
        is_inner(node)
    } else {
        !is_inner(node)
    }
}

/// The inner attributes and documentation comments among the children of a node, or the outer ones,
/// in order. A clause sees the nodes that are left.
#[derive(Drop)]
pub struct AttrNodes<A: AstNode> {
    left: AstChildren<A>,
    inner: bool,
}

impl<A: AstNode> Model for AttrNodes<A> {
    ghost use Rattle.std.specs.Prelude.{List};
    ghost use Rattle.std.specs.List.{filter};
    ghost use Rattle.std.specs.Coded.{coded_list};
    ghost use Rattle.tree_model.specs.Cursor.{Cursor, cursor_code};
    ghost use Rattle.ras_node_ext.specs.Attrs.{stands};

    ghost Value = { List Cursor };

    ghost coded = { coded_list cursor_code };

    ghost view = { λ a. filter (stands a.inner) a.left };
}

impl<A: AstNode> AttrNodes<A> {
    /// The inner or outer attributes and documentation comments of a node.
    pub fn new(node: &SyntaxNode, inner: bool) -> AttrNodes<A>
        ensures { result ≡ attrs_of A.casts inner node.now }
    {
        AttrNodes {
            left: support::children(node),
            inner,
        }
    }
}

impl<A: AstNode> Clone for AttrNodes<A> {
    ghost use Rattle.std.specs.Prelude.{◌≡◌, ⊤};

    ghost is_clone = { λ s copy. copy ≡ s };

    ghost is_infallible = { λ _. ⊤ };

    fn clone(&self) -> Result<AttrNodes<A>, AllocError> {
        Ok(AttrNodes {
            left: self.left.clone()?,
            inner: self.inner,
        })
    }
}

impl<A: AstNode + Drop> Iterator for AttrNodes<A> {
    type Item = A;

    ghost next_gives = { YieldsFirstBy A.node (λ left. left) };

    ghost remaining = { item_count (λ left. left) };

    fn next(&mut self) -> Option<A> {
        while let Some(attr) = self.left.next() {
            if stands(self.inner, attr.syntax()) {
                return Some(attr);
            }
        }
        None
    }
}

/// The outer attributes and documentation comments of an owner, and then the inner ones, in order.
/// A clause sees the nodes that are left.
#[derive(Drop)]
pub struct AttrsWithDoc<A: AstNode> {
    outer: AttrNodes<A>,
    inner: Option<AttrNodes<A>>,
}

impl<A: AstNode> Model for AttrsWithDoc<A> {
    ghost use Rattle.std.specs.Prelude.{List, [], ◌++◌, unwrap_or};
    ghost use Rattle.std.specs.Coded.{coded_list};
    ghost use Rattle.tree_model.specs.Cursor.{Cursor, cursor_code};

    ghost Value = { List Cursor };

    ghost coded = { coded_list cursor_code };

    ghost view = { λ a. a.outer ++ unwrap_or a.inner [] };
}

impl<A: AstNode> AttrsWithDoc<A> {
    /// The attributes and documentation comments of an owner, and of the node that holds its inner
    /// ones.
    pub fn new(owner: &SyntaxNode, holder: Option<SyntaxNode>) -> AttrsWithDoc<A>
        ensures { result ≡ attrs_with_inner A.casts owner.now holder }
    {
        let inner = match holder {
            Some(holder) => Some(AttrNodes::new(&holder, true)),
            None => None,
        };
        AttrsWithDoc {
            outer: AttrNodes::new(owner, false),
            inner,
        }
    }
}

impl<A: AstNode> Clone for AttrsWithDoc<A> {
    ghost use Rattle.std.specs.Prelude.{◌≡◌, ⊤};

    ghost is_clone = { λ s copy. copy ≡ s };

    ghost is_infallible = { λ _. ⊤ };

    fn clone(&self) -> Result<AttrsWithDoc<A>, AllocError> {
        Ok(AttrsWithDoc {
            outer: self.outer.clone()?,
            inner: self.inner.clone()?,
        })
    }
}

impl<A: AstNode + Drop> Iterator for AttrsWithDoc<A> {
    type Item = A;

    ghost next_gives = { YieldsFirstBy A.node (λ left. left) };

    ghost remaining = { item_count (λ left. left) };

    fn next(&mut self) -> Option<A> {
        match self.outer.next() {
            Some(attr) => Some(attr),
            None => match &mut self.inner {
                Some(inner) => inner.next(),
                None => None,
            },
        }
    }
}

/// The nodes that an iterator of attributes and documentation comments gives, those that can be
/// viewed as a `T`, in order. It ends where that iterator ends.
#[derive(Drop)]
pub struct AttrsIter<I, T> {
    iter: I,
    view: PhantomData<T>,
}

impl<I, T> AttrsIter<I, T> {
    /// Those among what is left in `iter`.
    pub fn new(iter: I) -> AttrsIter<I, T>
        ensures { attrs_source result ≡ iter }
    {
        AttrsIter {
            iter,
            view: PhantomData,
        }
    }
}

impl<I: Clone, T> Clone for AttrsIter<I, T> {
    ghost is_clone = { λ s copy. I.is_clone (attrs_source s) (attrs_source copy) };

    ghost is_infallible = { λ s. I.is_infallible (attrs_source s) };

    fn clone(&self) -> Result<AttrsIter<I, T>, AllocError> {
        Ok(AttrsIter {
            iter: self.iter.clone()?,
            view: PhantomData,
        })
    }
}

impl<A: AstNode + Drop, I: Iterator<Item = A>, T: AstNode> Iterator for AttrsIter<I, T> {
    type Item = T;

    ghost can_next = { λ s. I.can_next (attrs_source s) × IsFinite (I.remaining (attrs_source s)) };

    ghost next_gives = { GivesAttr A.node T.casts T.node I.next_gives };

    ghost remaining = { λ s. I.remaining (attrs_source s) };

    fn next(&mut self) -> Option<T> {
        while let Some(attr) = self.iter.next() {
            if let Some(it) = support::recast::<A, T>(Some(attr)) {
                return Some(it);
            }
        }
        None
    }
}
