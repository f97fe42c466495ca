//! Pointers to nodes that remember what the node is viewed as. They outlive their tree.
ghost use Rattle.std.specs.Prelude.{◌≡◌, IsTrue, IsFalse, Some, None, if◌then◌else◌, option_map};
ghost use Rattle.tree_model.specs.Pointer.{pointer_to, Finds};

use either::Either;
pub use lossless_tree::SyntaxNodePtr;
use lossless_tree::{SyntaxKind, SyntaxNode, TextRange};
use ras_node::AstNode;
use std::convert::Into;
use std::fmt;
use std::marker::{Model, PhantomData};

/// A node's kind and range, by which it is found again as an `N` in its tree or in another tree of
/// the same shape.
///
/// It holds no tree, so it can be copied, compared and kept.
#[derive_where(Clone, Copy, PartialEq, Eq, Hash)]
pub struct AstPtr<N: AstNode> {
    raw: SyntaxNodePtr,
    view: PhantomData<N>,
}

impl<N: AstNode> Model for AstPtr<N> {
    ghost use Rattle.tree_model.specs.Pointer.{Pointer};

    ghost Value = { Pointer };

    ghost view = { λ p. p.raw };

    ghost inverse = { λ p. record { raw = p; view = record {} } };
}

/// The pointer in it, as `AstPtr(SyntaxNodePtr { kind: FN, range: 0..9 })`.
impl<N: AstNode> fmt::Debug for AstPtr<N> {
    fn fmt<W: fmt::Write>(&self, f: &mut fmt::Formatter<W>) -> fmt::Result {
        f.debug_tuple("AstPtr").field(&self.raw).finish()
    }
}

impl<N: AstNode> AstPtr<N> {
    /// The pointer to the node of a view.
    pub fn new(node: &N) -> AstPtr<N>
        ensures { result ≡ pointer_to (N.node node.now) }
    {
        AstPtr::of(SyntaxNodePtr::new(node.syntax()))
    }

    /// The view of the node that `SyntaxNodePtr::to_node` returns, or `None` if that returns
    /// `None`, or if a node of this kind can't be cast to this view.
    pub fn to_node(&self, root: &SyntaxNode) -> Option<N>
        ensures found { IsTrue (N.casts self.now.kind)
            → Finds self.now root.now (option_map N.node result) }
        ensures other { IsFalse (N.casts self.now.kind) → result ≡ None }
    {
        N::cast(self.raw.to_node(root)?)
    }

    /// The pointer without the type of its view.
    pub fn syntax_node_ptr(&self) -> SyntaxNodePtr
        ensures { result ≡ self.now }
    {
        self.raw
    }

    /// The range of the node in the text of its tree, in bytes.
    pub fn text_range(self) -> TextRange
        ensures { result ≡ self.range }
    {
        self.raw.text_range()
    }

    /// The kind of the node.
    pub fn kind(&self) -> SyntaxKind
        ensures { result ≡ self.now.kind }
    {
        self.raw.kind()
    }

    /// The same node viewed as a `U`, or `None` if a node of this kind can't be cast to this view.
    pub fn cast<U: AstNode>(self) -> Option<AstPtr<U>>
        ensures { result ≡ (if U.casts self.kind then Some self else None) }
    {
        AstPtr::try_from_raw(self.raw)
    }

    /// The same node viewed as an `M`, into which each `N` can be converted.
    pub fn upcast<M: AstNode>(self) -> AstPtr<M>
    where
        N: Into<M>,
        ensures { result ≡ self }
    {
        AstPtr::of(self.raw)
    }

    /// The same node viewed as an `N`, or `None` if a node of this kind can't be cast to this view.
    pub fn try_from_raw(raw: SyntaxNodePtr) -> Option<AstPtr<N>>
        ensures { result ≡ (if N.casts raw.kind then Some raw else None) }
    {
        if N::can_cast(raw.kind()) {
            Some(AstPtr::of(raw))
        } else {
            None
        }
    }

    /// The same pointer, with the view as the left of two types.
    pub fn wrap_left<R>(self) -> AstPtr<Either<N, R>>
    where
        Either<N, R>: AstNode,
        ensures { result ≡ self }
    {
        AstPtr::of(self.raw)
    }

    /// The same node viewed as one of two types: as the left one, if that can view it.
    pub fn wrap_right<L>(self) -> AstPtr<Either<L, N>>
    where
        Either<L, N>: AstNode,
        ensures { result ≡ self }
    {
        AstPtr::of(self.raw)
    }

    fn of(raw: SyntaxNodePtr) -> AstPtr<N>
        ensures { result ≡ raw }
    {
        AstPtr {
            raw,
            view: PhantomData,
        }
    }
}

impl<N: AstNode> From<AstPtr<N>> for SyntaxNodePtr {
    ghost from_gives = { λ typed raw. raw ≡ typed };

    fn from(ptr: AstPtr<N>) -> SyntaxNodePtr {
        ptr.raw
    }
}
