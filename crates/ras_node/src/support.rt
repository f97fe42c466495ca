//! Lookups of the children and ancestors of a node.
ghost use Rattle.std.specs.Prelude.{◌≡◌, drop, option_map};
ghost use Rattle.std.specs.List.{find, slice_get};
ghost use Rattle.syntax_kind.specs.declared.syntax_kind.SyntaxKind.{SyntaxKind};
ghost use Rattle.ras_node.specs.Lookups.{second_typed_child, last_typed_child, view_in, grandparent_of};
ghost use Rattle.ras_node.specs.Searches.{first_node, before};
ghost use Rattle.tree_model.specs.Cursor.{ancestors_of, parent_of};
ghost use Rattle.ras_node.specs.Nodes.{has_kind_in, is_of_kind, typed_children, typed_child, token_child};

use crate::{AstChildren, AstNode, KindSet, search};
use lossless_tree::{SyntaxElementChildren, SyntaxKind, SyntaxNode, SyntaxToken};
use std::marker::PhantomData;

/// The first child that can be viewed as an `N`.
pub fn child<N: AstNode>(parent: &SyntaxNode) -> Option<N>
    ensures { option_map N.node result ≡ typed_child N.casts parent.now }
{
    N::cast(parent.child_among::<KindsOf<N>>()?)
}

/// The children that can be viewed as an `N`, in order.
pub fn children<N: AstNode>(parent: &SyntaxNode) -> AstChildren<N>
    ensures { result ≡ typed_children N.casts parent.now }
{
    AstChildren::new(parent)
}

/// The first child token of a kind.
pub fn token(parent: &SyntaxNode, kind: SyntaxKind) -> Option<SyntaxToken>
    ensures { result ≡ token_child kind parent.now }
{
    parent.token_of_kind(kind)
}

/// Whether a node is of a kind.
pub fn is_of_kind(node: &SyntaxNode, kind: SyntaxKind) -> bool
    ensures { result ≡ is_of_kind kind node.now }
{
    node.kind().to_raw() == kind.to_raw()
}

/// Whether a token is of a kind.
pub fn is_token_of_kind(token: &SyntaxToken, kind: SyntaxKind) -> bool
    ensures { result ≡ is_of_kind kind token.now }
{
    token.kind().to_raw() == kind.to_raw()
}

/// Another cursor at the same node. It takes no memory.
pub fn share(node: &SyntaxNode) -> SyntaxNode
    ensures { result ≡ node.now }
{
    match node.clone() {
        Ok(copy) => copy,
        Err(_) => unreachable!(),
    }
}

/// Another view of the same node. It takes no memory.
pub fn copy<N: AstNode>(it: &N) -> N
    ensures { N.node result ≡ N.node it.now }
{
    match N::cast(share(it.syntax())) {
        Some(copy) => copy,
        None => unreachable!(),
    }
}

/// The second child that can be viewed as an `N`.
pub fn second_child<N: AstNode + Drop>(parent: &SyntaxNode) -> Option<N>
    ensures { option_map N.node result ≡ second_typed_child N.casts parent.now }
{
    let mut all = children::<N>(parent);
    let _first = all.next()?;
    all.next()
}

/// The last child that can be viewed as an `N`. Takes time linear in the number of children.
pub fn last_child<N: AstNode + Drop>(parent: &SyntaxNode) -> Option<N>
    ensures { option_map N.node result ≡ last_typed_child N.casts parent.now }
{
    children::<N>(parent).last()
}

/// The kinds of the nodes that can be viewed as an `N`.
pub struct KindsOf<N: AstNode> {
    view: PhantomData<N>,
}

impl<N: AstNode> KindSet for KindsOf<N> {
    ghost kinds = { N.casts };

    fn has(kind: SyntaxKind) -> bool {
        N::can_cast(kind)
    }
}

/// The first of some children that can be viewed as an `N`.
pub fn first<N: AstNode>(left: SyntaxElementChildren) -> Option<N>
    ensures { option_map N.node result ≡ first_node N.casts left }
{
    N::cast(search::first_node::<KindsOf<N>>(left)?)
}

/// The first of some children that can be viewed as an `N`, if it is before the first token with a
/// kind of the set.
pub fn first_before<N: AstNode, T: KindSet>(left: SyntaxElementChildren) -> Option<N>
    ensures { option_map N.node result ≡ first_node N.casts (before T.kinds left) }
{
    N::cast(search::first_node_before::<KindsOf<N>, T>(left)?)
}

/// The third child that can be viewed as an `N`.
pub fn third_child<N: AstNode + Drop>(parent: &SyntaxNode) -> Option<N>
    ensures { option_map N.node result ≡ slice_get (typed_children N.casts parent.now) 2 }
{
    let mut all = children::<N>(parent);
    let _one = all.next()?;
    let _two = all.next()?;
    all.next()
}

/// The same node viewed as an `M`, or `None` if it can't be cast to this view.
pub fn recast<N: AstNode + Drop, M: AstNode>(it: Option<N>) -> Option<M>
    ensures { option_map M.node result ≡ view_in M.casts (option_map N.node it) }
{
    let it = it?;
    M::cast(share(it.syntax()))
}

/// The view of a node, or `None` if there is none or if it can't be cast to this view.
pub fn view<N: AstNode>(node: Option<SyntaxNode>) -> Option<N>
    ensures { option_map N.node result ≡ view_in N.casts node }
{
    N::cast(node?)
}

/// The parent of a node, viewed as an `N`, or `None` if there is none or if it can't be cast to
/// this view.
pub fn parent_as<N: AstNode>(node: &SyntaxNode) -> Option<N>
    ensures { option_map N.node result ≡ view_in N.casts (parent_of node.now) }
{
    view(node.parent())
}

/// The parent's parent, viewed as an `N`, or `None` if there is none or if it can't be cast to this
/// view.
pub fn grandparent_as<N: AstNode>(node: &SyntaxNode) -> Option<N>
    ensures { option_map N.node result ≡ view_in N.casts (grandparent_of node.now) }
{
    view(node.parent()?.parent())
}

/// The nearest node above a node that can be viewed as an `N`, or `None` if there is none.
pub fn ancestor_as<N: AstNode>(node: &SyntaxNode) -> Option<N>
    ensures { option_map N.node result
        ≡ find (has_kind_in N.casts) (drop 1 (ancestors_of node.now)) }
{
    let mut above = node.ancestors();
    let _itself = above.next();
    while let Some(ancestor) = above.next() {
        if N::can_cast(ancestor.kind()) {
            return N::cast(ancestor);
        }
    }
    None
}
