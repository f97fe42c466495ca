//! Searches down the qualifiers of a path, and up the paths around it.
ghost use Rattle.std.specs.Prelude.{◌≡◌, drop, option_map, Some, None, ◌&&◌, if◌then◌else◌};
ghost use Rattle.std.specs.Option.{option_and_then};
ghost use Rattle.ras_node.specs.Nodes.{kind_at};
ghost use Rattle.tree_model.specs.Cursor.{ancestors_of};
ghost use Rattle.ras_node_ext.specs.Path.{IsFirstQualifier, IsQualifierEnd, top_from, top_tree_from};

use lossless_tree::SyntaxNode;
use ras_node::{AstNode, support};

/// The end of the chain of qualifiers, first children that are paths; the path itself if it has
/// none.
pub fn first_qualifier_or_self<P: AstNode + Drop>(path: P) -> P
    ensures { IsFirstQualifier P.casts (P.node path) (P.node result) }
{
    let mut path = path;
    while let Some(inner) = support::child::<P>(path.syntax()) {
        path = inner;
    }
    path
}

/// The end of the chain of qualifiers, or `None` if the path has none.
pub fn first_qualifier<P: AstNode + Drop>(path: &P) -> Option<P>
    ensures { IsQualifierEnd P.casts (P.node path.now) (option_map P.node result) }
{
    match support::child::<P>(path.syntax()) {
        Some(qualifier) => Some(first_qualifier_or_self(qualifier)),
        None => None,
    }
}

/// The outermost path that a path is a qualifier of, directly or not; the path itself if it is not
/// a qualifier.
pub fn top_path<P: AstNode + Drop>(path: P) -> P
    ensures { P.node result ≡ top_from P.casts (P.node path) (drop 1 (ancestors_of (P.node path))) }
{
    let mut above = path.syntax().ancestors();
    let _itself = above.next();
    let mut top = path;
    while let Some(node) = above.next() {
        match P::cast(node) {
            Some(outer) => top = outer,
            None => return top,
        }
    }
    top
}

// The use tree that a list belongs to, if its parent is one.
fn tree_of<L: AstNode, T: AstNode>(list: &SyntaxNode, tree: Option<SyntaxNode>) -> Option<T>
    ensures { option_map T.node result
        ≡ option_and_then
        (λ t. if L.casts (kind_at list.now) && T.casts (kind_at t) then Some t else None) tree }
{
    if !L::can_cast(list.kind()) {
        return None;
    }
    support::view(tree)
}

/// The outermost use tree around a use tree, through lists of use trees; the tree itself if it is
/// not in such a list.
pub fn top_use_tree<L: AstNode, T: AstNode + Drop>(tree: T) -> T
    ensures { T.node result
        ≡ top_tree_from L.casts T.casts (T.node tree) (drop 1 (ancestors_of (T.node tree))) }
{
    let mut above = tree.syntax().ancestors();
    let _itself = above.next();
    let mut top = tree;
    while let Some(list) = above.next() {
        match tree_of::<L, T>(&list, above.next()) {
            Some(outer) => top = outer,
            None => return top,
        }
    }
    top
}
