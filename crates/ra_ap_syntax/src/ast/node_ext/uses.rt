//! Imports.
ghost use Rattle.std.specs.Prelude.{◌≡◌, option_map};
ghost use Rattle.std.specs.Option.{option_map_or};
ghost use Rattle.std.specs.Prelude.{false};
ghost use Rattle.tree_model.specs.Cursor.{parent_of, ancestors_of, children_of};
ghost use Rattle.std.specs.Prelude.{drop, map};
ghost use Rattle.lossless_tree.specs.Element.{element_of};
ghost use Rattle.ras_node.specs.PartSets.{is_comma};
ghost use Rattle.ras_node.specs.Searches.{tokens_among};
ghost use Rattle.ras_node_ext.specs.Path.{top_tree_from};
ghost use Rattle.ras_node.specs.Lookups.{view_in};
ghost use Rattle.ras_node.specs.Nodes.{typed_child};
ghost use Rattle.ras_node_ext.specs.NodeParts.{is_glob, is_simple_path, has_token};
ghost use Rattle.ra_ap_syntax.specs.PartViews.{IsUseTree, IsUseTreeList, use_tree_kinds, use_tree_list_kinds};

use crate::ast::{self, AstNode, support};
use lossless_tree::SyntaxKind;
use ras_node::TokenChildren;
use ras_node::sets::CommaTokens;

/// The commas in a list, in order.
pub type Commas = TokenChildren<CommaTokens>;

// Whether a use tree has a `*`, and no list.
fn is_glob(tree: &ast::UseTree) -> bool
    ensures { result ≡ is_glob use_tree_list_kinds tree.now.syntax }
{
    if tree.use_tree_list().is_some() {
        return false;
    }
    tree.star_token().is_some()
}

impl ast::Use {
    /// Whether it imports all of one module: its tree has a `*`, and no list.
    pub fn is_simple_glob(&self) -> bool
        ensures { result
            ≡ option_map_or (is_glob use_tree_list_kinds)
            (typed_child use_tree_kinds self.now.syntax) false }
    {
        match self.use_tree() {
            Some(tree) => is_glob(&tree),
            None => false,
        }
    }
}

// The outermost use tree around a tree.
fn top_of(tree: ast::UseTree) -> ast::UseTree
    ensures { result.syntax
        ≡ top_tree_from use_tree_list_kinds use_tree_kinds tree.syntax
        (drop 1 (ancestors_of tree.syntax)) }
{
    ras_node_ext::top_use_tree::<ast::UseTreeList, ast::UseTree>(tree)
}

impl ast::UseTree {
    /// Whether it has neither a `*` nor a list.
    pub fn is_simple_path(&self) -> bool
        ensures { result ≡ is_simple_path use_tree_list_kinds self.now.syntax }
    {
        if self.use_tree_list().is_some() {
            return false;
        }
        self.star_token().is_none()
    }

    /// The outermost use tree around it, through lists of use trees; this tree if it is not in such
    /// a list. Takes time linear in the number of trees between.
    pub fn top_use_tree(&self) -> ast::UseTree
        ensures { result.syntax
            ≡ top_tree_from use_tree_list_kinds use_tree_kinds self.now.syntax
            (drop 1 (ancestors_of self.now.syntax)) }
    {
        top_of(support::copy(self))
    }

    /// The list that it is in: the parent, if that is a list.
    pub fn parent_use_tree_list(&self) -> Option<ast::UseTreeList>
        ensures { IsUseTreeList (view_in use_tree_list_kinds (parent_of self.now.syntax)) result }
    {
        support::parent_as(&self.syntax)
    }
}

impl ast::UseTreeList {
    /// The use tree of the list: the parent, if that is a use tree.
    pub fn parent_use_tree(&self) -> Option<ast::UseTree>
        ensures { IsUseTree (view_in use_tree_kinds (parent_of self.now.syntax)) result }
    {
        support::parent_as(&self.syntax)
    }

    /// The commas among the children, in order.
    pub fn comma(&self) -> Commas
        ensures { result ≡ tokens_among is_comma (map element_of (children_of self.now.syntax)) }
    {
        Commas::new(&self.syntax)
    }

    /// Whether a comment is a child.
    pub fn has_inner_comment(&self) -> bool
        ensures { result ≡ has_token SyntaxKind.COMMENT self.now.syntax }
    {
        support::token(&self.syntax, SyntaxKind::COMMENT).is_some()
    }
}
