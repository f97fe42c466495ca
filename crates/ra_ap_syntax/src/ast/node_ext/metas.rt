//! Attributes and their metas.
ghost use Rattle.std.specs.Prelude.{◌≡◌, ℕ, List, Option, Some, None, [], map, option_map, string_bytes, IfOk, drop};
ghost use Rattle.std.specs.Option.{option_and_then, option_map_or};
ghost use Rattle.tree_model.specs.Cursor.{Cursor, ancestors_of};
ghost use Rattle.ras_node_ext.specs.Metas.{opened, IsMetaPath, IsMetaName};
ghost use Rattle.ra_ap_syntax.specs.MetaCases.{meta_node, meta_kinds};
ghost use Rattle.ra_ap_syntax.specs.AttrParts.{simple_path, atom_of, call_in, simple_atom, simple_call};
ghost use Rattle.ra_ap_syntax.specs.Accessors.{IsNameOfMeta, IsPathOfMeta, call_with, meta_atom, meta_call, meta_in, nearest_above, path_atom};
ghost use Rattle.ra_ap_syntax.specs.AttrViews.{IsAttr, IsFirstTokenTree, attr_kinds};
ghost use Rattle.ra_ap_syntax.specs.PathViews.{IsPath, path_kinds};
ghost use Rattle.std.specs.List.{find};
ghost use Rattle.ras_node.specs.Nodes.{has_kind_in, typed_child};

use crate::ast::{self, AstNode, Meta, support};
use lossless_tree::{SyntaxKind, SyntaxNode};
use std::alloc::{AllocError, Global};

// The text of a path that is only one name.
fn atom_of(alloc: Global, path: Option<ast::Path>) -> Result<Option<String>, AllocError>
    ensures { IfOk result (λ atom. option_map (λ t. string_bytes t) atom
        ≡ option_and_then path_atom (option_map (λ it. it.syntax) path)) }
{
    let Some(path) = path else {
        return Ok(None);
    };
    match path.as_single_name_ref() {
        Some(name) => ras_node_ext::owned(alloc, name.text()),
        None => Ok(None),
    }
}

fn with_tree(name: Option<String>, tree: ast::TokenTree) -> Option<(String, ast::TokenTree)>
    ensures { option_map {U = List ℕ × Cursor} (λ p. (string_bytes p.0, p.1.syntax)) result
        ≡ option_map {U = List ℕ × Cursor} (λ word. (word, tree.syntax))
        (option_map (λ t. string_bytes t) name) }
{
    match name {
        Some(name) => Some((name, tree)),
        None => None,
    }
}

// The first child that is a token tree: by the word of clauses, in which the prover finds it again.
fn first_tree(parent: &SyntaxNode) -> Option<ast::TokenTree>
    ensures { IsFirstTokenTree parent.now result }
{
    support::child(parent)
}

// The name of a meta that is one name with arguments, and the arguments.
fn call_in(
    alloc: Global,
    meta: &SyntaxNode,
    tree: ast::TokenTree,
) -> Result<Option<(String, ast::TokenTree)>, AllocError>
    ensures { IfOk result (λ call. option_map (λ p. (string_bytes p.0, p.1.syntax)) call
        ≡ call_with meta.now tree.syntax) }
{
    let name = atom_of(alloc, support::child(meta))?;
    Ok(with_tree(name, tree))
}

impl Meta {
    /// Its path, or the path of the meta inside an `unsafe(..)`; `None` for a `cfg` and a
    /// `cfg_attr`.
    pub fn path(&self) -> Option<ast::Path>
        ensures { IsPathOfMeta (meta_node self.now) result }
    {
        ras_node_ext::meta_path::<Meta, ast::Path>(support::copy(self))
    }

    /// The path of a meta that is only a path, as `a::b`; `None` for others.
    pub fn as_simple_path(&self) -> Option<ast::Path>
        ensures { IsPath (simple_path path_kinds (meta_node self.now)) result }
    {
        if !support::is_of_kind(self.syntax(), SyntaxKind::PATH_META) {
            return None;
        }
        support::child(self.syntax())
    }

    /// The text of a meta that is one name, as `a`; `None` for others. Takes memory for the text.
    pub fn as_simple_atom(&self, alloc: Global) -> Result<Option<String>, AllocError>
        ensures { IfOk result (λ atom. option_map (λ t. string_bytes t) atom
            ≡ meta_atom (meta_node self.now)) }
    {
        atom_of(alloc, self.as_simple_path())
    }

    /// The name and the arguments of a meta that is one name with arguments, as `a(..)`; `None` for
    /// others. Takes memory for the name.
    pub fn as_simple_call(
        &self,
        alloc: Global,
    ) -> Result<Option<(String, ast::TokenTree)>, AllocError>
        ensures { IfOk result (λ call. option_map (λ p. (string_bytes p.0, p.1.syntax)) call
            ≡ meta_call (meta_node self.now)) }
    {
        if !support::is_of_kind(self.syntax(), SyntaxKind::TOKEN_TREE_META) {
            return Ok(None);
        }
        let Some(tree) = first_tree(self.syntax()) else {
            return Ok(None);
        };
        call_in(alloc, self.syntax(), tree)
    }

    /// The name of the attribute: `cfg`, `cfg_attr`, or for others the first token of their path,
    /// if that has only one segment. Takes memory for the name.
    pub fn simple_name(&self, alloc: Global) -> Result<Option<String>, AllocError>
        ensures { IfOk result (λ name.
            IsNameOfMeta (meta_node self.now) (option_map (λ t. string_bytes t) name)) }
    {
        ras_node_ext::meta_name::<Meta, ast::Path, ast::PathSegment>(alloc, self)
    }

    /// Replaces a `cfg_attr` by the metas in it, in order and at any depth of nested `cfg_attr`s,
    /// whatever the predicates are. Any other meta is returned unchanged.
    ///
    /// Takes memory for the result, and time linear in the nodes and tokens below it.
    pub fn skip_cfg_attrs(self, alloc: Global) -> Result<Vec<Meta>, AllocError>
        ensures { IfOk result (λ metas. map meta_node metas.items
            ≡ opened meta_kinds (meta_node self)) }
    {
        ras_node_ext::skip_cfg_attrs(alloc, self)
    }

    /// The nearest attribute above it.
    pub fn parent_attr(&self) -> Option<ast::Attr>
        ensures { IsAttr (nearest_above attr_kinds (meta_node self.now)) result }
    {
        support::ancestor_as(self.syntax())
    }
}

impl ast::Attr {
    /// The path of its meta.
    pub fn path(&self) -> Option<ast::Path>
        ensures meta { (meta : Cursor) → meta_in self.now.syntax ≡ Some meta
            → IsPathOfMeta meta result }
        ensures none { meta_in self.now.syntax ≡ None → result ≡ None }
    {
        self.meta()?.path()
    }

    /// The path of its meta, if that is only a path.
    pub fn as_simple_path(&self) -> Option<ast::Path>
        ensures { IsPath
            (option_and_then (simple_path path_kinds) (meta_in self.now.syntax)) result }
    {
        self.meta()?.as_simple_path()
    }

    /// The text of its meta, if that is one name. Takes memory for the text.
    pub fn as_simple_atom(&self, alloc: Global) -> Result<Option<String>, AllocError>
        ensures { IfOk result (λ atom. option_map (λ t. string_bytes t) atom
            ≡ option_and_then meta_atom (meta_in self.now.syntax)) }
    {
        match self.meta() {
            Some(meta) => meta.as_simple_atom(alloc),
            None => Ok(None),
        }
    }

    /// The name and the arguments of its meta, if that is one name with arguments. Takes memory for
    /// the name.
    pub fn as_simple_call(
        &self,
        alloc: Global,
    ) -> Result<Option<(String, ast::TokenTree)>, AllocError>
        ensures { IfOk result (λ call. option_map (λ p. (string_bytes p.0, p.1.syntax)) call
            ≡ option_and_then meta_call (meta_in self.now.syntax)) }
    {
        match self.meta() {
            Some(meta) => meta.as_simple_call(alloc),
            None => Ok(None),
        }
    }

    /// The name of its meta, as returned by `Meta`. Takes memory for the name.
    pub fn simple_name(&self, alloc: Global) -> Result<Option<String>, AllocError>
        ensures meta { (meta : Cursor) → meta_in self.now.syntax ≡ Some meta
            → IfOk result (λ name. IsNameOfMeta meta (option_map (λ t. string_bytes t) name)) }
        ensures none { meta_in self.now.syntax ≡ None → IfOk result (λ name. name ≡ None) }
    {
        match self.meta() {
            Some(meta) => meta.simple_name(alloc),
            None => Ok(None),
        }
    }

    /// Its meta, as a list; for a `cfg_attr` the metas in it, as in `Meta::skip_cfg_attrs`. The
    /// list is empty without a meta.
    ///
    /// Takes memory for the result, and time linear in the nodes and tokens of the meta.
    pub fn skip_cfg_attrs(&self, alloc: Global) -> Result<Vec<Meta>, AllocError>
        ensures { IfOk result (λ metas. map meta_node metas.items
            ≡ option_map_or (opened meta_kinds) (meta_in self.now.syntax) []) }
    {
        match self.meta() {
            Some(meta) => meta.skip_cfg_attrs(alloc),
            None => Ok(Vec::new(alloc)),
        }
    }
}
