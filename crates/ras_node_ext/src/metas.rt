//! The metas of attributes, through `cfg_attr` and `unsafe`.
ghost use Rattle.std.specs.Prelude.{◌≡◌, ◌++◌, ◌∷◌, [], OnOk, map, option_map, is_some, string_bytes, IfOk};
ghost use Rattle.std.specs.Option.{option_and_then};
ghost use Rattle.std.specs.List.{find, filter};
ghost use Rattle.syntax_kind.specs.declared.syntax_kind.SyntaxKind.TheVariants.{Node};
ghost use Rattle.syntax_kind.specs.declared.syntax_kind.node_kind.NodeKind.TheVariants.{CFG_META};
ghost use Rattle.tree_model.specs.Cursor.{descendants_of, at_token};
ghost use Rattle.ras_node.specs.Nodes.{is_of_kind, has_kind_in, typed_child};
ghost use Rattle.ras_node_ext.specs.Metas.{is_cfg_attr, opened, is_unsafe, IsInnermost, own_path, IsMetaPath, path_word, IsMetaName};

use lossless_tree::{SyntaxKind, SyntaxNode, SyntaxToken, WalkEvent};
use ras_node::{AstNode, support};
use std::alloc::{AllocError, Global};

fn is_cfg_attr(node: &SyntaxNode) -> bool
    ensures { result ≡ is_cfg_attr node.now }
{
    node.kind() == SyntaxKind::CFG_ATTR_META
}

// Appends the view of a node, if it can be cast.
fn add_view<M: AstNode + Drop>(views: &mut Vec<M>, node: SyntaxNode) -> Result<(), AllocError>
    ensures { OnOk result (map M.node views.new.items
        ≡ map M.node views.old.items ++ filter (has_kind_in M.casts) (node ∷ [])) }
{
    if let Some(view) = M::cast(node) {
        views.push(view)?;
    }
    Ok(())
}

/// The meta itself, unless it is a `cfg_attr`: then the metas in it, in order, with every nested
/// `cfg_attr` replaced by the metas in it.
///
/// Takes memory for the result only, and time linear in the nodes and tokens of the meta.
pub fn skip_cfg_attrs<M: AstNode + Drop>(alloc: Global, meta: M) -> Result<Vec<M>, AllocError>
    ensures { IfOk result (λ metas. map M.node metas.items ≡ opened M.casts (M.node meta)) }
{
    // The walk visits a node only if all nodes above it, up to the meta, are `cfg_attr`s: the
    // subtrees of other nodes are skipped.
    let mut metas = Vec::new(alloc);
    let mut events = meta.syntax().preorder();
    let mut past: Option<SyntaxNode> = None;
    while let Some(event) = events.next() {
        match event {
            WalkEvent::Enter(node) => {
                if past.is_none() && !is_cfg_attr(&node) {
                    past = Some(support::share(&node));
                    add_view(&mut metas, node)?;
                }
            }
            WalkEvent::Leave(node) => {
                if let Some(over) = &past {
                    if node == *over {
                        past = None;
                    }
                }
            }
        }
    }
    Ok(metas)
}

fn is_unsafe(node: &SyntaxNode) -> bool
    ensures { result ≡ is_unsafe node.now }
{
    node.kind() == SyntaxKind::UNSAFE_META
}

/// The meta inside any number of `unsafe(..)`: the meta itself if it is not `unsafe(..)`, or `None`
/// if one of these has no meta in it. Takes time linear in their number.
pub fn innermost_meta<M: AstNode + Drop>(meta: M) -> Option<M>
    ensures { IsInnermost M.casts (M.node meta) (option_map M.node result) }
{
    let mut meta = meta;
    while is_unsafe(meta.syntax()) {
        meta = support::child::<M>(meta.syntax())?;
    }
    Some(meta)
}

fn is_cfg(node: &SyntaxNode) -> bool
    ensures { result ≡ is_of_kind (Node CFG_META) node.now }
{
    node.kind() == SyntaxKind::CFG_META
}

fn own_path<P: AstNode>(meta: &SyntaxNode) -> Option<P>
    ensures { option_map P.node result ≡ own_path P.casts meta.now }
{
    if is_cfg_attr(meta) {
        return None;
    }
    if is_cfg(meta) {
        return None;
    }
    support::child(meta)
}

/// The path of a meta, or of the meta inside an `unsafe(..)`; `None` for a `cfg` and a `cfg_attr`.
/// Takes time linear in the number of `unsafe`s.
pub fn meta_path<M: AstNode + Drop, P: AstNode>(meta: M) -> Option<P>
    ensures { IsMetaPath M.casts P.casts (M.node meta) (option_map P.node result) }
{
    match innermost_meta(meta) {
        Some(meta) => own_path(meta.syntax()),
        None => None,
    }
}

/// An owned copy of a text, if there is a text.
pub fn owned(alloc: Global, text: Option<&str>) -> Result<Option<String>, AllocError>
    ensures { IfOk result
        (λ copy. option_map (λ t. string_bytes t) copy ≡ option_map (λ s. s.now) text.entry) }
{
    match text {
        Some(text) => Ok(Some(String::from_str(alloc, text)?)),
        None => Ok(None),
    }
}

// The first word of a path, if that has only one segment.
fn path_word<P: AstNode + Drop, S: AstNode + Drop>(
    alloc: Global,
    path: &P,
) -> Result<Option<String>, AllocError>
    ensures { IfOk result (λ word. option_map (λ t. string_bytes t) word
        ≡ path_word P.casts S.casts (P.node path.now)) }
{
    if has_child::<P>(path.syntax()) {
        return Ok(None);
    }
    match first_token_in::<S>(path.syntax()) {
        Some(token) => owned(alloc, Some(token.text())),
        None => Ok(None),
    }
}

fn has_child<N: AstNode + Drop>(parent: &SyntaxNode) -> bool
    ensures { result ≡ is_some (typed_child N.casts parent.now) }
{
    match support::child::<N>(parent) {
        Some(_child) => true,
        None => false,
    }
}

fn first_token_in<N: AstNode + Drop>(parent: &SyntaxNode) -> Option<SyntaxToken>
    ensures { result
        ≡ option_and_then (λ s. find at_token (descendants_of s)) (typed_child N.casts parent.now) }
{
    support::child::<N>(parent)?.syntax().first_token()
}

/// The name of an attribute: `cfg`, `cfg_attr`, or for others the first word of their path, if that
/// has only one segment.
///
/// Takes memory for the name.
pub fn meta_name<M: AstNode + Drop, P: AstNode + Drop, S: AstNode + Drop>(
    alloc: Global,
    meta: &M,
) -> Result<Option<String>, AllocError>
    ensures { IfOk result (λ name.
        IsMetaName M.casts P.casts S.casts (M.node meta.now)
        (option_map (λ t. string_bytes t) name)) }
{
    if is_cfg_attr(meta.syntax()) {
        return owned(alloc, Some("cfg_attr"));
    }
    if is_cfg(meta.syntax()) {
        return owned(alloc, Some("cfg"));
    }
    match meta_path::<M, P>(support::copy(meta)) {
        Some(path) => path_word::<P, S>(alloc, &path),
        None => Ok(None),
    }
}
