//! The items of a tree.
ghost use Rattle.std.specs.Prelude.{◌≡◌, ◌++◌, IfOk, OnOk, map, length, drop, option_map};
ghost use Rattle.std.specs.List.{filter};
ghost use Rattle.tree_model.specs.Cursor.{at_node, descendants_of, ancestors_of};
ghost use Rattle.lossless_tree.specs.declared.cursor.element.NodeOrToken.TheVariants.{Node, Token};
ghost use Rattle.ras_node.specs.Nodes.{typed_child, token_child, has_kind_in};
ghost use Rattle.tree_model.specs.Tree.{size};
ghost use Rattle.rust_report.specs.Depths.{depths_of};
ghost use Rattle.rust_report.specs.Outlines.{is_listed, is_name, is_path, is_abi, is_unheaded, word_of, label_of, depth_of, row_of};

use crate::depths::{depths, number_at};
use lossless_tree::{NodeOrToken, SyntaxElement, SyntaxKind, SyntaxNode};
use ras_node::KindSet;
use ras_node::support::{share, token};
use shared_pointer::Shared;
use std::alloc::{AllocError, Global};

/// An item, its name, and how deep it is.
#[derive(Drop)]
pub struct Row {
    /// The item.
    pub item: SyntaxNode,
    /// The node `NAME` of the item; `None` for an `impl`, a `use` and every other item without a
    /// name of its own.
    pub name: Option<SyntaxNode>,
    /// How many items are around it, at most `usize::MAX`.
    pub depth: usize,
}

/// The kinds of names.
enum Names {}

impl KindSet for Names {
    ghost kinds = { is_name };

    fn has(kind: SyntaxKind) -> bool {
        matches!(kind, SyntaxKind::NAME)
    }
}

/// Whether nodes of this kind are listed: items, other than calls of macros.
pub fn is_listed(kind: SyntaxKind) -> bool
    ensures { result ≡ is_listed kind }
{
    matches!(
        kind,
        SyntaxKind::CONST
            | SyntaxKind::ENUM
            | SyntaxKind::EXTERN_BLOCK
            | SyntaxKind::EXTERN_CRATE
            | SyntaxKind::FN
            | SyntaxKind::IMPL
            | SyntaxKind::MACRO_DEF
            | SyntaxKind::MACRO_RULES
            | SyntaxKind::MODULE
            | SyntaxKind::STATIC
            | SyntaxKind::STRUCT
            | SyntaxKind::TRAIT
            | SyntaxKind::TYPE_ALIAS
            | SyntaxKind::UNION
            | SyntaxKind::USE
    )
}

/// The kinds of the child nodes that label a `use` and an `extern crate`.
enum Paths {}

impl KindSet for Paths {
    ghost kinds = { is_path };

    fn has(kind: SyntaxKind) -> bool {
        matches!(kind, SyntaxKind::USE_TREE | SyntaxKind::NAME_REF)
    }
}

/// The kind of the `extern "C"` before a block.
enum Abis {}

impl KindSet for Abis {
    ghost kinds = { is_abi };

    fn has(kind: SyntaxKind) -> bool {
        matches!(kind, SyntaxKind::ABI)
    }
}

/// The kinds of the children of an `impl` that do not begin its head: those before it and those
/// after it.
pub(crate) enum Unheaded {}

impl KindSet for Unheaded {
    ghost kinds = { is_unheaded };

    fn has(kind: SyntaxKind) -> bool {
        matches!(
            kind,
            SyntaxKind::ATTR
                | SyntaxKind::DOC_COMMENT
                | SyntaxKind::VISIBILITY
                | SyntaxKind::GENERIC_PARAM_LIST
                | SyntaxKind::WHERE_CLAUSE
                | SyntaxKind::ASSOC_ITEM_LIST
                | SyntaxKind::DEFAULT_KW
                | SyntaxKind::UNSAFE_KW
                | SyntaxKind::IMPL_KW
                | SyntaxKind::WHITESPACE
                | SyntaxKind::COMMENT
        )
    }
}

/// The words that an item of this kind begins with, after its attributes and modifiers, such as
/// `extern crate`. `kind` is one for which [`is_listed`] returns true.
pub fn word_of(kind: SyntaxKind) -> &'static str
    ensures { result.now ≡ word_of kind }
{
    match kind {
        SyntaxKind::CONST => "const",
        SyntaxKind::ENUM => "enum",
        SyntaxKind::EXTERN_BLOCK => "extern",
        SyntaxKind::EXTERN_CRATE => "extern crate",
        SyntaxKind::FN => "fn",
        SyntaxKind::IMPL => "impl",
        SyntaxKind::MACRO_DEF => "macro",
        SyntaxKind::MACRO_RULES => "macro_rules!",
        SyntaxKind::MODULE => "mod",
        SyntaxKind::STATIC => "static",
        SyntaxKind::STRUCT => "struct",
        SyntaxKind::TRAIT => "trait",
        SyntaxKind::TYPE_ALIAS => "type",
        SyntaxKind::UNION => "union",
        _ => "use",
    }
}

/// The node or token that labels an item: its name; the `_` of a `const _`; the path of an
/// `extern crate`, and the paths of a `use`; the string of an `extern "C"`; and of an `impl` the
/// first node or token after its parameters, such as a type, or the `!` of a negative one. Returns
/// `None` if there is none.
pub fn label_of(row: &Row) -> Option<SyntaxElement>
    ensures { result ≡ label_of row.now }
{
    if let Some(name) = &row.name {
        return Some(NodeOrToken::Node(share(name)));
    }
    match row.item.kind() {
        SyntaxKind::CONST => token_label(&row.item, SyntaxKind::UNDERSCORE),
        SyntaxKind::EXTERN_BLOCK => {
            let abi = ras_node::first_node::<Abis>(row.item.children_with_tokens())?;
            token_label(&abi, SyntaxKind::STRING)
        }
        SyntaxKind::EXTERN_CRATE | SyntaxKind::USE => path_label(&row.item),
        SyntaxKind::IMPL => ras_node::first_other::<Unheaded>(row.item.children_with_tokens()),
        _ => None,
    }
}

fn token_label(parent: &SyntaxNode, kind: SyntaxKind) -> Option<SyntaxElement>
    ensures { result ≡ option_map Token (token_child kind parent.now) }
{
    Some(NodeOrToken::Token(token(parent, kind)?))
}

fn path_label(item: &SyntaxNode) -> Option<SyntaxElement>
    ensures { result ≡ option_map Node (typed_child is_path item.now) }
{
    let path = ras_node::first_node::<Paths>(item.children_with_tokens())?;
    Some(NodeOrToken::Node(path))
}

fn name_of(item: &SyntaxNode) -> Option<SyntaxNode>
    ensures { result ≡ typed_child is_name item.now }
{
    ras_node::first_node::<Names>(item.children_with_tokens())
}

// How many items are around an item, at most `usize::MAX`.
fn depth_of(item: &SyntaxNode) -> usize
    ensures { result ≡ depth_of item.now }
{
    let mut depth = 0usize;
    let mut above = item.ancestors();
    above.next();
    while let Some(node) = above.next() {
        if is_listed(node.kind()) {
            depth = depth.saturating_add(1);
        }
    }
    depth
}

// How many items are around a node; `depths` has this for each row of the root's tree.
fn depth_in(depths: &[usize], root: &SyntaxNode, node: &SyntaxNode) -> usize
    requires { depths.now ≡ depths_of root.now.tree (size root.now.tree) }
    ensures { result ≡ depth_of node.now }
{
    if Shared::ptr_eq(node.table(), root.table()) {
        number_at(depths, node.row())
    } else {
        depth_of(node)
    }
}

fn row_of(depths: &[usize], root: &SyntaxNode, item: SyntaxNode) -> Row
    requires { depths.now ≡ depths_of root.now.tree (size root.now.tree) }
    ensures { result ≡ row_of item }
{
    let name = name_of(&item);
    let depth = depth_in(depths, root, &item);
    Row { item, name, depth }
}

// Adds the items of a tree to others.
fn push_rows(depths: &[usize], root: &SyntaxNode, rows: &mut Vec<Row>) -> Result<(), AllocError>
    requires { depths.now ≡ depths_of root.now.tree (size root.now.tree) }
    ensures { OnOk result (rows.new.items ≡ rows.old.items
        ++ map row_of (filter (has_kind_in is_listed) (filter at_node (descendants_of root.now)))) }
{
    for node in root.descendants() {
        if is_listed(node.kind()) {
            rows.push(row_of(depths, root, node))?;
        }
    }
    Ok(())
}

/// The items of a tree in the order of the text, each before the items in it.
///
/// Takes time and memory linear in the whole tree.
///
/// # Errors
///
/// `AllocError` if memory runs out.
pub fn outline(alloc: Global, root: &SyntaxNode) -> Result<Vec<Row>, AllocError>
    ensures { IfOk result (λ rows. rows.items
        ≡ map row_of
        (filter (has_kind_in is_listed) (filter at_node (descendants_of root.now)))) }
{
    let depths = depths(alloc, root.table().as_ref())?;
    let mut rows = Vec::new(alloc);
    push_rows(depths.as_slice(), root, &mut rows)?;
    Ok(rows)
}
