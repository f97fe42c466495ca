//! Rules on items: constants, visibilities, `macro_rules!`.
ghost use Rattle.std.specs.Prelude.{◌≡◌, option_map};
ghost use Rattle.tree_model.specs.Cursor.{range_of};
ghost use Rattle.ras_validation.specs.Rules.{mutable_const, names_identifier, visibility_path, is_trait_impl, is_plain_trait_impl, is_trait_member, visibility_in_trait, macro_rules_visibility};

use crate::kinds::Members;
use crate::lookups::{has_trait, node_child, single_name, token_behind};
use lossless_tree::{SyntaxKind, SyntaxNode};
use ras_node::{KindSet, support};
use text_size::TextRange;

/// The `mut` after the `const` of a `CONST`, white space and comments left out.
pub fn mutable_const(item: &SyntaxNode) -> Option<TextRange>
    ensures { result ≡ option_map range_of (mutable_const item.now) }
{
    let keyword = support::token(item, SyntaxKind::CONST_KW)?;
    let next = token_behind(keyword)?;
    if next.kind() == SyntaxKind::MUT_KW {
        Some(next.text_range())
    } else {
        None
    }
}

// Whether the part of a visibility in parentheses is a path of one identifier, without `in`.
fn names_identifier(inner: &SyntaxNode) -> bool
    ensures { result ≡ names_identifier inner.now }
{
    if support::token(inner, SyntaxKind::IN_KW).is_some() {
        return false;
    }
    let Some(path) = node_child(inner, SyntaxKind::PATH) else {
        return false;
    };
    let Some(name) = single_name(&path) else {
        return false;
    };
    support::token(&name, SyntaxKind::IDENT).is_some()
}

/// A `VISIBILITY` whose path is one identifier, without `in`.
pub fn visibility_path(visibility: &SyntaxNode) -> Option<TextRange>
    ensures { result ≡ option_map range_of (visibility_path visibility.now) }
{
    let inner = node_child(visibility, SyntaxKind::VISIBILITY_INNER)?;
    if names_identifier(&inner) {
        Some(visibility.text_range())
    } else {
        None
    }
}

// Whether an item is the implementation of a trait.
fn is_trait_impl(item: &SyntaxNode) -> bool
    ensures { result ≡ is_trait_impl item.now }
{
    item.kind() == SyntaxKind::IMPL && has_trait(item)
}

// Whether an item is the implementation of a trait, and has no attribute.
fn is_plain_trait_impl(item: &SyntaxNode) -> bool
    ensures { result ≡ is_plain_trait_impl item.now }
{
    is_trait_impl(item) && node_child(item, SyntaxKind::ATTR).is_none()
}

// Whether an item is a function, a constant or a type of such an implementation.
fn is_trait_member(item: &SyntaxNode) -> bool
    ensures { result ≡ is_trait_member item.now }
{
    if !Members::has(item.kind()) {
        return false;
    }
    let Some(list) = item.parent() else {
        return false;
    };
    let Some(around) = list.parent() else {
        return false;
    };
    is_plain_trait_impl(&around)
}

/// A `VISIBILITY` on a function, a constant or a type of the implementation of a trait, where the
/// implementation has no attribute.
pub fn visibility_in_trait(visibility: &SyntaxNode) -> Option<TextRange>
    ensures { result ≡ option_map range_of (visibility_in_trait visibility.now) }
{
    let item = visibility.parent()?;
    if is_trait_member(&item) {
        Some(visibility.text_range())
    } else {
        None
    }
}

/// The visibility of a `MACRO_RULES`.
pub fn macro_rules_visibility(item: &SyntaxNode) -> Option<TextRange>
    ensures { result ≡ option_map range_of (macro_rules_visibility item.now) }
{
    let visibility = node_child(item, SyntaxKind::VISIBILITY)?;
    Some(visibility.text_range())
}
