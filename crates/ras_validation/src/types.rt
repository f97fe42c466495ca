//! Rules on the bounds of types.
ghost use Rattle.std.specs.Prelude.{◌≡◌, option_map};
ghost use Rattle.tree_model.specs.Cursor.{range_of};
ghost use Rattle.ras_node.specs.Nodes.{kind_at};
ghost use Rattle.ras_validation.specs.Rules.{bounded_keyword, ambiguous_plus, ambiguous_target, ambiguous_return, without_trait};

use crate::kinds::DelimitsType;
use crate::lookups::{has_two_bounds, has_typed_bound, node_child, token_before, type_child};
use lossless_tree::{SyntaxKind, SyntaxNode, SyntaxToken};
use ras_node::{KindSet, support};
use text_size::TextRange;

// The keyword of a `dyn` or `impl` type.
fn bounded_keyword(ty: &SyntaxNode) -> Option<SyntaxToken>
    ensures { result ≡ bounded_keyword (kind_at ty.now) ty.now }
{
    match ty.kind() {
        SyntaxKind::DYN_TRAIT_TYPE => support::token(ty, SyntaxKind::DYN_KW),
        SyntaxKind::IMPL_TRAIT_TYPE => support::token(ty, SyntaxKind::IMPL_KW),
        _ => None,
    }
}

/// A `dyn` or `impl` type with two bounds or more, where a token precedes its keyword, white space
/// and comments left out, that is not one of `(`, `<` and `=`.
pub fn ambiguous_plus(ty: &SyntaxNode) -> Option<TextRange>
    ensures { result ≡ option_map range_of (ambiguous_plus ty.now) }
{
    let keyword = bounded_keyword(ty)?;
    let before = token_before(keyword)?;
    let list = node_child(ty, SyntaxKind::TYPE_BOUND_LIST)?;
    if has_two_bounds(&list) && !DelimitsType::has(before.kind()) {
        Some(ty.text_range())
    } else {
        None
    }
}

/// The same for the type after the `&` of a `REF_TYPE` or the `*` of a `PTR_TYPE`.
pub fn ambiguous_target(ty: &SyntaxNode) -> Option<TextRange>
    ensures { result ≡ option_map range_of (ambiguous_target ty.now) }
{
    let target = type_child(ty)?;
    ambiguous_plus(&target)
}

/// The same for the type that an `FN_PTR_TYPE` returns.
pub fn ambiguous_return(ty: &SyntaxNode) -> Option<TextRange>
    ensures { result ≡ option_map range_of (ambiguous_return ty.now) }
{
    let returned = node_child(ty, SyntaxKind::RET_TYPE)?;
    ambiguous_target(&returned)
}

/// A `DYN_TRAIT_TYPE` or `IMPL_TRAIT_TYPE` with a list of bounds in which no bound has a type.
pub fn without_trait(ty: &SyntaxNode) -> Option<TextRange>
    ensures { result ≡ option_map range_of (without_trait ty.now) }
{
    let list = node_child(ty, SyntaxKind::TYPE_BOUND_LIST)?;
    if has_typed_bound(&list) {
        None
    } else {
        Some(ty.text_range())
    }
}
