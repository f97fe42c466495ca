//! The kinds of the words that are keywords everywhere in an edition.
ghost use Rattle.std.specs.Prelude.{◌≡◌};
ghost use Rattle.rust_kinds.specs.Strict.{is_reserved_kind_of, is_strict_kind_of};

use crate::keywords::{is_2018, is_2024};
use crate::kinds;
use ras_front_end::Edition;
use syntax_kind::SyntaxKind;

fn is_reserved_kind(kind: SyntaxKind) -> bool
    ensures { result ≡ is_reserved_kind_of kind }
{
    match kind {
        kinds::ABSTRACT_KW => true,
        kinds::BOX_KW => true,
        kinds::FINAL_KW => true,
        kinds::OVERRIDE_KW => true,
        kinds::PRIV_KW => true,
        kinds::TYPEOF_KW => true,
        kinds::UNSIZED_KW => true,
        kinds::VIRTUAL_KW => true,
        _ => false,
    }
}

/// Whether the kind is that of a word that is a keyword everywhere in the edition: one that
/// [`keyword`](crate::keyword) gives.
pub fn is_strict_keyword(kind: SyntaxKind, edition: Edition) -> bool
    ensures { result ≡ is_strict_kind_of edition kind }
{
    match kind {
        SyntaxKind::SELF_TYPE_KW => true,
        SyntaxKind::AS_KW => true,
        SyntaxKind::BECOME_KW => true,
        SyntaxKind::BREAK_KW => true,
        SyntaxKind::CONST_KW => true,
        SyntaxKind::CONTINUE_KW => true,
        SyntaxKind::CRATE_KW => true,
        SyntaxKind::DO_KW => true,
        SyntaxKind::ELSE_KW => true,
        SyntaxKind::ENUM_KW => true,
        SyntaxKind::EXTERN_KW => true,
        SyntaxKind::FALSE_KW => true,
        SyntaxKind::FN_KW => true,
        SyntaxKind::FOR_KW => true,
        SyntaxKind::IF_KW => true,
        SyntaxKind::IMPL_KW => true,
        SyntaxKind::IN_KW => true,
        SyntaxKind::LET_KW => true,
        SyntaxKind::LOOP_KW => true,
        SyntaxKind::MACRO_KW => true,
        SyntaxKind::MATCH_KW => true,
        SyntaxKind::MOD_KW => true,
        SyntaxKind::MOVE_KW => true,
        SyntaxKind::MUT_KW => true,
        SyntaxKind::PUB_KW => true,
        SyntaxKind::REF_KW => true,
        SyntaxKind::RETURN_KW => true,
        SyntaxKind::SELF_KW => true,
        SyntaxKind::STATIC_KW => true,
        SyntaxKind::STRUCT_KW => true,
        SyntaxKind::SUPER_KW => true,
        SyntaxKind::TRAIT_KW => true,
        SyntaxKind::TRUE_KW => true,
        SyntaxKind::TYPE_KW => true,
        SyntaxKind::UNSAFE_KW => true,
        SyntaxKind::USE_KW => true,
        SyntaxKind::WHERE_KW => true,
        SyntaxKind::WHILE_KW => true,
        SyntaxKind::YIELD_KW => true,
        SyntaxKind::ASYNC_KW => is_2018(edition),
        SyntaxKind::AWAIT_KW => is_2018(edition),
        SyntaxKind::DYN_KW => is_2018(edition),
        SyntaxKind::GEN_KW => is_2024(edition),
        SyntaxKind::TRY_KW => is_2018(edition),
        _ => is_reserved_kind(kind),
    }
}
