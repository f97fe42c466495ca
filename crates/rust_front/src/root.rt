//! The nodes that take comments.
ghost use Rattle.std.specs.Prelude.{◌≡◌};
ghost use Rattle.rust_front.specs.Roots.{attaching_kinds};

use syntax_kind::SyntaxKind;

// The kinds of nodes that take the comments before them.
static ATTACHING: [SyntaxKind; 18] = [
    SyntaxKind::FN,
    SyntaxKind::STRUCT,
    SyntaxKind::IMPL,
    SyntaxKind::CONST,
    SyntaxKind::ENUM,
    SyntaxKind::MACRO_CALL,
    SyntaxKind::MACRO_DEF,
    SyntaxKind::MACRO_RULES,
    SyntaxKind::MODULE,
    SyntaxKind::RECORD_FIELD,
    SyntaxKind::STATIC,
    SyntaxKind::TRAIT,
    SyntaxKind::TUPLE_FIELD,
    SyntaxKind::TYPE_ALIAS,
    SyntaxKind::UNION,
    SyntaxKind::USE,
    SyntaxKind::VARIANT,
    SyntaxKind::EXTERN_CRATE,
];

/// The kinds of nodes that take the comments before them.
pub fn attaching() -> &'static [SyntaxKind]
    ensures { result.now ≡ attaching_kinds }
{
    &ATTACHING
}
