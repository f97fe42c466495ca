//! Sets of kinds, as types: one for each enum of views.
ghost use Rattle.std.specs.Prelude.{◌≡◌, Bool};
ghost use Rattle.syntax_kind.specs.declared.syntax_kind.SyntaxKind.{SyntaxKind};
ghost use Rattle.ras_node.specs.Sets.{is_adt, is_any_attr, is_any_comment, is_any_string, is_assoc_item, is_callable_expr, is_else_branch, is_expr, is_extern_item, is_generic_arg, is_generic_param, is_item, is_macro, is_meta, is_name_like, is_name_or_name_ref, is_pat, is_stmt, is_ty, is_type_or_const_param};

mod holders;
mod parts;

pub use holders::{AttrHolders, GenericParamHolders};
pub use lossless_tree::KindSet;
use lossless_tree::SyntaxKind;
pub use parts::{
    Bangs, BeforeIndex, BeforeLiteral, BinaryOperators, CommaTokens, InnerDocs, PathSegments,
    Paths, RangeOperators,
};

/// The kinds of `else` branches.
pub enum ElseBranches {}

impl KindSet for ElseBranches {
    ghost kinds = { is_else_branch };

    fn has(kind: SyntaxKind) -> bool {
        matches!(kind, SyntaxKind::BLOCK_EXPR | SyntaxKind::IF_EXPR)
    }
}

/// The kinds of calls and method calls.
pub enum CallableExprs {}

impl KindSet for CallableExprs {
    ghost kinds = { is_callable_expr };

    fn has(kind: SyntaxKind) -> bool {
        matches!(kind, SyntaxKind::CALL_EXPR | SyntaxKind::METHOD_CALL_EXPR)
    }
}

/// The kinds of items that define a type of their own.
pub enum Adts {}

impl KindSet for Adts {
    ghost kinds = { is_adt };

    fn has(kind: SyntaxKind) -> bool {
        matches!(
            kind,
            SyntaxKind::ENUM | SyntaxKind::STRUCT | SyntaxKind::UNION
        )
    }
}

/// The kinds of attributes and doc comments.
pub enum AnyAttrs {}

impl KindSet for AnyAttrs {
    ghost kinds = { is_any_attr };

    fn has(kind: SyntaxKind) -> bool {
        matches!(kind, SyntaxKind::ATTR | SyntaxKind::DOC_COMMENT)
    }
}

/// The kinds of items of traits and implementations.
pub enum AssocItems {}

impl KindSet for AssocItems {
    ghost kinds = { is_assoc_item };

    fn has(kind: SyntaxKind) -> bool {
        matches!(
            kind,
            SyntaxKind::CONST | SyntaxKind::FN | SyntaxKind::MACRO_CALL | SyntaxKind::TYPE_ALIAS
        )
    }
}

/// The kinds of expressions.
pub enum Exprs {}

impl KindSet for Exprs {
    ghost kinds = { is_expr };

    fn has(kind: SyntaxKind) -> bool {
        matches!(
            kind,
            SyntaxKind::ARRAY_EXPR
                | SyntaxKind::ASM_EXPR
                | SyntaxKind::AWAIT_EXPR
                | SyntaxKind::BECOME_EXPR
                | SyntaxKind::BIN_EXPR
                | SyntaxKind::BLOCK_EXPR
                | SyntaxKind::BREAK_EXPR
                | SyntaxKind::CALL_EXPR
                | SyntaxKind::CAST_EXPR
                | SyntaxKind::CFG_PRED_EXPR
                | SyntaxKind::CLOSURE_EXPR
                | SyntaxKind::CONTINUE_EXPR
                | SyntaxKind::FIELD_EXPR
                | SyntaxKind::FOR_EXPR
                | SyntaxKind::FORMAT_ARGS_EXPR
                | SyntaxKind::IF_EXPR
                | SyntaxKind::INCLUDE_BYTES_EXPR
                | SyntaxKind::INDEX_EXPR
                | SyntaxKind::LET_EXPR
                | SyntaxKind::LITERAL
                | SyntaxKind::LOOP_EXPR
                | SyntaxKind::MACRO_EXPR
                | SyntaxKind::MATCH_EXPR
                | SyntaxKind::METHOD_CALL_EXPR
                | SyntaxKind::OFFSET_OF_EXPR
                | SyntaxKind::PAREN_EXPR
                | SyntaxKind::PATH_EXPR
                | SyntaxKind::PREFIX_EXPR
                | SyntaxKind::RANGE_EXPR
                | SyntaxKind::RECORD_EXPR
                | SyntaxKind::REF_EXPR
                | SyntaxKind::RETURN_EXPR
                | SyntaxKind::TRY_EXPR
                | SyntaxKind::TUPLE_EXPR
                | SyntaxKind::UNDERSCORE_EXPR
                | SyntaxKind::WHILE_EXPR
                | SyntaxKind::YEET_EXPR
                | SyntaxKind::YIELD_EXPR
        )
    }
}

/// The kinds of items of extern blocks.
pub enum ExternItems {}

impl KindSet for ExternItems {
    ghost kinds = { is_extern_item };

    fn has(kind: SyntaxKind) -> bool {
        matches!(
            kind,
            SyntaxKind::STATIC | SyntaxKind::FN | SyntaxKind::MACRO_CALL | SyntaxKind::TYPE_ALIAS
        )
    }
}

/// The kinds of generic arguments.
pub enum GenericArgs {}

impl KindSet for GenericArgs {
    ghost kinds = { is_generic_arg };

    fn has(kind: SyntaxKind) -> bool {
        matches!(
            kind,
            SyntaxKind::TYPE_ARG
                | SyntaxKind::ASSOC_TYPE_ARG
                | SyntaxKind::LIFETIME_ARG
                | SyntaxKind::CONST_ARG
        )
    }
}

/// The kinds of generic parameters.
pub enum GenericParams {}

impl KindSet for GenericParams {
    ghost kinds = { is_generic_param };

    fn has(kind: SyntaxKind) -> bool {
        matches!(
            kind,
            SyntaxKind::LIFETIME_PARAM | SyntaxKind::TYPE_PARAM | SyntaxKind::CONST_PARAM
        )
    }
}

/// The kinds of items.
pub enum Items {}

impl KindSet for Items {
    ghost kinds = { is_item };

    fn has(kind: SyntaxKind) -> bool {
        matches!(
            kind,
            SyntaxKind::ASM_EXPR
                | SyntaxKind::CONST
                | SyntaxKind::ENUM
                | SyntaxKind::EXTERN_BLOCK
                | SyntaxKind::EXTERN_CRATE
                | SyntaxKind::FN
                | SyntaxKind::IMPL
                | SyntaxKind::MACRO_CALL
                | SyntaxKind::MACRO_DEF
                | SyntaxKind::MACRO_RULES
                | SyntaxKind::MODULE
                | SyntaxKind::STATIC
                | SyntaxKind::STRUCT
                | SyntaxKind::TRAIT
                | SyntaxKind::TYPE_ALIAS
                | SyntaxKind::UNION
                | SyntaxKind::USE
        )
    }
}

/// The kinds of metas, the contents of attributes.
pub enum Metas {}

impl KindSet for Metas {
    ghost kinds = { is_meta };

    fn has(kind: SyntaxKind) -> bool {
        matches!(
            kind,
            SyntaxKind::CFG_ATTR_META
                | SyntaxKind::CFG_META
                | SyntaxKind::KEY_VALUE_META
                | SyntaxKind::PATH_META
                | SyntaxKind::TOKEN_TREE_META
                | SyntaxKind::UNSAFE_META
        )
    }
}

/// The kinds of patterns.
pub enum Pats {}

impl KindSet for Pats {
    ghost kinds = { is_pat };

    fn has(kind: SyntaxKind) -> bool {
        matches!(
            kind,
            SyntaxKind::BOX_PAT
                | SyntaxKind::CONST_BLOCK_PAT
                | SyntaxKind::IDENT_PAT
                | SyntaxKind::LITERAL_PAT
                | SyntaxKind::MACRO_PAT
                | SyntaxKind::OR_PAT
                | SyntaxKind::PAREN_PAT
                | SyntaxKind::PATH_PAT
                | SyntaxKind::RANGE_PAT
                | SyntaxKind::RECORD_PAT
                | SyntaxKind::REF_PAT
                | SyntaxKind::REST_PAT
                | SyntaxKind::SLICE_PAT
                | SyntaxKind::TUPLE_PAT
                | SyntaxKind::TUPLE_STRUCT_PAT
                | SyntaxKind::WILDCARD_PAT
        )
    }
}

/// The kinds of statements.
pub enum Stmts {}

impl KindSet for Stmts {
    ghost kinds = { is_stmt };

    fn has(kind: SyntaxKind) -> bool {
        Items::has(kind) || matches!(kind, SyntaxKind::EXPR_STMT | SyntaxKind::LET_STMT)
    }
}

/// The kinds of types.
pub enum Types {}

impl KindSet for Types {
    ghost kinds = { is_ty };

    fn has(kind: SyntaxKind) -> bool {
        matches!(
            kind,
            SyntaxKind::ARRAY_TYPE
                | SyntaxKind::DYN_TRAIT_TYPE
                | SyntaxKind::FN_PTR_TYPE
                | SyntaxKind::FOR_TYPE
                | SyntaxKind::IMPL_TRAIT_TYPE
                | SyntaxKind::INFER_TYPE
                | SyntaxKind::MACRO_TYPE
                | SyntaxKind::NEVER_TYPE
                | SyntaxKind::PAREN_TYPE
                | SyntaxKind::PATH_TYPE
                | SyntaxKind::PTR_TYPE
                | SyntaxKind::REF_TYPE
                | SyntaxKind::SLICE_TYPE
                | SyntaxKind::TUPLE_TYPE
        )
    }
}

/// The kinds of definitions of macros.
pub enum Macros {}

impl KindSet for Macros {
    ghost kinds = { is_macro };

    fn has(kind: SyntaxKind) -> bool {
        matches!(kind, SyntaxKind::MACRO_RULES | SyntaxKind::MACRO_DEF)
    }
}

/// The kinds of names and lifetimes.
pub enum NameLikes {}

impl KindSet for NameLikes {
    ghost kinds = { is_name_like };

    fn has(kind: SyntaxKind) -> bool {
        matches!(
            kind,
            SyntaxKind::NAME_REF | SyntaxKind::NAME | SyntaxKind::LIFETIME
        )
    }
}

/// The kinds of names.
pub enum NameOrNameRefs {}

impl KindSet for NameOrNameRefs {
    ghost kinds = { is_name_or_name_ref };

    fn has(kind: SyntaxKind) -> bool {
        matches!(kind, SyntaxKind::NAME | SyntaxKind::NAME_REF)
    }
}

/// The kinds of parameters that are types or constants.
pub enum TypeOrConstParams {}

impl KindSet for TypeOrConstParams {
    ghost kinds = { is_type_or_const_param };

    fn has(kind: SyntaxKind) -> bool {
        matches!(kind, SyntaxKind::TYPE_PARAM | SyntaxKind::CONST_PARAM)
    }
}

/// The kinds of comments.
pub enum AnyComments {}

impl KindSet for AnyComments {
    ghost kinds = { is_any_comment };

    fn has(kind: SyntaxKind) -> bool {
        matches!(
            kind,
            SyntaxKind::COMMENT | SyntaxKind::INNER_DOC_COMMENT | SyntaxKind::OUTER_DOC_COMMENT
        )
    }
}

/// The kinds of string literals.
pub enum AnyStrings {}

impl KindSet for AnyStrings {
    ghost kinds = { is_any_string };

    fn has(kind: SyntaxKind) -> bool {
        matches!(
            kind,
            SyntaxKind::BYTE_STRING | SyntaxKind::C_STRING | SyntaxKind::STRING
        )
    }
}
