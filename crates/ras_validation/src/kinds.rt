//! Sets of kinds that the rules use.
ghost use Rattle.std.specs.Prelude.{◌≡◌};
ghost use Rattle.ras_validation.specs.Kinds.{takes_inner_attributes, is_member, delimits_type, has_rules, is_path_keyword, is_segment, is_name_ref, is_identifier, is_number};

use lossless_tree::SyntaxKind;
use ras_node::KindSet;

/// The nodes in which a block may have inner attributes.
pub enum TakesInnerAttributes {}

impl KindSet for TakesInnerAttributes {
    ghost kinds = { takes_inner_attributes };

    fn has(kind: SyntaxKind) -> bool {
        matches!(
            kind,
            SyntaxKind::FN
                | SyntaxKind::EXPR_STMT
                | SyntaxKind::STMT_LIST
                | SyntaxKind::MACRO_STMTS
                | SyntaxKind::LOOP_EXPR
                | SyntaxKind::WHILE_EXPR
                | SyntaxKind::FOR_EXPR
                | SyntaxKind::TUPLE_EXPR
                | SyntaxKind::ARRAY_EXPR
                | SyntaxKind::ARG_LIST
        )
    }
}

/// The items of an implementation whose visibility is checked.
pub enum Members {}

impl KindSet for Members {
    ghost kinds = { is_member };

    fn has(kind: SyntaxKind) -> bool {
        matches!(
            kind,
            SyntaxKind::FN | SyntaxKind::CONST | SyntaxKind::TYPE_ALIAS
        )
    }
}

/// `(`, `<` and `=`, after which a `+` in a type is not ambiguous.
pub enum DelimitsType {}

impl KindSet for DelimitsType {
    ghost kinds = { delimits_type };

    fn has(kind: SyntaxKind) -> bool {
        matches!(
            kind,
            SyntaxKind::L_PAREN | SyntaxKind::L_ANGLE | SyntaxKind::EQ
        )
    }
}

/// The nodes that have rules.
pub enum WithRules {}

impl KindSet for WithRules {
    ghost kinds = { has_rules };

    fn has(kind: SyntaxKind) -> bool {
        matches!(
            kind,
            SyntaxKind::LITERAL
                | SyntaxKind::CONST
                | SyntaxKind::BLOCK_EXPR
                | SyntaxKind::FIELD_EXPR
                | SyntaxKind::RECORD_EXPR_FIELD
                | SyntaxKind::VISIBILITY
                | SyntaxKind::RANGE_EXPR
                | SyntaxKind::PATH_SEGMENT
                | SyntaxKind::REF_TYPE
                | SyntaxKind::PTR_TYPE
                | SyntaxKind::FN_PTR_TYPE
                | SyntaxKind::DYN_TRAIT_TYPE
                | SyntaxKind::IMPL_TRAIT_TYPE
                | SyntaxKind::MACRO_RULES
                | SyntaxKind::LET_EXPR
        )
    }
}

/// `self` and `crate`, the keywords that the rules on paths look for.
pub enum PathKeywords {}

impl KindSet for PathKeywords {
    ghost kinds = { is_path_keyword };

    fn has(kind: SyntaxKind) -> bool {
        matches!(kind, SyntaxKind::SELF_KW | SyntaxKind::CRATE_KW)
    }
}

/// The segments of paths.
pub enum Segments {}

impl KindSet for Segments {
    ghost kinds = { is_segment };

    fn has(kind: SyntaxKind) -> bool {
        matches!(kind, SyntaxKind::PATH_SEGMENT)
    }
}

/// The names in segments and fields.
pub enum NameRefs {}

impl KindSet for NameRefs {
    ghost kinds = { is_name_ref };

    fn has(kind: SyntaxKind) -> bool {
        matches!(kind, SyntaxKind::NAME_REF)
    }
}

/// The tokens of most names.
pub enum Identifiers {}

impl KindSet for Identifiers {
    ghost kinds = { is_identifier };

    fn has(kind: SyntaxKind) -> bool {
        matches!(kind, SyntaxKind::IDENT)
    }
}

/// The tokens of names whose digits are looked at.
pub enum Numbers {}

impl KindSet for Numbers {
    ghost kinds = { is_number };

    fn has(kind: SyntaxKind) -> bool {
        matches!(kind, SyntaxKind::INT_NUMBER)
    }
}
