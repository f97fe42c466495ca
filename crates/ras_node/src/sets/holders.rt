//! The kinds of the nodes that can have attributes or generic parameters.
ghost use Rattle.ras_node.specs.Sets.{has_attrs, has_generic_params};

use super::{Exprs, GenericParams, Items, KindSet};
use lossless_tree::SyntaxKind;

/// The kinds of the nodes that can have attributes.
pub enum AttrHolders {}

impl KindSet for AttrHolders {
    ghost kinds = { has_attrs };

    fn has(kind: SyntaxKind) -> bool {
        Items::has(kind)
            || Exprs::has(kind)
            || GenericParams::has(kind)
            || matches!(
                kind,
                SyntaxKind::SOURCE_FILE
                    | SyntaxKind::STMT_LIST
                    | SyntaxKind::LET_STMT
                    | SyntaxKind::MATCH_ARM
                    | SyntaxKind::MATCH_ARM_LIST
                    | SyntaxKind::PARAM
                    | SyntaxKind::SELF_PARAM
                    | SyntaxKind::RECORD_EXPR_FIELD
                    | SyntaxKind::RECORD_FIELD
                    | SyntaxKind::RECORD_PAT_FIELD
                    | SyntaxKind::TUPLE_FIELD
                    | SyntaxKind::VARIANT
                    | SyntaxKind::ITEM_LIST
                    | SyntaxKind::ASSOC_ITEM_LIST
                    | SyntaxKind::EXTERN_ITEM_LIST
            )
    }
}

/// The kinds of the nodes that can have generic parameters.
pub enum GenericParamHolders {}

impl KindSet for GenericParamHolders {
    ghost kinds = { has_generic_params };

    fn has(kind: SyntaxKind) -> bool {
        matches!(
            kind,
            SyntaxKind::ENUM
                | SyntaxKind::FN
                | SyntaxKind::IMPL
                | SyntaxKind::STRUCT
                | SyntaxKind::TRAIT
                | SyntaxKind::TYPE_ALIAS
                | SyntaxKind::UNION
        )
    }
}
