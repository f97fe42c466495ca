//! The nodes of sealed calls. Written by tools/grammar from rust.grammar.

use rust_kinds::kinds;
use syntax_kind::SyntaxKind;

/// The kinds of the nodes that sealed calls make.
#[rattlefmt::skip]
pub(crate) static SEALED: [SyntaxKind; 11] = [
    SyntaxKind::TOKEN_TREE, kinds::RECORD_PAT_FIELD_LIST, kinds::RECORD_EXPR_FIELD_LIST, SyntaxKind::MATCH_ARM_LIST,
    SyntaxKind::STMT_LIST, SyntaxKind::ITEM_LIST, SyntaxKind::EXTERN_ITEM_LIST, SyntaxKind::USE_TREE_LIST,
    SyntaxKind::RECORD_FIELD_LIST, kinds::VARIANT_LIST, SyntaxKind::ASSOC_ITEM_LIST,
];
