//! Laws of the numbers by which views know their kinds.
ghost use Rattle.std.specs.Prelude.{◌≡◌, ℕ};
ghost use Rattle.syntax_kind.specs.Kinds.{kind_raw};

use crate::{SyntaxKind, raw};

/// A type that represents a number.
pub trait Numbered {
    /// The number.
    ghost number: { ℕ };
}

/// A number as a type, so that a clause can name it.
pub struct OfKind<const K: u32>;

impl<const K: u32> Numbered for OfKind<K> {
    ghost number = { K };
}

/// The constants in `raw` of the kinds of nodes that no enum of views has are the raw numbers of
/// the kinds that they are named after. Laws of the enums state the same for the other kinds.
pub fn numbers_of_nodes()
    ensures source_file { ⟦<OfKind<{ raw::SOURCE_FILE }> as Numbered>⟧.number ≡ kind_raw SyntaxKind.SOURCE_FILE }
    ensures name { ⟦<OfKind<{ raw::NAME }> as Numbered>⟧.number ≡ kind_raw SyntaxKind.NAME }
    ensures name_ref { ⟦<OfKind<{ raw::NAME_REF }> as Numbered>⟧.number ≡ kind_raw SyntaxKind.NAME_REF }
    ensures lifetime { ⟦<OfKind<{ raw::LIFETIME }> as Numbered>⟧.number ≡ kind_raw SyntaxKind.LIFETIME }
    ensures path { ⟦<OfKind<{ raw::PATH }> as Numbered>⟧.number ≡ kind_raw SyntaxKind.PATH }
    ensures path_segment { ⟦<OfKind<{ raw::PATH_SEGMENT }> as Numbered>⟧.number ≡ kind_raw SyntaxKind.PATH_SEGMENT }
    ensures type_anchor { ⟦<OfKind<{ raw::TYPE_ANCHOR }> as Numbered>⟧.number ≡ kind_raw SyntaxKind.TYPE_ANCHOR }
    ensures arg_list { ⟦<OfKind<{ raw::ARG_LIST }> as Numbered>⟧.number ≡ kind_raw SyntaxKind.ARG_LIST }
    ensures param_list { ⟦<OfKind<{ raw::PARAM_LIST }> as Numbered>⟧.number ≡ kind_raw SyntaxKind.PARAM_LIST }
    ensures param { ⟦<OfKind<{ raw::PARAM }> as Numbered>⟧.number ≡ kind_raw SyntaxKind.PARAM }
    ensures self_param { ⟦<OfKind<{ raw::SELF_PARAM }> as Numbered>⟧.number ≡ kind_raw SyntaxKind.SELF_PARAM }
    ensures ret_type { ⟦<OfKind<{ raw::RET_TYPE }> as Numbered>⟧.number ≡ kind_raw SyntaxKind.RET_TYPE }
    ensures stmt_list { ⟦<OfKind<{ raw::STMT_LIST }> as Numbered>⟧.number ≡ kind_raw SyntaxKind.STMT_LIST }
    ensures label { ⟦<OfKind<{ raw::LABEL }> as Numbered>⟧.number ≡ kind_raw SyntaxKind.LABEL }
    ensures try_block_modifier { ⟦<OfKind<{ raw::TRY_BLOCK_MODIFIER }> as Numbered>⟧.number ≡ kind_raw SyntaxKind.TRY_BLOCK_MODIFIER }
    ensures let_else { ⟦<OfKind<{ raw::LET_ELSE }> as Numbered>⟧.number ≡ kind_raw SyntaxKind.LET_ELSE }
    ensures match_arm_list { ⟦<OfKind<{ raw::MATCH_ARM_LIST }> as Numbered>⟧.number ≡ kind_raw SyntaxKind.MATCH_ARM_LIST }
    ensures match_arm { ⟦<OfKind<{ raw::MATCH_ARM }> as Numbered>⟧.number ≡ kind_raw SyntaxKind.MATCH_ARM }
    ensures match_guard { ⟦<OfKind<{ raw::MATCH_GUARD }> as Numbered>⟧.number ≡ kind_raw SyntaxKind.MATCH_GUARD }
    ensures record_expr_field { ⟦<OfKind<{ raw::RECORD_EXPR_FIELD }> as Numbered>⟧.number ≡ kind_raw SyntaxKind.RECORD_EXPR_FIELD }
    ensures record_pat_field { ⟦<OfKind<{ raw::RECORD_PAT_FIELD }> as Numbered>⟧.number ≡ kind_raw SyntaxKind.RECORD_PAT_FIELD }
    ensures format_args_arg { ⟦<OfKind<{ raw::FORMAT_ARGS_ARG }> as Numbered>⟧.number ≡ kind_raw SyntaxKind.FORMAT_ARGS_ARG }
    ensures abi { ⟦<OfKind<{ raw::ABI }> as Numbered>⟧.number ≡ kind_raw SyntaxKind.ABI }
    ensures attr { ⟦<OfKind<{ raw::ATTR }> as Numbered>⟧.number ≡ kind_raw SyntaxKind.ATTR }
    ensures doc_comment { ⟦<OfKind<{ raw::DOC_COMMENT }> as Numbered>⟧.number ≡ kind_raw SyntaxKind.DOC_COMMENT }
    ensures cfg_atom { ⟦<OfKind<{ raw::CFG_ATOM }> as Numbered>⟧.number ≡ kind_raw SyntaxKind.CFG_ATOM }
    ensures use_tree { ⟦<OfKind<{ raw::USE_TREE }> as Numbered>⟧.number ≡ kind_raw SyntaxKind.USE_TREE }
    ensures use_tree_list { ⟦<OfKind<{ raw::USE_TREE_LIST }> as Numbered>⟧.number ≡ kind_raw SyntaxKind.USE_TREE_LIST }
    ensures record_field_list { ⟦<OfKind<{ raw::RECORD_FIELD_LIST }> as Numbered>⟧.number ≡ kind_raw SyntaxKind.RECORD_FIELD_LIST }
    ensures record_field { ⟦<OfKind<{ raw::RECORD_FIELD }> as Numbered>⟧.number ≡ kind_raw SyntaxKind.RECORD_FIELD }
    ensures tuple_field_list { ⟦<OfKind<{ raw::TUPLE_FIELD_LIST }> as Numbered>⟧.number ≡ kind_raw SyntaxKind.TUPLE_FIELD_LIST }
    ensures tuple_field { ⟦<OfKind<{ raw::TUPLE_FIELD }> as Numbered>⟧.number ≡ kind_raw SyntaxKind.TUPLE_FIELD }
    ensures variant { ⟦<OfKind<{ raw::VARIANT }> as Numbered>⟧.number ≡ kind_raw SyntaxKind.VARIANT }
    ensures item_list { ⟦<OfKind<{ raw::ITEM_LIST }> as Numbered>⟧.number ≡ kind_raw SyntaxKind.ITEM_LIST }
    ensures assoc_item_list { ⟦<OfKind<{ raw::ASSOC_ITEM_LIST }> as Numbered>⟧.number ≡ kind_raw SyntaxKind.ASSOC_ITEM_LIST }
    ensures extern_item_list { ⟦<OfKind<{ raw::EXTERN_ITEM_LIST }> as Numbered>⟧.number ≡ kind_raw SyntaxKind.EXTERN_ITEM_LIST }
    ensures type_bound { ⟦<OfKind<{ raw::TYPE_BOUND }> as Numbered>⟧.number ≡ kind_raw SyntaxKind.TYPE_BOUND }
    ensures type_bound_list { ⟦<OfKind<{ raw::TYPE_BOUND_LIST }> as Numbered>⟧.number ≡ kind_raw SyntaxKind.TYPE_BOUND_LIST }
    ensures use_bound_generic_args { ⟦<OfKind<{ raw::USE_BOUND_GENERIC_ARGS }> as Numbered>⟧.number ≡ kind_raw SyntaxKind.USE_BOUND_GENERIC_ARGS }
    ensures for_binder { ⟦<OfKind<{ raw::FOR_BINDER }> as Numbered>⟧.number ≡ kind_raw SyntaxKind.FOR_BINDER }
    ensures generic_param_list { ⟦<OfKind<{ raw::GENERIC_PARAM_LIST }> as Numbered>⟧.number ≡ kind_raw SyntaxKind.GENERIC_PARAM_LIST }
    ensures generic_arg_list { ⟦<OfKind<{ raw::GENERIC_ARG_LIST }> as Numbered>⟧.number ≡ kind_raw SyntaxKind.GENERIC_ARG_LIST }
    ensures where_clause { ⟦<OfKind<{ raw::WHERE_CLAUSE }> as Numbered>⟧.number ≡ kind_raw SyntaxKind.WHERE_CLAUSE }
    ensures where_pred { ⟦<OfKind<{ raw::WHERE_PRED }> as Numbered>⟧.number ≡ kind_raw SyntaxKind.WHERE_PRED }
    ensures visibility { ⟦<OfKind<{ raw::VISIBILITY }> as Numbered>⟧.number ≡ kind_raw SyntaxKind.VISIBILITY }
    ensures visibility_inner { ⟦<OfKind<{ raw::VISIBILITY_INNER }> as Numbered>⟧.number ≡ kind_raw SyntaxKind.VISIBILITY_INNER }
    ensures token_tree { ⟦<OfKind<{ raw::TOKEN_TREE }> as Numbered>⟧.number ≡ kind_raw SyntaxKind.TOKEN_TREE }
    ensures macro_stmts { ⟦<OfKind<{ raw::MACRO_STMTS }> as Numbered>⟧.number ≡ kind_raw SyntaxKind.MACRO_STMTS }
{}

/// The constants in `raw` of the kinds of tokens that have a view are the raw numbers of the kinds
/// that they are named after.
pub fn numbers_of_tokens()
    ensures whitespace { ⟦<OfKind<{ raw::WHITESPACE }> as Numbered>⟧.number ≡ kind_raw SyntaxKind.WHITESPACE }
    ensures comment { ⟦<OfKind<{ raw::COMMENT }> as Numbered>⟧.number ≡ kind_raw SyntaxKind.COMMENT }
    ensures string { ⟦<OfKind<{ raw::STRING }> as Numbered>⟧.number ≡ kind_raw SyntaxKind.STRING }
    ensures byte_string { ⟦<OfKind<{ raw::BYTE_STRING }> as Numbered>⟧.number ≡ kind_raw SyntaxKind.BYTE_STRING }
    ensures c_string { ⟦<OfKind<{ raw::C_STRING }> as Numbered>⟧.number ≡ kind_raw SyntaxKind.C_STRING }
    ensures int_number { ⟦<OfKind<{ raw::INT_NUMBER }> as Numbered>⟧.number ≡ kind_raw SyntaxKind.INT_NUMBER }
    ensures float_number { ⟦<OfKind<{ raw::FLOAT_NUMBER }> as Numbered>⟧.number ≡ kind_raw SyntaxKind.FLOAT_NUMBER }
    ensures char { ⟦<OfKind<{ raw::CHAR }> as Numbered>⟧.number ≡ kind_raw SyntaxKind.CHAR }
    ensures byte { ⟦<OfKind<{ raw::BYTE }> as Numbered>⟧.number ≡ kind_raw SyntaxKind.BYTE }
{}
