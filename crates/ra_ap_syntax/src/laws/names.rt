//! The law on the names of views. Made by `tools/views` from `views.txt`.
ghost use Rattle.ra_ap_syntax.specs.Words.{Views};

use crate::ast::{self, AstNode};
use lossless_tree::SyntaxKind;

/// The views of nodes that no enum has are of the kinds that they are named for.
pub fn names_of_nodes()
    ensures source_file { Views ⟦<ast::SourceFile as AstNode>⟧ SyntaxKind.SOURCE_FILE }
    ensures param_list { Views ⟦<ast::ParamList as AstNode>⟧ SyntaxKind.PARAM_LIST }
    ensures param { Views ⟦<ast::Param as AstNode>⟧ SyntaxKind.PARAM }
    ensures self_param { Views ⟦<ast::SelfParam as AstNode>⟧ SyntaxKind.SELF_PARAM }
    ensures abi { Views ⟦<ast::Abi as AstNode>⟧ SyntaxKind.ABI }
    ensures use_tree { Views ⟦<ast::UseTree as AstNode>⟧ SyntaxKind.USE_TREE }
    ensures use_tree_list { Views ⟦<ast::UseTreeList as AstNode>⟧ SyntaxKind.USE_TREE_LIST }
    ensures record_fields { Views ⟦<ast::RecordFieldList as AstNode>⟧ SyntaxKind.RECORD_FIELD_LIST }
    ensures record_field { Views ⟦<ast::RecordField as AstNode>⟧ SyntaxKind.RECORD_FIELD }
    ensures tuple_fields { Views ⟦<ast::TupleFieldList as AstNode>⟧ SyntaxKind.TUPLE_FIELD_LIST }
    ensures tuple_field { Views ⟦<ast::TupleField as AstNode>⟧ SyntaxKind.TUPLE_FIELD }
    ensures variant { Views ⟦<ast::Variant as AstNode>⟧ SyntaxKind.VARIANT }
    ensures item_list { Views ⟦<ast::ItemList as AstNode>⟧ SyntaxKind.ITEM_LIST }
    ensures assoc_item_list { Views ⟦<ast::AssocItemList as AstNode>⟧ SyntaxKind.ASSOC_ITEM_LIST }
    ensures extern_items { Views ⟦<ast::ExternItemList as AstNode>⟧ SyntaxKind.EXTERN_ITEM_LIST }
    ensures visibility { Views ⟦<ast::Visibility as AstNode>⟧ SyntaxKind.VISIBILITY }
    ensures scope { Views ⟦<ast::VisibilityInner as AstNode>⟧ SyntaxKind.VISIBILITY_INNER }
    ensures macro_stmts { Views ⟦<ast::MacroStmts as AstNode>⟧ SyntaxKind.MACRO_STMTS }
    ensures type_bound { Views ⟦<ast::TypeBound as AstNode>⟧ SyntaxKind.TYPE_BOUND }
    ensures type_bound_list { Views ⟦<ast::TypeBoundList as AstNode>⟧ SyntaxKind.TYPE_BOUND_LIST }
    ensures used { Views ⟦<ast::UseBoundGenericArgs as AstNode>⟧ SyntaxKind.USE_BOUND_GENERIC_ARGS }
    ensures for_binder { Views ⟦<ast::ForBinder as AstNode>⟧ SyntaxKind.FOR_BINDER }
    ensures type_params { Views ⟦<ast::GenericParamList as AstNode>⟧ SyntaxKind.GENERIC_PARAM_LIST }
    ensures generic_args { Views ⟦<ast::GenericArgList as AstNode>⟧ SyntaxKind.GENERIC_ARG_LIST }
    ensures where_clause { Views ⟦<ast::WhereClause as AstNode>⟧ SyntaxKind.WHERE_CLAUSE }
    ensures where_pred { Views ⟦<ast::WherePred as AstNode>⟧ SyntaxKind.WHERE_PRED }
    ensures name { Views ⟦<ast::Name as AstNode>⟧ SyntaxKind.NAME }
    ensures name_ref { Views ⟦<ast::NameRef as AstNode>⟧ SyntaxKind.NAME_REF }
    ensures lifetime { Views ⟦<ast::Lifetime as AstNode>⟧ SyntaxKind.LIFETIME }
    ensures path { Views ⟦<ast::Path as AstNode>⟧ SyntaxKind.PATH }
    ensures path_segment { Views ⟦<ast::PathSegment as AstNode>⟧ SyntaxKind.PATH_SEGMENT }
    ensures type_anchor { Views ⟦<ast::TypeAnchor as AstNode>⟧ SyntaxKind.TYPE_ANCHOR }
    ensures attr { Views ⟦<ast::Attr as AstNode>⟧ SyntaxKind.ATTR }
    ensures doc_comment { Views ⟦<ast::DocComment as AstNode>⟧ SyntaxKind.DOC_COMMENT }
    ensures cfg_atom { Views ⟦<ast::CfgAtom as AstNode>⟧ SyntaxKind.CFG_ATOM }
    ensures token_tree { Views ⟦<ast::TokenTree as AstNode>⟧ SyntaxKind.TOKEN_TREE }
    ensures arg_list { Views ⟦<ast::ArgList as AstNode>⟧ SyntaxKind.ARG_LIST }
    ensures stmt_list { Views ⟦<ast::StmtList as AstNode>⟧ SyntaxKind.STMT_LIST }
    ensures label { Views ⟦<ast::Label as AstNode>⟧ SyntaxKind.LABEL }
    ensures try_block { Views ⟦<ast::TryBlockModifier as AstNode>⟧ SyntaxKind.TRY_BLOCK_MODIFIER }
    ensures let_else { Views ⟦<ast::LetElse as AstNode>⟧ SyntaxKind.LET_ELSE }
    ensures match_arm_list { Views ⟦<ast::MatchArmList as AstNode>⟧ SyntaxKind.MATCH_ARM_LIST }
    ensures match_arm { Views ⟦<ast::MatchArm as AstNode>⟧ SyntaxKind.MATCH_ARM }
    ensures match_guard { Views ⟦<ast::MatchGuard as AstNode>⟧ SyntaxKind.MATCH_GUARD }
    ensures expr_field { Views ⟦<ast::RecordExprField as AstNode>⟧ SyntaxKind.RECORD_EXPR_FIELD }
    ensures format_args_arg { Views ⟦<ast::FormatArgsArg as AstNode>⟧ SyntaxKind.FORMAT_ARGS_ARG }
    ensures pat_field { Views ⟦<ast::RecordPatField as AstNode>⟧ SyntaxKind.RECORD_PAT_FIELD }
    ensures ret_type { Views ⟦<ast::RetType as AstNode>⟧ SyntaxKind.RET_TYPE }
{}
