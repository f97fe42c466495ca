//! The raw numbers, as [`SyntaxKind::to_raw`](crate::SyntaxKind::to_raw) returns them, of the kinds of nodes and of the
//! kinds of tokens that have a view. Each constant has the name of its kind. A view knows its kind by such a number.
use crate::{NodeKind, TokenKind};

// The number of the first kind of node; all kinds of tokens have smaller numbers.
const FIRST_NODE: u32 = 117;

pub const ARRAY_EXPR: u32 = FIRST_NODE + NodeKind::ARRAY_EXPR as u32;

pub const ASM_EXPR: u32 = FIRST_NODE + NodeKind::ASM_EXPR as u32;

pub const AWAIT_EXPR: u32 = FIRST_NODE + NodeKind::AWAIT_EXPR as u32;

pub const BECOME_EXPR: u32 = FIRST_NODE + NodeKind::BECOME_EXPR as u32;

pub const BIN_EXPR: u32 = FIRST_NODE + NodeKind::BIN_EXPR as u32;

pub const BLOCK_EXPR: u32 = FIRST_NODE + NodeKind::BLOCK_EXPR as u32;

pub const BREAK_EXPR: u32 = FIRST_NODE + NodeKind::BREAK_EXPR as u32;

pub const CALL_EXPR: u32 = FIRST_NODE + NodeKind::CALL_EXPR as u32;

pub const CAST_EXPR: u32 = FIRST_NODE + NodeKind::CAST_EXPR as u32;

pub const CFG_PRED_EXPR: u32 = FIRST_NODE + NodeKind::CFG_PRED_EXPR as u32;

pub const CLOSURE_EXPR: u32 = FIRST_NODE + NodeKind::CLOSURE_EXPR as u32;

pub const CONTINUE_EXPR: u32 = FIRST_NODE + NodeKind::CONTINUE_EXPR as u32;

pub const FIELD_EXPR: u32 = FIRST_NODE + NodeKind::FIELD_EXPR as u32;

pub const FOR_EXPR: u32 = FIRST_NODE + NodeKind::FOR_EXPR as u32;

pub const FORMAT_ARGS_EXPR: u32 = FIRST_NODE + NodeKind::FORMAT_ARGS_EXPR as u32;

pub const IF_EXPR: u32 = FIRST_NODE + NodeKind::IF_EXPR as u32;

pub const INCLUDE_BYTES_EXPR: u32 = FIRST_NODE + NodeKind::INCLUDE_BYTES_EXPR as u32;

pub const INDEX_EXPR: u32 = FIRST_NODE + NodeKind::INDEX_EXPR as u32;

pub const LET_EXPR: u32 = FIRST_NODE + NodeKind::LET_EXPR as u32;

pub const LITERAL: u32 = FIRST_NODE + NodeKind::LITERAL as u32;

pub const LOOP_EXPR: u32 = FIRST_NODE + NodeKind::LOOP_EXPR as u32;

pub const MACRO_EXPR: u32 = FIRST_NODE + NodeKind::MACRO_EXPR as u32;

pub const MATCH_EXPR: u32 = FIRST_NODE + NodeKind::MATCH_EXPR as u32;

pub const METHOD_CALL_EXPR: u32 = FIRST_NODE + NodeKind::METHOD_CALL_EXPR as u32;

pub const OFFSET_OF_EXPR: u32 = FIRST_NODE + NodeKind::OFFSET_OF_EXPR as u32;

pub const PAREN_EXPR: u32 = FIRST_NODE + NodeKind::PAREN_EXPR as u32;

pub const PATH_EXPR: u32 = FIRST_NODE + NodeKind::PATH_EXPR as u32;

pub const PREFIX_EXPR: u32 = FIRST_NODE + NodeKind::PREFIX_EXPR as u32;

pub const RANGE_EXPR: u32 = FIRST_NODE + NodeKind::RANGE_EXPR as u32;

pub const RECORD_EXPR: u32 = FIRST_NODE + NodeKind::RECORD_EXPR as u32;

pub const REF_EXPR: u32 = FIRST_NODE + NodeKind::REF_EXPR as u32;

pub const RETURN_EXPR: u32 = FIRST_NODE + NodeKind::RETURN_EXPR as u32;

pub const TRY_EXPR: u32 = FIRST_NODE + NodeKind::TRY_EXPR as u32;

pub const TUPLE_EXPR: u32 = FIRST_NODE + NodeKind::TUPLE_EXPR as u32;

pub const UNDERSCORE_EXPR: u32 = FIRST_NODE + NodeKind::UNDERSCORE_EXPR as u32;

pub const WHILE_EXPR: u32 = FIRST_NODE + NodeKind::WHILE_EXPR as u32;

pub const YEET_EXPR: u32 = FIRST_NODE + NodeKind::YEET_EXPR as u32;

pub const YIELD_EXPR: u32 = FIRST_NODE + NodeKind::YIELD_EXPR as u32;

pub const ARRAY_TYPE: u32 = FIRST_NODE + NodeKind::ARRAY_TYPE as u32;

pub const DYN_TRAIT_TYPE: u32 = FIRST_NODE + NodeKind::DYN_TRAIT_TYPE as u32;

pub const FN_PTR_TYPE: u32 = FIRST_NODE + NodeKind::FN_PTR_TYPE as u32;

pub const FOR_TYPE: u32 = FIRST_NODE + NodeKind::FOR_TYPE as u32;

pub const IMPL_TRAIT_TYPE: u32 = FIRST_NODE + NodeKind::IMPL_TRAIT_TYPE as u32;

pub const INFER_TYPE: u32 = FIRST_NODE + NodeKind::INFER_TYPE as u32;

pub const MACRO_TYPE: u32 = FIRST_NODE + NodeKind::MACRO_TYPE as u32;

pub const NEVER_TYPE: u32 = FIRST_NODE + NodeKind::NEVER_TYPE as u32;

pub const PAREN_TYPE: u32 = FIRST_NODE + NodeKind::PAREN_TYPE as u32;

pub const PATH_TYPE: u32 = FIRST_NODE + NodeKind::PATH_TYPE as u32;

pub const PTR_TYPE: u32 = FIRST_NODE + NodeKind::PTR_TYPE as u32;

pub const REF_TYPE: u32 = FIRST_NODE + NodeKind::REF_TYPE as u32;

pub const SLICE_TYPE: u32 = FIRST_NODE + NodeKind::SLICE_TYPE as u32;

pub const TUPLE_TYPE: u32 = FIRST_NODE + NodeKind::TUPLE_TYPE as u32;

pub const BOX_PAT: u32 = FIRST_NODE + NodeKind::BOX_PAT as u32;

pub const CONST_BLOCK_PAT: u32 = FIRST_NODE + NodeKind::CONST_BLOCK_PAT as u32;

pub const IDENT_PAT: u32 = FIRST_NODE + NodeKind::IDENT_PAT as u32;

pub const LITERAL_PAT: u32 = FIRST_NODE + NodeKind::LITERAL_PAT as u32;

pub const MACRO_PAT: u32 = FIRST_NODE + NodeKind::MACRO_PAT as u32;

pub const OR_PAT: u32 = FIRST_NODE + NodeKind::OR_PAT as u32;

pub const PAREN_PAT: u32 = FIRST_NODE + NodeKind::PAREN_PAT as u32;

pub const PATH_PAT: u32 = FIRST_NODE + NodeKind::PATH_PAT as u32;

pub const RANGE_PAT: u32 = FIRST_NODE + NodeKind::RANGE_PAT as u32;

pub const RECORD_PAT: u32 = FIRST_NODE + NodeKind::RECORD_PAT as u32;

pub const REF_PAT: u32 = FIRST_NODE + NodeKind::REF_PAT as u32;

pub const REST_PAT: u32 = FIRST_NODE + NodeKind::REST_PAT as u32;

pub const SLICE_PAT: u32 = FIRST_NODE + NodeKind::SLICE_PAT as u32;

pub const TUPLE_PAT: u32 = FIRST_NODE + NodeKind::TUPLE_PAT as u32;

pub const TUPLE_STRUCT_PAT: u32 = FIRST_NODE + NodeKind::TUPLE_STRUCT_PAT as u32;

pub const WILDCARD_PAT: u32 = FIRST_NODE + NodeKind::WILDCARD_PAT as u32;

pub const CONST: u32 = FIRST_NODE + NodeKind::CONST as u32;

pub const ENUM: u32 = FIRST_NODE + NodeKind::ENUM as u32;

pub const EXTERN_BLOCK: u32 = FIRST_NODE + NodeKind::EXTERN_BLOCK as u32;

pub const EXTERN_CRATE: u32 = FIRST_NODE + NodeKind::EXTERN_CRATE as u32;

pub const FN: u32 = FIRST_NODE + NodeKind::FN as u32;

pub const IMPL: u32 = FIRST_NODE + NodeKind::IMPL as u32;

pub const MACRO_CALL: u32 = FIRST_NODE + NodeKind::MACRO_CALL as u32;

pub const MACRO_DEF: u32 = FIRST_NODE + NodeKind::MACRO_DEF as u32;

pub const MACRO_RULES: u32 = FIRST_NODE + NodeKind::MACRO_RULES as u32;

pub const MODULE: u32 = FIRST_NODE + NodeKind::MODULE as u32;

pub const STATIC: u32 = FIRST_NODE + NodeKind::STATIC as u32;

pub const STRUCT: u32 = FIRST_NODE + NodeKind::STRUCT as u32;

pub const TRAIT: u32 = FIRST_NODE + NodeKind::TRAIT as u32;

pub const TYPE_ALIAS: u32 = FIRST_NODE + NodeKind::TYPE_ALIAS as u32;

pub const UNION: u32 = FIRST_NODE + NodeKind::UNION as u32;

pub const USE: u32 = FIRST_NODE + NodeKind::USE as u32;

pub const CFG_ATTR_META: u32 = FIRST_NODE + NodeKind::CFG_ATTR_META as u32;

pub const CFG_META: u32 = FIRST_NODE + NodeKind::CFG_META as u32;

pub const KEY_VALUE_META: u32 = FIRST_NODE + NodeKind::KEY_VALUE_META as u32;

pub const PATH_META: u32 = FIRST_NODE + NodeKind::PATH_META as u32;

pub const TOKEN_TREE_META: u32 = FIRST_NODE + NodeKind::TOKEN_TREE_META as u32;

pub const UNSAFE_META: u32 = FIRST_NODE + NodeKind::UNSAFE_META as u32;

pub const LIFETIME_PARAM: u32 = FIRST_NODE + NodeKind::LIFETIME_PARAM as u32;

pub const TYPE_PARAM: u32 = FIRST_NODE + NodeKind::TYPE_PARAM as u32;

pub const CONST_PARAM: u32 = FIRST_NODE + NodeKind::CONST_PARAM as u32;

pub const TYPE_ARG: u32 = FIRST_NODE + NodeKind::TYPE_ARG as u32;

pub const ASSOC_TYPE_ARG: u32 = FIRST_NODE + NodeKind::ASSOC_TYPE_ARG as u32;

pub const LIFETIME_ARG: u32 = FIRST_NODE + NodeKind::LIFETIME_ARG as u32;

pub const CONST_ARG: u32 = FIRST_NODE + NodeKind::CONST_ARG as u32;

pub const EXPR_STMT: u32 = FIRST_NODE + NodeKind::EXPR_STMT as u32;

pub const LET_STMT: u32 = FIRST_NODE + NodeKind::LET_STMT as u32;

pub const SOURCE_FILE: u32 = FIRST_NODE + NodeKind::SOURCE_FILE as u32;

pub const NAME: u32 = FIRST_NODE + NodeKind::NAME as u32;

pub const NAME_REF: u32 = FIRST_NODE + NodeKind::NAME_REF as u32;

pub const LIFETIME: u32 = FIRST_NODE + NodeKind::LIFETIME as u32;

pub const PATH: u32 = FIRST_NODE + NodeKind::PATH as u32;

pub const PATH_SEGMENT: u32 = FIRST_NODE + NodeKind::PATH_SEGMENT as u32;

pub const TYPE_ANCHOR: u32 = FIRST_NODE + NodeKind::TYPE_ANCHOR as u32;

pub const ARG_LIST: u32 = FIRST_NODE + NodeKind::ARG_LIST as u32;

pub const PARAM_LIST: u32 = FIRST_NODE + NodeKind::PARAM_LIST as u32;

pub const PARAM: u32 = FIRST_NODE + NodeKind::PARAM as u32;

pub const SELF_PARAM: u32 = FIRST_NODE + NodeKind::SELF_PARAM as u32;

pub const RET_TYPE: u32 = FIRST_NODE + NodeKind::RET_TYPE as u32;

pub const STMT_LIST: u32 = FIRST_NODE + NodeKind::STMT_LIST as u32;

pub const LABEL: u32 = FIRST_NODE + NodeKind::LABEL as u32;

pub const TRY_BLOCK_MODIFIER: u32 = FIRST_NODE + NodeKind::TRY_BLOCK_MODIFIER as u32;

pub const LET_ELSE: u32 = FIRST_NODE + NodeKind::LET_ELSE as u32;

pub const MATCH_ARM_LIST: u32 = FIRST_NODE + NodeKind::MATCH_ARM_LIST as u32;

pub const MATCH_ARM: u32 = FIRST_NODE + NodeKind::MATCH_ARM as u32;

pub const MATCH_GUARD: u32 = FIRST_NODE + NodeKind::MATCH_GUARD as u32;

pub const RECORD_EXPR_FIELD: u32 = FIRST_NODE + NodeKind::RECORD_EXPR_FIELD as u32;

pub const RECORD_PAT_FIELD: u32 = FIRST_NODE + NodeKind::RECORD_PAT_FIELD as u32;

pub const FORMAT_ARGS_ARG: u32 = FIRST_NODE + NodeKind::FORMAT_ARGS_ARG as u32;

pub const ABI: u32 = FIRST_NODE + NodeKind::ABI as u32;

pub const ATTR: u32 = FIRST_NODE + NodeKind::ATTR as u32;

pub const DOC_COMMENT: u32 = FIRST_NODE + NodeKind::DOC_COMMENT as u32;

pub const CFG_ATOM: u32 = FIRST_NODE + NodeKind::CFG_ATOM as u32;

pub const USE_TREE: u32 = FIRST_NODE + NodeKind::USE_TREE as u32;

pub const USE_TREE_LIST: u32 = FIRST_NODE + NodeKind::USE_TREE_LIST as u32;

pub const RECORD_FIELD_LIST: u32 = FIRST_NODE + NodeKind::RECORD_FIELD_LIST as u32;

pub const RECORD_FIELD: u32 = FIRST_NODE + NodeKind::RECORD_FIELD as u32;

pub const TUPLE_FIELD_LIST: u32 = FIRST_NODE + NodeKind::TUPLE_FIELD_LIST as u32;

pub const TUPLE_FIELD: u32 = FIRST_NODE + NodeKind::TUPLE_FIELD as u32;

pub const VARIANT: u32 = FIRST_NODE + NodeKind::VARIANT as u32;

pub const ITEM_LIST: u32 = FIRST_NODE + NodeKind::ITEM_LIST as u32;

pub const ASSOC_ITEM_LIST: u32 = FIRST_NODE + NodeKind::ASSOC_ITEM_LIST as u32;

pub const EXTERN_ITEM_LIST: u32 = FIRST_NODE + NodeKind::EXTERN_ITEM_LIST as u32;

pub const TYPE_BOUND: u32 = FIRST_NODE + NodeKind::TYPE_BOUND as u32;

pub const TYPE_BOUND_LIST: u32 = FIRST_NODE + NodeKind::TYPE_BOUND_LIST as u32;

pub const USE_BOUND_GENERIC_ARGS: u32 = FIRST_NODE + NodeKind::USE_BOUND_GENERIC_ARGS as u32;

pub const FOR_BINDER: u32 = FIRST_NODE + NodeKind::FOR_BINDER as u32;

pub const GENERIC_PARAM_LIST: u32 = FIRST_NODE + NodeKind::GENERIC_PARAM_LIST as u32;

pub const GENERIC_ARG_LIST: u32 = FIRST_NODE + NodeKind::GENERIC_ARG_LIST as u32;

pub const WHERE_CLAUSE: u32 = FIRST_NODE + NodeKind::WHERE_CLAUSE as u32;

pub const WHERE_PRED: u32 = FIRST_NODE + NodeKind::WHERE_PRED as u32;

pub const VISIBILITY: u32 = FIRST_NODE + NodeKind::VISIBILITY as u32;

pub const VISIBILITY_INNER: u32 = FIRST_NODE + NodeKind::VISIBILITY_INNER as u32;

pub const TOKEN_TREE: u32 = FIRST_NODE + NodeKind::TOKEN_TREE as u32;

pub const MACRO_STMTS: u32 = FIRST_NODE + NodeKind::MACRO_STMTS as u32;

pub const WHITESPACE: u32 = TokenKind::WHITESPACE as u32;

pub const COMMENT: u32 = TokenKind::COMMENT as u32;

pub const STRING: u32 = TokenKind::STRING as u32;

pub const BYTE_STRING: u32 = TokenKind::BYTE_STRING as u32;

pub const C_STRING: u32 = TokenKind::C_STRING as u32;

pub const INT_NUMBER: u32 = TokenKind::INT_NUMBER as u32;

pub const FLOAT_NUMBER: u32 = TokenKind::FLOAT_NUMBER as u32;

pub const CHAR: u32 = TokenKind::CHAR as u32;

pub const BYTE: u32 = TokenKind::BYTE as u32;
