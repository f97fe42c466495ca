//! Which views are within a view of several kinds. Made by `tools/views` from `views.txt`.
ghost use Rattle.std.proofs.Common.{refl};
ghost use Rattle.syntax_kind.specs.declared.syntax_kind.SyntaxKind.TheVariants.{Node};
ghost use Rattle.syntax_kind.specs.declared.syntax_kind.node_kind.NodeKind.TheVariants as node;
ghost use Rattle.ra_ap_syntax.specs.Words.{has_kind};
ghost use Rattle.ras_node.specs.Sets.{has_attrs, has_generic_params};

use crate::ast::{self, AnyHasAttrs, AnyHasGenericParams, Within};

impl Within<AnyHasAttrs> for ast::ArrayExpr {
    ghost within = { λ k. has_kind has_attrs (Node node.ARRAY_EXPR) k refl };
}

impl Within<AnyHasAttrs> for ast::AsmExpr {
    ghost within = { λ k. has_kind has_attrs (Node node.ASM_EXPR) k refl };
}

impl Within<AnyHasAttrs> for ast::AssocItemList {
    ghost within = { λ k. has_kind has_attrs (Node node.ASSOC_ITEM_LIST) k refl };
}

impl Within<AnyHasAttrs> for ast::AwaitExpr {
    ghost within = { λ k. has_kind has_attrs (Node node.AWAIT_EXPR) k refl };
}

impl Within<AnyHasAttrs> for ast::BecomeExpr {
    ghost within = { λ k. has_kind has_attrs (Node node.BECOME_EXPR) k refl };
}

impl Within<AnyHasAttrs> for ast::BinExpr {
    ghost within = { λ k. has_kind has_attrs (Node node.BIN_EXPR) k refl };
}

impl Within<AnyHasAttrs> for ast::BlockExpr {
    ghost within = { λ k. has_kind has_attrs (Node node.BLOCK_EXPR) k refl };
}

impl Within<AnyHasAttrs> for ast::BreakExpr {
    ghost within = { λ k. has_kind has_attrs (Node node.BREAK_EXPR) k refl };
}

impl Within<AnyHasAttrs> for ast::CallExpr {
    ghost within = { λ k. has_kind has_attrs (Node node.CALL_EXPR) k refl };
}

impl Within<AnyHasAttrs> for ast::CastExpr {
    ghost within = { λ k. has_kind has_attrs (Node node.CAST_EXPR) k refl };
}

impl Within<AnyHasAttrs> for ast::CfgPredExpr {
    ghost within = { λ k. has_kind has_attrs (Node node.CFG_PRED_EXPR) k refl };
}

impl Within<AnyHasAttrs> for ast::ClosureExpr {
    ghost within = { λ k. has_kind has_attrs (Node node.CLOSURE_EXPR) k refl };
}

impl Within<AnyHasAttrs> for ast::Const {
    ghost within = { λ k. has_kind has_attrs (Node node.CONST) k refl };
}

impl Within<AnyHasAttrs> for ast::ConstParam {
    ghost within = { λ k. has_kind has_attrs (Node node.CONST_PARAM) k refl };
}

impl Within<AnyHasAttrs> for ast::ContinueExpr {
    ghost within = { λ k. has_kind has_attrs (Node node.CONTINUE_EXPR) k refl };
}

impl Within<AnyHasAttrs> for ast::Enum {
    ghost within = { λ k. has_kind has_attrs (Node node.ENUM) k refl };
}

impl Within<AnyHasAttrs> for ast::ExternBlock {
    ghost within = { λ k. has_kind has_attrs (Node node.EXTERN_BLOCK) k refl };
}

impl Within<AnyHasAttrs> for ast::ExternCrate {
    ghost within = { λ k. has_kind has_attrs (Node node.EXTERN_CRATE) k refl };
}

impl Within<AnyHasAttrs> for ast::ExternItemList {
    ghost within = { λ k. has_kind has_attrs (Node node.EXTERN_ITEM_LIST) k refl };
}

impl Within<AnyHasAttrs> for ast::FieldExpr {
    ghost within = { λ k. has_kind has_attrs (Node node.FIELD_EXPR) k refl };
}

impl Within<AnyHasAttrs> for ast::Fn {
    ghost within = { λ k. has_kind has_attrs (Node node.FN) k refl };
}

impl Within<AnyHasAttrs> for ast::ForExpr {
    ghost within = { λ k. has_kind has_attrs (Node node.FOR_EXPR) k refl };
}

impl Within<AnyHasAttrs> for ast::FormatArgsExpr {
    ghost within = { λ k. has_kind has_attrs (Node node.FORMAT_ARGS_EXPR) k refl };
}

impl Within<AnyHasAttrs> for ast::IfExpr {
    ghost within = { λ k. has_kind has_attrs (Node node.IF_EXPR) k refl };
}

impl Within<AnyHasAttrs> for ast::Impl {
    ghost within = { λ k. has_kind has_attrs (Node node.IMPL) k refl };
}

impl Within<AnyHasAttrs> for ast::IncludeBytesExpr {
    ghost within = { λ k. has_kind has_attrs (Node node.INCLUDE_BYTES_EXPR) k refl };
}

impl Within<AnyHasAttrs> for ast::IndexExpr {
    ghost within = { λ k. has_kind has_attrs (Node node.INDEX_EXPR) k refl };
}

impl Within<AnyHasAttrs> for ast::ItemList {
    ghost within = { λ k. has_kind has_attrs (Node node.ITEM_LIST) k refl };
}

impl Within<AnyHasAttrs> for ast::LetExpr {
    ghost within = { λ k. has_kind has_attrs (Node node.LET_EXPR) k refl };
}

impl Within<AnyHasAttrs> for ast::LetStmt {
    ghost within = { λ k. has_kind has_attrs (Node node.LET_STMT) k refl };
}

impl Within<AnyHasAttrs> for ast::LifetimeParam {
    ghost within = { λ k. has_kind has_attrs (Node node.LIFETIME_PARAM) k refl };
}

impl Within<AnyHasAttrs> for ast::Literal {
    ghost within = { λ k. has_kind has_attrs (Node node.LITERAL) k refl };
}

impl Within<AnyHasAttrs> for ast::LoopExpr {
    ghost within = { λ k. has_kind has_attrs (Node node.LOOP_EXPR) k refl };
}

impl Within<AnyHasAttrs> for ast::MacroCall {
    ghost within = { λ k. has_kind has_attrs (Node node.MACRO_CALL) k refl };
}

impl Within<AnyHasAttrs> for ast::MacroDef {
    ghost within = { λ k. has_kind has_attrs (Node node.MACRO_DEF) k refl };
}

impl Within<AnyHasAttrs> for ast::MacroExpr {
    ghost within = { λ k. has_kind has_attrs (Node node.MACRO_EXPR) k refl };
}

impl Within<AnyHasAttrs> for ast::MacroRules {
    ghost within = { λ k. has_kind has_attrs (Node node.MACRO_RULES) k refl };
}

impl Within<AnyHasAttrs> for ast::MatchArm {
    ghost within = { λ k. has_kind has_attrs (Node node.MATCH_ARM) k refl };
}

impl Within<AnyHasAttrs> for ast::MatchArmList {
    ghost within = { λ k. has_kind has_attrs (Node node.MATCH_ARM_LIST) k refl };
}

impl Within<AnyHasAttrs> for ast::MatchExpr {
    ghost within = { λ k. has_kind has_attrs (Node node.MATCH_EXPR) k refl };
}

impl Within<AnyHasAttrs> for ast::MethodCallExpr {
    ghost within = { λ k. has_kind has_attrs (Node node.METHOD_CALL_EXPR) k refl };
}

impl Within<AnyHasAttrs> for ast::Module {
    ghost within = { λ k. has_kind has_attrs (Node node.MODULE) k refl };
}

impl Within<AnyHasAttrs> for ast::OffsetOfExpr {
    ghost within = { λ k. has_kind has_attrs (Node node.OFFSET_OF_EXPR) k refl };
}

impl Within<AnyHasAttrs> for ast::Param {
    ghost within = { λ k. has_kind has_attrs (Node node.PARAM) k refl };
}

impl Within<AnyHasAttrs> for ast::ParenExpr {
    ghost within = { λ k. has_kind has_attrs (Node node.PAREN_EXPR) k refl };
}

impl Within<AnyHasAttrs> for ast::PathExpr {
    ghost within = { λ k. has_kind has_attrs (Node node.PATH_EXPR) k refl };
}

impl Within<AnyHasAttrs> for ast::PrefixExpr {
    ghost within = { λ k. has_kind has_attrs (Node node.PREFIX_EXPR) k refl };
}

impl Within<AnyHasAttrs> for ast::RangeExpr {
    ghost within = { λ k. has_kind has_attrs (Node node.RANGE_EXPR) k refl };
}

impl Within<AnyHasAttrs> for ast::RecordExpr {
    ghost within = { λ k. has_kind has_attrs (Node node.RECORD_EXPR) k refl };
}

impl Within<AnyHasAttrs> for ast::RecordExprField {
    ghost within = { λ k. has_kind has_attrs (Node node.RECORD_EXPR_FIELD) k refl };
}

impl Within<AnyHasAttrs> for ast::RecordField {
    ghost within = { λ k. has_kind has_attrs (Node node.RECORD_FIELD) k refl };
}

impl Within<AnyHasAttrs> for ast::RecordPatField {
    ghost within = { λ k. has_kind has_attrs (Node node.RECORD_PAT_FIELD) k refl };
}

impl Within<AnyHasAttrs> for ast::RefExpr {
    ghost within = { λ k. has_kind has_attrs (Node node.REF_EXPR) k refl };
}

impl Within<AnyHasAttrs> for ast::ReturnExpr {
    ghost within = { λ k. has_kind has_attrs (Node node.RETURN_EXPR) k refl };
}

impl Within<AnyHasAttrs> for ast::SelfParam {
    ghost within = { λ k. has_kind has_attrs (Node node.SELF_PARAM) k refl };
}

impl Within<AnyHasAttrs> for ast::SourceFile {
    ghost within = { λ k. has_kind has_attrs (Node node.SOURCE_FILE) k refl };
}

impl Within<AnyHasAttrs> for ast::Static {
    ghost within = { λ k. has_kind has_attrs (Node node.STATIC) k refl };
}

impl Within<AnyHasAttrs> for ast::StmtList {
    ghost within = { λ k. has_kind has_attrs (Node node.STMT_LIST) k refl };
}

impl Within<AnyHasAttrs> for ast::Struct {
    ghost within = { λ k. has_kind has_attrs (Node node.STRUCT) k refl };
}

impl Within<AnyHasAttrs> for ast::Trait {
    ghost within = { λ k. has_kind has_attrs (Node node.TRAIT) k refl };
}

impl Within<AnyHasAttrs> for ast::TryExpr {
    ghost within = { λ k. has_kind has_attrs (Node node.TRY_EXPR) k refl };
}

impl Within<AnyHasAttrs> for ast::TupleExpr {
    ghost within = { λ k. has_kind has_attrs (Node node.TUPLE_EXPR) k refl };
}

impl Within<AnyHasAttrs> for ast::TupleField {
    ghost within = { λ k. has_kind has_attrs (Node node.TUPLE_FIELD) k refl };
}

impl Within<AnyHasAttrs> for ast::TypeAlias {
    ghost within = { λ k. has_kind has_attrs (Node node.TYPE_ALIAS) k refl };
}

impl Within<AnyHasAttrs> for ast::TypeParam {
    ghost within = { λ k. has_kind has_attrs (Node node.TYPE_PARAM) k refl };
}

impl Within<AnyHasAttrs> for ast::UnderscoreExpr {
    ghost within = { λ k. has_kind has_attrs (Node node.UNDERSCORE_EXPR) k refl };
}

impl Within<AnyHasAttrs> for ast::Union {
    ghost within = { λ k. has_kind has_attrs (Node node.UNION) k refl };
}

impl Within<AnyHasAttrs> for ast::Use {
    ghost within = { λ k. has_kind has_attrs (Node node.USE) k refl };
}

impl Within<AnyHasAttrs> for ast::Variant {
    ghost within = { λ k. has_kind has_attrs (Node node.VARIANT) k refl };
}

impl Within<AnyHasAttrs> for ast::WhileExpr {
    ghost within = { λ k. has_kind has_attrs (Node node.WHILE_EXPR) k refl };
}

impl Within<AnyHasAttrs> for ast::YeetExpr {
    ghost within = { λ k. has_kind has_attrs (Node node.YEET_EXPR) k refl };
}

impl Within<AnyHasAttrs> for ast::YieldExpr {
    ghost within = { λ k. has_kind has_attrs (Node node.YIELD_EXPR) k refl };
}

impl Within<AnyHasGenericParams> for ast::Enum {
    ghost within = { λ k. has_kind has_generic_params (Node node.ENUM) k refl };
}

impl Within<AnyHasGenericParams> for ast::Fn {
    ghost within = { λ k. has_kind has_generic_params (Node node.FN) k refl };
}

impl Within<AnyHasGenericParams> for ast::Impl {
    ghost within = { λ k. has_kind has_generic_params (Node node.IMPL) k refl };
}

impl Within<AnyHasGenericParams> for ast::Struct {
    ghost within = { λ k. has_kind has_generic_params (Node node.STRUCT) k refl };
}

impl Within<AnyHasGenericParams> for ast::Trait {
    ghost within = { λ k. has_kind has_generic_params (Node node.TRAIT) k refl };
}

impl Within<AnyHasGenericParams> for ast::TypeAlias {
    ghost within = { λ k. has_kind has_generic_params (Node node.TYPE_ALIAS) k refl };
}

impl Within<AnyHasGenericParams> for ast::Union {
    ghost within = { λ k. has_kind has_generic_params (Node node.UNION) k refl };
}
