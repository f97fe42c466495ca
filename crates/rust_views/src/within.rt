//! Which views are within a view of several kinds. Made by `tools/views` from `views.txt`.
ghost use Rattle.std.proofs.Common.{refl};
ghost use Rattle.syntax_kind.specs.declared.syntax_kind.SyntaxKind.TheVariants.{Node};
ghost use Rattle.syntax_kind.specs.declared.syntax_kind.node_kind.NodeKind.TheVariants as node;
ghost use Rattle.ra_ap_syntax.specs.Words.{has_kind};
ghost use Rattle.rust_views.specs.Sets.{has_arg_list, has_generic_args, has_loop_body, has_module_item, has_name, has_type_bounds, has_visibility};

use crate::{
    AnyHasArgList, AnyHasGenericArgs, AnyHasLoopBody, AnyHasModuleItem, AnyHasName,
    AnyHasTypeBounds, AnyHasVisibility,
};
use ra_ap_syntax::ast::{self, Within};

impl Within<AnyHasArgList> for ast::CallExpr {
    ghost within = { λ k. has_kind has_arg_list (Node node.CALL_EXPR) k refl };
}

impl Within<AnyHasArgList> for ast::MethodCallExpr {
    ghost within = { λ k. has_kind has_arg_list (Node node.METHOD_CALL_EXPR) k refl };
}

impl Within<AnyHasGenericArgs> for ast::AssocTypeArg {
    ghost within = { λ k. has_kind has_generic_args (Node node.ASSOC_TYPE_ARG) k refl };
}

impl Within<AnyHasGenericArgs> for ast::MethodCallExpr {
    ghost within = { λ k. has_kind has_generic_args (Node node.METHOD_CALL_EXPR) k refl };
}

impl Within<AnyHasGenericArgs> for ast::PathSegment {
    ghost within = { λ k. has_kind has_generic_args (Node node.PATH_SEGMENT) k refl };
}

impl Within<AnyHasLoopBody> for ast::ForExpr {
    ghost within = { λ k. has_kind has_loop_body (Node node.FOR_EXPR) k refl };
}

impl Within<AnyHasLoopBody> for ast::LoopExpr {
    ghost within = { λ k. has_kind has_loop_body (Node node.LOOP_EXPR) k refl };
}

impl Within<AnyHasLoopBody> for ast::WhileExpr {
    ghost within = { λ k. has_kind has_loop_body (Node node.WHILE_EXPR) k refl };
}

impl Within<AnyHasModuleItem> for ast::ItemList {
    ghost within = { λ k. has_kind has_module_item (Node node.ITEM_LIST) k refl };
}

impl Within<AnyHasModuleItem> for ast::SourceFile {
    ghost within = { λ k. has_kind has_module_item (Node node.SOURCE_FILE) k refl };
}

impl Within<AnyHasModuleItem> for ast::StmtList {
    ghost within = { λ k. has_kind has_module_item (Node node.STMT_LIST) k refl };
}

impl Within<AnyHasName> for ast::Const {
    ghost within = { λ k. has_kind has_name (Node node.CONST) k refl };
}

impl Within<AnyHasName> for ast::ConstParam {
    ghost within = { λ k. has_kind has_name (Node node.CONST_PARAM) k refl };
}

impl Within<AnyHasName> for ast::Enum {
    ghost within = { λ k. has_kind has_name (Node node.ENUM) k refl };
}

impl Within<AnyHasName> for ast::Fn {
    ghost within = { λ k. has_kind has_name (Node node.FN) k refl };
}

impl Within<AnyHasName> for ast::IdentPat {
    ghost within = { λ k. has_kind has_name (Node node.IDENT_PAT) k refl };
}

impl Within<AnyHasName> for ast::MacroDef {
    ghost within = { λ k. has_kind has_name (Node node.MACRO_DEF) k refl };
}

impl Within<AnyHasName> for ast::MacroRules {
    ghost within = { λ k. has_kind has_name (Node node.MACRO_RULES) k refl };
}

impl Within<AnyHasName> for ast::Module {
    ghost within = { λ k. has_kind has_name (Node node.MODULE) k refl };
}

impl Within<AnyHasName> for ast::RecordField {
    ghost within = { λ k. has_kind has_name (Node node.RECORD_FIELD) k refl };
}

impl Within<AnyHasName> for ast::SelfParam {
    ghost within = { λ k. has_kind has_name (Node node.SELF_PARAM) k refl };
}

impl Within<AnyHasName> for ast::Static {
    ghost within = { λ k. has_kind has_name (Node node.STATIC) k refl };
}

impl Within<AnyHasName> for ast::Struct {
    ghost within = { λ k. has_kind has_name (Node node.STRUCT) k refl };
}

impl Within<AnyHasName> for ast::Trait {
    ghost within = { λ k. has_kind has_name (Node node.TRAIT) k refl };
}

impl Within<AnyHasName> for ast::TypeAlias {
    ghost within = { λ k. has_kind has_name (Node node.TYPE_ALIAS) k refl };
}

impl Within<AnyHasName> for ast::TypeParam {
    ghost within = { λ k. has_kind has_name (Node node.TYPE_PARAM) k refl };
}

impl Within<AnyHasName> for ast::Union {
    ghost within = { λ k. has_kind has_name (Node node.UNION) k refl };
}

impl Within<AnyHasName> for ast::Variant {
    ghost within = { λ k. has_kind has_name (Node node.VARIANT) k refl };
}

impl Within<AnyHasTypeBounds> for ast::AssocTypeArg {
    ghost within = { λ k. has_kind has_type_bounds (Node node.ASSOC_TYPE_ARG) k refl };
}

impl Within<AnyHasTypeBounds> for ast::LifetimeParam {
    ghost within = { λ k. has_kind has_type_bounds (Node node.LIFETIME_PARAM) k refl };
}

impl Within<AnyHasTypeBounds> for ast::Trait {
    ghost within = { λ k. has_kind has_type_bounds (Node node.TRAIT) k refl };
}

impl Within<AnyHasTypeBounds> for ast::TypeAlias {
    ghost within = { λ k. has_kind has_type_bounds (Node node.TYPE_ALIAS) k refl };
}

impl Within<AnyHasTypeBounds> for ast::TypeParam {
    ghost within = { λ k. has_kind has_type_bounds (Node node.TYPE_PARAM) k refl };
}

impl Within<AnyHasTypeBounds> for ast::WherePred {
    ghost within = { λ k. has_kind has_type_bounds (Node node.WHERE_PRED) k refl };
}

impl Within<AnyHasVisibility> for ast::Const {
    ghost within = { λ k. has_kind has_visibility (Node node.CONST) k refl };
}

impl Within<AnyHasVisibility> for ast::Enum {
    ghost within = { λ k. has_kind has_visibility (Node node.ENUM) k refl };
}

impl Within<AnyHasVisibility> for ast::ExternCrate {
    ghost within = { λ k. has_kind has_visibility (Node node.EXTERN_CRATE) k refl };
}

impl Within<AnyHasVisibility> for ast::Fn {
    ghost within = { λ k. has_kind has_visibility (Node node.FN) k refl };
}

impl Within<AnyHasVisibility> for ast::Impl {
    ghost within = { λ k. has_kind has_visibility (Node node.IMPL) k refl };
}

impl Within<AnyHasVisibility> for ast::MacroDef {
    ghost within = { λ k. has_kind has_visibility (Node node.MACRO_DEF) k refl };
}

impl Within<AnyHasVisibility> for ast::MacroRules {
    ghost within = { λ k. has_kind has_visibility (Node node.MACRO_RULES) k refl };
}

impl Within<AnyHasVisibility> for ast::Module {
    ghost within = { λ k. has_kind has_visibility (Node node.MODULE) k refl };
}

impl Within<AnyHasVisibility> for ast::RecordField {
    ghost within = { λ k. has_kind has_visibility (Node node.RECORD_FIELD) k refl };
}

impl Within<AnyHasVisibility> for ast::Static {
    ghost within = { λ k. has_kind has_visibility (Node node.STATIC) k refl };
}

impl Within<AnyHasVisibility> for ast::Struct {
    ghost within = { λ k. has_kind has_visibility (Node node.STRUCT) k refl };
}

impl Within<AnyHasVisibility> for ast::Trait {
    ghost within = { λ k. has_kind has_visibility (Node node.TRAIT) k refl };
}

impl Within<AnyHasVisibility> for ast::TupleField {
    ghost within = { λ k. has_kind has_visibility (Node node.TUPLE_FIELD) k refl };
}

impl Within<AnyHasVisibility> for ast::TypeAlias {
    ghost within = { λ k. has_kind has_visibility (Node node.TYPE_ALIAS) k refl };
}

impl Within<AnyHasVisibility> for ast::Union {
    ghost within = { λ k. has_kind has_visibility (Node node.UNION) k refl };
}

impl Within<AnyHasVisibility> for ast::Use {
    ghost within = { λ k. has_kind has_visibility (Node node.USE) k refl };
}

impl Within<AnyHasVisibility> for ast::Variant {
    ghost within = { λ k. has_kind has_visibility (Node node.VARIANT) k refl };
}
