// Plain lookups of shared traits. Made by `tools/views` from `views.txt`.
use crate::sheet::Sheet;
use ra_ap_syntax::SyntaxNode;
use ra_ap_syntax::ast::{
    self, HasArgList, HasGenericArgs, HasGenericParams, HasLoopBody, HasModuleItem, HasName,
    HasTypeBounds, HasVisibility, cast_ref,
};
use std::alloc::AllocError;

/// Prints the results, for a node, of the plain lookups of shared traits.
pub fn answers(sheet: &mut Sheet, node: &SyntaxNode) -> Result<(), AllocError> {
    of_has_name(sheet, node)?;
    of_has_visibility(sheet, node)?;
    of_has_loop_body(sheet, node)?;
    of_has_arg_list(sheet, node)?;
    of_has_module_item(sheet, node)?;
    of_has_generic_params(sheet, node)?;
    of_has_generic_args(sheet, node)?;
    of_has_type_bounds(sheet, node)
}

fn has_name<N: HasName + Drop>(
    sheet: &mut Sheet,
    node: &SyntaxNode,
    name: &str,
) -> Result<(), AllocError> {
    let Some(it) = cast_ref::<N>(node) else {
        return Ok(());
    };
    sheet.node(name, it.name())
}

fn of_has_name(sheet: &mut Sheet, node: &SyntaxNode) -> Result<(), AllocError> {
    has_name::<ast::Const>(sheet, node, "Const.name")?;
    has_name::<ast::ConstParam>(sheet, node, "ConstParam.name")?;
    has_name::<ast::Enum>(sheet, node, "Enum.name")?;
    has_name::<ast::Fn>(sheet, node, "Fn.name")?;
    has_name::<ast::IdentPat>(sheet, node, "IdentPat.name")?;
    has_name::<ast::Macro>(sheet, node, "Macro.name")?;
    has_name::<ast::MacroDef>(sheet, node, "MacroDef.name")?;
    has_name::<ast::MacroRules>(sheet, node, "MacroRules.name")?;
    from_has_name_of_module(sheet, node)
}

fn from_has_name_of_module(sheet: &mut Sheet, node: &SyntaxNode) -> Result<(), AllocError> {
    has_name::<ast::Module>(sheet, node, "Module.name")?;
    has_name::<ast::RecordField>(sheet, node, "RecordField.name")?;
    has_name::<ast::SelfParam>(sheet, node, "SelfParam.name")?;
    has_name::<ast::Static>(sheet, node, "Static.name")?;
    has_name::<ast::Struct>(sheet, node, "Struct.name")?;
    has_name::<ast::Trait>(sheet, node, "Trait.name")?;
    has_name::<ast::TypeAlias>(sheet, node, "TypeAlias.name")?;
    has_name::<ast::TypeParam>(sheet, node, "TypeParam.name")?;
    from_has_name_of_union(sheet, node)
}

fn from_has_name_of_union(sheet: &mut Sheet, node: &SyntaxNode) -> Result<(), AllocError> {
    has_name::<ast::Union>(sheet, node, "Union.name")?;
    has_name::<ast::Variant>(sheet, node, "Variant.name")
}

fn has_visibility<N: HasVisibility + Drop>(
    sheet: &mut Sheet,
    node: &SyntaxNode,
    visibility: &str,
) -> Result<(), AllocError> {
    let Some(it) = cast_ref::<N>(node) else {
        return Ok(());
    };
    sheet.node(visibility, it.visibility())
}

fn of_has_visibility(sheet: &mut Sheet, node: &SyntaxNode) -> Result<(), AllocError> {
    has_visibility::<ast::Const>(sheet, node, "Const.visibility")?;
    has_visibility::<ast::Enum>(sheet, node, "Enum.visibility")?;
    has_visibility::<ast::ExternCrate>(sheet, node, "ExternCrate.visibility")?;
    has_visibility::<ast::Fn>(sheet, node, "Fn.visibility")?;
    has_visibility::<ast::Impl>(sheet, node, "Impl.visibility")?;
    has_visibility::<ast::MacroDef>(sheet, node, "MacroDef.visibility")?;
    has_visibility::<ast::MacroRules>(sheet, node, "MacroRules.visibility")?;
    has_visibility::<ast::Module>(sheet, node, "Module.visibility")?;
    from_has_visibility_of_record_field(sheet, node)
}

fn from_has_visibility_of_record_field(
    sheet: &mut Sheet,
    node: &SyntaxNode,
) -> Result<(), AllocError> {
    has_visibility::<ast::RecordField>(sheet, node, "RecordField.visibility")?;
    has_visibility::<ast::Static>(sheet, node, "Static.visibility")?;
    has_visibility::<ast::Struct>(sheet, node, "Struct.visibility")?;
    has_visibility::<ast::Trait>(sheet, node, "Trait.visibility")?;
    has_visibility::<ast::TupleField>(sheet, node, "TupleField.visibility")?;
    has_visibility::<ast::TypeAlias>(sheet, node, "TypeAlias.visibility")?;
    has_visibility::<ast::Union>(sheet, node, "Union.visibility")?;
    has_visibility::<ast::Use>(sheet, node, "Use.visibility")?;
    from_has_visibility_of_variant(sheet, node)
}

fn from_has_visibility_of_variant(sheet: &mut Sheet, node: &SyntaxNode) -> Result<(), AllocError> {
    has_visibility::<ast::Variant>(sheet, node, "Variant.visibility")
}

fn has_loop_body<N: HasLoopBody + Drop>(
    sheet: &mut Sheet,
    node: &SyntaxNode,
    label: &str,
) -> Result<(), AllocError> {
    let Some(it) = cast_ref::<N>(node) else {
        return Ok(());
    };
    sheet.node(label, it.label())
}

fn of_has_loop_body(sheet: &mut Sheet, node: &SyntaxNode) -> Result<(), AllocError> {
    has_loop_body::<ast::ForExpr>(sheet, node, "ForExpr.label")?;
    has_loop_body::<ast::LoopExpr>(sheet, node, "LoopExpr.label")?;
    has_loop_body::<ast::WhileExpr>(sheet, node, "WhileExpr.label")
}

fn has_arg_list<N: HasArgList + Drop>(
    sheet: &mut Sheet,
    node: &SyntaxNode,
    arg_list: &str,
) -> Result<(), AllocError> {
    let Some(it) = cast_ref::<N>(node) else {
        return Ok(());
    };
    sheet.node(arg_list, it.arg_list())
}

fn of_has_arg_list(sheet: &mut Sheet, node: &SyntaxNode) -> Result<(), AllocError> {
    has_arg_list::<ast::CallExpr>(sheet, node, "CallExpr.arg_list")?;
    has_arg_list::<ast::CallableExpr>(sheet, node, "CallableExpr.arg_list")?;
    has_arg_list::<ast::MethodCallExpr>(sheet, node, "MethodCallExpr.arg_list")
}

fn has_module_item<N: HasModuleItem + Drop>(
    sheet: &mut Sheet,
    node: &SyntaxNode,
    items: &str,
) -> Result<(), AllocError> {
    let Some(it) = cast_ref::<N>(node) else {
        return Ok(());
    };
    sheet.nodes(items, it.items())
}

fn of_has_module_item(sheet: &mut Sheet, node: &SyntaxNode) -> Result<(), AllocError> {
    has_module_item::<ast::ItemList>(sheet, node, "ItemList.items")?;
    has_module_item::<ast::SourceFile>(sheet, node, "SourceFile.items")?;
    has_module_item::<ast::StmtList>(sheet, node, "StmtList.items")
}

fn has_generic_params<N: HasGenericParams + Drop>(
    sheet: &mut Sheet,
    node: &SyntaxNode,
    generic_param_list: &str,
    where_clause: &str,
) -> Result<(), AllocError> {
    let Some(it) = cast_ref::<N>(node) else {
        return Ok(());
    };
    sheet.node(generic_param_list, it.generic_param_list())?;
    sheet.node(where_clause, it.where_clause())
}

fn of_has_generic_params(sheet: &mut Sheet, node: &SyntaxNode) -> Result<(), AllocError> {
    has_generic_params::<ast::AnyHasGenericParams>(
        sheet,
        node,
        "AnyHasGenericParams.generic_param_list",
        "AnyHasGenericParams.where_clause",
    )
}

fn has_generic_args<N: HasGenericArgs + Drop>(
    sheet: &mut Sheet,
    node: &SyntaxNode,
    generic_arg_list: &str,
) -> Result<(), AllocError> {
    let Some(it) = cast_ref::<N>(node) else {
        return Ok(());
    };
    sheet.node(generic_arg_list, it.generic_arg_list())
}

fn of_has_generic_args(sheet: &mut Sheet, node: &SyntaxNode) -> Result<(), AllocError> {
    has_generic_args::<ast::AssocTypeArg>(sheet, node, "AssocTypeArg.generic_arg_list")?;
    has_generic_args::<ast::MethodCallExpr>(sheet, node, "MethodCallExpr.generic_arg_list")?;
    has_generic_args::<ast::PathSegment>(sheet, node, "PathSegment.generic_arg_list")
}

fn has_type_bounds<N: HasTypeBounds + Drop>(
    sheet: &mut Sheet,
    node: &SyntaxNode,
    type_bound_list: &str,
    colon_token: &str,
) -> Result<(), AllocError> {
    let Some(it) = cast_ref::<N>(node) else {
        return Ok(());
    };
    sheet.node(type_bound_list, it.type_bound_list())?;
    sheet.token(colon_token, it.colon_token())
}

fn of_has_type_bounds(sheet: &mut Sheet, node: &SyntaxNode) -> Result<(), AllocError> {
    has_type_bounds::<ast::AssocTypeArg>(
        sheet,
        node,
        "AssocTypeArg.type_bound_list",
        "AssocTypeArg.colon_token",
    )?;
    has_type_bounds::<ast::LifetimeParam>(
        sheet,
        node,
        "LifetimeParam.type_bound_list",
        "LifetimeParam.colon_token",
    )?;
    has_type_bounds::<ast::Trait>(sheet, node, "Trait.type_bound_list", "Trait.colon_token")?;
    has_type_bounds::<ast::TypeAlias>(
        sheet,
        node,
        "TypeAlias.type_bound_list",
        "TypeAlias.colon_token",
    )?;
    has_type_bounds::<ast::TypeParam>(
        sheet,
        node,
        "TypeParam.type_bound_list",
        "TypeParam.colon_token",
    )?;
    has_type_bounds::<ast::WherePred>(
        sheet,
        node,
        "WherePred.type_bound_list",
        "WherePred.colon_token",
    )
}
