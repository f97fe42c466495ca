// Plain lookups in items. Made by `tools/views` from `views.txt`.
use crate::sheet::Sheet;
use ra_ap_syntax::SyntaxNode;
use ra_ap_syntax::ast::{self, AstNode, cast_ref};
use std::alloc::AllocError;

/// Prints the results, for a node, of the plain lookups in items.
pub fn answers(sheet: &mut Sheet, node: &SyntaxNode) -> Result<(), AllocError> {
    of_const(sheet, node)?;
    of_enum(sheet, node)?;
    of_extern_block(sheet, node)?;
    of_extern_crate(sheet, node)?;
    of_fn(sheet, node)?;
    of_impl(sheet, node)?;
    of_macro_call(sheet, node)?;
    of_macro_def(sheet, node)?;
    from_macro_rules(sheet, node)
}

fn from_macro_rules(sheet: &mut Sheet, node: &SyntaxNode) -> Result<(), AllocError> {
    of_macro_rules(sheet, node)?;
    of_module(sheet, node)?;
    of_static(sheet, node)?;
    of_struct(sheet, node)?;
    of_trait(sheet, node)?;
    of_type_alias(sheet, node)?;
    of_union(sheet, node)?;
    of_use(sheet, node)
}

fn of_const(sheet: &mut Sheet, node: &SyntaxNode) -> Result<(), AllocError> {
    let Some(it) = cast_ref::<ast::Const>(node) else {
        return Ok(());
    };
    sheet.node("Const.body", it.body())?;
    sheet.node("Const.ty", it.ty())?;
    sheet.token("Const.colon_token", it.colon_token())?;
    sheet.token("Const.const_token", it.const_token())?;
    rest_of_const(sheet, &it)
}

fn rest_of_const(sheet: &mut Sheet, it: &ast::Const) -> Result<(), AllocError> {
    sheet.token("Const.eq_token", it.eq_token())?;
    sheet.token("Const.semicolon_token", it.semicolon_token())?;
    sheet.token("Const.underscore_token", it.underscore_token())?;
    sheet.token("Const.default_token", it.default_token())
}

fn of_enum(sheet: &mut Sheet, node: &SyntaxNode) -> Result<(), AllocError> {
    let Some(it) = cast_ref::<ast::Enum>(node) else {
        return Ok(());
    };
    sheet.token("Enum.enum_token", it.enum_token())
}

fn of_extern_block(sheet: &mut Sheet, node: &SyntaxNode) -> Result<(), AllocError> {
    let Some(it) = cast_ref::<ast::ExternBlock>(node) else {
        return Ok(());
    };
    sheet.node("ExternBlock.abi", it.abi())?;
    sheet.node("ExternBlock.extern_item_list", it.extern_item_list())?;
    sheet.token("ExternBlock.unsafe_token", it.unsafe_token())
}

fn of_extern_crate(sheet: &mut Sheet, node: &SyntaxNode) -> Result<(), AllocError> {
    let Some(it) = cast_ref::<ast::ExternCrate>(node) else {
        return Ok(());
    };
    sheet.node("ExternCrate.name_ref", it.name_ref())?;
    sheet.token("ExternCrate.crate_token", it.crate_token())?;
    sheet.token("ExternCrate.extern_token", it.extern_token())?;
    sheet.token("ExternCrate.semicolon_token", it.semicolon_token())
}

fn of_fn(sheet: &mut Sheet, node: &SyntaxNode) -> Result<(), AllocError> {
    let Some(it) = cast_ref::<ast::Fn>(node) else {
        return Ok(());
    };
    sheet.node("Fn.body", it.body())?;
    sheet.node("Fn.param_list", it.param_list())?;
    sheet.node("Fn.ret_type", it.ret_type())?;
    sheet.token("Fn.fn_token", it.fn_token())?;
    rest_of_fn(sheet, &it)
}

fn rest_of_fn(sheet: &mut Sheet, it: &ast::Fn) -> Result<(), AllocError> {
    sheet.token("Fn.async_token", it.async_token())?;
    sheet.token("Fn.const_token", it.const_token())?;
    sheet.token("Fn.gen_token", it.gen_token())?;
    sheet.node("Fn.abi", it.abi())?;
    sheet.token("Fn.unsafe_token", it.unsafe_token())?;
    sheet.token("Fn.default_token", it.default_token())?;
    sheet.token("Fn.semicolon_token", it.semicolon_token())
}

fn of_impl(sheet: &mut Sheet, node: &SyntaxNode) -> Result<(), AllocError> {
    let Some(it) = cast_ref::<ast::Impl>(node) else {
        return Ok(());
    };
    sheet.node("Impl.assoc_item_list", it.assoc_item_list())?;
    sheet.token("Impl.for_token", it.for_token())?;
    sheet.token("Impl.impl_token", it.impl_token())?;
    sheet.token("Impl.excl_token", it.excl_token())?;
    rest_of_impl(sheet, &it)
}

fn rest_of_impl(sheet: &mut Sheet, it: &ast::Impl) -> Result<(), AllocError> {
    sheet.token("Impl.const_token", it.const_token())?;
    sheet.token("Impl.default_token", it.default_token())?;
    sheet.token("Impl.unsafe_token", it.unsafe_token())
}

fn of_macro_call(sheet: &mut Sheet, node: &SyntaxNode) -> Result<(), AllocError> {
    let Some(it) = cast_ref::<ast::MacroCall>(node) else {
        return Ok(());
    };
    sheet.node("MacroCall.path", it.path())?;
    sheet.node("MacroCall.token_tree", it.token_tree())?;
    sheet.token("MacroCall.excl_token", it.excl_token())?;
    sheet.token("MacroCall.semicolon_token", it.semicolon_token())
}

fn of_macro_def(sheet: &mut Sheet, node: &SyntaxNode) -> Result<(), AllocError> {
    let Some(it) = cast_ref::<ast::MacroDef>(node) else {
        return Ok(());
    };
    sheet.token("MacroDef.macro_token", it.macro_token())
}

fn of_macro_rules(sheet: &mut Sheet, node: &SyntaxNode) -> Result<(), AllocError> {
    let Some(it) = cast_ref::<ast::MacroRules>(node) else {
        return Ok(());
    };
    sheet.node("MacroRules.token_tree", it.token_tree())?;
    sheet.token("MacroRules.excl_token", it.excl_token())?;
    sheet.token("MacroRules.macro_rules_token", it.macro_rules_token())
}

fn of_module(sheet: &mut Sheet, node: &SyntaxNode) -> Result<(), AllocError> {
    let Some(it) = cast_ref::<ast::Module>(node) else {
        return Ok(());
    };
    sheet.node("Module.item_list", it.item_list())?;
    sheet.token("Module.mod_token", it.mod_token())?;
    sheet.token("Module.semicolon_token", it.semicolon_token())
}

fn of_static(sheet: &mut Sheet, node: &SyntaxNode) -> Result<(), AllocError> {
    let Some(it) = cast_ref::<ast::Static>(node) else {
        return Ok(());
    };
    sheet.node("Static.body", it.body())?;
    sheet.node("Static.ty", it.ty())?;
    sheet.token("Static.colon_token", it.colon_token())?;
    sheet.token("Static.eq_token", it.eq_token())?;
    rest_of_static(sheet, &it)
}

fn rest_of_static(sheet: &mut Sheet, it: &ast::Static) -> Result<(), AllocError> {
    sheet.token("Static.semicolon_token", it.semicolon_token())?;
    sheet.token("Static.static_token", it.static_token())?;
    sheet.token("Static.mut_token", it.mut_token())?;
    sheet.token("Static.unsafe_token", it.unsafe_token())
}

fn of_struct(sheet: &mut Sheet, node: &SyntaxNode) -> Result<(), AllocError> {
    let Some(it) = cast_ref::<ast::Struct>(node) else {
        return Ok(());
    };
    sheet.token("Struct.semicolon_token", it.semicolon_token())?;
    sheet.token("Struct.struct_token", it.struct_token())
}

fn of_trait(sheet: &mut Sheet, node: &SyntaxNode) -> Result<(), AllocError> {
    let Some(it) = cast_ref::<ast::Trait>(node) else {
        return Ok(());
    };
    sheet.node("Trait.assoc_item_list", it.assoc_item_list())?;
    sheet.token("Trait.trait_token", it.trait_token())?;
    sheet.token("Trait.eq_token", it.eq_token())?;
    sheet.token("Trait.semicolon_token", it.semicolon_token())?;
    rest_of_trait(sheet, &it)
}

fn rest_of_trait(sheet: &mut Sheet, it: &ast::Trait) -> Result<(), AllocError> {
    sheet.token("Trait.auto_token", it.auto_token())?;
    sheet.token("Trait.unsafe_token", it.unsafe_token())
}

fn of_type_alias(sheet: &mut Sheet, node: &SyntaxNode) -> Result<(), AllocError> {
    let Some(it) = cast_ref::<ast::TypeAlias>(node) else {
        return Ok(());
    };
    sheet.node("TypeAlias.ty", it.ty())?;
    sheet.token("TypeAlias.eq_token", it.eq_token())?;
    sheet.token("TypeAlias.semicolon_token", it.semicolon_token())?;
    sheet.token("TypeAlias.type_token", it.type_token())?;
    sheet.token("TypeAlias.default_token", it.default_token())
}

fn of_union(sheet: &mut Sheet, node: &SyntaxNode) -> Result<(), AllocError> {
    let Some(it) = cast_ref::<ast::Union>(node) else {
        return Ok(());
    };
    sheet.node("Union.record_field_list", it.record_field_list())?;
    sheet.token("Union.union_token", it.union_token())
}

fn of_use(sheet: &mut Sheet, node: &SyntaxNode) -> Result<(), AllocError> {
    let Some(it) = cast_ref::<ast::Use>(node) else {
        return Ok(());
    };
    sheet.node("Use.use_tree", it.use_tree())?;
    sheet.token("Use.semicolon_token", it.semicolon_token())?;
    sheet.token("Use.use_token", it.use_token())
}
