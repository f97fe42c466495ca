// Plain lookups in items and their parts, of `rust_views`. Made by `tools/views` from `views.txt`.
use crate::sheet::Sheet;
use ra_ap_syntax::SyntaxNode;
use ra_ap_syntax::ast::{self, AstNode, cast_ref};
use rust_views::{
    EnumExt, ExternCrateExt, FnExt, MacroItems, MacroItemsExt, Rename, RenameExt, SourceFileExt,
    StaticExt, StructExt, UseTreeExt, VariantExt, VariantList, VariantListExt,
};
use std::alloc::AllocError;

/// Prints the results, for a node, of the plain lookups in items and their parts, of `rust_views`.
pub fn answers(sheet: &mut Sheet, node: &SyntaxNode) -> Result<(), AllocError> {
    of_enum(sheet, node)?;
    of_extern_crate(sheet, node)?;
    of_fn(sheet, node)?;
    of_macro_items(sheet, node)?;
    of_rename(sheet, node)?;
    of_source_file(sheet, node)?;
    of_static(sheet, node)?;
    of_struct(sheet, node)?;
    from_use_tree(sheet, node)
}

fn from_use_tree(sheet: &mut Sheet, node: &SyntaxNode) -> Result<(), AllocError> {
    of_use_tree(sheet, node)?;
    of_variant(sheet, node)?;
    of_variant_list(sheet, node)
}

fn of_enum(sheet: &mut Sheet, node: &SyntaxNode) -> Result<(), AllocError> {
    let Some(it) = cast_ref::<ast::Enum>(node) else {
        return Ok(());
    };
    sheet.node("Enum.variant_list", it.variant_list())
}

fn of_extern_crate(sheet: &mut Sheet, node: &SyntaxNode) -> Result<(), AllocError> {
    let Some(it) = cast_ref::<ast::ExternCrate>(node) else {
        return Ok(());
    };
    sheet.node("ExternCrate.rename", it.rename())
}

fn of_fn(sheet: &mut Sheet, node: &SyntaxNode) -> Result<(), AllocError> {
    let Some(it) = cast_ref::<ast::Fn>(node) else {
        return Ok(());
    };
    sheet.token("Fn.safe_token", it.safe_token())
}

fn of_macro_items(sheet: &mut Sheet, node: &SyntaxNode) -> Result<(), AllocError> {
    let Some(it) = cast_ref::<MacroItems>(node) else {
        return Ok(());
    };
    sheet.nodes("MacroItems.items", it.items())
}

fn of_rename(sheet: &mut Sheet, node: &SyntaxNode) -> Result<(), AllocError> {
    let Some(it) = cast_ref::<Rename>(node) else {
        return Ok(());
    };
    sheet.node("Rename.name", it.name())?;
    sheet.token("Rename.as_token", it.as_token())?;
    sheet.token("Rename.underscore_token", it.underscore_token())
}

fn of_source_file(sheet: &mut Sheet, node: &SyntaxNode) -> Result<(), AllocError> {
    let Some(it) = cast_ref::<ast::SourceFile>(node) else {
        return Ok(());
    };
    sheet.token("SourceFile.shebang_token", it.shebang_token())?;
    sheet.token("SourceFile.frontmatter_token", it.frontmatter_token())
}

fn of_static(sheet: &mut Sheet, node: &SyntaxNode) -> Result<(), AllocError> {
    let Some(it) = cast_ref::<ast::Static>(node) else {
        return Ok(());
    };
    sheet.token("Static.safe_token", it.safe_token())
}

fn of_struct(sheet: &mut Sheet, node: &SyntaxNode) -> Result<(), AllocError> {
    let Some(it) = cast_ref::<ast::Struct>(node) else {
        return Ok(());
    };
    sheet.node("Struct.field_list", it.field_list())
}

fn of_use_tree(sheet: &mut Sheet, node: &SyntaxNode) -> Result<(), AllocError> {
    let Some(it) = cast_ref::<ast::UseTree>(node) else {
        return Ok(());
    };
    sheet.node("UseTree.rename", it.rename())
}

fn of_variant(sheet: &mut Sheet, node: &SyntaxNode) -> Result<(), AllocError> {
    let Some(it) = cast_ref::<ast::Variant>(node) else {
        return Ok(());
    };
    sheet.node("Variant.field_list", it.field_list())
}

fn of_variant_list(sheet: &mut Sheet, node: &SyntaxNode) -> Result<(), AllocError> {
    let Some(it) = cast_ref::<VariantList>(node) else {
        return Ok(());
    };
    sheet.nodes("VariantList.variants", it.variants())?;
    sheet.token("VariantList.l_curly_token", it.l_curly_token())?;
    sheet.token("VariantList.r_curly_token", it.r_curly_token())
}
