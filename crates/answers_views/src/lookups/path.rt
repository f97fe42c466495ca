// Plain lookups in paths and names. Made by `tools/views` from `views.txt`.
use crate::sheet::Sheet;
use ra_ap_syntax::SyntaxNode;
use ra_ap_syntax::ast::{self, AstNode, cast_ref};
use std::alloc::AllocError;

/// Prints the results, for a node, of the plain lookups in paths and names.
pub fn answers(sheet: &mut Sheet, node: &SyntaxNode) -> Result<(), AllocError> {
    of_lifetime(sheet, node)?;
    of_name(sheet, node)?;
    of_name_ref(sheet, node)?;
    of_path(sheet, node)?;
    of_path_segment(sheet, node)?;
    of_type_anchor(sheet, node)
}

fn of_lifetime(sheet: &mut Sheet, node: &SyntaxNode) -> Result<(), AllocError> {
    let Some(it) = cast_ref::<ast::Lifetime>(node) else {
        return Ok(());
    };
    sheet.token("Lifetime.lifetime_ident_token", it.lifetime_ident_token())
}

fn of_name(sheet: &mut Sheet, node: &SyntaxNode) -> Result<(), AllocError> {
    let Some(it) = cast_ref::<ast::Name>(node) else {
        return Ok(());
    };
    sheet.token("Name.ident_token", it.ident_token())?;
    sheet.token("Name.self_token", it.self_token())
}

fn of_name_ref(sheet: &mut Sheet, node: &SyntaxNode) -> Result<(), AllocError> {
    let Some(it) = cast_ref::<ast::NameRef>(node) else {
        return Ok(());
    };
    sheet.token("NameRef.ident_token", it.ident_token())?;
    sheet.token("NameRef.self_token", it.self_token())?;
    sheet.token("NameRef.super_token", it.super_token())?;
    sheet.token("NameRef.crate_token", it.crate_token())?;
    rest_of_name_ref(sheet, &it)
}

fn rest_of_name_ref(sheet: &mut Sheet, it: &ast::NameRef) -> Result<(), AllocError> {
    sheet.token("NameRef.self_type_token", it.self_type_token())?;
    sheet.token("NameRef.int_number_token", it.int_number_token())
}

fn of_path(sheet: &mut Sheet, node: &SyntaxNode) -> Result<(), AllocError> {
    let Some(it) = cast_ref::<ast::Path>(node) else {
        return Ok(());
    };
    sheet.node("Path.qualifier", it.qualifier())?;
    sheet.node("Path.segment", it.segment())?;
    sheet.token("Path.coloncolon_token", it.coloncolon_token())
}

fn of_path_segment(sheet: &mut Sheet, node: &SyntaxNode) -> Result<(), AllocError> {
    let Some(it) = cast_ref::<ast::PathSegment>(node) else {
        return Ok(());
    };
    sheet.node("PathSegment.name_ref", it.name_ref())?;
    sheet.token("PathSegment.coloncolon_token", it.coloncolon_token())?;
    sheet.node("PathSegment.ret_type", it.ret_type())?;
    sheet.node("PathSegment.type_anchor", it.type_anchor())
}

fn of_type_anchor(sheet: &mut Sheet, node: &SyntaxNode) -> Result<(), AllocError> {
    let Some(it) = cast_ref::<ast::TypeAnchor>(node) else {
        return Ok(());
    };
    sheet.node("TypeAnchor.path_type", it.path_type())?;
    sheet.node("TypeAnchor.ty", it.ty())?;
    sheet.token("TypeAnchor.as_token", it.as_token())?;
    sheet.token("TypeAnchor.l_angle_token", it.l_angle_token())?;
    sheet.token("TypeAnchor.r_angle_token", it.r_angle_token())
}
