// Plain lookups in expressions, of `rust_views`. Made by `tools/views` from `views.txt`.
use crate::sheet::Sheet;
use ra_ap_syntax::SyntaxNode;
use ra_ap_syntax::ast::{self, AstNode, cast_ref};
use rust_views::{
    FormatArgsArgExt, FormatArgsArgName, FormatArgsArgNameExt, FormatArgsExprExt, OffsetOfExprExt,
    RecordExprExt, RecordExprFieldList, RecordExprFieldListExt, RefExprExt,
};
use std::alloc::AllocError;

/// Prints the results, for a node, of the plain lookups in expressions, of `rust_views`.
pub fn answers(sheet: &mut Sheet, node: &SyntaxNode) -> Result<(), AllocError> {
    of_format_args_arg(sheet, node)?;
    of_format_args_arg_name(sheet, node)?;
    of_format_args_expr(sheet, node)?;
    of_offset_of_expr(sheet, node)?;
    of_record_expr(sheet, node)?;
    of_record_expr_field_list(sheet, node)?;
    of_ref_expr(sheet, node)
}

fn of_format_args_arg(sheet: &mut Sheet, node: &SyntaxNode) -> Result<(), AllocError> {
    let Some(it) = cast_ref::<ast::FormatArgsArg>(node) else {
        return Ok(());
    };
    sheet.node("FormatArgsArg.arg_name", it.arg_name())
}

fn of_format_args_arg_name(sheet: &mut Sheet, node: &SyntaxNode) -> Result<(), AllocError> {
    let Some(it) = cast_ref::<FormatArgsArgName>(node) else {
        return Ok(());
    };
    sheet.token("FormatArgsArgName.eq_token", it.eq_token())
}

fn of_format_args_expr(sheet: &mut Sheet, node: &SyntaxNode) -> Result<(), AllocError> {
    let Some(it) = cast_ref::<ast::FormatArgsExpr>(node) else {
        return Ok(());
    };
    sheet.token("FormatArgsExpr.format_args_token", it.format_args_token())
}

fn of_offset_of_expr(sheet: &mut Sheet, node: &SyntaxNode) -> Result<(), AllocError> {
    let Some(it) = cast_ref::<ast::OffsetOfExpr>(node) else {
        return Ok(());
    };
    sheet.token("OffsetOfExpr.offset_of_token", it.offset_of_token())
}

fn of_record_expr(sheet: &mut Sheet, node: &SyntaxNode) -> Result<(), AllocError> {
    let Some(it) = cast_ref::<ast::RecordExpr>(node) else {
        return Ok(());
    };
    sheet.node(
        "RecordExpr.record_expr_field_list",
        it.record_expr_field_list(),
    )
}

fn of_record_expr_field_list(sheet: &mut Sheet, node: &SyntaxNode) -> Result<(), AllocError> {
    let Some(it) = cast_ref::<RecordExprFieldList>(node) else {
        return Ok(());
    };
    sheet.nodes("RecordExprFieldList.attrs", it.attrs())?;
    sheet.nodes("RecordExprFieldList.fields", it.fields())?;
    sheet.node("RecordExprFieldList.spread", it.spread())?;
    sheet.token("RecordExprFieldList.dotdot_token", it.dotdot_token())?;
    rest_of_record_expr_field_list(sheet, &it)
}

fn rest_of_record_expr_field_list(
    sheet: &mut Sheet,
    it: &RecordExprFieldList,
) -> Result<(), AllocError> {
    sheet.token("RecordExprFieldList.l_curly_token", it.l_curly_token())?;
    sheet.token("RecordExprFieldList.r_curly_token", it.r_curly_token())
}

fn of_ref_expr(sheet: &mut Sheet, node: &SyntaxNode) -> Result<(), AllocError> {
    let Some(it) = cast_ref::<ast::RefExpr>(node) else {
        return Ok(());
    };
    sheet.token("RefExpr.raw_token", it.raw_token())
}
