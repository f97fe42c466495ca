// Plain lookups in expressions. Made by `tools/views` from `views.txt`.
use crate::sheet::Sheet;
use ra_ap_syntax::SyntaxNode;
use ra_ap_syntax::ast::{self, AstNode, cast_ref};
use std::alloc::AllocError;

/// Prints the results, for a node, of the plain lookups in expressions.
pub fn answers(sheet: &mut Sheet, node: &SyntaxNode) -> Result<(), AllocError> {
    of_array_expr(sheet, node)?;
    of_asm_expr(sheet, node)?;
    of_await_expr(sheet, node)?;
    of_call_expr(sheet, node)?;
    of_cast_expr(sheet, node)?;
    of_closure_expr(sheet, node)?;
    of_field_expr(sheet, node)?;
    of_format_args_expr(sheet, node)?;
    from_index_expr(sheet, node)
}

fn from_index_expr(sheet: &mut Sheet, node: &SyntaxNode) -> Result<(), AllocError> {
    of_index_expr(sheet, node)?;
    of_macro_expr(sheet, node)?;
    of_method_call_expr(sheet, node)?;
    of_offset_of_expr(sheet, node)?;
    of_paren_expr(sheet, node)?;
    of_path_expr(sheet, node)?;
    of_prefix_expr(sheet, node)?;
    of_record_expr(sheet, node)?;
    from_ref_expr(sheet, node)
}

fn from_ref_expr(sheet: &mut Sheet, node: &SyntaxNode) -> Result<(), AllocError> {
    of_ref_expr(sheet, node)?;
    of_try_expr(sheet, node)?;
    of_tuple_expr(sheet, node)?;
    of_underscore_expr(sheet, node)
}

fn of_array_expr(sheet: &mut Sheet, node: &SyntaxNode) -> Result<(), AllocError> {
    let Some(it) = cast_ref::<ast::ArrayExpr>(node) else {
        return Ok(());
    };
    sheet.node("ArrayExpr.expr", it.expr())?;
    sheet.nodes("ArrayExpr.exprs", it.exprs())?;
    sheet.token("ArrayExpr.l_brack_token", it.l_brack_token())?;
    sheet.token("ArrayExpr.r_brack_token", it.r_brack_token())?;
    sheet.token("ArrayExpr.semicolon_token", it.semicolon_token())
}

fn of_asm_expr(sheet: &mut Sheet, node: &SyntaxNode) -> Result<(), AllocError> {
    let Some(it) = cast_ref::<ast::AsmExpr>(node) else {
        return Ok(());
    };
    sheet.nodes("AsmExpr.template", it.template())?;
    sheet.token("AsmExpr.builtin_token", it.builtin_token())?;
    sheet.token("AsmExpr.comma_token", it.comma_token())?;
    sheet.token("AsmExpr.l_paren_token", it.l_paren_token())?;
    rest_of_asm_expr(sheet, &it)
}

fn rest_of_asm_expr(sheet: &mut Sheet, it: &ast::AsmExpr) -> Result<(), AllocError> {
    sheet.token("AsmExpr.pound_token", it.pound_token())?;
    sheet.token("AsmExpr.r_paren_token", it.r_paren_token())
}

fn of_await_expr(sheet: &mut Sheet, node: &SyntaxNode) -> Result<(), AllocError> {
    let Some(it) = cast_ref::<ast::AwaitExpr>(node) else {
        return Ok(());
    };
    sheet.node("AwaitExpr.expr", it.expr())?;
    sheet.token("AwaitExpr.await_token", it.await_token())?;
    sheet.token("AwaitExpr.dot_token", it.dot_token())
}

fn of_call_expr(sheet: &mut Sheet, node: &SyntaxNode) -> Result<(), AllocError> {
    let Some(it) = cast_ref::<ast::CallExpr>(node) else {
        return Ok(());
    };
    sheet.node("CallExpr.expr", it.expr())
}

fn of_cast_expr(sheet: &mut Sheet, node: &SyntaxNode) -> Result<(), AllocError> {
    let Some(it) = cast_ref::<ast::CastExpr>(node) else {
        return Ok(());
    };
    sheet.node("CastExpr.expr", it.expr())?;
    sheet.node("CastExpr.ty", it.ty())?;
    sheet.token("CastExpr.as_token", it.as_token())
}

fn of_closure_expr(sheet: &mut Sheet, node: &SyntaxNode) -> Result<(), AllocError> {
    let Some(it) = cast_ref::<ast::ClosureExpr>(node) else {
        return Ok(());
    };
    sheet.node("ClosureExpr.body", it.body())?;
    sheet.node("ClosureExpr.param_list", it.param_list())?;
    sheet.node("ClosureExpr.ret_type", it.ret_type())?;
    sheet.node("ClosureExpr.for_binder", it.for_binder())?;
    rest_of_closure_expr(sheet, &it)
}

fn rest_of_closure_expr(sheet: &mut Sheet, it: &ast::ClosureExpr) -> Result<(), AllocError> {
    sheet.token("ClosureExpr.async_token", it.async_token())?;
    sheet.token("ClosureExpr.move_token", it.move_token())?;
    sheet.token("ClosureExpr.const_token", it.const_token())?;
    sheet.token("ClosureExpr.gen_token", it.gen_token())?;
    sheet.token("ClosureExpr.static_token", it.static_token())
}

fn of_field_expr(sheet: &mut Sheet, node: &SyntaxNode) -> Result<(), AllocError> {
    let Some(it) = cast_ref::<ast::FieldExpr>(node) else {
        return Ok(());
    };
    sheet.node("FieldExpr.expr", it.expr())?;
    sheet.node("FieldExpr.name_ref", it.name_ref())?;
    sheet.token("FieldExpr.dot_token", it.dot_token())
}

fn of_format_args_expr(sheet: &mut Sheet, node: &SyntaxNode) -> Result<(), AllocError> {
    let Some(it) = cast_ref::<ast::FormatArgsExpr>(node) else {
        return Ok(());
    };
    sheet.nodes("FormatArgsExpr.args", it.args())?;
    sheet.node("FormatArgsExpr.template", it.template())?;
    sheet.token("FormatArgsExpr.builtin_token", it.builtin_token())?;
    sheet.token("FormatArgsExpr.comma_token", it.comma_token())?;
    rest_of_format_args_expr(sheet, &it)
}

fn rest_of_format_args_expr(sheet: &mut Sheet, it: &ast::FormatArgsExpr) -> Result<(), AllocError> {
    sheet.token("FormatArgsExpr.l_paren_token", it.l_paren_token())?;
    sheet.token("FormatArgsExpr.pound_token", it.pound_token())?;
    sheet.token("FormatArgsExpr.r_paren_token", it.r_paren_token())
}

fn of_index_expr(sheet: &mut Sheet, node: &SyntaxNode) -> Result<(), AllocError> {
    let Some(it) = cast_ref::<ast::IndexExpr>(node) else {
        return Ok(());
    };
    sheet.token("IndexExpr.l_brack_token", it.l_brack_token())?;
    sheet.token("IndexExpr.r_brack_token", it.r_brack_token())
}

fn of_macro_expr(sheet: &mut Sheet, node: &SyntaxNode) -> Result<(), AllocError> {
    let Some(it) = cast_ref::<ast::MacroExpr>(node) else {
        return Ok(());
    };
    sheet.node("MacroExpr.macro_call", it.macro_call())
}

fn of_method_call_expr(sheet: &mut Sheet, node: &SyntaxNode) -> Result<(), AllocError> {
    let Some(it) = cast_ref::<ast::MethodCallExpr>(node) else {
        return Ok(());
    };
    sheet.node("MethodCallExpr.name_ref", it.name_ref())?;
    sheet.node("MethodCallExpr.receiver", it.receiver())?;
    sheet.token("MethodCallExpr.dot_token", it.dot_token())
}

fn of_offset_of_expr(sheet: &mut Sheet, node: &SyntaxNode) -> Result<(), AllocError> {
    let Some(it) = cast_ref::<ast::OffsetOfExpr>(node) else {
        return Ok(());
    };
    sheet.nodes("OffsetOfExpr.fields", it.fields())?;
    sheet.node("OffsetOfExpr.ty", it.ty())?;
    sheet.token("OffsetOfExpr.builtin_token", it.builtin_token())?;
    sheet.token("OffsetOfExpr.comma_token", it.comma_token())?;
    rest_of_offset_of_expr(sheet, &it)
}

fn rest_of_offset_of_expr(sheet: &mut Sheet, it: &ast::OffsetOfExpr) -> Result<(), AllocError> {
    sheet.token("OffsetOfExpr.l_paren_token", it.l_paren_token())?;
    sheet.token("OffsetOfExpr.pound_token", it.pound_token())?;
    sheet.token("OffsetOfExpr.r_paren_token", it.r_paren_token())
}

fn of_paren_expr(sheet: &mut Sheet, node: &SyntaxNode) -> Result<(), AllocError> {
    let Some(it) = cast_ref::<ast::ParenExpr>(node) else {
        return Ok(());
    };
    sheet.node("ParenExpr.expr", it.expr())?;
    sheet.token("ParenExpr.l_paren_token", it.l_paren_token())?;
    sheet.token("ParenExpr.r_paren_token", it.r_paren_token())
}

fn of_path_expr(sheet: &mut Sheet, node: &SyntaxNode) -> Result<(), AllocError> {
    let Some(it) = cast_ref::<ast::PathExpr>(node) else {
        return Ok(());
    };
    sheet.node("PathExpr.path", it.path())
}

fn of_prefix_expr(sheet: &mut Sheet, node: &SyntaxNode) -> Result<(), AllocError> {
    let Some(it) = cast_ref::<ast::PrefixExpr>(node) else {
        return Ok(());
    };
    sheet.node("PrefixExpr.expr", it.expr())
}

fn of_record_expr(sheet: &mut Sheet, node: &SyntaxNode) -> Result<(), AllocError> {
    let Some(it) = cast_ref::<ast::RecordExpr>(node) else {
        return Ok(());
    };
    sheet.node("RecordExpr.path", it.path())
}

fn of_ref_expr(sheet: &mut Sheet, node: &SyntaxNode) -> Result<(), AllocError> {
    let Some(it) = cast_ref::<ast::RefExpr>(node) else {
        return Ok(());
    };
    sheet.node("RefExpr.expr", it.expr())?;
    sheet.token("RefExpr.amp_token", it.amp_token())?;
    sheet.token("RefExpr.mut_token", it.mut_token())?;
    sheet.token("RefExpr.const_token", it.const_token())
}

fn of_try_expr(sheet: &mut Sheet, node: &SyntaxNode) -> Result<(), AllocError> {
    let Some(it) = cast_ref::<ast::TryExpr>(node) else {
        return Ok(());
    };
    sheet.node("TryExpr.expr", it.expr())?;
    sheet.token("TryExpr.question_mark_token", it.question_mark_token())
}

fn of_tuple_expr(sheet: &mut Sheet, node: &SyntaxNode) -> Result<(), AllocError> {
    let Some(it) = cast_ref::<ast::TupleExpr>(node) else {
        return Ok(());
    };
    sheet.nodes("TupleExpr.fields", it.fields())?;
    sheet.token("TupleExpr.l_paren_token", it.l_paren_token())?;
    sheet.token("TupleExpr.r_paren_token", it.r_paren_token())
}

fn of_underscore_expr(sheet: &mut Sheet, node: &SyntaxNode) -> Result<(), AllocError> {
    let Some(it) = cast_ref::<ast::UnderscoreExpr>(node) else {
        return Ok(());
    };
    sheet.token("UnderscoreExpr.underscore_token", it.underscore_token())
}
