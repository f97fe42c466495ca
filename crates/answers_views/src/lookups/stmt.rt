// Plain lookups in statements and parts of expressions. Made by `tools/views` from `views.txt`.
use crate::sheet::Sheet;
use ra_ap_syntax::SyntaxNode;
use ra_ap_syntax::ast::{self, AstNode, cast_ref};
use std::alloc::AllocError;

/// Prints the results, for a node, of the plain lookups in statements and parts of expressions.
pub fn answers(sheet: &mut Sheet, node: &SyntaxNode) -> Result<(), AllocError> {
    of_arg_list(sheet, node)?;
    of_expr_stmt(sheet, node)?;
    of_format_args_arg(sheet, node)?;
    of_label(sheet, node)?;
    of_let_else(sheet, node)?;
    of_let_stmt(sheet, node)?;
    of_match_arm(sheet, node)?;
    of_match_arm_list(sheet, node)?;
    from_match_guard(sheet, node)
}

fn from_match_guard(sheet: &mut Sheet, node: &SyntaxNode) -> Result<(), AllocError> {
    of_match_guard(sheet, node)?;
    of_record_expr_field(sheet, node)?;
    of_stmt_list(sheet, node)?;
    of_try_block_modifier(sheet, node)
}

fn of_arg_list(sheet: &mut Sheet, node: &SyntaxNode) -> Result<(), AllocError> {
    let Some(it) = cast_ref::<ast::ArgList>(node) else {
        return Ok(());
    };
    sheet.nodes("ArgList.args", it.args())?;
    sheet.token("ArgList.l_paren_token", it.l_paren_token())?;
    sheet.token("ArgList.r_paren_token", it.r_paren_token())
}

fn of_expr_stmt(sheet: &mut Sheet, node: &SyntaxNode) -> Result<(), AllocError> {
    let Some(it) = cast_ref::<ast::ExprStmt>(node) else {
        return Ok(());
    };
    sheet.node("ExprStmt.expr", it.expr())?;
    sheet.token("ExprStmt.semicolon_token", it.semicolon_token())
}

fn of_format_args_arg(sheet: &mut Sheet, node: &SyntaxNode) -> Result<(), AllocError> {
    let Some(it) = cast_ref::<ast::FormatArgsArg>(node) else {
        return Ok(());
    };
    sheet.node("FormatArgsArg.expr", it.expr())
}

fn of_label(sheet: &mut Sheet, node: &SyntaxNode) -> Result<(), AllocError> {
    let Some(it) = cast_ref::<ast::Label>(node) else {
        return Ok(());
    };
    sheet.node("Label.lifetime", it.lifetime())?;
    sheet.token("Label.colon_token", it.colon_token())
}

fn of_let_else(sheet: &mut Sheet, node: &SyntaxNode) -> Result<(), AllocError> {
    let Some(it) = cast_ref::<ast::LetElse>(node) else {
        return Ok(());
    };
    sheet.node("LetElse.block_expr", it.block_expr())?;
    sheet.token("LetElse.else_token", it.else_token())
}

fn of_let_stmt(sheet: &mut Sheet, node: &SyntaxNode) -> Result<(), AllocError> {
    let Some(it) = cast_ref::<ast::LetStmt>(node) else {
        return Ok(());
    };
    sheet.node("LetStmt.initializer", it.initializer())?;
    sheet.node("LetStmt.let_else", it.let_else())?;
    sheet.node("LetStmt.pat", it.pat())?;
    sheet.node("LetStmt.ty", it.ty())?;
    rest_of_let_stmt(sheet, &it)
}

fn rest_of_let_stmt(sheet: &mut Sheet, it: &ast::LetStmt) -> Result<(), AllocError> {
    sheet.token("LetStmt.colon_token", it.colon_token())?;
    sheet.token("LetStmt.eq_token", it.eq_token())?;
    sheet.token("LetStmt.let_token", it.let_token())?;
    sheet.token("LetStmt.semicolon_token", it.semicolon_token())?;
    sheet.token("LetStmt.super_token", it.super_token())
}

fn of_match_arm(sheet: &mut Sheet, node: &SyntaxNode) -> Result<(), AllocError> {
    let Some(it) = cast_ref::<ast::MatchArm>(node) else {
        return Ok(());
    };
    sheet.node("MatchArm.expr", it.expr())?;
    sheet.node("MatchArm.guard", it.guard())?;
    sheet.node("MatchArm.pat", it.pat())?;
    sheet.token("MatchArm.comma_token", it.comma_token())?;
    sheet.token("MatchArm.fat_arrow_token", it.fat_arrow_token())
}

fn of_match_arm_list(sheet: &mut Sheet, node: &SyntaxNode) -> Result<(), AllocError> {
    let Some(it) = cast_ref::<ast::MatchArmList>(node) else {
        return Ok(());
    };
    sheet.nodes("MatchArmList.arms", it.arms())?;
    sheet.token("MatchArmList.l_curly_token", it.l_curly_token())?;
    sheet.token("MatchArmList.r_curly_token", it.r_curly_token())
}

fn of_match_guard(sheet: &mut Sheet, node: &SyntaxNode) -> Result<(), AllocError> {
    let Some(it) = cast_ref::<ast::MatchGuard>(node) else {
        return Ok(());
    };
    sheet.node("MatchGuard.condition", it.condition())?;
    sheet.token("MatchGuard.if_token", it.if_token())
}

fn of_record_expr_field(sheet: &mut Sheet, node: &SyntaxNode) -> Result<(), AllocError> {
    let Some(it) = cast_ref::<ast::RecordExprField>(node) else {
        return Ok(());
    };
    sheet.node("RecordExprField.expr", it.expr())?;
    sheet.node("RecordExprField.name_ref", it.name_ref())?;
    sheet.token("RecordExprField.colon_token", it.colon_token())
}

fn of_stmt_list(sheet: &mut Sheet, node: &SyntaxNode) -> Result<(), AllocError> {
    let Some(it) = cast_ref::<ast::StmtList>(node) else {
        return Ok(());
    };
    sheet.nodes("StmtList.statements", it.statements())?;
    sheet.node("StmtList.tail_expr", it.tail_expr())?;
    sheet.token("StmtList.l_curly_token", it.l_curly_token())?;
    sheet.token("StmtList.r_curly_token", it.r_curly_token())
}

fn of_try_block_modifier(sheet: &mut Sheet, node: &SyntaxNode) -> Result<(), AllocError> {
    let Some(it) = cast_ref::<ast::TryBlockModifier>(node) else {
        return Ok(());
    };
    sheet.node("TryBlockModifier.ty", it.ty())?;
    sheet.token("TryBlockModifier.bikeshed_token", it.bikeshed_token())?;
    sheet.token("TryBlockModifier.try_token", it.try_token())
}
