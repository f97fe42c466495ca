// Plain lookups in expressions of control flow. Made by `tools/views` from `views.txt`.
use crate::sheet::Sheet;
use ra_ap_syntax::SyntaxNode;
use ra_ap_syntax::ast::{self, AstNode, cast_ref};
use std::alloc::AllocError;

/// Prints the results, for a node, of the plain lookups in expressions of control flow.
pub fn answers(sheet: &mut Sheet, node: &SyntaxNode) -> Result<(), AllocError> {
    of_become_expr(sheet, node)?;
    of_block_expr(sheet, node)?;
    of_break_expr(sheet, node)?;
    of_continue_expr(sheet, node)?;
    of_for_expr(sheet, node)?;
    of_if_expr(sheet, node)?;
    of_let_expr(sheet, node)?;
    of_loop_expr(sheet, node)?;
    from_match_expr(sheet, node)
}

fn from_match_expr(sheet: &mut Sheet, node: &SyntaxNode) -> Result<(), AllocError> {
    of_match_expr(sheet, node)?;
    of_return_expr(sheet, node)?;
    of_while_expr(sheet, node)?;
    of_yeet_expr(sheet, node)?;
    of_yield_expr(sheet, node)
}

fn of_become_expr(sheet: &mut Sheet, node: &SyntaxNode) -> Result<(), AllocError> {
    let Some(it) = cast_ref::<ast::BecomeExpr>(node) else {
        return Ok(());
    };
    sheet.node("BecomeExpr.expr", it.expr())?;
    sheet.token("BecomeExpr.become_token", it.become_token())
}

fn of_block_expr(sheet: &mut Sheet, node: &SyntaxNode) -> Result<(), AllocError> {
    let Some(it) = cast_ref::<ast::BlockExpr>(node) else {
        return Ok(());
    };
    sheet.node("BlockExpr.stmt_list", it.stmt_list())?;
    sheet.node("BlockExpr.label", it.label())?;
    sheet.node("BlockExpr.try_block_modifier", it.try_block_modifier())?;
    sheet.token("BlockExpr.async_token", it.async_token())?;
    rest_of_block_expr(sheet, &it)
}

fn rest_of_block_expr(sheet: &mut Sheet, it: &ast::BlockExpr) -> Result<(), AllocError> {
    sheet.token("BlockExpr.move_token", it.move_token())?;
    sheet.token("BlockExpr.const_token", it.const_token())?;
    sheet.token("BlockExpr.gen_token", it.gen_token())?;
    sheet.token("BlockExpr.unsafe_token", it.unsafe_token())
}

fn of_break_expr(sheet: &mut Sheet, node: &SyntaxNode) -> Result<(), AllocError> {
    let Some(it) = cast_ref::<ast::BreakExpr>(node) else {
        return Ok(());
    };
    sheet.node("BreakExpr.expr", it.expr())?;
    sheet.node("BreakExpr.lifetime", it.lifetime())?;
    sheet.token("BreakExpr.break_token", it.break_token())
}

fn of_continue_expr(sheet: &mut Sheet, node: &SyntaxNode) -> Result<(), AllocError> {
    let Some(it) = cast_ref::<ast::ContinueExpr>(node) else {
        return Ok(());
    };
    sheet.node("ContinueExpr.lifetime", it.lifetime())?;
    sheet.token("ContinueExpr.continue_token", it.continue_token())
}

fn of_for_expr(sheet: &mut Sheet, node: &SyntaxNode) -> Result<(), AllocError> {
    let Some(it) = cast_ref::<ast::ForExpr>(node) else {
        return Ok(());
    };
    sheet.node("ForExpr.pat", it.pat())?;
    sheet.token("ForExpr.for_token", it.for_token())?;
    sheet.token("ForExpr.in_token", it.in_token())
}

fn of_if_expr(sheet: &mut Sheet, node: &SyntaxNode) -> Result<(), AllocError> {
    let Some(it) = cast_ref::<ast::IfExpr>(node) else {
        return Ok(());
    };
    sheet.token("IfExpr.else_token", it.else_token())?;
    sheet.token("IfExpr.if_token", it.if_token())
}

fn of_let_expr(sheet: &mut Sheet, node: &SyntaxNode) -> Result<(), AllocError> {
    let Some(it) = cast_ref::<ast::LetExpr>(node) else {
        return Ok(());
    };
    sheet.node("LetExpr.expr", it.expr())?;
    sheet.node("LetExpr.pat", it.pat())?;
    sheet.token("LetExpr.eq_token", it.eq_token())?;
    sheet.token("LetExpr.let_token", it.let_token())
}

fn of_loop_expr(sheet: &mut Sheet, node: &SyntaxNode) -> Result<(), AllocError> {
    let Some(it) = cast_ref::<ast::LoopExpr>(node) else {
        return Ok(());
    };
    sheet.token("LoopExpr.loop_token", it.loop_token())
}

fn of_match_expr(sheet: &mut Sheet, node: &SyntaxNode) -> Result<(), AllocError> {
    let Some(it) = cast_ref::<ast::MatchExpr>(node) else {
        return Ok(());
    };
    sheet.node("MatchExpr.expr", it.expr())?;
    sheet.node("MatchExpr.match_arm_list", it.match_arm_list())?;
    sheet.token("MatchExpr.match_token", it.match_token())
}

fn of_return_expr(sheet: &mut Sheet, node: &SyntaxNode) -> Result<(), AllocError> {
    let Some(it) = cast_ref::<ast::ReturnExpr>(node) else {
        return Ok(());
    };
    sheet.node("ReturnExpr.expr", it.expr())?;
    sheet.token("ReturnExpr.return_token", it.return_token())
}

fn of_while_expr(sheet: &mut Sheet, node: &SyntaxNode) -> Result<(), AllocError> {
    let Some(it) = cast_ref::<ast::WhileExpr>(node) else {
        return Ok(());
    };
    sheet.token("WhileExpr.while_token", it.while_token())
}

fn of_yeet_expr(sheet: &mut Sheet, node: &SyntaxNode) -> Result<(), AllocError> {
    let Some(it) = cast_ref::<ast::YeetExpr>(node) else {
        return Ok(());
    };
    sheet.node("YeetExpr.expr", it.expr())?;
    sheet.token("YeetExpr.do_token", it.do_token())?;
    sheet.token("YeetExpr.yeet_token", it.yeet_token())
}

fn of_yield_expr(sheet: &mut Sheet, node: &SyntaxNode) -> Result<(), AllocError> {
    let Some(it) = cast_ref::<ast::YieldExpr>(node) else {
        return Ok(());
    };
    sheet.node("YieldExpr.expr", it.expr())?;
    sheet.token("YieldExpr.yield_token", it.yield_token())
}
