//! Lookups in expressions of control flow. Made by `tools/views` from `views.txt`.
use crate::{find, is_node, is_token};
use ra_ap_syntax::ast;
use std::test::Fail;

#[test]
fn of_become_expr(rt: HostRuntime) -> Result<(), Fail> {
    let it: ast::BecomeExpr = find(&rt, "const A: T = become f(a);", "become f(a)")?;
    is_node(it.expr(), "f(a)")?;
    is_token(it.become_token(), "become")?;
    Ok(())
}

#[test]
fn of_block_expr(rt: HostRuntime) -> Result<(), Fail> {
    let it: ast::BlockExpr = find(&rt, "const A: T = { a; b };", "{ a; b }")?;
    is_node(it.stmt_list(), "{ a; b }")?;
    let it: ast::BlockExpr = find(&rt, "const A: T = 'a: {};", "'a: {}")?;
    is_node(it.label(), "'a:")?;
    let it: ast::BlockExpr = find(&rt, "const A: T = try bikeshed T {};", "try bikeshed T {}")?;
    is_node(it.try_block_modifier(), "try bikeshed T")?;
    let it: ast::BlockExpr = find(&rt, "const A: T = async move {};", "async move {}")?;
    is_token(it.async_token(), "async")?;
    is_token(it.move_token(), "move")?;
    let it: ast::BlockExpr = find(&rt, "const A: T = const {};", "const {}")?;
    is_token(it.const_token(), "const")?;
    let it: ast::BlockExpr = find(&rt, "const A: T = gen {};", "gen {}")?;
    is_token(it.gen_token(), "gen")?;
    let it: ast::BlockExpr = find(&rt, "const A: T = unsafe {};", "unsafe {}")?;
    is_token(it.unsafe_token(), "unsafe")?;
    Ok(())
}

#[test]
fn of_break_expr(rt: HostRuntime) -> Result<(), Fail> {
    let it: ast::BreakExpr = find(&rt, "const A: T = break 'a b;", "break 'a b")?;
    is_node(it.expr(), "b")?;
    is_node(it.lifetime(), "'a")?;
    is_token(it.break_token(), "break")?;
    Ok(())
}

#[test]
fn of_continue_expr(rt: HostRuntime) -> Result<(), Fail> {
    let it: ast::ContinueExpr = find(&rt, "const A: T = continue 'a;", "continue 'a")?;
    is_node(it.lifetime(), "'a")?;
    is_token(it.continue_token(), "continue")?;
    Ok(())
}

#[test]
fn of_for_expr(rt: HostRuntime) -> Result<(), Fail> {
    let it: ast::ForExpr = find(&rt, "const A: T = for p in a { b };", "for p in a { b }")?;
    is_node(it.pat(), "p")?;
    is_token(it.for_token(), "for")?;
    is_token(it.in_token(), "in")?;
    Ok(())
}

#[test]
fn of_if_expr(rt: HostRuntime) -> Result<(), Fail> {
    let it: ast::IfExpr = find(
        &rt,
        "const A: T = if a { b } else { c };",
        "if a { b } else { c }",
    )?;
    is_token(it.else_token(), "else")?;
    is_token(it.if_token(), "if")?;
    Ok(())
}

#[test]
fn of_let_expr(rt: HostRuntime) -> Result<(), Fail> {
    let it: ast::LetExpr = find(&rt, "const A: T = if let p = a {};", "let p = a")?;
    is_node(it.expr(), "a")?;
    is_node(it.pat(), "p")?;
    is_token(it.eq_token(), "=")?;
    is_token(it.let_token(), "let")?;
    Ok(())
}

#[test]
fn of_loop_expr(rt: HostRuntime) -> Result<(), Fail> {
    let it: ast::LoopExpr = find(&rt, "const A: T = loop {};", "loop {}")?;
    is_token(it.loop_token(), "loop")?;
    Ok(())
}

#[test]
fn of_match_expr(rt: HostRuntime) -> Result<(), Fail> {
    let it: ast::MatchExpr = find(
        &rt,
        "const A: T = match a { p => b };",
        "match a { p => b }",
    )?;
    is_node(it.expr(), "a")?;
    is_node(it.match_arm_list(), "{ p => b }")?;
    is_token(it.match_token(), "match")?;
    Ok(())
}

#[test]
fn of_return_expr(rt: HostRuntime) -> Result<(), Fail> {
    let it: ast::ReturnExpr = find(&rt, "const A: T = return a;", "return a")?;
    is_node(it.expr(), "a")?;
    is_token(it.return_token(), "return")?;
    Ok(())
}

#[test]
fn of_while_expr(rt: HostRuntime) -> Result<(), Fail> {
    let it: ast::WhileExpr = find(&rt, "const A: T = while a {};", "while a {}")?;
    is_token(it.while_token(), "while")?;
    Ok(())
}

#[test]
fn of_yeet_expr(rt: HostRuntime) -> Result<(), Fail> {
    let it: ast::YeetExpr = find(&rt, "const A: T = do yeet a;", "do yeet a")?;
    is_node(it.expr(), "a")?;
    is_token(it.do_token(), "do")?;
    is_token(it.yeet_token(), "yeet")?;
    Ok(())
}

#[test]
fn of_yield_expr(rt: HostRuntime) -> Result<(), Fail> {
    let it: ast::YieldExpr = find(&rt, "const A: T = yield a;", "yield a")?;
    is_node(it.expr(), "a")?;
    is_token(it.yield_token(), "yield")?;
    Ok(())
}
