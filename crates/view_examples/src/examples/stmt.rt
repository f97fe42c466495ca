//! Lookups in statements and parts of expressions. Made by `tools/views` from `views.txt`.
use crate::{find, is_node, is_nodes, is_token};
use ra_ap_syntax::ast;
use std::test::Fail;

#[test]
fn of_arg_list(rt: HostRuntime) -> Result<(), Fail> {
    let it: ast::ArgList = find(&rt, "const A: T = f(a, b);", "(a, b)")?;
    is_nodes(it.args(), &["a", "b"])?;
    is_token(it.l_paren_token(), "(")?;
    is_token(it.r_paren_token(), ")")?;
    Ok(())
}

#[test]
fn of_expr_stmt(rt: HostRuntime) -> Result<(), Fail> {
    let it: ast::ExprStmt = find(&rt, "fn f() { a; }", "a;")?;
    is_node(it.expr(), "a")?;
    is_token(it.semicolon_token(), ";")?;
    Ok(())
}

#[test]
fn of_format_args_arg(rt: HostRuntime) -> Result<(), Fail> {
    let it: ast::FormatArgsArg = find(
        &rt,
        "const A: T = builtin # format_args(\"{}\", a = b);",
        "a = b",
    )?;
    is_node(it.expr(), "b")?;
    Ok(())
}

#[test]
fn of_label(rt: HostRuntime) -> Result<(), Fail> {
    let it: ast::Label = find(&rt, "const A: T = 'a: loop {};", "'a:")?;
    is_node(it.lifetime(), "'a")?;
    is_token(it.colon_token(), ":")?;
    Ok(())
}

#[test]
fn of_let_else(rt: HostRuntime) -> Result<(), Fail> {
    let it: ast::LetElse = find(&rt, "fn f() { let p = a else { b }; }", "else { b }")?;
    is_node(it.block_expr(), "{ b }")?;
    is_token(it.else_token(), "else")?;
    Ok(())
}

#[test]
fn of_let_stmt(rt: HostRuntime) -> Result<(), Fail> {
    let it: ast::LetStmt = find(
        &rt,
        "fn f() { let p: T = a else { b }; }",
        "let p: T = a else { b };",
    )?;
    is_node(it.initializer(), "a")?;
    is_node(it.let_else(), "else { b }")?;
    is_node(it.pat(), "p")?;
    is_node(it.ty(), "T")?;
    is_token(it.colon_token(), ":")?;
    is_token(it.eq_token(), "=")?;
    is_token(it.let_token(), "let")?;
    is_token(it.semicolon_token(), ";")?;
    let it: ast::LetStmt = find(&rt, "fn f() { super let p = a; }", "super let p = a;")?;
    is_token(it.super_token(), "super")?;
    Ok(())
}

#[test]
fn of_match_arm(rt: HostRuntime) -> Result<(), Fail> {
    let it: ast::MatchArm = find(
        &rt,
        "const A: T = match a { p if a => b, };",
        "p if a => b,",
    )?;
    is_node(it.expr(), "b")?;
    is_node(it.guard(), "if a")?;
    is_node(it.pat(), "p")?;
    is_token(it.comma_token(), ",")?;
    is_token(it.fat_arrow_token(), "=>")?;
    Ok(())
}

#[test]
fn of_match_arm_list(rt: HostRuntime) -> Result<(), Fail> {
    let it: ast::MatchArmList = find(
        &rt,
        "const A: T = match a { p => b, q => c };",
        "{ p => b, q => c }",
    )?;
    is_nodes(it.arms(), &["p => b,", "q => c"])?;
    is_token(it.l_curly_token(), "{")?;
    is_token(it.r_curly_token(), "}")?;
    Ok(())
}

#[test]
fn of_match_guard(rt: HostRuntime) -> Result<(), Fail> {
    let it: ast::MatchGuard = find(&rt, "const A: T = match a { p if a => b };", "if a")?;
    is_node(it.condition(), "a")?;
    is_token(it.if_token(), "if")?;
    Ok(())
}

#[test]
fn of_record_expr_field(rt: HostRuntime) -> Result<(), Fail> {
    let it: ast::RecordExprField = find(&rt, "const A: T = S { f: a };", "f: a")?;
    is_node(it.expr(), "a")?;
    is_node(it.name_ref(), "f")?;
    is_token(it.colon_token(), ":")?;
    Ok(())
}

#[test]
fn of_stmt_list(rt: HostRuntime) -> Result<(), Fail> {
    let it: ast::StmtList = find(&rt, "fn f() { a; fn g() {} b }", "{ a; fn g() {} b }")?;
    is_nodes(it.statements(), &["a;", "fn g() {}"])?;
    is_node(it.tail_expr(), "b")?;
    is_token(it.l_curly_token(), "{")?;
    is_token(it.r_curly_token(), "}")?;
    Ok(())
}

#[test]
fn of_try_block_modifier(rt: HostRuntime) -> Result<(), Fail> {
    let it: ast::TryBlockModifier = find(&rt, "const A: T = try bikeshed T {};", "try bikeshed T")?;
    is_node(it.ty(), "T")?;
    is_token(it.bikeshed_token(), "bikeshed")?;
    is_token(it.try_token(), "try")?;
    Ok(())
}
