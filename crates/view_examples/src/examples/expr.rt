//! Lookups in expressions. Made by `tools/views` from `views.txt`.
use crate::{find, is_node, is_nodes, is_token};
use ra_ap_syntax::ast;
use std::test::Fail;

#[test]
fn of_array_expr(rt: HostRuntime) -> Result<(), Fail> {
    let it: ast::ArrayExpr = find(&rt, "const A: T = [a, b];", "[a, b]")?;
    is_node(it.expr(), "a")?;
    is_nodes(it.exprs(), &["a", "b"])?;
    is_token(it.l_brack_token(), "[")?;
    is_token(it.r_brack_token(), "]")?;
    let it: ast::ArrayExpr = find(&rt, "const A: T = [a; n];", "[a; n]")?;
    is_token(it.semicolon_token(), ";")?;
    Ok(())
}

#[test]
fn of_asm_expr(rt: HostRuntime) -> Result<(), Fail> {
    let it: ast::AsmExpr = find(
        &rt,
        "const A: T = builtin # asm(\"a\", \"b\", out(r) c);",
        "builtin # asm(\"a\", \"b\", out(r) c)",
    )?;
    is_nodes(it.template(), &["\"a\"", "\"b\""])?;
    is_token(it.builtin_token(), "builtin")?;
    is_token(it.comma_token(), ",")?;
    is_token(it.l_paren_token(), "(")?;
    is_token(it.pound_token(), "#")?;
    is_token(it.r_paren_token(), ")")?;
    Ok(())
}

#[test]
fn of_await_expr(rt: HostRuntime) -> Result<(), Fail> {
    let it: ast::AwaitExpr = find(&rt, "const A: T = a.await;", "a.await")?;
    is_node(it.expr(), "a")?;
    is_token(it.await_token(), "await")?;
    is_token(it.dot_token(), ".")?;
    Ok(())
}

#[test]
fn of_call_expr(rt: HostRuntime) -> Result<(), Fail> {
    let it: ast::CallExpr = find(&rt, "const A: T = f(a, b);", "f(a, b)")?;
    is_node(it.expr(), "f")?;
    Ok(())
}

#[test]
fn of_cast_expr(rt: HostRuntime) -> Result<(), Fail> {
    let it: ast::CastExpr = find(&rt, "const A: T = a as T;", "a as T")?;
    is_node(it.expr(), "a")?;
    is_node(it.ty(), "T")?;
    is_token(it.as_token(), "as")?;
    Ok(())
}

#[test]
fn of_closure_expr(rt: HostRuntime) -> Result<(), Fail> {
    let it: ast::ClosureExpr = find(&rt, "const A: T = |a| -> T { b };", "|a| -> T { b }")?;
    is_node(it.body(), "{ b }")?;
    is_node(it.param_list(), "|a|")?;
    is_node(it.ret_type(), "-> T")?;
    let it: ast::ClosureExpr = find(&rt, "const A: T = for<'a> |b| c;", "for<'a> |b| c")?;
    is_node(it.for_binder(), "for<'a>")?;
    let it: ast::ClosureExpr = find(&rt, "const A: T = async move |a| b;", "async move |a| b")?;
    is_token(it.async_token(), "async")?;
    is_token(it.move_token(), "move")?;
    let it: ast::ClosureExpr = find(&rt, "const A: T = const |a| b;", "const |a| b")?;
    is_token(it.const_token(), "const")?;
    let it: ast::ClosureExpr = find(&rt, "const A: T = async gen |a| b;", "async gen |a| b")?;
    is_token(it.gen_token(), "gen")?;
    let it: ast::ClosureExpr = find(&rt, "const A: T = static |a| b;", "static |a| b")?;
    is_token(it.static_token(), "static")?;
    Ok(())
}

#[test]
fn of_field_expr(rt: HostRuntime) -> Result<(), Fail> {
    let it: ast::FieldExpr = find(&rt, "const A: T = a.f;", "a.f")?;
    is_node(it.expr(), "a")?;
    is_node(it.name_ref(), "f")?;
    is_token(it.dot_token(), ".")?;
    Ok(())
}

#[test]
fn of_format_args_expr(rt: HostRuntime) -> Result<(), Fail> {
    let it: ast::FormatArgsExpr = find(
        &rt,
        "const A: T = builtin # format_args(\"{}\", a = b);",
        "builtin # format_args(\"{}\", a = b)",
    )?;
    is_nodes(it.args(), &["a = b"])?;
    is_node(it.template(), "\"{}\"")?;
    is_token(it.builtin_token(), "builtin")?;
    is_token(it.comma_token(), ",")?;
    is_token(it.l_paren_token(), "(")?;
    is_token(it.pound_token(), "#")?;
    is_token(it.r_paren_token(), ")")?;
    Ok(())
}

#[test]
fn of_index_expr(rt: HostRuntime) -> Result<(), Fail> {
    let it: ast::IndexExpr = find(&rt, "const A: T = a[i];", "a[i]")?;
    is_token(it.l_brack_token(), "[")?;
    is_token(it.r_brack_token(), "]")?;
    Ok(())
}

#[test]
fn of_macro_expr(rt: HostRuntime) -> Result<(), Fail> {
    let it: ast::MacroExpr = find(&rt, "const A: T = m!(a);", "m!(a)")?;
    is_node(it.macro_call(), "m!(a)")?;
    Ok(())
}

#[test]
fn of_method_call_expr(rt: HostRuntime) -> Result<(), Fail> {
    let it: ast::MethodCallExpr = find(&rt, "const A: T = a.f::<T>(b);", "a.f::<T>(b)")?;
    is_node(it.name_ref(), "f")?;
    is_node(it.receiver(), "a")?;
    is_token(it.dot_token(), ".")?;
    Ok(())
}

#[test]
fn of_offset_of_expr(rt: HostRuntime) -> Result<(), Fail> {
    let it: ast::OffsetOfExpr = find(
        &rt,
        "const A: T = builtin # offset_of(T, f.g);",
        "builtin # offset_of(T, f.g)",
    )?;
    is_nodes(it.fields(), &["f", "g"])?;
    is_node(it.ty(), "T")?;
    is_token(it.builtin_token(), "builtin")?;
    is_token(it.comma_token(), ",")?;
    is_token(it.l_paren_token(), "(")?;
    is_token(it.pound_token(), "#")?;
    is_token(it.r_paren_token(), ")")?;
    Ok(())
}

#[test]
fn of_paren_expr(rt: HostRuntime) -> Result<(), Fail> {
    let it: ast::ParenExpr = find(&rt, "const A: T = (a);", "(a)")?;
    is_node(it.expr(), "a")?;
    is_token(it.l_paren_token(), "(")?;
    is_token(it.r_paren_token(), ")")?;
    Ok(())
}

#[test]
fn of_path_expr(rt: HostRuntime) -> Result<(), Fail> {
    let it: ast::PathExpr = find(&rt, "const A: T = a::b;", "a::b")?;
    is_node(it.path(), "a::b")?;
    Ok(())
}

#[test]
fn of_prefix_expr(rt: HostRuntime) -> Result<(), Fail> {
    let it: ast::PrefixExpr = find(&rt, "const A: T = -a;", "-a")?;
    is_node(it.expr(), "a")?;
    Ok(())
}

#[test]
fn of_record_expr(rt: HostRuntime) -> Result<(), Fail> {
    let it: ast::RecordExpr = find(&rt, "const A: T = S { f: a, ..b };", "S { f: a, ..b }")?;
    is_node(it.path(), "S")?;
    Ok(())
}

#[test]
fn of_ref_expr(rt: HostRuntime) -> Result<(), Fail> {
    let it: ast::RefExpr = find(&rt, "const A: T = &a;", "&a")?;
    is_node(it.expr(), "a")?;
    is_token(it.amp_token(), "&")?;
    let it: ast::RefExpr = find(&rt, "const A: T = &mut a;", "&mut a")?;
    is_token(it.mut_token(), "mut")?;
    let it: ast::RefExpr = find(&rt, "const A: T = &raw const a;", "&raw const a")?;
    is_token(it.const_token(), "const")?;
    Ok(())
}

#[test]
fn of_try_expr(rt: HostRuntime) -> Result<(), Fail> {
    let it: ast::TryExpr = find(&rt, "const A: T = a?;", "a?")?;
    is_node(it.expr(), "a")?;
    is_token(it.question_mark_token(), "?")?;
    Ok(())
}

#[test]
fn of_tuple_expr(rt: HostRuntime) -> Result<(), Fail> {
    let it: ast::TupleExpr = find(&rt, "const A: T = (a, b);", "(a, b)")?;
    is_nodes(it.fields(), &["a", "b"])?;
    is_token(it.l_paren_token(), "(")?;
    is_token(it.r_paren_token(), ")")?;
    Ok(())
}

#[test]
fn of_underscore_expr(rt: HostRuntime) -> Result<(), Fail> {
    let it: ast::UnderscoreExpr = find(&rt, "const A: T = _;", "_")?;
    is_token(it.underscore_token(), "_")?;
    Ok(())
}
