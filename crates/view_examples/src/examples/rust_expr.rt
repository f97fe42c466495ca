//! Lookups of `rust_views` in expressions. Made by `tools/views` from `views.txt`.
use crate::{find, is_node, is_nodes, is_token};
use ra_ap_syntax::ast;
use rust_views::{
    FormatArgsArgExt, FormatArgsArgName, FormatArgsArgNameExt, FormatArgsExprExt, OffsetOfExprExt,
    RecordExprExt, RecordExprFieldList, RecordExprFieldListExt, RefExprExt,
};
use std::test::Fail;

#[test]
fn of_format_args_arg(rt: HostRuntime) -> Result<(), Fail> {
    let it: ast::FormatArgsArg = find(
        &rt,
        "const A: T = builtin # format_args(\"{}\", a = b);",
        "a = b",
    )?;
    is_node(it.arg_name(), "a =")?;
    Ok(())
}

#[test]
fn of_format_args_arg_name(rt: HostRuntime) -> Result<(), Fail> {
    let it: FormatArgsArgName = find(
        &rt,
        "const A: T = builtin # format_args(\"{}\", a = b);",
        "a =",
    )?;
    is_token(it.eq_token(), "=")?;
    Ok(())
}

#[test]
fn of_format_args_expr(rt: HostRuntime) -> Result<(), Fail> {
    let it: ast::FormatArgsExpr = find(
        &rt,
        "const A: T = builtin # format_args(\"{}\", a = b);",
        "builtin # format_args(\"{}\", a = b)",
    )?;
    is_token(it.format_args_token(), "format_args")?;
    Ok(())
}

#[test]
fn of_offset_of_expr(rt: HostRuntime) -> Result<(), Fail> {
    let it: ast::OffsetOfExpr = find(
        &rt,
        "const A: T = builtin # offset_of(T, f.g);",
        "builtin # offset_of(T, f.g)",
    )?;
    is_token(it.offset_of_token(), "offset_of")?;
    Ok(())
}

#[test]
fn of_record_expr(rt: HostRuntime) -> Result<(), Fail> {
    let it: ast::RecordExpr = find(&rt, "const A: T = S { f: a, ..b };", "S { f: a, ..b }")?;
    is_node(it.record_expr_field_list(), "{ f: a, ..b }")?;
    Ok(())
}

#[test]
fn of_record_expr_field_list(rt: HostRuntime) -> Result<(), Fail> {
    let it: RecordExprFieldList = find(&rt, "const A: T = S { f: a, ..b };", "{ f: a, ..b }")?;
    is_nodes(it.fields(), &["f: a"])?;
    is_node(it.spread(), "b")?;
    is_token(it.dotdot_token(), "..")?;
    is_token(it.l_curly_token(), "{")?;
    is_token(it.r_curly_token(), "}")?;
    Ok(())
}

#[test]
fn of_ref_expr(rt: HostRuntime) -> Result<(), Fail> {
    let it: ast::RefExpr = find(&rt, "const A: T = &raw const a;", "&raw const a")?;
    is_token(it.raw_token(), "raw")?;
    Ok(())
}
