//! Lookups of `rust_views` in paths, generic arguments and bounds. Made by `tools/views` from
//! `views.txt`.
use crate::{find, is_node, is_nodes, is_token};
use ra_ap_syntax::ast;
use rust_views::{
    AssocTypeArgExt, ParenthesizedArgList, ParenthesizedArgListExt, PathSegmentExt,
    ReturnTypeSyntax, ReturnTypeSyntaxExt, UseBoundGenericArgsExt,
};
use std::test::Fail;

#[test]
fn of_assoc_type_arg(rt: HostRuntime) -> Result<(), Fail> {
    let it: ast::AssocTypeArg = find(&rt, "type A = B<C(..): T>;", "C(..): T")?;
    is_node(it.return_type_syntax(), "(..)")?;
    Ok(())
}

#[test]
fn of_parenthesized_arg_list(rt: HostRuntime) -> Result<(), Fail> {
    let it: ParenthesizedArgList = find(&rt, "type A = Fn::(T, U) -> B;", "::(T, U)")?;
    is_nodes(it.type_args(), &["T", "U"])?;
    is_token(it.coloncolon_token(), "::")?;
    is_token(it.l_paren_token(), "(")?;
    is_token(it.r_paren_token(), ")")?;
    Ok(())
}

#[test]
fn of_path_segment(rt: HostRuntime) -> Result<(), Fail> {
    let it: ast::PathSegment = find(&rt, "type A = Fn(T) -> U;", "Fn(T) -> U")?;
    is_node(it.parenthesized_arg_list(), "(T)")?;
    let it: ast::PathSegment = find(&rt, "type A = f(..);", "f(..)")?;
    is_node(it.return_type_syntax(), "(..)")?;
    Ok(())
}

#[test]
fn of_return_type_syntax(rt: HostRuntime) -> Result<(), Fail> {
    let it: ReturnTypeSyntax = find(&rt, "type A = B<C(..): T>;", "(..)")?;
    is_token(it.dotdot_token(), "..")?;
    is_token(it.l_paren_token(), "(")?;
    is_token(it.r_paren_token(), ")")?;
    Ok(())
}

#[test]
fn of_use_bound_generic_args(rt: HostRuntime) -> Result<(), Fail> {
    let it: ast::UseBoundGenericArgs = find(&rt, "fn f() -> impl T + use<'a, T> {}", "<'a, T>")?;
    is_nodes(it.use_bound_generic_args(), &["'a", "T"])?;
    Ok(())
}
