//! Lookups in paths and names. Made by `tools/views` from `views.txt`.
use crate::{find, is_node, is_token};
use ra_ap_syntax::ast;
use std::test::Fail;

#[test]
fn of_lifetime(rt: HostRuntime) -> Result<(), Fail> {
    let it: ast::Lifetime = find(&rt, "struct S<'a>;", "'a")?;
    is_token(it.lifetime_ident_token(), "'a")?;
    Ok(())
}

#[test]
fn of_name(rt: HostRuntime) -> Result<(), Fail> {
    let it: ast::Name = find(&rt, "fn f() {}", "f")?;
    is_token(it.ident_token(), "f")?;
    let it: ast::Name = find(&rt, "fn f(self) {}", "self")?;
    is_token(it.self_token(), "self")?;
    Ok(())
}

#[test]
fn of_name_ref(rt: HostRuntime) -> Result<(), Fail> {
    let it: ast::NameRef = find(&rt, "use a;", "a")?;
    is_token(it.ident_token(), "a")?;
    let it: ast::NameRef = find(&rt, "use self;", "self")?;
    is_token(it.self_token(), "self")?;
    let it: ast::NameRef = find(&rt, "use super;", "super")?;
    is_token(it.super_token(), "super")?;
    let it: ast::NameRef = find(&rt, "use crate;", "crate")?;
    is_token(it.crate_token(), "crate")?;
    let it: ast::NameRef = find(&rt, "type A = Self;", "Self")?;
    is_token(it.self_type_token(), "Self")?;
    let it: ast::NameRef = find(&rt, "const A: T = a.0;", "0")?;
    is_token(it.int_number_token(), "0")?;
    Ok(())
}

#[test]
fn of_path(rt: HostRuntime) -> Result<(), Fail> {
    let it: ast::Path = find(&rt, "use a::b;", "a::b")?;
    is_node(it.qualifier(), "a")?;
    is_node(it.segment(), "b")?;
    is_token(it.coloncolon_token(), "::")?;
    Ok(())
}

#[test]
fn of_path_segment(rt: HostRuntime) -> Result<(), Fail> {
    let it: ast::PathSegment = find(&rt, "use ::a;", "::a")?;
    is_node(it.name_ref(), "a")?;
    is_token(it.coloncolon_token(), "::")?;
    let it: ast::PathSegment = find(&rt, "type A = Fn(T) -> U;", "Fn(T) -> U")?;
    is_node(it.ret_type(), "-> U")?;
    let it: ast::PathSegment = find(&rt, "type A = <T as U>::B;", "<T as U>")?;
    is_node(it.type_anchor(), "<T as U>")?;
    Ok(())
}

#[test]
fn of_type_anchor(rt: HostRuntime) -> Result<(), Fail> {
    let it: ast::TypeAnchor = find(&rt, "type A = <T as U>::B;", "<T as U>")?;
    is_node(it.path_type(), "T")?;
    is_node(it.ty(), "T")?;
    is_token(it.as_token(), "as")?;
    is_token(it.l_angle_token(), "<")?;
    is_token(it.r_angle_token(), ">")?;
    Ok(())
}
