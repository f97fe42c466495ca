//! Lookups in parts of items. Made by `tools/views` from `views.txt`.
use crate::{find, is_node, is_nodes, is_token};
use ra_ap_syntax::ast;
use std::test::Fail;

#[test]
fn of_abi(rt: HostRuntime) -> Result<(), Fail> {
    let it: ast::Abi = find(&rt, "extern \"C\" fn f() {}", "extern \"C\"")?;
    is_token(it.extern_token(), "extern")?;
    is_token(it.string_token(), "\"C\"")?;
    Ok(())
}

#[test]
fn of_assoc_item_list(rt: HostRuntime) -> Result<(), Fail> {
    let it: ast::AssocItemList = find(&rt, "impl T { fn f() {} }", "{ fn f() {} }")?;
    is_nodes(it.assoc_items(), &["fn f() {}"])?;
    is_token(it.l_curly_token(), "{")?;
    is_token(it.r_curly_token(), "}")?;
    Ok(())
}

#[test]
fn of_extern_item_list(rt: HostRuntime) -> Result<(), Fail> {
    let it: ast::ExternItemList = find(&rt, "extern { fn f(); }", "{ fn f(); }")?;
    is_nodes(it.extern_items(), &["fn f();"])?;
    is_token(it.l_curly_token(), "{")?;
    is_token(it.r_curly_token(), "}")?;
    Ok(())
}

#[test]
fn of_item_list(rt: HostRuntime) -> Result<(), Fail> {
    let it: ast::ItemList = find(&rt, "mod m { fn f() {} }", "{ fn f() {} }")?;
    is_token(it.l_curly_token(), "{")?;
    is_token(it.r_curly_token(), "}")?;
    Ok(())
}

#[test]
fn of_param(rt: HostRuntime) -> Result<(), Fail> {
    let it: ast::Param = find(&rt, "fn f(a: T) {}", "a: T")?;
    is_node(it.pat(), "a")?;
    is_node(it.ty(), "T")?;
    is_token(it.colon_token(), ":")?;
    let it: ast::Param = find(&rt, "extern { fn f(...); }", "...")?;
    is_token(it.dotdotdot_token(), "...")?;
    Ok(())
}

#[test]
fn of_param_list(rt: HostRuntime) -> Result<(), Fail> {
    let it: ast::ParamList = find(&rt, "fn f(self, a: T, b: U) {}", "(self, a: T, b: U)")?;
    is_nodes(it.params(), &["a: T", "b: U"])?;
    is_node(it.self_param(), "self")?;
    is_token(it.comma_token(), ",")?;
    is_token(it.l_paren_token(), "(")?;
    is_token(it.r_paren_token(), ")")?;
    let it: ast::ParamList = find(&rt, "const F: T = |a, b| c;", "|a, b|")?;
    is_token(it.pipe_token(), "|")?;
    Ok(())
}

#[test]
fn of_record_field(rt: HostRuntime) -> Result<(), Fail> {
    let it: ast::RecordField = find(&rt, "struct S { f: T = 1 }", "f: T = 1")?;
    is_node(it.default_val(), "1")?;
    is_node(it.ty(), "T")?;
    is_token(it.colon_token(), ":")?;
    is_token(it.eq_token(), "=")?;
    let it: ast::RecordField = find(&rt, "struct S { unsafe f: T }", "unsafe f: T")?;
    is_token(it.unsafe_token(), "unsafe")?;
    Ok(())
}

#[test]
fn of_record_field_list(rt: HostRuntime) -> Result<(), Fail> {
    let it: ast::RecordFieldList = find(&rt, "struct S { f: T, g: U }", "{ f: T, g: U }")?;
    is_nodes(it.fields(), &["f: T", "g: U"])?;
    is_token(it.l_curly_token(), "{")?;
    is_token(it.r_curly_token(), "}")?;
    Ok(())
}

#[test]
fn of_self_param(rt: HostRuntime) -> Result<(), Fail> {
    let it: ast::SelfParam = find(&rt, "fn f(&'a mut self) {}", "&'a mut self")?;
    is_node(it.lifetime(), "'a")?;
    is_token(it.amp_token(), "&")?;
    is_token(it.mut_token(), "mut")?;
    let it: ast::SelfParam = find(&rt, "fn f(self: T) {}", "self: T")?;
    is_node(it.ty(), "T")?;
    is_token(it.colon_token(), ":")?;
    Ok(())
}

#[test]
fn of_tuple_field(rt: HostRuntime) -> Result<(), Fail> {
    let it: ast::TupleField = find(&rt, "struct S(T);", "T")?;
    is_node(it.ty(), "T")?;
    Ok(())
}

#[test]
fn of_tuple_field_list(rt: HostRuntime) -> Result<(), Fail> {
    let it: ast::TupleFieldList = find(&rt, "struct S(T, U);", "(T, U)")?;
    is_nodes(it.fields(), &["T", "U"])?;
    is_token(it.l_paren_token(), "(")?;
    is_token(it.r_paren_token(), ")")?;
    Ok(())
}

#[test]
fn of_use_tree(rt: HostRuntime) -> Result<(), Fail> {
    let it: ast::UseTree = find(&rt, "use a::{b, c};", "a::{b, c}")?;
    is_node(it.path(), "a")?;
    is_node(it.use_tree_list(), "{b, c}")?;
    is_token(it.coloncolon_token(), "::")?;
    let it: ast::UseTree = find(&rt, "use a::*;", "a::*")?;
    is_token(it.star_token(), "*")?;
    Ok(())
}

#[test]
fn of_use_tree_list(rt: HostRuntime) -> Result<(), Fail> {
    let it: ast::UseTreeList = find(&rt, "use a::{b, c};", "{b, c}")?;
    is_nodes(it.use_trees(), &["b", "c"])?;
    is_token(it.l_curly_token(), "{")?;
    is_token(it.r_curly_token(), "}")?;
    Ok(())
}

#[test]
fn of_variant(rt: HostRuntime) -> Result<(), Fail> {
    let it: ast::Variant = find(&rt, "enum E { A = 1 }", "A = 1")?;
    is_node(it.const_arg(), "1")?;
    is_token(it.eq_token(), "=")?;
    Ok(())
}

#[test]
fn of_visibility(rt: HostRuntime) -> Result<(), Fail> {
    let it: ast::Visibility = find(&rt, "pub(in a) fn f() {}", "pub(in a)")?;
    is_node(it.visibility_inner(), "(in a)")?;
    is_token(it.pub_token(), "pub")?;
    Ok(())
}

#[test]
fn of_visibility_inner(rt: HostRuntime) -> Result<(), Fail> {
    let it: ast::VisibilityInner = find(&rt, "pub(in a) fn f() {}", "(in a)")?;
    is_node(it.path(), "a")?;
    is_token(it.in_token(), "in")?;
    is_token(it.l_paren_token(), "(")?;
    is_token(it.r_paren_token(), ")")?;
    Ok(())
}
