//! Lookups in items. Made by `tools/views` from `views.txt`.
use crate::{find, is_node, is_token};
use ra_ap_syntax::ast;
use std::test::Fail;

#[test]
fn of_const(rt: HostRuntime) -> Result<(), Fail> {
    let it: ast::Const = find(&rt, "const A: T = a;", "const A: T = a;")?;
    is_node(it.body(), "a")?;
    is_node(it.ty(), "T")?;
    is_token(it.colon_token(), ":")?;
    is_token(it.const_token(), "const")?;
    is_token(it.eq_token(), "=")?;
    is_token(it.semicolon_token(), ";")?;
    let it: ast::Const = find(&rt, "const _: T = a;", "const _: T = a;")?;
    is_token(it.underscore_token(), "_")?;
    let it: ast::Const = find(
        &rt,
        "impl U { default const A: T = a; }",
        "default const A: T = a;",
    )?;
    is_token(it.default_token(), "default")?;
    Ok(())
}

#[test]
fn of_enum(rt: HostRuntime) -> Result<(), Fail> {
    let it: ast::Enum = find(&rt, "enum E { A, B }", "enum E { A, B }")?;
    is_token(it.enum_token(), "enum")?;
    Ok(())
}

#[test]
fn of_extern_block(rt: HostRuntime) -> Result<(), Fail> {
    let it: ast::ExternBlock = find(
        &rt,
        "unsafe extern \"C\" { fn f(); }",
        "unsafe extern \"C\" { fn f(); }",
    )?;
    is_node(it.abi(), "extern \"C\"")?;
    is_node(it.extern_item_list(), "{ fn f(); }")?;
    is_token(it.unsafe_token(), "unsafe")?;
    Ok(())
}

#[test]
fn of_extern_crate(rt: HostRuntime) -> Result<(), Fail> {
    let it: ast::ExternCrate = find(&rt, "extern crate a as b;", "extern crate a as b;")?;
    is_node(it.name_ref(), "a")?;
    is_token(it.crate_token(), "crate")?;
    is_token(it.extern_token(), "extern")?;
    is_token(it.semicolon_token(), ";")?;
    Ok(())
}

#[test]
fn of_fn(rt: HostRuntime) -> Result<(), Fail> {
    let it: ast::Fn = find(&rt, "fn f(a: T) -> U { b }", "fn f(a: T) -> U { b }")?;
    is_node(it.body(), "{ b }")?;
    is_node(it.param_list(), "(a: T)")?;
    is_node(it.ret_type(), "-> U")?;
    is_token(it.fn_token(), "fn")?;
    let it: ast::Fn = find(&rt, "async fn f() {}", "async fn f() {}")?;
    is_token(it.async_token(), "async")?;
    let it: ast::Fn = find(&rt, "const fn f() {}", "const fn f() {}")?;
    is_token(it.const_token(), "const")?;
    let it: ast::Fn = find(&rt, "gen fn f() {}", "gen fn f() {}")?;
    is_token(it.gen_token(), "gen")?;
    let it: ast::Fn = find(
        &rt,
        "unsafe extern \"C\" fn f() {}",
        "unsafe extern \"C\" fn f() {}",
    )?;
    is_node(it.abi(), "extern \"C\"")?;
    is_token(it.unsafe_token(), "unsafe")?;
    let it: ast::Fn = find(&rt, "impl U { default fn f() {} }", "default fn f() {}")?;
    is_token(it.default_token(), "default")?;
    let it: ast::Fn = find(&rt, "trait U { fn f(); }", "fn f();")?;
    is_token(it.semicolon_token(), ";")?;
    Ok(())
}

#[test]
fn of_impl(rt: HostRuntime) -> Result<(), Fail> {
    let it: ast::Impl = find(
        &rt,
        "impl T for U { fn f() {} }",
        "impl T for U { fn f() {} }",
    )?;
    is_node(it.assoc_item_list(), "{ fn f() {} }")?;
    is_token(it.for_token(), "for")?;
    is_token(it.impl_token(), "impl")?;
    let it: ast::Impl = find(&rt, "impl !T for U {}", "impl !T for U {}")?;
    is_token(it.excl_token(), "!")?;
    let it: ast::Impl = find(&rt, "impl const T for U {}", "impl const T for U {}")?;
    is_token(it.const_token(), "const")?;
    let it: ast::Impl = find(&rt, "default impl T for U {}", "default impl T for U {}")?;
    is_token(it.default_token(), "default")?;
    let it: ast::Impl = find(&rt, "unsafe impl T for U {}", "unsafe impl T for U {}")?;
    is_token(it.unsafe_token(), "unsafe")?;
    Ok(())
}

#[test]
fn of_macro_call(rt: HostRuntime) -> Result<(), Fail> {
    let it: ast::MacroCall = find(&rt, "m!(a);", "m!(a);")?;
    is_node(it.path(), "m")?;
    is_node(it.token_tree(), "(a)")?;
    is_token(it.excl_token(), "!")?;
    is_token(it.semicolon_token(), ";")?;
    Ok(())
}

#[test]
fn of_macro_def(rt: HostRuntime) -> Result<(), Fail> {
    let it: ast::MacroDef = find(&rt, "macro m(a) { b }", "macro m(a) { b }")?;
    is_token(it.macro_token(), "macro")?;
    Ok(())
}

#[test]
fn of_macro_rules(rt: HostRuntime) -> Result<(), Fail> {
    let it: ast::MacroRules = find(
        &rt,
        "macro_rules! m { () => {} }",
        "macro_rules! m { () => {} }",
    )?;
    is_node(it.token_tree(), "{ () => {} }")?;
    is_token(it.excl_token(), "!")?;
    is_token(it.macro_rules_token(), "macro_rules")?;
    Ok(())
}

#[test]
fn of_module(rt: HostRuntime) -> Result<(), Fail> {
    let it: ast::Module = find(&rt, "mod m { fn f() {} }", "mod m { fn f() {} }")?;
    is_node(it.item_list(), "{ fn f() {} }")?;
    is_token(it.mod_token(), "mod")?;
    let it: ast::Module = find(&rt, "mod m;", "mod m;")?;
    is_token(it.semicolon_token(), ";")?;
    Ok(())
}

#[test]
fn of_static(rt: HostRuntime) -> Result<(), Fail> {
    let it: ast::Static = find(&rt, "static A: T = a;", "static A: T = a;")?;
    is_node(it.body(), "a")?;
    is_node(it.ty(), "T")?;
    is_token(it.colon_token(), ":")?;
    is_token(it.eq_token(), "=")?;
    is_token(it.semicolon_token(), ";")?;
    is_token(it.static_token(), "static")?;
    let it: ast::Static = find(&rt, "static mut A: T = a;", "static mut A: T = a;")?;
    is_token(it.mut_token(), "mut")?;
    let it: ast::Static = find(
        &rt,
        "unsafe extern { unsafe static A: T; }",
        "unsafe static A: T;",
    )?;
    is_token(it.unsafe_token(), "unsafe")?;
    Ok(())
}

#[test]
fn of_struct(rt: HostRuntime) -> Result<(), Fail> {
    let it: ast::Struct = find(&rt, "struct S(T);", "struct S(T);")?;
    is_token(it.semicolon_token(), ";")?;
    is_token(it.struct_token(), "struct")?;
    Ok(())
}

#[test]
fn of_trait(rt: HostRuntime) -> Result<(), Fail> {
    let it: ast::Trait = find(&rt, "trait T { fn f(); }", "trait T { fn f(); }")?;
    is_node(it.assoc_item_list(), "{ fn f(); }")?;
    is_token(it.trait_token(), "trait")?;
    let it: ast::Trait = find(&rt, "trait T = U;", "trait T = U;")?;
    is_token(it.eq_token(), "=")?;
    is_token(it.semicolon_token(), ";")?;
    let it: ast::Trait = find(&rt, "auto trait T {}", "auto trait T {}")?;
    is_token(it.auto_token(), "auto")?;
    let it: ast::Trait = find(&rt, "unsafe trait T {}", "unsafe trait T {}")?;
    is_token(it.unsafe_token(), "unsafe")?;
    Ok(())
}

#[test]
fn of_type_alias(rt: HostRuntime) -> Result<(), Fail> {
    let it: ast::TypeAlias = find(&rt, "type A = T;", "type A = T;")?;
    is_node(it.ty(), "T")?;
    is_token(it.eq_token(), "=")?;
    is_token(it.semicolon_token(), ";")?;
    is_token(it.type_token(), "type")?;
    let it: ast::TypeAlias = find(&rt, "impl U { default type A = T; }", "default type A = T;")?;
    is_token(it.default_token(), "default")?;
    Ok(())
}

#[test]
fn of_union(rt: HostRuntime) -> Result<(), Fail> {
    let it: ast::Union = find(&rt, "union U { f: T }", "union U { f: T }")?;
    is_node(it.record_field_list(), "{ f: T }")?;
    is_token(it.union_token(), "union")?;
    Ok(())
}

#[test]
fn of_use(rt: HostRuntime) -> Result<(), Fail> {
    let it: ast::Use = find(&rt, "use a::b;", "use a::b;")?;
    is_node(it.use_tree(), "a::b")?;
    is_token(it.semicolon_token(), ";")?;
    is_token(it.use_token(), "use")?;
    Ok(())
}
