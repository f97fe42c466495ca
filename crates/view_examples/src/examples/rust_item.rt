//! Lookups of `rust_views` in items and their parts. Made by `tools/views` from `views.txt`.
use crate::{find, is_node, is_nodes, is_token};
use ra_ap_syntax::ast;
use rust_views::{
    EnumExt, ExternCrateExt, FnExt, Rename, RenameExt, SourceFileExt, StaticExt, StructExt,
    UseTreeExt, VariantExt, VariantList, VariantListExt,
};
use std::test::Fail;

#[test]
fn of_enum(rt: HostRuntime) -> Result<(), Fail> {
    let it: ast::Enum = find(&rt, "enum E { A, B }", "enum E { A, B }")?;
    is_node(it.variant_list(), "{ A, B }")?;
    Ok(())
}

#[test]
fn of_extern_crate(rt: HostRuntime) -> Result<(), Fail> {
    let it: ast::ExternCrate = find(&rt, "extern crate a as b;", "extern crate a as b;")?;
    is_node(it.rename(), "as b")?;
    Ok(())
}

#[test]
fn of_fn(rt: HostRuntime) -> Result<(), Fail> {
    let it: ast::Fn = find(&rt, "unsafe extern { safe fn f(); }", "safe fn f();")?;
    is_token(it.safe_token(), "safe")?;
    Ok(())
}

#[test]
fn of_rename(rt: HostRuntime) -> Result<(), Fail> {
    let it: Rename = find(&rt, "use a as b;", "as b")?;
    is_node(it.name(), "b")?;
    is_token(it.as_token(), "as")?;
    let it: Rename = find(&rt, "use a as _;", "as _")?;
    is_token(it.underscore_token(), "_")?;
    Ok(())
}

#[test]
fn of_source_file(rt: HostRuntime) -> Result<(), Fail> {
    let it: ast::SourceFile = find(&rt, "#!/bin/sh\nfn f() {}", "#!/bin/sh\nfn f() {}")?;
    is_token(it.shebang_token(), "#!/bin/sh\n")?;
    let it: ast::SourceFile = find(&rt, "---\na\n---\nfn f() {}", "---\na\n---\nfn f() {}")?;
    is_token(it.frontmatter_token(), "---\na\n---\n")?;
    Ok(())
}

#[test]
fn of_static(rt: HostRuntime) -> Result<(), Fail> {
    let it: ast::Static = find(
        &rt,
        "unsafe extern { safe static A: T; }",
        "safe static A: T;",
    )?;
    is_token(it.safe_token(), "safe")?;
    Ok(())
}

#[test]
fn of_struct(rt: HostRuntime) -> Result<(), Fail> {
    let it: ast::Struct = find(&rt, "struct S(T);", "struct S(T);")?;
    is_node(it.field_list(), "(T)")?;
    Ok(())
}

#[test]
fn of_use_tree(rt: HostRuntime) -> Result<(), Fail> {
    let it: ast::UseTree = find(&rt, "use a as b;", "a as b")?;
    is_node(it.rename(), "as b")?;
    Ok(())
}

#[test]
fn of_variant(rt: HostRuntime) -> Result<(), Fail> {
    let it: ast::Variant = find(&rt, "enum E { A(T) }", "A(T)")?;
    is_node(it.field_list(), "(T)")?;
    Ok(())
}

#[test]
fn of_variant_list(rt: HostRuntime) -> Result<(), Fail> {
    let it: VariantList = find(&rt, "enum E { A, B }", "{ A, B }")?;
    is_nodes(it.variants(), &["A", "B"])?;
    is_token(it.l_curly_token(), "{")?;
    is_token(it.r_curly_token(), "}")?;
    Ok(())
}
