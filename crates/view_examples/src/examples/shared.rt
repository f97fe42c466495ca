//! Lookups that several views share. Made by `tools/views` from `views.txt`.
use crate::{find, is_node, is_nodes, is_token};
use ra_ap_syntax::ast::{
    self, HasArgList, HasAttrs, HasGenericArgs, HasGenericParams, HasLoopBody, HasModuleItem,
    HasName, HasTypeBounds, HasVisibility,
};
use std::test::Fail;

#[test]
fn of_has_arg_list(rt: HostRuntime) -> Result<(), Fail> {
    let it: ast::CallExpr = find(&rt, "const A: T = f(a);", "f(a)")?;
    is_node(it.arg_list(), "(a)")?;
    Ok(())
}

#[test]
fn of_has_attrs(rt: HostRuntime) -> Result<(), Fail> {
    let it: ast::Fn = find(
        &rt,
        "#[a] #[b]\n/// c\nfn f() {}",
        "#[a] #[b]\n/// c\nfn f() {}",
    )?;
    is_nodes(it.attrs(), &["#[a]", "#[b]"])?;
    is_nodes(it.doc_comments(), &["/// c"])?;
    is_nodes(it.attrs_with_doc(), &["#[a]", "#[b]", "/// c"])?;
    Ok(())
}

#[test]
fn of_has_generic_args(rt: HostRuntime) -> Result<(), Fail> {
    let it: ast::MethodCallExpr = find(&rt, "const A: T = a.f::<T>();", "a.f::<T>()")?;
    is_node(it.generic_arg_list(), "::<T>")?;
    Ok(())
}

#[test]
fn of_has_generic_params(rt: HostRuntime) -> Result<(), Fail> {
    let it: ast::Fn = find(&rt, "fn f<T>() where T: U {}", "fn f<T>() where T: U {}")?;
    is_node(it.generic_param_list(), "<T>")?;
    is_node(it.where_clause(), "where T: U")?;
    Ok(())
}

#[test]
fn of_has_loop_body(rt: HostRuntime) -> Result<(), Fail> {
    let it: ast::LoopExpr = find(&rt, "const A: T = 'a: loop {};", "'a: loop {}")?;
    is_node(it.label(), "'a:")?;
    Ok(())
}

#[test]
fn of_has_module_item(rt: HostRuntime) -> Result<(), Fail> {
    let it: ast::SourceFile = find(&rt, "fn f() {} struct S;", "fn f() {} struct S;")?;
    is_nodes(it.items(), &["fn f() {}", "struct S;"])?;
    Ok(())
}

#[test]
fn of_has_name(rt: HostRuntime) -> Result<(), Fail> {
    let it: ast::Fn = find(&rt, "fn f() {}", "fn f() {}")?;
    is_node(it.name(), "f")?;
    Ok(())
}

#[test]
fn of_has_type_bounds(rt: HostRuntime) -> Result<(), Fail> {
    let it: ast::TypeParam = find(&rt, "struct S<T: U + V>;", "T: U + V")?;
    is_node(it.type_bound_list(), "U + V")?;
    is_token(it.colon_token(), ":")?;
    Ok(())
}

#[test]
fn of_has_visibility(rt: HostRuntime) -> Result<(), Fail> {
    let it: ast::Fn = find(&rt, "pub fn f() {}", "pub fn f() {}")?;
    is_node(it.visibility(), "pub")?;
    Ok(())
}
