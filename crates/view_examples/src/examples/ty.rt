//! Lookups in types. Made by `tools/views` from `views.txt`.
use crate::{find, is_node, is_nodes, is_token};
use ra_ap_syntax::ast;
use std::test::Fail;

#[test]
fn of_array_type(rt: HostRuntime) -> Result<(), Fail> {
    let it: ast::ArrayType = find(&rt, "type A = [T; 1];", "[T; 1]")?;
    is_node(it.const_arg(), "1")?;
    is_node(it.ty(), "T")?;
    is_token(it.l_brack_token(), "[")?;
    is_token(it.r_brack_token(), "]")?;
    is_token(it.semicolon_token(), ";")?;
    Ok(())
}

#[test]
fn of_dyn_trait_type(rt: HostRuntime) -> Result<(), Fail> {
    let it: ast::DynTraitType = find(&rt, "type A = dyn T + U;", "dyn T + U")?;
    is_node(it.type_bound_list(), "T + U")?;
    is_token(it.dyn_token(), "dyn")?;
    Ok(())
}

#[test]
fn of_fn_ptr_type(rt: HostRuntime) -> Result<(), Fail> {
    let it: ast::FnPtrType = find(
        &rt,
        "type A = unsafe extern \"C\" fn(T) -> U;",
        "unsafe extern \"C\" fn(T) -> U",
    )?;
    is_node(it.abi(), "extern \"C\"")?;
    is_node(it.param_list(), "(T)")?;
    is_node(it.ret_type(), "-> U")?;
    is_token(it.fn_token(), "fn")?;
    is_token(it.unsafe_token(), "unsafe")?;
    Ok(())
}

#[test]
fn of_for_type(rt: HostRuntime) -> Result<(), Fail> {
    let it: ast::ForType = find(&rt, "type A = for<'a> fn(&'a T);", "for<'a> fn(&'a T)")?;
    is_node(it.for_binder(), "for<'a>")?;
    is_node(it.ty(), "fn(&'a T)")?;
    Ok(())
}

#[test]
fn of_impl_trait_type(rt: HostRuntime) -> Result<(), Fail> {
    let it: ast::ImplTraitType = find(&rt, "type A = impl T + U;", "impl T + U")?;
    is_node(it.type_bound_list(), "T + U")?;
    is_token(it.impl_token(), "impl")?;
    Ok(())
}

#[test]
fn of_infer_type(rt: HostRuntime) -> Result<(), Fail> {
    let it: ast::InferType = find(&rt, "type A = _;", "_")?;
    is_token(it.underscore_token(), "_")?;
    Ok(())
}

#[test]
fn of_macro_type(rt: HostRuntime) -> Result<(), Fail> {
    let it: ast::MacroType = find(&rt, "type A = m!(a);", "m!(a)")?;
    is_node(it.macro_call(), "m!(a)")?;
    Ok(())
}

#[test]
fn of_never_type(rt: HostRuntime) -> Result<(), Fail> {
    let it: ast::NeverType = find(&rt, "type A = !;", "!")?;
    is_token(it.excl_token(), "!")?;
    Ok(())
}

#[test]
fn of_paren_type(rt: HostRuntime) -> Result<(), Fail> {
    let it: ast::ParenType = find(&rt, "type A = (T);", "(T)")?;
    is_node(it.ty(), "T")?;
    is_token(it.l_paren_token(), "(")?;
    is_token(it.r_paren_token(), ")")?;
    Ok(())
}

#[test]
fn of_path_type(rt: HostRuntime) -> Result<(), Fail> {
    let it: ast::PathType = find(&rt, "type A = a::T;", "a::T")?;
    is_node(it.path(), "a::T")?;
    Ok(())
}

#[test]
fn of_ptr_type(rt: HostRuntime) -> Result<(), Fail> {
    let it: ast::PtrType = find(&rt, "type A = *const T;", "*const T")?;
    is_node(it.ty(), "T")?;
    is_token(it.const_token(), "const")?;
    is_token(it.star_token(), "*")?;
    let it: ast::PtrType = find(&rt, "type A = *mut T;", "*mut T")?;
    is_token(it.mut_token(), "mut")?;
    Ok(())
}

#[test]
fn of_ref_type(rt: HostRuntime) -> Result<(), Fail> {
    let it: ast::RefType = find(&rt, "type A = &'a mut T;", "&'a mut T")?;
    is_node(it.lifetime(), "'a")?;
    is_node(it.ty(), "T")?;
    is_token(it.amp_token(), "&")?;
    is_token(it.mut_token(), "mut")?;
    Ok(())
}

#[test]
fn of_ret_type(rt: HostRuntime) -> Result<(), Fail> {
    let it: ast::RetType = find(&rt, "fn f() -> T {}", "-> T")?;
    is_node(it.ty(), "T")?;
    is_token(it.thin_arrow_token(), "->")?;
    Ok(())
}

#[test]
fn of_slice_type(rt: HostRuntime) -> Result<(), Fail> {
    let it: ast::SliceType = find(&rt, "type A = [T];", "[T]")?;
    is_node(it.ty(), "T")?;
    is_token(it.l_brack_token(), "[")?;
    is_token(it.r_brack_token(), "]")?;
    Ok(())
}

#[test]
fn of_tuple_type(rt: HostRuntime) -> Result<(), Fail> {
    let it: ast::TupleType = find(&rt, "type A = (T, U);", "(T, U)")?;
    is_nodes(it.fields(), &["T", "U"])?;
    is_token(it.l_paren_token(), "(")?;
    is_token(it.r_paren_token(), ")")?;
    Ok(())
}
