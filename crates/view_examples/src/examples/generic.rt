//! Lookups in generic parameters and arguments, bounds and where clauses. Made by `tools/views`
//! from `views.txt`.
use crate::{find, is_node, is_nodes, is_token};
use ra_ap_syntax::ast;
use std::test::Fail;

#[test]
fn of_assoc_type_arg(rt: HostRuntime) -> Result<(), Fail> {
    let it: ast::AssocTypeArg = find(&rt, "type A = B<C = T>;", "C = T")?;
    is_node(it.name_ref(), "C")?;
    is_node(it.ty(), "T")?;
    is_token(it.eq_token(), "=")?;
    let it: ast::AssocTypeArg = find(&rt, "type A = B<C = 1>;", "C = 1")?;
    is_node(it.const_arg(), "1")?;
    let it: ast::AssocTypeArg = find(&rt, "type A = B<C(D) -> E = T>;", "C(D) -> E = T")?;
    is_node(it.ret_type(), "-> E")?;
    Ok(())
}

#[test]
fn of_const_arg(rt: HostRuntime) -> Result<(), Fail> {
    let it: ast::ConstArg = find(&rt, "type A = B<1>;", "1")?;
    is_node(it.expr(), "1")?;
    Ok(())
}

#[test]
fn of_const_param(rt: HostRuntime) -> Result<(), Fail> {
    let it: ast::ConstParam = find(&rt, "struct S<const N: T = 1>;", "const N: T = 1")?;
    is_node(it.default_val(), "1")?;
    is_node(it.ty(), "T")?;
    is_token(it.colon_token(), ":")?;
    is_token(it.const_token(), "const")?;
    is_token(it.eq_token(), "=")?;
    Ok(())
}

#[test]
fn of_for_binder(rt: HostRuntime) -> Result<(), Fail> {
    let it: ast::ForBinder = find(&rt, "type A = for<'a> fn(&'a T);", "for<'a>")?;
    is_node(it.generic_param_list(), "<'a>")?;
    is_token(it.for_token(), "for")?;
    Ok(())
}

#[test]
fn of_generic_arg_list(rt: HostRuntime) -> Result<(), Fail> {
    let it: ast::GenericArgList = find(&rt, "type A = B::<'a, T>;", "::<'a, T>")?;
    is_nodes(it.generic_args(), &["'a", "T"])?;
    is_token(it.coloncolon_token(), "::")?;
    is_token(it.l_angle_token(), "<")?;
    is_token(it.r_angle_token(), ">")?;
    Ok(())
}

#[test]
fn of_generic_param_list(rt: HostRuntime) -> Result<(), Fail> {
    let it: ast::GenericParamList = find(&rt, "struct S<'a, T>;", "<'a, T>")?;
    is_nodes(it.generic_params(), &["'a", "T"])?;
    is_token(it.l_angle_token(), "<")?;
    is_token(it.r_angle_token(), ">")?;
    Ok(())
}

#[test]
fn of_lifetime_arg(rt: HostRuntime) -> Result<(), Fail> {
    let it: ast::LifetimeArg = find(&rt, "type A = B<'a>;", "'a")?;
    is_node(it.lifetime(), "'a")?;
    Ok(())
}

#[test]
fn of_lifetime_param(rt: HostRuntime) -> Result<(), Fail> {
    let it: ast::LifetimeParam = find(&rt, "struct S<'a: 'b>;", "'a: 'b")?;
    is_node(it.lifetime(), "'a")?;
    Ok(())
}

#[test]
fn of_type_arg(rt: HostRuntime) -> Result<(), Fail> {
    let it: ast::TypeArg = find(&rt, "type A = B<T>;", "T")?;
    is_node(it.ty(), "T")?;
    Ok(())
}

#[test]
fn of_type_bound(rt: HostRuntime) -> Result<(), Fail> {
    let it: ast::TypeBound = find(&rt, "type A = dyn for<'a> ?T;", "for<'a> ?T")?;
    is_node(it.for_binder(), "for<'a>")?;
    is_node(it.ty(), "T")?;
    is_token(it.question_mark_token(), "?")?;
    let it: ast::TypeBound = find(&rt, "type A = dyn async T;", "async T")?;
    is_token(it.async_token(), "async")?;
    let it: ast::TypeBound = find(&rt, "type A = dyn const T;", "const T")?;
    is_token(it.const_token(), "const")?;
    let it: ast::TypeBound = find(&rt, "type A = dyn [const] T;", "[const] T")?;
    is_token(it.l_brack_token(), "[")?;
    is_token(it.r_brack_token(), "]")?;
    let it: ast::TypeBound = find(&rt, "type A = dyn ~const T;", "~const T")?;
    is_token(it.tilde_token(), "~")?;
    let it: ast::TypeBound = find(&rt, "type A = dyn T + 'a;", "'a")?;
    is_node(it.lifetime(), "'a")?;
    let it: ast::TypeBound = find(&rt, "fn f() -> impl T + use<'a, T> {}", "use<'a, T>")?;
    is_node(it.use_bound_generic_args(), "<'a, T>")?;
    is_token(it.use_token(), "use")?;
    Ok(())
}

#[test]
fn of_type_bound_list(rt: HostRuntime) -> Result<(), Fail> {
    let it: ast::TypeBoundList = find(&rt, "type A = dyn T + U;", "T + U")?;
    is_nodes(it.bounds(), &["T", "U"])?;
    Ok(())
}

#[test]
fn of_type_param(rt: HostRuntime) -> Result<(), Fail> {
    let it: ast::TypeParam = find(&rt, "struct S<T = U>;", "T = U")?;
    is_node(it.default_type(), "U")?;
    is_token(it.eq_token(), "=")?;
    Ok(())
}

#[test]
fn of_use_bound_generic_args(rt: HostRuntime) -> Result<(), Fail> {
    let it: ast::UseBoundGenericArgs = find(&rt, "fn f() -> impl T + use<'a, T> {}", "<'a, T>")?;
    is_token(it.l_angle_token(), "<")?;
    is_token(it.r_angle_token(), ">")?;
    Ok(())
}

#[test]
fn of_where_clause(rt: HostRuntime) -> Result<(), Fail> {
    let it: ast::WhereClause = find(&rt, "struct S where T: U, V: W {}", "where T: U, V: W")?;
    is_nodes(it.predicates(), &["T: U", "V: W"])?;
    is_token(it.where_token(), "where")?;
    Ok(())
}

#[test]
fn of_where_pred(rt: HostRuntime) -> Result<(), Fail> {
    let it: ast::WherePred = find(&rt, "struct S where for<'a> T: U {}", "for<'a> T: U")?;
    is_node(it.for_binder(), "for<'a>")?;
    is_node(it.ty(), "T")?;
    let it: ast::WherePred = find(&rt, "struct S where 'a: 'b {}", "'a: 'b")?;
    is_node(it.lifetime(), "'a")?;
    Ok(())
}
