//! Lookups in patterns. Made by `tools/views` from `views.txt`.
use crate::{find, is_node, is_nodes, is_token};
use ra_ap_syntax::ast;
use std::test::Fail;

#[test]
fn of_box_pat(rt: HostRuntime) -> Result<(), Fail> {
    let it: ast::BoxPat = find(&rt, "const A: T = |box p| a;", "box p")?;
    is_node(it.pat(), "p")?;
    Ok(())
}

#[test]
fn of_const_block_pat(rt: HostRuntime) -> Result<(), Fail> {
    let it: ast::ConstBlockPat = find(&rt, "const A: T = |const { b }| a;", "const { b }")?;
    is_node(it.block_expr(), "{ b }")?;
    is_token(it.const_token(), "const")?;
    Ok(())
}

#[test]
fn of_ident_pat(rt: HostRuntime) -> Result<(), Fail> {
    let it: ast::IdentPat = find(&rt, "const A: T = |ref mut x @ p| a;", "ref mut x @ p")?;
    is_node(it.pat(), "p")?;
    is_token(it.at_token(), "@")?;
    is_token(it.mut_token(), "mut")?;
    is_token(it.ref_token(), "ref")?;
    Ok(())
}

#[test]
fn of_literal_pat(rt: HostRuntime) -> Result<(), Fail> {
    let it: ast::LiteralPat = find(&rt, "const A: T = |-1| a;", "-1")?;
    is_node(it.literal(), "1")?;
    is_token(it.minus_token(), "-")?;
    Ok(())
}

#[test]
fn of_macro_pat(rt: HostRuntime) -> Result<(), Fail> {
    let it: ast::MacroPat = find(&rt, "const A: T = |m!(a)| a;", "m!(a)")?;
    is_node(it.macro_call(), "m!(a)")?;
    Ok(())
}

#[test]
fn of_or_pat(rt: HostRuntime) -> Result<(), Fail> {
    let it: ast::OrPat = find(&rt, "const A: T = |(p | q)| a;", "p | q")?;
    is_nodes(it.pats(), &["p", "q"])?;
    is_token(it.pipe_token(), "|")?;
    Ok(())
}

#[test]
fn of_paren_pat(rt: HostRuntime) -> Result<(), Fail> {
    let it: ast::ParenPat = find(&rt, "const A: T = |(p)| a;", "(p)")?;
    is_node(it.pat(), "p")?;
    is_token(it.l_paren_token(), "(")?;
    is_token(it.r_paren_token(), ")")?;
    Ok(())
}

#[test]
fn of_path_pat(rt: HostRuntime) -> Result<(), Fail> {
    let it: ast::PathPat = find(&rt, "const A: T = |a::b| a;", "a::b")?;
    is_node(it.path(), "a::b")?;
    Ok(())
}

#[test]
fn of_record_pat(rt: HostRuntime) -> Result<(), Fail> {
    let it: ast::RecordPat = find(&rt, "const A: T = |S { f: p, .. }| a;", "S { f: p, .. }")?;
    is_node(it.path(), "S")?;
    Ok(())
}

#[test]
fn of_record_pat_field(rt: HostRuntime) -> Result<(), Fail> {
    let it: ast::RecordPatField = find(&rt, "const A: T = |S { f: p }| a;", "f: p")?;
    is_node(it.name_ref(), "f")?;
    is_node(it.pat(), "p")?;
    is_token(it.colon_token(), ":")?;
    Ok(())
}

#[test]
fn of_ref_pat(rt: HostRuntime) -> Result<(), Fail> {
    let it: ast::RefPat = find(&rt, "const A: T = |&mut p| a;", "&mut p")?;
    is_node(it.pat(), "p")?;
    is_token(it.amp_token(), "&")?;
    is_token(it.mut_token(), "mut")?;
    Ok(())
}

#[test]
fn of_rest_pat(rt: HostRuntime) -> Result<(), Fail> {
    let it: ast::RestPat = find(&rt, "const A: T = |(..)| a;", "..")?;
    is_token(it.dotdot_token(), "..")?;
    Ok(())
}

#[test]
fn of_slice_pat(rt: HostRuntime) -> Result<(), Fail> {
    let it: ast::SlicePat = find(&rt, "const A: T = |[p, q]| a;", "[p, q]")?;
    is_nodes(it.pats(), &["p", "q"])?;
    is_token(it.l_brack_token(), "[")?;
    is_token(it.r_brack_token(), "]")?;
    Ok(())
}

#[test]
fn of_tuple_pat(rt: HostRuntime) -> Result<(), Fail> {
    let it: ast::TuplePat = find(&rt, "const A: T = |(p, q)| a;", "(p, q)")?;
    is_nodes(it.fields(), &["p", "q"])?;
    is_token(it.l_paren_token(), "(")?;
    is_token(it.r_paren_token(), ")")?;
    Ok(())
}

#[test]
fn of_tuple_struct_pat(rt: HostRuntime) -> Result<(), Fail> {
    let it: ast::TupleStructPat = find(&rt, "const A: T = |S(p, q)| a;", "S(p, q)")?;
    is_nodes(it.fields(), &["p", "q"])?;
    is_node(it.path(), "S")?;
    is_token(it.l_paren_token(), "(")?;
    is_token(it.r_paren_token(), ")")?;
    Ok(())
}

#[test]
fn of_wildcard_pat(rt: HostRuntime) -> Result<(), Fail> {
    let it: ast::WildcardPat = find(&rt, "const A: T = |_| a;", "_")?;
    is_token(it.underscore_token(), "_")?;
    Ok(())
}
