//! Lookups of `rust_views` in patterns. Made by `tools/views` from `views.txt`.
use crate::{find, is_node, is_nodes, is_token};
use ra_ap_syntax::ast;
use rust_views::{BoxPatExt, RecordPatExt, RecordPatFieldList, RecordPatFieldListExt};
use std::test::Fail;

#[test]
fn of_box_pat(rt: HostRuntime) -> Result<(), Fail> {
    let it: ast::BoxPat = find(&rt, "const A: T = |box p| a;", "box p")?;
    is_token(it.box_token(), "box")?;
    Ok(())
}

#[test]
fn of_record_pat(rt: HostRuntime) -> Result<(), Fail> {
    let it: ast::RecordPat = find(&rt, "const A: T = |S { f: p, .. }| a;", "S { f: p, .. }")?;
    is_node(it.record_pat_field_list(), "{ f: p, .. }")?;
    Ok(())
}

#[test]
fn of_record_pat_field_list(rt: HostRuntime) -> Result<(), Fail> {
    let it: RecordPatFieldList = find(&rt, "const A: T = |S { f: p, .. }| a;", "{ f: p, .. }")?;
    is_nodes(it.fields(), &["f: p"])?;
    is_node(it.rest_pat(), "..")?;
    is_token(it.l_curly_token(), "{")?;
    is_token(it.r_curly_token(), "}")?;
    Ok(())
}
