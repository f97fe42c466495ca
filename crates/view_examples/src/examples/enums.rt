//! Lookups in the nodes of enums. Made by `tools/views` from `views.txt`.
use crate::{find, is_node, is_token};
use ra_ap_syntax::ast;
use std::test::Fail;

#[test]
fn of_meta(rt: HostRuntime) -> Result<(), Fail> {
    let it: ast::Meta = find(&rt, "#[a = b] fn f() {}", "a = b")?;
    is_node(it.expr(), "b")?;
    is_token(it.eq_token(), "=")?;
    let it: ast::Meta = find(&rt, "#[a(b)] fn f() {}", "a(b)")?;
    is_node(it.token_tree(), "(b)")?;
    let it: ast::Meta = find(&rt, "#[unsafe(m)] fn f() {}", "unsafe(m)")?;
    is_token(it.l_paren_token(), "(")?;
    is_token(it.r_paren_token(), ")")?;
    is_token(it.unsafe_token(), "unsafe")?;
    Ok(())
}
