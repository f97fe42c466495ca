//! Lookups in attributes and doc comments. Made by `tools/views` from `views.txt`.
use crate::{find, is_node, is_nodes, is_token};
use ra_ap_syntax::ast;
use std::test::Fail;

#[test]
fn of_attr(rt: HostRuntime) -> Result<(), Fail> {
    let it: ast::Attr = find(&rt, "#[a] fn f() {}", "#[a]")?;
    is_node(it.meta(), "a")?;
    is_token(it.l_brack_token(), "[")?;
    is_token(it.pound_token(), "#")?;
    is_token(it.r_brack_token(), "]")?;
    let it: ast::Attr = find(&rt, "#![a]", "#![a]")?;
    is_token(it.excl_token(), "!")?;
    Ok(())
}

#[test]
fn of_cfg_atom(rt: HostRuntime) -> Result<(), Fail> {
    let it: ast::CfgAtom = find(&rt, "#[cfg(a)] fn f() {}", "a")?;
    is_token(it.ident_token(), "a")?;
    let it: ast::CfgAtom = find(&rt, "#[cfg(true)] fn f() {}", "true")?;
    is_token(it.true_token(), "true")?;
    let it: ast::CfgAtom = find(&rt, "#[cfg(false)] fn f() {}", "false")?;
    is_token(it.false_token(), "false")?;
    Ok(())
}

#[test]
fn of_cfg_attr_meta(rt: HostRuntime) -> Result<(), Fail> {
    let it: ast::CfgAttrMeta = find(&rt, "#[cfg_attr(p, m)] fn f() {}", "cfg_attr(p, m)")?;
    is_nodes(it.metas(), &["m"])?;
    is_token(it.comma_token(), ",")?;
    is_token(it.l_paren_token(), "(")?;
    is_token(it.r_paren_token(), ")")?;
    Ok(())
}

#[test]
fn of_cfg_meta(rt: HostRuntime) -> Result<(), Fail> {
    let it: ast::CfgMeta = find(&rt, "#[cfg(p)] fn f() {}", "cfg(p)")?;
    is_token(it.l_paren_token(), "(")?;
    is_token(it.r_paren_token(), ")")?;
    Ok(())
}

#[test]
fn of_doc_comment(rt: HostRuntime) -> Result<(), Fail> {
    let it: ast::DocComment = find(&rt, "/// a\nfn f() {}", "/// a")?;
    is_token(it.outer_doc_comment_token(), "/// a")?;
    let it: ast::DocComment = find(&rt, "fn f() { //! a\n}", "//! a")?;
    is_token(it.inner_doc_comment_token(), "//! a")?;
    Ok(())
}

#[test]
fn of_key_value_meta(rt: HostRuntime) -> Result<(), Fail> {
    let it: ast::KeyValueMeta = find(&rt, "#[a = b] fn f() {}", "a = b")?;
    is_node(it.expr(), "b")?;
    is_node(it.path(), "a")?;
    is_token(it.eq_token(), "=")?;
    Ok(())
}

#[test]
fn of_path_meta(rt: HostRuntime) -> Result<(), Fail> {
    let it: ast::PathMeta = find(&rt, "#[a::b] fn f() {}", "a::b")?;
    is_node(it.path(), "a::b")?;
    Ok(())
}

#[test]
fn of_token_tree(rt: HostRuntime) -> Result<(), Fail> {
    let it: ast::TokenTree = find(&rt, "m!(a) ;", "(a)")?;
    is_token(it.l_paren_token(), "(")?;
    is_token(it.r_paren_token(), ")")?;
    let it: ast::TokenTree = find(&rt, "m![a] ;", "[a]")?;
    is_token(it.l_brack_token(), "[")?;
    is_token(it.r_brack_token(), "]")?;
    let it: ast::TokenTree = find(&rt, "m!{a}", "{a}")?;
    is_token(it.l_curly_token(), "{")?;
    is_token(it.r_curly_token(), "}")?;
    Ok(())
}

#[test]
fn of_token_tree_meta(rt: HostRuntime) -> Result<(), Fail> {
    let it: ast::TokenTreeMeta = find(&rt, "#[a(b)] fn f() {}", "a(b)")?;
    is_node(it.path(), "a")?;
    is_node(it.token_tree(), "(b)")?;
    Ok(())
}

#[test]
fn of_unsafe_meta(rt: HostRuntime) -> Result<(), Fail> {
    let it: ast::UnsafeMeta = find(&rt, "#[unsafe(m)] fn f() {}", "unsafe(m)")?;
    is_node(it.meta(), "m")?;
    is_token(it.l_paren_token(), "(")?;
    is_token(it.r_paren_token(), ")")?;
    is_token(it.unsafe_token(), "unsafe")?;
    Ok(())
}
