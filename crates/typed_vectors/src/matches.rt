//! `match_ast!` from another crate.
use plain_trees::PlainTree;
use ra_ap_syntax::ast::{self, HasName};
use ra_ap_syntax::{AstNode, SyntaxNode, match_ast};
use std::test::Fail;

fn tree(rt: &HostRuntime, words: &'static str) -> Result<SyntaxNode, Fail> {
    Ok(PlainTree::read(rt.alloc(), words)?.build(rt.alloc())?)
}

// What the node is, by the first arm that takes it.
fn arm(node: &SyntaxNode) -> &'static str {
    match_ast! {
        match node {
            ast::Fn(it) if it.name().is_some() => "a function with a name",
            ast::Item(it) => "an item",
            ast::Expr(it) => "an expression",
            _ => "something else",
        }
    }
}

#[test]
fn the_first_arm_that_takes_it(rt: HostRuntime) -> Result<(), Fail> {
    assert_eq!(rt;
        arm(&tree(&rt, "FN( NAME( IDENT:f ) )")?),
        "a function with a name"
    );
    assert_eq!(rt; arm(&tree(&rt, "FN( )")?), "an item");
    assert_eq!(rt; arm(&tree(&rt, "ASM_EXPR( )")?), "an item");
    assert_eq!(rt; arm(&tree(&rt, "BIN_EXPR( )")?), "an expression");
    assert_eq!(rt; arm(&tree(&rt, "NAME( )")?), "something else");
    Ok(())
}

#[test]
fn the_node_stays(rt: HostRuntime) -> Result<(), Fail> {
    let node = tree(&rt, "STRUCT( NAME( IDENT:s ) )")?;
    let name = match_ast! {
        match node {
            ast::Struct(it) => it.name(),
            _ => None,
        }
    };
    let name = name.ok_or("no name")?;
    assert!(rt; name.syntax().parent() == Some(node));
    Ok(())
}
