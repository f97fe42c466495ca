//! `T!` and `match_ast!`, and results of the calls on small trees.
use crate::{call_at, is_literal_node, is_written, name_of_fn, operator_at};
use ra_ap_syntax::ast::{AstNode, HasName};
use ra_ap_syntax::{FinishError, SyntaxKind, SyntaxNode, T, TextSize, TreeBuilder, ast, match_ast};
use std::alloc::Global;
use std::test::Fail;

fn is_sign(kind: SyntaxKind) -> bool {
    matches!(kind, T![+] | T![-] | T!['('] | T![..=])
}

#[test]
fn kinds_are_named_by_their_texts(rt: HostRuntime) -> Result<(), Fail> {
    assert!(rt; T![+] == SyntaxKind::PLUS && T!['$'] == SyntaxKind::DOLLAR);
    assert!(rt; T![<<=] == SyntaxKind::SHLEQ && T![_] == SyntaxKind::UNDERSCORE);
    assert!(rt; is_sign(T![..=]) && is_sign(SyntaxKind::L_PAREN) && !is_sign(T![match]));
    Ok(())
}

// The tree of `fn f 1+`: a function that has a name alone, and after it a sum without a right side.
fn tree(alloc: Global) -> Result<SyntaxNode, FinishError> {
    let memory = |_| FinishError::Memory;
    let mut builder = TreeBuilder::new(alloc);
    builder.start_node(SyntaxKind::SOURCE_FILE).map_err(memory)?;
    builder.start_node(SyntaxKind::FN).map_err(memory)?;
    builder.token(T![fn], "fn").map_err(memory)?;
    builder.token(SyntaxKind::WHITESPACE, " ").map_err(memory)?;
    builder.start_node(SyntaxKind::NAME).map_err(memory)?;
    builder.token(SyntaxKind::IDENT, "f").map_err(memory)?;
    builder.finish_node().map_err(memory)?;
    builder.finish_node().map_err(memory)?;
    builder.token(SyntaxKind::WHITESPACE, " ").map_err(memory)?;
    builder.start_node(SyntaxKind::BIN_EXPR).map_err(memory)?;
    builder.start_node(SyntaxKind::LITERAL).map_err(memory)?;
    builder.token(SyntaxKind::INT_NUMBER, "1").map_err(memory)?;
    builder.finish_node().map_err(memory)?;
    builder.token(T![+], "+").map_err(memory)?;
    builder.finish_node().map_err(memory)?;
    builder.finish_node().map_err(memory)?;
    builder.finish()
}

fn name_of(node: &SyntaxNode) -> Option<ast::Name> {
    match_ast! {
        match node {
            ast::Fn(it) => name_of_fn(&it),
            ast::Struct(it) => it.name(),
            _ => None,
        }
    }
}

#[test]
fn a_function_has_a_name(rt: HostRuntime) -> Result<(), Fail> {
    let root = tree(rt.alloc())?;
    let function = root.first_child().ok_or("no function")?;
    let name = name_of(&function).ok_or("no name")?;
    let token = name.syntax().first_token().ok_or("no token")?;
    assert!(rt; is_written(&token, "f") && name_of(&root).is_none());
    Ok(())
}

#[test]
fn an_offset_leads_to_an_operator(rt: HostRuntime) -> Result<(), Fail> {
    let root = tree(rt.alloc())?;
    let sum = operator_at(&root, TextSize::new(6)).ok_or("no sum")?;
    let sign = sum.op_token().ok_or("no sign")?;
    assert!(rt; is_sign(sign.kind()) && operator_at(&root, TextSize::new(1)).is_none());
    let literal = sum.syntax().first_child().ok_or("no literal")?;
    assert!(rt; is_literal_node(&literal) && call_at(literal).is_none());
    Ok(())
}
