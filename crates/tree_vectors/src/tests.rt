//! How nodes, tokens and elements print, conversions of elements, the tokens at an offset, and the
//! nearest token that is not trivia.
use crate::name_tree;
use lossless_tree::{
    SyntaxElement, SyntaxKind, SyntaxNode, SyntaxToken, TextSize, TokenAtOffset, TreeBuilder,
};
use std::alloc::Global;
use std::test::Fail;

// A struct that holds a node can derive `Debug`.
#[derive(Debug, Drop)]
struct Named {
    name: SyntaxNode,
}

fn last_token(root: &SyntaxNode) -> Result<SyntaxToken, Fail> {
    root.last_token().ok_or_else(|| Fail::from("no token"))
}

#[test]
fn nodes_and_tokens_print(rt: HostRuntime) -> Result<(), Fail> {
    let alloc = rt.alloc();
    let root = name_tree(alloc, "a\"b")?;
    let token = last_token(&root)?;
    let text = format!(in alloc; "{root:?}|{root}|{token:?}|{token}")?;
    assert!(rt; text.as_str() == "NAME@0..4| a\"b|IDENT@1..4 \"a\\\"b\"|a\"b");
    Ok(())
}

#[test]
fn elements_print_as_what_they_are(rt: HostRuntime) -> Result<(), Fail> {
    let alloc = rt.alloc();
    let root = name_tree(alloc, "x")?;
    let token = SyntaxElement::from(last_token(&root)?);
    let text = format!(in alloc; "{token:?}|{token}")?;
    assert!(rt; text.as_str() == "IDENT@1..2 \"x\"|x");
    let node = SyntaxElement::from(root);
    let text = format!(in alloc; "{node:?}|{node}")?;
    assert!(rt; text.as_str() == "NAME@0..2| x");
    assert!(rt; node != token);
    Ok(())
}

#[test]
fn a_struct_with_a_node_prints(rt: HostRuntime) -> Result<(), Fail> {
    let alloc = rt.alloc();
    let named = Named {
        name: name_tree(alloc, "x")?,
    };
    let text = format!(in alloc; "{named:?}")?;
    assert!(rt; text.as_str() == "Named { name: NAME@0..2 }");
    Ok(())
}

#[test]
fn tokens_at_an_offset_are_mapped(rt: HostRuntime) -> Result<(), Fail> {
    let root = name_tree(rt.alloc(), "x")?;
    let found = root.token_at_offset(TextSize::new(1));
    let ends = found.map(|token: SyntaxToken| token.text_range().end().raw());
    let TokenAtOffset::Between(left, right) = ends else {
        return Err(Fail::from("not two tokens"));
    };
    assert!(rt; left == 1 && right == 2);
    Ok(())
}

fn put(builder: &mut TreeBuilder, tokens: &[(SyntaxKind, &str)]) -> Result<(), Fail> {
    for (kind, text) in tokens {
        builder.token(*kind, text)?;
    }
    Ok(())
}

// ` a /**/ b// `: two names with blanks and comments around, the second inside a node.
fn spaced_tree(alloc: Global) -> Result<SyntaxNode, Fail> {
    let mut builder = TreeBuilder::new(alloc);
    builder.start_node(SyntaxKind::PATH)?;
    put(
        &mut builder,
        &[
            (SyntaxKind::WHITESPACE, " "),
            (SyntaxKind::IDENT, "a"),
            (SyntaxKind::WHITESPACE, " "),
            (SyntaxKind::COMMENT, "/**/"),
        ],
    )?;
    builder.start_node(SyntaxKind::NAME_REF)?;
    put(
        &mut builder,
        &[
            (SyntaxKind::WHITESPACE, " "),
            (SyntaxKind::IDENT, "b"),
            (SyntaxKind::COMMENT, "// "),
        ],
    )?;
    builder.finish_node()?;
    builder.finish_node()?;
    Ok(builder.finish()?)
}

fn has_text(token: Option<SyntaxToken>, text: &str) -> bool {
    match token {
        Some(token) => *token.text() == *text,
        None => false,
    }
}

fn is_it(found: Option<SyntaxToken>, token: &SyntaxToken) -> bool {
    match found {
        Some(found) => found == *token,
        None => false,
    }
}

// Each is the other's nearest token, and beyond them there is none.
fn are_the_only_two(a: &SyntaxToken, b: &SyntaxToken) -> bool {
    is_it(a.next_token_no_trivia(), b)
        && is_it(b.prev_token_no_trivia(), a)
        && a.prev_token_no_trivia().is_none()
        && b.next_token_no_trivia().is_none()
}

#[test]
fn the_nearest_token_passes_blanks_and_comments(rt: HostRuntime) -> Result<(), Fail> {
    let root = spaced_tree(rt.alloc())?;
    let last = last_token(&root)?;
    assert!(rt; has_text(last.prev_token_no_trivia(), "b"));
    assert!(rt; last.next_token_no_trivia().is_none());
    let first = root.first_token().ok_or("no first token")?;
    assert!(rt; has_text(first.next_token_no_trivia(), "a"));
    assert!(rt; first.prev_token_no_trivia().is_none());
    Ok(())
}

#[test]
fn two_names_are_each_others_nearest_tokens(rt: HostRuntime) -> Result<(), Fail> {
    let root = spaced_tree(rt.alloc())?;
    let b = last_token(&root)?.prev_token_no_trivia();
    let b = b.ok_or("no token before")?;
    let a = b.prev_token_no_trivia().ok_or("no token before that")?;
    assert!(rt; are_the_only_two(&a, &b));
    Ok(())
}
