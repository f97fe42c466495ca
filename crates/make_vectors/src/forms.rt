//! Nodes from texts and nodes: the pairs that operands get, and the refusals.
use ra_ap_syntax::{AstNode, Edition, ast};
use rust_front::Rust;
use std::alloc::Global;
use std::test::Fail;
use syntax_make::{MakeError, Pairs, Piece, form, form_with, node};

const NOW: Edition = Edition::CURRENT;

fn expr(alloc: Global, text: &str) -> Result<ast::Expr, MakeError> {
    node(alloc, &Rust, text, NOW)
}

// The text of two operands with a text between.
fn between(alloc: Global, left: &str, text: &str, right: &str) -> Result<String, Fail> {
    let left = expr(alloc, left)?;
    let right = expr(alloc, right)?;
    let pieces = [
        Piece::Left(left.syntax()),
        Piece::Text(text),
        Piece::Right(right.syntax()),
    ];
    let made: ast::Expr = form(alloc, &Rust, &pieces, NOW)?;
    Ok(String::from_str(alloc, made.syntax().as_str())?)
}

#[test]
fn operands_get_pairs(rt: HostRuntime) -> Result<(), Fail> {
    let rows = [
        ("a", " + ", "b", "a + b"),
        ("a + b", " * ", "c", "(a + b) * c"),
        ("a", " * ", "b + c", "a * (b + c)"),
        ("a + b", " * ", "c + d", "(a + b) * (c + d)"),
        ("a - b", " - ", "c", "a - b - c"),
        ("a", " - ", "b - c", "a - (b - c)"),
        ("a < b", " == ", "c", "(a < b) == c"),
        ("a < b", " == ", "c < d", "(a < b) == (c < d)"),
        ("a as u8", " < ", "b", "(a as u8) < b"),
        ("a", " = ", "b = c", "a = b = c"),
        ("a", "..", "b..c", "a..(b..c)"),
        ("return a", " + ", "return b", "(return a) + return b"),
        ("a || b", " && ", "c", "(a || b) && c"),
    ];
    for (left, text, right, expected) in &rows {
        assert_eq!(rt;
            between(rt.alloc(), *left, *text, *right)?.as_str(),
            *expected
        );
    }
    Ok(())
}

#[test]
fn parts_are_kept(rt: HostRuntime) -> Result<(), Fail> {
    let alloc = rt.alloc();
    let sum = expr(alloc, "a + b")?;
    let one = expr(alloc, "1")?;
    let grouped = [
        Piece::Part(sum.syntax()),
        Piece::Text(" * "),
        Piece::Part(one.syntax()),
    ];
    let made: Result<ast::Expr, MakeError> = form(alloc, &Rust, &grouped, NOW);
    assert!(rt; matches!(made, Err(MakeError::NotOne)));
    let joined = [Piece::Part(one.syntax()), Piece::Part(one.syntax())];
    let made: Result<ast::Expr, MakeError> = form(alloc, &Rust, &joined, NOW);
    assert!(rt; matches!(made, Err(MakeError::NotOne)));
    let open = [Piece::Text("("), Piece::Part(sum.syntax())];
    let made: Result<ast::Expr, MakeError> = form(alloc, &Rust, &open, NOW);
    assert!(rt; matches!(made, Err(MakeError::Syntax(_))));
    let call = [
        Piece::Text("f("),
        Piece::Part(sum.syntax()),
        Piece::Text(", "),
        Piece::Part(sum.syntax()),
        Piece::Text(")"),
    ];
    let made: ast::CallExpr = form(alloc, &Rust, &call, NOW)?;
    assert!(rt; made.syntax().as_str() == "f(a + b, a + b)");
    Ok(())
}

#[test]
fn pairs_can_be_chosen(rt: HostRuntime) -> Result<(), Fail> {
    let alloc = rt.alloc();
    let one = expr(alloc, "1")?;
    let pieces = [
        Piece::Left(one.syntax()),
        Piece::Text(" + "),
        Piece::Right(one.syntax()),
    ];
    let made: ast::Expr = form_with(alloc, &Rust, Pairs::Right, &pieces, NOW)?;
    assert!(rt; made.syntax().as_str() == "1 + (1)");
    Ok(())
}
