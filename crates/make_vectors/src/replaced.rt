//! Expressions in the places of others.
use ra_ap_syntax::{AstNode, Edition, SourceFile, SyntaxKind, SyntaxNode, ast};
use rust_front::Rust;
use std::alloc::Global;
use std::test::Fail;
use syntax_make::{ReplaceExprError, node, replace_expr};

const NOW: Edition = Edition::CURRENT;

// The path expression `x` of a tree.
fn place_in(root: &SyntaxNode) -> Result<SyntaxNode, Fail> {
    let found = root.descendants().find(|node| node.kind() == SyntaxKind::PATH_EXPR
        && node.as_str() == "x");
    Ok(found.ok_or("there is no x")?)
}

// The text of a tree with an expression for its `x`, or the refusal's name.
fn put(alloc: Global, root: &SyntaxNode, new: &str) -> Result<String, Fail> {
    let old = place_in(root)?;
    let new: ast::Expr = node(alloc, &Rust, new, NOW)?;
    match replace_expr(alloc, &Rust, &old, new.syntax(), NOW) {
        Ok(replaced) => Ok(String::from_str(alloc, replaced.root.as_str())?),
        Err(ReplaceExprError::ReadsOtherwise) => Ok(String::from_str(alloc, "reads otherwise")?),
        Err(error) => Err(Fail::from(error)),
    }
}

// The same in an expression, as a tree of its own and in a file.
fn both(alloc: Global, whole: &str, new: &str) -> Result<String, Fail> {
    let parse = ast::Expr::parse(alloc, whole, &Rust, NOW)?;
    let alone = put(alloc, parse.root(), new)?;
    let file = format!(in alloc; "fn f() {{ let y = {whole}; }}")?;
    let parse = SourceFile::parse(alloc, file.as_str(), &Rust, NOW)?;
    let inside = put(alloc, parse.root(), new)?;
    let expected = format!(in alloc; "fn f() {{ let y = {alone}; }}")?;
    if inside.as_str() == expected.as_str() || inside.as_str() == alone.as_str() {
        return Ok(alone);
    }
    Err(Fail::from(format!(in alloc; "{alone} is in a file {inside}")?))
}

#[test]
fn operators(rt: HostRuntime) -> Result<(), Fail> {
    let rows = [
        ("x * 2", "a + b", "(a + b) * 2"),
        ("2 * x", "a + b", "2 * (a + b)"),
        ("x + 2", "a * b", "a * b + 2"),
        ("x - 2", "a - b", "a - b - 2"),
        ("2 - x", "a - b", "2 - (a - b)"),
        ("x == 2", "a < b", "(a < b) == 2"),
        ("!x", "a as u8", "!(a as u8)"),
        ("!x", "a.b", "!a.b"),
        ("!x", "!a", "!!a"),
        ("-x", "-1", "--1"),
        ("&x", "&a", "&&a"),
        ("&x", "a + b", "&(a + b)"),
        ("&x", "&mut a", "&&mut a"),
        ("x as u8", "-a", "-a as u8"),
        ("x as u8", "a + b", "(a + b) as u8"),
        ("x < 2", "a as u8", "(a as u8) < 2"),
        ("x > 2", "a as u8", "a as u8 > 2"),
        ("x.f()", "-1", "(-1).f()"),
        ("x.f()", "1", "1.f()"),
        ("x.f()", "a?", "a?.f()"),
        ("x.f()", "a..b", "(a..b).f()"),
        ("x(1)", "a.f", "(a.f)(1)"),
        ("x(1)", "|a| a", "(|a| a)(1)"),
        ("f(x)", "a + b", "f(a + b)"),
        ("f(x)", "|a| a", "f(|a| a)"),
        ("a[x]", "b..c", "a[b..c]"),
        ("x[1]", "&a", "(&a)[1]"),
        ("x?", "return a", "(return a)?"),
        ("x..b", "a + b", "a + b..b"),
        ("x..b", "a..c", "(a..c)..b"),
        ("x = 1", "*a", "*a = 1"),
        ("a = x", "b = c", "a = b = c"),
        ("(x)", "a + b", "(a + b)"),
        (
            "x + 1",
            "if a { b } else { c }",
            "if a { b } else { c } + 1",
        ),
        ("return x", "a", "return a"),
        ("x && y", "a || b", "(a || b) && y"),
        ("|a| x", "a + b", "|a| a + b"),
    ];
    for (whole, new, expected) in &rows {
        let made = both(rt.alloc(), *whole, *new)?;
        assert_eq!(rt; made.as_str(), *expected);
    }
    Ok(())
}

#[test]
fn places_beyond_operators(rt: HostRuntime) -> Result<(), Fail> {
    let alloc = rt.alloc();
    let rows = [
        ("fn f() { if x {} }", "S {}", "fn f() { if (S {}) {} }"),
        ("fn f() { if x {} }", "a == b", "fn f() { if a == b {} }"),
        (
            "fn f() { match x {} }",
            "S { a }",
            "fn f() { match (S { a }) {} }",
        ),
        (
            "fn f() { while x {} }",
            "S {}.f()",
            "fn f() { while (S {}.f()) {} }",
        ),
        (
            "fn f() { for a in x {} }",
            "0..3",
            "fn f() { for a in 0..3 {} }",
        ),
        ("fn f() { x + 1; }", "{ a }", "fn f() { ({ a }) + 1; }"),
        ("fn f() { x.a(); }", "{ a }", "fn f() { { a }.a(); }"),
        (
            "fn f() { let y = x else { a }; }",
            "b && c",
            "fn f() { let y = (b && c) else { a }; }",
        ),
        (
            "fn f() { if let a = x {} }",
            "b && c",
            "fn f() { if let a = (b && c) {} }",
        ),
        ("const A: u8 = x;", "1 + 2", "const A: u8 = 1 + 2;"),
    ];
    for (whole, new, expected) in &rows {
        let parse = SourceFile::parse(alloc, *whole, &Rust, NOW)?;
        assert_eq!(rt; put(alloc, parse.root(), *new)?.as_str(), *expected);
    }
    Ok(())
}

// The root can be replaced too: the tree is then the new expression.
#[test]
fn a_root_is_replaced(rt: HostRuntime) -> Result<(), Fail> {
    let parse = ast::Expr::parse(rt.alloc(), "x", &Rust, NOW)?;
    assert_eq!(rt; put(rt.alloc(), parse.root(), "a + b")?.as_str(), "a + b");
    Ok(())
}
