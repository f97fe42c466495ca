//! Nodes from text: one of each place, and the refusals.
use ra_ap_syntax::{AstNode, Edition, SyntaxKind, ast};
use rust_front::Rust;
use std::alloc::Global;
use std::test::Fail;
use syntax_make::{MakeError, PLACES, Place, node, node_in};

const NOW: Edition = Edition::CURRENT;

fn named<N: AstNode + Drop>(made: Result<N, MakeError>, text: &str) -> Result<&'static str, Fail> {
    match made {
        Ok(made) => {
            if made.syntax().as_str() == text && made.syntax().parent().is_none() {
                Ok("made")
            } else {
                Ok("another node")
            }
        }
        Err(MakeError::Syntax(_)) => Ok("syntax"),
        Err(MakeError::NotOne) => Ok("not one"),
        Err(MakeError::NoPlace) => Ok("no place"),
        Err(MakeError::TooLong) => Ok("too long"),
        Err(MakeError::Memory) => Err(Fail::from("out of memory")),
    }
}

fn answer<N: AstNode + Drop>(alloc: Global, text: &str) -> Result<&'static str, Fail> {
    named::<N>(node(alloc, &Rust, text, NOW), text)
}

// Whether each text is made.
fn all_made<N: AstNode + Drop>(alloc: Global, texts: &[&str]) -> Result<(), Fail> {
    for text in texts {
        if answer::<N>(alloc, *text)? != "made" {
            return Err(Fail::from(format!(in alloc; "not made: {text}")?));
        }
    }
    Ok(())
}

#[test]
fn expressions(rt: HostRuntime) -> Result<(), Fail> {
    all_made::<ast::Expr>(
        rt.alloc(),
        &[
            "1",
            "a",
            "a::b::<C>",
            "a + b",
            "f(a)",
            "a.f(b)",
            "a.0",
            "a[1]",
            "a?",
            "a.await",
            "-a",
            "&mut a",
            "a as u8",
            "a = b",
            "a..b",
            "..",
            "()",
            "(a)",
            "(a, b)",
            "[a, b]",
            "S { a: 1 }",
            "{ a }",
            "unsafe { a }",
            "if a { b } else { c }",
            "match a { _ => 1 }",
            "loop {}",
            "while a {}",
            "for a in b {}",
            "|a| b",
            "move || a",
            "return a",
            "break 'a b",
            "continue",
            "m!(a)",
            "_",
        ],
    )?;
    all_made::<ast::BinExpr>(rt.alloc(), &["a + b"])?;
    all_made::<ast::LetExpr>(rt.alloc(), &["let Some(a) = b"])?;
    all_made::<ast::Expr>(
        rt.alloc(),
        &["let a = b", "let a = b && c", "c && let a = b"],
    )?;
    all_made::<ast::BinExpr>(rt.alloc(), &["let a = b && let c = d"])?;
    all_made::<ast::BlockExpr>(rt.alloc(), &["{ let a = 1; a }"])?;
    all_made::<ast::StmtList>(rt.alloc(), &["{ let a = 1; a }"])?;
    all_made::<ast::NameRef>(rt.alloc(), &["a", "self", "r#fn"])
}

#[test]
fn types_and_patterns(rt: HostRuntime) -> Result<(), Fail> {
    all_made::<ast::Type>(
        rt.alloc(),
        &[
            "T",
            "a::T<U>",
            "(A, B)",
            "()",
            "&'a mut T",
            "*const T",
            "[T; 3]",
            "[T]",
            "!",
            "_",
            "fn(A) -> B",
            "impl A + B",
            "dyn A",
            "for<'a> fn(&'a T)",
            "m!()",
            "(T)",
        ],
    )?;
    all_made::<ast::Pat>(
        rt.alloc(),
        &[
            "_",
            "a",
            "ref mut a",
            "a @ 1",
            "1..=2",
            "\"a\"",
            "A::B",
            "A(a, ..)",
            "A { a, b: 1, .. }",
            "(a, b)",
            "[a, ..]",
            "&a",
            "a | b",
            "(a)",
            "..",
            "m!()",
            "box a",
            "const { 1 }",
        ],
    )?;
    all_made::<ast::Path>(
        rt.alloc(),
        &["a", "a::b", "crate::a", "Vec<T>", "<T as U>::V"],
    )?;
    all_made::<ast::PathSegment>(rt.alloc(), &["a", "Vec<T>", "super"])?;
    all_made::<ast::Lifetime>(rt.alloc(), &["'a", "'static"])?;
    all_made::<ast::ForBinder>(rt.alloc(), &["for<'a>"])
}

#[test]
fn items_and_statements(rt: HostRuntime) -> Result<(), Fail> {
    all_made::<ast::Item>(
        rt.alloc(),
        &[
            "fn f() {}",
            "struct S;",
            "struct S(u8);",
            "enum E { A }",
            "union U { a: u8 }",
            "trait T {}",
            "impl T for U {}",
            "mod m;",
            "use a::b;",
            "const A: u8 = 1;",
            "static A: u8 = 1;",
            "type A = B;",
            "extern \"C\" {}",
            "extern crate a;",
            "m! {}",
            "macro_rules! m { () => {} }",
            "macro m() {}",
            "// a\nfn f() {}",
            "#[a]\npub fn f() {}",
        ],
    )?;
    all_made::<ast::Fn>(rt.alloc(), &["fn f(&self);"])?;
    all_made::<ast::AssocItem>(rt.alloc(), &["fn f(&self) {}", "const A: u8;", "type A;"])?;
    all_made::<ast::Stmt>(
        rt.alloc(),
        &[
            "a;",
            "let a = 1;",
            "if a {}",
            "fn f() {}",
            "m!();",
            "let a = b else { c };",
        ],
    )?;
    all_made::<ast::SourceFile>(rt.alloc(), &["", "fn f() {} // a\n"])
}

#[test]
fn parts_of_items(rt: HostRuntime) -> Result<(), Fail> {
    let alloc = rt.alloc();
    all_made::<ast::Name>(alloc, &["a", "r#fn"])?;
    all_made::<ast::GenericArgList>(alloc, &["<A, 'a>", "::<A>"])?;
    all_made::<ast::GenericArg>(alloc, &["A", "'a", "3", "{ a }", "A = B"])?;
    all_made::<ast::GenericParamList>(alloc, &["<'a, A: B, const C: D>"])?;
    all_made::<ast::GenericParam>(alloc, &["'a", "A: B + C = D", "const A: u8"])?;
    all_made::<ast::TypeBoundList>(alloc, &["A + B", "?Sized"])?;
    all_made::<ast::TypeBound>(alloc, &["A", "'a"])?;
    all_made::<ast::ParamList>(alloc, &["()", "(&self, a: B)"])?;
    all_made::<ast::Param>(alloc, &["a: B", "(a, b): C", "a", "_", "&a", "(a, b)"])?;
    all_made::<ast::SelfParam>(alloc, &["self", "&mut self", "self: Box<Self>"])?;
    all_made::<ast::RetType>(alloc, &["-> A"])?;
    all_made::<ast::WhereClause>(alloc, &["where A: B, C: D"])?;
    all_made::<ast::WherePred>(alloc, &["A: B", "'a: 'b"])?;
    all_made::<ast::RecordFieldList>(alloc, &["{ a: B }", "{}"])?;
    all_made::<ast::RecordField>(alloc, &["pub a: B"])?;
    all_made::<ast::TupleFieldList>(alloc, &["(A, B)"])?;
    all_made::<ast::TupleField>(alloc, &["pub A"])?;
    all_made::<ast::Variant>(alloc, &["A", "A(B)", "A { b: C }", "A = 1"])?;
    all_made::<rust_views::VariantList>(alloc, &["{ A, B(C) }", "{}"])?;
    all_made::<rust_views::ParenthesizedArgList>(alloc, &["(A, B)", "()"])?;
    all_made::<rust_views::Rename>(alloc, &["as a", "as _"])?;
    all_made::<ast::MacroCall>(alloc, &["m!(a);", "m! {}"])?;
    all_made::<ast::Attr>(alloc, &["#[a]", "#[a(b)]", "#[a = \"b\"]"])?;
    all_made::<ast::Visibility>(alloc, &["pub", "pub(crate)", "pub(in a)"])?;
    all_made::<ast::Abi>(alloc, &["extern \"C\""])?;
    all_made::<ast::Meta>(alloc, &["a", "a(b)", "a = \"b\""])?;
    all_made::<ast::UseTree>(alloc, &["a", "a::*", "a::{b, c}", "a as b", "*"])?;
    all_made::<ast::UseTreeList>(alloc, &["{a, b}"])?;
    all_made::<ast::ItemList>(alloc, &["{ fn f() {} }"])?;
    all_made::<ast::AssocItemList>(alloc, &["{ fn f() {} }"])?;
    all_made::<ast::ExternItemList>(alloc, &["{ fn f(); }"])
}

#[test]
fn parts_of_expressions(rt: HostRuntime) -> Result<(), Fail> {
    let alloc = rt.alloc();
    all_made::<ast::MatchArmList>(alloc, &["{ a => b, _ => {} }", "{}"])?;
    all_made::<ast::MatchArm>(alloc, &["a => b", "a if c => b,", "_ => {}"])?;
    all_made::<ast::MatchGuard>(alloc, &["if a"])?;
    all_made::<ast::ArgList>(alloc, &["()", "(a, b)"])?;
    all_made::<ast::RecordExprField>(alloc, &["a", "a: 1"])?;
    all_made::<ast::RecordPatField>(alloc, &["a", "a: 1", "ref a"])?;
    all_made::<rust_views::RecordExprFieldList>(alloc, &["{ a, b: 1 }", "{}", "{ ..a }"])?;
    all_made::<rust_views::RecordPatFieldList>(alloc, &["{ a, b: 1, .. }", "{}"])?;
    all_made::<ast::LetElse>(alloc, &["else { a }"])?;
    all_made::<ast::Label>(alloc, &["'a:"])?;
    all_made::<ast::TokenTree>(alloc, &["(a b)", "[1]", "{}"])
}

#[test]
fn refusals(rt: HostRuntime) -> Result<(), Fail> {
    let alloc = rt.alloc();
    assert_eq!(rt; answer::<ast::Expr>(alloc, "a +")?, "syntax");
    assert_eq!(rt; answer::<ast::Expr>(alloc, "")?, "syntax");
    assert_eq!(rt; answer::<ast::Expr>(alloc, "a; b")?, "syntax");
    assert_eq!(rt; answer::<ast::Expr>(alloc, "a // b")?, "syntax");
    assert_eq!(rt; answer::<ast::Expr>(alloc, "let a = b;")?, "syntax");
    assert_eq!(rt; answer::<ast::Expr>(alloc, "let a")?, "syntax");
    assert_eq!(rt; answer::<ast::MacroCall>(alloc, "m!(a)")?, "syntax");
    assert_eq!(rt; answer::<ast::Param>(alloc, "a: ")?, "syntax");
    assert_eq!(rt; answer::<ast::Expr>(alloc, "'ab'")?, "syntax");
    assert_eq!(rt; answer::<ast::Expr>(alloc, "a ")?, "not one");
    assert_eq!(rt; answer::<ast::Expr>(alloc, " a")?, "not one");
    assert_eq!(rt; answer::<ast::Expr>(alloc, "a /* b */")?, "not one");
    assert_eq!(rt;
        answer::<ast::Expr>(alloc, "1; const D: () = 2")?,
        "not one"
    );
    assert_eq!(rt; answer::<ast::CallExpr>(alloc, "a + f(b)")?, "not one");
    assert_eq!(rt;
        answer::<ast::Item>(alloc, "fn f() {} fn g() {}")?,
        "not one"
    );
    assert_eq!(rt; answer::<ast::Name>(alloc, "a::b")?, "syntax");
    assert_eq!(rt; answer::<ast::Name>(alloc, "fn")?, "syntax");
    assert_eq!(rt; answer::<ast::MacroStmts>(alloc, "a; b")?, "no place");
    assert_eq!(rt;
        named::<ast::Expr>(
            node_in(alloc, &Rust, Place::Condition, "let a = b", NOW),
            "let a = b"
        )?,
        "made"
    );
    assert_eq!(rt;
        named::<ast::NameRef>(node_in(alloc, &Rust, Place::UseTree, "a", NOW), "a")?,
        "made"
    );
    Ok(())
}

// The first error is named, and its range is that in the surroundings.
#[test]
fn an_error_is_the_first(rt: HostRuntime) -> Result<(), Fail> {
    let alloc = rt.alloc();
    let made: Result<ast::Expr, MakeError> = node(alloc, &Rust, "a + + ", NOW);
    match made {
        Err(MakeError::Syntax(error)) => assert_eq!(rt; error.message(), "expected expression"),
        _ => return Err(Fail::from("it is made")),
    }
    Ok(())
}

// A kind has one row, and so one place.
#[test]
fn no_kind_has_two_rows(rt: HostRuntime) -> Result<(), Fail> {
    let mut seen: Vec<SyntaxKind> = Vec::new(rt.alloc());
    for (kind, _) in &PLACES {
        assert!(rt; !seen.contains(kind));
        seen.push(*kind)?;
    }
    Ok(())
}
