//! Constructors of parts, and what depends on what a part ends in: commas, semicolons, line ends.
use ra_ap_syntax::ast::{self, ArithOp, BinaryOp, LogicOp};
use ra_ap_syntax::{AstNode, Edition, SourceFile, SyntaxKind};
use rust_front::Rust;
use rust_make::{Make, MakeError};
use std::alloc::Global;
use std::test::Fail;

fn is<N: AstNode + Drop>(made: Result<N, MakeError>, text: &str) -> bool {
    match made {
        Ok(node) => node.syntax().as_str() == text && node.syntax().parent().is_none(),
        Err(_) => false,
    }
}

// The first node of a kind in a file.
fn first<N: AstNode + Drop>(alloc: Global, text: &str) -> Result<N, Fail> {
    let file = SourceFile::parse(alloc, text, &Rust, Edition::CURRENT)?;
    for node in file.syntax_node().descendants() {
        if let Some(it) = N::cast(node) {
            return Ok(it);
        }
    }
    Err(Fail::from("there is no such node"))
}

#[test]
fn arms_end_with_a_comma_or_a_block(rt: HostRuntime) -> Result<(), Fail> {
    let alloc = rt.alloc();
    let make = Make::new(alloc, &Rust, Edition::CURRENT);
    let p = make.node::<ast::Pat>("p")?;
    let rows = [
        ("{ 1 }", "p => { 1 }"),
        ("if a {}", "p => if a {}"),
        ("loop {}", "p => loop {}"),
        ("for a in b {}", "p => for a in b {}"),
        ("while a {}", "p => while a {}"),
        ("match a {}", "p => match a {}"),
        ("unsafe { a }", "p => unsafe { a }"),
        ("a", "p => a,"),
        ("S {}", "p => S {},"),
        ("m! {}", "p => m! {},"),
    ];
    for (body, expected) in &rows {
        let body = make.node::<ast::Expr>(*body)?;
        assert!(rt; is(make.match_arm(&p, None, &body), *expected));
    }
    let wide = make.match_guard(&make.node::<ast::Expr>("a\n    && b")?)?;
    let block = make.node::<ast::Expr>("{ 1 }")?;
    let one = make.node::<ast::Expr>("1")?;
    assert!(rt;
        is(
            make.match_arm(&p, Some(&wide), &block),
            "p if a\n    && b =>\n{ 1 }"
        )
    );
    assert!(rt;
        is(
            make.match_arm(&p, Some(&wide), &one),
            "p if a\n    && b => 1,"
        )
    );
    Ok(())
}

#[test]
fn arms_get_commas(rt: HostRuntime) -> Result<(), Fail> {
    let alloc = rt.alloc();
    let make = Make::new(alloc, &Rust, Edition::CURRENT);
    let open = first::<ast::MatchArm>(alloc, "fn f() { match a { A /* b */ if c => 1 } }")?;
    let closed = first::<ast::MatchArm>(alloc, "fn f() { match a { B => {} C => 1 } }")?;
    assert!(rt; open.comma_token().is_none());
    assert!(rt;
        is(
            make.match_arm_list(&[open.clone()?, closed.clone()?]),
            "{\n    A /* b */ if c => 1,\n    B => {}\n}"
        )
    );
    let list = make.match_arm_list(&[closed, open])?;
    assert!(rt; list.syntax().as_str() == "{\n    B => {}\n    A /* b */ if c => 1,\n}");
    assert!(rt; list.arms().count() == 2);
    let odd = first::<ast::MatchArm>(alloc, "fn f() { match a { A => } }")?;
    assert!(rt; make.match_arm_list(&[odd]).is_err());
    Ok(())
}

#[test]
fn statements_end_with_a_semicolon_or_a_block(rt: HostRuntime) -> Result<(), Fail> {
    let alloc = rt.alloc();
    let make = Make::new(alloc, &Rust, Edition::CURRENT);
    let a = make.node::<ast::Expr>("a")?;
    assert!(rt;
        is(
            make.expr_stmt(&make.node::<ast::Expr>("loop {}")?),
            "loop {}"
        )
    );
    assert!(rt;
        is(
            make.expr_stmt(&make.node::<ast::Expr>("if a {}")?),
            "if a {}"
        )
    );
    assert!(rt; is(make.expr_stmt(&make.node::<ast::Expr>("S {}")?), "S {};"));
    assert!(rt; is(make.expr_loop(&make.expr_empty_block()?), "loop {}"));
    let bare = [
        make.node::<ast::Stmt>("a;")?,
        make.node::<ast::Stmt>("if a {}")?,
    ];
    let block = make.block_expr(&bare, None)?;
    assert!(rt; block.syntax().as_str() == "{\n    a;\n    if a {}\n}");
    let list = block.stmt_list().ok_or("no statements")?;
    let tail = list.tail_expr().ok_or("no value")?;
    assert!(rt; tail.syntax().kind() == SyntaxKind::IF_EXPR);
    assert!(rt;
        is(
            make.block_expr(&bare, Some(&a)),
            "{\n    a;\n    if a {}\n    a\n}"
        )
    );
    assert!(rt;
        is(
            make.block_expr(&bare, Some(&make.node::<ast::Expr>("-b")?)),
            "{\n    a;\n    if a {}\n    -b\n}"
        )
    );
    assert!(rt; is(make.block_expr(&bare[1..], None), "{\n    if a {}\n}"));
    Ok(())
}

#[test]
fn conditions(rt: HostRuntime) -> Result<(), Fail> {
    let alloc = rt.alloc();
    let make = Make::new(alloc, &Rust, Edition::CURRENT);
    let and = BinaryOp::LogicOp(LogicOp::And);
    let or = BinaryOp::LogicOp(LogicOp::Or);
    let b = make.node::<ast::Expr>("b")?;
    let either = make.node::<ast::Expr>("b || c")?;
    let part: ast::Expr = first::<ast::LetExpr>(alloc, "fn f() { if let Some(x) = y {} }")?.into();
    assert!(rt; is(make.expr_bin_op(&part, and, &b), "let Some(x) = y && b"));
    assert!(rt; is(make.expr_bin_op(&b, and, &part), "b && let Some(x) = y"));
    assert!(rt;
        is(
            make.expr_bin_op(&part, and, &either),
            "let Some(x) = y && (b || c)"
        )
    );
    assert!(rt; make.expr_bin_op(&part, or, &b).is_err());
    let chain = make.expr_bin_op(&part, and, &b)?;
    let block = make.expr_empty_block()?;
    assert!(rt;
        is(
            make.expr_if(&chain, &block, None),
            "if let Some(x) = y && b {}"
        )
    );
    assert!(rt; is(make.match_guard(&chain), "if let Some(x) = y && b"));
    let wide = make.node::<ast::Expr>("a\n && b")?;
    let p = make.node::<ast::Pat>("p")?;
    assert!(rt; is(make.expr_if(&wide, &block, None), "if a\n && b\n{}"));
    assert!(rt; is(make.expr_while_loop(&wide, &block), "while a\n && b\n{}"));
    assert!(rt;
        is(
            make.expr_for_loop(&p, &wide, &block),
            "for p in a\n && b\n{}"
        )
    );
    let arms = make.node::<ast::MatchArmList>("{}")?;
    assert!(rt; is(make.expr_match(&wide, &arms), "match a\n && b\n{}"));
    let sum = make.node::<ast::Expr>("a + b")?;
    assert!(rt;
        is(
            make.expr_bin_op(&sum, BinaryOp::ArithOp(ArithOp::Mul), &b),
            "(a + b) * b"
        )
    );
    Ok(())
}

#[test]
fn names_that_are_keywords(rt: HostRuntime) -> Result<(), Fail> {
    let make = Make::new(rt.alloc(), &Rust, Edition::CURRENT);
    assert!(rt; is(make.name("type"), "r#type"));
    assert!(rt; is(make.name_ref("match"), "r#match"));
    assert!(rt; is(make.ident_path("dyn"), "r#dyn"));
    assert!(rt; is(make.name("r#type"), "r#type"));
    assert!(rt; is(make.name("union"), "union"));
    for word in &["self", "super", "crate", "Self"] {
        assert!(rt; make.name(*word).is_err());
        assert!(rt; is(make.name_ref(*word), *word));
        assert!(rt; is(make.ident_path(*word), *word));
    }
    assert!(rt; make.name("_").is_err());
    let old = Make::new(rt.alloc(), &Rust, Edition::Edition2015);
    assert!(rt; is(old.name("async"), "async"));
    assert!(rt; is(make.name("async"), "r#async"));
    Ok(())
}

#[test]
fn paths(rt: HostRuntime) -> Result<(), Fail> {
    let make = Make::new(rt.alloc(), &Rust, Edition::CURRENT);
    let a = make.ident_path("a")?;
    let two = make.path_from_text("b::c")?;
    assert!(rt; is(make.path_concat(&a, &two), "a::b::c"));
    assert!(rt; is(make.path_concat(&two, &a), "b::c::a"));
    let segments = [
        make.path_segment(&make.name_ref("a")?)?,
        make.node::<ast::PathSegment>("B<C>")?,
    ];
    assert!(rt; is(make.path_from_segments(&segments, false), "a::B<C>"));
    assert!(rt; is(make.path_from_segments(&segments, true), "::a::B<C>"));
    assert!(rt; make.path_from_segments(&[], true).is_err());
    let pat = make.path_pat(&make.ident_path("None")?)?;
    assert!(rt; pat.syntax().kind() == SyntaxKind::IDENT_PAT && pat.syntax().as_str() == "None");
    let pat = make.path_pat(&make.path_from_text("Self::A")?)?;
    assert!(rt; pat.syntax().kind() == SyntaxKind::PATH_PAT);
    let p = make.node::<ast::Pat>("p")?;
    assert!(rt; is(make.tuple_pat(&[p]), "(p,)"));
    assert!(rt; is(make.tuple_pat(&[]), "()"));
    assert!(rt; is(make.lifetime("'a"), "'a"));
    assert!(rt; make.lifetime("a").is_err());
    Ok(())
}

#[test]
fn bounds(rt: HostRuntime) -> Result<(), Fail> {
    let make = Make::new(rt.alloc(), &Rust, Edition::CURRENT);
    let bounds = [
        make.type_bound(&make.ty("A")?)?,
        make.node::<ast::TypeBound>("'a")?,
    ];
    let list = make.type_bound_list(&bounds)?;
    assert!(rt; list.syntax().as_str() == "A + 'a");
    assert!(rt; is(make.type_bound_list(&[]), ""));
    let name = make.name("T")?;
    assert!(rt; is(make.type_param(&name, None), "T"));
    assert!(rt; is(make.type_param(&name, Some(&list)), "T: A + 'a"));
    let preds = [
        make.where_pred(&make.ty("T")?, &bounds)?,
        make.where_pred(&make.ty("U<T>")?, &bounds[..1])?,
    ];
    assert!(rt; is(make.where_clause(&preds), "where T: A + 'a, U<T>: A"));
    Ok(())
}

#[test]
fn records(rt: HostRuntime) -> Result<(), Fail> {
    let make = Make::new(rt.alloc(), &Rust, Edition::CURRENT);
    let a = make.name_ref("a")?;
    let one = make.node::<ast::Expr>("1")?;
    let p = make.node::<ast::Pat>("p")?;
    let path = make.path_from_text("m::S")?;
    let fields = [
        make.record_expr_field(&a, None)?,
        make.record_expr_field(&make.name_ref("b")?, Some(&one))?,
    ];
    let list = make.record_expr_field_list(&fields)?;
    assert!(rt; list.syntax().as_str() == "{ a, b: 1 }");
    assert!(rt; is(make.record_expr(&path, &list), "m::S { a, b: 1 }"));
    let fields = [
        make.record_pat_field(&a, &p)?,
        make.record_pat_field_shorthand(&p)?,
    ];
    let rest = make.node::<ast::RestPat>("..")?;
    assert!(rt; is(make.record_pat_field_list(&fields, None), "{ a: p, p }"));
    assert!(rt; is(make.record_pat_field_list(&[], Some(&rest)), "{ .. }"));
    let list = make.record_pat_field_list(&fields, Some(&rest))?;
    assert!(rt; list.syntax().as_str() == "{ a: p, p, .. }");
    assert!(rt;
        is(
            make.record_pat_with_fields(&path, &list),
            "m::S { a: p, p, .. }"
        )
    );
    Ok(())
}

#[test]
fn more_patterns(rt: HostRuntime) -> Result<(), Fail> {
    let make = Make::new(rt.alloc(), &Rust, Edition::CURRENT);
    let pats = [make.node::<ast::Pat>("p")?, make.node::<ast::Pat>("A(_)")?];
    assert!(rt; is(make.literal_pat("1"), "1"));
    assert!(rt; is(make.literal_pat("-1"), "-1"));
    assert!(rt; make.literal_pat("a").is_err());
    assert!(rt; is(make.or_pat(&pats, false), "p | A(_)"));
    assert!(rt; is(make.or_pat(&pats, true), "| p | A(_)"));
    assert!(rt; make.or_pat(&pats[..1], false).is_err());
    assert!(rt; is(make.slice_pat(&pats), "[p, A(_)]"));
    assert!(rt; is(make.slice_pat(&[]), "[]"));
    Ok(())
}

#[test]
fn uses_and_lists(rt: HostRuntime) -> Result<(), Fail> {
    let make = Make::new(rt.alloc(), &Rust, Edition::CURRENT);
    let path = make.path_from_text("a::b")?;
    let trees = [
        make.use_tree(&make.ident_path("c")?)?,
        make.node::<ast::UseTree>("d as e")?,
    ];
    let list = make.use_tree_list(&trees)?;
    assert!(rt; list.syntax().as_str() == "{c, d as e}");
    let alias = make.node::<rust_views::Rename>("as f")?;
    assert!(rt;
        is(
            make.use_tree_with(&path, Some(&list), None, false),
            "a::b::{c, d as e}"
        )
    );
    assert!(rt; is(make.use_tree_with(&path, None, None, true), "a::b::*"));
    assert!(rt;
        is(
            make.use_tree_with(&path, None, Some(&alias), false),
            "a::b as f"
        )
    );
    assert!(rt; make.use_tree_with(&path, Some(&list), None, true).is_err());
    assert!(rt; is(make.visibility_pub_crate(), "pub(crate)"));
    let tokens = make.node::<ast::TokenTree>("(b, c)")?;
    assert!(rt; is(make.meta_token_tree(&path, &tokens), "a::b(b, c)"));
    assert!(rt; is(make.meta_path(&path), "a::b"));
    let params = [make.node::<ast::Param>("p: A")?];
    let own = make.self_param()?;
    assert!(rt; is(make.param_list_with_self(&own, &params), "(&self, p: A)"));
    assert!(rt; is(make.param_list_with_self(&own, &[]), "(&self)"));
    let items = [
        make.node::<ast::AssocItem>("fn f() {}")?,
        make.node::<ast::AssocItem>("type A;")?,
    ];
    assert!(rt;
        is(
            make.assoc_item_list(&items),
            "{\n    fn f() {}\n\n    type A;\n}"
        )
    );
    assert!(rt; is(make.assoc_item_list(&[]), "{}"));
    let closure = make.expr_closure(
        &[make.node::<ast::Param>("x")?],
        &make.node::<ast::Expr>("x")?,
    );
    assert!(rt; is(closure, "|x| x"));
    Ok(())
}
