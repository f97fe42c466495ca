//! The README's tour: each snippet there is here.
use ra_ap_syntax::ast::{self, ArithOp, BinaryOp, HasModuleItem, HasName};
use ra_ap_syntax::unescape::unescape_str;
use ra_ap_syntax::{
    AstNode, AstPtr, Document, Edition, SourceFile, SyntaxKind, SyntaxNode, TextRange, TextSize,
    TreeBuilder, algo, match_ast,
};
use rust_front::Rust;
use std::alloc::Global;
use std::test::Fail;

#[test]
fn a_text_has_errors(rt: HostRuntime) -> Result<(), Fail> {
    let alloc = rt.alloc();
    let parse = SourceFile::parse(alloc, "fn f() { 1 + }", &Rust, Edition::CURRENT)?;
    for error in &parse.errors(alloc)? {
        let line = format!(in alloc; "{}: {error}", error.range())?;
        assert_eq!(rt; line.as_str(), "12..12: expected expression");
    }
    Ok(())
}

#[test]
fn a_text_has_items(rt: HostRuntime) -> Result<(), Fail> {
    let alloc = rt.alloc();
    let parse = SourceFile::parse(alloc, "fn f() { 1 + }", &Rust, Edition::CURRENT)?;
    let file = parse.tree().ok_or("no file")?;
    for item in file.items() {
        assert_eq!(rt; item.syntax().as_str(), "fn f() { 1 + }");
    }
    Ok(())
}

fn name_of(node: &SyntaxNode) -> Option<ast::Name> {
    match_ast! {
        match node {
            ast::Fn(it) => it.name(),
            ast::Struct(it) => it.name(),
            _ => None,
        }
    }
}

#[test]
fn a_node_has_a_name(rt: HostRuntime) -> Result<(), Fail> {
    let parse = SourceFile::parse(rt.alloc(), "fn foo() {}", &Rust, Edition::CURRENT)?;
    let function = parse.syntax_node().first_child().ok_or("no function")?;
    let name = name_of(&function).ok_or("no name")?;
    assert_eq!(rt; name.text().ok_or("no text")?, "foo");
    Ok(())
}

fn sum_at(root: &SyntaxNode, offset: TextSize) -> Result<ast::BinExpr, Fail> {
    let sum = algo::find_node_at_offset::<ast::BinExpr>(root, offset).ok_or("no sum")?;
    Ok(sum)
}

#[test]
fn a_place_leads_to_a_view(rt: HostRuntime) -> Result<(), Fail> {
    let parse = SourceFile::parse(rt.alloc(), "fn foo() { 1 + 2 }", &Rust, Edition::CURRENT)?;
    let sum = sum_at(&parse.syntax_node(), TextSize::new(13))?;
    assert!(rt; sum.op_kind() == Some(BinaryOp::ArithOp(ArithOp::Add)));
    let right = sum.rhs().ok_or("no right side")?;
    assert_eq!(rt; right.syntax().as_str(), "2");
    Ok(())
}

#[test]
fn a_pointer_finds_its_view(rt: HostRuntime) -> Result<(), Fail> {
    let parse = SourceFile::parse(rt.alloc(), "fn foo() { 1 + 2 }", &Rust, Edition::CURRENT)?;
    let root = parse.syntax_node();
    let sum = sum_at(&root, TextSize::new(13))?;
    let pointer = AstPtr::new(&sum);
    assert!(rt; pointer.to_node(&root) == Some(sum));
    Ok(())
}

#[test]
fn an_edit_reads_a_token_anew(rt: HostRuntime) -> Result<(), Fail> {
    let alloc = rt.alloc();
    let parse = SourceFile::parse(alloc, "fn foo() {}", &Rust, Edition::CURRENT)?;
    let name = TextRange::new(TextSize::new(3), TextSize::new(6));
    let edited = parse.incremental_reparse(alloc, &Rust, name, "bar", Edition::CURRENT)?;
    let (new, range) = edited.ok_or("the whole text has to be parsed again")?;
    assert!(rt; range == name);
    assert_eq!(rt; new.syntax_node().as_str(), "fn bar() {}");
    Ok(())
}

#[test]
fn a_document_is_edited(rt: HostRuntime) -> Result<(), Fail> {
    let alloc = rt.alloc();
    let text = "fn f() { a }";
    let argument = TextRange::new(TextSize::new(9), TextSize::new(10));
    let mut document = Document::new(alloc, Rust, text, Edition::CURRENT)?;
    let range = document.edit(alloc, argument, "b")?;
    let parse = document.parse();
    assert!(rt; range == argument);
    assert_eq!(rt; parse.syntax_node().as_str(), "fn f() { b }");
    let name = TextRange::new(TextSize::new(3), TextSize::new(4));
    let range = document.edit(alloc, name, "g")?;
    assert!(rt; range == name);
    assert_eq!(rt; document.text(), "fn g() { b }");
    assert!(rt;
        *document.parse() == SourceFile::parse(alloc, "fn g() { b }", &Rust, Edition::CURRENT)?
    );
    let sum = document.edit(alloc, argument, "b + 1")?;
    assert!(rt; sum == TextRange::new(TextSize::new(7), TextSize::new(16)));
    let keyword = TextRange::new(TextSize::new(0), TextSize::new(2));
    let range = document.edit(alloc, keyword, "enum")?;
    assert!(rt; range == TextRange::up_to(TextSize::new(18)));
    Ok(())
}

#[test]
fn views_print_for_programmers(rt: HostRuntime) -> Result<(), Fail> {
    let alloc = rt.alloc();
    let parse = SourceFile::parse(alloc, "fn foo() { 1 + 2 }", &Rust, Edition::CURRENT)?;
    let root = parse.syntax_node();
    let sum = sum_at(&root, TextSize::new(13))?;
    assert_eq!(rt; format!(in alloc; "{sum:?}")?.as_str(), "BIN_EXPR@11..16");
    let expr = ast::Expr::BinExpr(sum);
    assert_eq!(rt;
        format!(in alloc; "{expr:?} {expr}")?.as_str(),
        "BIN_EXPR@11..16 1 + 2"
    );
    assert_eq!(rt;
        format!(in alloc; "{:?}", AstPtr::new(&expr))?.as_str(),
        "AstPtr(SyntaxNodePtr { kind: BIN_EXPR, range: 11..16 })"
    );
    Ok(())
}

fn name_tree(alloc: Global) -> Result<SyntaxNode, Fail> {
    let mut builder = TreeBuilder::new(alloc);
    builder.start_node(SyntaxKind::NAME)?;
    builder.token(SyntaxKind::IDENT, "foo")?;
    builder.finish_node()?;
    let root = builder.finish()?;
    Ok(root)
}

#[test]
fn events_become_a_tree(rt: HostRuntime) -> Result<(), Fail> {
    let alloc = rt.alloc();
    let root = name_tree(alloc)?;
    let first = root.first_token().ok_or("no token")?;
    let other = first.replace_with(alloc, SyntaxKind::IDENT, "bar")?;
    assert_eq!(rt; other.as_str(), "bar");
    Ok(())
}

#[test]
fn a_literal_means_its_units(rt: HostRuntime) -> Result<(), Fail> {
    let mut units: u32 = 0;
    unescape_str(r"a\u{e9}\q", |_range, _unit| {
        units = u32::wrapping_add(units, 1);
    });
    assert_eq!(rt; units, 3);
    Ok(())
}
