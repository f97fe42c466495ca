//! A walk through the functions of a file.

use crate::stopped::Stopped;
use ra_ap_syntax::ast::{self, HasModuleItem, HasName};
use ra_ap_syntax::{AstNode, Edition, SourceFile, SyntaxElement, SyntaxNode};
use std::alloc::Global;
use std::fmt::Write;
use tiny_front::Tiny;

fn show_node(out: &mut String, tail: &SyntaxNode) -> Result<(), Stopped> {
    Ok(writeln!(
        out,
        "tail {}@{} {:?}",
        tail.kind(),
        tail.text_range(),
        tail.as_str()
    )?)
}

fn show_element(out: &mut String, element: &SyntaxElement) -> Result<(), Stopped> {
    Ok(writeln!(out, "  {}@{}", element.kind(), element.text_range())?)
}

fn show_below(out: &mut String, tail: &SyntaxNode) -> Result<(), Stopped> {
    for element in tail.descendants_with_tokens() {
        show_element(out, &element)?;
    }
    Ok(())
}

fn show_parent(out: &mut String, tail: &SyntaxNode) -> Result<(), Stopped> {
    match tail.parent() {
        Some(parent) => Ok(writeln!(out, "parent {}", parent.kind())?),
        None => Ok(()),
    }
}

fn show_next(out: &mut String, tail: &SyntaxNode) -> Result<(), Stopped> {
    match tail.next_sibling_or_token() {
        Some(next) => Ok(writeln!(out, "next {}", next.kind())?),
        None => Ok(()),
    }
}

// The node, what is below it, and what is around it.
fn show_tail(out: &mut String, tail: &SyntaxNode) -> Result<(), Stopped> {
    show_node(out, tail)?;
    show_below(out, tail)?;
    show_parent(out, tail)?;
    show_next(out, tail)
}

fn show_name_of(out: &mut String, function: &ast::Fn) -> Result<(), Stopped> {
    match function.name() {
        Some(name) => Ok(writeln!(out, "name {}", name.text().unwrap_or(""))?),
        None => Ok(()),
    }
}

fn show_view<N: AstNode + Drop>(out: &mut String, tail: N) -> Result<(), Stopped> {
    show_tail(out, tail.syntax())
}

fn show_tail_of(out: &mut String, body: &ast::BlockExpr) -> Result<(), Stopped> {
    match body.tail_expr() {
        Some(tail) => show_view(out, tail),
        None => Ok(()),
    }
}

fn show_function(out: &mut String, function: &ast::Fn) -> Result<(), Stopped> {
    show_name_of(out, function)?;
    match function.body() {
        Some(body) => show_tail_of(out, &body),
        None => Ok(()),
    }
}

// The node as a function; `None` if it is not one.
fn show_if_function(out: &mut String, node: SyntaxNode) -> Result<(), Stopped> {
    match ast::Fn::cast(node) {
        Some(function) => show_function(out, &function),
        None => Ok(()),
    }
}

fn show_item(out: &mut String, item: &SyntaxNode) -> Result<(), Stopped> {
    writeln!(out, "item {}@{}", item.kind(), item.text_range())?;
    show_if_function(out, item.clone()?)
}

fn show_item_view<N: AstNode + Drop>(out: &mut String, item: N) -> Result<(), Stopped> {
    show_item(out, item.syntax())
}

fn show_items(out: &mut String, file: &SourceFile) -> Result<(), Stopped> {
    for item in file.items() {
        show_item_view(out, item)?;
    }
    Ok(())
}

/// Prints each function of a file: its name, its tail, and what is around the tail.
pub fn show_walk(alloc: Global, out: &mut String, text: &str) -> Result<(), Stopped> {
    let parse = SourceFile::parse(alloc, text, &Tiny, Edition::CURRENT)?;
    match parse.tree() {
        Some(file) => show_items(out, &file),
        None => Ok(()),
    }
}
