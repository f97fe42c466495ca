//! Calls that take no memory: each is made when no memory is left, and has the same result as
//! before.
//!
//! The trees and builders are before the line `built`. Every request for memory after it may be
//! refused.
use crate::asking::Stopped;
use ra_ap_syntax::{
    AstNode, Edition, FinishError, Parse, SourceFile, SyntaxError, SyntaxKind, SyntaxNode,
    SyntaxTreeBuilder, TextSize, ast, utils,
};
use std::alloc::{AllocError, Global};
use tiny_front::Tiny;

const NOW: Edition = Edition::CURRENT;

// A builder after these calls, one letter each: `n` begins a node, `e` ends one, `t` adds a token,
// any other letter adds an error past the end of the text.
fn builder(alloc: Global, calls: &str) -> Result<SyntaxTreeBuilder, AllocError> {
    let mut builder = SyntaxTreeBuilder::new(alloc);
    for call in calls.chars() {
        match call {
            'n' => builder.start_node(SyntaxKind::SOURCE_FILE)?,
            'e' => builder.finish_node()?,
            't' => builder.token(SyntaxKind::IDENT, "a")?,
            _ => builder.error(String::from_str(alloc, "far")?, TextSize::new(9))?,
        }
    }
    Ok(builder)
}

// The builder's refusal.
fn refusal(builder: SyntaxTreeBuilder) -> &'static str {
    match builder.finish() {
        Ok(_) => "a parse",
        Err(FinishError::TooLong) => "TooLong",
        Err(FinishError::OverClosed) => "OverClosed",
        Err(FinishError::Unclosed) => "Unclosed",
        Err(FinishError::Empty) => "Empty",
        Err(FinishError::ManyRoots) => "ManyRoots",
        Err(FinishError::TokenRoot) => "TokenRoot",
        Err(FinishError::ErrorPastText) => "ErrorPastText",
        Err(FinishError::Memory) => "Memory",
    }
}

// What is built while there is memory.
#[derive(Drop)]
struct Built {
    over_closed: SyntaxTreeBuilder,
    unclosed: SyntaxTreeBuilder,
    empty: SyntaxTreeBuilder,
    many_roots: SyntaxTreeBuilder,
    token_root: SyntaxTreeBuilder,
    error_past_text: SyntaxTreeBuilder,
    file: Parse<SourceFile>,
}

fn build(alloc: Global) -> Result<Built, Stopped> {
    let file = match SourceFile::parse(alloc, "fn f() { 1 + }", &Tiny, NOW) {
        Ok(file) => file,
        Err(_) => return Err(Stopped::Twice("parse")),
    };
    Ok(Built {
        over_closed: builder(alloc, "nee")?,
        unclosed: builder(alloc, "nt")?,
        empty: builder(alloc, "")?,
        many_roots: builder(alloc, "nene")?,
        token_root: builder(alloc, "t")?,
        error_past_text: builder(alloc, "ntef")?,
        file,
    })
}

fn refusals(rt: &HostRuntime, built: Built) -> Result<Parse<SourceFile>, Stopped> {
    let Built {
        over_closed,
        unclosed,
        empty,
        many_roots,
        token_root,
        error_past_text,
        file,
    } = built;
    println!(rt; "finish, a node too often: {}", refusal(over_closed))?;
    println!(rt; "finish, a node that is open: {}", refusal(unclosed))?;
    println!(rt; "finish, nothing: {}", refusal(empty))?;
    println!(rt; "finish, two roots: {}", refusal(many_roots))?;
    println!(rt; "finish, a token for a root: {}", refusal(token_root))?;
    println!(rt;
        "finish, an error past the text: {}",
        refusal(error_past_text)
    )?;
    Ok(file)
}

fn parses(rt: &HostRuntime, file: Parse<SourceFile>) -> Result<(), Stopped> {
    let copy = file.clone()?;
    println!(rt; "clone: {}", copy == file)?;
    println!(rt; "syntax_node: {}", file.syntax_node().text_range())?;
    println!(rt; "tree: {}", file.tree().is_some())?;
    let any: Parse<SyntaxNode> = copy.to_syntax();
    println!(rt; "to_syntax: {}", any.syntax_node().text_range())?;
    let again = any.clone()?;
    println!(rt; "cast: {}", again.cast::<SourceFile>().is_some())?;
    println!(rt; "cast to another kind: {}", any.cast::<ast::Fn>().is_none())?;
    Ok(())
}

fn names(rt: &HostRuntime) -> Result<(), Stopped> {
    println!(rt;
        "is_identifier: {} {}",
        utils::is_identifier("a", &Tiny, NOW),
        utils::is_identifier("fn", &Tiny, NOW)
    )?;
    println!(rt;
        "is_raw_identifier: {} {}",
        utils::is_raw_identifier("fn", &Tiny, NOW),
        utils::is_raw_identifier("a", &Tiny, NOW)
    )?;
    Ok(())
}

/// Builds, prints `built`, and makes each of the calls.
pub fn ask(rt: &HostRuntime) -> Result<(), Stopped> {
    let built = build(rt.alloc())?;
    println!(rt; "built")?;
    let file = refusals(rt, built)?;
    parses(rt, file)?;
    names(rt)
}
