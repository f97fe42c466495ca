//! A linter: prints the line and column of each pair of parentheses of a Rust file that its place
//! does not need.
#![tactic(auto)]

use line_index::LineIndex;
use ra_ap_syntax::{AstNode, Edition, ParseError, SourceFile, SyntaxNode, ast};
use rust_front::Rust;
use std::alloc::{AllocError, Global};
use std::fmt::Write;
use std::io;

// Whether the expression inside a pair needs no parentheses in place of the pair, below any of the
// nodes around it: a record may need them because of an `if` further up.
fn is_needless(pair: &ast::ParenExpr) -> bool {
    let Some(inside) = pair.expr() else {
        return false;
    };
    for around in pair.syntax().ancestors().skip(1) {
        if inside.needs_parens_in_place_of(&around, pair.syntax()) {
            return false;
        }
    }
    true
}

// Columns count bytes, from 1.
fn push_pair(out: &mut String, lines: &LineIndex<'_>, pair: &SyntaxNode) -> Result<(), AllocError> {
    if let Some(at) = lines.line_col(pair.text_range().start()) {
        let (line, column) = (at.line.saturating_add(1), at.col.saturating_add(1));
        write!(out, "{line}:{column}: ")?;
    }
    writeln!(out, "{} needs no parentheses", pair.as_str())
}

fn lint(alloc: Global, text: &str) -> Result<String, ParseError> {
    if text.len() > u32::MAX as usize {
        return Err(ParseError::TooLong);
    }
    let lines = LineIndex::new(alloc, text)?;
    let file = SourceFile::parse(alloc, text, &Rust, Edition::CURRENT)?;
    let mut out = String::new(alloc);
    for node in file.syntax_node().descendants() {
        if let Some(pair) = ast::ParenExpr::cast(node) {
            if is_needless(&pair) {
                push_pair(&mut out, &lines, pair.syntax())?;
            }
        }
    }
    Ok(out)
}

fn main(rt: HostRuntime) -> io::Result<()> {
    let input = io::read_to_string(rt.alloc(), rt.reader())?;
    match lint(rt.alloc(), input.as_str()) {
        Ok(report) => print!(rt; "{report}"),
        Err(_) => println!(rt; "the text is too long, or memory ran out"),
    }
}
