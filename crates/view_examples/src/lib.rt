//! Tests of the lookups: each returns, on the example that its documentation shows, the part that
//! is written there.
//!
//! `tools/views` makes the tests from the tables of the views.
#![tactic(auto)]

#[cfg(test)]
mod examples;

use ra_ap_syntax::ast::{AstChildren, AstNode};
use ra_ap_syntax::{Edition, SourceFile, SyntaxToken};
use rust_front::Rust;
use std::test::Fail;

/// The first node in the tree of a file that is an `N` and has this text. It fails if the file has
/// an error.
pub fn find<N: AstNode + Drop>(rt: &HostRuntime, file: &str, text: &str) -> Result<N, Fail> {
    let parse = SourceFile::parse(rt.alloc(), file, &Rust, Edition::CURRENT)?;
    for error in &parse.errors(rt.alloc())? {
        return Err(Fail::from(error.message()));
    }
    for node in parse.syntax_node().descendants() {
        if node.as_str() != text {
            continue;
        }
        if let Some(it) = N::cast(node) {
            return Ok(it);
        }
    }
    Err(Fail::from("no such node"))
}

/// Fails unless a node was found, and has this text.
pub fn is_node<N: AstNode + Drop>(found: Option<N>, text: &str) -> Result<(), Fail> {
    let it = found.ok_or("no node")?;
    is_text(it.syntax().as_str(), text)
}

/// Fails unless a token was found, and has this text.
pub fn is_token(found: Option<SyntaxToken>, text: &str) -> Result<(), Fail> {
    let it = found.ok_or("no token")?;
    is_text(it.text(), text)
}

/// Fails unless nodes with these texts were found, in this order, and no others.
pub fn is_nodes<N: AstNode + Drop>(found: AstChildren<N>, texts: &[&str]) -> Result<(), Fail> {
    let mut left = texts.iter();
    for it in found {
        let text = left.next().ok_or("too many nodes")?;
        is_text(it.syntax().as_str(), text)?;
    }
    if left.next().is_some() {
        return Err(Fail::from("too few nodes"));
    }
    Ok(())
}

fn is_text(found: &str, text: &str) -> Result<(), Fail> {
    if found == text {
        Ok(())
    } else {
        Err(Fail::from("another text"))
    }
}
