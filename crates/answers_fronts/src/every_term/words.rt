//! A tree as words.

use ra_ap_syntax::{SyntaxElement, SyntaxKind, SyntaxNode, WalkEvent};
use std::alloc::{AllocError, Global};
use std::fmt::Write;

fn enter(words: &mut String, element: &SyntaxElement) -> Result<(), AllocError> {
    match element.as_token() {
        None => write!(words, "{}( ", element.kind()),
        Some(token) => match token.kind() {
            SyntaxKind::WHITESPACE => Ok(()),
            kind => write!(words, "{kind}:{} ", token.text()),
        },
    }
}

fn leave(words: &mut String, element: &SyntaxElement) -> Result<(), AllocError> {
    match element.as_token() {
        None => words.push_str(") "),
        Some(_) => Ok(()),
    }
}

/// A node's tree as words, white space left out: `KIND(` enters a node, `)` leaves it, `KIND:text`
/// is a token.
pub fn words_of(alloc: Global, node: &SyntaxNode) -> Result<String, AllocError> {
    let mut words = String::new(alloc);
    for event in node.preorder_with_tokens() {
        match event {
            WalkEvent::Enter(element) => enter(&mut words, &element)?,
            WalkEvent::Leave(element) => leave(&mut words, &element)?,
        }
    }
    Ok(words)
}
