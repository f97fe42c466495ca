//! A text in the places of a body.

use crate::every_term::words::words_of;
use crate::stopped::Stopped;
use ra_ap_syntax::{Edition, SourceFile, SyntaxKind};
use std::alloc::Global;
use tiny_front::Tiny;

// What holds the three expressions, in preorder.
const PLACES: [SyntaxKind; 3] = [
    SyntaxKind::STMT_LIST,
    SyntaxKind::LET_STMT,
    SyntaxKind::EXPR_STMT,
];

/// Whether the text is read as the tree of these words after `let`, as a statement and as a body's
/// tail, without errors.
pub fn stands_in_a_body(alloc: Global, text: &str, words: &str) -> Result<bool, Stopped> {
    let file = format!(in alloc; "fn f() {{ let a = {text}; {text}; {text} }}")?;
    let parse = SourceFile::parse(alloc, file.as_str(), &Tiny, Edition::CURRENT)?;
    if !parse.errors(alloc)?.is_empty() {
        return Ok(false);
    }
    let mut places: Vec<SyntaxKind> = Vec::new(alloc);
    for node in parse.syntax_node().descendants() {
        if PLACES.contains(&node.kind()) {
            let Some(expr) = node.last_child() else {
                return Ok(false);
            };
            if words_of(alloc, &expr)?.as_str() != words {
                return Ok(false);
            }
            places.push(node.kind())?;
        }
    }
    Ok(places.as_slice() == PLACES.as_slice())
}
