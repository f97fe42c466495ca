//! The result of parsing a term.

use crate::every_term::body::stands_in_a_body;
use crate::every_term::words::words_of;
use crate::every_term::written::Written;
use crate::stopped::Stopped;
use ra_ap_syntax::ast::prec::reads_back;
use ra_ap_syntax::{AstNode, Edition, Parse, SyntaxNode, ast};
use std::alloc::Global;
use tiny_front::Tiny;

/// The result of parsing a term.
#[derive(Clone, Copy, PartialEq, Eq)]
pub enum Verdict {
    /// The built tree reads back, and is read everywhere.
    ReadsBack,
    /// It doesn't read back, and the text has errors.
    Refused,
    /// It doesn't read back, and the text is read as another tree that does.
    Other,
    /// Anything else.
    Wrong,
}

fn answer(node: &SyntaxNode) -> Option<bool> {
    ast::cast_ref::<ast::Expr>(node).and_then(|expr| reads_back(&expr))
}

fn has_errors(alloc: Global, parse: &Parse<ast::Expr>) -> Result<bool, Stopped> {
    Ok(!parse.errors(alloc)?.is_empty())
}

fn has_words(alloc: Global, node: &SyntaxNode, words: &str) -> Result<bool, Stopped> {
    Ok(words_of(alloc, node)?.as_str() == words)
}

// The result for a text whose built tree reads back: it has to be parsed as these words, without
// errors and in a body too.
fn read_back(
    alloc: Global,
    text: &str,
    parse: &Parse<ast::Expr>,
    words: &str,
) -> Result<Verdict, Stopped> {
    let is_read = has_words(alloc, &parse.syntax_node(), words)?
        && !has_errors(alloc, parse)?
        && stands_in_a_body(alloc, text, words)?;
    Ok(if is_read {
        Verdict::ReadsBack
    } else {
        Verdict::Wrong
    })
}

// The result for a text whose built tree doesn't read back: it has errors, or is parsed as other
// words, whose tree does.
fn read_otherwise(
    alloc: Global,
    parse: &Parse<ast::Expr>,
    words: &str,
) -> Result<Verdict, Stopped> {
    if has_errors(alloc, parse)? {
        return Ok(Verdict::Refused);
    }
    let root = parse.syntax_node();
    let is_other = !has_words(alloc, &root, words)? && answer(&root) == Some(true);
    Ok(if is_other {
        Verdict::Other
    } else {
        Verdict::Wrong
    })
}

/// Reads a term that is written down, and compares.
pub fn verdict_of(alloc: Global, written: &Written) -> Result<Verdict, Stopped> {
    let text = written.text.as_str();
    let words = words_of(alloc, &written.tree)?;
    let parse = ast::Expr::parse(alloc, text, &Tiny, Edition::CURRENT)?;
    match answer(&written.tree) {
        Some(true) => read_back(alloc, text, &parse, words.as_str()),
        Some(false) => read_otherwise(alloc, &parse, words.as_str()),
        None => Ok(Verdict::Wrong),
    }
}
