//! Whether a text without pairs of parentheses needs none.

use crate::render::Span;
use lossless_tree::{SyntaxKind, SyntaxNode};
use ras_node::sets::{Exprs, KindSet};
use ras_prec::rules::needs_parens_in;
use rust_parens::is_needed_by_rustc;

fn is_span(node: &SyntaxNode, span: &Span) -> bool {
    let range = node.text_range();
    range.start().raw() as usize == span.start && range.end().raw() as usize == span.end
}

// Whether a node is an expression of which a tree without a pair tells whether it needs one. It
// does not of a closure that may be before `)` of another pair.
fn is_told(node: &SyntaxNode, parent: &SyntaxNode) -> bool {
    match node.kind() {
        SyntaxKind::MACRO_EXPR | SyntaxKind::CONTINUE_EXPR | SyntaxKind::UNDERSCORE_EXPR => false,
        SyntaxKind::CLOSURE_EXPR => parent.kind() == SyntaxKind::ARG_LIST,
        _ => true,
    }
}

// Whether what follows a node may be an `else`.
fn may_be_before_else(text: &str, node: &SyntaxNode) -> bool {
    let end = node.text_range().end().raw() as usize;
    text.get(end..)
        .unwrap_or("")
        .trim_start()
        .starts_with("else")
}

// Whether an expression, in a text, needs no pair.
fn is_plain(text: &str, node: &SyntaxNode) -> bool {
    let Some(parent) = node.parent() else {
        return false;
    };
    is_told(node, &parent)
        && !needs_parens_in(node, &parent)
        && !is_needed_by_rustc(node, &parent, node)
        && !may_be_before_else(text, node)
}

// How many spans, from one on, are that of a node.
fn count_at(spans: &[Span], node: &SyntaxNode) -> usize {
    spans.iter().take_while(|span| is_span(node, span)).count()
}

/// Whether these parts of a text, whose tree this is, are expressions that need no pair of
/// parentheses, by the tests by which a pair round one would go.
pub(crate) fn need_none(root: &SyntaxNode, spans: &[Span]) -> bool {
    let mut left = spans;
    for node in root.descendants() {
        if left.is_empty() {
            return true;
        }
        if !Exprs::has(node.kind()) {
            continue;
        }
        let count = count_at(left, &node);
        if count > 0 {
            if !is_plain(root.as_str(), &node) {
                return false;
            }
            left = left.get(count..).unwrap_or(&[]);
        }
    }
    left.is_empty()
}
