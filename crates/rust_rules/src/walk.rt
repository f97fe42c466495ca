//! The steps of a walk over a tree, in preorder: its nodes and tokens without white space, comments
//! and pairs of parentheses, each with the number of nodes around it. Two trees with the same steps
//! are the same.

use lossless_tree::{NodeOrToken, SyntaxElement, SyntaxKind, SyntaxNode, WalkEvent};
use std::alloc::{AllocError, Global};

/// A node or a token.
#[derive(Clone, Copy)]
pub(crate) struct Step {
    depth: usize,
    kind: SyntaxKind,
    is_token: bool,
    start: usize,
    end: usize,
}

fn is_trivia(kind: SyntaxKind) -> bool {
    kind == SyntaxKind::WHITESPACE || kind == SyntaxKind::COMMENT
}

fn is_paren(kind: SyntaxKind) -> bool {
    kind == SyntaxKind::L_PAREN || kind == SyntaxKind::R_PAREN
}

// Whether an element is passed over: white space, a comment, a pair of parentheses or one of its
// parentheses.
fn is_aside(element: &SyntaxElement) -> bool {
    let kind = element.kind();
    if is_trivia(kind) || kind == SyntaxKind::PAREN_EXPR {
        return true;
    }
    match element {
        NodeOrToken::Token(token) if is_paren(kind) => match token.parent() {
            Some(parent) => parent.kind() == SyntaxKind::PAREN_EXPR,
            None => false,
        },
        _ => false,
    }
}

fn is_pair(element: &SyntaxElement) -> bool {
    element.kind() == SyntaxKind::PAREN_EXPR
}

fn step_of(element: &SyntaxElement, depth: usize) -> Step {
    let range = element.text_range();
    Step {
        depth,
        kind: element.kind(),
        is_token: matches!(element, NodeOrToken::Token(_)),
        start: range.start().raw() as usize,
        end: range.end().raw() as usize,
    }
}

/// The steps of a tree.
pub(crate) fn steps(alloc: Global, root: &SyntaxNode) -> Result<Vec<Step>, AllocError> {
    let mut found = Vec::new(alloc);
    let mut depth = 0usize;
    for event in root.preorder_with_tokens() {
        match event {
            WalkEvent::Enter(element) => {
                if !is_aside(&element) {
                    found.push(step_of(&element, depth))?;
                }
                if !is_pair(&element) {
                    depth = depth.saturating_add(1);
                }
            }
            WalkEvent::Leave(element) => {
                if !is_pair(&element) {
                    depth = depth.saturating_sub(1);
                }
            }
        }
    }
    Ok(found)
}

/// The number of the first step behind the last token that starts before an offset; the steps
/// before `from` are passed.
pub(crate) fn end_of_part(steps: &[Step], from: usize, offset: usize) -> usize {
    let mut end = from;
    let rest = steps.get(from..).unwrap_or(&[]);
    let mut number = from;
    for step in rest {
        number = number.saturating_add(1);
        if step.is_token {
            if step.start >= offset {
                return end;
            }
            end = number;
        }
    }
    end
}

fn text_of<'a>(text: &'a str, step: &Step) -> &'a str {
    text.get(step.start..step.end).unwrap_or("")
}

/// Whether the steps of two texts are the same.
pub(crate) fn are_same(old_text: &str, old: &[Step], new_text: &str, new: &[Step]) -> bool {
    if old.len() != new.len() {
        return false;
    }
    for (one, other) in old.iter().zip(new.iter()) {
        if one.depth != other.depth || one.kind != other.kind || one.is_token != other.is_token {
            return false;
        }
        if one.is_token && text_of(old_text, one) != text_of(new_text, other) {
            return false;
        }
    }
    true
}
