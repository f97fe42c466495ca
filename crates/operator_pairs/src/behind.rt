//! The first token after a place.
ghost use Rattle.std.specs.Prelude.{◌≡◌, ◌≤◌, suc};
ghost use Rattle.lossless_tree.specs.Element.{cursor_of};
ghost use Rattle.operator_pairs.specs.Steps.{answer, steps_after};
ghost use Rattle.operator_pairs.specs.Next.{kind_in, kind_behind, or_else, steps_left};

use lossless_tree::{NodeOrToken, SyntaxElement, SyntaxNode};
use operator_powers::edge::leaf_kind;
use syntax_kind::SyntaxKind;

fn kind_in_node(node: &SyntaxNode) -> Option<SyntaxKind>
    ensures { result ≡ kind_in node.now }
{
    for element in node.descendants_with_tokens() {
        let kind = leaf_kind(&element);
        if kind.is_some() {
            return kind;
        }
    }
    None
}

// The kind of the first token that is not trivia, of a node or token.
fn kind_in(element: &SyntaxElement) -> Option<SyntaxKind>
    ensures { result ≡ kind_in (cursor_of element.now) }
{
    match element {
        NodeOrToken::Node(node) => kind_in_node(node),
        NodeOrToken::Token(token) => {
            token.placed();
            leaf_kind(element)
        }
    }
}

// The result of one step, to the next sibling or the parent: the kind that was looked for, where to
// continue, or that nothing is left.
#[derive(Drop)]
enum Step {
    Found(SyntaxKind),
    On(SyntaxElement),
    End,
}

fn into_next(next: SyntaxElement) -> Step
    ensures found { answer result
        ≡ or_else (kind_in (cursor_of next)) (kind_behind (cursor_of next)) }
    ensures fewer { steps_after result ≤ suc (steps_left next) }
{
    match kind_in(&next) {
        Some(kind) => Step::Found(kind),
        None => Step::On(next),
    }
}

fn one_on(element: &SyntaxElement) -> Step
    ensures found { answer result ≡ kind_behind (cursor_of element.now) }
    ensures fewer { steps_after result ≤ steps_left element.now }
{
    match element.next_sibling_or_token() {
        Some(next) => into_next(next),
        None => match element.parent() {
            Some(up) => Step::On(NodeOrToken::Node(up)),
            None => Step::End,
        },
    }
}

/// The kind of the first token after a node or token that is not trivia.
pub fn kind_behind(element: &SyntaxElement) -> Option<SyntaxKind>
    ensures { result ≡ kind_behind (cursor_of element.now) }
{
    let mut next = one_on(element);
    while let Step::On(here) = next {
        next = one_on(&here);
    }
    match next {
        Step::Found(kind) => Some(kind),
        _ => None,
    }
}
