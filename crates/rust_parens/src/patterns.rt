//! Pairs of parentheses around patterns.
ghost use Rattle.std.specs.Prelude.{◌≡◌};
ghost use Rattle.ras_node.specs.Nodes.{typed_child};
ghost use Rattle.ras_node.specs.Sets.{is_pat};
ghost use Rattle.rust_parens.specs.Patterns.{is_around, holder_of, holds_alternatives, holds_range, takes_alternatives, takes_range, is_shared, is_mut, begins_with_mut, is_held, pattern_may_go, is_range, holds_a_range};

use lossless_tree::{SyntaxKind, SyntaxNode, SyntaxToken};
use ras_node::sets::Pats;
use ras_node::support::{self, is_of_kind, is_token_of_kind};

// The first pattern among the children.
fn first_pattern(node: &SyntaxNode) -> Option<SyntaxNode>
    ensures { result ≡ typed_child is_pat node.now }
{
    ras_node::first_node::<Pats>(node.children_with_tokens())
}

fn is_around(node: &SyntaxNode) -> bool
    ensures { result ≡ is_around node.now }
{
    !is_of_kind(node, SyntaxKind::PAREN_PAT)
}

// The node around a pair and around the pairs that are directly around it.
fn holder_of(pair: &SyntaxNode) -> Option<SyntaxNode>
    ensures { result ≡ holder_of pair.now }
{
    let mut above = pair.ancestors();
    while let Some(node) = above.next() {
        if is_around(&node) {
            return Some(node);
        }
    }
    None
}

// Whether a pattern directly in a node of the kind may have alternatives.
fn holds_alternatives(kind: SyntaxKind) -> bool
    ensures { result ≡ holds_alternatives kind }
{
    matches!(
        kind,
        SyntaxKind::MATCH_ARM
            | SyntaxKind::LET_EXPR
            | SyntaxKind::FOR_EXPR
            | SyntaxKind::TUPLE_PAT
            | SyntaxKind::TUPLE_STRUCT_PAT
            | SyntaxKind::RECORD_PAT_FIELD
            | SyntaxKind::SLICE_PAT
    )
}

// Whether a pattern directly in a node of the kind may be a range. In a slice, rustc refuses `1..`
// and `x @ 1..`.
fn holds_range(kind: SyntaxKind) -> bool
    ensures { result ≡ holds_range kind }
{
    matches!(
        kind,
        SyntaxKind::MATCH_ARM
            | SyntaxKind::LET_EXPR
            | SyntaxKind::FOR_EXPR
            | SyntaxKind::TUPLE_PAT
            | SyntaxKind::TUPLE_STRUCT_PAT
            | SyntaxKind::RECORD_PAT_FIELD
            | SyntaxKind::LET_STMT
            | SyntaxKind::PARAM
            | SyntaxKind::OR_PAT
    )
}

fn takes_alternatives(holder: Option<SyntaxNode>) -> bool
    ensures { result ≡ takes_alternatives holder }
{
    match holder {
        None => false,
        Some(holder) => holds_alternatives(holder.kind()),
    }
}

fn takes_range(holder: Option<SyntaxNode>) -> bool
    ensures { result ≡ takes_range holder }
{
    match holder {
        None => false,
        Some(holder) => holds_range(holder.kind()),
    }
}

// Whether a node is a `&` without `mut`.
fn is_shared(holder: Option<SyntaxNode>) -> bool
    ensures { result ≡ is_shared holder }
{
    match holder {
        None => false,
        Some(holder) => {
            is_of_kind(&holder, SyntaxKind::REF_PAT)
                && support::token(&holder, SyntaxKind::MUT_KW).is_none()
        }
    }
}

fn is_mut(token: Option<SyntaxToken>) -> bool
    ensures { result ≡ is_mut token }
{
    match token {
        None => false,
        Some(token) => is_token_of_kind(&token, SyntaxKind::MUT_KW),
    }
}

fn begins_with_mut(inside: &SyntaxNode) -> bool
    ensures { result ≡ begins_with_mut inside.now }
{
    is_mut(inside.first_token())
}

// `let (A | B) = c`, `&(1..=2)`, `&(mut x)`. Only these climb over the pairs around a pair, so that
// pairs in pairs take linear time.
fn is_held(inside: &SyntaxNode, pair: &SyntaxNode) -> bool
    ensures { result ≡ is_held inside.now pair.now }
{
    (is_of_kind(inside, SyntaxKind::OR_PAT) && !takes_alternatives(holder_of(pair)))
        || (is_of_kind(inside, SyntaxKind::RANGE_PAT) && !takes_range(holder_of(pair)))
        || (begins_with_mut(inside) && is_shared(holder_of(pair)))
}

/// Whether a node is a pair around a pattern that needs no parentheses there: alternatives stay in
/// a `let`, a parameter and behind `&`, `box`, `@` or `|`, a range in a slice and behind `&`, `box`
/// or `@`, and `mut x` behind `&`.
pub(crate) fn pattern_may_go(pair: &SyntaxNode) -> bool
    ensures { result ≡ pattern_may_go pair.now }
{
    if !is_of_kind(pair, SyntaxKind::PAREN_PAT) {
        return false;
    }
    match first_pattern(pair) {
        None => false,
        Some(inside) => !is_held(&inside, pair),
    }
}

fn is_range(inside: Option<SyntaxNode>) -> bool
    ensures { result ≡ is_range inside }
{
    match inside {
        None => false,
        Some(inside) => is_of_kind(&inside, SyntaxKind::RANGE_PAT),
    }
}

/// Whether a pair is around a range, which rustc's lint never names.
pub(crate) fn holds_a_range(pair: &SyntaxNode) -> bool
    ensures { result ≡ holds_a_range pair.now }
{
    is_range(first_pattern(pair))
}
