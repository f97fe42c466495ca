//! Pairs of parentheses that are needless by the tests of operators and statements.
ghost use Rattle.std.specs.Prelude.{◌≡◌, IfOk};
ghost use Rattle.std.specs.List.{filter};
ghost use Rattle.tree_model.specs.Cursor.{at_node, descendants_of};
ghost use Rattle.rust_parens.specs.Pairs.{asks_for, innermost, is_needed_inside, is_value, may_go, may_go_alone, contents_may_go, inside_may_go, is_bare, parens_of};

use crate::patterns::pattern_may_go;
use crate::rustc::{is_needed_by_rustc, is_pair_at};
use lossless_tree::{SyntaxKind, SyntaxNode, TextRange};
use ras_node::sets::{Exprs, KindSet};
use ras_node::support::{self, is_of_kind};
use ras_prec::rules::needs_parens_in_place_of;
use ras_prec_walks::parts::first_expr;
use std::alloc::{AllocError, Global};

/// The ranges of the `(` and of the `)` of a pair. Returns `None` if one is missing.
pub fn parens_of(pair: &SyntaxNode) -> Option<(TextRange, TextRange)>
    ensures { result ≡ parens_of pair.now }
{
    let open = support::token(pair, SyntaxKind::L_PAREN)?;
    let close = support::token(pair, SyntaxKind::R_PAREN)?;
    Some((open.text_range(), close.text_range()))
}

fn is_value(node: &SyntaxNode) -> bool
    ensures { result ≡ is_value node.now }
{
    Exprs::has(node.kind()) && !is_of_kind(node, SyntaxKind::PAREN_EXPR)
}

// The expression in the innermost of pairs directly in each other, of which this is the outermost.
fn innermost(pair: &SyntaxNode) -> Option<SyntaxNode>
    ensures { result ≡ innermost pair.now }
{
    let mut nodes = pair.descendants();
    while let Some(node) = nodes.next() {
        if is_value(&node) {
            return Some(node);
        }
    }
    None
}

fn asks_for(value: Option<SyntaxNode>, parent: Option<SyntaxNode>, pair: &SyntaxNode) -> bool
    ensures { result ≡ asks_for value parent pair.now }
{
    match value {
        None => false,
        Some(value) => match parent {
            None => false,
            Some(parent) => needs_parens_in_place_of(&value, &parent, pair),
        },
    }
}

// `((a == b)) == c`: each of the two pairs is needless, but not both. Of pairs in pairs the
// outermost stays, if what the innermost holds needs it.
fn is_needed_inside(pair: &SyntaxNode) -> bool
    ensures { result ≡ is_needed_inside pair.now }
{
    !is_pair_at(pair.parent())
        && is_pair_at(first_expr(pair))
        && asks_for(innermost(pair), pair.parent(), pair)
}

// Whether the contents of a pair need no parentheses in its place.
fn inside_may_go(pair: &SyntaxNode) -> bool
    ensures { result ≡ inside_may_go pair.now }
{
    match first_expr(pair) {
        None => false,
        Some(inside) => match pair.parent() {
            None => false,
            Some(parent) => {
                !needs_parens_in_place_of(&inside, &parent, pair)
                    && !is_needed_by_rustc(&inside, &parent, pair)
            }
        },
    }
}

// Whether a pair has both parentheses, and begins with the first: attributes before it would be
// those of its contents.
fn is_bare(pair: &SyntaxNode) -> bool
    ensures { result ≡ is_bare pair.now }
{
    match parens_of(pair) {
        None => false,
        Some((open, _)) => open.start().raw() == pair.text_range().start().raw(),
    }
}

// Whether a node is a pair whose contents need no parentheses in its place.
fn contents_may_go(node: &SyntaxNode) -> bool
    ensures { result ≡ contents_may_go node.now }
{
    (is_of_kind(node, SyntaxKind::PAREN_EXPR) && inside_may_go(node)) || pattern_may_go(node)
}

/// Whether a node is a pair of parentheses, with both parentheses and without attributes, around an
/// expression for which [`needs_parens_in_place_of`] returns false, and that [`is_needed_by_rustc`]
/// does not keep; or around a pattern, but for alternatives, ranges and `mut x` in places that do
/// not take them, such as the `A | B` of `let (A | B) = c` and the `mut x` of `&(mut x)`.
///
/// That test covers operators and statements. If the pair is in something else, such as the arm of
/// a `match`, only a parse of the text without the pair shows that it is needless. Each of the two
/// pairs of `((a + b)) * c` may go alone, since the other one stays; [`may_go`] lets the inner one
/// go.
pub fn may_go_alone(node: &SyntaxNode) -> bool
    ensures { result ≡ may_go_alone node.now }
{
    is_bare(node) && contents_may_go(node)
}

/// Whether a node is a pair that [may go alone](may_go_alone), and that is not the outermost of
/// pairs directly in each other around an expression that needs parentheses there, as in
/// `((a == b)) == c`.
pub fn may_go(node: &SyntaxNode) -> bool
    ensures { result ≡ may_go node.now }
{
    may_go_alone(node) && !is_needed_inside(node)
}

/// The needless pairs of a tree by this test, in preorder. If one of them is in another, possibly
/// only one of the two can be removed.
///
/// # Errors
///
/// `AllocError` if memory runs out.
pub fn pairs(alloc: Global, root: &SyntaxNode) -> Result<Vec<SyntaxNode>, AllocError>
    ensures { IfOk result
        (λ found. found.items ≡ filter may_go (filter at_node (descendants_of root.now))) }
{
    let mut found = Vec::new(alloc);
    for node in root.descendants() {
        if may_go(&node) {
            found.push(node)?;
        }
    }
    Ok(found)
}
