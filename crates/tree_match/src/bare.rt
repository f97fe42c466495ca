//! Siblings without white space, comments, pairs of parentheses and commas at the end of lists.
ghost use Rattle.std.specs.Prelude.{◌≡◌};
ghost use Rattle.tree_match.specs.Bare.{is_passed, past, is_token_of, is_node_there, is_node_of, is_pair, held, opens, closing, closes, bare, is_closing, ends_list, is_last_comma, without_comma, is_element, behind_one};

use crate::kind::is_kind;
use crate::run::Run;
use lossless_tree::SyntaxKind;

/// Whether comments are passed over, as white space is.
#[derive(Clone, Copy, Drop)]
pub enum Comments {
    Passed,
    Kept,
}

fn is_passed(comments: Comments, kind: SyntaxKind) -> bool
    ensures { result ≡ is_passed comments kind }
{
    match comments {
        Comments::Passed => kind.is_trivia(),
        Comments::Kept => matches!(kind, SyntaxKind::WHITESPACE),
    }
}

/// The siblings from the first on that counts.
#[tactic(auto, using(crate::proofs::BareLemmas::past_step, crate::proofs::BareLemmas::past_token_stop, crate::proofs::BareLemmas::past_kind_stop))]
pub(crate) fn past<'t>(comments: Comments, left: &Run<'t>) -> Run<'t>
    ensures { result ≡ past comments left.now }
{
    let mut rest = left.all();
    while rest.is_token() && is_passed(comments, rest.kind()) {
        rest = rest.rest();
    }
    rest
}

pub(crate) fn is_token_of(kind: SyntaxKind, left: &Run<'_>) -> bool
    ensures { result ≡ is_token_of kind left.now.trees }
{
    left.is_token() && is_kind(left.kind(), kind)
}

/// Whether the first of the siblings is a node.
pub(crate) fn is_node_there(left: &Run<'_>) -> bool
    ensures { result ≡ is_node_there left.now.trees }
{
    !left.is_done() && !left.is_token()
}

// What is in a pair of parentheses: the children from the first on behind `(`.
fn held<'t>(comments: Comments, left: &Run<'t>) -> Run<'t>
    ensures { result ≡ held comments left.now }
{
    past(comments, &past(comments, &left.inside()).rest())
}

// The children of a pair from `)` on.
fn closing<'t>(comments: Comments, left: &Run<'t>) -> Run<'t>
    ensures { result ≡ closing comments left.now }
{
    past(comments, &held(comments, left).rest())
}

// Whether the first of the siblings is a node of this kind.
fn is_node_of(kind: SyntaxKind, left: &Run<'_>) -> bool
    ensures { result ≡ is_node_of kind left.now.trees }
{
    is_node_there(left) && is_kind(left.kind(), kind)
}

// Whether the first of the siblings begins as a pair of parentheses round a node.
fn opens(comments: Comments, left: &Run<'_>) -> bool
    ensures { result ≡ opens comments left.now }
{
    let opening = past(comments, &left.inside());
    is_token_of(SyntaxKind::L_PAREN, &opening) && is_node_there(&held(comments, left))
}

// Whether `)` follows that node, and nothing else that counts.
fn closes(comments: Comments, left: &Run<'_>) -> bool
    ensures { result ≡ closes comments left.now }
{
    let closing = closing(comments, left);
    is_token_of(SyntaxKind::R_PAREN, &closing) && past(comments, &closing.rest()).is_done()
}

// Whether the first of the siblings is a pair of parentheses round one node, with nothing else in
// it that counts.
fn is_pair(comments: Comments, left: &Run<'_>) -> bool
    ensures { result ≡ is_pair comments left.now }
{
    is_node_of(SyntaxKind::PAREN_EXPR, left) && (opens(comments, left) && closes(comments, left))
}

/// Siblings of which the first is what is in the pairs of parentheses directly round one another.
#[tactic(auto, using(crate::proofs::BareLemmas::bare_step, crate::proofs::BareLemmas::bare_stop, crate::proofs::BareLemmas::held_smaller))]
pub(crate) fn bare<'t>(comments: Comments, left: &Run<'t>) -> Run<'t>
    ensures { result ≡ bare comments left.now }
{
    let mut inner = left.all();
    while is_pair(comments, &inner) {
        inner = held(comments, &inner);
    }
    inner
}

// Whether a token of this kind closes a list.
fn is_closing(kind: SyntaxKind) -> bool
    ensures { result ≡ is_closing kind }
{
    is_kind(kind, SyntaxKind::R_PAREN)
        || is_kind(kind, SyntaxKind::R_BRACK)
        || is_kind(kind, SyntaxKind::R_CURLY)
        || is_kind(kind, SyntaxKind::R_ANGLE)
        || is_kind(kind, SyntaxKind::PIPE)
}

// Whether nothing is left, or what closes a list is first.
fn ends_list(left: &Run<'_>) -> bool
    ensures { result ≡ ends_list left.now.trees }
{
    left.is_done() || (left.is_token() && is_closing(left.kind()))
}

// Whether the first of the siblings is a comma behind which the list ends.
fn is_last_comma(comments: Comments, left: &Run<'_>) -> bool
    ensures { result ≡ is_last_comma comments left.now.trees }
{
    is_token_of(SyntaxKind::COMMA, left) && ends_list(&past(comments, &left.rest()))
}

// The siblings without a comma that ends the list.
pub(crate) fn without_comma<'t>(comments: Comments, left: &Run<'t>) -> Run<'t>
    ensures { result ≡ without_comma comments left.now }
{
    let next = past(comments, left);
    if is_last_comma(comments, &next) {
        next.rest()
    } else {
        left.all()
    }
}

// Whether the first of the siblings is a node that may be an element of a list. In a tree of tokens
// each comma counts.
fn is_element(left: &Run<'_>) -> bool
    ensures { result ≡ is_element left.now.trees }
{
    is_node_there(left) && !is_kind(left.kind(), SyntaxKind::TOKEN_TREE)
}

/// The siblings behind the first one, if that is an element of a list without a comma that ends the
/// list.
pub(crate) fn behind_one<'t>(comments: Comments, left: &Run<'t>) -> Run<'t>
    ensures { result ≡ behind_one comments left.now }
{
    let rest = left.rest();
    if is_element(left) {
        without_comma(comments, &rest)
    } else {
        rest
    }
}
