//! What a pair of parentheses is a part of.
ghost use Rattle.std.specs.Prelude.{◌≡◌};
ghost use Rattle.rust_parens.specs.Places.{holds_value, holds_operand, is_assignment, is_shift, is_arithmetic, operator, is_behind, is_right_value, is_mixed, place_in, place_by_parent, place_around, place_of};

use crate::patterns::holds_a_range;
use lossless_tree::{SyntaxKind, SyntaxNode};
use ras_node::sets::BinaryOperators;
use ras_node::support::is_of_kind;
use ras_prec_walks::parts::{first_expr, is_it};

/// What a pair of parentheses is a part of, by the node around it.
#[derive(Clone, Copy, Debug, PartialEq, Eq)]
pub enum PairPlace {
    /// A whole value, as that of a `let`, of an argument or of a condition; also a pair directly in
    /// another one; and every pattern but a range. rustc's lint `unused_parens` asks to remove
    /// these.
    Value,
    /// An operand of an operator, a call, a field or a reference.
    Operand,
    /// A sum or a product below `<<` or `>>`: clippy's lint `precedence` asks for this pair.
    Mixed,
    /// Anything else, as an element of an array, a statement or a pattern that is a range.
    Other,
}

// Whether an expression directly in a node of the kind is a whole value.
fn holds_value(kind: SyntaxKind) -> bool
    ensures { result ≡ holds_value kind }
{
    matches!(
        kind,
        SyntaxKind::LET_STMT
            | SyntaxKind::CONST
            | SyntaxKind::STATIC
            | SyntaxKind::ARG_LIST
            | SyntaxKind::IF_EXPR
            | SyntaxKind::WHILE_EXPR
            | SyntaxKind::FOR_EXPR
            | SyntaxKind::MATCH_EXPR
            | SyntaxKind::LET_EXPR
            | SyntaxKind::RETURN_EXPR
            | SyntaxKind::BREAK_EXPR
            | SyntaxKind::STMT_LIST
            | SyntaxKind::MATCH_ARM
            | SyntaxKind::CLOSURE_EXPR
            | SyntaxKind::PAREN_EXPR
            | SyntaxKind::CONST_ARG
    )
}

// Whether an expression directly in a node of the kind is an operand, if it is no value.
fn holds_operand(kind: SyntaxKind) -> bool
    ensures { result ≡ holds_operand kind }
{
    matches!(
        kind,
        SyntaxKind::BIN_EXPR
            | SyntaxKind::PREFIX_EXPR
            | SyntaxKind::RANGE_EXPR
            | SyntaxKind::CAST_EXPR
            | SyntaxKind::CALL_EXPR
            | SyntaxKind::METHOD_CALL_EXPR
            | SyntaxKind::FIELD_EXPR
            | SyntaxKind::INDEX_EXPR
            | SyntaxKind::TRY_EXPR
            | SyntaxKind::AWAIT_EXPR
            | SyntaxKind::REF_EXPR
    )
}

/// Whether a token assigns.
pub(crate) fn is_assignment(kind: Option<SyntaxKind>) -> bool
    ensures { result ≡ is_assignment kind }
{
    matches!(
        kind,
        Some(
            SyntaxKind::EQ
                | SyntaxKind::PLUSEQ
                | SyntaxKind::MINUSEQ
                | SyntaxKind::STAREQ
                | SyntaxKind::SLASHEQ
                | SyntaxKind::PERCENTEQ
                | SyntaxKind::AMPEQ
                | SyntaxKind::PIPEEQ
                | SyntaxKind::CARETEQ
                | SyntaxKind::SHLEQ
                | SyntaxKind::SHREQ,
        )
    )
}

fn is_shift(kind: Option<SyntaxKind>) -> bool
    ensures { result ≡ is_shift kind }
{
    matches!(kind, Some(SyntaxKind::SHL | SyntaxKind::SHR))
}

fn is_arithmetic(kind: Option<SyntaxKind>) -> bool
    ensures { result ≡ is_arithmetic kind }
{
    matches!(
        kind,
        Some(
            SyntaxKind::PLUS
                | SyntaxKind::MINUS
                | SyntaxKind::STAR
                | SyntaxKind::SLASH
                | SyntaxKind::PERCENT,
        )
    )
}

// The kind of the operator of a binary expression.
fn operator(node: &SyntaxNode) -> Option<SyntaxKind>
    ensures { result ≡ operator node.now }
{
    if !is_of_kind(node, SyntaxKind::BIN_EXPR) {
        return None;
    }
    let token = ras_node::first_token::<BinaryOperators>(node.children_with_tokens())?;
    Some(token.kind())
}

// Whether a pair is not the first expression of its parent.
fn is_behind(parent: &SyntaxNode, pair: &SyntaxNode) -> bool
    ensures { result ≡ is_behind parent.now pair.now }
{
    !is_it(pair, first_expr(parent))
}

// Whether a pair is an index, or a value that is assigned.
fn is_right_value(parent: &SyntaxNode, pair: &SyntaxNode) -> bool
    ensures { result ≡ is_right_value parent.now pair.now }
{
    (is_of_kind(parent, SyntaxKind::INDEX_EXPR) || is_assignment(operator(parent)))
        && is_behind(parent, pair)
}

// Whether a pair is around a sum or a product, below a shift.
fn is_mixed(parent: &SyntaxNode, pair: &SyntaxNode) -> bool
    ensures { result ≡ is_mixed parent.now pair.now }
{
    match first_expr(pair) {
        None => false,
        Some(inside) => is_shift(operator(parent)) && is_arithmetic(operator(&inside)),
    }
}

fn place_in(parent: &SyntaxNode, pair: &SyntaxNode) -> PairPlace
    ensures { result ≡ place_in parent.now pair.now }
{
    if holds_value(parent.kind()) || is_right_value(parent, pair) {
        PairPlace::Value
    } else if is_mixed(parent, pair) {
        PairPlace::Mixed
    } else if holds_operand(parent.kind()) {
        PairPlace::Operand
    } else {
        PairPlace::Other
    }
}

// What a pair around a pattern is a part of.
fn place_around(is_range: bool) -> PairPlace
    ensures { result ≡ place_around is_range }
{
    if is_range {
        PairPlace::Other
    } else {
        PairPlace::Value
    }
}

// What a pair is a part of, by the node around it.
fn place_by_parent(pair: &SyntaxNode) -> PairPlace
    ensures { result ≡ place_by_parent pair.now }
{
    match pair.parent() {
        None => PairPlace::Other,
        Some(parent) => place_in(&parent, pair),
    }
}

/// What a pair of parentheses, a `PAREN_EXPR` or a `PAREN_PAT`, is a part of. Of `(a) + [(b)]`, the
/// first pair is an operand and the second is of another place; of `f((a))` and `x = (a);` the pair
/// is a value, and of `let (a) = b;` too. Of `let (1..) = a else { c };` it is of another place.
pub fn place_of(pair: &SyntaxNode) -> PairPlace
    ensures { result ≡ place_of pair.now }
{
    if is_of_kind(pair, SyntaxKind::PAREN_PAT) {
        place_around(holds_a_range(pair))
    } else {
        place_by_parent(pair)
    }
}
