//! Walks along one operand after the other: to what an expression begins with, and to what it ends
//! with.
ghost use Rattle.std.specs.Prelude.{◌≡◌};
ghost use Rattle.tree_model.specs.Tree.{forest_of_children};
ghost use Rattle.tree_model.specs.Cursor.{focus};
ghost use Rattle.lossless_tree.specs.Trees.{first_of};
ghost use Rattle.ras_prec_walks.specs.Along.{is_block_like, begins_with_block, ends_in_brace};
ghost use Rattle.ras_prec_walks.specs.Turns.{is_found, goes_on, operand, past_token, at_expr, turn_at, reaches};

use lossless_tree::{SiblingsLeft, SyntaxKind, SyntaxNode};
use ras_node::sets::{Exprs, KindSet, RangeOperators};

/// What a walk looks for: a block-like expression at the start, a brace at the end, or, at the
/// first operand to follow only, a block or any expression.
#[derive(Clone, Copy)]
pub enum Toward {
    Start,
    End,
    Block,
    Any,
}

/// Which of the remaining expressions is the operand to follow: the first, the second, or the first
/// after `..` or `..=`.
#[derive(Clone, Copy)]
pub enum Meant {
    First,
    Second,
    BehindDots,
}

/// The result of a walk's step at one child: the walk's result, or the operand to follow after the
/// child or inside it.
#[derive(Clone, Copy)]
pub enum Turn {
    Answer(bool),
    Past(Meant),
    Into(Meant),
}

/// Whether an expression of this kind ends in a block, as an `if`, a loop, a block or a `match`
/// does: as a statement it needs no `;`.
pub fn is_block_like(kind: SyntaxKind) -> bool
    ensures { result ≡ is_block_like kind }
{
    matches!(
        kind,
        SyntaxKind::IF_EXPR
            | SyntaxKind::MATCH_EXPR
            | SyntaxKind::BLOCK_EXPR
            | SyntaxKind::WHILE_EXPR
            | SyntaxKind::LOOP_EXPR
            | SyntaxKind::FOR_EXPR
    )
}

// What the walk looks for: toward the start what is a statement without `;`, toward the end what
// ends in a brace.
fn is_found(toward: Toward, kind: SyntaxKind) -> bool
    ensures { result ≡ is_found toward kind }
{
    match toward {
        Toward::Start => is_block_like(kind),
        Toward::End => match kind {
            SyntaxKind::RECORD_EXPR => true,
            _ => is_block_like(kind),
        },
        Toward::Block => matches!(kind, SyntaxKind::BLOCK_EXPR),
        Toward::Any => true,
    }
}

// What begins, or ends, with an operand.
fn goes_on(toward: Toward, kind: SyntaxKind) -> bool
    ensures { result ≡ goes_on toward kind }
{
    match toward {
        Toward::Start => matches!(
            kind,
            SyntaxKind::BIN_EXPR
                | SyntaxKind::CALL_EXPR
                | SyntaxKind::CAST_EXPR
                | SyntaxKind::INDEX_EXPR
        ),
        Toward::End => matches!(
            kind,
            SyntaxKind::REF_EXPR
                | SyntaxKind::BREAK_EXPR
                | SyntaxKind::LET_EXPR
                | SyntaxKind::RETURN_EXPR
                | SyntaxKind::PREFIX_EXPR
                | SyntaxKind::YIELD_EXPR
                | SyntaxKind::BIN_EXPR
                | SyntaxKind::RANGE_EXPR
                | SyntaxKind::CLOSURE_EXPR
        ),
        Toward::Block | Toward::Any => false,
    }
}

// Which of its expressions that operand is.
fn operand(toward: Toward, kind: SyntaxKind) -> Meant
    ensures { result ≡ operand toward kind }
{
    match toward {
        Toward::Start | Toward::Block | Toward::Any => Meant::First,
        Toward::End => match kind {
            SyntaxKind::BIN_EXPR => Meant::Second,
            SyntaxKind::RANGE_EXPR => Meant::BehindDots,
            _ => Meant::First,
        },
    }
}

fn past_token(meant: Meant, kind: SyntaxKind) -> Meant
    ensures { result ≡ past_token meant kind }
{
    match meant {
        Meant::First => Meant::First,
        Meant::Second => Meant::Second,
        Meant::BehindDots => {
            if RangeOperators::has(kind) {
                Meant::First
            } else {
                Meant::BehindDots
            }
        }
    }
}

fn at_expr(toward: Toward, meant: Meant, kind: SyntaxKind) -> Turn
    ensures { result ≡ at_expr toward meant kind }
{
    match meant {
        Meant::Second => Turn::Past(Meant::First),
        Meant::BehindDots => Turn::Past(Meant::BehindDots),
        Meant::First => {
            if is_found(toward, kind) {
                Turn::Answer(true)
            } else if goes_on(toward, kind) {
                Turn::Into(operand(toward, kind))
            } else {
                Turn::Answer(false)
            }
        }
    }
}

fn turn_at(toward: Toward, meant: Meant, left: &SiblingsLeft<'_>) -> Turn
    ensures { result ≡ turn_at toward meant (first_of left.now.trees) }
{
    let kind = left.kind();
    if left.is_token() {
        return Turn::Past(past_token(meant, kind));
    }
    if Exprs::has(kind) {
        at_expr(toward, meant, kind)
    } else {
        Turn::Past(meant)
    }
}

/// Follows first (or last) operands, starting in `trees`; true if it reaches what `toward` looks
/// for.
///
/// It takes time linear in the children of the nodes that it goes through.
pub fn reaches(toward: Toward, meant: Meant, trees: &SiblingsLeft<'_>) -> bool
    ensures { result ≡ reaches toward meant trees.now.trees }
{
    let mut meant = meant;
    let mut left = trees.all();
    while !left.is_done() {
        match turn_at(toward, meant, &left) {
            Turn::Answer(found) => return found,
            Turn::Past(next) => {
                meant = next;
                left = left.rest();
            }
            Turn::Into(next) => {
                meant = next;
                left = left.inside();
            }
        }
    }
    false
}

/// Whether an expression begins with a block, an `if`, a `match` or a loop that is not the whole of
/// it: with the left side of a binary operator, what is called, cast or indexed. As a statement it
/// would end there.
///
/// It takes time linear in the children of the nodes that it goes through.
pub fn begins_with_block(node: &SyntaxNode) -> bool
    ensures { result ≡ begins_with_block node.now }
{
    let kind = node.kind();
    goes_on(Toward::Start, kind)
        && reaches(Toward::Start, operand(Toward::Start, kind), &node.trees())
}

/// Whether an expression ends in a brace: it is a block, an `if`, a `match`, a loop or a record, or
/// ends with an operand that does: that of `&`, `let`, a prefix, `return`, `break`, `yield`, a
/// binary operator's right side, the end of a range, the body of a closure.
///
/// It takes time linear in the children of the nodes that it goes through.
pub fn ends_in_brace(node: &SyntaxNode) -> bool
    ensures { result ≡ ends_in_brace node.now }
{
    let kind = node.kind();
    is_found(Toward::End, kind)
        || (goes_on(Toward::End, kind)
            && reaches(Toward::End, operand(Toward::End, kind), &node.trees()))
}
