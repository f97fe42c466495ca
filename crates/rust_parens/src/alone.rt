//! Pairs that stay because an expression around them, parsed alone, has another tree without them.
ghost use Rattle.std.specs.Prelude.{◌≡◌, ◌↔◌, ◌++◌, IsTrue, IfOk};
ghost use Rattle.rust_parens.specs.Alone.{IsAlike, IsReadAlone, IsTold, IsToldAround, StaysAlone};

use crate::text::{marks_of, text_without};
use lossless_tree::{SyntaxKind, SyntaxNode};
use ras_front_end::{Edition, Entry, FrontEnd, ParseError};
use ras_node::sets::{Exprs, KindSet, Pats};
use ras_parsing::{Parse, read};
use rust_report::{Trivia, first_difference};
use std::alloc::{AllocError, Global};

// How many of the nodes around a pair, itself included, are looked at.
const TRIED: usize = 6;

// Whether a parse is that of an expression without what the marks leave out, and has no errors.
fn is_alike(around: &SyntaxNode, marks: &[bool], new: &Parse<SyntaxNode>) -> bool
    ensures { IsTrue result ↔ IsAlike around.now marks.now new.now }
{
    new.stored().is_empty() && first_difference(around, marks, new.root(), Trivia::Aside).is_none()
}

// Whether the text of an expression, without what the marks leave out, parses to its tree without
// that, and without errors.
#[tactic(auto, using(crate::proofs::AloneLemmas::answered, crate::proofs::AloneLemmas::too_long))]
fn reads_alone<F: FrontEnd>(
    alloc: Global,
    front: &F,
    edition: Edition,
    around: &SyntaxNode,
    marks: &[bool],
) -> Result<bool, AllocError>
    ensures { IfOk result (IsReadAlone (F.answers front.now) edition around.now marks.now) }
{
    let text = text_without(alloc, around, marks)?;
    match read(alloc, front, Entry::Expr, text.as_str(), edition) {
        Ok(new) => Ok(is_alike(around, marks, &new)),
        Err(ParseError::TooLong) => Ok(false),
        Err(ParseError::Memory) => Err(AllocError),
    }
}

// Whether the text of an expression without what `kept` leaves out parses to its tree, and that
// without what `marks` leaves out does not.
#[tactic(auto, using(crate::proofs::AloneLemmas::told))]
fn is_told<F: FrontEnd>(
    alloc: Global,
    front: &F,
    edition: Edition,
    around: &SyntaxNode,
    kept: &[bool],
    marks: &[bool],
) -> Result<bool, AllocError>
    ensures { IfOk result
        (λ told. IsTrue told → IsTold (F.answers front.now) edition around.now kept.now marks.now) }
{
    if !reads_alone(alloc, front, edition, around, kept)? {
        return Ok(false);
    }
    let goes = reads_alone(alloc, front, edition, around, marks)?;
    Ok(!goes)
}

// Whether a node is parsed alone: an expression that is no pair.
fn is_tried(node: &SyntaxNode) -> bool {
    Exprs::has(node.kind()) && node.kind() != SyntaxKind::PAREN_EXPR
}

// Whether a node is an expression or a pattern, or stands in one.
fn is_within(node: &SyntaxNode) -> bool {
    Exprs::has(node.kind())
        || Pats::has(node.kind())
        || matches!(
            node.kind(),
            SyntaxKind::ARG_LIST
                | SyntaxKind::MATCH_ARM
                | SyntaxKind::MATCH_ARM_LIST
                | SyntaxKind::MATCH_GUARD
                | SyntaxKind::PARAM
                | SyntaxKind::PARAM_LIST
        )
}

// Whether one of the nearest expressions around a pair tells the marks apart.
#[tactic(auto, using(crate::proofs::AloneLemmas::told_at))]
fn is_told_around<F: FrontEnd>(
    alloc: Global,
    front: &F,
    edition: Edition,
    pair: &SyntaxNode,
    kept: &[bool],
    marks: &[bool],
) -> Result<bool, AllocError>
    ensures { IfOk result (λ told. IsTrue told
        → IsToldAround (F.answers front.now) edition pair.now kept.now marks.now) }
{
    let mut left = TRIED;
    for around in pair.ancestors() {
        if left == 0 || !is_within(&around) {
            return Ok(false);
        }
        left -= 1;
        if is_tried(&around) {
            let told = is_told(alloc, front, edition, &around, kept, marks)?;
            if told {
                return Ok(true);
            }
        }
    }
    Ok(false)
}

/// Whether an expression around a pair, one of the nearest, shows that the pair stays: without the
/// pairs `before`, its text parses alone to its tree, and without this pair too it does not. `pair`
/// has the pair alone; `len` is the length of the whole text.
///
/// Takes time linear in the length of the text and in these expressions.
#[tactic(auto, using(crate::proofs::AloneLemmas::stays))]
pub(crate) fn stays_alone<F: FrontEnd>(
    alloc: Global,
    front: &F,
    edition: Edition,
    len: usize,
    before: &[SyntaxNode],
    pair: &[SyntaxNode],
) -> Result<bool, AllocError>
    ensures { IfOk result
        (λ stays. IsTrue stays → StaysAlone (F.answers front.now) edition len before.now pair.now) }
{
    if pair.len() != 1 {
        return Ok(false);
    }
    let kept = marks_of(alloc, len, before, &[])?;
    let marks = marks_of(alloc, len, before, pair)?;
    is_told_around(alloc, front, edition, &pair[0], &kept, &marks)
}
