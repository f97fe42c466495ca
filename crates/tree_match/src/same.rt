//! Whether two trees are the same but for what does not count.
ghost use Rattle.std.specs.Prelude.{◌≡◌, ◌∷◌, [], IfOk};
ghost use Rattle.std.specs.Cmp.Lexicographic.{pointwise};
ghost use Rattle.tree_match.specs.declared.bare.Comments.TheVariants.{Passed};
ghost use Rattle.tree_match.specs.Bare.{is_same_step, is_end};
ghost use Rattle.tree_match.specs.Walks.{step_of, levels_of};
ghost use Rattle.tree_match.specs.Same.{steps_left, IsDecided, is_same_token, is_same_node, is_same};

use crate::bare::{Comments, bare};
use crate::run::Run;
use crate::walk::{Seen, Walk};
use std::alloc::{AllocError, Global};

// Whether two steps are the same.
fn is_same_step(a: Seen<'_>, b: Seen<'_>) -> bool
    ensures { result ≡ is_same_step (step_of a.entry) (step_of b.entry) }
{
    match (a, b) {
        (Seen::Enter(a), Seen::Enter(b)) => a.to_raw() == b.to_raw(),
        (Seen::Leave, Seen::Leave) => true,
        (Seen::Token(a, text), Seen::Token(b, other)) => a.to_raw() == b.to_raw() && text == other,
        (Seen::End, Seen::End) => true,
        _ => false,
    }
}

fn is_end(step: Seen<'_>) -> bool
    ensures { result ≡ is_end (step_of step.entry) }
{
    matches!(step, Seen::End)
}

// Compares the next steps of two walks. Returns whether all steps are the same, as soon as that is
// known.
fn compare_next(first: &mut Walk<'_>, second: &mut Walk<'_>) -> Result<Option<bool>, AllocError>
    requires first { first.old.comments ≡ Passed }
    requires second { second.old.comments ≡ Passed }
    ensures decided { IfOk result (IsDecided (levels_of first.old) (levels_of second.old)
        (levels_of first.new) (levels_of second.new)) }
    ensures first { first.new.comments ≡ Passed }
    ensures second { second.new.comments ≡ Passed }
{
    let step = first.next()?;
    let other = second.next()?;
    if !is_same_step(step, other) {
        return Ok(Some(false));
    }
    if is_end(step) {
        return Ok(Some(true));
    }
    Ok(None)
}

// Whether all of some siblings and all of others are the same.
fn same_siblings(alloc: Global, a: &Run<'_>, b: &Run<'_>) -> Result<bool, AllocError>
    ensures { IfOk result (λ same. same
        ≡ pointwise is_same_step (steps_left Passed (a.now ∷ []))
        (steps_left Passed (b.now ∷ []))) }
{
    let mut first = Walk::new(alloc, Comments::Passed, a);
    let mut second = Walk::new(alloc, Comments::Passed, b);
    loop {
        if let Some(same) = compare_next(&mut first, &mut second)? {
            return Ok(same);
        }
    }
}

// Whether the first of some siblings and the first of others are the same token.
fn is_same_token(a: &Run<'_>, b: &Run<'_>) -> bool
    ensures { result ≡ is_same_token a.now b.now }
{
    a.is_token() && b.is_token() && a.kind().to_raw() == b.kind().to_raw() && a.text() == b.text()
}

// Whether they are nodes that are the same tree.
fn is_same_node(alloc: Global, a: &Run<'_>, b: &Run<'_>) -> Result<bool, AllocError>
    ensures { IfOk result (λ same. same ≡ is_same_node a.now b.now) }
{
    if a.is_token() || b.is_token() || a.kind().to_raw() != b.kind().to_raw() {
        return Ok(false);
    }
    same_siblings(alloc, &a.inside(), &b.inside())
}

/// Whether the first of some siblings and the first of others are the same tree.
pub(crate) fn is_same(alloc: Global, a: &Run<'_>, b: &Run<'_>) -> Result<bool, AllocError>
    ensures { IfOk result (λ same. same ≡ is_same a.now b.now) }
{
    let a = bare(Comments::Passed, a);
    let b = bare(Comments::Passed, b);
    if is_same_token(&a, &b) {
        return Ok(true);
    }
    is_same_node(alloc, &a, &b)
}
