//! Two edits as one.
ghost use Rattle.std.specs.Prelude.{◌≡◌, ◌↔◌, ◌≤◌, ◌<◌, ◌-◌, ◌+◌, ◌++◌, ◌∷◌, [], IsTrue, IsFalse, length, IfErr, OnOk, vec_len, vec_capacity};
ghost use Rattle.std.specs.List.{insert};
ghost use Rattle.text_edit.specs.Replacements.{Replacement, InOrder, Overlap, begin_at, end_at, with_all};
ghost use Rattle.text_edit.specs.Merge.{GoesFirst, IsPopped};
ghost use Rattle.text_edit.specs.declared.error.OverlapError.TheVariants.{Memory};

use crate::error::OverlapError;
use crate::indel::Indel;
use std::collections::VecDeque;

// The number of the first range from which on all end after an offset.
pub(crate) fn place_for(indels: &[Indel], start: usize) -> usize
    ensures within { result ≤ length indels.now }
    ensures before { (d : Replacement) → 0 < result → end_at indels.now (result - 1) d ≤ start }
    ensures after { (d : Replacement) → result < length indels.now
        → start < end_at indels.now result d }
{
    let mut at = indels.len();
    while at > 0 {
        if indels[at - 1].end() <= start {
            return at;
        }
        at -= 1;
    }
    0
}

// Whether there is a range of this number that starts before an offset.
pub(crate) fn starts_before(indels: &[Indel], at: usize, end: usize) -> bool
    ensures yes { (d : Replacement) → IsTrue result
        → (at < length indels.now) × (begin_at indels.now at d < end) }
    ensures no { (d : Replacement) → IsFalse result → at < length indels.now
        → end ≤ begin_at indels.now at d }
{
    if at < indels.len() {
        indels[at].start() < end
    } else {
        false
    }
}

// Inserts into a list; if memory runs out, nothing is changed.
pub(crate) fn insert_at(
    indels: &mut Vec<Indel>,
    at: usize,
    indel: Indel,
) -> Result<(), OverlapError>
    requires { at ≤ length indels.old.items }
    ensures ok { OnOk result (indels.new.items ≡ insert indels.old.items at indel) }
    ensures err { IfErr result (λ e. (indels.new.items ≡ indels.old.items) × (e ≡ Memory)) }
{
    match indels.insert(at, indel) {
        Ok(()) => Ok(()),
        Err(_) => Err(OverlapError::Memory),
    }
}

// Whether a range of one list ends before a range of another starts, or where it starts.
fn ends_before(first: &[Indel], i: usize, second: &[Indel], j: usize) -> bool
    requires { (i < length first.now) × (j < length second.now) }
    ensures { (d : Replacement) → IsTrue result ↔ (end_at first.now i d ≤ begin_at second.now j d) }
{
    first[i].end() <= second[j].start()
}

// Whether some range of the one edit overlaps some range of the other.
pub(crate) fn overlap(mine: &[Indel], theirs: &[Indel]) -> bool
    requires mine { InOrder 0 mine.now }
    requires theirs { InOrder 0 theirs.now }
    ensures { IsTrue result ↔ Overlap mine.now theirs.now }
{
    let mut at: usize = 0;
    let mut other: usize = 0;
    while at < mine.len() && other < theirs.len() {
        if ends_before(mine, at, theirs, other) {
            at += 1;
        } else if ends_before(theirs, other, mine, at) {
            other += 1;
        } else {
            return true;
        }
    }
    false
}

// Whether the first replacement of the two edits as one is one of mine.
fn is_mine_first(mine: &VecDeque<Indel>, theirs: &VecDeque<Indel>) -> bool
    ensures { IsTrue result ↔ GoesFirst mine.now.items theirs.now.items }
{
    match (mine.front(), theirs.front()) {
        (Some(indel), Some(other)) => indel.end() <= other.start(),
        (Some(_), None) => true,
        (None, _) => false,
    }
}

// Takes out the first replacement of the two edits as one.
fn pop_first(mine: &mut VecDeque<Indel>, theirs: &mut VecDeque<Indel>) -> Option<Indel>
    requires { InOrder 0 theirs.old.items }
    ensures order { InOrder 0 theirs.new.items }
    ensures first { IsPopped mine.old.items theirs.old.items result mine.new.items
        theirs.new.items }
{
    if is_mine_first(mine, theirs) {
        mine.pop_front()
    } else {
        theirs.pop_front()
    }
}

// Appends the two edits as one to an empty list, which has room for both.
pub(crate) fn merge(mine: Vec<Indel>, theirs: Vec<Indel>, out: &mut Vec<Indel>)
    requires theirs { InOrder 0 theirs.items }
    requires empty { out.old.items ≡ [] }
    requires room { vec_len mine + vec_len theirs ≤ vec_capacity out.old }
    ensures { out.new.items ≡ with_all mine.items theirs.items }
{
    let mut mine = VecDeque::from(mine);
    let mut theirs = VecDeque::from(theirs);
    while let Some(indel) = pop_first(&mut mine, &mut theirs) {
        out.push_reserved(indel);
    }
}
