//! Guesses which pairs of a text stay, which parses then confirm. A wrong guess costs parses. It
//! changes the result only where pairs can be removed together and not one after the other: then
//! they go if all were guessed to go.
ghost use Rattle.std.specs.Prelude.{◌≤◌, length, IfOk};

use lossless_tree::{SyntaxElement, SyntaxNode, TextSize, WalkEvent};
use ras_parsing::Parse;
use rust_report::{Difference, Trivia, differences, is_pair};
use std::alloc::{AllocError, Global};

// How many differences of two trees are used, while most guesses are right.
const WANTED: usize = 4096;

// How many wrong guesses are borne, and for how many right ones a further one is.
const BORNE: usize = 8;

/// Which pairs of a list are guessed to stay.
#[derive(Drop)]
pub(crate) struct Guess {
    // One for each pair: whether a difference of two trees led to it.
    seen: Vec<bool>,
    // How many pairs stayed by a plan, and how many that a plan kept could be removed.
    right: usize,
    wrong: usize,
    // How many pairs are tried at once without a plan; 0 with one.
    step: usize,
}

impl Guess {
    /// The guess for so many pairs before the first parse: all go.
    pub(crate) fn new(alloc: Global, pairs: usize) -> Result<Guess, AllocError> {
        Ok(Guess {
            seen: vec![in alloc; false; pairs]?,
            right: 0,
            wrong: 0,
            step: 0,
        })
    }

    fn stays(&self, at: usize) -> bool {
        matches!(self.seen.get(at), Some(true))
    }

    /// For each of the last `len` pairs whether it is guessed to stay.
    pub(crate) fn stays_of(&self, alloc: Global, len: usize) -> Result<Vec<bool>, AllocError>
        requires { 1 ≤ len }
        ensures some { IfOk result (λ stays. 1 ≤ length stays.items) }
        ensures within { IfOk result (λ stays. length stays.items ≤ len) }
    {
        let first = self.seen.len().saturating_sub(len);
        let mut stays = Vec::new(alloc);
        stays.push(self.stays(first))?;
        while stays.len() < len {
            let at = first.saturating_add(stays.len());
            stays.push(self.stays(at))?;
        }
        Ok(stays)
    }

    // Whether most guesses were right.
    fn is_good(&self) -> bool {
        self.wrong <= BORNE.saturating_add(self.right / BORNE)
    }

    /// How many differences of two trees are used.
    pub(crate) fn wanted(&self) -> usize {
        if self.is_good() { WANTED } else { 1 }
    }

    /// Whether the next pairs are tried by a plan.
    pub(crate) fn is_trusted(&self) -> bool {
        self.step == 0
    }

    /// How many pairs are tried at once without a plan.
    pub(crate) fn step(&self) -> usize {
        self.step.max(1)
    }

    /// Learns from the differences of the trees without the pairs that were guessed to be
    /// removable, of the last pairs `rest`. Returns whether a further pair is now guessed to stay.
    pub(crate) fn learn(&mut self, rest: &[SyntaxNode], apart: &[Difference]) -> bool {
        let first = self.seen.len().saturating_sub(rest.len());
        let mut is_new = false;
        for difference in apart {
            let Some(index) = suspect(rest, difference) else {
                continue;
            };
            let at = first.saturating_add(index);
            if self.stays(at) {
                continue;
            }
            if let Some(seen) = self.seen.get_mut(at) {
                *seen = true;
                is_new = true;
            }
        }
        is_new
    }

    /// Notes that a plan for `planned` pairs was followed for the first `tried`, of which `stayed`
    /// stay. If these are not all, the last of them was guessed to stay and could be removed.
    pub(crate) fn was_followed(&mut self, planned: usize, tried: usize, stayed: usize) {
        self.right = self.right.saturating_add(stayed);
        if tried < planned {
            self.wrong = self.wrong.saturating_add(1);
            if !self.is_good() {
                self.seen.as_mut_slice().fill(false);
            }
        }
    }

    /// Notes how many pairs were tried at once, without a plan.
    pub(crate) fn was_tried(&mut self, count: usize, goes: bool) {
        self.step = if goes { count.saturating_mul(2) } else { 0 };
    }
}

/// Adds the first `wanted` differences of a tree without what the marks leave out and another tree.
pub(crate) fn note_apart(
    alloc: Global,
    old: &Parse<SyntaxNode>,
    marks: &[bool],
    new: &Parse<SyntaxNode>,
    wanted: usize,
    apart: &mut Vec<Difference>,
) -> Result<(), AllocError> {
    if wanted > 0 {
        *apart = differences(alloc, old.root(), marks, new.root(), Trivia::Aside, wanted)?;
    }
    Ok(())
}

// How many pairs, in preorder, start before an offset.
fn count_before(pairs: &[SyntaxNode], offset: TextSize) -> usize {
    let (mut low, mut high) = (0usize, pairs.len());
    while low < high {
        let middle = low + (high - low) / 2;
        if pairs[middle].text_range().start() < offset {
            low = middle + 1;
        } else {
            high = middle;
        }
    }
    low
}

// The start of an element, or of the pair directly around it.
fn start_of(element: &SyntaxElement) -> TextSize {
    match element.parent() {
        Some(parent) => {
            if is_pair(&parent) {
                parent.text_range().start()
            } else {
                element.text_range().start()
            }
        }
        None => element.text_range().start(),
    }
}

// The number of the pair that may cause a difference: the one around the expression that the other
// tree lacks at this place, or the first one after its start; at the end of a node, the last one
// that starts before.
fn suspect(pairs: &[SyntaxNode], difference: &Difference) -> Option<usize> {
    match &difference.old {
        Some(WalkEvent::Enter(element)) => {
            let count = count_before(pairs, start_of(element));
            if count < pairs.len() {
                Some(count)
            } else {
                count.checked_sub(1)
            }
        }
        Some(WalkEvent::Leave(element)) => {
            count_before(pairs, element.text_range().end()).checked_sub(1)
        }
        None => pairs.len().checked_sub(1),
    }
}
