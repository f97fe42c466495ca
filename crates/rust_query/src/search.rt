//! The matches of a pattern, found in one walk of the tree.

use crate::pattern::{Choice, Step, TextPattern, TextTest};
use lossless_tree::{SyntaxElement, SyntaxNode, WalkEvent};
use regex::Matcher;
use rust_report::Link;
use std::alloc::{AllocError, Global};

// A regular expression is tried on a token, and on a node with at most so many bytes: nodes nest,
// so their texts together may have the square of the tree's bytes.
const LONGEST: usize = 1000;

/// A node or token that fits a pattern.
#[derive(Drop)]
pub struct Found {
    /// Its row in the tree.
    pub row: usize,
    /// The rows of what fits the named steps, the last step's first.
    pub named: Vec<(usize, usize)>,
}

// What is known of an element and a step.
#[derive(Clone, Copy)]
struct Frame {
    // The element's row.
    row: usize,
    // Whether the element fits the step, and what is above it the steps before.
    fits: bool,
    // Where the frames of the element begin that the step before fits, if this one fits.
    from: usize,
    // Where those of the nearest element begin that the step fits: this one, or one above.
    near: Option<usize>,
}

// The walk.
#[derive(Drop)]
struct Search<'p> {
    pattern: &'p TextPattern,
    matchers: Vec<Matcher<'p>>,
    // A frame for each step, for each element from the root to the one that is looked at.
    frames: Vec<Frame>,
    found: Vec<Found>,
}

fn has_text(matchers: &mut Vec<Matcher<'_>>, test: &TextTest, element: &SyntaxElement) -> bool {
    match test {
        TextTest::Any => true,
        TextTest::Is(text) => element.text() == text.as_str(),
        TextTest::Fits(number) => {
            let text = element.text();
            if element.as_node().is_some() && text.len() > LONGEST {
                return false;
            }
            match matchers.get_mut(*number) {
                Some(matcher) => matcher.is_match(text),
                None => false,
            }
        }
    }
}

fn fits_choice(matchers: &mut Vec<Matcher<'_>>, choice: &Choice, element: &SyntaxElement) -> bool {
    let is_kind = match choice.kind {
        Some(kind) => element.kind() == kind,
        None => true,
    };
    is_kind && has_text(matchers, &choice.text, element)
}

fn fits_step(matchers: &mut Vec<Matcher<'_>>, step: &Step, element: &SyntaxElement) -> bool {
    for choice in &step.choices {
        if fits_choice(matchers, choice, element) {
            return true;
        }
    }
    false
}

impl<'p> Search<'p> {
    // The frame of the element above for a step.
    fn above(&self, base: usize, step: usize) -> Option<Frame> {
        let start = base.checked_sub(self.pattern.steps.len())?;
        self.frames.get(start.checked_add(step)?).copied()
    }

    // Where the frames begin of what the step before fits, for an element whose frames begin at
    // `base`; for the first step its own.
    fn reached(&self, base: usize, number: usize, link: Link) -> Option<usize> {
        let Some(before) = number.checked_sub(1) else {
            return Some(base);
        };
        let above = self.above(base, before)?;
        match link {
            Link::Within => above.near,
            Link::Child => {
                if above.fits {
                    base.checked_sub(self.pattern.steps.len())
                } else {
                    None
                }
            }
        }
    }

    // Adds the frame of an element for a step.
    fn push(
        &mut self,
        base: usize,
        number: usize,
        step: &Step,
        row: usize,
        element: &SyntaxElement,
    ) -> Result<(), AllocError> {
        let reached = self.reached(base, number, step.link);
        let fits = reached.is_some() && fits_step(&mut self.matchers, step, element);
        let near = if fits {
            Some(base)
        } else {
            match self.above(base, number) {
                Some(above) => above.near,
                None => None,
            }
        };
        self.frames.push(Frame {
            row,
            fits,
            from: reached.unwrap_or(base),
            near,
        })?;
        Ok(())
    }

    // The rows of what fits the named steps, for an element that fits the last one.
    fn named(&self, alloc: Global, base: usize) -> Result<Vec<(usize, usize)>, AllocError> {
        let mut named = Vec::new(alloc);
        let mut at = base;
        for (number, step) in self.pattern.steps.iter().enumerate().rev() {
            let Some(frame) = self.frames.get(at.saturating_add(number)).copied() else {
                break;
            };
            if step.name.is_some() {
                named.push((number, frame.row))?;
            }
            at = frame.from;
        }
        Ok(named)
    }

    fn enter(
        &mut self,
        alloc: Global,
        row: usize,
        element: &SyntaxElement,
    ) -> Result<(), AllocError> {
        let base = self.frames.len();
        let pattern = self.pattern;
        for (number, step) in pattern.steps.iter().enumerate() {
            self.push(base, number, step, row, element)?;
        }
        if self.frames.last().is_some_and(|frame| frame.fits) {
            let named = self.named(alloc, base)?;
            self.found.push(Found { row, named })?;
        }
        Ok(())
    }

    fn leave(&mut self) {
        let rest = self.frames.len().saturating_sub(self.pattern.steps.len());
        self.frames.truncate(rest);
    }
}

/// The nodes and tokens of a tree that fit a pattern, in preorder. `//` leads to the nearest node
/// above that the step before fits.
///
/// Takes time proportional to the tree times the pattern, and for texts that of their comparison.
/// Takes memory proportional to the depth of the tree times the pattern.
///
/// # Errors
///
/// `AllocError` if memory runs out.
pub fn matches_of(
    alloc: Global,
    root: &SyntaxNode,
    pattern: &TextPattern,
) -> Result<Vec<Found>, AllocError> {
    let mut matchers = Vec::with_capacity(alloc, pattern.regexes.len())?;
    for regex in &pattern.regexes {
        matchers.push(regex.matcher(alloc)?)?;
    }
    let mut search = Search {
        pattern,
        matchers,
        frames: Vec::new(alloc),
        found: Vec::new(alloc),
    };
    let mut row = root.row();
    for event in root.preorder_with_tokens() {
        match event {
            WalkEvent::Enter(element) => {
                search.enter(alloc, row, &element)?;
                row = row.saturating_add(1);
            }
            WalkEvent::Leave(_) => search.leave(),
        }
    }
    Ok(search.found)
}
