//! The pairs of a text that can be removed together, and the text without them.
ghost use Rattle.std.specs.Prelude.{◌≡◌, not, get_or, false, ◌≤◌, ◌<◌, ◌↔◌, ◌++◌, map, length, is_some, IfOk, IfSome, OnOk, IsTrue, option_map, string_bytes};
ghost use Rattle.rust_parens.specs.Needless.{IsMarkedOut, IsAnswer, AreTried, AreTriedAmong, candidates_of, chosen, refused_of};
ghost use Rattle.rust_parens.specs.Runs.{IsPlan, IsRun, as_tried, going, planned};

use crate::alone::stays_alone;
use crate::find::pairs;
use crate::guess::{Guess, note_apart};
use crate::text::{marks_of, text_without};
use lossless_tree::SyntaxNode;
use ras_front_end::{Edition, Entry, FrontEnd, ParseError};
use ras_node::support::share;
use ras_parsing::{Parse, read};
use rust_report::{Difference, Trivia, first_difference};
use std::alloc::{AllocError, Global};

/// A pair that was tried.
#[derive(Drop)]
pub struct Tried {
    /// The pair.
    pub pair: SyntaxNode,
    /// Whether it can be removed. All that can be removed can be removed together.
    pub goes: bool,
}

/// The pairs of a text that can all be removed together.
#[derive(Drop)]
pub struct Needless {
    /// The pairs, in preorder.
    pub pairs: Vec<SyntaxNode>,
    /// The text without them; `None` if there are no such pairs.
    pub text: Option<String>,
    /// All pairs that were tried, in preorder: those that can be removed, and those that stay.
    pub tried: Vec<Tried>,
}

// Pairs that were tried beside the chosen ones, in order, and the text without the chosen pairs and
// without those of the tried ones that can be removed; no text if none can.
#[derive(Drop)]
struct Run {
    tried: Vec<Tried>,
    text: Option<String>,
}

// A guess which of the first pairs of a list stay, and the text without the chosen pairs and
// without the others, which a parse has confirmed. There is no text if all of them stay.
#[derive(Drop)]
struct Plan {
    stays: Vec<bool>,
    text: Option<String>,
}

// The parse whose pairs are tried, and how the texts without them are parsed.
#[derive(Drop)]
struct Trial<'a, F: FrontEnd> {
    front: &'a F,
    entry: Entry,
    edition: Edition,
    old: &'a Parse<SyntaxNode>,
}

// Whether a parse is the old one without what the marks leave out, with the same number of errors.
fn is_same(old: &Parse<SyntaxNode>, marks: &[bool], new: &Parse<SyntaxNode>) -> bool
    ensures { IsTrue result ↔ IsMarkedOut old.now marks.now new.now }
{
    old.stored().len() == new.stored().len()
        && first_difference(old.root(), marks, new.root(), Trivia::Aside).is_none()
}

// A run of pairs that can all be removed, or one that stays.
fn run_of(alloc: Global, pairs: &[SyntaxNode], text: Option<String>) -> Result<Run, AllocError>
    ensures { IfOk result
        (λ run. (run.tried.items ≡ map (as_tried (is_some text)) pairs.now) × (run.text ≡ text)) }
{
    let mut tried = Vec::new(alloc);
    note(&mut tried, pairs, text.is_some())?;
    Ok(Run { tried, text })
}

// The pairs that a plan removes.
fn planned(
    alloc: Global,
    stays: &[bool],
    pairs: &[SyntaxNode],
) -> Result<Vec<SyntaxNode>, AllocError>
    ensures { IfOk result (λ going. going.items ≡ planned stays.now pairs.now) }
{
    let mut going = Vec::new(alloc);
    let mut marks = stays.iter();
    for pair in pairs {
        match marks.next() {
            None => return Ok(going),
            Some(stays) => {
                if !*stays {
                    going.push(share(pair))?;
                }
            }
        }
    }
    Ok(going)
}

// Whether a plan removes a pair.
fn goes_at(stays: &[bool], at: usize) -> bool
    requires { at < length stays.now }
    ensures { result ≡ not (get_or stays.now at false) }
{
    !stays[at]
}

impl<'a, F: FrontEnd> Trial<'a, F> {
    // The text without the pairs of `chosen` and `more`, if it parses to the tree without them. If
    // it does not, the first `wanted` places where the trees differ are added to `apart`.
    fn without(
        &self,
        alloc: Global,
        chosen: &[SyntaxNode],
        more: &[SyntaxNode],
        wanted: usize,
        apart: &mut Vec<Difference>,
    ) -> Result<Option<String>, AllocError>
        ensures { IfOk result (λ o.
            IsAnswer (F.answers self.now.front.now) self.now.entry self.now.edition
            self.now.old.now (chosen.now ++ more.now) (option_map string_bytes o)) }
    {
        let len = self.old.root().as_str().len();
        let marks = marks_of(alloc, len, chosen, more)?;
        let text = text_without(alloc, self.old.root(), marks.as_slice())?;
        match read(alloc, self.front, self.entry, text.as_str(), self.edition) {
            Ok(new) => {
                if is_same(self.old, marks.as_slice(), &new) {
                    Ok(Some(text))
                } else {
                    note_apart(alloc, self.old, marks.as_slice(), &new, wanted, apart)?;
                    Ok(None)
                }
            }
            Err(ParseError::TooLong) => Ok(None),
            Err(ParseError::Memory) => Err(AllocError),
        }
    }

    // The text without the chosen pairs and this one, if this one can be removed beside them.
    // `pair` has it alone.
    #[tactic(auto, using(crate::proofs::AloneLemmas::refused))]
    fn without_one(
        &self,
        alloc: Global,
        chosen: &[SyntaxNode],
        pair: &[SyntaxNode],
        apart: &mut Vec<Difference>,
    ) -> Result<Option<String>, AllocError>
        ensures { IfOk result (λ o.
            IsAnswer (F.answers self.now.front.now) self.now.entry self.now.edition
            self.now.old.now (chosen.now ++ pair.now) (option_map string_bytes o)) }
    {
        let len = self.old.root().as_str().len();
        if stays_alone(alloc, self.front, self.edition, len, chosen, pair)? {
            return Ok(None);
        }
        self.without(alloc, chosen, pair, 0, apart)
    }

    // Tries to remove the first pairs that are left beside the chosen ones: at most `step` of them,
    // then half of these, down to one.
    fn halved_run(
        &self,
        alloc: Global,
        chosen: &[SyntaxNode],
        rest: &[SyntaxNode],
        step: usize,
    ) -> Result<Run, AllocError>
        requires { 1 ≤ length rest.now }
        ensures { IfOk result (IsRun (F.answers self.now.front.now) self.now.entry self.now.edition
            self.now.old.now chosen.now rest.now) }
    {
        let mut apart = Vec::new(alloc);
        let mut count = step.min(rest.len());
        while count > 1 {
            let pairs = &rest[..count];
            let text = self.without(alloc, chosen, pairs, 0, &mut apart)?;
            if text.is_some() {
                return run_of(alloc, pairs, text);
            }
            count /= 2;
        }
        let pairs = &rest[..1];
        let text = self.without(alloc, chosen, pairs, 0, &mut apart)?;
        run_of(alloc, pairs, text)
    }

    // Guesses which of the pairs that are left stay, until the text without the others parses to
    // the tree without them. Returns `None` if a parse suggests no further pair that may have to
    // stay.
    fn make_plan(
        &self,
        alloc: Global,
        chosen: &[SyntaxNode],
        rest: &[SyntaxNode],
        guess: &mut Guess,
    ) -> Result<Option<Plan>, AllocError>
        requires { 1 ≤ length rest.now }
        ensures { IfOk result (λ plan.
            IfSome plan (IsPlan (F.answers self.now.front.now) self.now.entry self.now.edition
            self.now.old.now chosen.now rest.now)) }
    {
        for _turn in 0..=rest.len() {
            let stays = guess.stays_of(alloc, rest.len())?;
            let going = planned(alloc, stays.as_slice(), rest)?;
            if going.is_empty() {
                return Ok(Some(Plan { stays, text: None }));
            }
            let mut apart = Vec::new(alloc);
            let more = going.as_slice();
            let wanted = guess.wanted();
            let text = self.without(alloc, chosen, more, wanted, &mut apart)?;
            if text.is_some() {
                return Ok(Some(Plan { stays, text }));
            }
            if !guess.learn(rest, apart.as_slice()) {
                return Ok(None);
            }
        }
        Ok(None)
    }

    // Tries to remove each pair that stays by a plan, beside the chosen ones and those before it
    // that the plan removes, until one can be removed.
    fn planned_run(
        &self,
        alloc: Global,
        chosen: &[SyntaxNode],
        rest: &[SyntaxNode],
        plan: Plan,
    ) -> Result<Run, AllocError>
        requires { IsPlan (F.answers self.now.front.now) self.now.entry self.now.edition
            self.now.old.now chosen.now rest.now plan }
        ensures { IfOk result (IsRun (F.answers self.now.front.now) self.now.entry self.now.edition
            self.now.old.now chosen.now rest.now) }
    {
        let mut before = Vec::new(alloc);
        add_going(&mut before, chosen, true)?;
        let mut tried = Vec::new(alloc);
        let mut apart = Vec::new(alloc);
        while tried.len() < plan.stays.len() {
            let at = tried.len();
            let left = &rest[at..];
            let pair = &left[..1];
            let marks = plan.stays.as_slice();
            let goes = goes_at(marks, at);
            if !goes {
                let beside = before.as_slice();
                let text = self.without_one(alloc, beside, pair, &mut apart)?;
                if text.is_some() {
                    note(&mut tried, pair, true)?;
                    return Ok(Run { tried, text });
                }
            }
            add_going(&mut before, pair, goes)?;
            note(&mut tried, pair, goes)?;
        }
        Ok(Run {
            tried,
            text: plan.text,
        })
    }

    // Tries the first pairs that are left: by a plan, or by halves if there is no plan, up to a
    // pair that stays.
    fn next_run(
        &self,
        alloc: Global,
        chosen: &[SyntaxNode],
        rest: &[SyntaxNode],
        guess: &mut Guess,
    ) -> Result<Run, AllocError>
        requires { 1 ≤ length rest.now }
        ensures { IfOk result (IsRun (F.answers self.now.front.now) self.now.entry self.now.edition
            self.now.old.now chosen.now rest.now) }
    {
        if guess.is_trusted() {
            let plan = self.make_plan(alloc, chosen, rest, guess)?;
            if let Some(plan) = plan {
                let count = plan.stays.len();
                let run = self.planned_run(alloc, chosen, rest, plan)?;
                let stayed = staying(&run.tried);
                guess.was_followed(count, run.tried.len(), stayed);
                return Ok(run);
            }
        }
        let step = guess.step();
        let run = self.halved_run(alloc, chosen, rest, step)?;
        guess.was_tried(run.tried.len(), run.text.is_some());
        Ok(run)
    }
}

// Adds pairs to the chosen ones if they can be removed.
fn add_going(chosen: &mut Vec<SyntaxNode>, run: &[SyntaxNode], goes: bool) -> Result<(), AllocError>
    ensures { OnOk result (chosen.new.items ≡ chosen.old.items ++ going goes run.now) }
{
    if !goes {
        return Ok(());
    }
    for pair in run {
        chosen.push(share(pair))?;
    }
    Ok(())
}

// Notes that pairs were tried, and whether they can be removed.
fn note(tried: &mut Vec<Tried>, run: &[SyntaxNode], goes: bool) -> Result<(), AllocError>
    ensures { OnOk result (tried.new.items ≡ tried.old.items ++ map (as_tried goes) run.now) }
{
    for pair in run {
        tried.push(Tried {
            pair: share(pair),
            goes,
        })?;
    }
    Ok(())
}

// Adds the pairs that can be removed to the chosen ones.
fn add_chosen(found: &mut Vec<SyntaxNode>, tried: &[Tried]) -> Result<(), AllocError>
    ensures { OnOk result (found.new.items ≡ found.old.items ++ chosen tried.now) }
{
    for one in tried {
        if one.goes {
            found.push(share(&one.pair))?;
        }
    }
    Ok(())
}

// Adds pairs that were tried to others.
fn add_tried(tried: &mut Vec<Tried>, more: &[Tried]) -> Result<(), AllocError>
    ensures { OnOk result (tried.new.items ≡ tried.old.items ++ more.now) }
{
    for one in more {
        tried.push(Tried {
            pair: share(&one.pair),
            goes: one.goes,
        })?;
    }
    Ok(())
}

// How many pairs stay.
fn staying(tried: &[Tried]) -> usize
    ensures { result ≡ length (refused_of tried.now) }
{
    let mut count = 0usize;

    for one in tried {
        if !one.goes {
            count += 1;
        }
    }
    count
}

/// The pairs among these candidates that can be removed together, as [`find_needless`] returns them
/// for all candidates of a text. The candidates are pairs of the parse, in preorder; other pairs
/// stay.
///
/// # Errors
///
/// `AllocError` if memory runs out.
pub fn find_needless_among<F: FrontEnd>(
    alloc: Global,
    front: &F,
    entry: Entry,
    edition: Edition,
    old: &Parse<SyntaxNode>,
    candidates: Vec<SyntaxNode>,
) -> Result<Needless, AllocError>
    ensures found { IfOk result (λ n.
        AreTriedAmong (F.answers front.now) entry edition old.now candidates.items n.pairs.items
        n.tried.items (option_map string_bytes n.text)) }
    ensures all { IfOk result (λ n. length n.tried.items ≡ length candidates.items) }
{
    let trial = Trial {
        front,
        entry,
        edition,
        old,
    };
    let mut guess = Guess::new(alloc, candidates.len())?;
    let mut found = Vec::new(alloc);
    let mut tried = Vec::new(alloc);
    let mut text = None;
    while tried.len() < candidates.len() {
        let rest = &candidates[tried.len()..];
        let beside = found.as_slice();
        let run = trial.next_run(alloc, beside, rest, &mut guess)?;
        let more = run.tried.as_slice();
        add_chosen(&mut found, more)?;
        add_tried(&mut tried, more)?;
        text = run.text.or(text);
    }
    Ok(Needless {
        pairs: found,
        text,
        tried,
    })
}

/// The pairs of parentheses of a text that can be removed together. The pairs that
/// [`pairs`](crate::pairs) returns are decided one after the other: a pair stays if the text
/// without it, and without those before it that can be removed, parses to another tree than this
/// one without these pairs, apart from white space and comments, or with another number of errors;
/// or if such an expression around it does so alone. The text without all that can be removed
/// parses to the tree without them, with as many errors.
///
/// All pairs are removed at once and the text is parsed. If that fails, the places where the trees
/// differ suggest which pairs stay, and a further parse confirms that the others go together. A
/// pair that stays is confirmed by two parses of an expression around it, or, if none of the
/// nearest shows it, by a parse of the text. Without a suggestion, runs of pairs are tried and
/// halved. So it usually takes a few parses of the text, in linear time; at worst one for each pair
/// that stays.
///
/// # Errors
///
/// `AllocError` if memory runs out.
pub fn find_needless<F: FrontEnd>(
    alloc: Global,
    front: &F,
    entry: Entry,
    edition: Edition,
    old: &Parse<SyntaxNode>,
) -> Result<Needless, AllocError>
    ensures found { IfOk result (λ n.
        AreTried (F.answers front.now) entry edition old.now n.pairs.items n.tried.items
        (option_map string_bytes n.text)) }
    ensures all { IfOk result (λ n. length n.tried.items ≡ length (candidates_of old.now)) }
{
    let candidates = pairs(alloc, old.root())?;
    find_needless_among(alloc, front, entry, edition, old, candidates)
}
