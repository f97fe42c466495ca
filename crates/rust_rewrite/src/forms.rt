//! A rule for each kind of syntax that its sides are.
ghost use Rattle.std.specs.Prelude.{◌≡◌, ◌<◌, true, length, IfOk, IfErr};
ghost use Rattle.rust_rewrite.specs.Rules.{is_other};

use crate::error::{RuleError, RuleFault, fault};
use crate::kind::{KINDS, RuleKind, Unfit, node_of};
use crate::side::{Names, Side, Words};
use ras_front_end::FrontEnd;
use std::alloc::Global;
use tree_match::{Rule, RuleRefusal};

/// The sides of a rule.
#[derive(Drop)]
pub(crate) struct Sides {
    pub(crate) pattern: Side,
    pub(crate) template: Option<Side>,
    /// Where the pattern starts in the rule.
    pub(crate) start: usize,
}

// Why a rule is none for a kind of syntax.
#[derive(Drop)]
enum Miss {
    // A side is not of the kind; whether it is the template.
    Unfit(Unfit, bool),
    // The placeholder with this number stands where nothing is that it can stand for.
    Misplaced(usize),
}

impl Miss {
    // Whether more of the rule was read than for another kind.
    fn is_beyond(&self, other: &Miss) -> bool {
        match (self, other) {
            (_, Miss::Misplaced(_)) => false,
            (Miss::Misplaced(_), _) => true,
            (Miss::Unfit(_, true), Miss::Unfit(_, false)) => true,
            (Miss::Unfit(_, false), Miss::Unfit(_, true)) => false,
            (Miss::Unfit(unfit, _), Miss::Unfit(other, _)) => unfit.at > other.at,
        }
    }
}

// A refusal of a side that starts at an offset, with its place in the rule.
fn placed(refusal: RuleRefusal, names: &Names, start: usize) -> RuleError
    ensures { is_other result.fault ≡ true }
{
    match refusal {
        RuleRefusal::Everything => fault(RuleFault::Everything, start),
        RuleRefusal::Memory => fault(RuleFault::Memory, start),
        RuleRefusal::Misplaced(number) => {
            let offset = names.offset(number).unwrap_or(start);
            fault(RuleFault::Misplaced, offset)
        }
        RuleRefusal::Twice(number) => {
            let offset = names.offset(number).unwrap_or(start);
            fault(RuleFault::ListTwice, offset)
        }
    }
}

// Adds what a rule is for one kind of syntax, if its sides are of it. Else returns why they are
// not.
fn add_form<F: FrontEnd>(
    alloc: Global,
    words: &Words<'_, F>,
    rule: &mut Rule,
    names: &Names,
    sides: &Sides,
    kind: RuleKind,
) -> Result<Option<Miss>, RuleError>
    ensures { IfErr result (λ e. is_other e.fault ≡ true) }
{
    let pattern = match node_of(alloc, words, &sides.pattern, kind)? {
        Ok(node) => node,
        Err(unfit) => {
            return Ok(Some(Miss::Unfit(unfit, false)));
        }
    };
    let template = match &sides.template {
        None => None,
        Some(side) => match node_of(alloc, words, side, kind)? {
            Ok(node) => Some(node),
            Err(unfit) => {
                return Ok(Some(Miss::Unfit(unfit, true)));
            }
        },
    };
    match rule.add(alloc, words.prefix, &pattern, template.as_ref()) {
        Ok(()) => Ok(None),
        Err(RuleRefusal::Misplaced(number)) => Ok(Some(Miss::Misplaced(number))),
        Err(refusal) => Err(placed(refusal, names, sides.start)),
    }
}

// The refusal of sides that are of no kind: by the one of which most was read, of those before the
// first.
fn refusal_of(sides: &Sides, names: &Names, miss: Option<Miss>) -> RuleError
    ensures { is_other result.fault ≡ true }
{
    match miss {
        None => fault(RuleFault::Everything, sides.start),
        Some(Miss::Misplaced(number)) => {
            placed(RuleRefusal::Misplaced(number), names, sides.start)
        }
        Some(Miss::Unfit(unfit, in_template)) => {
            let side = match &sides.template {
                Some(side) if in_template => side,
                _ => &sides.pattern,
            };
            let offset = side.offset_of(unfit.at);
            fault(RuleFault::Syntax(unfit.message), offset)
        }
    }
}

/// The rule of some sides, for each kind of syntax that they are.
pub(crate) fn rule_of<F: FrontEnd>(
    alloc: Global,
    words: &Words<'_, F>,
    names: &mut Names,
    mut sides: Sides,
) -> Result<Rule, RuleError>
    ensures forms { IfOk result (λ r. 0 < length r.forms.items) }
    ensures refused { IfErr result (λ e. is_other e.fault ≡ true) }
{
    let pieces = match &mut sides.template {
        Some(side) => side.take_pieces(alloc, names)?,
        None => Vec::new(alloc),
    };
    let mut rule = Rule::new(alloc, names.take_holes(alloc), pieces);
    let mut furthest: Option<Miss> = None;
    for kind in &KINDS {
        if let Some(miss) = add_form(alloc, words, &mut rule, names, &sides, *kind)? {
            let is_first = match &furthest {
                None => true,
                Some(other) => miss.is_beyond(other),
            };
            if is_first {
                furthest = Some(miss);
            }
        }
    }
    if rule.forms() == 0 {
        return Err(refusal_of(&sides, names, furthest));
    }
    Ok(rule)
}
