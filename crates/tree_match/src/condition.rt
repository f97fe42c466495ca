//! Conditions on what stands for a placeholder.
ghost use Rattle.std.specs.Prelude.{◌≡◌, IfOk, option_map, slice_get};
ghost use Rattle.regex.specs.Strings.{regex_pattern};
ghost use Rattle.tree_match.specs.Conditions.{has_text, passes, holds, all_hold, admits};

use crate::bare::{Comments, bare};
use crate::run::Run;
use lossless_tree::SyntaxKind;
use regex::Regex;
use std::alloc::{AllocError, Global};

// Nodes nest, so that their texts together may have the square of the file's bytes.
const LONGEST: usize = 1000;

/// What a condition asks of a node or token, without the pairs of parentheses round it.
#[derive(Drop)]
pub enum Test {
    /// It is of this kind.
    Kind(SyntaxKind),
    /// The regular expression is found in its text. A text of more than 1000 bytes is not searched.
    Text(Regex),
}

/// A condition on what stands for a placeholder.
#[derive(Drop)]
pub struct Condition {
    /// What is asked.
    pub test: Test,
    /// Whether the answer has to be no.
    pub is_not: bool,
}

/// A placeholder of a rule.
#[derive(Drop)]
pub struct Hole {
    /// What has to hold wherever it stands in the pattern.
    pub conditions: Vec<Condition>,
    /// Whether it stands for the elements of a list.
    pub is_list: bool,
}

// Whether a regular expression is found in a text that is not too long for it.
fn has_text(alloc: Global, regex: &Regex, text: &str) -> Result<bool, AllocError>
    ensures { IfOk result (λ yes. yes ≡ has_text (regex_pattern regex.now) text.now) }
{
    if text.len() > LONGEST {
        return Ok(false);
    }
    let mut matcher = regex.matcher(alloc)?;
    Ok(matcher.is_match(text))
}

// Whether the first of some siblings passes a test.
fn passes(alloc: Global, test: &Test, inner: &Run<'_>) -> Result<bool, AllocError>
    ensures { IfOk result (λ yes. yes ≡ passes test.now inner.now) }
{
    match test {
        Test::Kind(kind) => Ok(inner.kind().to_raw() == kind.to_raw()),
        Test::Text(regex) => has_text(alloc, regex, inner.text()),
    }
}

fn holds(alloc: Global, condition: &Condition, inner: &Run<'_>) -> Result<bool, AllocError>
    ensures { IfOk result (λ yes. yes ≡ holds condition.now inner.now) }
{
    let yes = passes(alloc, &condition.test, inner)?;
    Ok(if condition.is_not { !yes } else { yes })
}

fn all_hold(alloc: Global, conditions: &[Condition], inner: &Run<'_>) -> Result<bool, AllocError>
    ensures { IfOk result (λ yes. yes ≡ all_hold conditions.now inner.now) }
{
    for condition in conditions {
        if !holds(alloc, condition, inner)? {
            return Ok(false);
        }
    }
    Ok(true)
}

// The placeholder with a number.
fn numbered(holes: &[Hole], number: usize) -> Option<&Hole>
    ensures { option_map (λ h. h.now) result ≡ slice_get holes.now number }
{
    holes.get(number)
}

/// Whether the conditions of the placeholder with a number hold for the first of some siblings.
#[tactic(auto, using(crate::proofs::ConditionLemmas::no_hole, crate::proofs::ConditionLemmas::some_hole))]
pub(crate) fn admits(
    alloc: Global,
    holes: &[Hole],
    number: usize,
    value: &Run<'_>,
) -> Result<bool, AllocError>
    ensures { IfOk result (λ yes. yes ≡ admits (slice_get holes.now number) value.now) }
{
    let Some(hole) = numbered(holes, number) else {
        return Ok(true);
    };
    let yes = all_hold(alloc, &hole.conditions, &bare(Comments::Passed, value))?;
    Ok(yes)
}
