//! Whether a tree is another one with the matches of rules replaced.
ghost use Rattle.std.specs.Prelude.{◌≡◌, IfOk, IsTrue, option_map};
ghost use Rattle.tree_match.specs.declared.bare.Comments.TheVariants.{Passed};
ghost use Rattle.tree_match.specs.Bare.{bare};
ghost use Rattle.tree_match.specs.Finds.{inside_of};
ghost use Rattle.tree_match.specs.Matching.{form_at, found_of};
ghost use Rattle.tree_match.specs.Reads.{FirstReads, AllRead, ValueReads, ValuesRead, IsSameToken, IsSameNode, IsNode, IsReplaced, rule_at, Leads, LeadsBy};

use crate::bare::{Comments, bare, past};
use crate::field::is_short_first;
use crate::matching::{Found, first_rule, match_template, numbered};
use crate::rule::{Form, Rule};
use crate::run::Run;
use crate::same::is_same;
use lossless_tree::SyntaxNode;
use std::alloc::{AllocError, Global};
use std::collections::VecDeque;

// Two lists of siblings that are compared.
#[derive(Drop)]
struct Task<'a, 'b> {
    old: Run<'a>,
    new: Run<'b>,
}

// Adds a task for what stands for a placeholder, if a template has it. Returns false if the pattern
// has it not.
#[tactic(auto, using(crate::proofs::ReadLemmas::value_unused, crate::proofs::ReadLemmas::value_used, crate::proofs::ReadLemmas::not_led))]
fn push_value<'a, 'b>(
    tasks: &mut VecDeque<Task<'a, 'b>>,
    old: &Option<Run<'a>>,
    new: &Option<Run<'b>>,
) -> Result<bool, AllocError>
    ensures { IfOk result (λ ok.
        Leads (λ rules. ValueReads rules old.now new.now) ok tasks.new.items tasks.old.items) }
{
    match (old, new) {
        (_, None) => Ok(true),
        (None, Some(_)) => Ok(false),
        (Some(old), Some(new)) => {
            tasks.push_front(Task {
                old: old.all(),
                new: new.all(),
            })?;
            Ok(true)
        }
    }
}

// Adds a task for what stands for each placeholder of a template.
#[tactic(auto, using(crate::proofs::ReadLemmas::none_come, crate::proofs::ReadLemmas::one_came, crate::proofs::ReadLemmas::all_came, crate::proofs::ReadLemmas::not_led))]
fn push_values<'a, 'b>(
    tasks: &mut VecDeque<Task<'a, 'b>>,
    olds: &[Option<Run<'a>>],
    news: &[Option<Run<'b>>],
) -> Result<bool, AllocError>
    ensures { IfOk result (λ ok.
        Leads (λ rules. ValuesRead rules olds.now news.now) ok tasks.new.items
        tasks.old.items) }
{
    let mut left = olds.iter();
    for new in news {
        let Some(old) = left.next() else {
            return Ok(false);
        };
        if !push_value(tasks, old, new)? {
            return Ok(false);
        }
    }
    match left.next() {
        None => Ok(true),
        Some(_) => Ok(false),
    }
}

/// A form of the rule with a number.
#[tactic(auto, using(crate::proofs::ReadLemmas::no_rule, crate::proofs::ReadLemmas::some_rule))]
pub(crate) fn form_at(rules: &[Rule], number: usize, form: usize) -> Option<&Form>
    ensures { option_map (λ f. f.now) result ≡ form_at rules.now number form }
{
    match numbered(rules, number) {
        None => None,
        Some(rule) => rule.form(form),
    }
}

// A match: whether the new tree is its rule's template. Adds tasks for the placeholders.
#[tactic(auto, using(crate::proofs::ReadLemmas::replaced_leads, crate::proofs::ReadLemmas::not_led_by))]
fn is_replaced<'a, 'b>(
    alloc: Global,
    tasks: &mut VecDeque<Task<'a, 'b>>,
    rules: &[Rule],
    found: &Found<'a>,
    new: &Run<'b>,
) -> Result<bool, AllocError>
    ensures { IfOk result (λ ok.
        LeadsBy rules.now (IsReplaced rules.now (found_of found.now) new.now) ok tasks.new.items
        tasks.old.items) }
{
    let Some(form) = form_at(rules, found.rule, found.form) else {
        return Ok(false);
    };
    let Some(values) = match_template(alloc, form, &found.values, new)? else {
        return Ok(false);
    };
    push_values(tasks, &found.values, &values)
}

// Compares the first of two lists of siblings, a token.
fn is_same_token(old: &Run<'_>, new: &Run<'_>) -> bool
    ensures { IsTrue result → IsSameToken old.now new.now }
{
    old.is_token()
        && new.is_token()
        && old.kind().to_raw() == new.kind().to_raw()
        && old.text() == new.text()
}

// Compares the first of two lists of siblings, nodes without pairs. Adds a task for what is below.
fn push_inside<'a, 'b>(
    tasks: &mut VecDeque<Task<'a, 'b>>,
    old: &Run<'a>,
    new: &Run<'b>,
) -> Result<bool, AllocError>
    ensures { IfOk result (λ ok.
        Leads (λ rules. IsSameNode rules old.now new.now) ok tasks.new.items tasks.old.items) }
{
    if new.is_token() || old.kind().to_raw() != new.kind().to_raw() {
        return Ok(false);
    }
    tasks.push_front(Task {
        old: old.inside(),
        new: new.inside(),
    })?;
    Ok(true)
}

// The same of nodes with pairs.
fn push_bare<'a, 'b>(
    tasks: &mut VecDeque<Task<'a, 'b>>,
    old: &Run<'a>,
    new: &Run<'b>,
) -> Result<bool, AllocError>
    ensures { IfOk result (λ ok.
        Leads (λ rules. IsSameNode rules (bare Passed old.now) (bare Passed new.now)) ok
        tasks.new.items tasks.old.items) }
{
    push_inside(
        tasks,
        &bare(Comments::Passed, old),
        &bare(Comments::Passed, new),
    )
}

// Compares the first of two lists of siblings, nodes, where no rule matches. Adds a task for what
// is below, unless it is a field without a `:`, in which nothing is replaced.
#[tactic(auto, using(crate::proofs::ReadLemmas::field_leads))]
fn push_node<'a, 'b>(
    alloc: Global,
    tasks: &mut VecDeque<Task<'a, 'b>>,
    old: &Run<'a>,
    new: &Run<'b>,
) -> Result<bool, AllocError>
    ensures { IfOk result (λ ok.
        Leads (λ rules. IsNode rules old.now new.now) ok tasks.new.items tasks.old.items) }
{
    if is_short_first(old) {
        return is_same(alloc, old, new);
    }
    push_bare(tasks, old, new)
}

// The first rule that matches the first of some siblings.
fn rule_at<'a>(
    alloc: Global,
    rules: &[Rule],
    old: &Run<'a>,
) -> Result<Option<Found<'a>>, AllocError>
    ensures { IfOk result (λ o. option_map found_of o ≡ rule_at rules.now old.now) }
{
    let inner = bare(Comments::Passed, old);
    first_rule(alloc, rules, inner.kind(), &inner.inside())
}

// Compares the first of two lists of siblings. Adds tasks for what is below.
#[tactic(auto, using(crate::proofs::ReadLemmas::token_leads, crate::proofs::ReadLemmas::match_leads, crate::proofs::ReadLemmas::node_leads))]
fn step_into<'a, 'b>(
    alloc: Global,
    tasks: &mut VecDeque<Task<'a, 'b>>,
    rules: &[Rule],
    old: &Run<'a>,
    new: &Run<'b>,
) -> Result<bool, AllocError>
    ensures { IfOk result (λ ok.
        LeadsBy rules.now (FirstReads rules.now old.now new.now) ok tasks.new.items
        tasks.old.items) }
{
    if old.is_token() {
        return Ok(is_same_token(old, new));
    }
    match rule_at(alloc, rules, old)? {
        Some(found) => is_replaced(alloc, tasks, rules, &found, new),
        None => push_node(alloc, tasks, old, new),
    }
}

// Compares two lists of siblings. Adds tasks for what is left.
#[tactic(auto, using(crate::proofs::ReadLemmas::none_lead, crate::proofs::ReadLemmas::some_lead, crate::proofs::ReadLemmas::not_led_by))]
fn step_along<'a, 'b>(
    alloc: Global,
    tasks: &mut VecDeque<Task<'a, 'b>>,
    rules: &[Rule],
    old: &Run<'a>,
    new: &Run<'b>,
) -> Result<bool, AllocError>
    ensures { IfOk result (λ ok.
        LeadsBy rules.now (AllRead rules.now old.now new.now) ok tasks.new.items
        tasks.old.items) }
{
    let old = past(Comments::Passed, old);
    let new = past(Comments::Passed, new);
    if old.is_done() {
        return Ok(new.is_done());
    }
    if new.is_done() {
        return Ok(false);
    }
    tasks.push_front(Task {
        old: old.rest(),
        new: new.rest(),
    })?;
    step_into(alloc, tasks, rules, &old, &new)
}

/// Whether a tree is another one in which each match is replaced by its rule's template, with what
/// stands for placeholders put in, in which matches are replaced too. White space, comments and
/// pairs of parentheses do not count. It may return false also if memory for more than 2^64 steps
/// would be needed.
///
/// Takes time linear in the old tree for each rule, and in the new one.
///
/// # Errors
///
/// `AllocError` if memory runs out.
#[tactic(auto, using(crate::proofs::ReadLemmas::begun, crate::proofs::ReadLemmas::turned, crate::proofs::ReadLemmas::finished))]
pub fn reads_as(
    alloc: Global,
    rules: &[Rule],
    old: &SyntaxNode,
    new: &SyntaxNode,
) -> Result<bool, AllocError>
    ensures { IfOk result
        (λ reads. IsTrue reads → AllRead rules.now (inside_of old.now) (inside_of new.now)) }
{
    let mut tasks = VecDeque::new(alloc);
    tasks.push_front(Task {
        old: Run::of(old.trees()),
        new: Run::of(new.trees()),
    })?;
    // Each turn takes a task, and there are at most three for each node and token of the tree.
    for _turn in 0..u64::MAX {
        let Some(task) = tasks.pop_front() else {
            return Ok(true);
        };
        if !step_along(alloc, &mut tasks, rules, &task.old, &task.new)? {
            return Ok(false);
        }
    }
    Ok(false)
}
