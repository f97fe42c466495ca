//! A pattern at one place of a tree.
ghost use Rattle.std.specs.Prelude.{◌≡◌, IfOk, OnOk, if◌then◌else◌, Some, None, option_map, replicate, length, slice_get};
ghost use Rattle.tree_match.specs.Walks.{levels_of, step_of};
ghost use Rattle.tree_match.specs.Signs.{sign_of};
ghost use Rattle.tree_match.specs.Matching.{put, put_held, put_new, match_part, match_parts, match_form, is_for, match_rule, match_template, match_numbered, first_rule, first_among, found_of};

use crate::bare::Comments;
use crate::condition::{Hole, admits};
use crate::lead::is_led;
use crate::part::Part;
use crate::rule::{Form, Rule};
use crate::run::Run;
use crate::same::is_same;
use crate::sign::{is_fit, sign_of};
use crate::walk::{Seen, Walk, is_part};
use lossless_tree::SyntaxKind;
use std::alloc::{AllocError, Global};

/// What stands for each placeholder: a run of siblings, of one or of the elements of a list; `None`
/// if it has none.
pub(crate) type Values<'t> = Vec<Option<Run<'t>>>;

/// A rule that matches, which of its forms, and what stands for its placeholders.
#[derive(Drop)]
pub(crate) struct Found<'t> {
    pub(crate) rule: usize,
    pub(crate) form: usize,
    pub(crate) values: Values<'t>,
}

// No values, in the memory that they have.
fn clear_values(values: &mut Values<'_>, count: usize) -> Result<(), AllocError>
    ensures { OnOk result (values.new.items ≡ replicate count None) }
{
    values.clear();
    while values.len() < count {
        values.push(None)?;
    }
    Ok(())
}

// Notes what stands for a placeholder. Returns false if it stands for another tree already.
fn put<'t>(
    alloc: Global,
    values: &mut Values<'t>,
    number: usize,
    value: Run<'t>,
) -> Result<bool, AllocError>
    ensures { IfOk result (λ ok. put number value.entry values.old.items
        ≡ (if ok then Some values.new.items else None)) }
{
    if number >= values.len() {
        return Ok(false);
    }
    if let Some(old) = &values[number] {
        return is_same(alloc, old, &value);
    }
    values[number] = Some(value);
    Ok(true)
}

// The same, if the conditions of the placeholder hold.
fn put_held<'t>(
    alloc: Global,
    holes: &[Hole],
    values: &mut Values<'t>,
    number: usize,
    value: Run<'t>,
) -> Result<bool, AllocError>
    ensures { IfOk result (λ ok. put_held holes.now number value.entry values.old.items
        ≡ (if ok then Some values.new.items else None)) }
{
    if !admits(alloc, holes, number, &value)? {
        return Ok(false);
    }
    put(alloc, values, number, value)
}

// Notes what stands for a placeholder. Returns false if something does already.
fn put_new<'t>(values: &mut Values<'t>, number: usize, value: Run<'t>) -> bool
    ensures { put_new number value.entry values.old.items
        ≡ (if result then Some values.new.items else None) }
{
    if number >= values.len() || values[number].is_some() {
        return false;
    }
    values[number] = Some(value);
    true
}

// Passes over a part, if it is next in the walk.
fn match_part<'t>(
    alloc: Global,
    walk: &mut Walk<'t>,
    holes: &[Hole],
    values: &mut Values<'t>,
    part: &Part,
) -> Result<bool, AllocError>
    ensures step { IfOk result (λ ok.
        match_part walk.old.comments holes.now part.now (levels_of walk.old)
        values.old.items
        ≡ (if ok then Some (levels_of walk.new, values.new.items) else None)) }
    ensures same { walk.new.comments ≡ walk.old.comments }
{
    if let Part::Hole(number, sort) = part {
        let Some(value) = walk.take(*sort) else {
            return Ok(false);
        };
        return put_held(alloc, holes, values, *number, value);
    }
    if let Part::List(number, comma, behind) = part {
        let Some(list) = walk.take_list(*comma, *behind)? else {
            return Ok(false);
        };
        return Ok(put_new(values, *number, list));
    }
    let step = walk.next()?;
    Ok(is_part(part, step))
}

// Notes what stands for each placeholder, if the parts are the first steps of the walk of some
// siblings; returns whether they are. The walk and the values lend their memory.
fn match_parts<'t>(
    alloc: Global,
    walk: &mut Walk<'t>,
    values: &mut Values<'t>,
    comments: Comments,
    holes: &[Hole],
    parts: &[Part],
    count: usize,
    start: &Run<'t>,
) -> Result<bool, AllocError>
    ensures { IfOk result (λ ok. match_parts comments holes.now parts.now count start.now
        ≡ (if ok then Some values.new.items else None)) }
{
    walk.restart(comments, start);
    clear_values(values, count)?;
    for part in parts {
        if !match_part(alloc, walk, holes, values, part)? {
            return Ok(false);
        }
    }
    Ok(true)
}

// The same, where most nodes begin otherwise than a pattern.
#[tactic(auto, using(crate::proofs::LeadLemmas::not_led))]
fn match_led<'t>(
    alloc: Global,
    walk: &mut Walk<'t>,
    values: &mut Values<'t>,
    comments: Comments,
    holes: &[Hole],
    parts: &[Part],
    count: usize,
    start: &Run<'t>,
) -> Result<bool, AllocError>
    ensures { IfOk result (λ ok. match_parts comments holes.now parts.now count start.now
        ≡ (if ok then Some values.new.items else None)) }
{
    if !is_led(parts, start) {
        return Ok(false);
    }
    match_parts(alloc, walk, values, comments, holes, parts, count, start)
}

// Notes what stands for the placeholders of a rule, if a node is the pattern of this form.
#[tactic(auto, using(crate::proofs::SignLemmas::refused))]
fn match_form<'t>(
    alloc: Global,
    walk: &mut Walk<'t>,
    values: &mut Values<'t>,
    holes: &[Hole],
    form: &Form,
    kind: SyntaxKind,
    sign: Seen<'t>,
    inside: &Run<'t>,
) -> Result<bool, AllocError>
    requires sign { step_of sign ≡ sign_of inside.now.trees }
    ensures { IfOk result (λ ok. match_form holes.now form.now kind inside.now
        ≡ (if ok then Some values.new.items else None)) }
{
    if form.kind.to_raw() != kind.to_raw() || !is_fit(&form.inside, sign) {
        return Ok(false);
    }
    match_led(
        alloc,
        walk,
        values,
        form.comments(),
        holes,
        &form.inside,
        holes.len(),
        inside,
    )
}

// The first form of a rule whose pattern a node is. Notes what stands for the placeholders.
fn first_form<'t>(
    alloc: Global,
    walk: &mut Walk<'t>,
    values: &mut Values<'t>,
    rule: &Rule,
    kind: SyntaxKind,
    sign: Seen<'t>,
    inside: &Run<'t>,
) -> Result<Option<usize>, AllocError>
    requires sign { step_of sign ≡ sign_of inside.now.trees }
    ensures { IfOk result (λ o. option_map (λ f. (f, values.new.items)) o
        ≡ match_rule rule.now kind inside.now) }
{
    let mut number = 0usize;
    while number < rule.forms.len() {
        let form = &rule.forms[number];
        if match_form(alloc, walk, values, &rule.holes, form, kind, sign, inside)? {
            return Ok(Some(number));
        }
        number += 1;
    }
    Ok(None)
}

// Whether a rule has a form for nodes of a kind. Most rules have none for most nodes.
pub(crate) fn is_for(kind: SyntaxKind, rule: &Rule) -> bool
    ensures { result ≡ is_for kind rule.now }
{
    rule.forms
        .iter()
        .any(|form| form.kind.to_raw() == kind.to_raw())
}

// The same, where most rules have no form for most nodes.
#[tactic(auto, using(crate::proofs::ConditionLemmas::not_for))]
fn match_rule<'t>(
    alloc: Global,
    walk: &mut Walk<'t>,
    values: &mut Values<'t>,
    rule: &Rule,
    kind: SyntaxKind,
    sign: Seen<'t>,
    inside: &Run<'t>,
) -> Result<Option<usize>, AllocError>
    requires sign { step_of sign ≡ sign_of inside.now.trees }
    ensures { IfOk result (λ o. option_map (λ f. (f, values.new.items)) o
        ≡ match_rule rule.now kind inside.now) }
{
    if !is_for(kind, rule) {
        return Ok(None);
    }
    first_form(alloc, walk, values, rule, kind, sign, inside)
}

/// The rule with a number.
pub(crate) fn numbered(rules: &[Rule], number: usize) -> Option<&Rule>
    ensures { option_map (λ r. r.now) result ≡ slice_get rules.now number }
{
    rules.get(number)
}

// The first form of the rule with a number whose pattern a node is.
#[tactic(auto, using(crate::proofs::ConditionLemmas::no_numbered, crate::proofs::ConditionLemmas::some_numbered))]
fn match_numbered<'t>(
    alloc: Global,
    walk: &mut Walk<'t>,
    values: &mut Values<'t>,
    rules: &[Rule],
    number: usize,
    kind: SyntaxKind,
    sign: Seen<'t>,
    inside: &Run<'t>,
) -> Result<Option<usize>, AllocError>
    requires sign { step_of sign ≡ sign_of inside.now.trees }
    ensures { IfOk result (λ o. option_map (λ f. (f, values.new.items)) o
        ≡ match_numbered rules.now number kind inside.now) }
{
    match numbered(rules, number) {
        None => Ok(None),
        Some(rule) => first_form(alloc, walk, values, rule, kind, sign, inside),
    }
}

/// What stands for the placeholders of a form, if the first of some siblings is its template. There
/// are as many as stand for them in the match.
pub(crate) fn match_template<'t>(
    alloc: Global,
    form: &Form,
    olds: &[Option<Run<'_>>],
    start: &Run<'t>,
) -> Result<Option<Values<'t>>, AllocError>
    ensures { IfOk result
        (λ o. option_map (λ vs. vs.items) o ≡ match_template form.now (length olds.now) start.now) }
{
    let mut walk = Walk::new(alloc, Comments::Passed, start);
    let mut values = Vec::new(alloc);
    let is_read = match_parts(
        alloc,
        &mut walk,
        &mut values,
        Comments::Passed,
        &[],
        &form.template,
        olds.len(),
        start,
    )?;
    if is_read { Ok(Some(values)) } else { Ok(None) }
}

/// The first rule whose pattern a node is, by its kind and its children.
pub(crate) fn first_rule<'t>(
    alloc: Global,
    rules: &[Rule],
    kind: SyntaxKind,
    inside: &Run<'t>,
) -> Result<Option<Found<'t>>, AllocError>
    ensures { IfOk result (λ o. option_map found_of o ≡ first_rule rules.now kind inside.now) }
{
    let sign = sign_of(inside);
    let mut walk = Walk::new(alloc, Comments::Passed, inside);
    let mut values = Vec::new(alloc);
    let mut number = 0usize;
    while number < rules.len() {
        let rule = &rules[number];
        if let Some(form) = match_rule(alloc, &mut walk, &mut values, rule, kind, sign, inside)? {
            return Ok(Some(Found {
                rule: number,
                form,
                values,
            }));
        }
        number += 1;
    }
    Ok(None)
}

/// The first rule of some numbers whose pattern a node is.
pub(crate) fn first_among<'t>(
    alloc: Global,
    rules: &[Rule],
    numbers: &[usize],
    kind: SyntaxKind,
    inside: &Run<'t>,
) -> Result<Option<Found<'t>>, AllocError>
    ensures { IfOk result (λ o. option_map found_of o
        ≡ first_among rules.now numbers.now kind inside.now) }
{
    let sign = sign_of(inside);
    let mut walk = Walk::new(alloc, Comments::Passed, inside);
    let mut values = Vec::new(alloc);
    for number in numbers {
        let tried = match_numbered(
            alloc,
            &mut walk,
            &mut values,
            rules,
            *number,
            kind,
            sign,
            inside,
        )?;
        if let Some(form) = tried {
            return Ok(Some(Found {
                rule: *number,
                form,
                values,
            }));
        }
    }
    Ok(None)
}
