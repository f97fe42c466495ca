//! The places of a tree where rules match.
ghost use Rattle.std.specs.Prelude.{◌≡◌, ◌∷◌, [], ◌++◌, IfOk, OnOk, map, option_map};
ghost use Rattle.std.specs.Option.{option_and_then};
ghost use Rattle.tree_model.specs.Cursor.{range_of};
ghost use Rattle.tree_match.specs.Runs.{run_range};
ghost use Rattle.tree_match.specs.Matching.{form_at};
ghost use Rattle.tree_match.specs.Roots.{AreRoots};
ghost use Rattle.tree_match.specs.Finds.{occurrence_of, ranges_of, node_range, nodes_of, match_at, has_template, kept_at, drop_behind, is_free, with_some, behind, take_out, found_at, free_behind, with_found, found_in};

use crate::field::is_in_short;
use crate::jump::{have_operations, next_stop};
use crate::matching::{Found, first_among};
use crate::reads::form_at;
use crate::roots::{Root, roots_of, rules_for};
use crate::rule::Rule;
use crate::run::Run;
use lossless_tree::laws::node_is_placed;
use lossless_tree::{SyntaxNode, TextRange, TextSize};
use std::alloc::{AllocError, Global};
use std::collections::VecDeque;

/// A place where a rule matches.
#[derive(Drop)]
pub struct Match {
    /// The number of the rule.
    pub rule: usize,
    /// Which form of the rule, as that of expressions or that of types.
    pub form: usize,
    /// The range of the node.
    pub range: TextRange,
    /// The range of what stands for each placeholder, with the pairs of parentheses round it;
    /// `None` if it is not in the pattern.
    pub values: Vec<Option<TextRange>>,
    // The ranges of those values that are nodes.
    pub(crate) nodes: Vec<Option<TextRange>>,
}

// The range of a value, if there is one.
fn range_of(value: &Option<Run<'_>>) -> Option<TextRange>
    ensures { result ≡ option_map run_range value.now }
{
    match value {
        Some(run) => Some(run.range()),
        None => None,
    }
}

fn ranges_of(
    alloc: Global,
    values: &[Option<Run<'_>>],
) -> Result<Vec<Option<TextRange>>, AllocError>
    ensures { IfOk result (λ r. r.items ≡ ranges_of values.now) }
{
    let mut ranges = Vec::with_capacity(alloc, values.len())?;
    for value in values {
        ranges.push(range_of(value))?;
    }
    Ok(ranges)
}

// The range of a value, if there is one and it is no token.
fn node_range(value: &Option<Run<'_>>) -> Option<TextRange>
    ensures { result ≡ option_and_then node_range value.now }
{
    let Some(run) = value else {
        return None;
    };
    if run.is_token() {
        None
    } else {
        Some(run.range())
    }
}

// The ranges of those values that are nodes: there is nothing to find in a token.
fn nodes_of(alloc: Global, values: &[Option<Run<'_>>]) -> Result<Vec<Option<TextRange>>, AllocError>
    ensures { IfOk result (λ r. r.items ≡ nodes_of values.now) }
{
    let mut ranges = Vec::with_capacity(alloc, values.len())?;
    for value in values {
        ranges.push(node_range(value))?;
    }
    Ok(ranges)
}

// The match at a node of a rule that matches there.
fn match_of(alloc: Global, found: &Found<'_>, node: &SyntaxNode) -> Result<Match, AllocError>
    ensures { IfOk result (λ m. occurrence_of m
        ≡ record {
          rule = found.now.rule;
          form = found.now.form;
          range = range_of node.now;
          values = ranges_of found.now.values.items;
          nodes = nodes_of found.now.values.items;
        }) }
{
    Ok(Match {
        rule: found.rule,
        form: found.form,
        range: node.text_range(),
        values: ranges_of(alloc, &found.values)?,
        nodes: nodes_of(alloc, &found.values)?,
    })
}

// The match of the first rule that matches a node. Only the rules for its kind are tried.
#[tactic(auto, using(crate::proofs::RootLemmas::some_match))]
fn match_at(
    alloc: Global,
    rules: &[Rule],
    roots: &[Root],
    node: &SyntaxNode,
) -> Result<Option<Match>, AllocError>
    requires roots { AreRoots rules.now roots.now }
    ensures { IfOk result (λ o. option_map occurrence_of o ≡ match_at rules.now node.now) }
{
    let numbers = rules_for(roots, node.kind());
    if numbers.is_empty() {
        return Ok(None);
    }
    let inside = Run::of(node.trees());
    match first_among(alloc, rules, numbers, node.kind(), &inside)? {
        None => Ok(None),
        Some(found) => Ok(Some(match_of(alloc, &found, node)?)),
    }
}

// Whether a match is one of a rule with a template.
fn has_template(rules: &[Rule], found: &Match) -> bool
    ensures { result ≡ has_template (form_at rules.now found.now.rule found.now.form) }
{
    match form_at(rules, found.rule, found.form) {
        None => false,
        Some(form) => !form.template.is_empty(),
    }
}

// The same, unless it would be replaced and is a field without a `:`, as `a` in `S { a }`.
fn kept_at(
    alloc: Global,
    rules: &[Rule],
    roots: &[Root],
    node: &SyntaxNode,
) -> Result<Option<Match>, AllocError>
    requires roots { AreRoots rules.now roots.now }
    ensures { IfOk result (λ o. option_map occurrence_of o ≡ kept_at rules.now node.now) }
{
    let Some(found) = match_at(alloc, rules, roots, node)? else {
        return Ok(None);
    };
    if has_template(rules, &found) && is_in_short(node) {
        return Ok(None);
    }
    Ok(Some(found))
}

// Drops the ranges that end where a node starts, or before.
fn drop_behind(free: &mut VecDeque<TextRange>, start: TextSize)
    ensures { free.new.items ≡ drop_behind start free.old.items }
{
    while let Some(range) = free.front() {
        if range.end().raw() > start.raw() {
            return;
        }
        free.pop_front();
    }
}

// Whether a range is in the next one that may be searched.
fn is_free(free: &VecDeque<TextRange>, range: TextRange) -> bool
    ensures { result ≡ is_free free.now.items range }
{
    match free.front() {
        None => false,
        Some(next) => {
            next.start().raw() <= range.start().raw() && range.end().raw() <= next.end().raw()
        }
    }
}

// Adds a range, if there is one.
fn push_some(free: &mut VecDeque<TextRange>, value: Option<TextRange>) -> Result<(), AllocError>
    ensures { OnOk result (free.new.items ≡ with_some (value ∷ []) free.old.items) }
{
    if let Some(range) = value {
        free.push_front(range)?;
    }
    Ok(())
}

// Adds the ranges of values, the last one first.
fn push_values(
    free: &mut VecDeque<TextRange>,
    values: &[Option<TextRange>],
) -> Result<(), AllocError>
    ensures { OnOk result (free.new.items ≡ with_some values.now free.old.items) }
{
    let mut left = values.len();
    while left > 0 {
        left -= 1;
        push_some(free, values[left])?;
    }
    Ok(())
}

// What is left of a range behind a match in it.
fn behind(found: TextRange, next: TextRange) -> TextRange
    ensures { result ≡ behind found next }
{
    if found.end().raw() <= next.end().raw() {
        TextRange::new(found.end(), next.end())
    } else {
        next
    }
}

// A match takes its range out of the next one that may be searched, but for what stands for
// placeholders.
fn take_out(free: &mut VecDeque<TextRange>, found: &Option<Match>) -> Result<(), AllocError>
    ensures { OnOk result
        (free.new.items ≡ take_out (option_map occurrence_of found.now) free.old.items) }
{
    let Some(found) = found else {
        return Ok(());
    };
    let Some(next) = free.pop_front() else {
        return Ok(());
    };
    free.push_front(behind(found.range, next))?;
    push_values(free, &found.nodes)
}

// The match at a node, if it may be searched. Afterwards what may be searched behind it.
fn found_at(
    alloc: Global,
    rules: &[Rule],
    roots: &[Root],
    free: &mut VecDeque<TextRange>,
    node: &SyntaxNode,
) -> Result<Option<Match>, AllocError>
    requires roots { AreRoots rules.now roots.now }
    ensures found { IfOk result
        (λ o. option_map occurrence_of o ≡ found_at rules.now free.old.items node.now) }
    ensures behind { OnOk result (free.new.items ≡ free_behind rules.now free.old.items node.now) }
{
    let range = node.text_range();
    drop_behind(free, range.start());
    if !is_free(free, range) {
        return Ok(None);
    }
    let found = kept_at(alloc, rules, roots, node)?;
    take_out(free, &found)?;
    Ok(found)
}

// Adds the match at a node, if it may be searched and a rule matches there.
fn push_found(
    alloc: Global,
    rules: &[Rule],
    roots: &[Root],
    free: &mut VecDeque<TextRange>,
    matches: &mut Vec<Match>,
    node: &SyntaxNode,
) -> Result<(), AllocError>
    requires roots { AreRoots rules.now roots.now }
    ensures found { OnOk result (map occurrence_of matches.new.items
        ≡ map occurrence_of matches.old.items
        ++ with_found (found_at rules.now free.old.items node.now) []) }
    ensures behind { OnOk result (free.new.items ≡ free_behind rules.now free.old.items node.now) }
{
    if let Some(found) = found_at(alloc, rules, roots, free, node)? {
        matches.push(found)?;
    }
    Ok(())
}

/// The places where rules match, in preorder: the outermost, and those inside what stands for
/// placeholders. At one place the first rule that matches counts; if that has a template, and the
/// place is a field without a `:`, as `a` in `S { a }`, there is no match.
///
/// If all rules match operators, calls and paths alone, as `$a + $b` and `f($a)` do, nodes of most
/// other kinds are not looked at.
pub fn find(alloc: Global, rules: &[Rule], root: &SyntaxNode) -> Result<Vec<Match>, AllocError>
    ensures { IfOk result (λ found. map occurrence_of found.items ≡ found_in rules.now root.now) }
{
    node_is_placed(root);
    let roots = roots_of(alloc, rules)?;
    let mut free = VecDeque::new(alloc);
    free.push_front(root.text_range())?;
    let mut matches = Vec::new(alloc);
    let operations = have_operations(rules);
    let mut left = root.descendants();
    while let Some(node) = next_stop(&mut left, operations) {
        push_found(alloc, rules, &roots, &mut free, &mut matches, &node)?;
    }
    Ok(matches)
}
