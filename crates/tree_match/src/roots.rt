//! The kinds of nodes at which rules may match, and the rules for each.
ghost use Rattle.std.specs.Prelude.{◌≡◌, [], IfOk, OnOk};
ghost use Rattle.tree_match.specs.Roots.{has_kind, with_kind, HaveForms, AreKinds, numbers_from, numbers_by, AreRoots};

use crate::matching::is_for;
use crate::rule::{Form, Rule};
use lossless_tree::SyntaxKind;
use std::alloc::{AllocError, Global};

// Whether a kind is among some.
fn has_kind(kind: SyntaxKind, kinds: &[SyntaxKind]) -> bool
    ensures { result ≡ has_kind kind kinds.now }
{
    kinds.iter().any(|other| other.to_raw() == kind.to_raw())
}

// Adds a kind, if it is not there yet.
fn add(kinds: &mut Vec<SyntaxKind>, kind: SyntaxKind) -> Result<(), AllocError>
    ensures { OnOk result (kinds.new.items ≡ with_kind kind kinds.old.items) }
{
    if !has_kind(kind, kinds) {
        kinds.push(kind)?;
    }
    Ok(())
}

// Adds the kinds of some forms.
#[tactic(auto, using(crate::proofs::RootLemmas::begun, crate::proofs::RootLemmas::added, crate::proofs::RootLemmas::ended))]
fn add_forms(kinds: &mut Vec<SyntaxKind>, forms: &[Form]) -> Result<(), AllocError>
    ensures { OnOk result (HaveForms forms.now kinds.old.items kinds.new.items) }
{
    for form in forms {
        add(kinds, form.kind)?;
    }
    Ok(())
}

// The kinds for which rules have forms, each once: most nodes are of none of them.
#[tactic(auto, using(crate::proofs::RootLemmas::no_rules, crate::proofs::RootLemmas::one_rule, crate::proofs::RootLemmas::all_rules))]
fn kinds_of(alloc: Global, rules: &[Rule]) -> Result<Vec<SyntaxKind>, AllocError>
    ensures { IfOk result (λ v. AreKinds rules.now v.items) }
{
    let mut kinds = Vec::new(alloc);
    for rule in rules {
        add_forms(&mut kinds, &rule.forms)?;
    }
    Ok(kinds)
}

/// A kind of nodes, by its number, and the numbers of the rules that have forms for it.
#[derive(Drop)]
pub(crate) struct Root {
    raw: u32,
    rules: Vec<usize>,
}

// The numbers of the rules that have forms for a kind.
fn numbers_for(alloc: Global, rules: &[Rule], kind: SyntaxKind) -> Result<Vec<usize>, AllocError>
    ensures { IfOk result (λ v. v.items ≡ numbers_from 0 kind rules.now) }
{
    let mut numbers = Vec::new(alloc);
    let mut number = 0usize;
    while number < rules.len() {
        if is_for(kind, &rules[number]) {
            numbers.push(number)?;
        }
        number += 1;
    }
    Ok(numbers)
}

/// The kinds for which rules have forms, with those rules.
#[tactic(auto, using(crate::proofs::RootLemmas::no_roots, crate::proofs::RootLemmas::one_root, crate::proofs::RootLemmas::all_roots))]
pub(crate) fn roots_of(alloc: Global, rules: &[Rule]) -> Result<Vec<Root>, AllocError>
    ensures { IfOk result (λ v. AreRoots rules.now v.items) }
{
    let kinds = kinds_of(alloc, rules)?;
    let mut roots = Vec::new(alloc);
    for kind in &kinds {
        roots.push(Root {
            raw: kind.to_raw(),
            rules: numbers_for(alloc, rules, *kind)?,
        })?;
    }
    Ok(roots)
}

/// The numbers of the rules for a kind.
pub(crate) fn rules_for<'a>(roots: &'a [Root], kind: SyntaxKind) -> &'a [usize]
    ensures { result.now ≡ numbers_by kind roots.now [] }
{
    for root in roots {
        if root.raw == kind.to_raw() {
            return &root.rules;
        }
    }
    &[]
}
