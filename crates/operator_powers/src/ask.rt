//! Whether an expression needs parentheses.
ghost use Rattle.std.specs.Prelude.{◌≡◌, ℕ, Some, true, false, ◌++◌, ◌∷◌, [], ◌&&◌, ◌||◌};
ghost use Rattle.tree_model.specs.Tree.{forest_of_children, kind_of};
ghost use Rattle.tree_model.specs.Cursor.{focus, parent_of};
ghost use Rattle.operator_terms.specs.Term.{Term, tokens};
ghost use Rattle.operator_terms.specs.Places.{Part, part, ends_in_cast};
ghost use Rattle.operator_terms.specs.Powers.{needs_pair_at};
ghost use Rattle.operator_trees.specs.Forms.{form_of};
ghost use Rattle.operator_trees.specs.Shown.{meaning, IsTerm, IsArguments};
ghost use Rattle.operator_trees.specs.Leaves.{leaves_of};
ghost use Rattle.operator_trees.specs.Before.{part_kid, is_direct};
ghost use Rattle.operator_powers.specs.Rules.{asks_at, form_at, is_foreign, is_term_form, kid_place, is_arguments, operators_ask, is_own_parent, asks_under, asks_below};

use crate::ending::ends_in_cast;
use crate::node::{form_powers, is_call_form, is_field_form, operator_start};
use crate::powers::{by_power, stands_before};
use lossless_tree::SyntaxNode;
use operator_trees::{Form, form_of};

// The rules on called fields, powers and starts.
fn asks_at(own: &SyntaxNode, parent: &SyntaxNode, place: &SyntaxNode) -> bool
    ensures { result ≡ asks_at own.now parent.now place.now }
{
    let own_form = form_of(own.kind());
    let parent_form = form_of(parent.kind());
    if is_field_form(own_form) && is_call_form(parent_form) {
        return true;
    }
    let own_trees = own.trees();
    let parent_trees = parent.trees();
    let start = operator_start(own_form, &own_trees);
    let before = stands_before(
        start.saturating_sub(own_trees.start().raw() as usize),
        own.as_str().len(),
        place.trees().start().raw() as usize,
        place.text_range().end().raw() as usize,
        operator_start(parent_form, &parent_trees),
    );
    by_power(
        form_powers(own_form, &own_trees),
        form_powers(parent_form, &parent_trees),
        before,
    )
}

/// Whether the form is that of no operator tree.
pub fn is_foreign(form: Form) -> bool
    ensures { result ≡ is_foreign form }
{
    matches!(form, Form::Foreign)
}

/// Whether a term can have the form: it is that of an expression of an operator tree.
pub fn is_term_form(form: Form) -> bool
    ensures { result ≡ is_term_form form }
{
    !matches!(
        form,
        Form::NameRef
            | Form::Segment
            | Form::Path
            | Form::PathType
            | Form::Arguments
            | Form::Foreign
    )
}

// The parent is the place's own.
fn is_own_parent(parent: &SyntaxNode, place: &SyntaxNode) -> bool
    ensures { result ≡ is_own_parent parent.now (parent_of place.now) }
{
    match place.parent() {
        Some(above) => above == *parent,
        None => false,
    }
}

/// Whether it is a list of arguments.
pub fn is_arguments(form: Form) -> bool
    ensures { result ≡ is_arguments form }
{
    matches!(form, Form::Arguments)
}

// It ends in a cast's name, and `<` or `<<` follows. Its last tokens are read only where one of
// these follows.
fn is_cut_off(own: &SyntaxNode, angle: bool) -> bool
    ensures { result ≡ (ends_in_cast (leaves_of (focus own.now)) && angle) }
{
    if !angle {
        return false;
    }
    ends_in_cast(own)
}

fn operators_ask(own: &SyntaxNode, parent: &SyntaxNode, place: &SyntaxNode, angle: bool) -> bool
    ensures { result ≡ operators_ask own.now parent.now place.now angle }
{
    is_cut_off(own, angle) || asks_at(own, parent, place)
}

// The test at the place's own parent. An expression that has no form of an operator tree needs no
// pair here: the rules for other expressions are not part of this test.
fn needs_parens_below(
    own: &SyntaxNode,
    parent: &SyntaxNode,
    place: &SyntaxNode,
    angle: bool,
) -> bool
    ensures { result ≡ asks_under own.now parent.now place.now angle }
{
    if is_arguments(form_of(parent.kind())) {
        return false;
    }
    if is_foreign(form_of(own.kind())) {
        return false;
    }
    operators_ask(own, parent, place, angle)
}

/// Whether an expression of an operator tree needs parentheses in place of the node or token at
/// `place`, whose parent is `parent`. `angle` says whether `<` or `<<` follows the parent's child
/// there.
///
/// Returns false if `parent` is not the parent of `place`, if it is a list of arguments, or if
/// `own` has no form of an operator tree.
pub fn needs_parens_before(
    own: &SyntaxNode,
    parent: &SyntaxNode,
    place: &SyntaxNode,
    angle: bool,
) -> bool
    ensures everywhere { result ≡ asks_below own.now parent.now place.now angle }
    ensures direct { (s t : Term) (i : ℕ) (p : Part) → meaning (focus own.now) ≡ IsTerm s
        → meaning (focus parent.now) ≡ IsTerm t
        → part t i ≡ Some p → is_direct t i ≡ true → place.now ≡ kid_place parent.now (part_kid t i)
        → result ≡ needs_pair_at t i angle s }
    ensures arguments { is_arguments (form_at parent.now) ≡ true → result ≡ false }
    ensures operators { parent_of place.now ≡ Some parent.now → is_foreign (form_at own.now) ≡ false
        → is_arguments (form_at parent.now) ≡ false
        → result ≡ operators_ask own.now parent.now place.now angle }
{
    is_own_parent(parent, place) && needs_parens_below(own, parent, place, angle)
}
