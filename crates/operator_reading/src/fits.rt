//! Whether the parts of a node that are its children fit.
ghost use Rattle.std.specs.Prelude.{◌≡◌, true};
ghost use Rattle.tree_model.specs.Tree.{forest_of_children, kind_of, IsNode};
ghost use Rattle.tree_model.specs.Cursor.{focus};
ghost use Rattle.lossless_tree.specs.Trees.{first_of};
ghost use Rattle.operator_terms.specs.Powers.{pow};
ghost use Rattle.operator_trees.specs.Forms.{form_of};
ghost use Rattle.operator_reading.specs.Reads.{part_asks, child_asks, still_before, asks_from, parts_ask, node_fits};
ghost use Rattle.operator_powers.specs.Rules.{form_powers};

use lossless_tree::{SiblingsLeft, SyntaxNode};
use operator_powers::ask::is_term_form;
use operator_powers::node::{form_powers, is_call_form, is_field_form};
use operator_powers::powers::{Strength, by_power};
use operator_trees::{Form, form_of};

// The powers of a node of a form. They do not depend on where it starts.
fn powers_of(form: Form, trees: &SiblingsLeft<'_>) -> Strength
    ensures { pow result.left result.right ≡ form_powers form trees.now.trees 0 }
{
    form_powers(form, trees)
}

// A part needs a pair, by its form and powers.
fn part_asks(
    own: Form,
    own_trees: &SiblingsLeft<'_>,
    form: Form,
    parent: Strength,
    before: bool,
) -> bool
    ensures { result
        ≡ part_asks own own_trees.now.trees form (pow parent.left parent.right) before }
{
    if is_field_form(own) && is_call_form(form) {
        return true;
    }
    by_power(powers_of(own, own_trees), parent, before)
}

// The first of the siblings needs a pair.
fn child_asks(left: &SiblingsLeft<'_>, form: Form, parent: Strength, before: bool) -> bool
    ensures { result
        ≡ child_asks form (pow parent.left parent.right) before (first_of left.now.trees) }
{
    if left.is_token() {
        return false;
    }
    let own = form_of(left.kind());
    is_term_form(own) && part_asks(own, &left.inside(), form, parent, before)
}

fn still_before(left: &SiblingsLeft<'_>, before: bool) -> bool
    ensures { result ≡ still_before (first_of left.now.trees) before }
{
    if left.is_token() {
        left.kind().is_trivia() && before
    } else {
        before
    }
}

fn asks_from(form: Form, parent: Strength, trees: &SiblingsLeft<'_>) -> bool
    ensures { result ≡ asks_from form (pow parent.left parent.right) true trees.now.trees }
{
    let mut before = true;
    let mut left = trees.all();
    while !left.is_done() {
        if child_asks(&left, form, parent, before) {
            return true;
        }
        before = still_before(&left, before);
        left = left.rest();
    }
    false
}

fn parts_ask(form: Form, trees: &SiblingsLeft<'_>) -> bool
    ensures { result ≡ parts_ask form trees.now.trees }
{
    is_term_form(form) && asks_from(form, powers_of(form, trees), trees)
}

/// Whether no part of the node that is its child needs a pair.
pub fn node_fits(node: &SyntaxNode) -> bool
    requires { IsNode (focus node.now) }
    ensures { result ≡ node_fits (focus node.now) }
{
    !parts_ask(form_of(node.kind()), &node.trees())
}
