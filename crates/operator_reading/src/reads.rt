//! Whether an operator tree reads back.
ghost use Rattle.std.specs.Prelude.{◌≡◌, ◌↔◌, ◌&&◌, IfNone, IfSome, Some, None, true, is_some};
ghost use Rattle.tree_model.specs.Tree.{IsNode};
ghost use Rattle.tree_model.specs.Cursor.{focus};
ghost use Rattle.tree_model.specs.Every.{every};
ghost use Rattle.operator_terms.specs.Term.{Term, tokens};
ghost use Rattle.operator_terms.specs.Reading.{Reads, no_cast_before_angle};
ghost use Rattle.operator_terms.specs.Pairs.{paired};
ghost use Rattle.operator_trees.specs.Shown.{shown, meaning, is_right};
ghost use Rattle.operator_trees.specs.Leaves.{leaves_of};
ghost use Rattle.operator_reading.specs.Reads.{has_form, node_fits, element_has_form, element_fits, ReadsBack};

use crate::fits::node_fits;
use crate::shape::has_shape;
use lossless_tree::{NodeOrToken, SyntaxElement, SyntaxNode};
use operator_powers::ask::is_term_form;
use operator_powers::edge::edge_of;
use operator_trees::form_of;

fn element_has_form(element: &SyntaxElement) -> bool
    ensures { result ≡ element_has_form element.now }
{
    match element {
        NodeOrToken::Node(node) => {
            node.placed();
            has_shape(node)
        }
        NodeOrToken::Token(_) => true,
    }
}

fn element_fits(element: &SyntaxElement) -> bool
    ensures { result ≡ element_fits element.now }
{
    match element {
        NodeOrToken::Node(node) => {
            node.placed();
            node_fits(node)
        }
        NodeOrToken::Token(_) => true,
    }
}

// Each node of the subtree has the shape of its form.
fn all_have_forms(node: &SyntaxNode) -> bool
    ensures { result ≡ every has_form (focus node.now) }
{
    for element in node.descendants_with_tokens() {
        if !element_has_form(&element) {
            return false;
        }
    }
    true
}

// No part in the subtree needs a pair.
fn all_fit(node: &SyntaxNode) -> bool
    ensures { result ≡ every node_fits (focus node.now) }
{
    for element in node.descendants_with_tokens() {
        if !element_fits(&element) {
            return false;
        }
    }
    true
}

// The node shows a term.
fn shows_term(node: &SyntaxNode) -> bool
    ensures { result ≡ is_some (shown (focus node.now)) }
{
    node.placed();
    is_term_form(form_of(node.kind())) && all_have_forms(node)
}

fn is_reading(node: &SyntaxNode) -> bool
    ensures { result
        ≡ (every node_fits (focus node.now) && no_cast_before_angle (leaves_of (focus node.now))) }
{
    all_fit(node) && edge_of(node).clear
}

/// Whether the node is a reading of its own tokens, or `None` if it shows no term.
///
/// It takes no memory, and time linear in the subtree.
pub fn reads_back(node: &SyntaxNode) -> Option<bool>
    ensures { ReadsBack result (shown (focus node.now)) }
{
    if shows_term(node) {
        Some(is_reading(node))
    } else {
        None
    }
}
