//! Whether an expression needs parentheses in place of another.
ghost use Rattle.std.specs.Prelude.{◌≡◌, ◌↔◌, ◌++◌, ◌∷◌, [], List, ℕ, Some, true, false};
ghost use Rattle.tree_model.specs.Cursor.{Cursor, focus, at_place, parent_of};
ghost use Rattle.lossless_tree.specs.declared.cursor.element.NodeOrToken.TheVariants as element;
ghost use Rattle.operator_terms.specs.Term.{Term, Paren};
ghost use Rattle.operator_terms.specs.Places.{Part, part, operand, tokens_behind, FitsPlace};
ghost use Rattle.operator_trees.specs.Operands.{operand_place};
ghost use Rattle.operator_terms.specs.Powers.{needs_pair_at};
ghost use Rattle.operator_terms.specs.Reading.{begins_with_angle};
ghost use Rattle.operator_trees.specs.Leaves.{leaves_behind};
ghost use Rattle.operator_trees.specs.Shown.{meaning, IsTerm};
ghost use Rattle.operator_trees.specs.Before.{part_kid, is_direct};
ghost use Rattle.operator_powers.specs.Rules.{form_at, kid_place, is_arguments, is_foreign, operators_ask, asks_below};

use crate::behind::kind_behind;
use lossless_tree::{NodeOrToken, SyntaxElement, SyntaxNode};
use operator_powers::ask::needs_parens_before;
use operator_powers::edge::is_angle;

// The node as an element. It takes no memory.
fn element_at(node: &SyntaxNode) -> SyntaxElement
    ensures { result ≡ element.Node node.now }
{
    match node.clone() {
        Ok(copy) => NodeOrToken::Node(copy),
        Err(_) => unreachable!(),
    }
}

// `<` or `<<` follows after the node.
fn is_before_angle(node: &SyntaxNode) -> bool
    ensures { result ≡ begins_with_angle (leaves_behind node.now.tree node.now.place) }
{
    match kind_behind(&element_at(node)) {
        Some(kind) => is_angle(kind),
        None => false,
    }
}

/// Whether an expression of an operator tree needs parentheses in place of the node or token at
/// `place`, whose parent is `parent`.
///
/// If `own` and `parent` show terms, and `place` is a part of `parent`, the result is that of the
/// test over terms. Returns false if `parent` is not the parent of `place`, if it is a list of
/// arguments, or if `own` has no form of an operator tree.
pub fn needs_parens_in_place_of(own: &SyntaxNode, parent: &SyntaxNode, place: &SyntaxNode) -> bool
    ensures everywhere { result
        ≡ asks_below own.now parent.now place.now
        (begins_with_angle (leaves_behind place.now.tree place.now.place)) }
    ensures direct { (s t : Term) (i : ℕ) (p : Part) → meaning (focus own.now) ≡ IsTerm s
        → meaning (focus parent.now) ≡ IsTerm t
        → part t i ≡ Some p → is_direct t i ≡ true → place.now ≡ kid_place parent.now (part_kid t i)
        → result
        ≡ needs_pair_at t i (begins_with_angle (leaves_behind place.now.tree place.now.place))
        s }
    ensures pairs { (t : Term) (q : List ℕ) (i : ℕ) (r : Cursor) (holder held : Part) (e : Term)
        → meaning (focus r) ≡ IsTerm t
        → operand t q ≡ Some holder → part holder.term i ≡ Some held → held.term ≡ Paren e
        → is_direct holder.term i ≡ true
        → parent.now ≡ at_place r (r.place ++ operand_place q (focus r) t)
        → place.now ≡ kid_place parent.now (part_kid holder.term i)
        → own.now ≡ kid_place place.now 1
        → result ≡ false
        ↔ FitsPlace held.demand
        (begins_with_angle (tokens_behind (q ++ i ∷ []) t ++ leaves_behind r.tree r.place))
        e }
    ensures arguments { is_arguments (form_at parent.now) ≡ true → result ≡ false }
    ensures operators { parent_of place.now ≡ Some parent.now → is_foreign (form_at own.now) ≡ false
        → is_arguments (form_at parent.now) ≡ false
        → result
        ≡ operators_ask own.now parent.now place.now
        (begins_with_angle (leaves_behind place.now.tree place.now.place)) }
{
    let angle = is_before_angle(place);
    needs_parens_before(own, parent, place, angle)
}
