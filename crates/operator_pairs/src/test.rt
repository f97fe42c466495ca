//! The test, at the operands of an operator tree.
ghost use Rattle.std.specs.Prelude.{◌≡◌, Some, false};
ghost use Rattle.tree_model.specs.Cursor.{parent_of};
ghost use Rattle.operator_terms.specs.Term.{tokens};
ghost use Rattle.operator_terms.specs.Reading.{begins_with_angle};
ghost use Rattle.operator_terms.specs.Places.{operand};
ghost use Rattle.operator_terms.specs.Pairs.{without};
ghost use Rattle.operator_trees.specs.Leaves.{leaves_behind};
ghost use Rattle.operator_powers.specs.Rules.{form_at, is_foreign, asks_below};
ghost use Rattle.operator_pairs.specs.Decides.{DecidesOperands, DecidesPairs};
ghost use Rattle.operator_pairs.specs.Pairs.{asks};

use crate::place;
use lossless_tree::SyntaxNode;

// `place::needs_parens_in_place_of`, and its result for the place's own parent.
fn is_asked(own: &SyntaxNode, parent: &SyntaxNode, place: &SyntaxNode) -> bool
    ensures everywhere { result
        ≡ asks_below own.now parent.now place.now
        (begins_with_angle (leaves_behind place.now.tree place.now.place)) }
    ensures asks { parent_of place.now ≡ Some parent.now → is_foreign (form_at own.now) ≡ false
        → result ≡ asks own.now parent.now place.now }
{
    place::needs_parens_in_place_of(own, parent, place)
}

/// Whether an expression of an operator tree needs parentheses in place of the node or token at
/// `place`, whose parent is `parent`.
///
/// For an operand below the root of an operator tree and its own parent node (for an argument, the
/// list of arguments), it returns false exactly if the expression fits there, before the tokens
/// that follow the operand in the whole tree. For the contents of a pair in place of the pair, in a
/// tree that reads back and is not followed by `<` or `<<`, it returns false exactly if the tokens
/// without the pair read as the term without it; then they read as no other term.
///
/// Returns false if `parent` is not the parent of `place`, if it is a list of arguments, or if
/// `own` has no form of an operator tree.
pub fn needs_parens_in_place_of(own: &SyntaxNode, parent: &SyntaxNode, place: &SyntaxNode) -> bool
    ensures everywhere { result
        ≡ asks_below own.now parent.now place.now
        (begins_with_angle (leaves_behind place.now.tree place.now.place)) }
    ensures asks { parent_of place.now ≡ Some parent.now → is_foreign (form_at own.now) ≡ false
        → result ≡ asks own.now parent.now place.now }
    ensures fits { DecidesOperands own.now parent.now place.now result }
    ensures pairs { DecidesPairs own.now parent.now place.now result }
{
    is_asked(own, parent, place)
}
