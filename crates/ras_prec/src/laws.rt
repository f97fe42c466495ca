//! What is proved of the test on operator trees.
ghost use Rattle.std.specs.Prelude.{◌≡◌, ◌↔◌, ◌++◌, ◌∷◌, [], ℕ, List, Some, true, false};
ghost use Rattle.tree_model.specs.Cursor.{Cursor, focus, parent_of};
ghost use Rattle.operator_terms.specs.Term.{Term, is_field, tokens};
ghost use Rattle.operator_terms.specs.Places.{Callee, Part, part, operand, ends_in_cast};
ghost use Rattle.operator_terms.specs.Precedence.{precedence, needs_parentheses_in};
ghost use Rattle.operator_trees.specs.Leaves.{leaves_of};
ghost use Rattle.operator_trees.specs.Shown.{meaning, IsTerm};
ghost use Rattle.operator_pairs.specs.Pairs.{operand_cursor, angle_behind};
ghost use Rattle.operator_powers.specs.Rules.{form_at, is_term_form, is_arguments};
ghost use Rattle.ras_operators.specs.Levels.{as_precedence, precedence_of};
ghost use Rattle.ras_prec_walks.specs.CastName.{ends_in_cast_name};
ghost use Rattle.ras_prec.specs.Headline.{NeedsNone};
ghost use Rattle.ras_prec.specs.Rules.{asks, asks_by_operators};

/// If `own` and the node at `place` show terms, and the place's own parent is an expression of an
/// operator tree or a list of arguments, the whole test equals the test of operator trees: no rule
/// on blocks, jumps, records or `let` applies.
pub fn operator_trees_are_asked_by_operators()
    ensures expression { (own parent place : Cursor) (s u : Term) → meaning (focus own) ≡ IsTerm s
        → meaning (focus place) ≡ IsTerm u → parent_of place ≡ Some parent
        → is_term_form (form_at parent) ≡ true
        → asks own parent place ≡ asks_by_operators own parent place }
    ensures arguments { (own parent place : Cursor) → is_arguments (form_at parent) ≡ true
        → asks own parent place ≡ asks_by_operators own parent place }
{}

/// A node that shows a term ends in the name of a cast's type exactly if its last two tokens,
/// trivia left out, are `as` and a name.
pub fn operator_trees_end_in_casts_by_two_tokens()
    ensures { (c : Cursor) (t : Term) → meaning (focus c) ≡ IsTerm t
        → ends_in_cast_name c ≡ ends_in_cast (leaves_of (focus c)) }
{}

/// A node that shows a term has the term's precedence.
pub fn operator_trees_have_their_precedence()
    ensures { (c : Cursor) (t : Term) → meaning (focus c) ≡ IsTerm t
        → as_precedence (precedence_of c) ≡ precedence t }
{}

/// If the test by precedences requires no parentheses for an operand in its parent expression, the
/// operand needs none, except for a field that is called, and for an operand that ends with a
/// cast's name before `<` or `<<`.
pub fn precedences_ask_enough()
    ensures { (r : Cursor) (t : Term) (q : List ℕ) (i : ℕ) (holder held : Part)
        → meaning (focus r) ≡ IsTerm t → operand t q ≡ Some holder → part holder.term i ≡ Some held
        → needs_parentheses_in (as_precedence (precedence_of (operand_cursor r t (q ++ i ∷ []))))
        (as_precedence (precedence_of (operand_cursor r t q))) ≡ false
        → (held.demand ≡ Callee → is_field held.term ≡ false)
        → (ends_in_cast (tokens held.term) ≡ true → angle_behind r t (q ++ i ∷ []) ≡ false)
        → NeedsNone (operand_cursor r t (q ++ i ∷ [])) (operand_cursor r t (q ++ i ∷ [])) }
{}
