//! What is proved of an expression in another's place where both are of operator trees. The
//! functions do nothing: the contract is the law.
ghost use Rattle.std.specs.Prelude.{◌≡◌, ◌↔◌, ◌∷◌, ℕ, List, Bool, true, false};
ghost use Rattle.tree_model.specs.Tree.{subtree};
ghost use Rattle.tree_model.specs.Cursor.{Cursor};
ghost use Rattle.operator_terms.specs.Term.{Term, Paren, tokens};
ghost use Rattle.operator_terms.specs.Reading.{Reads};
ghost use Rattle.operator_terms.specs.Put.{put};
ghost use Rattle.operator_trees.specs.Shown.{meaning, IsTerm};
ghost use Rattle.syntax_make.specs.Replaced.{meant, needs_pair_at};
ghost use Rattle.syntax_make.specs.Operands.{IsOperand, put_piece};

/// An operand of an operator tree gets a pair from [`replace_expr`](crate::replace_expr) where it
/// needs one, by the operator theorem.
///
/// `old` is an operand of the term `t`, which the node at `r` shows, and `new` shows the term `s`
/// (`IsOperand`). `shown`: the new tree shows `t` with `s`, or `(s)`, in the operand's place.
/// `bare`: no pair is asked for exactly if the tokens read as `t` with `s` there. `paired`: with a
/// pair they always read as `t` with `(s)` there.
pub fn an_operand_gets_a_pair_where_it_needs_one()
    ensures shown { (pair : Bool) (old new r : Cursor) (t s : Term) (i : ℕ) (q : List ℕ)
        → IsOperand old new r t s i q
        → meaning (subtree (meant pair old new) r.place) ≡ IsTerm (put_piece pair s (i ∷ q) t) }
    ensures bare { (old new r : Cursor) (t s : Term) (i : ℕ) (q : List ℕ)
        → IsOperand old new r t s i q
        → needs_pair_at new old ≡ false ↔ Reads 0 (tokens (put s (i ∷ q) t)) (put s (i ∷ q) t) }
    ensures paired { (old new r : Cursor) (t s : Term) (i : ℕ) (q : List ℕ)
        → IsOperand old new r t s i q
        → Reads 0 (tokens (put (Paren s) (i ∷ q) t)) (put (Paren s) (i ∷ q) t) }
{}
