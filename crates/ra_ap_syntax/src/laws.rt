//! Laws of the definitions that contracts cite. The functions do nothing: the contract is the law.
//!
//! [`the_operator_theorem`] is the main law. The other main guarantees are contract clauses. Every
//! parse keeps its text: clause `text_is` of `parsed` of
//! [`SourceFile::parse`](ast::SourceFile::parse) and [`Expr::parse`](ast::Expr::parse). Every
//! re-parse, of one piece or of the whole text, has the edited text: clause `same_text` of
//! `incremental_reparse`, `reparse` and `full_reparse` of [`Parse`](crate::Parse).
ghost use Rattle.std.specs.Prelude.{◌≡◌, ◌↔◌, ◌++◌, ◌∷◌, [], ℕ, List};
ghost use Rattle.syntax_kind.specs.declared.syntax_kind.token_kind.TokenKind.TheVariants as token;
ghost use Rattle.tree_model.specs.Cursor.{Cursor, focus};
ghost use Rattle.operator_terms.specs.Token.{Token, fixed};
ghost use Rattle.operator_terms.specs.Term.{Term, Paren, tokens};
ghost use Rattle.operator_terms.specs.Places.{Demand, some_part, operand, tokens_behind, MayStandBefore};
ghost use Rattle.operator_terms.specs.Pairs.{without};
ghost use Rattle.operator_trees.specs.Leaves.{leaves_behind, leaves_of};
ghost use Rattle.operator_trees.specs.Shown.{meaning, IsTerm};
ghost use Rattle.operator_pairs.specs.Pairs.{MayGoBefore};
ghost use Rattle.ras_prec.specs.Headline.{IsOneReadingOf, NoOperandNeedsAny, InsideNeedsNone, ReadsWithout};

mod names;

pub use names::names_of_nodes;
pub use operator_pairs::laws::{
    it_reads_where_none_is_asked, needless_pairs_are_found, needless_pairs_may_go,
    one_term_of_the_tokens, operands_are_asked,
};
pub use ras_algo::laws::common_ancestor_is_deepest;
pub use ras_node_ext::laws::attributes_are_those_of_the_source;
pub use ras_prec::laws::{
    operator_trees_are_asked_by_operators, operator_trees_end_in_casts_by_two_tokens,
    operator_trees_have_their_precedence, precedences_ask_enough,
};
pub use ras_tokens::laws::names_of_tokens;

/// The operator theorem: what `needs_parens_in` and `needs_parens_in_place_of` mean for an operator
/// tree, that is, the place `r` in any tree that shows a term `t`, with white space and comments
/// anywhere between.
///
/// `readings`: the term is the only reading of the tree's tokens in the layered grammar exactly if
/// `needs_parens_in` is false for every operand and the operand's own parent node. `pairs`: in such
/// a tree, `needs_parens_in_place_of` is false for the content of a pair of parentheses below the
/// root, in place of the pair, exactly if the tokens without the pair read as the term without it.
/// `tokens`: these are the tree's tokens, less the pair's two.
///
/// Any tokens may follow the tree, except `<` or `<<` if the term, or the term without the pair,
/// ends in a cast's name.
pub fn the_operator_theorem()
    ensures readings { (r : Cursor) (t : Term)
        → meaning (focus r) ≡ IsTerm t → MayStandBefore (leaves_behind r.tree r.place) t
        → IsOneReadingOf (leaves_of (focus r)) t ↔ NoOperandNeedsAny r t }
    ensures pairs { (r : Cursor) (t : Term) (i : ℕ) (q : List ℕ) (d : Demand) (e : Term)
        → meaning (focus r) ≡ IsTerm t → operand t (i ∷ q) ≡ some_part d (Paren e)
        → MayGoBefore (leaves_behind r.tree r.place) t (i ∷ q)
        → IsOneReadingOf (leaves_of (focus r)) t
        → InsideNeedsNone r t (i ∷ q) ↔ ReadsWithout t (i ∷ q) }
    ensures tokens { (r : Cursor) (t : Term) (q : List ℕ) (d : Demand) (e : Term)
        → meaning (focus r) ≡ IsTerm t → operand t q ≡ some_part d (Paren e)
        → (before : List Token)
        × (leaves_of (focus r)
        ≡ before ++ (fixed token.L_PAREN ∷ (tokens e ++ (fixed token.R_PAREN ∷ tokens_behind q t))))
        × (tokens (without q t) ≡ before ++ (tokens e ++ tokens_behind q t)) }
{}
