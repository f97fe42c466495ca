//! Precedences of expressions, and parentheses.
ghost use Rattle.std.specs.Prelude.{◌≡◌, ◌↔◌, ◌&&◌, ℕ, List, IfOk, IfSome, map, option_map, true, false};
ghost use Rattle.tree_model.specs.Cursor.{focus};
ghost use Rattle.ras_node.specs.Nodes.{kind_at};
ghost use Rattle.operator_terms.specs.Term.{Term, tokens};
ghost use Rattle.operator_terms.specs.Pairs.{without};
ghost use Rattle.operator_terms.specs.Places.{operand, Fits, MayStandBefore};
ghost use Rattle.operator_trees.specs.Leaves.{leaves_behind};
ghost use Rattle.operator_trees.specs.Shown.{shown, meaning, IsTerm};
ghost use Rattle.operator_reading.specs.Reads.{ReadsBack};
ghost use Rattle.operator_pairs.specs.Decides.{DecidesItsPlace, DecidesItsTerm, DecidesOperands, DecidesPairs};
ghost use Rattle.ras_operators.specs.Levels.{precedence_of, is_valueless, is_dyn_or_impl, is_pointing};
ghost use Rattle.ras_prec.specs.Headline.{NeedlessOf, NoOperandNeedsAny};
ghost use Rattle.ras_prec.specs.Rules.{asks};
ghost use Rattle.ra_ap_syntax.specs.ExprCases.{expr_node};
ghost use Rattle.ra_ap_syntax.specs.TypeCases.{ty_node};

use crate::ast::{self, AstNode};
use lossless_tree::SyntaxNode;
pub use ras_operators::{ExprPrecedence, Fixity};
use std::alloc::{AllocError, Global};

/// The precedence of an expression. That of a binary expression depends on its operator's token; a
/// closure without a return type has that of a jump. Takes time linear in the children.
pub fn precedence(expr: &ast::Expr) -> ExprPrecedence
    ensures { result ≡ precedence_of (expr_node expr.now) }
{
    ras_operators::node::precedence_of(expr.syntax())
}

impl ast::Expr {
    /// The precedence of the expression, as returned by `precedence`.
    pub fn precedence(&self) -> ExprPrecedence
        ensures { result ≡ precedence_of (expr_node self.now) }
    {
        precedence(self)
    }

    /// Whether it is a `continue`, or a `return`, `break`, `yield` or `become` without a value.
    pub fn is_ret_like_with_no_value(&self) -> bool
        ensures { result ≡ is_valueless (expr_node self.now) }
    {
        ras_operators::node::is_ret_like_with_no_value(self.syntax())
    }

    /// Whether the expression needs parentheses below `parent`, which is its parent, another
    /// ancestor, or the expression itself. For any other node the answer is false. Outside operator
    /// trees the rules are upstream's: for expressions that are followed by a block, jumps without
    /// a value, records, chains of `let`, statements, and `let` with `else`.
    ///
    /// For an operand of an operator tree and its own parent node (for an argument, the list of
    /// arguments), the answer is false exactly if the operand fits, given the tokens that follow it
    /// in the whole tree. If neither `<` nor `<<` follows the operator tree, that is `Fits`, which
    /// depends on the term alone. Takes time linear in the expression, at any depth, if a block
    /// follows it or it is below `&&`.
    pub fn needs_parens_in(&self, parent: &SyntaxNode) -> bool
        ensures asks { result ≡ asks (expr_node self.now) parent.now (expr_node self.now) }
        ensures fits { DecidesItsPlace (expr_node self.now) parent.now result }
        ensures alone { DecidesItsTerm (expr_node self.now) parent.now result }
    {
        ras_prec::rules::needs_parens_in(self.syntax(), parent)
    }

    /// Whether the expression would need parentheses if it replaced the node or token at `place`,
    /// below `parent`, which is the parent of `place`, another ancestor, or `place` itself. For any
    /// other node the answer is false.
    ///
    /// Let the expression be the content of a pair of parentheses, and `place` that pair, below the
    /// root of an operator tree that reads back and is not followed by `<` or `<<`. Then the answer
    /// is false exactly if the tokens without the pair read as the term without it; and that term
    /// is then their only reading.
    pub fn needs_parens_in_place_of(&self, parent: &SyntaxNode, place: &SyntaxNode) -> bool
        ensures asks { result ≡ asks (expr_node self.now) parent.now place.now }
        ensures fits { DecidesOperands (expr_node self.now) parent.now place.now result }
        ensures pairs { DecidesPairs (expr_node self.now) parent.now place.now result }
    {
        ras_prec::rules::needs_parens_in_place_of(self.syntax(), parent, place)
    }
}

impl ast::Type {
    /// Whether the type needs parentheses below a parent: a `dyn` or `impl` type in a cast, after
    /// `&` or in a pointer type.
    pub fn needs_parens_in(&self, parent: &SyntaxNode) -> bool
        ensures { result
            ≡ (is_dyn_or_impl (kind_at (ty_node self.now)) && is_pointing (kind_at parent.now)) }
    {
        ras_operators::node::type_needs_parens_in(self.syntax(), parent)
    }
}

/// Whether the expression's tokens read as the term that it shows; `None` if it shows no term.
///
/// This is true exactly if every operand fits its place. If the expression does not end in a cast's
/// name that `<` or `<<` follows, it is also true exactly if no operand below it needs parentheses
/// in its own parent, by [`ast::Expr::needs_parens_in`]. Takes no memory, and time linear in the
/// expression.
pub fn reads_back(expr: &ast::Expr) -> Option<bool>
    ensures reads { ReadsBack result (shown (focus (expr_node expr.now))) }
    ensures fits { IfSome result (λ b. (t : Term) → meaning (focus (expr_node expr.now)) ≡ IsTerm t
        → b ≡ true ↔ ((q : List ℕ) → Fits t q)) }
    ensures tied { IfSome result (λ b. (t : Term) → meaning (focus (expr_node expr.now)) ≡ IsTerm t
        → MayStandBefore (leaves_behind (expr_node expr.now).tree (expr_node expr.now).place) t
        → b ≡ true ↔ NoOperandNeedsAny (expr_node expr.now) t) }
{
    ras_prec::needless::reads_back(expr.syntax())
}

/// The pairs of parentheses below the expression that can be removed, in preorder: those whose
/// content needs no parentheses in their place. Returns `None` unless the expression reads back.
/// Each pair can be removed alone; removing several at once may change the tree.
///
/// If neither `<` nor `<<` follows the expression, they are exactly the pairs without which its
/// tokens read as the term without the pair. Takes time linear in the expression, and memory for
/// the result.
pub fn needless_parens(
    alloc: Global,
    expr: &ast::Expr,
) -> Result<Option<Vec<ast::ParenExpr>>, AllocError>
    ensures { IfOk result (λ answer. NeedlessOf (expr_node expr.now)
        (option_map (λ found. map (λ pair. pair.syntax) found.items) answer)
        (shown (focus (expr_node expr.now)))) }
{
    ras_prec::needless::needless_parens::<ast::ParenExpr>(alloc, expr.syntax())
}
