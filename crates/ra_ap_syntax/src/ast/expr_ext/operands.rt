//! Operators and their operands.
ghost use Rattle.std.specs.Prelude.{◌≡◌, Bool, Option, option_map, is_some, not};
ghost use Rattle.std.specs.Option.{option_and_then};
ghost use Rattle.ras_node.specs.Lookups.{second_typed_child};
ghost use Rattle.syntax_kind.specs.declared.syntax_kind.SyntaxKind.{SyntaxKind};
ghost use Rattle.tree_model.specs.Cursor.{Cursor};
ghost use Rattle.ras_node.specs.Nodes.{kind_at, typed_child};
ghost use Rattle.ras_operators.specs.OperatorTexts.{unary_op, range_op, binary_op};
ghost use Rattle.ras_expr_ext.specs.ExprParts.{first_child_token, binary_operator, range_operator, range_start_of, range_end_of, bound_before};
ghost use Rattle.ra_ap_syntax.specs.ExprCases.{expr_node, IsExpr, IsFirstExpr, expr_kinds};

use crate::ast::{self, AstNode, BinaryOp, RangeOp, UnaryOp, support};
use lossless_tree::{SyntaxNode, SyntaxToken};
use ras_operators::{binary_op, range_op, unary_op};

impl ast::PrefixExpr {
    /// The first child, if it is a token: the operator.
    pub fn op_token(&self) -> Option<SyntaxToken>
        ensures { result ≡ first_child_token self.now.syntax }
    {
        ras_expr_ext::first_child_token(&self.syntax)
    }

    /// The prefix operator of that token, or `None` if it is not one.
    pub fn op_kind(&self) -> Option<UnaryOp>
        ensures { result
            ≡ option_and_then (λ t. unary_op (kind_at t)) (first_child_token self.now.syntax) }
    {
        unary_op(self.op_token()?.kind())
    }
}

impl ast::BinExpr {
    /// The first token that is a binary operator, and the operator.
    pub fn op_details(&self) -> Option<(SyntaxToken, BinaryOp)>
        ensures { result
            ≡ option_and_then (λ t. option_map (λ o. (t, o)) (binary_op (kind_at t)))
            (binary_operator self.now.syntax) }
    {
        let token = self.op_token()?;
        let operator = binary_op(token.kind())?;
        Some((token, operator))
    }

    /// The operator of the first token that is a binary operator.
    pub fn op_kind(&self) -> Option<BinaryOp>
        ensures { result
            ≡ option_and_then (λ t. binary_op (kind_at t)) (binary_operator self.now.syntax) }
    {
        binary_op(self.op_token()?.kind())
    }

    /// The first token that is a binary operator.
    pub fn op_token(&self) -> Option<SyntaxToken>
        ensures { result ≡ binary_operator self.now.syntax }
    {
        ras_expr_ext::binary_operator(&self.syntax)
    }

    /// The first expression, if there is one.
    pub fn lhs(&self) -> Option<ast::Expr>
        ensures { IsFirstExpr self.now.syntax result }
    {
        support::child(&self.syntax)
    }

    /// The second expression, if there is one.
    pub fn rhs(&self) -> Option<ast::Expr>
        ensures { IsExpr (second_typed_child expr_kinds self.now.syntax) result }
    {
        support::second_child(&self.syntax)
    }

    /// The first and the second expression, each if there is one.
    pub fn sub_exprs(&self) -> (Option<ast::Expr>, Option<ast::Expr>)
        ensures left { option_map expr_node result.0 ≡ typed_child expr_kinds self.now.syntax }
        ensures right { option_map expr_node result.1
            ≡ second_typed_child expr_kinds self.now.syntax }
    {
        (self.lhs(), self.rhs())
    }
}

/// A range, of expressions or of patterns.
pub trait RangeItem {
    /// The type of its ends.
    type Bound: AstNode;

    /// The node of the range.
    ghost range: { Self → Cursor };

    /// The end before the operator, by the kinds of the ends: the rule depends on the kind of
    /// range.
    ghost start_by: { (SyntaxKind → Bool) → Cursor → Option Cursor };

    /// The end before the operator, if there is one.
    fn start(&self) -> Option<Self::Bound>
        ensures { option_map Self.Bound.node result ≡ start_by Self.Bound.casts (range self.now) };

    /// The end after the operator. Returns `None` if there is no operator or nothing after it.
    fn end(&self) -> Option<Self::Bound>
        ensures { option_map Self.Bound.node result
            ≡ range_end_of Self.Bound.casts (range self.now) };

    /// The operator, or `None` if there is none.
    fn op_kind(&self) -> Option<RangeOp>
        ensures { result
            ≡ option_and_then (λ t. range_op (kind_at t)) (range_operator (range self.now)) };

    /// The first `..` or `..=`.
    fn op_token(&self) -> Option<SyntaxToken>
        ensures { result ≡ range_operator (range self.now) };
}

impl RangeItem for ast::RangeExpr {
    type Bound = ast::Expr;

    ghost range = { λ it. it.syntax };

    ghost start_by = { range_start_of };

    /// The first expression before the operator, or `None` if there is no operator.
    fn start(&self) -> Option<ast::Expr> {
        ras_expr_ext::range_start(&self.syntax)
    }

    /// The first expression after the operator, or `None` if there is no operator.
    fn end(&self) -> Option<ast::Expr> {
        ras_expr_ext::range_end(&self.syntax)
    }

    fn op_kind(&self) -> Option<RangeOp> {
        range_op(self.op_token()?.kind())
    }

    fn op_token(&self) -> Option<SyntaxToken> {
        ras_expr_ext::range_operator(&self.syntax)
    }
}

impl RangeItem for ast::RangePat {
    type Bound = ast::Pat;

    ghost range = { λ it. it.syntax };

    ghost start_by = { bound_before };

    /// The first pattern before the operator; without an operator, the first pattern.
    fn start(&self) -> Option<ast::Pat> {
        ras_expr_ext::start_or_first(&self.syntax)
    }

    /// The first pattern after the operator, or `None` if there is no operator.
    fn end(&self) -> Option<ast::Pat> {
        ras_expr_ext::range_end(&self.syntax)
    }

    fn op_kind(&self) -> Option<RangeOp> {
        range_op(self.op_token()?.kind())
    }

    fn op_token(&self) -> Option<SyntaxToken> {
        ras_expr_ext::range_operator(&self.syntax)
    }
}

// Whether no child can be viewed as an `N`.
fn has_no_child<N: AstNode + Drop>(parent: &SyntaxNode) -> bool
    ensures { result ≡ not (is_some (typed_child N.casts parent.now)) }
{
    match support::child::<N>(parent) {
        Some(_child) => false,
        None => true,
    }
}

impl ast::RangeExpr {
    /// Whether it has no end at all, as `..` alone: no child is an expression.
    pub fn is_range_full(&self) -> bool
        ensures { result ≡ not (is_some (typed_child expr_kinds self.now.syntax)) }
    {
        has_no_child::<ast::Expr>(&self.syntax)
    }
}
