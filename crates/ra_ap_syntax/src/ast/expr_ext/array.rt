//! Array and index expressions.
ghost use Rattle.std.specs.Prelude.{◌≡◌};
ghost use Rattle.ras_node.specs.Lookups.{second_typed_child};
ghost use Rattle.ra_ap_syntax.specs.ExprShapes.{array_shape, array_kind};
ghost use Rattle.ra_ap_syntax.specs.ExprCases.{IsExpr, IsFirstExpr, expr_kinds};

use crate::ast::{self, AstChildren, AstNode, support};

/// The form of an array expression.
#[derive(Clone, Drop)]
pub enum ArrayExprKind {
    /// `[initializer; repeat]`
    Repeat {
        initializer: Option<ast::Expr>,
        repeat: Option<ast::Expr>,
    },
    /// `[a, b, c]`
    ElementList(AstChildren<ast::Expr>),
}

impl ast::ArrayExpr {
    /// If a `;` is a child, the repeated value and the number, which are the first and the second
    /// expression; otherwise the list of the expressions.
    pub fn kind(&self) -> ArrayExprKind
        ensures { array_shape result ≡ array_kind expr_kinds self.now.syntax }
    {
        if self.semicolon_token().is_some() {
            return ArrayExprKind::Repeat {
                initializer: support::child(&self.syntax),
                repeat: support::second_child(&self.syntax),
            };
        }
        ArrayExprKind::ElementList(support::children(&self.syntax))
    }
}

impl ast::IndexExpr {
    /// The indexed expression: the first expression, if there is one.
    pub fn base(&self) -> Option<ast::Expr>
        ensures { IsFirstExpr self.now.syntax result }
    {
        support::child(&self.syntax)
    }

    /// The index: the second expression, if there is one.
    pub fn index(&self) -> Option<ast::Expr>
        ensures { IsExpr (second_typed_child expr_kinds self.now.syntax) result }
    {
        support::second_child(&self.syntax)
    }
}
