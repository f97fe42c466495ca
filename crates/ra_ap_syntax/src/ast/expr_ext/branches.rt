//! Conditions, branches and arms.
ghost use Rattle.std.specs.Prelude.{◌≡◌};
ghost use Rattle.ras_node.specs.Lookups.{grandparent_of, view_in};
ghost use Rattle.ras_node.specs.Nodes.{kind_at};
ghost use Rattle.ra_ap_syntax.specs.ExprCases.{expr_node, IsExpr, expr_kinds};
ghost use Rattle.ras_expr_ext.specs.ExprParts.{unless_lone_block, second_as, third_as};
ghost use Rattle.ras_prec_walks.specs.Along.{is_block_like};
ghost use Rattle.ra_ap_syntax.specs.ControlViews.{IsBlockExpr, IsMatchExpr, block_expr_kinds, match_expr_kinds};
ghost use Rattle.ra_ap_syntax.specs.ElseBranchCases.{IsElseBranch, else_branch_kinds};

use crate::ast::{self, AstNode, ElseBranch, support};

impl ast::Expr {
    /// Whether it ends in a block, as an `if`, a loop, a block or a `match` does: as a statement it
    /// needs no `;`.
    pub fn is_block_like(&self) -> bool
        ensures { result ≡ is_block_like (kind_at (expr_node self.now)) }
    {
        ras_prec_walks::along::is_block_like(self.syntax().kind())
    }
}

impl ast::IfExpr {
    /// The first expression; if that is a block, only if there is another one.
    pub fn condition(&self) -> Option<ast::Expr>
        ensures { IsExpr (unless_lone_block expr_kinds self.now.syntax) result }
    {
        ras_expr_ext::unless_lone_block(&self.syntax)
    }

    /// The second expression, if it is a block.
    pub fn then_branch(&self) -> Option<ast::BlockExpr>
        ensures { IsBlockExpr (second_as expr_kinds block_expr_kinds self.now.syntax) result }
    {
        ras_expr_ext::second_as::<ast::Expr, ast::BlockExpr>(&self.syntax)
    }

    /// The third expression, if it is a block or an `if`.
    pub fn else_branch(&self) -> Option<ElseBranch>
        ensures { IsElseBranch (third_as expr_kinds else_branch_kinds self.now.syntax) result }
    {
        ras_expr_ext::third_as::<ast::Expr, ElseBranch>(&self.syntax)
    }
}

impl ast::WhileExpr {
    /// The first expression; if that is a block, only if there is another one.
    pub fn condition(&self) -> Option<ast::Expr>
        ensures { IsExpr (unless_lone_block expr_kinds self.now.syntax) result }
    {
        ras_expr_ext::unless_lone_block(&self.syntax)
    }
}

impl ast::ForExpr {
    /// The iterated expression of the loop: the first expression; if that is a block, only if there
    /// is another one.
    pub fn iterable(&self) -> Option<ast::Expr>
        ensures { IsExpr (unless_lone_block expr_kinds self.now.syntax) result }
    {
        ras_expr_ext::unless_lone_block(&self.syntax)
    }
}

impl ast::MatchArm {
    /// The `match` that it is an arm of: the parent's parent, if that is one.
    pub fn parent_match(&self) -> Option<ast::MatchExpr>
        ensures { IsMatchExpr (view_in match_expr_kinds (grandparent_of self.now.syntax)) result }
    {
        support::grandparent_as(&self.syntax)
    }
}
