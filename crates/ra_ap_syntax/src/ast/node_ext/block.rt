//! Blocks.
ghost use Rattle.std.specs.Prelude.{◌≡◌};
ghost use Rattle.std.specs.Iterator.{YieldsFirstBy, item_count};
ghost use Rattle.ras_node.specs.Lookups.{typed_child_in, typed_children_in};
ghost use Rattle.ra_ap_syntax.specs.StmtCases.{stmt_node, stmt_kinds};
ghost use Rattle.ra_ap_syntax.specs.ExprCases.{IsExpr, expr_kinds};
ghost use Rattle.ra_ap_syntax.specs.StmtViews.{stmt_list_kinds};

use crate::ast::{self, AstChildren, AstNode};
use std::marker::Model;

/// The statements of a block, in order. A clause sees the nodes that are left.
#[derive(Drop)]
pub struct Statements {
    left: Option<AstChildren<ast::Stmt>>,
}

impl Model for Statements {
    ghost use Rattle.std.specs.Prelude.{List, [], unwrap_or};
    ghost use Rattle.std.specs.Coded.{coded_list};
    ghost use Rattle.tree_model.specs.Cursor.{Cursor, cursor_code};

    ghost Value = { List Cursor };

    ghost coded = { coded_list cursor_code };

    ghost view = { λ a. unwrap_or a.left [] };
}

impl Iterator for Statements {
    type Item = ast::Stmt;

    ghost next_gives = { YieldsFirstBy stmt_node (λ left. left) };

    ghost remaining = { item_count (λ left. left) };

    fn next(&mut self) -> Option<ast::Stmt> {
        match &mut self.left {
            Some(left) => left.next(),
            None => None,
        }
    }
}

impl ast::BlockExpr {
    /// The statements of its list, in order; the result is empty if it has no list.
    pub fn statements(&self) -> Statements
        ensures { result ≡ typed_children_in stmt_list_kinds stmt_kinds self.now.syntax }
    {
        let left = match self.stmt_list() {
            Some(list) => Some(list.statements()),
            None => None,
        };
        Statements { left }
    }

    /// The first child of its list that is an expression: in a well-formed block its value.
    /// Statements are in nodes of their own.
    pub fn tail_expr(&self) -> Option<ast::Expr>
        ensures { IsExpr (typed_child_in stmt_list_kinds expr_kinds self.now.syntax) result }
    {
        self.stmt_list()?.tail_expr()
    }
}
