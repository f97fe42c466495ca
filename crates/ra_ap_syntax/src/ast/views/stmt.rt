//! A statement. Made by `tools/views` from `views.txt`.
ghost use Rattle.std.specs.Prelude.{◌≡◌, Some};
ghost use Rattle.tree_model.specs.Tree.{text};
ghost use Rattle.tree_model.specs.Cursor.{focus};
ghost use Rattle.lossless_tree.specs.Dump.{span_text};
ghost use Rattle.ra_ap_syntax.specs.declared.ast.views.stmt.Stmt.TheVariants as stmt;
ghost use Rattle.ras_node.specs.Sets.{is_stmt};
ghost use Rattle.ra_ap_syntax.specs.StmtCases.{stmt_node, stmt_castable};

use crate::ast::{self, AstNode, Typed};
use lossless_tree::{SyntaxKind, SyntaxNode};
use ras_node::sets::{KindSet, Stmts};
use std::fmt;
use std::hash::Hash;

/// A statement.
#[derive(Clone, PartialEq, Eq, Hash, Drop)]
pub enum Stmt {
    ExprStmt(ast::ExprStmt),
    Item(ast::Item),
    LetStmt(ast::LetStmt),
}

impl AstNode for Stmt {
    ghost casts = { is_stmt };

    ghost node = { stmt_node };

    ghost castable = { stmt_castable };

    fn can_cast(kind: SyntaxKind) -> bool {
        Stmts::has(kind)
    }

    fn cast(syntax: SyntaxNode) -> Option<Stmt> {
        match syntax.kind() {
            SyntaxKind::EXPR_STMT => Some(Stmt::ExprStmt(Typed { syntax })),
            SyntaxKind::LET_STMT => Some(Stmt::LetStmt(Typed { syntax })),
            _ => match ast::Item::cast(syntax) {
                Some(item) => Some(Stmt::Item(item)),
                None => None,
            },
        }
    }

    fn syntax(&self) -> &SyntaxNode {
        match self {
            Stmt::ExprStmt(it) => it.syntax(),
            Stmt::Item(it) => it.syntax(),
            Stmt::LetStmt(it) => it.syntax(),
        }
    }
}

impl fmt::Display for Stmt {
    ghost output = { λ it. Some (text (focus (stmt_node it))) };

    fn fmt<W: fmt::Write>(&self, f: &mut fmt::Formatter<W>) -> fmt::Result {
        let text = self.syntax().as_str();
        write!(f, "{text}")
    }
}

/// The kind and the range, as the node prints.
impl fmt::Debug for Stmt {
    ghost debug_output = { λ it. Some (span_text (stmt_node it)) };

    fn fmt<W: fmt::Write>(&self, f: &mut fmt::Formatter<W>) -> fmt::Result {
        fmt::Debug::fmt(self.syntax(), f)
    }
}

impl From<ast::ExprStmt> for Stmt {
    ghost from_gives = { λ it made. made ≡ stmt.ExprStmt it };

    fn from(it: ast::ExprStmt) -> Stmt {
        Stmt::ExprStmt(it)
    }
}

impl From<ast::Item> for Stmt {
    ghost from_gives = { λ it made. made ≡ stmt.Item it };

    fn from(it: ast::Item) -> Stmt {
        Stmt::Item(it)
    }
}

impl From<ast::LetStmt> for Stmt {
    ghost from_gives = { λ it made. made ≡ stmt.LetStmt it };

    fn from(it: ast::LetStmt) -> Stmt {
        Stmt::LetStmt(it)
    }
}
