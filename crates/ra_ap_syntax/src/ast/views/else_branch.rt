//! The branch after an `else`: a block, or another `if`. Made by `tools/views` from `views.txt`.
ghost use Rattle.std.specs.Prelude.{◌≡◌, Some};
ghost use Rattle.tree_model.specs.Tree.{text};
ghost use Rattle.tree_model.specs.Cursor.{focus};
ghost use Rattle.lossless_tree.specs.Dump.{span_text};
ghost use Rattle.ra_ap_syntax.specs.declared.ast.views.else_branch.ElseBranch.TheVariants as else_branch;
ghost use Rattle.ras_node.specs.Sets.{is_else_branch};
ghost use Rattle.ra_ap_syntax.specs.ElseBranchCases.{else_branch_node, else_branch_castable};

use crate::ast::{self, AstNode, Typed};
use lossless_tree::{SyntaxKind, SyntaxNode};
use ras_node::sets::{ElseBranches, KindSet};
use std::fmt;

/// The branch after an `else`: a block, or another `if`.
#[derive(Clone, PartialEq, Eq, Drop)]
pub enum ElseBranch {
    Block(ast::BlockExpr),
    IfExpr(ast::IfExpr),
}

impl AstNode for ElseBranch {
    ghost casts = { is_else_branch };

    ghost node = { else_branch_node };

    ghost castable = { else_branch_castable };

    fn can_cast(kind: SyntaxKind) -> bool {
        ElseBranches::has(kind)
    }

    fn cast(syntax: SyntaxNode) -> Option<ElseBranch> {
        match syntax.kind() {
            SyntaxKind::BLOCK_EXPR => Some(ElseBranch::Block(Typed { syntax })),
            SyntaxKind::IF_EXPR => Some(ElseBranch::IfExpr(Typed { syntax })),
            _ => None,
        }
    }

    fn syntax(&self) -> &SyntaxNode {
        match self {
            ElseBranch::Block(it) => it.syntax(),
            ElseBranch::IfExpr(it) => it.syntax(),
        }
    }
}

impl fmt::Display for ElseBranch {
    ghost output = { λ it. Some (text (focus (else_branch_node it))) };

    fn fmt<W: fmt::Write>(&self, f: &mut fmt::Formatter<W>) -> fmt::Result {
        let text = self.syntax().as_str();
        write!(f, "{text}")
    }
}

/// The kind and the range, as the node prints.
impl fmt::Debug for ElseBranch {
    ghost debug_output = { λ it. Some (span_text (else_branch_node it)) };

    fn fmt<W: fmt::Write>(&self, f: &mut fmt::Formatter<W>) -> fmt::Result {
        fmt::Debug::fmt(self.syntax(), f)
    }
}

impl From<ast::BlockExpr> for ElseBranch {
    ghost from_gives = { λ it made. made ≡ else_branch.Block it };

    fn from(it: ast::BlockExpr) -> ElseBranch {
        ElseBranch::Block(it)
    }
}

impl From<ast::IfExpr> for ElseBranch {
    ghost from_gives = { λ it made. made ≡ else_branch.IfExpr it };

    fn from(it: ast::IfExpr) -> ElseBranch {
        ElseBranch::IfExpr(it)
    }
}
