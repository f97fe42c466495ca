//! A call or a method call. Made by `tools/views` from `views.txt`.
ghost use Rattle.std.specs.Prelude.{◌≡◌, Some};
ghost use Rattle.tree_model.specs.Tree.{text};
ghost use Rattle.tree_model.specs.Cursor.{focus};
ghost use Rattle.lossless_tree.specs.Dump.{span_text};
ghost use Rattle.ras_node.specs.Sets.{is_callable_expr};
ghost use Rattle.ra_ap_syntax.specs.CallableExprCases.{callable_expr_node, callable_expr_castable};

use crate::ast::{self, AstNode, Typed};
use lossless_tree::{SyntaxKind, SyntaxNode};
use ras_node::sets::{CallableExprs, KindSet};
use std::fmt;
use std::hash::Hash;

/// A call or a method call.
#[derive(Clone, PartialEq, Eq, Hash, Drop)]
pub enum CallableExpr {
    Call(ast::CallExpr),
    MethodCall(ast::MethodCallExpr),
}

impl AstNode for CallableExpr {
    ghost casts = { is_callable_expr };

    ghost node = { callable_expr_node };

    ghost castable = { callable_expr_castable };

    fn can_cast(kind: SyntaxKind) -> bool {
        CallableExprs::has(kind)
    }

    fn cast(syntax: SyntaxNode) -> Option<CallableExpr> {
        match syntax.kind() {
            SyntaxKind::CALL_EXPR => Some(CallableExpr::Call(Typed { syntax })),
            SyntaxKind::METHOD_CALL_EXPR => Some(CallableExpr::MethodCall(Typed { syntax })),
            _ => None,
        }
    }

    fn syntax(&self) -> &SyntaxNode {
        match self {
            CallableExpr::Call(it) => it.syntax(),
            CallableExpr::MethodCall(it) => it.syntax(),
        }
    }
}

impl fmt::Display for CallableExpr {
    ghost output = { λ it. Some (text (focus (callable_expr_node it))) };

    fn fmt<W: fmt::Write>(&self, f: &mut fmt::Formatter<W>) -> fmt::Result {
        let text = self.syntax().as_str();
        write!(f, "{text}")
    }
}

/// The kind and the range, as the node prints.
impl fmt::Debug for CallableExpr {
    ghost debug_output = { λ it. Some (span_text (callable_expr_node it)) };

    fn fmt<W: fmt::Write>(&self, f: &mut fmt::Formatter<W>) -> fmt::Result {
        fmt::Debug::fmt(self.syntax(), f)
    }
}
