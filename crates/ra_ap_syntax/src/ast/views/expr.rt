//! An expression. Made by `tools/views` from `views.txt`.
ghost use Rattle.std.specs.Prelude.{◌≡◌, Some, ⊤};
ghost use Rattle.std.specs.Cmp.{partial_equiv_from_equiv, on_equiv};
ghost use Rattle.tree_model.specs.Tree.{text};
ghost use Rattle.tree_model.specs.Cursor.{focus};
ghost use Rattle.lossless_tree.specs.Dump.{span_text};
ghost use Rattle.tree_model.specs.Equality.{is_same_cursor, cursor_hash};
ghost use Rattle.tree_model.specs.EqualityLaws.{cursor_equivalence, cursors_alike};
ghost use Rattle.ra_ap_syntax.specs.declared.ast.views.expr.Expr.TheVariants as expr;
ghost use Rattle.ras_node.specs.Sets.{is_expr};
ghost use Rattle.ra_ap_syntax.specs.ExprCases.{expr_node, expr_castable};

use crate::ast::{self, AstNode, Typed, support};
use lossless_tree::{SyntaxKind, SyntaxNode};
use ras_node::sets::{Exprs, KindSet};
use std::alloc::AllocError;
use std::fmt;
use std::hash::{Hash, Hasher};

/// An expression.
#[derive(Drop)]
pub enum Expr {
    ArrayExpr(ast::ArrayExpr),
    AsmExpr(ast::AsmExpr),
    AwaitExpr(ast::AwaitExpr),
    BecomeExpr(ast::BecomeExpr),
    BinExpr(ast::BinExpr),
    BlockExpr(ast::BlockExpr),
    BreakExpr(ast::BreakExpr),
    CallExpr(ast::CallExpr),
    CastExpr(ast::CastExpr),
    CfgPredExpr(ast::CfgPredExpr),
    ClosureExpr(ast::ClosureExpr),
    ContinueExpr(ast::ContinueExpr),
    FieldExpr(ast::FieldExpr),
    ForExpr(ast::ForExpr),
    FormatArgsExpr(ast::FormatArgsExpr),
    IfExpr(ast::IfExpr),
    IncludeBytesExpr(ast::IncludeBytesExpr),
    IndexExpr(ast::IndexExpr),
    LetExpr(ast::LetExpr),
    Literal(ast::Literal),
    LoopExpr(ast::LoopExpr),
    MacroExpr(ast::MacroExpr),
    MatchExpr(ast::MatchExpr),
    MethodCallExpr(ast::MethodCallExpr),
    OffsetOfExpr(ast::OffsetOfExpr),
    ParenExpr(ast::ParenExpr),
    PathExpr(ast::PathExpr),
    PrefixExpr(ast::PrefixExpr),
    RangeExpr(ast::RangeExpr),
    RecordExpr(ast::RecordExpr),
    RefExpr(ast::RefExpr),
    ReturnExpr(ast::ReturnExpr),
    TryExpr(ast::TryExpr),
    TupleExpr(ast::TupleExpr),
    UnderscoreExpr(ast::UnderscoreExpr),
    WhileExpr(ast::WhileExpr),
    YeetExpr(ast::YeetExpr),
    YieldExpr(ast::YieldExpr),
}

impl AstNode for Expr {
    ghost casts = { is_expr };

    ghost node = { expr_node };

    ghost castable = { expr_castable };

    fn can_cast(kind: SyntaxKind) -> bool {
        Exprs::has(kind)
    }

    fn cast(syntax: SyntaxNode) -> Option<Expr> {
        match syntax.kind() {
            SyntaxKind::ARRAY_EXPR => Some(Expr::ArrayExpr(Typed { syntax })),
            SyntaxKind::ASM_EXPR => Some(Expr::AsmExpr(Typed { syntax })),
            SyntaxKind::AWAIT_EXPR => Some(Expr::AwaitExpr(Typed { syntax })),
            SyntaxKind::BECOME_EXPR => Some(Expr::BecomeExpr(Typed { syntax })),
            SyntaxKind::BIN_EXPR => Some(Expr::BinExpr(Typed { syntax })),
            SyntaxKind::BLOCK_EXPR => Some(Expr::BlockExpr(Typed { syntax })),
            SyntaxKind::BREAK_EXPR => Some(Expr::BreakExpr(Typed { syntax })),
            SyntaxKind::CALL_EXPR => Some(Expr::CallExpr(Typed { syntax })),
            SyntaxKind::CAST_EXPR => Some(Expr::CastExpr(Typed { syntax })),
            SyntaxKind::CFG_PRED_EXPR => Some(Expr::CfgPredExpr(Typed { syntax })),
            SyntaxKind::CLOSURE_EXPR => Some(Expr::ClosureExpr(Typed { syntax })),
            SyntaxKind::CONTINUE_EXPR => Some(Expr::ContinueExpr(Typed { syntax })),
            SyntaxKind::FIELD_EXPR => Some(Expr::FieldExpr(Typed { syntax })),
            SyntaxKind::FOR_EXPR => Some(Expr::ForExpr(Typed { syntax })),
            SyntaxKind::FORMAT_ARGS_EXPR => Some(Expr::FormatArgsExpr(Typed { syntax })),
            SyntaxKind::IF_EXPR => Some(Expr::IfExpr(Typed { syntax })),
            SyntaxKind::INCLUDE_BYTES_EXPR => Some(Expr::IncludeBytesExpr(Typed { syntax })),
            SyntaxKind::INDEX_EXPR => Some(Expr::IndexExpr(Typed { syntax })),
            SyntaxKind::LET_EXPR => Some(Expr::LetExpr(Typed { syntax })),
            SyntaxKind::LITERAL => Some(Expr::Literal(Typed { syntax })),
            SyntaxKind::LOOP_EXPR => Some(Expr::LoopExpr(Typed { syntax })),
            SyntaxKind::MACRO_EXPR => Some(Expr::MacroExpr(Typed { syntax })),
            SyntaxKind::MATCH_EXPR => Some(Expr::MatchExpr(Typed { syntax })),
            SyntaxKind::METHOD_CALL_EXPR => Some(Expr::MethodCallExpr(Typed { syntax })),
            SyntaxKind::OFFSET_OF_EXPR => Some(Expr::OffsetOfExpr(Typed { syntax })),
            SyntaxKind::PAREN_EXPR => Some(Expr::ParenExpr(Typed { syntax })),
            SyntaxKind::PATH_EXPR => Some(Expr::PathExpr(Typed { syntax })),
            SyntaxKind::PREFIX_EXPR => Some(Expr::PrefixExpr(Typed { syntax })),
            SyntaxKind::RANGE_EXPR => Some(Expr::RangeExpr(Typed { syntax })),
            SyntaxKind::RECORD_EXPR => Some(Expr::RecordExpr(Typed { syntax })),
            SyntaxKind::REF_EXPR => Some(Expr::RefExpr(Typed { syntax })),
            SyntaxKind::RETURN_EXPR => Some(Expr::ReturnExpr(Typed { syntax })),
            SyntaxKind::TRY_EXPR => Some(Expr::TryExpr(Typed { syntax })),
            SyntaxKind::TUPLE_EXPR => Some(Expr::TupleExpr(Typed { syntax })),
            SyntaxKind::UNDERSCORE_EXPR => Some(Expr::UnderscoreExpr(Typed { syntax })),
            SyntaxKind::WHILE_EXPR => Some(Expr::WhileExpr(Typed { syntax })),
            SyntaxKind::YEET_EXPR => Some(Expr::YeetExpr(Typed { syntax })),
            SyntaxKind::YIELD_EXPR => Some(Expr::YieldExpr(Typed { syntax })),
            _ => None,
        }
    }

    fn syntax(&self) -> &SyntaxNode {
        match self {
            Expr::ArrayExpr(it) => it.syntax(),
            Expr::AsmExpr(it) => it.syntax(),
            Expr::AwaitExpr(it) => it.syntax(),
            Expr::BecomeExpr(it) => it.syntax(),
            Expr::BinExpr(it) => it.syntax(),
            Expr::BlockExpr(it) => it.syntax(),
            Expr::BreakExpr(it) => it.syntax(),
            Expr::CallExpr(it) => it.syntax(),
            Expr::CastExpr(it) => it.syntax(),
            Expr::CfgPredExpr(it) => it.syntax(),
            Expr::ClosureExpr(it) => it.syntax(),
            Expr::ContinueExpr(it) => it.syntax(),
            Expr::FieldExpr(it) => it.syntax(),
            Expr::ForExpr(it) => it.syntax(),
            Expr::FormatArgsExpr(it) => it.syntax(),
            Expr::IfExpr(it) => it.syntax(),
            Expr::IncludeBytesExpr(it) => it.syntax(),
            Expr::IndexExpr(it) => it.syntax(),
            Expr::LetExpr(it) => it.syntax(),
            Expr::Literal(it) => it.syntax(),
            Expr::LoopExpr(it) => it.syntax(),
            Expr::MacroExpr(it) => it.syntax(),
            Expr::MatchExpr(it) => it.syntax(),
            Expr::MethodCallExpr(it) => it.syntax(),
            Expr::OffsetOfExpr(it) => it.syntax(),
            Expr::ParenExpr(it) => it.syntax(),
            Expr::PathExpr(it) => it.syntax(),
            Expr::PrefixExpr(it) => it.syntax(),
            Expr::RangeExpr(it) => it.syntax(),
            Expr::RecordExpr(it) => it.syntax(),
            Expr::RefExpr(it) => it.syntax(),
            Expr::ReturnExpr(it) => it.syntax(),
            Expr::TryExpr(it) => it.syntax(),
            Expr::TupleExpr(it) => it.syntax(),
            Expr::UnderscoreExpr(it) => it.syntax(),
            Expr::WhileExpr(it) => it.syntax(),
            Expr::YeetExpr(it) => it.syntax(),
            Expr::YieldExpr(it) => it.syntax(),
        }
    }
}

impl Clone for Expr {
    ghost is_clone = { λ s copy. expr_node copy ≡ expr_node s };

    ghost is_infallible = { λ _. ⊤ };

    fn clone(&self) -> Result<Expr, AllocError> {
        Ok(support::copy(self))
    }
}

impl PartialEq for Expr {
    ghost eq = { λ a b. is_same_cursor (expr_node a) (expr_node b) };

    ghost laws = { partial_equiv_from_equiv (on_equiv expr_node cursor_equivalence) };

    fn eq(&self, other: &Expr) -> bool {
        self.syntax() == other.syntax()
    }
}

impl Eq for Expr {
    ghost laws = { on_equiv expr_node cursor_equivalence };
}

impl Hash for Expr {
    ghost hash_input = { λ it. cursor_hash (expr_node it) };

    ghost respects_eq = { λ a b same. cursors_alike (expr_node a) (expr_node b) same };

    fn hash<H: Hasher>(&self, state: &mut H) {
        self.syntax().hash(state);
    }
}

impl fmt::Display for Expr {
    ghost output = { λ it. Some (text (focus (expr_node it))) };

    fn fmt<W: fmt::Write>(&self, f: &mut fmt::Formatter<W>) -> fmt::Result {
        let text = self.syntax().as_str();
        write!(f, "{text}")
    }
}

/// The kind and the range, as the node prints.
impl fmt::Debug for Expr {
    ghost debug_output = { λ it. Some (span_text (expr_node it)) };

    fn fmt<W: fmt::Write>(&self, f: &mut fmt::Formatter<W>) -> fmt::Result {
        fmt::Debug::fmt(self.syntax(), f)
    }
}

impl From<ast::ArrayExpr> for Expr {
    ghost from_gives = { λ it made. made ≡ expr.ArrayExpr it };

    fn from(it: ast::ArrayExpr) -> Expr {
        Expr::ArrayExpr(it)
    }
}

impl From<ast::AsmExpr> for Expr {
    ghost from_gives = { λ it made. made ≡ expr.AsmExpr it };

    fn from(it: ast::AsmExpr) -> Expr {
        Expr::AsmExpr(it)
    }
}

impl From<ast::AwaitExpr> for Expr {
    ghost from_gives = { λ it made. made ≡ expr.AwaitExpr it };

    fn from(it: ast::AwaitExpr) -> Expr {
        Expr::AwaitExpr(it)
    }
}

impl From<ast::BecomeExpr> for Expr {
    ghost from_gives = { λ it made. made ≡ expr.BecomeExpr it };

    fn from(it: ast::BecomeExpr) -> Expr {
        Expr::BecomeExpr(it)
    }
}

impl From<ast::BinExpr> for Expr {
    ghost from_gives = { λ it made. made ≡ expr.BinExpr it };

    fn from(it: ast::BinExpr) -> Expr {
        Expr::BinExpr(it)
    }
}

impl From<ast::BlockExpr> for Expr {
    ghost from_gives = { λ it made. made ≡ expr.BlockExpr it };

    fn from(it: ast::BlockExpr) -> Expr {
        Expr::BlockExpr(it)
    }
}

impl From<ast::BreakExpr> for Expr {
    ghost from_gives = { λ it made. made ≡ expr.BreakExpr it };

    fn from(it: ast::BreakExpr) -> Expr {
        Expr::BreakExpr(it)
    }
}

impl From<ast::CallExpr> for Expr {
    ghost from_gives = { λ it made. made ≡ expr.CallExpr it };

    fn from(it: ast::CallExpr) -> Expr {
        Expr::CallExpr(it)
    }
}

impl From<ast::CastExpr> for Expr {
    ghost from_gives = { λ it made. made ≡ expr.CastExpr it };

    fn from(it: ast::CastExpr) -> Expr {
        Expr::CastExpr(it)
    }
}

impl From<ast::CfgPredExpr> for Expr {
    ghost from_gives = { λ it made. made ≡ expr.CfgPredExpr it };

    fn from(it: ast::CfgPredExpr) -> Expr {
        Expr::CfgPredExpr(it)
    }
}

impl From<ast::ClosureExpr> for Expr {
    ghost from_gives = { λ it made. made ≡ expr.ClosureExpr it };

    fn from(it: ast::ClosureExpr) -> Expr {
        Expr::ClosureExpr(it)
    }
}

impl From<ast::ContinueExpr> for Expr {
    ghost from_gives = { λ it made. made ≡ expr.ContinueExpr it };

    fn from(it: ast::ContinueExpr) -> Expr {
        Expr::ContinueExpr(it)
    }
}

impl From<ast::FieldExpr> for Expr {
    ghost from_gives = { λ it made. made ≡ expr.FieldExpr it };

    fn from(it: ast::FieldExpr) -> Expr {
        Expr::FieldExpr(it)
    }
}

impl From<ast::ForExpr> for Expr {
    ghost from_gives = { λ it made. made ≡ expr.ForExpr it };

    fn from(it: ast::ForExpr) -> Expr {
        Expr::ForExpr(it)
    }
}

impl From<ast::FormatArgsExpr> for Expr {
    ghost from_gives = { λ it made. made ≡ expr.FormatArgsExpr it };

    fn from(it: ast::FormatArgsExpr) -> Expr {
        Expr::FormatArgsExpr(it)
    }
}

impl From<ast::IfExpr> for Expr {
    ghost from_gives = { λ it made. made ≡ expr.IfExpr it };

    fn from(it: ast::IfExpr) -> Expr {
        Expr::IfExpr(it)
    }
}

impl From<ast::IncludeBytesExpr> for Expr {
    ghost from_gives = { λ it made. made ≡ expr.IncludeBytesExpr it };

    fn from(it: ast::IncludeBytesExpr) -> Expr {
        Expr::IncludeBytesExpr(it)
    }
}

impl From<ast::IndexExpr> for Expr {
    ghost from_gives = { λ it made. made ≡ expr.IndexExpr it };

    fn from(it: ast::IndexExpr) -> Expr {
        Expr::IndexExpr(it)
    }
}

impl From<ast::LetExpr> for Expr {
    ghost from_gives = { λ it made. made ≡ expr.LetExpr it };

    fn from(it: ast::LetExpr) -> Expr {
        Expr::LetExpr(it)
    }
}

impl From<ast::Literal> for Expr {
    ghost from_gives = { λ it made. made ≡ expr.Literal it };

    fn from(it: ast::Literal) -> Expr {
        Expr::Literal(it)
    }
}

impl From<ast::LoopExpr> for Expr {
    ghost from_gives = { λ it made. made ≡ expr.LoopExpr it };

    fn from(it: ast::LoopExpr) -> Expr {
        Expr::LoopExpr(it)
    }
}

impl From<ast::MacroExpr> for Expr {
    ghost from_gives = { λ it made. made ≡ expr.MacroExpr it };

    fn from(it: ast::MacroExpr) -> Expr {
        Expr::MacroExpr(it)
    }
}

impl From<ast::MatchExpr> for Expr {
    ghost from_gives = { λ it made. made ≡ expr.MatchExpr it };

    fn from(it: ast::MatchExpr) -> Expr {
        Expr::MatchExpr(it)
    }
}

impl From<ast::MethodCallExpr> for Expr {
    ghost from_gives = { λ it made. made ≡ expr.MethodCallExpr it };

    fn from(it: ast::MethodCallExpr) -> Expr {
        Expr::MethodCallExpr(it)
    }
}

impl From<ast::OffsetOfExpr> for Expr {
    ghost from_gives = { λ it made. made ≡ expr.OffsetOfExpr it };

    fn from(it: ast::OffsetOfExpr) -> Expr {
        Expr::OffsetOfExpr(it)
    }
}

impl From<ast::ParenExpr> for Expr {
    ghost from_gives = { λ it made. made ≡ expr.ParenExpr it };

    fn from(it: ast::ParenExpr) -> Expr {
        Expr::ParenExpr(it)
    }
}

impl From<ast::PathExpr> for Expr {
    ghost from_gives = { λ it made. made ≡ expr.PathExpr it };

    fn from(it: ast::PathExpr) -> Expr {
        Expr::PathExpr(it)
    }
}

impl From<ast::PrefixExpr> for Expr {
    ghost from_gives = { λ it made. made ≡ expr.PrefixExpr it };

    fn from(it: ast::PrefixExpr) -> Expr {
        Expr::PrefixExpr(it)
    }
}

impl From<ast::RangeExpr> for Expr {
    ghost from_gives = { λ it made. made ≡ expr.RangeExpr it };

    fn from(it: ast::RangeExpr) -> Expr {
        Expr::RangeExpr(it)
    }
}

impl From<ast::RecordExpr> for Expr {
    ghost from_gives = { λ it made. made ≡ expr.RecordExpr it };

    fn from(it: ast::RecordExpr) -> Expr {
        Expr::RecordExpr(it)
    }
}

impl From<ast::RefExpr> for Expr {
    ghost from_gives = { λ it made. made ≡ expr.RefExpr it };

    fn from(it: ast::RefExpr) -> Expr {
        Expr::RefExpr(it)
    }
}

impl From<ast::ReturnExpr> for Expr {
    ghost from_gives = { λ it made. made ≡ expr.ReturnExpr it };

    fn from(it: ast::ReturnExpr) -> Expr {
        Expr::ReturnExpr(it)
    }
}

impl From<ast::TryExpr> for Expr {
    ghost from_gives = { λ it made. made ≡ expr.TryExpr it };

    fn from(it: ast::TryExpr) -> Expr {
        Expr::TryExpr(it)
    }
}

impl From<ast::TupleExpr> for Expr {
    ghost from_gives = { λ it made. made ≡ expr.TupleExpr it };

    fn from(it: ast::TupleExpr) -> Expr {
        Expr::TupleExpr(it)
    }
}

impl From<ast::UnderscoreExpr> for Expr {
    ghost from_gives = { λ it made. made ≡ expr.UnderscoreExpr it };

    fn from(it: ast::UnderscoreExpr) -> Expr {
        Expr::UnderscoreExpr(it)
    }
}

impl From<ast::WhileExpr> for Expr {
    ghost from_gives = { λ it made. made ≡ expr.WhileExpr it };

    fn from(it: ast::WhileExpr) -> Expr {
        Expr::WhileExpr(it)
    }
}

impl From<ast::YeetExpr> for Expr {
    ghost from_gives = { λ it made. made ≡ expr.YeetExpr it };

    fn from(it: ast::YeetExpr) -> Expr {
        Expr::YeetExpr(it)
    }
}

impl From<ast::YieldExpr> for Expr {
    ghost from_gives = { λ it made. made ≡ expr.YieldExpr it };

    fn from(it: ast::YieldExpr) -> Expr {
        Expr::YieldExpr(it)
    }
}
