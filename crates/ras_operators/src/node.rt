//! The precedence of an expression node, and other properties that depend on its kind and its first
//! expression.
ghost use Rattle.std.specs.Prelude.{◌≡◌, is_some, ◌&&◌};
ghost use Rattle.ras_node.specs.Nodes.{typed_child};
ghost use Rattle.ras_node.specs.Sets.{is_expr};
ghost use Rattle.ras_operators.specs.Levels.{operator_precedence, binary_precedence, closure_precedence, precedence_at, precedence_of, is_ret_type, is_valueless, is_dyn_or_impl, is_pointing};
ghost use Rattle.ras_node.specs.Searches.{first_token};
ghost use Rattle.ras_node.specs.PartSets.{is_binary_operator};
ghost use Rattle.tree_model.specs.Cursor.{children_of};
ghost use Rattle.ras_node.specs.Nodes.{kind_at};

use crate::level::ExprPrecedence;
use lossless_tree::{SyntaxKind, SyntaxNode};
use ras_node::sets::{BinaryOperators, Exprs, KindSet};

/// The kind of the return type of a function or closure.
pub enum RetTypes {}

impl KindSet for RetTypes {
    ghost kinds = { is_ret_type };

    fn has(kind: SyntaxKind) -> bool {
        matches!(kind, SyntaxKind::RET_TYPE)
    }
}

fn operator_precedence(kind: SyntaxKind) -> ExprPrecedence
    ensures { result ≡ operator_precedence kind }
{
    match kind {
        SyntaxKind::PIPE2 => ExprPrecedence::LOr,
        SyntaxKind::AMP2 => ExprPrecedence::LAnd,
        SyntaxKind::EQ2
        | SyntaxKind::NEQ
        | SyntaxKind::L_ANGLE
        | SyntaxKind::R_ANGLE
        | SyntaxKind::LTEQ
        | SyntaxKind::GTEQ => ExprPrecedence::Compare,
        SyntaxKind::PIPE => ExprPrecedence::BitOr,
        SyntaxKind::CARET => ExprPrecedence::BitXor,
        SyntaxKind::AMP => ExprPrecedence::BitAnd,
        SyntaxKind::SHL | SyntaxKind::SHR => ExprPrecedence::Shift,
        SyntaxKind::PLUS | SyntaxKind::MINUS => ExprPrecedence::Sum,
        SyntaxKind::STAR | SyntaxKind::SLASH | SyntaxKind::PERCENT => ExprPrecedence::Product,
        SyntaxKind::EQ
        | SyntaxKind::PLUSEQ
        | SyntaxKind::MINUSEQ
        | SyntaxKind::STAREQ
        | SyntaxKind::SLASHEQ
        | SyntaxKind::PERCENTEQ
        | SyntaxKind::SHLEQ
        | SyntaxKind::SHREQ
        | SyntaxKind::CARETEQ
        | SyntaxKind::PIPEEQ
        | SyntaxKind::AMPEQ => ExprPrecedence::Assign,
        _ => ExprPrecedence::Unambiguous,
    }
}

fn binary_precedence(node: &SyntaxNode) -> ExprPrecedence
    ensures { result ≡ binary_precedence (first_token is_binary_operator (children_of node.now)) }
{
    match ras_node::first_token::<BinaryOperators>(node.children_with_tokens()) {
        Some(token) => operator_precedence(token.kind()),
        None => ExprPrecedence::Unambiguous,
    }
}

fn closure_precedence(node: &SyntaxNode) -> ExprPrecedence
    ensures { result ≡ closure_precedence (typed_child is_ret_type node.now) }
{
    match ras_node::first_node::<RetTypes>(node.children_with_tokens()) {
        Some(_ret_type) => ExprPrecedence::Unambiguous,
        None => ExprPrecedence::Jump,
    }
}

/// The precedence of an expression. It takes time linear in the node's children.
pub fn precedence_of(node: &SyntaxNode) -> ExprPrecedence
    ensures { result ≡ precedence_of node.now }
{
    match node.kind() {
        SyntaxKind::CLOSURE_EXPR => closure_precedence(node),
        SyntaxKind::BREAK_EXPR
        | SyntaxKind::BECOME_EXPR
        | SyntaxKind::RETURN_EXPR
        | SyntaxKind::YEET_EXPR
        | SyntaxKind::YIELD_EXPR
        | SyntaxKind::CONTINUE_EXPR => ExprPrecedence::Jump,
        SyntaxKind::RANGE_EXPR => ExprPrecedence::Range,
        SyntaxKind::BIN_EXPR => binary_precedence(node),
        SyntaxKind::CAST_EXPR => ExprPrecedence::Cast,
        SyntaxKind::LET_EXPR | SyntaxKind::PREFIX_EXPR | SyntaxKind::REF_EXPR => {
            ExprPrecedence::Prefix
        }
        SyntaxKind::AWAIT_EXPR
        | SyntaxKind::CALL_EXPR
        | SyntaxKind::FIELD_EXPR
        | SyntaxKind::INDEX_EXPR
        | SyntaxKind::METHOD_CALL_EXPR
        | SyntaxKind::TRY_EXPR => ExprPrecedence::Postfix,
        _ => ExprPrecedence::Unambiguous,
    }
}

fn has_expr(node: &SyntaxNode) -> bool
    ensures { result ≡ is_some (typed_child is_expr node.now) }
{
    match ras_node::first_node::<Exprs>(node.children_with_tokens()) {
        Some(_value) => true,
        None => false,
    }
}

/// Whether it is a `continue`, or a `return`, `break`, `yield` or `become` without a value.
pub fn is_ret_like_with_no_value(node: &SyntaxNode) -> bool
    ensures { result ≡ is_valueless node.now }
{
    match node.kind() {
        SyntaxKind::CONTINUE_EXPR => true,
        SyntaxKind::RETURN_EXPR
        | SyntaxKind::BREAK_EXPR
        | SyntaxKind::YIELD_EXPR
        | SyntaxKind::BECOME_EXPR => !has_expr(node),
        _ => false,
    }
}

fn is_dyn_or_impl(kind: SyntaxKind) -> bool
    ensures { result ≡ is_dyn_or_impl kind }
{
    matches!(
        kind,
        SyntaxKind::DYN_TRAIT_TYPE | SyntaxKind::IMPL_TRAIT_TYPE
    )
}

fn is_pointing(kind: SyntaxKind) -> bool
    ensures { result ≡ is_pointing kind }
{
    matches!(
        kind,
        SyntaxKind::CAST_EXPR | SyntaxKind::REF_TYPE | SyntaxKind::PTR_TYPE
    )
}

/// Whether a type needs parentheses below a parent: a `dyn` or `impl` type in a cast, after `&` or
/// in a pointer type, where a `+` would not belong to it.
pub fn type_needs_parens_in(own: &SyntaxNode, parent: &SyntaxNode) -> bool
    ensures { result ≡ (is_dyn_or_impl (kind_at own.now) && is_pointing (kind_at parent.now)) }
{
    is_dyn_or_impl(own.kind()) && is_pointing(parent.kind())
}
