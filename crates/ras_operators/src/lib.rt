//! The operators of expressions and patterns: their tokens, their texts and their precedences.
//! (Upstream: `ast::operators` and `ast::prec` of rust-analyzer's `syntax`.)
#![tactic(auto)]

pub mod level;
pub mod node;
mod operators;

pub use level::{ExprPrecedence, Fixity};
pub use operators::{
    ArithOp, BinaryOp, CmpOp, LogicOp, Ordering, RangeOp, UnaryOp, binary_op, range_op, unary_op,
};
