//! The operators of expressions and patterns.
pub use ras_operators::{ArithOp, BinaryOp, CmpOp, LogicOp, Ordering, RangeOp, UnaryOp};
