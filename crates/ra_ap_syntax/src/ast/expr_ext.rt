//! Accessors of expressions and their parts.
mod args;
mod array;
mod block;
mod branches;
mod field;
mod literal;
mod operands;

pub use args::ArgsMaybeEmpty;
pub use array::ArrayExprKind;
pub use block::BlockModifier;
pub use field::FieldKind;
pub use operands::RangeItem;
