//! Nodes of Rust by the names of rust-analyzer's `syntax::ast::make`: each is made of the nodes
//! that it is given, has them as parts, and puts parentheses round an operand where it needs them.
#![tactic(auto)]

mod bounds;
mod control;
mod exprs;
mod items;
mod make;
mod names;
mod pats;
mod pieces;
mod records;
mod signs;
mod texts;
mod token_texts;
mod tokens;
mod types;
mod uses;

pub use make::Make;
pub use syntax_make::{MakeError, Place, ReplaceExprError, Replaced};
