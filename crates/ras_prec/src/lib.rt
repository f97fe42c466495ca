//! Whether an expression needs parentheses, wherever it is.
#![tactic(auto)]

pub mod laws;
pub mod needless;
pub mod order;
pub mod rules;
