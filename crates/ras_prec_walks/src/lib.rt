//! Walks from an expression: to what it begins or ends with, to what is in it outside delimiters,
//! and up from it.
#![tactic(auto)]

pub mod above;
pub mod along;
pub mod cast_name;
pub mod inside;
pub mod laws;
pub mod parts;
