//! Patterns of kinds and texts, and the nodes and tokens of a tree that fit them.
#![tactic(auto)]

mod pattern;
mod reader;
mod search;
pub mod show;

pub use pattern::{Choice, Pattern, QueryError, Step, TextPattern, TextTest, parse_pattern};
pub use search::{Found, matches_of};
