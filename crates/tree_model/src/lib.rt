//! The logical model of trees: the definitions that contracts on trees use, and laws about them.
//!
//! `tree_rows` stores trees, and `lossless_tree` has the cursors that programs use.
#![tactic(auto)]

mod direction;
mod error;
pub mod laws;

pub use direction::Direction;
pub use error::{FinishError, ReplaceError};
