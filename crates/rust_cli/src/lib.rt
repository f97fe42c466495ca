//! The commands of the program `rust_tree`, their arguments, and the task and the options that a
//! command line asks for.
#![tactic(auto)]

mod arguments;
pub mod manual;
pub mod options;
mod rows;
pub mod task;
pub mod verbs;
