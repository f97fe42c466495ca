//! Reports on texts of Rust as a terminal, a program or a workflow reads them: errors, items,
//! tokens, matches, pairs of parentheses and differences, as lines of text, objects of JSON or
//! annotations. Each is written while it is made, to any writer.
#![tactic(auto)]

pub mod check;
pub mod differ;
pub mod failure;
pub mod forms;
pub mod json;
pub mod names;
pub mod outline;
pub mod parens;
mod run;
pub mod sarif;
pub mod shown;
pub mod source;
pub mod style;
pub mod tokens;
