//! All of Rust's grammar, as tables for the machine of the crate `grammar_machine`.
//!
//! The grammar is the text `rust.grammar` in this crate, which reads like a parser by recursive
//! descent; its head explains the language. `tools/grammar --write` compiles it to the tables here,
//! and `tools/grammar --check` compares the two.
//!
//! To parse: [`sights`] says how the machine sees a text's tokens, and `grammar_machine::run` makes
//! events of them by the tables of [`grammar`], from the first operation of a rule, [`rule_of`],
//! on. [`message`] has the text of an error's number.
#![tactic(auto)]

mod tables;
mod views;

pub use tables::{Rule, grammar, message, rule_of};
pub use views::sights;
