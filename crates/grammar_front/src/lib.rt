//! The front end of a grammar: a lexer's tokens, a machine's run over the grammar's tables, and one
//! tree of what it made.
//!
//! A [`Language`] has the tables and what a front end needs beside them. [`GrammarFront`] is the
//! front end of any [`Lexer`](token_layout::Lexer) and any language.
#![tactic(auto)]

mod front;
mod language;
mod report;
mod sights;

pub use front::GrammarFront;
pub use language::{ErrorPlace, Language, Target};
pub use sights::sights_by_kind;
