//! Rust's lexer: cuts a text into raw tokens, white space and comments included, and reports errors
//! in them.
//!
//! Punctuation is cut into single characters. A word is a keyword if it is one everywhere in the
//! edition, and `IDENT` otherwise. Each byte of the text is in exactly one token.
#![tactic(auto)]

mod class;
mod comment;
mod cut;
mod escape;
mod front_matter;
mod history;
pub mod laws;
mod lexer;
mod name;
mod number;
mod problem;
mod punctuation;
mod quote;
mod raw_string;
mod scan;
mod shape;
mod shebang;
mod single;
mod token;

pub use lexer::{LexError, Lexed, lex};
pub use problem::Problem;
pub use rust_kinds::{contextual_keyword, contextual_kind, is_strict_keyword, keyword};
pub use single::single_token;
