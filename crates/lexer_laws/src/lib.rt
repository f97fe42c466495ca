//! Laws of texts of Rust that are cut at a brace: their tokens, and what the grammar's machine sees
//! of them.
//!
//! What is before a brace, from `{` to `}`, and behind a brace has the tokens that it has by
//! itself. So the tokens of a text in which a block was replaced are known without those of the
//! whole text. The crate has no code that runs: each of its functions is a law, which its contract
//! states.
#![tactic(auto)]

pub mod laws;
