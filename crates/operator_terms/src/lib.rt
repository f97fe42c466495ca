//! Operator expressions as terms: what they are, how their tokens read, which operands fit their
//! places, and which parentheses can be removed.
//!
//! The definitions are in `specs/`, in the order of `specs/Lib.antt`: terms and their tokens, the
//! layered grammar that reads tokens, places and what they demand, pairs put in and taken out, the
//! test by binding powers. The laws about them are in [`laws`], each the contract of a function
//! with an empty body. This crate has no code that runs: crates above it relate trees, and calls on
//! trees, to these terms. `docs/OPERATORS.md` explains the theorem.
#![tactic(auto)]

pub mod laws;
