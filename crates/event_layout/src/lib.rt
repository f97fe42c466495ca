//! Turns the events of a parser into the steps of one tree, for a front end whose grammar is data.
//!
//! A parser lists events: the tokens that it took, each made of one or more of the lexer's tokens,
//! and the nodes over earlier events. [`lay_out`] adds white space and comments where rust-analyzer
//! has them, and makes steps that build one tree over the whole text, whatever the events are.
#![tactic(auto)]

mod ending;
pub mod laws;
mod layout;
mod starts;
mod trivia;

pub use ending::ends_in_token;
pub use layout::{HandedOut, LaidOut, ParserError, lay_out, lay_out_into, outermost};
