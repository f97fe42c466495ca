//! A parser that is data: a machine without recursion that runs a grammar's operations over the
//! tokens of a text.
//!
//! A [`Grammar`] is a table of operations, [`Op`], compiled from the rules of a grammar, with
//! tables of sets, operators and kinds beside it. The machine sees each token as a [`Sight`], and
//! makes a list of [`Event`]s. A node's event is made when the node ends, and has the number of the
//! event where the node began; so a node can be made of existing events.
//!
//! [`run`] ends on every grammar and every input, in time and memory linear in the tokens.
#![tactic(auto)]

mod alone;
mod event;
mod grammar;
pub mod laws;
mod machine;
mod made;

pub use event::{Event, Part};
pub use grammar::{Grammar, Level, Op, Power, Sight, Test, View};
pub use machine::{run, run_alone};
