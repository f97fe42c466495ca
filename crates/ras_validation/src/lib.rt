//! Validation: the errors in a tree that a grammar does not rule out, each with the message of a
//! diagnostic.
//!
//! `violations` lists them for a whole tree, `violations_in` for a subtree, `violations_among` for
//! some rows; each rule is also a function, for a node of the kind in its documentation.
#![tactic(auto)]

pub mod collect;
pub mod exprs;
pub mod items;
mod kinds;
pub mod laws;
mod literals;
mod lookups;
pub mod paths;
mod rows;
pub mod types;
mod violation;

pub use collect::{violations, violations_among, violations_in};
pub use violation::{Violation, ViolationMessage};
