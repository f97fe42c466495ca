//! What a front end offers so that a piece of a text can be parsed again exactly.
#![tactic(auto)]

mod exact_front;

pub use exact_front::ExactFront;
