//! Laws of texts that are edited: of the parse of a text in which one piece was parsed again.
//!
//! The steps of a front end for the new text are those for the old one, with those of the piece in
//! their place, under the conditions of the laws of `event_layout`. The laws here say what that
//! means for trees, and which nodes of a tree are such pieces. The crate has no code that runs:
//! each of its functions is a law, which its contract states.
#![tactic(auto)]

pub mod laws;
