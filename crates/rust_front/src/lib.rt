//! Rust's front end: parses a text by the whole grammar into a lossless tree, with rust-analyzer's
//! error messages.
#![tactic(auto)]

mod exact;
mod front;
pub mod laws;
mod message;
mod piece;
mod report;
mod retold;
mod root;
mod top;

pub use front::Rust;
pub use top::TopEntryPoint;
