//! A pointer that shares a value in one thread, whose clone always succeeds.
#![tactic(auto)]

mod shared;

pub use shared::Shared;
