//! Sizes and ranges of text, in bytes.
#![tactic(auto)]

mod range;
mod size;

pub use range::TextRange;
pub use size::TextSize;
