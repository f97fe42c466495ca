//! Edits of a text: disjoint ranges of it, each replaced by another text.
#![tactic(auto)]

mod error;
mod indel;
pub mod laws;
mod merge;
mod ranges;
mod text_edit;

pub use error::{ApplyError, OverlapError};
pub use indel::Indel;
pub use text_edit::TextEdit;
pub use text_size::{TextRange, TextSize};
