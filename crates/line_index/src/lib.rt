//! Lines and columns of a text, from byte offsets and back.
#![tactic(auto)]

mod index;
pub mod laws;
mod line_col;
mod places;
mod starts;

pub use index::LineIndex;
pub use line_col::{LineCol, WideEncoding, WideLineCol};
pub use places::WidePlaces;
pub use starts::LineStarts;
