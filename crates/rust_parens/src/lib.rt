//! Needless pairs of parentheses of a tree, around expressions and patterns: by the tests of
//! operators and statements, and by the parse of the text without them.
#![tactic(auto)]

mod alone;
mod find;
mod guess;
mod needless;
mod patterns;
mod place;
mod rustc;
mod text;

pub use find::{may_go, may_go_alone, pairs, parens_of};
pub use needless::{Needless, Tried, find_needless, find_needless_among};
pub use place::{PairPlace, place_of};
pub use rustc::is_needed_by_rustc;
pub use text::text_without;
