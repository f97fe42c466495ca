//! White space of what is put into a tree: the level of a line, and nodes whose lines have a few
//! blanks more, or fewer.
//!
//! (Upstream: `syntax::ast::edit`.)
#![tactic(auto)]

pub mod laws;
mod level;
mod shift;

pub use level::IndentLevel;
pub use shift::{dedent, indent, reset_indent};
