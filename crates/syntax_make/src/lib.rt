//! Nodes from text, from texts with nodes in them, and an expression in the place of another.
//!
//! Nothing here panics on a wrong text: a node is returned only where the text is exactly that
//! node, without errors, and has the nodes that were put into it. (Upstream: `syntax::ast::make`.)
#![tactic(auto)]

mod error;
mod from_parts;
mod from_text;
pub mod laws;
mod place;
mod replace;

pub use error::{MakeError, ReplaceExprError};
pub use from_parts::{Pairs, Piece, form, form_with};
pub use from_text::{node, node_in};
pub use place::{PLACES, Place, place_of};
pub use replace::{Replaced, in_pair, replace_expr};
