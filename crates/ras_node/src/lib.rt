//! The traits of typed views of nodes and tokens, sets of kinds, and searches for the children of a
//! node by type or kind. No call takes memory, but for `AstNode::clone_subtree`.
#![tactic(auto)]

pub mod children;
mod either_token;
mod either_view;
pub mod node;
pub mod search;
pub mod sets;
pub mod support;
pub mod token;
pub mod token_children;

pub use children::AstChildren;
pub use node::{AstNode, cast_ref};
pub use search::{behind, first_node, first_node_before, first_other, first_token};
pub use sets::KindSet;
pub use token::AstToken;
pub use token_children::TokenChildren;
