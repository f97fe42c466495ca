//! Plain nested trees for tests: read from words, converted to syntax trees, and searched by slow
//! recursion over the whole tree.
#![tactic(auto)]

mod plain_tree;
mod plain_walks;

pub use plain_tree::{PlainTree, SUM};
pub use plain_walks::{Among, before, behind};
