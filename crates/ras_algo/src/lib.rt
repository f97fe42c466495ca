//! Searches in syntax trees, and pointers to nodes that remember what the node is viewed as.
#![tactic(auto)]

pub mod algo;
pub mod laws;
pub mod ptr;
