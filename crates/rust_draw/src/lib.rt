//! Trees and texts of Rust to look at: a tree as indented lines, JSON, nested lists or a page of
//! HTML, and a text with coloured tokens.
#![tactic(auto)]

pub mod highlight;
pub mod html;
mod literals;
pub mod page;
mod page_parts;
pub mod sides;
pub mod tree;
mod tree_json;
