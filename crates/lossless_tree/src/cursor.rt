//! Cursors: places in a shared tree, and the walks from one to the next.

pub mod ancestors;
pub mod children;
pub mod descendants;
pub mod element;
pub mod node;
pub mod preorder;
mod print;
pub mod siblings;
pub mod text;
pub mod token;
pub mod token_at_offset;
mod tree_cursor;
