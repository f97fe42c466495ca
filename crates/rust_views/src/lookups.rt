//! Lookups of children by their kinds. Made by `tools/views` from `views.txt`.
pub mod asm;
pub mod expr;
pub mod item;
pub mod pat;
pub mod path;
