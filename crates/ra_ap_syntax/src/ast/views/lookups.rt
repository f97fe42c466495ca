//! Lookups of children by their kinds, in the nodes of each kind. Made by `tools/views` from
//! `views.txt`.
mod attr;
mod control;
mod expr;
mod generic;
mod item;
mod part;
mod pat;
mod path;
mod stmt;
mod ty;
