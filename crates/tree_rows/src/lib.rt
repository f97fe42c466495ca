//! The table of rows that holds a tree: one text, and one row for each place in preorder.
//!
//! Programs use the cursors of `lossless_tree`.
#![tactic(auto)]

mod builder_event;
mod finish;
mod kept;
mod kind_set;
pub mod laws;
mod row_builder;
mod row_kind;
mod rows;
mod shift;
mod table;

pub use builder_event::{BuilderEvent, TreeStep};
pub use finish::{build_rows, first_refusal};
pub use kept::Kept;
pub use kind_set::KindSet;
pub use row_builder::RowBuilder;
pub use row_kind::RowKind;
pub use table::{FlatRow, NotFlat, Table, WalkStep};
