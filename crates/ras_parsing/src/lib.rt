//! Parses: trees with the errors of their texts, made by a front end or from events, and their
//! edits. The type of a parse names the view that its root should be. (Upstream: `Parse`,
//! `SyntaxTreeBuilder`, `parsing` and `utils` of rust-analyzer's `syntax`.)
#![tactic(auto)]

mod build;
mod builder;
mod document;
mod edits;
mod error_list;
mod exact;
mod file;
mod merge;
mod ok_error;
mod ordered;
mod parse;
mod reparse;
mod retold;
mod sink;
pub mod utils;

pub use builder::SyntaxTreeBuilder;
pub use document::Document;
pub use file::FileView;
pub use ok_error::OkError;
pub use parse::{Parse, read};
