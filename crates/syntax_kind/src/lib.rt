//! The kinds of nodes and tokens.
#![tactic(auto)]

mod language;
pub mod laws;
pub mod raw;
mod syntax_kind;

pub use language::{Language, RustLanguage};
pub use syntax_kind::{KINDS, NodeKind, SyntaxKind, TokenKind};
