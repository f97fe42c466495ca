//! Typed views of tokens, the values of their texts, and the kind of a literal by its token.
#![tactic(auto)]

pub mod laws;
mod literal_kind;
mod token_ext;
pub mod tokens;
mod typed;

pub use literal_kind::LiteralKind;
pub use token_ext::{AnyComment, AnyString, IsString};
pub use typed::TypedToken;
