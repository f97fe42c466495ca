//! The tokens of a text, as a lexer cuts it, and the trait of lexers.
#![tactic(auto)]

mod balanced;
mod lexer;
mod span;

pub use balanced::is_balanced;
pub use lexer::{Lexed, Lexer};
pub use span::Token;
