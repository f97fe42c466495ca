//! Tokens.

use syntax_kind::SyntaxKind;
use text_size::TextSize;

/// A token: its kind and its length.
#[derive(Clone, Copy, Debug, PartialEq, Eq)]
pub struct Token {
    /// Its kind.
    pub kind: SyntaxKind,
    /// The length of its text, in bytes.
    pub len: TextSize,
}
