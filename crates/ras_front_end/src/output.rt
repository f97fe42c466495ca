//! The output of a front end.

use crate::syntax_error::SyntaxError;
use syntax_kind::SyntaxKind;
use text_size::TextSize;

/// A step of a parse. The tokens cover the text, one after another.
#[derive(Drop)]
pub enum Step {
    /// Enters a node.
    Enter(SyntaxKind),
    /// A token of this many bytes, which follow the tokens before it.
    Token(SyntaxKind, TextSize),
    /// Leaves the node that was entered last and is still open.
    Exit,
    /// The parser's error at a position of the text, counted in bytes from its start. The message
    /// is in a box, so that a step has 16 bytes.
    Error(TextSize, Box<String>),
}

/// The result of parsing a text.
#[derive(Drop)]
pub struct Output {
    /// The nodes and tokens, in order, and between them the parser's errors.
    pub steps: Vec<Step>,
    /// The lexer's errors, each at the range of its token. They are stored after the parser's.
    pub errors: Vec<SyntaxError>,
}
