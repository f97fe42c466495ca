//! The output of the machine: a flat list of events, from which a tree can be laid out in one pass.

use syntax_kind::SyntaxKind;

/// A part of a number with a dot, as the `1.2` of `pair.1.2`.
#[derive(Clone, Copy, Debug, PartialEq, Eq)]
pub enum Part {
    /// The digits before the dot.
    Whole,
    /// The dot.
    Dot,
    /// The digits after the dot.
    Fraction,
}

/// One event of the machine's output.
#[derive(Clone, Copy, Debug, PartialEq, Eq)]
pub enum Event {
    /// A token of this kind, joined from the next `signs` tokens that are not trivia (1 to 3).
    Token { kind: SyntaxKind, signs: u8 },
    /// A part of the next token that is not trivia: a number with a dot. `last`: the token is done
    /// with it.
    Piece { part: Part, last: bool },
    /// A node over all events from number `from` on (saturates at `u32::MAX`).
    Node { kind: SyntaxKind, from: u32 },
    /// The parser's error of this number, before the next token.
    Error { message: u16 },
}
