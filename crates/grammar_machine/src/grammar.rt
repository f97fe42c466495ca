//! What a grammar is made of, and how the machine sees the tokens.
//!
//! Kinds of tokens are small numbers here, so that a set of them is a row of 256 bits: 0 is no
//! kind, and 1 is the kind of what follows the last token.

use crate::event::Part;
use syntax_kind::SyntaxKind;

/// A token that is not trivia, as the machine sees it: numbers of kinds, 0 for none.
///
/// Punctuation comes as single signs. `two` and `three` are the kinds that this sign forms with the
/// next one or two, with nothing between.
#[derive(Clone, Copy, Debug, PartialEq, Eq)]
pub struct Sight {
    /// The token's own kind.
    pub one: u8,
    /// The kind of what this token and the next make together.
    pub two: u8,
    /// The kind of what this token and the next two make together.
    pub three: u8,
    /// A finer kind: the contextual keyword that an identifier spells, or the shape of a number
    /// with a dot.
    pub word: u8,
}

/// One of the four ways to see a token.
#[derive(Clone, Copy, Debug, PartialEq, Eq)]
pub enum View {
    /// By its own kind.
    One,
    /// Together with the next token.
    Two,
    /// Together with the next two tokens.
    Three,
    /// By its finer kind.
    Word,
}

/// What a rule may test besides the kind of the next token.
///
/// A look ahead does not go over a brace: if one of the tokens before the one that is asked for is
/// a brace, no kind is seen.
#[derive(Clone, Copy, Debug, PartialEq, Eq)]
pub enum Test {
    /// Whether the token `ahead` tokens ahead has this kind in that view.
    Sees { view: View, ahead: u8, kind: u8 },
    /// Whether the token `ahead` tokens ahead is in the set.
    In { ahead: u8, set: u8 },
    /// Whether the token `ahead` tokens ahead is in the set by its finer kind.
    WordIn { ahead: u8, set: u8 },
    /// Whether the token that was taken last has this kind.
    After { kind: u8 },
    /// Whether one of these flags is set.
    Flag { mask: u8 },
    /// Whether this was the last answer.
    Answered { answer: u8 },
}

/// The level that a called rule gets: how tightly an operator has to bind to belong to it.
#[derive(Clone, Copy, Debug, PartialEq, Eq)]
pub enum Level {
    /// This level.
    Own { level: u8 },
    /// The caller's level.
    Same,
    /// The level that the last operator gives its right operand.
    Operand,
}

/// One operation. A target is the number of an operation, and so is a rule: that of its first one.
///
/// Unless stated otherwise, the machine continues with the next operation.
#[derive(Clone, Copy, Debug, PartialEq, Eq)]
pub enum Op {
    /// Goes to the target if the next token has this kind.
    IfKind {
        kind: u8,
        target: u16,
    },
    /// Goes to the target if the next token has another kind.
    UnlessKind {
        kind: u8,
        target: u16,
    },
    /// Goes to the target if the next token is in the set.
    IfIn {
        set: u8,
        target: u16,
    },
    /// Goes to the target if the next token is not in the set.
    UnlessIn {
        set: u8,
        target: u16,
    },
    /// Goes to the target if the test holds.
    If {
        test: Test,
        target: u16,
    },
    /// Goes to the target if the test does not hold.
    Unless {
        test: Test,
        target: u16,
    },
    /// Goes to the target at the index of the next token's kind in the row of targets that begins
    /// at `row`.
    Switch {
        row: u16,
    },
    /// Goes to the target.
    Jump {
        target: u16,
    },
    /// Takes the next token, if there is one.
    Take,
    /// Takes the next token by its kind in the view, and with it those that it is seen together
    /// with; by itself, if there are none.
    TakeAs {
        view: View,
    },
    /// Takes the longest operator that begins at the next token.
    TakeOperator,
    /// Takes the next token if it has this kind, otherwise makes the error of this number.
    Expect {
        kind: u8,
        message: u16,
    },
    /// Takes a part of the next token, if it has a finer kind; with the last part the token is
    /// taken completely.
    Piece {
        part: Part,
        last: bool,
    },
    /// Begins a node: marks where it starts.
    Open,
    /// Forgets the last mark.
    Drop,
    /// Makes a node of all since the last mark, and keeps the mark.
    Wrap {
        kind: SyntaxKind,
    },
    /// Makes a node of all since the last mark, and forgets the mark.
    Close {
        kind: SyntaxKind,
    },
    /// Takes the next token, if there is one, and makes a node of it alone.
    Leaf {
        kind: SyntaxKind,
    },
    /// Has the node that ended just now start at the last mark, if that is earlier and no sealed
    /// call made the node.
    Extend,
    /// Makes the error of this number.
    Error {
        message: u16,
    },
    /// Calls a rule, at level 0 and with no flags.
    Call {
        target: u16,
    },
    /// Calls a rule as `Call` does, and marks a node's start.
    Enter {
        target: u16,
    },
    /// Calls a rule with a level, with those of the flags that are kept, and with further ones.
    CallWith {
        target: u16,
        level: Level,
        keep: u8,
        add: u8,
    },
    /// A sealed call: takes the next token, if there is one, and calls a rule as if the text began
    /// with that token. When the rule returns, all that was taken since is a node of this kind.
    ///
    /// The rule sees no level, flag, answer, mark or call from before the token, and leaves none
    /// behind.
    Sealed {
        target: u16,
        kind: SyntaxKind,
    },
    /// A tail call: calls a rule as `CallWith` does; that rule then returns to this rule's caller.
    Become {
        target: u16,
        level: Level,
        keep: u8,
        add: u8,
    },
    /// Returns after the last call, with the level and the flags from before it. With no call to
    /// return from the machine stops.
    Return,
    /// Forgets the last mark, and returns.
    Leave,
    /// Answers, and returns.
    Reply {
        answer: u8,
    },
    /// Answers without returning. A test may read the answer until the next one.
    Answer {
        answer: u8,
    },
    /// Keeps these flags, and sets further ones.
    Flags {
        keep: u8,
        add: u8,
    },
    /// Goes to the target unless an operator of at least the rule's level begins at the next token.
    /// If one does, the level of its right operand is noted.
    Operator {
        target: u16,
    },
}

/// How tightly an operator binds.
#[derive(Clone, Copy, Debug, PartialEq, Eq)]
pub struct Power {
    /// Its level. At 0 it is not an operator, and it only hides the shorter one that it begins
    /// with, as `=>` hides `=`.
    pub level: u8,
    /// The level of its right operand.
    pub right: u8,
}

/// A grammar as data.
#[derive(Clone, Copy, Debug)]
pub struct Grammar<'a> {
    /// The operations.
    pub ops: &'a [Op],
    /// The sets of kinds, four words of 64 bits each. The bit of kind k of set s is bit k % 64 of
    /// word 4 s + k / 64.
    pub sets: &'a [u64],
    /// The rows of targets for `Switch`, one after the other.
    pub rows: &'a [u16],
    /// How the operators bind, by the number of the kind.
    pub powers: &'a [Option<Power>],
    /// The kinds, by their numbers.
    pub kinds: &'a [SyntaxKind],
    /// The kinds of the nodes that sealed calls make, which `Extend` leaves as they are.
    pub sealed: &'a [SyntaxKind],
    /// The number of the kind of an opening brace, or 0. No look ahead goes over a brace.
    pub opening: u8,
    /// The number of the kind of a closing brace, or 0.
    pub closing: u8,
}
