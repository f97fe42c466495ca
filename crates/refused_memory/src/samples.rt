//! Trees for the calls.
use crate::asking::Stopped;
use ra_ap_syntax::{SyntaxKind, SyntaxNode, TreeBuilder};
use std::alloc::Global;

/// An event of a tree.
#[derive(Clone, Copy)]
pub enum Event {
    Enter(SyntaxKind),
    Token(SyntaxKind, &'static str),
    Exit,
}

use Event::{Enter, Exit, Token};
use SyntaxKind as K;

/// `1 + 1`
pub const SUM: [Event; 11] = [
    Enter(K::BIN_EXPR),
    Enter(K::LITERAL),
    Token(K::INT_NUMBER, "1"),
    Exit,
    Token(K::WHITESPACE, " "),
    Token(K::PLUS, "+"),
    Token(K::WHITESPACE, " "),
    Enter(K::LITERAL),
    Token(K::INT_NUMBER, "1"),
    Exit,
    Exit,
];

/// `"\x61bcde"`
pub const ESCAPED: [Event; 3] = [Enter(K::LITERAL), Token(K::STRING, "\"\\x61bcde\""), Exit];

/// `b"\x61bcde"`
pub const ESCAPED_BYTES: [Event; 3] = [
    Enter(K::LITERAL),
    Token(K::BYTE_STRING, "b\"\\x61bcde\""),
    Exit,
];

/// `c"\x61bcde"`
pub const ESCAPED_C: [Event; 3] = [
    Enter(K::LITERAL),
    Token(K::C_STRING, "c\"\\x61bcde\""),
    Exit,
];

/// `1_0.5f32`
pub const FLOAT: [Event; 3] = [Enter(K::LITERAL), Token(K::FLOAT_NUMBER, "1_0.5f32"), Exit];

/// `1_000u8`
pub const NUMBER: [Event; 3] = [Enter(K::LITERAL), Token(K::INT_NUMBER, "1_000u8"), Exit];

/// `cfg_attr` over the name `a` and over another `cfg_attr` over the name `b`.
pub const ATTRIBUTE: [Event; 13] = [
    Enter(K::CFG_ATTR_META),
    Enter(K::CFG_ATOM),
    Token(K::IDENT, "p"),
    Exit,
    Enter(K::PATH_META),
    Token(K::IDENT, "a"),
    Exit,
    Enter(K::CFG_ATTR_META),
    Enter(K::PATH_META),
    Token(K::IDENT, "b"),
    Exit,
    Exit,
    Exit,
];

/// `a..b` as a pattern of three.
pub const SLICE: [Event; 11] = [
    Enter(K::SLICE_PAT),
    Enter(K::IDENT_PAT),
    Token(K::IDENT, "a"),
    Exit,
    Enter(K::REST_PAT),
    Token(K::DOT2, ".."),
    Exit,
    Enter(K::IDENT_PAT),
    Token(K::IDENT, "b"),
    Exit,
    Exit,
];

/// The root of the tree of events.
pub fn built(alloc: Global, events: &[Event]) -> Result<SyntaxNode, Stopped> {
    let mut builder = TreeBuilder::new(alloc);
    for event in events {
        match *event {
            Enter(kind) => builder.start_node(kind)?,
            Token(kind, text) => builder.token(kind, text)?,
            Exit => builder.finish_node()?,
        }
    }
    Ok(builder.finish()?)
}
