//! The kind of a literal, by its token.
ghost use Rattle.std.specs.Prelude.{◌≡◌, option_map};
ghost use Rattle.ras_node.specs.Nodes.{kind_at};
ghost use Rattle.ras_tokens.specs.LiteralShapes.{literal_shape, literal_by};

use crate::tokens;
use crate::typed::TypedToken;
use lossless_tree::{SyntaxKind, SyntaxToken};
use std::hash::Hash;

/// The kind of a literal, with its token.
#[derive(Clone, PartialEq, Eq, Hash, Drop)]
pub enum LiteralKind {
    String(tokens::String),
    ByteString(tokens::ByteString),
    CString(tokens::CString),
    IntNumber(tokens::IntNumber),
    FloatNumber(tokens::FloatNumber),
    Char(tokens::Char),
    Byte(tokens::Byte),
    Bool(bool),
}

impl LiteralKind {
    /// The kind of literal that a token is, or `None` if its kind is not that of a literal.
    pub fn of_token(syntax: SyntaxToken) -> Option<LiteralKind>
        ensures { option_map literal_shape result ≡ literal_by (kind_at syntax) syntax }
    {
        match syntax.kind() {
            SyntaxKind::STRING => Some(LiteralKind::String(TypedToken { syntax })),
            SyntaxKind::BYTE_STRING => Some(LiteralKind::ByteString(TypedToken { syntax })),
            SyntaxKind::C_STRING => Some(LiteralKind::CString(TypedToken { syntax })),
            SyntaxKind::INT_NUMBER => Some(LiteralKind::IntNumber(TypedToken { syntax })),
            SyntaxKind::FLOAT_NUMBER => Some(LiteralKind::FloatNumber(TypedToken { syntax })),
            SyntaxKind::CHAR => Some(LiteralKind::Char(TypedToken { syntax })),
            SyntaxKind::BYTE => Some(LiteralKind::Byte(TypedToken { syntax })),
            SyntaxKind::TRUE_KW => Some(LiteralKind::Bool(true)),
            SyntaxKind::FALSE_KW => Some(LiteralKind::Bool(false)),
            _ => None,
        }
    }
}
