//! The kinds of tokens and their numbers. Written by tools/grammar from arithmetic.grammar.

use syntax_kind::SyntaxKind;

/// The kinds, by their numbers. A finer kind of a number with a dot is that of the number.
#[rattlefmt::skip]
pub(crate) static KINDS: [SyntaxKind; 15] = [
    SyntaxKind::ERROR, SyntaxKind::ERROR, SyntaxKind::ERROR, SyntaxKind::IDENT, SyntaxKind::INT_NUMBER,
    SyntaxKind::LET_KW, SyntaxKind::L_PAREN, SyntaxKind::R_PAREN, SyntaxKind::COMMA, SyntaxKind::SEMICOLON,
    SyntaxKind::EQ, SyntaxKind::PLUS, SyntaxKind::MINUS, SyntaxKind::STAR, SyntaxKind::SLASH,
];

/// The numbers of the lexer's kinds, by `to_raw`; 0 for what the grammar does not know, and for trivia.
#[rattlefmt::skip]
pub(crate) static TOKENS: [u8; 117] = [
    0, 0, 0, 0, 2, 3, 0, 4, 0, 0, 0, 0, 0, 0, 9, 8, 6, 7, 0, 0, 0, 0, 0, 0, 0, 0, 0, 0, 0, 0, 0, 11, 13, 14, 0, 0, 0, 0,
    0, 0, 0, 0, 0, 10, 0, 0, 0, 0, 12, 0, 0, 0, 0, 0, 0, 0, 0, 0, 0, 0, 0, 0, 0, 0, 0, 0, 0, 0, 0, 0, 0, 0, 0, 0, 0, 0,
    0, 0, 0, 0, 0, 0, 0, 0, 0, 0, 0, 0, 0, 0, 5, 0, 0, 0, 0, 0, 0, 0, 0, 0, 0, 0, 0, 0, 0, 0, 0, 0, 0, 0, 0, 0, 0, 0, 0,
    0, 0,
];
