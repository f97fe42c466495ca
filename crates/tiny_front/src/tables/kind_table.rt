//! The kinds of tokens and their numbers. Written by tools/grammar from tiny.grammar.

use syntax_kind::SyntaxKind;

/// The kinds, by their numbers. A finer kind of a number with a dot is that of the number.
#[rattlefmt::skip]
pub(crate) static KINDS: [SyntaxKind; 69] = [
    SyntaxKind::ERROR, SyntaxKind::ERROR, SyntaxKind::ERROR, SyntaxKind::IDENT, SyntaxKind::INT_NUMBER,
    SyntaxKind::STRING, SyntaxKind::FN_KW, SyntaxKind::LET_KW, SyntaxKind::MUT_KW, SyntaxKind::TRUE_KW,
    SyntaxKind::FALSE_KW, SyntaxKind::AS_KW, SyntaxKind::AWAIT_KW, SyntaxKind::CRATE_KW, SyntaxKind::SELF_KW,
    SyntaxKind::SUPER_KW, SyntaxKind::SELF_TYPE_KW, SyntaxKind::L_PAREN, SyntaxKind::R_PAREN, SyntaxKind::L_CURLY,
    SyntaxKind::R_CURLY, SyntaxKind::L_BRACK, SyntaxKind::R_BRACK, SyntaxKind::COMMA, SyntaxKind::SEMICOLON,
    SyntaxKind::DOT, SyntaxKind::QUESTION, SyntaxKind::THIN_ARROW, SyntaxKind::DOT2, SyntaxKind::DOT2EQ, SyntaxKind::EQ,
    SyntaxKind::PLUSEQ, SyntaxKind::MINUSEQ, SyntaxKind::PIPEEQ, SyntaxKind::AMPEQ, SyntaxKind::CARETEQ,
    SyntaxKind::SLASHEQ, SyntaxKind::STAREQ, SyntaxKind::PERCENTEQ, SyntaxKind::SHLEQ, SyntaxKind::SHREQ,
    SyntaxKind::PIPE2, SyntaxKind::AMP2, SyntaxKind::EQ2, SyntaxKind::NEQ, SyntaxKind::L_ANGLE, SyntaxKind::R_ANGLE,
    SyntaxKind::LTEQ, SyntaxKind::GTEQ, SyntaxKind::PIPE, SyntaxKind::CARET, SyntaxKind::AMP, SyntaxKind::SHL,
    SyntaxKind::SHR, SyntaxKind::PLUS, SyntaxKind::MINUS, SyntaxKind::STAR, SyntaxKind::SLASH, SyntaxKind::PERCENT,
    SyntaxKind::BANG, SyntaxKind::COLON, SyntaxKind::COLON2, SyntaxKind::DOT3, SyntaxKind::FAT_ARROW, SyntaxKind::AT,
    SyntaxKind::POUND, SyntaxKind::DOLLAR, SyntaxKind::TILDE, SyntaxKind::UNDERSCORE,
];

/// The numbers of the lexer's kinds, by `to_raw`; 0 for what the grammar does not know, and for trivia.
#[rattlefmt::skip]
pub(crate) static TOKENS: [u8; 117] = [
    0, 0, 0, 0, 2, 3, 0, 4, 0, 0, 0, 5, 0, 0, 24, 23, 17, 18, 19, 20, 21, 22, 45, 46, 64, 65, 66, 67, 26, 51, 49, 54,
    56, 57, 50, 58, 68, 25, 28, 62, 29, 60, 61, 30, 43, 63, 59, 44, 55, 27, 47, 48, 31, 32, 33, 34, 35, 36, 37, 38, 42,
    41, 52, 53, 39, 40, 11, 0, 0, 12, 0, 0, 0, 0, 0, 0, 13, 0, 0, 0, 0, 0, 0, 10, 6, 0, 0, 0, 0, 0, 7, 0, 0, 0, 0, 0, 0,
    8, 0, 0, 0, 14, 16, 0, 0, 15, 0, 9, 0, 0, 0, 0, 0, 0, 0, 0, 0,
];
