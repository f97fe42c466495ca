//! Single signs.
ghost use Rattle.std.specs.Prelude.{◌≡◌};
ghost use Rattle.syntax_kind.specs.declared.syntax_kind.SyntaxKind.TheVariants.{Token};
ghost use Rattle.rust_lexer.specs.Signs.{sign_kind_of};

use syntax_kind::{SyntaxKind, TokenKind};

#[inline(always)]
fn sign_token(byte: u8) -> TokenKind
    ensures { Token result ≡ sign_kind_of byte }
{
    match byte {
        b';' => TokenKind::SEMICOLON,
        b',' => TokenKind::COMMA,
        b'.' => TokenKind::DOT,
        b'(' => TokenKind::L_PAREN,
        b')' => TokenKind::R_PAREN,
        b'{' => TokenKind::L_CURLY,
        b'}' => TokenKind::R_CURLY,
        b'[' => TokenKind::L_BRACK,
        b']' => TokenKind::R_BRACK,
        b'<' => TokenKind::L_ANGLE,
        b'>' => TokenKind::R_ANGLE,
        b'@' => TokenKind::AT,
        b'#' => TokenKind::POUND,
        b'$' => TokenKind::DOLLAR,
        b'~' => TokenKind::TILDE,
        b'?' => TokenKind::QUESTION,
        b'&' => TokenKind::AMP,
        b'|' => TokenKind::PIPE,
        b'+' => TokenKind::PLUS,
        b'*' => TokenKind::STAR,
        b'/' => TokenKind::SLASH,
        b'^' => TokenKind::CARET,
        b'%' => TokenKind::PERCENT,
        b':' => TokenKind::COLON,
        b'=' => TokenKind::EQ,
        b'!' => TokenKind::BANG,
        b'-' => TokenKind::MINUS,
        _ => TokenKind::ERROR,
    }
}

/// The kind of the sign that the byte is, or `ERROR` if it is not one.
#[inline(always)]
pub fn sign_kind(byte: u8) -> SyntaxKind
    ensures { result ≡ sign_kind_of byte }
{
    SyntaxKind::Token(sign_token(byte))
}
