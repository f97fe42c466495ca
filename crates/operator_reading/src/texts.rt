//! Fixed texts.
ghost use Rattle.std.specs.Prelude.{◌≡◌};
ghost use Rattle.operator_terms.specs.Token.{fixed_text};
ghost use Rattle.operator_trees.specs.Shown.{text_fits};

use syntax_kind::{SyntaxKind, TokenKind};

/// The text that every token of the kind has, of the kinds that are in operator trees; empty for
/// all other kinds, and where texts differ, as those of names and numbers do.
#[tactic(auto, unfolding(operator_terms::specs::Token::fixed_text))]
pub fn fixed_text(kind: TokenKind) -> &'static str
    ensures { result.now ≡ fixed_text kind }
{
    match kind {
        TokenKind::TRUE_KW => "true",
        TokenKind::FALSE_KW => "false",
        TokenKind::L_PAREN => "(",
        TokenKind::R_PAREN => ")",
        TokenKind::L_BRACK => "[",
        TokenKind::R_BRACK => "]",
        TokenKind::COMMA => ",",
        TokenKind::DOT => ".",
        TokenKind::QUESTION => "?",
        TokenKind::AWAIT_KW => "await",
        TokenKind::MUT_KW => "mut",
        TokenKind::AS_KW => "as",
        TokenKind::BANG => "!",
        TokenKind::AMP => "&",
        TokenKind::PIPE => "|",
        TokenKind::PLUS => "+",
        TokenKind::STAR => "*",
        TokenKind::SLASH => "/",
        TokenKind::CARET => "^",
        TokenKind::PERCENT => "%",
        TokenKind::MINUS => "-",
        TokenKind::AMP2 => "&&",
        TokenKind::PIPE2 => "||",
        TokenKind::SHL => "<<",
        TokenKind::SHR => ">>",
        TokenKind::EQ2 => "==",
        TokenKind::NEQ => "!=",
        TokenKind::L_ANGLE => "<",
        TokenKind::R_ANGLE => ">",
        TokenKind::LTEQ => "<=",
        TokenKind::GTEQ => ">=",
        TokenKind::EQ => "=",
        TokenKind::PLUSEQ => "+=",
        TokenKind::MINUSEQ => "-=",
        TokenKind::PIPEEQ => "|=",
        TokenKind::AMPEQ => "&=",
        TokenKind::CARETEQ => "^=",
        TokenKind::SLASHEQ => "/=",
        TokenKind::STAREQ => "*=",
        TokenKind::PERCENTEQ => "%=",
        TokenKind::SHLEQ => "<<=",
        TokenKind::SHREQ => ">>=",
        TokenKind::DOT2 => "..",
        TokenKind::DOT2EQ => "..=",
        _ => "",
    }
}

/// Whether a token of this kind can have this text.
pub fn text_fits(kind: SyntaxKind, text: &str) -> bool
    ensures { result ≡ text_fits kind text.now }
{
    match kind {
        SyntaxKind::Token(token) => {
            let fixed = fixed_text(token);
            !text.is_empty() && (fixed.is_empty() || text == fixed)
        }
        _ => false,
    }
}
