//! The trait of lexers.
ghost use Rattle.std.specs.Prelude.{◌≡◌, IfOk};
ghost use Rattle.token_layout.specs.Answers.{LexerAnswers, LexerKeeps};

use crate::span::Token;
use ras_front_end::{Edition, SyntaxError};
use std::alloc::{AllocError, Global};
use syntax_kind::SyntaxKind;

/// The tokens of a text, and the errors in them.
#[derive(Drop)]
pub struct Lexed {
    /// The tokens, in order.
    pub tokens: Vec<Token>,
    /// The errors, each at the range of its token, in order.
    pub errors: Vec<SyntaxError>,
}

/// A lexer. Each result, except out of memory, is a function of the arguments.
///
/// An implementation proves the law `kept`: for a text of at most 4,294,967,295 bytes the tokens
/// cut the text on character boundaries, one after another, and the errors are in it.
pub trait Lexer {
    // The results, as functions of the arguments.
    ghost lexes: { Self → LexerAnswers };

    /// The tokens of a text, and the errors. The result is arbitrary if the text is longer than
    /// 4,294,967,295 bytes.
    fn lex(&self, alloc: Global, text: &str, edition: Edition) -> Result<Lexed, AllocError>
        ensures tokens { IfOk result
            (λ lexed. lexed.tokens.items ≡ (lexes self.now).tokens edition text.now) }
        ensures errors { IfOk result
            (λ lexed. lexed.errors.items ≡ (lexes self.now).errors edition text.now) };

    /// The kind of the keyword that the text is, or `None` if it is not one in the edition.
    fn keyword(&self, text: &str, edition: Edition) -> Option<SyntaxKind>
        ensures { result ≡ (lexes self.now).word edition text.now };

    /// Whether a kind is that of a strict keyword: a word that is an identifier only after `r#`.
    fn is_strict_keyword(&self, kind: SyntaxKind, edition: Edition) -> bool
        ensures { result ≡ (lexes self.now).is_strict edition kind };

    ghost kept: { (lexer : Self) → LexerKeeps (lexes lexer) };
}
