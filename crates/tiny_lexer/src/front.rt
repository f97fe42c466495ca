//! The lexer of a front end.
ghost use Rattle.std.specs.Prelude.{◌≡◌, IfOk, map, string_bytes};
ghost use Rattle.tiny_lexer.specs.Reports.{problem_bytes, error_of};

use crate::keywords::{is_strict_keyword, keyword};
use crate::lexer::{Complaint, lex};
use crate::scan::Problem;
use ras_front_end::{Edition, SyntaxError};
use std::alloc::{AllocError, Global};
use syntax_kind::SyntaxKind;
use token_layout::{Lexed, Lexer};

fn problem_text(problem: Problem) -> &'static str
    ensures { result.now ≡ problem_bytes problem }
{
    match problem {
        Problem::UnterminatedComment => "unterminated comment",
        Problem::UnterminatedString => "unterminated string",
        Problem::UnexpectedCharacter => "unexpected character",
    }
}

fn error(alloc: Global, complaint: Complaint) -> Result<SyntaxError, AllocError>
    ensures { IfOk result (λ e. e ≡ error_of complaint) }
{
    let message = String::from_str(alloc, problem_text(complaint.problem))?;
    Ok(SyntaxError::new(message, complaint.range))
}

fn errors(alloc: Global, complaints: &[Complaint]) -> Result<Vec<SyntaxError>, AllocError>
    ensures { IfOk result (λ v. v.items ≡ map error_of complaints.now) }
{
    let mut errors = Vec::new(alloc);
    for complaint in complaints {
        errors.push(error(alloc, *complaint)?)?;
    }
    Ok(errors)
}

/// The lexer of the small front end.
///
/// Its tokens cut every text of at most 4,294,967,295 bytes: each byte is in one of them, in order.
/// Block comments don't nest. It takes time linear in the text.
#[derive(Clone, Copy, Debug, Drop)]
pub struct TinyLexer;

impl Lexer for TinyLexer {
    ghost use Rattle.tiny_lexer.specs.Front.{tiny_lexer};
    ghost use Rattle.tiny_lexer.specs.Laws.{tiny_kept};

    ghost lexes = { λ _. tiny_lexer };

    ghost kept = { λ _. tiny_kept };

    fn lex(&self, alloc: Global, text: &str, edition: Edition) -> Result<Lexed, AllocError> {
        let lexed = lex(alloc, text, edition)?;
        let errors = errors(alloc, &lexed.complaints)?;
        Ok(Lexed {
            tokens: lexed.tokens,
            errors,
        })
    }

    fn keyword(&self, text: &str, edition: Edition) -> Option<SyntaxKind> {
        keyword(text, edition)
    }

    fn is_strict_keyword(&self, kind: SyntaxKind, edition: Edition) -> bool {
        is_strict_keyword(kind, edition)
    }
}
