//! What is wrong with the content of a literal that is not raw.
ghost use Rattle.std.specs.Prelude.{◌≡◌};
ghost use Rattle.std.specs.Str.{chars};
ghost use Rattle.rust_lexer.specs.Contents.{is_plain_of, is_unit_of, problem_of, result_problem_of, unit_problem_of};

use crate::class::{Class, skip};
use crate::problem::Problem;
use literal_escape::{EscapeError, MixedUnit, Mode, unescape_unit};

/// Whether the content has no problem without a closer look: that of a string without escapes and
/// without characters that need one.
pub fn is_plain(mode: Mode, content: &str) -> bool
    ensures { result ≡ is_plain_of mode content.now }
{
    match mode {
        Mode::Char => false,
        Mode::Byte => false,
        Mode::Str => skip(Class::InString, content.as_bytes()).is_empty(),
        Mode::ByteStr => skip(Class::InBytes, content.as_bytes()).is_empty(),
        Mode::CStr => skip(Class::InBytes, content.as_bytes()).is_empty(),
    }
}

/// Whether it is the content of a character or a byte.
pub fn is_unit(mode: Mode) -> bool
    ensures { result ≡ is_unit_of mode }
{
    match mode {
        Mode::Char => true,
        Mode::Byte => true,
        _ => false,
    }
}

fn error_problem(mode: Mode, error: EscapeError) -> Option<Problem>
    ensures { result ≡ problem_of mode error }
{
    match error {
        EscapeError::LoneSlash => None,
        EscapeError::BareCarriageReturn => None,
        EscapeError::BareCarriageReturnInRawString => None,
        EscapeError::UnskippedWhitespaceWarning => None,
        EscapeError::MultipleSkippedLinesWarning => None,
        _ => Some(Problem::Content(mode, error)),
    }
}

/// The problem that a unit is, if it is one for the lexer.
pub fn result_problem(mode: Mode, unit: Result<MixedUnit, EscapeError>) -> Option<Problem>
    ensures { result ≡ result_problem_of mode unit }
{
    match unit {
        Ok(_) => None,
        Err(error) => error_problem(mode, error),
    }
}

/// What is wrong with the content of a character or a byte.
pub fn unit_problem(mode: Mode, content: &str) -> Option<Problem>
    ensures { result ≡ unit_problem_of mode content.now }
{
    result_problem(mode, unescape_unit(content, mode))
}
