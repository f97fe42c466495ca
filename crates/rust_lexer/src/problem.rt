//! What may be wrong with a token.
ghost use Rattle.std.specs.Prelude.{◌≡◌};
ghost use Rattle.rust_lexer.specs.Messages.{content_message_of, unknown_escape_of, unescaped_of, beyond_ascii_of, message_front_of, message_back_of};

use literal_escape::{EscapeError, Mode};

/// What is wrong with a token.
#[derive(Clone, Copy, Debug, PartialEq, Eq)]
pub enum Problem {
    /// A block comment without its closing `*/`.
    UnterminatedBlockComment,
    /// A name with an emoji.
    InvalidIdent,
    /// `#"` or `##` from 2024 on.
    ReservedGuard,
    /// A lifetime that begins with a digit.
    NumberedLifetime,
    /// A lifetime before a `#`.
    LifetimePrefix,
    /// A name right before a quote or a `#`.
    UnknownPrefix,
    /// The same after a string that perhaps ends too late: one of the five tokens before it is a
    /// string with a `(` in it, and with `//` or a `;` before a newline.
    UnknownPrefixBehindString,
    /// `0x`, `0b` or `0o` without a digit.
    NoDigits,
    /// An exponent without a digit.
    NoExponentDigits,
    /// A character without its closing quote.
    UnterminatedChar,
    /// A byte without its closing quote.
    UnterminatedByte,
    /// A string without its closing quote.
    UnterminatedString,
    /// A byte string without its closing quote.
    UnterminatedByteString,
    /// A C string without its closing quote.
    UnterminatedCString,
    /// A raw string without its opening or closing quote, or with more than 255 `#`.
    InvalidRawString,
    /// What is wrong with an escape or a character in a literal that is not raw.
    Content(Mode, EscapeError),
}

fn content_message(mode: Mode, error: EscapeError) -> &'static str
    ensures { result.now ≡ content_message_of mode error }
{
    match error {
        EscapeError::ZeroChars => "empty character literal",
        EscapeError::MoreThanOneChar => "character literal may only contain one codepoint",
        EscapeError::InvalidEscape => unknown_escape(mode),
        EscapeError::EscapeOnlyChar => unescaped(mode),
        EscapeError::TooShortHexEscape => "numeric character escape is too short",
        EscapeError::InvalidCharInHexEscape => "invalid character in numeric character escape",
        EscapeError::OutOfRangeHexEscape => "out of range hex escape",
        EscapeError::NoBraceInUnicodeEscape => "incorrect unicode escape sequence",
        EscapeError::InvalidCharInUnicodeEscape => "invalid character in unicode escape",
        EscapeError::EmptyUnicodeEscape => "empty unicode escape",
        EscapeError::UnclosedUnicodeEscape => "unterminated unicode escape",
        EscapeError::LeadingUnderscoreUnicodeEscape => "invalid start of unicode escape",
        EscapeError::OverlongUnicodeEscape => "overlong unicode escape",
        EscapeError::LoneSurrogateUnicodeEscape => "invalid unicode character escape",
        EscapeError::OutOfRangeUnicodeEscape => "invalid unicode character escape",
        EscapeError::UnicodeEscapeInByte => "unicode escape in byte string",
        EscapeError::NonAsciiCharInByte => beyond_ascii(mode),
        EscapeError::NulInCStr => "null character in C string literal",
        EscapeError::LoneSlash => "",
        EscapeError::BareCarriageReturn => "",
        EscapeError::BareCarriageReturnInRawString => "",
        EscapeError::MultipleSkippedLinesWarning => "",
        EscapeError::UnskippedWhitespaceWarning => "",
    }
}

fn unknown_escape(mode: Mode) -> &'static str
    ensures { result.now ≡ unknown_escape_of mode }
{
    match mode {
        Mode::Byte => "unknown byte escape",
        Mode::ByteStr => "unknown byte escape",
        _ => "unknown character escape",
    }
}

fn unescaped(mode: Mode) -> &'static str
    ensures { result.now ≡ unescaped_of mode }
{
    match mode {
        Mode::Byte => "byte constant must be escaped",
        _ => "character constant must be escaped",
    }
}

fn beyond_ascii(mode: Mode) -> &'static str
    ensures { result.now ≡ beyond_ascii_of mode }
{
    match mode {
        Mode::Byte => "non-ASCII character in byte literal",
        _ => "non-ASCII character in byte string literal",
    }
}

fn message_front(problem: Problem) -> &'static str
    ensures { result.now ≡ message_front_of problem }
{
    match problem {
        Problem::UnterminatedBlockComment => {
            "Missing trailing `*/` symbols to terminate the block comment"
        }
        Problem::InvalidIdent => "Ident contains invalid characters",
        Problem::ReservedGuard => "Invalid string literal (reserved syntax)",
        Problem::NumberedLifetime => "Lifetime name cannot start with a number",
        Problem::LifetimePrefix => "Unknown lifetime prefix",
        Problem::UnknownPrefix => "unknown literal prefix",
        Problem::UnknownPrefixBehindString => "unknown literal prefix `",
        Problem::NoDigits => "Missing digits after the integer base prefix",
        Problem::NoExponentDigits => "Missing digits after the exponent symbol",
        Problem::UnterminatedChar => {
            "Missing trailing `'` symbol to terminate the character literal"
        }
        Problem::UnterminatedByte => "Missing trailing `'` symbol to terminate the byte literal",
        Problem::UnterminatedString => {
            "Missing trailing `\"` symbol to terminate the string literal"
        }
        Problem::UnterminatedByteString => {
            "Missing trailing `\"` symbol to terminate the byte string literal"
        }
        Problem::UnterminatedCString => {
            "Missing trailing `\"` symbol to terminate the C string literal"
        }
        Problem::InvalidRawString => "Invalid raw string literal",
        Problem::Content(mode, error) => content_message(mode, error),
    }
}

fn message_back(problem: Problem) -> &'static str
    ensures { result.now ≡ message_back_of problem }
{
    match problem {
        Problem::UnknownPrefixBehindString => "` (note: check for unterminated string literal)",
        _ => "",
    }
}

impl Problem {
    /// The message, in two parts: if the second is not empty, the token's text is inserted between
    /// them.
    pub fn message(self) -> (&'static str, &'static str)
        ensures front { result.0.now ≡ message_front_of self }
        ensures back { result.1.now ≡ message_back_of self }
    {
        (message_front(self), message_back(self))
    }
}
