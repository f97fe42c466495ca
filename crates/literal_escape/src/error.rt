// What can be wrong with a unit.
ghost use Rattle.std.specs.Prelude.{◌≡◌, Some, not};
ghost use Rattle.literal_escape.specs.Literal.{is_warning};
ghost use Rattle.literal_escape.specs.Messages.{message_of};

use std::error::Error;
use std::fmt;

/// An error or a warning at a unit of a literal.
///
/// It prints as the message of a diagnostic. Two messages quote a raw carriage return (byte 0D).
#[derive(Clone, Copy, Debug, PartialEq, Eq)]
pub enum EscapeError {
    /// A character or byte literal without content.
    ZeroChars,
    /// Something follows the one good unit of a character or byte literal.
    MoreThanOneChar,
    /// A backslash at the content's end.
    LoneSlash,
    /// A backslash before a character that begins no escape.
    InvalidEscape,
    /// A bare carriage return, also before a newline.
    BareCarriageReturn,
    /// A carriage return in a raw string. No call of this crate returns it.
    BareCarriageReturnInRawString,
    /// A character that must be escaped in this literal: `"` in the strings; `'`, newline and
    /// tab in a character or byte.
    EscapeOnlyChar,
    /// The content ends before the second digit of `\x`.
    TooShortHexEscape,
    /// Another character than a hexadecimal digit after `\x`.
    InvalidCharInHexEscape,
    /// A value over 7F in a character or string.
    OutOfRangeHexEscape,
    /// No `{` after `\u`.
    NoBraceInUnicodeEscape,
    /// Another character than a hexadecimal digit or an underscore within the braces.
    InvalidCharInUnicodeEscape,
    /// Nothing within the braces.
    EmptyUnicodeEscape,
    /// The content ends before the closing brace.
    UnclosedUnicodeEscape,
    /// An underscore before the first digit.
    LeadingUnderscoreUnicodeEscape,
    /// More than six digits.
    OverlongUnicodeEscape,
    /// A value from D800 to DFFF.
    LoneSurrogateUnicodeEscape,
    /// A value over 10FFFF.
    OutOfRangeUnicodeEscape,
    /// `\u{..}` in a byte or byte string.
    UnicodeEscapeInByte,
    /// A character past ASCII in a byte or byte string.
    NonAsciiCharInByte,
    /// The character 0 in a C string, however it is written.
    NulInCStr,
    /// A warning: a continuation skips a second newline.
    MultipleSkippedLinesWarning,
    /// A warning: white space that is not skipped follows a continuation.
    UnskippedWhitespaceWarning,
}

impl EscapeError {
    /// Whether the literal has no value: false for the two warnings alone.
    pub fn is_fatal(&self) -> bool
        ensures { result ≡ not (is_warning self.now) }
    {
        !matches!(
            self,
            EscapeError::MultipleSkippedLinesWarning | EscapeError::UnskippedWhitespaceWarning
        )
    }

    /// The message of a diagnostic. Two messages quote a raw carriage return (byte 0D).
    pub fn message(self) -> &'static str
        ensures { result.now ≡ message_of self }
    {
        match self {
            EscapeError::ZeroChars => "Literal must not be empty",
            EscapeError::MoreThanOneChar => "Literal must be one character long",
            EscapeError::LoneSlash => "Character must be escaped: `\\`",
            EscapeError::InvalidEscape => "Invalid escape",
            EscapeError::BareCarriageReturn => "Character must be escaped: `\r`",
            EscapeError::BareCarriageReturnInRawString => "Character must be escaped: `\r`",
            EscapeError::EscapeOnlyChar => "Escape character `\\` must be escaped itself",
            EscapeError::TooShortHexEscape => "ASCII hex escape code must have exactly two digits",
            EscapeError::InvalidCharInHexEscape =>
                "ASCII hex escape code must contain only hex characters",
            EscapeError::OutOfRangeHexEscape => "ASCII hex escape code must be at most 0x7F",
            EscapeError::NoBraceInUnicodeEscape => "Missing `{` to begin the unicode escape",
            EscapeError::InvalidCharInUnicodeEscape =>
                "Unicode escape must contain only hex characters and underscores",
            EscapeError::EmptyUnicodeEscape => "Unicode escape must not be empty",
            EscapeError::UnclosedUnicodeEscape => "Missing `}` to terminate the unicode escape",
            EscapeError::LeadingUnderscoreUnicodeEscape =>
                "Unicode escape code must not begin with an underscore",
            EscapeError::OverlongUnicodeEscape => "Unicode escape code must have at most 6 digits",
            EscapeError::LoneSurrogateUnicodeEscape =>
                "Unicode escape code must not be a surrogate",
            EscapeError::OutOfRangeUnicodeEscape => "Unicode escape code must be at most 0x10FFFF",
            EscapeError::UnicodeEscapeInByte => "Byte literals must not contain unicode escapes",
            EscapeError::NonAsciiCharInByte =>
                "Byte literals must not contain non-ASCII characters",
            EscapeError::NulInCStr => "C strings literals must not contain null characters",
            EscapeError::MultipleSkippedLinesWarning => "Multiple lines are skipped by this escape",
            EscapeError::UnskippedWhitespaceWarning =>
                "Whitespace after this escape is not skipped",
        }
    }
}

impl fmt::Display for EscapeError {
    ghost output = { λ e. Some (message_of e) };

    fn fmt<W: fmt::Write>(&self, f: &mut fmt::Formatter<W>) -> fmt::Result {
        let text = self.message();
        write!(f, "{text}")
    }
}

impl Error for EscapeError {}
