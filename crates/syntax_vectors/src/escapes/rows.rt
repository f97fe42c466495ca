// Rows of the tables, with the values that they give.
mod tests {
    use crate::ensure::{ensure, ensure_text};
    use crate::escapes::calls::{
        byte_str_rows, byte_unit, c_str_rows, char_unit, shown, shown_unit, str_rows,
    };
    use literal_escape::{EscapeError, unescape_str};
    use std::alloc::Global;
    use std::test::Fail;

    // Contents of strings.
    const STRINGS: [(&str, &str); 46] = [
        ("", ""),
        ("\\\n    ", ""),
        ("abc\\\n", "0..1 61, 1..2 62, 2..3 63"),
        ("ab", "0..1 61, 1..2 62"),
        ("é", "0..2 e9"),
        ("€a", "0..3 20ac, 3..4 61"),
        ("😀\\n", "0..4 1f600, 4..6 a"),
        ("\\n\\r\\t", "0..2 a, 2..4 d, 4..6 9"),
        ("\\\\\\0\\'\\\"", "0..2 5c, 2..4 0, 4..6 27, 6..8 22"),
        (
            "\\x41\\x00\\x7F\\x7f",
            "0..4 41, 4..8 0, 8..12 7f, 12..16 7f",
        ),
        ("\\u{41}\\u{0}", "0..6 41, 6..11 0"),
        ("\\u{1_F6_00_}", "0..12 1f600"),
        (
            "\\u{10FFFF}\\u{d7ff}\\u{E000}",
            "0..10 10ffff, 10..18 d7ff, 18..26 e000",
        ),
        ("'\n\t", "0..1 27, 1..2 a, 2..3 9"),
        ("a\\", "0..1 61, 1..2 LoneSlash"),
        ("\\qa", "0..2 InvalidEscape, 2..3 61"),
        ("\\éa", "0..3 InvalidEscape, 3..4 61"),
        ("\\\ra", "0..2 InvalidEscape, 2..3 61"),
        ("a\rb", "0..1 61, 1..2 BareCarriageReturn, 2..3 62"),
        ("\r\n", "0..1 BareCarriageReturn, 1..2 a"),
        ("\"a", "0..1 EscapeOnlyChar, 1..2 61"),
        ("\\x", "0..2 TooShortHexEscape"),
        ("\\x4", "0..3 TooShortHexEscape"),
        ("\\xg1", "0..3 InvalidCharInHexEscape, 3..4 31"),
        ("\\x8g", "0..4 InvalidCharInHexEscape"),
        ("\\x8é", "0..5 InvalidCharInHexEscape"),
        ("\\x80", "0..4 OutOfRangeHexEscape"),
        ("\\xFFa", "0..4 OutOfRangeHexEscape, 4..5 61"),
        ("\\u", "0..2 NoBraceInUnicodeEscape"),
        ("\\u12", "0..3 NoBraceInUnicodeEscape, 3..4 32"),
        ("\\u{", "0..3 UnclosedUnicodeEscape"),
        ("\\u{12_", "0..6 UnclosedUnicodeEscape"),
        ("\\u{}a", "0..4 EmptyUnicodeEscape, 4..5 61"),
        (
            "a\\u{_1}b",
            "0..1 61, 1..5 LeadingUnderscoreUnicodeEscape, 5..6 31, 6..7 7d, 7..8 62",
        ),
        ("\\u{g}", "0..4 InvalidCharInUnicodeEscape, 4..5 7d"),
        ("\\u{1é}", "0..6 InvalidCharInUnicodeEscape, 6..7 7d"),
        ("\\u{1234567}", "0..11 OverlongUnicodeEscape"),
        ("\\u{0_000041}", "0..12 OverlongUnicodeEscape"),
        ("\\u{FFFFFFFFFFFFFFFFFF}", "0..22 OverlongUnicodeEscape"),
        (
            "\\u{D800}\\u{dfff}",
            "0..8 LoneSurrogateUnicodeEscape, 8..16 LoneSurrogateUnicodeEscape",
        ),
        ("\\u{110000}", "0..10 OutOfRangeUnicodeEscape"),
        ("a\\\n \t\rb", "0..1 61, 6..7 62"),
        (
            "a\\\n  \nb",
            "0..1 61, 1..6 MultipleSkippedLinesWarning, 6..7 62",
        ),
        ("\\\n\u{a0}", "0..4 UnskippedWhitespaceWarning, 2..4 a0"),
        (
            "\\\n\n\u{3000}\\",
            "0..3 MultipleSkippedLinesWarning, 0..6 UnskippedWhitespaceWarning, 3..6 3000, 6..7 LoneSlash",
        ),
        ("\\\n\\\n\n", "2..5 MultipleSkippedLinesWarning"),
    ];

    // Contents of byte strings, where they differ from strings.
    const BYTE_STRINGS: [(&str, &str); 13] = [
        ("", ""),
        ("\\r\\t\\\\\\x41", "0..2 d, 2..4 9, 4..6 5c, 6..10 41"),
        (
            "a\\n\\'\\\"\\0",
            "0..1 61, 1..3 a, 3..5 27, 5..7 22, 7..9 0",
        ),
        (
            "\\x00\\x7f\\x80\\xFF",
            "0..4 0, 4..8 7f, 8..12 80, 12..16 ff",
        ),
        ("é€", "0..2 NonAsciiCharInByte, 2..5 NonAsciiCharInByte"),
        ("😀a", "0..4 NonAsciiCharInByte, 4..5 61"),
        ("\\u{41}a", "0..6 UnicodeEscapeInByte, 6..7 61"),
        (
            "\\u{110000}\\u{D800}",
            "0..10 UnicodeEscapeInByte, 10..18 UnicodeEscapeInByte",
        ),
        ("\\u{1234567}", "0..11 OverlongUnicodeEscape"),
        (
            "\\u{}\\u{g",
            "0..4 EmptyUnicodeEscape, 4..8 InvalidCharInUnicodeEscape",
        ),
        (
            "\"\r'",
            "0..1 EscapeOnlyChar, 1..2 BareCarriageReturn, 2..3 27",
        ),
        ("\\\n    ", ""),
        (
            "\\\n\n\u{a0}",
            "0..3 MultipleSkippedLinesWarning, 0..5 UnskippedWhitespaceWarning, 3..5 NonAsciiCharInByte",
        ),
    ];

    // Contents of C strings, where they differ. A byte from 80 on is its number past 200000.
    const C_STRINGS: [(&str, &str); 10] = [
        ("", ""),
        (
            "\\r\\t\\\\\\x41\\u{41}",
            "0..2 d, 2..4 9, 4..6 5c, 6..10 41, 10..16 41",
        ),
        ("aé\\n\\'\\\"", "0..1 61, 1..3 e9, 3..5 a, 5..7 27, 7..9 22"),
        ("\\x7f\\x80\\xFF", "0..4 7f, 4..8 200080, 8..12 2000ff"),
        ("\\u{e9}é", "0..6 e9, 6..8 e9"),
        ("\\0a\\x00", "0..2 NulInCStr, 2..3 61, 3..7 NulInCStr"),
        ("\\u{0}\0", "0..5 NulInCStr, 5..6 NulInCStr"),
        ("\\u{0000000}", "0..11 OverlongUnicodeEscape"),
        (
            "\"\r\\q",
            "0..1 EscapeOnlyChar, 1..2 BareCarriageReturn, 2..4 InvalidEscape",
        ),
        ("\\\n    ", ""),
    ];

    // Contents of characters and bytes, with their results.
    const SINGLES: [(&str, &str, &str); 44] = [
        ("", "ZeroChars", "ZeroChars"),
        ("a", "61", "61"),
        ("é", "e9", "NonAsciiCharInByte"),
        ("€", "20ac", "NonAsciiCharInByte"),
        ("😀", "1f600", "NonAsciiCharInByte"),
        ("\"", "22", "22"),
        ("\\n", "a", "a"),
        ("\\r", "d", "d"),
        ("\\t", "9", "9"),
        ("\\\\", "5c", "5c"),
        ("\\0", "0", "0"),
        ("\\'", "27", "27"),
        ("\\\"", "22", "22"),
        ("\\x41", "41", "41"),
        ("\\x7f", "7f", "7f"),
        ("\\x80", "OutOfRangeHexEscape", "80"),
        ("\\xff", "OutOfRangeHexEscape", "ff"),
        ("\\u{41}", "41", "UnicodeEscapeInByte"),
        ("\\u{1_F6_00}", "1f600", "UnicodeEscapeInByte"),
        ("ab", "MoreThanOneChar", "MoreThanOneChar"),
        ("\\nb", "MoreThanOneChar", "MoreThanOneChar"),
        ("a\\q", "MoreThanOneChar", "MoreThanOneChar"),
        ("éa", "MoreThanOneChar", "NonAsciiCharInByte"),
        ("'", "EscapeOnlyChar", "EscapeOnlyChar"),
        ("\n", "EscapeOnlyChar", "EscapeOnlyChar"),
        ("\t", "EscapeOnlyChar", "EscapeOnlyChar"),
        ("'a", "EscapeOnlyChar", "EscapeOnlyChar"),
        ("\r", "BareCarriageReturn", "BareCarriageReturn"),
        ("\r\n", "BareCarriageReturn", "BareCarriageReturn"),
        ("\\", "LoneSlash", "LoneSlash"),
        ("\\q", "InvalidEscape", "InvalidEscape"),
        ("\\\n", "InvalidEscape", "InvalidEscape"),
        ("\\\r", "InvalidEscape", "InvalidEscape"),
        ("\\x4", "TooShortHexEscape", "TooShortHexEscape"),
        ("\\x4g", "InvalidCharInHexEscape", "InvalidCharInHexEscape"),
        ("\\u", "NoBraceInUnicodeEscape", "NoBraceInUnicodeEscape"),
        ("\\u{", "UnclosedUnicodeEscape", "UnclosedUnicodeEscape"),
        ("\\u{}", "EmptyUnicodeEscape", "EmptyUnicodeEscape"),
        (
            "\\u{_1}",
            "LeadingUnderscoreUnicodeEscape",
            "LeadingUnderscoreUnicodeEscape",
        ),
        (
            "\\u{1g}",
            "InvalidCharInUnicodeEscape",
            "InvalidCharInUnicodeEscape",
        ),
        (
            "\\u{1234567}",
            "OverlongUnicodeEscape",
            "OverlongUnicodeEscape",
        ),
        (
            "\\u{110000}",
            "OutOfRangeUnicodeEscape",
            "UnicodeEscapeInByte",
        ),
        (
            "\\u{D800}",
            "LoneSurrogateUnicodeEscape",
            "UnicodeEscapeInByte",
        ),
        ("\u{2028}", "2028", "NonAsciiCharInByte"),
    ];

    // The message of each fault, and whether it leaves no value.
    const MESSAGES: [(EscapeError, &str, bool); 23] = [
        (EscapeError::ZeroChars, "Literal must not be empty", true),
        (
            EscapeError::MoreThanOneChar,
            "Literal must be one character long",
            true,
        ),
        (
            EscapeError::LoneSlash,
            "Character must be escaped: `\\`",
            true,
        ),
        (EscapeError::InvalidEscape, "Invalid escape", true),
        (
            EscapeError::BareCarriageReturn,
            "Character must be escaped: `\r`",
            true,
        ),
        (
            EscapeError::BareCarriageReturnInRawString,
            "Character must be escaped: `\r`",
            true,
        ),
        (
            EscapeError::EscapeOnlyChar,
            "Escape character `\\` must be escaped itself",
            true,
        ),
        (
            EscapeError::TooShortHexEscape,
            "ASCII hex escape code must have exactly two digits",
            true,
        ),
        (
            EscapeError::InvalidCharInHexEscape,
            "ASCII hex escape code must contain only hex characters",
            true,
        ),
        (
            EscapeError::OutOfRangeHexEscape,
            "ASCII hex escape code must be at most 0x7F",
            true,
        ),
        (
            EscapeError::NoBraceInUnicodeEscape,
            "Missing `{` to begin the unicode escape",
            true,
        ),
        (
            EscapeError::InvalidCharInUnicodeEscape,
            "Unicode escape must contain only hex characters and underscores",
            true,
        ),
        (
            EscapeError::EmptyUnicodeEscape,
            "Unicode escape must not be empty",
            true,
        ),
        (
            EscapeError::UnclosedUnicodeEscape,
            "Missing `}` to terminate the unicode escape",
            true,
        ),
        (
            EscapeError::LeadingUnderscoreUnicodeEscape,
            "Unicode escape code must not begin with an underscore",
            true,
        ),
        (
            EscapeError::OverlongUnicodeEscape,
            "Unicode escape code must have at most 6 digits",
            true,
        ),
        (
            EscapeError::LoneSurrogateUnicodeEscape,
            "Unicode escape code must not be a surrogate",
            true,
        ),
        (
            EscapeError::OutOfRangeUnicodeEscape,
            "Unicode escape code must be at most 0x10FFFF",
            true,
        ),
        (
            EscapeError::UnicodeEscapeInByte,
            "Byte literals must not contain unicode escapes",
            true,
        ),
        (
            EscapeError::NonAsciiCharInByte,
            "Byte literals must not contain non-ASCII characters",
            true,
        ),
        (
            EscapeError::NulInCStr,
            "C strings literals must not contain null characters",
            true,
        ),
        (
            EscapeError::MultipleSkippedLinesWarning,
            "Multiple lines are skipped by this escape",
            false,
        ),
        (
            EscapeError::UnskippedWhitespaceWarning,
            "Whitespace after this escape is not skipped",
            false,
        ),
    ];

    fn string_is(alloc: Global, row: &(&'static str, &'static str)) -> Result<(), Fail> {
        let rows = str_rows(alloc, row.0)?;
        ensure_text(alloc, shown(alloc, &rows)?.as_str(), row.1)
    }

    #[test]
    fn strings(rt: HostRuntime) -> Result<(), Fail> {
        for row in &STRINGS {
            string_is(rt.alloc(), row)?;
        }
        Ok(())
    }

    fn byte_string_is(alloc: Global, row: &(&'static str, &'static str)) -> Result<(), Fail> {
        let rows = byte_str_rows(alloc, row.0)?;
        ensure_text(alloc, shown(alloc, &rows)?.as_str(), row.1)
    }

    #[test]
    fn byte_strings(rt: HostRuntime) -> Result<(), Fail> {
        for row in &BYTE_STRINGS {
            byte_string_is(rt.alloc(), row)?;
        }
        Ok(())
    }

    fn c_string_is(alloc: Global, row: &(&'static str, &'static str)) -> Result<(), Fail> {
        let rows = c_str_rows(alloc, row.0)?;
        ensure_text(alloc, shown(alloc, &rows)?.as_str(), row.1)
    }

    #[test]
    fn c_strings(rt: HostRuntime) -> Result<(), Fail> {
        for row in &C_STRINGS {
            c_string_is(rt.alloc(), row)?;
        }
        Ok(())
    }

    type Single = (&'static str, &'static str, &'static str);

    fn character_is(alloc: Global, row: &Single) -> Result<(), Fail> {
        let answer = shown_unit(alloc, char_unit(row.0))?;
        ensure_text(alloc, answer.as_str(), row.1)
    }

    fn byte_is(alloc: Global, row: &Single) -> Result<(), Fail> {
        let answer = shown_unit(alloc, byte_unit(row.0))?;
        ensure_text(alloc, answer.as_str(), row.2)
    }

    #[test]
    fn characters_and_bytes(rt: HostRuntime) -> Result<(), Fail> {
        for row in &SINGLES {
            character_is(rt.alloc(), row)?;
            byte_is(rt.alloc(), row)?;
        }
        Ok(())
    }

    #[test]
    fn a_callback_is_given_back(rt: HostRuntime) {
        let mut units = 0u32;
        let counts = unescape_str("a\\n", |_range, _unit| units = units.wrapping_add(1));
        unescape_str("\u{e9}\\q", counts);
        assert_eq!(rt; units, 4);
    }

    fn message_is(alloc: Global, row: &(EscapeError, &'static str, bool)) -> Result<(), Fail> {
        let message = format!(in alloc; "{}", row.0)?;
        ensure_text(alloc, message.as_str(), row.1)?;
        ensure(row.0.is_fatal() == row.2, row.1)
    }

    #[test]
    fn messages(rt: HostRuntime) -> Result<(), Fail> {
        for row in &MESSAGES {
            message_is(rt.alloc(), row)?;
        }
        Ok(())
    }
}
