//! Characters, bytes and strings.
use crate::rows::all_hold;
use literal_escape::{EscapeError, Mode};
use ras_token_ext::{
    ValueError, byte_value, bytes_value, char_value, offset_down, quote_offsets, range_up,
    string_content, string_value,
};
use std::alloc::Global;
use std::borrow::{CowSlice, CowStr};
use std::test::Fail;
use text_size::{TextRange, TextSize};

const CHARACTERS: [(&str, Result<char, EscapeError>); 7] = [
    ("'a'", Ok('a')),
    ("'\\n", Ok('\n')),
    ("'\u{e9}'", Ok('\u{e9}')),
    ("'ab'", Err(EscapeError::MoreThanOneChar)),
    ("'", Err(EscapeError::ZeroChars)),
    ("a'", Err(EscapeError::ZeroChars)),
    ("", Err(EscapeError::ZeroChars)),
];

const BYTES: [(&str, Result<u8, EscapeError>); 4] = [
    ("b'a'", Ok(97)),
    ("b'\\xff'", Ok(255)),
    ("'a'", Err(EscapeError::ZeroChars)),
    ("b'\u{e9}'", Err(EscapeError::NonAsciiCharInByte)),
];

#[test]
fn characters(rt: HostRuntime) -> Result<(), Fail> {
    for (text, value) in CHARACTERS {
        assert!(rt; char_value(text) == value, "in {text}");
    }
    Ok(())
}

#[test]
fn bytes(rt: HostRuntime) -> Result<(), Fail> {
    for (text, value) in BYTES {
        assert!(rt; byte_value(text) == value, "in {text}");
    }
    Ok(())
}

const CONTENTS: [(&str, Option<&str>); 5] = [
    ("\"ab\"", Some("ab")),
    ("r#\"a\"b\"#", Some("a\"b")),
    ("\"\"", Some("")),
    ("\"", None),
    ("a", None),
];

#[test]
fn contents(rt: HostRuntime) -> Result<(), Fail> {
    for (text, content) in CONTENTS {
        assert!(rt; string_content(text) == content, "in {text}");
    }
    Ok(())
}

// The text of a value, after `=` where it is borrowed and `+` where it is not.
fn shown_value(alloc: Global, value: &CowStr<'_, Global>) -> Result<String, Fail> {
    Ok(match value {
        CowStr::Borrowed(text) => format!(in alloc; "={text}")?,
        CowStr::Owned(text) => format!(in alloc; "+{text}")?,
    })
}

// The value of a string; else the refusal.
fn shown(alloc: Global, text: &str) -> Result<String, Fail> {
    match string_value(alloc, text) {
        Ok(value) => shown_value(alloc, &value),
        Err(refusal) => Ok(format!(in alloc; "{refusal:?}")?),
    }
}

const STRINGS: [(&str, &str); 13] = [
    ("\"ab\"", "=ab"),
    ("\"\"", "="),
    ("\"a\\tb\"", "+a\tb"),
    (
        "\"C:\\\\Windows\\\\System32\\\\\"",
        "+C:\\Windows\\System32\\",
    ),
    ("\"abc\\\n\"", "+abc"),
    ("\"a\\\n  \nb\"", "+ab"),
    ("r\"a\\tb\"", "=a\\tb"),
    ("r#\"a\"b\"#", "=a\"b"),
    ("\"\\q\\x\"", "Escape(TooShortHexEscape)"),
    ("\"a\rb\"", "Escape(BareCarriageReturn)"),
    ("\"", "Escape(LoneSlash)"),
    ("", "Escape(LoneSlash)"),
    ("\"\u{e9}\\u{1F600}\"", "+\u{e9}\u{1F600}"),
];

fn is_shown(alloc: Global, row: &(&'static str, &'static str)) -> Result<bool, Fail> {
    Ok(shown(alloc, row.0)?.as_str() == row.1)
}

#[test]
fn values_of_strings(rt: HostRuntime) -> Result<(), Fail> {
    for row in &STRINGS {
        assert!(rt; is_shown(rt.alloc(), row)?, "in {}", row.0);
    }
    Ok(())
}

// The value is borrowed from its literal.
fn is_borrowed(value: Result<CowSlice<'_, u8, Global>, ValueError>, bytes: &[u8]) -> bool {
    match value {
        Ok(CowSlice::Borrowed(found)) => found == bytes,
        _ => false,
    }
}

// The value took memory.
fn is_owned(value: Result<CowSlice<'_, u8, Global>, ValueError>, bytes: &[u8]) -> bool {
    match value {
        Ok(CowSlice::Owned(found)) => found.as_slice() == bytes,
        _ => false,
    }
}

fn is_refused(value: Result<CowSlice<'_, u8, Global>, ValueError>, fault: EscapeError) -> bool {
    value.err() == Some(ValueError::Escape(fault))
}

// The value of a byte string.
fn in_bytes(alloc: Global, text: &str) -> Result<CowSlice<'_, u8, Global>, ValueError> {
    bytes_value(alloc, Mode::ByteStr, "br", text)
}

// The value of a C string.
fn in_c(alloc: Global, text: &str) -> Result<CowSlice<'_, u8, Global>, ValueError> {
    bytes_value(alloc, Mode::CStr, "cr", text)
}

#[test]
fn values_of_byte_strings(rt: HostRuntime) -> Result<(), Fail> {
    let alloc = rt.alloc();
    all_hold(&[
        ("plain", is_borrowed(in_bytes(alloc, "b\"ab\""), b"ab")),
        ("raw", is_borrowed(in_bytes(alloc, "br\"\\n\""), b"\\n")),
        (
            "escaped",
            is_owned(in_bytes(alloc, "b\"\\xffa\\\\\""), &[255, 97, 92]),
        ),
        (
            "unicode",
            is_refused(
                in_bytes(alloc, "b\"\\u{61}\""),
                EscapeError::UnicodeEscapeInByte,
            ),
        ),
    ])
}

#[test]
fn values_of_c_strings(rt: HostRuntime) -> Result<(), Fail> {
    let alloc = rt.alloc();
    all_hold(&[
        (
            "escaped",
            is_owned(in_c(alloc, "c\"\u{e9}\\xff\""), &[195, 169, 255]),
        ),
        (
            "nul",
            is_refused(in_c(alloc, "c\"\\0\""), EscapeError::NulInCStr),
        ),
    ])
}

#[test]
fn quotes_of_strings(rt: HostRuntime) -> Result<(), Fail> {
    let found = quote_offsets("\"ab\"", TextSize::new(4)).ok_or("no quotes")?;
    assert_eq!(rt;
        found.quotes.0,
        TextRange::new(TextSize::new(4), TextSize::new(5))
    );
    assert_eq!(rt;
        found.contents,
        TextRange::new(TextSize::new(5), TextSize::new(7))
    );
    assert_eq!(rt;
        found.quotes.1,
        TextRange::new(TextSize::new(7), TextSize::new(8))
    );
    let raw = quote_offsets("br#\"a\"\"#", TextSize::new(0)).ok_or("no quotes")?;
    assert_eq!(rt;
        raw.contents,
        TextRange::new(TextSize::new(4), TextSize::new(6))
    );
    assert_eq!(rt; quote_offsets("\"", TextSize::new(0)), None);
    assert_eq!(rt; quote_offsets("a", TextSize::new(0)), None);
    Ok(())
}

fn contents_at_5() -> TextRange {
    TextRange::new(TextSize::new(5), TextSize::new(7))
}

#[test]
fn ranges_up_from_contents(rt: HostRuntime) -> Result<(), Fail> {
    let contents = contents_at_5();
    let whole = TextRange::up_to(TextSize::new(2));
    let end = TextRange::empty(TextSize::new(2));
    let longer = TextRange::up_to(TextSize::new(3));
    let end_above = TextRange::empty(TextSize::new(7));
    assert!(rt; range_up(contents, whole) == Some(contents));
    assert!(rt; range_up(contents, end) == Some(end_above));
    assert!(rt; range_up(contents, longer).is_none());
    Ok(())
}

const OFFSETS: [(u32, Option<u32>); 3] = [(4, None), (5, Some(0)), (9, Some(4))];

#[test]
fn offsets_down_into_contents(rt: HostRuntime) -> Result<(), Fail> {
    for (above, below) in OFFSETS {
        let found = offset_down(contents_at_5(), TextSize::new(above));
        assert!(rt; found == below.map(TextSize::new), "at {above}");
    }
    Ok(())
}
