//! The values of strings, characters and bytes.
use super::typed;
use ra_ap_syntax::unescape::EscapeError;
use ra_ap_syntax::{SyntaxKind, ast};
use std::alloc::Global;
use std::borrow::{CowSlice, CowStr};
use std::test::Fail;

// The text of a value, after `=` where it is borrowed and `+` where it is not; else the refusal.
fn shown(alloc: Global, kind: SyntaxKind, text: &str) -> Result<String, Fail> {
    let string: ast::AnyString = typed(alloc, kind, text)?;
    Ok(match string.value(alloc) {
        Ok(CowStr::Borrowed(value)) => format!(in alloc; "={value}")?,
        Ok(CowStr::Owned(value)) => format!(in alloc; "+{value}")?,
        Err(refusal) => format!(in alloc; "{refusal:?}")?,
    })
}

const STRINGS: [(&str, &str); 10] = [
    ("\"ab\"", "=ab"),
    ("\"\\x61bcde\"", "+abcde"),
    ("\"\\foobar\"", "Escape(InvalidEscape)"),
    ("\"\\\n    \"", "+"),
    ("\"abc\\\n\"", "+abc"),
    ("\"a\\\n  \nb\"", "+ab"),
    (
        "\"C:\\\\Windows\\\\System32\\\\\"",
        "+C:\\Windows\\System32\\",
    ),
    ("\"\u{e9}\"", "=\u{e9}"),
    ("r\"a\\n\"", "=a\\n"),
    ("\"", "Escape(LoneSlash)"),
];

fn has_value(
    alloc: Global,
    kind: SyntaxKind,
    row: &(&'static str, &'static str),
) -> Result<bool, Fail> {
    Ok(shown(alloc, kind, row.0)?.as_str() == row.1)
}

#[test]
fn strings(rt: HostRuntime) -> Result<(), Fail> {
    for row in &STRINGS {
        assert!(rt;
            has_value(rt.alloc(), SyntaxKind::STRING, row)?,
            "in {}",
            row.0
        );
    }
    Ok(())
}

const BYTE_STRINGS: [(&str, &str); 8] = [
    ("b\"ab\"", "=ab"),
    ("b\"\\xff\"", "Escape(NonAsciiCharInByte)"),
    ("b\"\\xc3\\xa9\"", "+\u{e9}"),
    ("b\"\\\n    \"", "+"),
    (
        "b\"C:\\\\Windows\\\\System32\\\\\"",
        "+C:\\Windows\\System32\\",
    ),
    ("b\"\u{e9}\"", "Escape(NonAsciiCharInByte)"),
    ("br\"\u{e9}\\xff\"", "=\u{e9}\\xff"),
    ("b\"", "Escape(LoneSlash)"),
];

#[test]
fn byte_strings(rt: HostRuntime) -> Result<(), Fail> {
    for row in &BYTE_STRINGS {
        assert!(rt;
            has_value(rt.alloc(), SyntaxKind::BYTE_STRING, row)?,
            "in {}",
            row.0
        );
    }
    Ok(())
}

const C_STRINGS: [(&str, &str); 7] = [
    ("c\"ab\"", "=ab"),
    ("c\"\u{e9}\"", "=\u{e9}"),
    ("c\"\u{e9}\\xff\"", "Escape(NonAsciiCharInByte)"),
    ("c\"\\xc3\\xa9\"", "+\u{e9}"),
    ("c\"\\\n    \"", "+"),
    ("c\"\\0\"", "Escape(NulInCStr)"),
    ("cr\"\\0\"", "=\\0"),
];

#[test]
fn c_strings(rt: HostRuntime) -> Result<(), Fail> {
    for row in &C_STRINGS {
        assert!(rt;
            has_value(rt.alloc(), SyntaxKind::C_STRING, row)?,
            "in {}",
            row.0
        );
    }
    Ok(())
}

#[test]
fn texts_by_their_kind(rt: HostRuntime) -> Result<(), Fail> {
    let string: ast::String = typed(rt.alloc(), SyntaxKind::STRING, "\"\\x61b\"")?;
    assert_eq!(rt; string.value(rt.alloc())?.as_str(), "ab");
    let plain: ast::String = typed(rt.alloc(), SyntaxKind::STRING, "\"ab\"")?;
    assert!(rt; matches!(plain.value(rt.alloc()), Ok(CowStr::Borrowed("ab"))));
    Ok(())
}

#[test]
fn bytes_by_their_kind(rt: HostRuntime) -> Result<(), Fail> {
    let bytes: ast::ByteString = typed(rt.alloc(), SyntaxKind::BYTE_STRING, "b\"\\xffa\"")?;
    assert_eq!(rt; bytes.value(rt.alloc())?.as_slice(), [255, 97].as_slice());
    let plain: ast::ByteString = typed(rt.alloc(), SyntaxKind::BYTE_STRING, "b\"ab\"")?;
    assert!(rt; matches!(plain.value(rt.alloc()), Ok(CowSlice::Borrowed(b"ab"))));
    Ok(())
}

#[test]
fn bytes_of_c_strings(rt: HostRuntime) -> Result<(), Fail> {
    let bytes: ast::CString = typed(rt.alloc(), SyntaxKind::C_STRING, "c\"\u{e9}\\xff\"")?;
    assert_eq!(rt;
        bytes.value(rt.alloc())?.as_slice(),
        [195, 169, 255].as_slice()
    );
    Ok(())
}

const CHARACTERS: [(&str, Result<char, EscapeError>); 5] = [
    ("'a'", Ok('a')),
    ("'\\n", Ok('\n')),
    ("'ab'", Err(EscapeError::MoreThanOneChar)),
    ("'", Err(EscapeError::ZeroChars)),
    ("a", Err(EscapeError::ZeroChars)),
];

fn is_character(
    alloc: Global,
    row: &(&'static str, Result<char, EscapeError>),
) -> Result<bool, Fail> {
    let it: ast::Char = typed(alloc, SyntaxKind::CHAR, row.0)?;
    Ok(it.value() == row.1)
}

#[test]
fn characters(rt: HostRuntime) -> Result<(), Fail> {
    for row in &CHARACTERS {
        assert!(rt; is_character(rt.alloc(), row)?, "in {}", row.0);
    }
    Ok(())
}

const BYTES: [(&str, Result<u8, EscapeError>); 5] = [
    ("b'a'", Ok(97)),
    ("b'\\xff'", Ok(255)),
    ("b'ab'", Err(EscapeError::MoreThanOneChar)),
    ("b'", Err(EscapeError::ZeroChars)),
    ("'a'", Err(EscapeError::ZeroChars)),
];

fn is_byte(alloc: Global, row: &(&'static str, Result<u8, EscapeError>)) -> Result<bool, Fail> {
    let it: ast::Byte = typed(alloc, SyntaxKind::BYTE, row.0)?;
    Ok(it.value() == row.1)
}

#[test]
fn bytes(rt: HostRuntime) -> Result<(), Fail> {
    for row in &BYTES {
        assert!(rt; is_byte(rt.alloc(), row)?, "in {}", row.0);
    }
    Ok(())
}
