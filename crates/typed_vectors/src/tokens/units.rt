//! The units that a callback is called on.
use super::typed;
use ra_ap_syntax::SyntaxKind;
use ra_ap_syntax::ast::{AnyString, IsString};
use ra_ap_syntax::unescape::EscapeError;
use std::alloc::{AllocError, Global};
use std::test::Fail;

// A call: where a unit is, and its character or its fault.
#[derive(Clone, Copy, Debug, PartialEq, Eq)]
struct Call {
    start: usize,
    end: usize,
    unit: Result<char, EscapeError>,
}

fn row(start: usize, end: usize, unit: Result<char, EscapeError>) -> Call {
    Call { start, end, unit }
}

// What `unescape` calls its callback on.
fn unit_rows(alloc: Global, string: &AnyString, content: &str) -> Result<Vec<Call>, AllocError> {
    let mut rows = Vec::new(alloc);
    let mut pushed = Ok(());
    string.unescape(content, |range, unit| {
        let row = Call {
            start: range.start,
            end: range.end,
            unit,
        };
        if pushed.is_ok() {
            pushed = rows.push(row);
        }
    });
    pushed?;
    Ok(rows)
}

// What `escaped_char_ranges` calls its callback on.
fn range_rows(alloc: Global, string: &AnyString) -> Result<Vec<Call>, AllocError> {
    let mut rows = Vec::new(alloc);
    let mut pushed = Ok(());
    string.escaped_char_ranges(|range, unit| {
        let row = Call {
            start: range.start().raw() as usize,
            end: range.end().raw() as usize,
            unit,
        };
        if pushed.is_ok() {
            pushed = rows.push(row);
        }
    });
    pushed?;
    Ok(rows)
}

#[test]
fn units_of_strings(rt: HostRuntime) -> Result<(), Fail> {
    let string: AnyString = typed(rt.alloc(), SyntaxKind::STRING, "\"\"")?;
    let rows = unit_rows(rt.alloc(), &string, "a\\q\\n\u{e9}")?;
    let expected = [
        row(0, 1, Ok('a')),
        row(1, 3, Err(EscapeError::InvalidEscape)),
        row(3, 5, Ok('\n')),
        row(5, 7, Ok('\u{e9}')),
    ];
    assert_eq!(rt; rows.as_slice(), expected.as_slice());
    Ok(())
}

#[test]
fn units_of_byte_strings(rt: HostRuntime) -> Result<(), Fail> {
    let string: AnyString = typed(rt.alloc(), SyntaxKind::BYTE_STRING, "b\"\"")?;
    let rows = unit_rows(rt.alloc(), &string, "\\xff\u{e9}")?;
    let expected = [
        row(0, 4, Ok('\u{ff}')),
        row(4, 6, Err(EscapeError::NonAsciiCharInByte)),
    ];
    assert_eq!(rt; rows.as_slice(), expected.as_slice());
    Ok(())
}

#[test]
fn units_of_c_strings(rt: HostRuntime) -> Result<(), Fail> {
    let string: AnyString = typed(rt.alloc(), SyntaxKind::C_STRING, "c\"\"")?;
    let rows = unit_rows(rt.alloc(), &string, "a\\q\\xff")?;
    let expected = [row(0, 1, Ok('_')), row(1, 3, Ok('_')), row(3, 7, Ok('_'))];
    assert_eq!(rt; rows.as_slice(), expected.as_slice());
    Ok(())
}

#[test]
fn ranges_of_units(rt: HostRuntime) -> Result<(), Fail> {
    let string: AnyString = typed(rt.alloc(), SyntaxKind::BYTE_STRING, "b\"a\\x41\"")?;
    let rows = range_rows(rt.alloc(), &string)?;
    let expected = [row(2, 3, Ok('a')), row(3, 7, Ok('A'))];
    assert_eq!(rt; rows.as_slice(), expected.as_slice());
    Ok(())
}

#[test]
fn ranges_of_raw_characters(rt: HostRuntime) -> Result<(), Fail> {
    let string: AnyString = typed(rt.alloc(), SyntaxKind::C_STRING, "cr#\"\u{e9}\\n\"#")?;
    let rows = range_rows(rt.alloc(), &string)?;
    let expected = [
        row(4, 6, Ok('\u{e9}')),
        row(6, 7, Ok('\\')),
        row(7, 8, Ok('n')),
    ];
    assert_eq!(rt; rows.as_slice(), expected.as_slice());
    Ok(())
}

#[test]
fn no_units_without_two_quotes(rt: HostRuntime) -> Result<(), Fail> {
    let string: AnyString = typed(rt.alloc(), SyntaxKind::STRING, "\"")?;
    assert!(rt; range_rows(rt.alloc(), &string)?.is_empty());
    Ok(())
}
