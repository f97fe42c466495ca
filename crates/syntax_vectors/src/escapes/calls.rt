// What the calls give, as rows that can be compared and shown.
use literal_escape::{
    EscapeError, MixedUnit, unescape_byte, unescape_byte_str, unescape_c_str, unescape_char,
    unescape_str,
};
use std::alloc::{AllocError, Global};
use std::fmt::Write;
use std::test::Fail;

/// A byte from 80 on in a C string is shown as its number past this one.
pub const HIGH_BYTE: u32 = 0x200000;

/// A report: where a unit is, in bytes, and its number or its fault.
#[derive(Clone, Copy, Debug, PartialEq, Eq)]
pub struct Row {
    pub start: usize,
    pub end: usize,
    pub unit: Result<u32, EscapeError>,
}

/// What `unescape_str` calls its callback on.
pub fn str_rows(alloc: Global, content: &str) -> Result<Vec<Row>, AllocError> {
    let mut rows = Vec::new(alloc);
    let mut pushed = Ok(());
    unescape_str(content, |range, unit| {
        let unit = unit.map(|c| c as u32);
        let row = Row {
            start: range.start,
            end: range.end,
            unit,
        };
        if pushed.is_ok() {
            pushed = rows.push(row);
        }
    });
    pushed?;
    Ok(rows)
}

/// What `unescape_byte_str` calls its callback on.
pub fn byte_str_rows(alloc: Global, content: &str) -> Result<Vec<Row>, AllocError> {
    let mut rows = Vec::new(alloc);
    let mut pushed = Ok(());
    unescape_byte_str(content, |range, unit| {
        let unit = unit.map(|byte| byte as u32);
        let row = Row {
            start: range.start,
            end: range.end,
            unit,
        };
        if pushed.is_ok() {
            pushed = rows.push(row);
        }
    });
    pushed?;
    Ok(rows)
}

// The number of a C string's unit.
fn mixed(unit: MixedUnit) -> u32 {
    match unit {
        MixedUnit::Char(c) => c as u32,
        MixedUnit::HighByte(byte) => HIGH_BYTE + byte as u32,
    }
}

/// What `unescape_c_str` calls its callback on.
pub fn c_str_rows(alloc: Global, content: &str) -> Result<Vec<Row>, AllocError> {
    let mut rows = Vec::new(alloc);
    let mut pushed = Ok(());
    unescape_c_str(content, |range, unit| {
        let unit = unit.map(mixed);
        let row = Row {
            start: range.start,
            end: range.end,
            unit,
        };
        if pushed.is_ok() {
            pushed = rows.push(row);
        }
    });
    pushed?;
    Ok(rows)
}

/// The number that `unescape_char` returns, or its fault.
pub fn char_unit(content: &str) -> Result<u32, EscapeError> {
    unescape_char(content).map(|c| c as u32)
}

/// The number that `unescape_byte` returns, or its fault.
pub fn byte_unit(content: &str) -> Result<u32, EscapeError> {
    unescape_byte(content).map(|byte| byte as u32)
}

/// A meaning in hexadecimal, or the fault's name.
pub fn shown_unit(alloc: Global, unit: Result<u32, EscapeError>) -> Result<String, Fail> {
    match unit {
        Ok(code) => Ok(format!(in alloc; "{code:x}")?),
        Err(fault) => Ok(format!(in alloc; "{fault:?}")?),
    }
}

/// The rows as `start..end unit`, with commas between.
pub fn shown(alloc: Global, rows: &[Row]) -> Result<String, Fail> {
    let mut out = String::new(alloc);
    let mut gap = "";
    for row in rows {
        let unit = shown_unit(alloc, row.unit)?;
        write!(out, "{gap}{}..{} {unit}", row.start, row.end)?;
        gap = ", ";
    }
    Ok(out)
}
