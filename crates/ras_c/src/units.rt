//! The units of a string literal, each with its range.
ghost use Rattle.std.specs.Prelude.{◌≡◌, ◌≤◌, ◌<◌, ◌+◌, ◌^◌, ◌⊎◌, ◌↔◌, length, map, option_map, IfOk, IfSome, IsUtf8};
ghost use Rattle.std.specs.Str.{chars};
ghost use Rattle.literal_escape.specs.Reading.{reports_in};
ghost use Rattle.ras_token_ext.specs.Units.{placed_content};
ghost use Rattle.ras_c.specs.Border.{IsHanded, IsCounted};
ghost use Rattle.ras_c.specs.Units.{mode_of, raw_prefix, report_row, char_row, char_rows, unit_rows};

use crate::fill::hand;
use crate::status::{NO_MEMORY, NOT_UTF8, TOO_LONG};
use crate::values::fault_status;
use literal_escape::{MixedUnit, Mode, Report, Units};
use ras_token_ext::{cut, is_raw, quote_places};
use std::alloc::{AllocError, Global};

/// A unit that is a character: its value is the character's number.
pub const UNIT_CHAR: u32 = 0;
/// A unit that is a byte from 80 (hexadecimal) on, as `\xff` of a byte string or a C string: its
/// value is the byte.
pub const UNIT_BYTE: u32 = 1;
/// A unit that is wrong, or a warning: its value is the status of the fault, from [`FAULT`] on.
pub const UNIT_FAULT: u32 = 2;

/// One unit of a string literal: a character or an escape.
#[repr(C)]
#[derive(Clone, Copy)]
pub struct UnitRow {
    /// The byte of the literal's text where it starts.
    pub start: u32,
    /// The byte where it ends.
    pub end: u32,
    /// What it is: [`UNIT_CHAR`], [`UNIT_BYTE`] or [`UNIT_FAULT`].
    pub sort: u32,
    /// The number of the character, the byte, or the status of the fault.
    pub value: u32,
}

// The mode of a literal's content, by its first byte.
fn mode_of(text: &str) -> Mode
    ensures { result ≡ mode_of text.now }
{
    match text.as_bytes().first() {
        Some(b'b') => Mode::ByteStr,
        Some(b'c') => Mode::CStr,
        _ => Mode::Str,
    }
}

// The prefix of raw literals whose contents have this mode.
fn raw_prefix(mode: Mode) -> &'static str
    ensures { result.now ≡ raw_prefix mode }
{
    match mode {
        Mode::ByteStr => "br",
        Mode::CStr => "cr",
        _ => "r",
    }
}

// The content of a literal and its offset; `None` if the text does not have two quotes.
fn placed_content(text: &str) -> Option<(usize, &str)>
    ensures value { option_map (λ p. (p.0, p.1.now)) result ≡ placed_content text.now }
    ensures within { IfSome result (λ p. p.0 + length p.1.now ≤ length text.now) }
{
    let (first, last) = quote_places(text)?;
    let content = cut(text, first + 1, last)?;
    Some((first + 1, content))
}

// The row of a report on a content that starts at an offset.
fn report_row(offset: u32, report: Report) -> UnitRow
    requires start { offset + report.start < 2 ^ 32 }
    requires end { offset + report.end < 2 ^ 32 }
    ensures { result ≡ report_row offset report }
{
    let start = offset + report.start as u32;
    let end = offset + report.end as u32;
    match report.unit {
        Ok(MixedUnit::Char(c)) => char_row(start, end, c),
        Ok(MixedUnit::HighByte(byte)) => UnitRow {
            start,
            end,
            sort: UNIT_BYTE,
            value: byte as u32,
        },
        Err(fault) => UnitRow {
            start,
            end,
            sort: UNIT_FAULT,
            value: fault_status(fault),
        },
    }
}

fn char_row(start: u32, end: u32, c: char) -> UnitRow
    ensures { result ≡ char_row start end c }
{
    UnitRow {
        start,
        end,
        sort: UNIT_CHAR,
        value: c as u32,
    }
}

// The units of a content with escapes that starts at an offset.
fn escaped_rows(
    alloc: Global,
    mode: Mode,
    offset: u32,
    content: &str,
) -> Result<Vec<UnitRow>, AllocError>
    requires { offset + length content.now < 2 ^ 32 }
    ensures { IfOk result (λ v. v.items
        ≡ map (report_row offset) (reports_in mode (chars content.now))) }
{
    let mut rows = Vec::new(alloc);
    let mut units = Units::new(mode, content);
    while let Some(report) = units.next() {
        rows.push(report_row(offset, report))?;
    }
    Ok(rows)
}

// The characters of a raw content that starts at an offset.
fn raw_rows(alloc: Global, offset: u32, content: &str) -> Result<Vec<UnitRow>, AllocError>
    requires { offset + length content.now < 2 ^ 32 }
    ensures { IfOk result (λ v. v.items ≡ char_rows offset (chars content.now)) }
{
    let mut rows = Vec::new(alloc);
    let mut at = offset;
    let mut left = content.chars();
    while let Some(c) = left.next() {
        let end = at + c.len_utf8() as u32;
        rows.push(char_row(at, end, c))?;
        at = end;
    }
    Ok(rows)
}

fn unit_rows(alloc: Global, text: &str) -> Result<Vec<UnitRow>, AllocError>
    requires { length text.now < 2 ^ 32 }
    ensures { IfOk result (λ v. v.items ≡ unit_rows text.now) }
{
    let Some((start, content)) = placed_content(text) else {
        return Ok(Vec::new(alloc));
    };
    let offset = start as u32;
    let mode = mode_of(text);
    if is_raw(text, raw_prefix(mode)) {
        raw_rows(alloc, offset, content)
    } else {
        escaped_rows(alloc, mode, offset, content)
    }
}

/// Writes the units of a string, a byte string or a C string with this text, quotes and prefix with
/// it, to the front of `units`: each character and each escape with its range in the text, and its
/// character, byte or fault. Of `"a\n"` these are `a` at 1..2 and a line feed at 2..4.
///
/// A text that begins with `b` is a byte string, one with `c` a C string, any other a string. Of a
/// raw one each character is a unit. A backslash before a line feed is no unit, with the blanks
/// after it, but each warning about these is one. A text without two quotes has no units.
///
/// Returns [`OK`], [`NOT_UTF8`], [`TOO_LONG`], [`NO_MEMORY`] or [`NO_ROOM`]. It takes time linear
/// in the text, and there are at most as many units as bytes.
#[unsafe(no_mangle)]
pub extern "C" fn ras_c_char_ranges(
    alloc: Global,
    text: &[u8],
    units: &mut [UnitRow],
    count: &mut u32,
) -> u32
    ensures done { result ≡ 0 → IsHanded (unit_rows text.now) units.old units.new count.new }
    ensures room { result ≡ 4 → IsCounted (unit_rows text.now) units.old units.new count.new }
    ensures kept { (result ≡ 0 → ⊥) → (result ≡ 4 → ⊥)
        → (units.new ≡ units.old) × (count.new ≡ count.old) }
    ensures utf8 { (result ≡ 1) ↔ (IsUtf8 text.now → ⊥) }
    ensures long { result ≡ 2
        → (2 ^ 32 ≤ length text.now) ⊎ (2 ^ 32 ≤ length (unit_rows text.now)) }
    ensures which { result ≤ 4 }
{
    let Ok(text) = str::from_utf8(text) else {
        return NOT_UTF8;
    };
    if text.len() > u32::MAX as usize {
        return TOO_LONG;
    }
    match unit_rows(alloc, text) {
        Ok(rows) => hand(&rows, units, count),
        Err(_) => NO_MEMORY,
    }
}
