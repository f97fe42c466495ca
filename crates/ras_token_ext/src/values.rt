//! The values of strings, byte strings and C strings.
ghost use Rattle.std.specs.Prelude.{◌≡◌, ◌++◌, true, false, codes, IfOk, OnOk, string_bytes};
ghost use Rattle.std.specs.Cow.{cow_str_bytes, IsBorrowedStr, cow_slice_items, IsBorrowedSlice};
ghost use Rattle.literal_escape.specs.declared.mode.Mode.TheVariants as modes;
ghost use Rattle.ras_token_ext.specs.Literals.{unit_bytes, unit_text, meanings, string_meanings, has_backslash, content_value, literal_value, can_borrow};
ghost use Rattle.ras_token_ext.specs.Answered.{IsValueOf, TakesNoMemory};

use crate::parts::is_raw;
use crate::strings::{last_fault, string_content};
use literal_escape::{EscapeError, MixedUnit, Mode, Units};
use std::alloc::{AllocError, Global};
use std::borrow::{CowSlice, CowStr};

/// Why a literal has no value.
#[derive(Clone, Copy, Debug, PartialEq, Eq)]
pub enum ValueError {
    /// A unit has a fatal fault.
    Escape(EscapeError),
    /// Out of memory.
    Memory,
}

fn has_backslash(content: &str) -> bool
    ensures { result ≡ has_backslash content.now }
{
    content.as_bytes().iter().any(|byte| *byte == b'\\')
}

// Appends the meaning of a unit.
fn add_bytes(value: &mut Vec<u8>, unit: Result<MixedUnit, EscapeError>) -> Result<(), AllocError>
    ensures { OnOk result (value.new.items ≡ value.old.items ++ unit_bytes unit) }
{
    match unit {
        Ok(MixedUnit::Char(c)) => {
            let mut buffer = [0; 4];
            value.extend_from_slice(c.encode_utf8(&mut buffer).as_bytes())
        }
        Ok(MixedUnit::HighByte(byte)) => {
            value.push(byte)?;
            Ok(())
        }
        Err(_) => Ok(()),
    }
}

// The meanings of a content's units, joined.
fn meanings(alloc: Global, mode: Mode, content: &str) -> Result<Vec<u8>, AllocError>
    ensures { IfOk result (λ value. value.items ≡ meanings mode content.now) }
{
    let mut value = Vec::new(alloc);
    let mut units = Units::new(mode, content);
    while let Some(report) = units.next() {
        add_bytes(&mut value, report.unit)?;
    }
    Ok(value)
}

// The value of the content of a byte string or a C string that is not raw.
fn content_bytes(
    alloc: Global,
    mode: Mode,
    content: &str,
) -> Result<CowSlice<'_, u8, Global>, ValueError>
    ensures value { IsValueOf cow_slice_items (content_value (meanings mode) mode content.now)
        result }
    ensures borrowed { has_backslash content.now ≡ false → TakesNoMemory IsBorrowedSlice result }
{
    if let Some(fault) = last_fault(mode, content) {
        return Err(ValueError::Escape(fault));
    }
    if !has_backslash(content) {
        return Ok(CowSlice::Borrowed(content.as_bytes()));
    }
    match meanings(alloc, mode, content) {
        Ok(value) => Ok(CowSlice::Owned(value)),
        Err(_) => Err(ValueError::Memory),
    }
}

/// The value of a byte string or a C string: the content if it is raw, that is, begins with
/// `prefix`; otherwise the meanings of its units, joined.
///
/// Without two quotes the result is `Escape(LoneSlash)`, otherwise the last fatal fault, if there
/// is one; warnings are ignored. A content that is raw or has no backslash is borrowed, and takes
/// no memory.
pub fn bytes_value<'t>(
    alloc: Global,
    mode: Mode,
    prefix: &str,
    text: &'t str,
) -> Result<CowSlice<'t, u8, Global>, ValueError>
    ensures value { IsValueOf cow_slice_items
        (literal_value (meanings mode) mode prefix.now text.now) result }
    ensures borrowed { can_borrow prefix.now text.now ≡ true
        → TakesNoMemory IsBorrowedSlice result }
{
    let Some(content) = string_content(text) else {
        return Err(ValueError::Escape(EscapeError::LoneSlash));
    };
    if is_raw(text, prefix) {
        return Ok(CowSlice::Borrowed(content.as_bytes()));
    }
    content_bytes(alloc, mode, content)
}

// Appends the meaning of a unit of a string.
fn add_text(value: &mut String, unit: Result<MixedUnit, EscapeError>) -> Result<(), AllocError>
    ensures { OnOk result (string_bytes value.new ≡ string_bytes value.old ++ unit_text unit) }
{
    if let Ok(MixedUnit::Char(c)) = unit {
        value.push(c)?;
    }
    Ok(())
}

// The meanings of the units of a string's content, joined.
fn string_meanings(alloc: Global, content: &str) -> Result<String, AllocError>
    ensures { IfOk result (λ value. string_bytes value ≡ string_meanings content.now) }
{
    let mut value = String::new(alloc);
    let mut units = Units::new(Mode::Str, content);
    while let Some(report) = units.next() {
        add_text(&mut value, report.unit)?;
    }
    Ok(value)
}

// The value of the content of a string that is not raw.
fn content_text(alloc: Global, content: &str) -> Result<CowStr<'_, Global>, ValueError>
    ensures value { IsValueOf cow_str_bytes (content_value string_meanings modes.Str content.now)
        result }
    ensures borrowed { has_backslash content.now ≡ false → TakesNoMemory IsBorrowedStr result }
{
    if let Some(fault) = last_fault(Mode::Str, content) {
        return Err(ValueError::Escape(fault));
    }
    if !has_backslash(content) {
        return Ok(CowStr::Borrowed(content));
    }
    match string_meanings(alloc, content) {
        Ok(value) => Ok(CowStr::Owned(value)),
        Err(_) => Err(ValueError::Memory),
    }
}

/// The value of a string; the rest is as in [`bytes_value`].
pub fn string_value(alloc: Global, text: &str) -> Result<CowStr<'_, Global>, ValueError>
    ensures value { IsValueOf cow_str_bytes
        (literal_value string_meanings modes.Str (codes "r") text.now) result }
    ensures borrowed { can_borrow (codes "r") text.now ≡ true → TakesNoMemory IsBorrowedStr result }
{
    let Some(content) = string_content(text) else {
        return Err(ValueError::Escape(EscapeError::LoneSlash));
    };
    if is_raw(text, "r") {
        return Ok(CowStr::Borrowed(content));
    }
    content_text(alloc, content)
}
