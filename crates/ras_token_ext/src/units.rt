//! Callbacks for the units of a string's content, one by one.
ghost use Rattle.std.specs.Prelude.{◌≡◌, ◌+◌, ◌<◌, ◌≤◌, ◌^◌, length, option_map, IfSome};
ghost use Rattle.std.specs.List.{FoldsTo};
ghost use Rattle.std.specs.Str.{chars};
ghost use Rattle.literal_escape.specs.Pieces.{CalledOnEach};
ghost use Rattle.literal_escape.specs.Reading.{reports_in};
ghost use Rattle.ras_token_ext.specs.Texts.{is_raw};
ghost use Rattle.ras_token_ext.specs.Units.{shown, unit_calls, char_calls, placed_content, literal_calls};

use crate::parts::{cut, is_raw};
use crate::strings::quote_places;
use literal_escape::{EscapeError, MixedUnit, Mode, Units};
use std::ops::Range;
use text_size::{TextRange, TextSize};

// A unit as a character: a byte as the character with that code; each unit of a C string as `_`,
// also a fault.
fn shown(mode: Mode, unit: Result<MixedUnit, EscapeError>) -> Result<char, EscapeError>
    ensures { result ≡ shown mode unit }
{
    if mode == Mode::CStr {
        return Ok('_');
    }
    match unit {
        Ok(MixedUnit::Char(c)) => Ok(c),
        Ok(MixedUnit::HighByte(byte)) => Ok(byte as char),
        Err(fault) => Err(fault),
    }
}

/// Calls `callback` on each unit of a content, in order, with its range in bytes from the content's
/// start, and its character or fault, warnings too. A byte is passed as the character with that
/// code, and each unit of a C string as `_`, without faults.
///
/// Returns the callback in the state that the last call left.
pub fn unescape<F: FnMut(Range<usize>, Result<char, EscapeError>)>(
    mode: Mode,
    content: &str,
    mut callback: F,
) -> F
    requires { F.IsAlwaysCallable callback }
    ensures { CalledOnEach (shown mode) (λ f range unit g. F.step f range unit tt g) callback result
        (reports_in mode (chars content.now)) }
{
    let mut units = Units::new(mode, content);
    while let Some(report) = units.next() {
        callback(report.start..report.end, shown(mode, report.unit));
    }
    callback
}

// Calls `callback` on each unit of a content that starts at an offset.
fn call_on_units<F: FnMut(TextRange, Result<char, EscapeError>)>(
    mode: Mode,
    offset: u32,
    content: &str,
    mut callback: F,
) -> F
    requires size { offset + length content.now < 2 ^ 32 }
    requires call { F.IsAlwaysCallable callback }
    ensures { FoldsTo (λ f call g. F.step f call.0 call.1 tt g) callback
        (unit_calls mode offset content.now) result }
{
    let mut units = Units::new(mode, content);
    while let Some(report) = units.next() {
        let start = TextSize::new(offset + report.start as u32);
        let end = TextSize::new(offset + report.end as u32);
        callback(TextRange::new(start, end), shown(mode, report.unit));
    }
    callback
}

// Calls `callback` on each character of a raw content that starts at an offset.
fn call_on_chars<F: FnMut(TextRange, Result<char, EscapeError>)>(
    offset: u32,
    content: &str,
    mut callback: F,
) -> F
    requires size { offset + length content.now < 2 ^ 32 }
    requires call { F.IsAlwaysCallable callback }
    ensures { FoldsTo (λ f call g. F.step f call.0 call.1 tt g) callback
        (char_calls offset (chars content.now)) result }
{
    let mut at = offset;
    let mut left = content.chars();
    while let Some(c) = left.next() {
        let end = at + c.len_utf8() as u32;
        callback(TextRange::new(TextSize::new(at), TextSize::new(end)), Ok(c));
        at = end;
    }
    callback
}

// The content of a literal and its offset; `None` if the text does not have two quotes.
fn placed_content(text: &str) -> Option<(usize, &str)>
    ensures value { option_map (λ p. (p.0, p.1.now)) result ≡ placed_content text.now }
    ensures within { IfSome result (λ p. p.0 + length p.1.now ≤ length text.now) }
{
    let (first, last) = quote_places(text)?;
    let content = cut(text, first + 1, last)?;
    Some((first + 1, content))
}

/// Calls `callback` on each unit of a literal's content, like [`unescape`], or on each character of
/// a raw one, with its range from the start of the literal's text. It makes no call if the text
/// does not have two quotes. A literal that begins with `prefix` is raw.
///
/// Returns the callback in the state that the last call left.
pub fn escaped_char_ranges<F: FnMut(TextRange, Result<char, EscapeError>)>(
    mode: Mode,
    prefix: &str,
    text: &str,
    callback: F,
) -> F
    requires size { length text.now < 2 ^ 32 }
    requires call { F.IsAlwaysCallable callback }
    ensures { FoldsTo (λ f call g. F.step f call.0 call.1 tt g) callback
        (literal_calls mode (is_raw prefix.now text.now) text.now) result }
{
    let Some((start, content)) = placed_content(text) else {
        return callback;
    };
    let offset = start as u32;
    if is_raw(text, prefix) {
        call_on_chars(offset, content, callback)
    } else {
        call_on_units(mode, offset, content, callback)
    }
}
