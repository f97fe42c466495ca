// The calls: each walks over the reports of a content.
ghost use Rattle.std.specs.Prelude.{◌≡◌, ◌<◌, true, IfOk};
ghost use Rattle.std.specs.Str.{chars};
ghost use Rattle.literal_escape.specs.Literal.{numbered, number_of, is_bytes};
ghost use Rattle.literal_escape.specs.Pieces.{OfReports, CalledOnEach, single};
ghost use Rattle.literal_escape.specs.Reading.{reports_in};

use crate::error::EscapeError;
use crate::mode::{MixedUnit, Mode};
use crate::reader::Report;
use crate::units::Units;
use std::ops::Range;

/// Reads the content of a literal that must be exactly one unit, as a character or a byte literal.
///
/// A fault of the first unit takes precedence over [`EscapeError::MoreThanOneChar`], which is
/// returned if something follows a good one. A content without a unit is
/// [`EscapeError::ZeroChars`]: an empty one, and in a string's mode one that is a continuation
/// alone. A warning counts as the first unit.
pub fn unescape_unit(content: &str, mode: Mode) -> Result<MixedUnit, EscapeError>
    ensures byte { is_bytes mode ≡ true → IfOk result (λ unit. number_of unit < 256) }
    ensures single { OfReports mode (chars content.now) (λ reports. result ≡ single reports) }
    ensures read { result ≡ single (reports_in mode (chars content.now)) }
{
    let mut units = Units::new(mode, content);
    let Some(first) = units.next() else {
        return Err(EscapeError::ZeroChars);
    };
    if first.unit.is_ok() && units.next().is_some() {
        return Err(EscapeError::MoreThanOneChar);
    }
    first.unit
}

/// The character of a character literal with this content, as `\n` or `é`.
///
/// A fault of the first unit takes precedence over [`EscapeError::MoreThanOneChar`], which is
/// returned if something follows a good one. An empty content is [`EscapeError::ZeroChars`].
pub fn unescape_char(content: &str) -> Result<char, EscapeError>
    ensures single { OfReports Mode.Char (chars content.now)
        (λ reports. result ≡ numbered (single reports)) }
    ensures read { result ≡ numbered (single (reports_in Mode.Char (chars content.now))) }
{
    unescape_unit(content, Mode::Char).map(MixedUnit::as_char)
}

/// The byte of a byte literal with this content, as `\xff` or `a`. Errors take precedence as in
/// [`unescape_char`].
pub fn unescape_byte(content: &str) -> Result<u8, EscapeError>
    ensures single { OfReports Mode.Byte (chars content.now)
        (λ reports. result ≡ numbered (single reports)) }
    ensures read { result ≡ numbered (single (reports_in Mode.Byte (chars content.now))) }
{
    match unescape_unit(content, Mode::Byte) {
        Ok(unit) => Ok(unit.as_byte()),
        Err(fault) => Err(fault),
    }
}

/// Calls `callback` on each unit of a string's content, in order, with its range in bytes and its
/// character or fault. It does not stop at a fault. The warnings of a continuation come among the
/// units as faults that are not fatal.
///
/// Returns the callback in the state that the last call left, which matters only to callers that
/// need that state.
///
/// The characters of `a\tb` are at `0..1`, `1..3` and `3..4`.
pub fn unescape_str<F: FnMut(Range<usize>, Result<char, EscapeError>)>(
    content: &str,
    mut callback: F,
) -> F
    requires { F.IsAlwaysCallable callback }
    ensures { OfReports Mode.Str (chars content.now)
        (CalledOnEach numbered (λ f range unit g. F.step f range unit tt g) callback result) }
{
    let mut units = Units::new(Mode::Str, content);
    while let Some(report) = units.next() {
        callback(report.range(), report.as_char());
    }
    callback
}

/// Like [`unescape_str`], for a byte string's content: a unit is a byte.
pub fn unescape_byte_str<F: FnMut(Range<usize>, Result<u8, EscapeError>)>(
    content: &str,
    mut callback: F,
) -> F
    requires { F.IsAlwaysCallable callback }
    ensures { OfReports Mode.ByteStr (chars content.now)
        (CalledOnEach numbered (λ f range unit g. F.step f range unit tt g) callback result) }
{
    let mut units = Units::new(Mode::ByteStr, content);
    while let Some(report) = units.next() {
        callback(report.range(), report.as_byte());
    }
    callback
}

/// Like [`unescape_str`], for a C string's content: a unit is a character, or for `\x80` to `\xff`
/// a byte.
pub fn unescape_c_str<F: FnMut(Range<usize>, Result<MixedUnit, EscapeError>)>(
    content: &str,
    mut callback: F,
) -> F
    requires { F.IsAlwaysCallable callback }
    ensures { OfReports Mode.CStr (chars content.now)
        (CalledOnEach (λ unit. unit) (λ f range unit g. F.step f range unit tt g) callback result) }
{
    let mut units = Units::new(Mode::CStr, content);
    while let Some(report) = units.next() {
        callback(report.range(), report.unit);
    }
    callback
}
