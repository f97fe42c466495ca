//! The values of literals, from their texts.

ghost use Rattle.std.specs.Prelude.{◌≡◌, ◌≤◌, ◌<◌, ◌+◌, ◌*◌, ◌^◌, ◌↔◌, length, Ok, Err, IsUtf8};
ghost use Rattle.ras_token_ext.specs.declared.numbers.IntError.{IntError};
ghost use Rattle.ras_token_ext.specs.Literals.{char_value, byte_value};
ghost use Rattle.ras_token_ext.specs.Numbers.{int_value};
ghost use Rattle.ras_c.specs.Values.{string_of, byte_string_of, c_string_of, HasBytes, IsWritten, LacksRoom, IsFaulty, fault_number, fault_status, int_status};

use crate::fill::hand;
use crate::status::{NO_MEMORY, NOT_UTF8, OK};
use literal_escape::{EscapeError, Mode};
use ras_token_ext::{IntError, ValueError};
use std::alloc::Global;

/// An integer without a digit. Nothing was written.
pub const NO_DIGIT: u32 = 8;
/// An integer with a character that is no digit of its radix. Nothing was written.
pub const BAD_DIGIT: u32 = 9;
/// An integer of 2^128 or more. Nothing was written.
pub const TOO_LARGE: u32 = 10;
/// From this status on, an escape or a character of a literal is wrong: [`FAULT`] + n, where n
/// counts `EscapeError`'s variants. Nothing was written.
pub const FAULT: u32 = 64;

// The number of values of 64 bits.
const HALF: u128 = 1 << 64;

fn fault_number(fault: EscapeError) -> u32
    ensures value { result ≡ fault_number fault }
    ensures small { result < 64 }
{
    match fault {
        EscapeError::ZeroChars => 0,
        EscapeError::MoreThanOneChar => 1,
        EscapeError::LoneSlash => 2,
        EscapeError::InvalidEscape => 3,
        EscapeError::BareCarriageReturn => 4,
        EscapeError::BareCarriageReturnInRawString => 5,
        EscapeError::EscapeOnlyChar => 6,
        EscapeError::TooShortHexEscape => 7,
        EscapeError::InvalidCharInHexEscape => 8,
        EscapeError::OutOfRangeHexEscape => 9,
        EscapeError::NoBraceInUnicodeEscape => 10,
        EscapeError::InvalidCharInUnicodeEscape => 11,
        EscapeError::EmptyUnicodeEscape => 12,
        EscapeError::UnclosedUnicodeEscape => 13,
        EscapeError::LeadingUnderscoreUnicodeEscape => 14,
        EscapeError::OverlongUnicodeEscape => 15,
        EscapeError::LoneSurrogateUnicodeEscape => 16,
        EscapeError::OutOfRangeUnicodeEscape => 17,
        EscapeError::UnicodeEscapeInByte => 18,
        EscapeError::NonAsciiCharInByte => 19,
        EscapeError::NulInCStr => 20,
        EscapeError::MultipleSkippedLinesWarning => 21,
        EscapeError::UnskippedWhitespaceWarning => 22,
    }
}

pub(crate) fn fault_status(fault: EscapeError) -> u32
    ensures value { result ≡ fault_status fault }
    ensures large { 64 ≤ result }
{
    FAULT + fault_number(fault)
}

/// Writes the value of a string with this text, quotes and prefix with it, to the front of `value`,
/// and its length to `count`: of `"a\n"` the letter and a line feed.
///
/// Returns [`OK`], [`NOT_UTF8`], [`TOO_LONG`], [`NO_MEMORY`], [`NO_ROOM`], or a status from
/// [`FAULT`] on. The value is at most as long as the text.
#[unsafe(no_mangle)]
pub extern "C" fn ras_c_string_value(
    alloc: Global,
    text: &[u8],
    value: &mut [u8],
    count: &mut u32,
) -> u32
    ensures done { result ≡ 0 → IsWritten (string_of text.now) value.old value.new count.new }
    ensures room { result ≡ 4 → LacksRoom (string_of text.now) value.old value.new count.new }
    ensures long { result ≡ 2 → HasBytes (string_of text.now) (λ bytes. 2 ^ 32 ≤ length bytes) }
    ensures fault { 5 ≤ result → IsFaulty (string_of text.now) result }
    ensures utf8 { (result ≡ 1) ↔ (IsUtf8 text.now → ⊥) }
    ensures kept { (result ≡ 0 → ⊥) → (result ≡ 4 → ⊥)
        → (value.new ≡ value.old) × (count.new ≡ count.old) }
{
    let Ok(text) = str::from_utf8(text) else {
        return NOT_UTF8;
    };
    match ras_token_ext::string_value(alloc, text) {
        Ok(found) => hand(found.as_bytes(), value, count),
        Err(ValueError::Escape(fault)) => fault_status(fault),
        Err(ValueError::Memory) => NO_MEMORY,
    }
}

/// Writes the value of a byte string with this text, quotes and prefix with it, to the front of
/// `value`, and its length to `count`: of `b"\xff"` the byte 255.
///
/// Returns [`OK`], [`NOT_UTF8`], [`TOO_LONG`], [`NO_MEMORY`], [`NO_ROOM`], or a status from
/// [`FAULT`] on. The value is at most as long as the text.
#[unsafe(no_mangle)]
pub extern "C" fn ras_c_byte_string_value(
    alloc: Global,
    text: &[u8],
    value: &mut [u8],
    count: &mut u32,
) -> u32
    ensures done { result ≡ 0 → IsWritten (byte_string_of text.now) value.old value.new count.new }
    ensures room { result ≡ 4 → LacksRoom (byte_string_of text.now) value.old value.new count.new }
    ensures long { result ≡ 2
        → HasBytes (byte_string_of text.now) (λ bytes. 2 ^ 32 ≤ length bytes) }
    ensures fault { 5 ≤ result → IsFaulty (byte_string_of text.now) result }
    ensures utf8 { (result ≡ 1) ↔ (IsUtf8 text.now → ⊥) }
    ensures kept { (result ≡ 0 → ⊥) → (result ≡ 4 → ⊥)
        → (value.new ≡ value.old) × (count.new ≡ count.old) }
{
    let Ok(text) = str::from_utf8(text) else {
        return NOT_UTF8;
    };
    match ras_token_ext::bytes_value(alloc, Mode::ByteStr, "br", text) {
        Ok(found) => hand(&found, value, count),
        Err(ValueError::Escape(fault)) => fault_status(fault),
        Err(ValueError::Memory) => NO_MEMORY,
    }
}

/// Writes the value of a C string with this text, quotes and prefix with it, to the front of
/// `value`, and its length to `count`: of `c"a"` the letter, without the zero behind it.
///
/// Returns [`OK`], [`NOT_UTF8`], [`TOO_LONG`], [`NO_MEMORY`], [`NO_ROOM`], or a status from
/// [`FAULT`] on. The value is at most as long as the text.
#[unsafe(no_mangle)]
pub extern "C" fn ras_c_c_string_value(
    alloc: Global,
    text: &[u8],
    value: &mut [u8],
    count: &mut u32,
) -> u32
    ensures done { result ≡ 0 → IsWritten (c_string_of text.now) value.old value.new count.new }
    ensures room { result ≡ 4 → LacksRoom (c_string_of text.now) value.old value.new count.new }
    ensures long { result ≡ 2 → HasBytes (c_string_of text.now) (λ bytes. 2 ^ 32 ≤ length bytes) }
    ensures fault { 5 ≤ result → IsFaulty (c_string_of text.now) result }
    ensures utf8 { (result ≡ 1) ↔ (IsUtf8 text.now → ⊥) }
    ensures kept { (result ≡ 0 → ⊥) → (result ≡ 4 → ⊥)
        → (value.new ≡ value.old) × (count.new ≡ count.old) }
{
    let Ok(text) = str::from_utf8(text) else {
        return NOT_UTF8;
    };
    match ras_token_ext::bytes_value(alloc, Mode::CStr, "cr", text) {
        Ok(found) => hand(&found, value, count),
        Err(ValueError::Escape(fault)) => fault_status(fault),
        Err(ValueError::Memory) => NO_MEMORY,
    }
}

/// Writes the value of a character with this text, quotes with it, to `value`: of `'a'` the number
/// 97.
///
/// Returns [`OK`], [`NOT_UTF8`], or a status from [`FAULT`] on.
#[unsafe(no_mangle)]
pub extern "C" fn ras_c_char_value(text: &[u8], value: &mut u32) -> u32
    ensures done { result ≡ 0 → char_value text.now ≡ Ok value.new }
    ensures fault { 2 ≤ result → IsFaulty (char_value text.now) result }
    ensures utf8 { (result ≡ 1) ↔ (IsUtf8 text.now → ⊥) }
    ensures kept { (result ≡ 0 → ⊥) → value.new ≡ value.old }
{
    let Ok(text) = str::from_utf8(text) else {
        return NOT_UTF8;
    };
    match ras_token_ext::char_value(text) {
        Ok(found) => {
            *value = found as u32;
            OK
        }
        Err(fault) => fault_status(fault),
    }
}

/// Writes the value of a byte with this text, quotes with it, to `value`: of `b'a'` the number 97.
///
/// Returns [`OK`], [`NOT_UTF8`], or a status from [`FAULT`] on.
#[unsafe(no_mangle)]
pub extern "C" fn ras_c_byte_value(text: &[u8], value: &mut u32) -> u32
    ensures done { result ≡ 0 → byte_value text.now ≡ Ok value.new }
    ensures fault { 2 ≤ result → IsFaulty (byte_value text.now) result }
    ensures utf8 { (result ≡ 1) ↔ (IsUtf8 text.now → ⊥) }
    ensures kept { (result ≡ 0 → ⊥) → value.new ≡ value.old }
{
    let Ok(text) = str::from_utf8(text) else {
        return NOT_UTF8;
    };
    match ras_token_ext::byte_value(text) {
        Ok(found) => {
            *value = u32::from(found);
            OK
        }
        Err(fault) => fault_status(fault),
    }
}

/// Writes the value of an integer with this text, prefix and suffix with it, to `high` and `low`,
/// 64 bits each: of `0x10u8` the numbers 0 and 16.
///
/// Returns [`OK`], [`NOT_UTF8`], [`NO_DIGIT`], [`BAD_DIGIT`] or [`TOO_LARGE`].
#[unsafe(no_mangle)]
pub extern "C" fn ras_c_int_value(text: &[u8], high: &mut u64, low: &mut u64) -> u32
    ensures done { result ≡ 0 → int_value text.now ≡ Ok (high.new * 2 ^ 64 + low.new) }
    ensures refused { 2 ≤ result
        → (e : IntError) × (int_value text.now ≡ Err e) × (result ≡ int_status e) }
    ensures utf8 { (result ≡ 1) ↔ (IsUtf8 text.now → ⊥) }
    ensures kept { (result ≡ 0 → ⊥) → (high.new ≡ high.old) × (low.new ≡ low.old) }
{
    let Ok(text) = str::from_utf8(text) else {
        return NOT_UTF8;
    };
    match ras_token_ext::int_value(text) {
        Ok(found) => {
            *high = (found / HALF) as u64;
            *low = (found % HALF) as u64;
            OK
        }
        Err(IntError::Empty) => NO_DIGIT,
        Err(IntError::InvalidDigit) => BAD_DIGIT,
        Err(IntError::TooLarge) => TOO_LARGE,
    }
}
