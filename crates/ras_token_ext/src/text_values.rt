//! The values of byte strings and C strings as texts.
ghost use Rattle.std.specs.Prelude.{◌≡◌, true, IfOk, IfErr};
ghost use Rattle.std.specs.Cow.{cow_str_bytes, IsBorrowedStr, cow_slice_items, IsBorrowedSlice};
ghost use Rattle.ras_token_ext.specs.Literals.{meanings, literal_value, can_borrow, as_text};
ghost use Rattle.ras_token_ext.specs.Answered.{IsValueOf, IsTextOf, TakesNoMemory};

use crate::values::{ValueError, bytes_value};
use literal_escape::{EscapeError, Mode};
use std::alloc::Global;
use std::borrow::{CowSlice, CowStr};

// The error for bytes that are not UTF-8.
const NO_TEXT: ValueError = ValueError::Escape(EscapeError::NonAsciiCharInByte);

// Bytes as a text.
fn bytes_text(bytes: CowSlice<'_, u8, Global>) -> Result<CowStr<'_, Global>, ValueError>
    ensures text { IsValueOf cow_str_bytes (as_text (cow_slice_items bytes.entry)) result }
    ensures no_memory { IfErr result (λ e. e ≡ ValueError.Escape EscapeError.NonAsciiCharInByte) }
    ensures borrowed { IsBorrowedSlice bytes.entry → IfOk result IsBorrowedStr }
{
    match bytes {
        CowSlice::Borrowed(bytes) => match str::from_utf8(bytes) {
            Ok(text) => Ok(CowStr::Borrowed(text)),
            Err(_) => Err(NO_TEXT),
        },
        CowSlice::Owned(bytes) => match String::from_utf8(bytes) {
            Ok(text) => Ok(CowStr::Owned(text)),
            Err(_) => Err(NO_TEXT),
        },
    }
}

/// The value of a byte string or a C string as a text; the rest is as in [`bytes_value`].
///
/// Bytes that are not UTF-8 are `Escape(NonAsciiCharInByte)`; if memory runs out before the bytes
/// are known, the result is `Memory`.
pub fn text_value<'t>(
    alloc: Global,
    mode: Mode,
    prefix: &str,
    text: &'t str,
) -> Result<CowStr<'t, Global>, ValueError>
    ensures value { IsTextOf cow_str_bytes (literal_value (meanings mode) mode prefix.now text.now)
        result }
    ensures borrowed { can_borrow prefix.now text.now ≡ true → TakesNoMemory IsBorrowedStr result }
{
    let bytes = bytes_value(alloc, mode, prefix, text)?;
    bytes_text(bytes)
}
