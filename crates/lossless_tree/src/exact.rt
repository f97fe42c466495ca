//! Formats a value into a string that is allocated once.
ghost use Rattle.std.specs.Prelude.{◌≡◌, ◌+◌, length, IfOk, IfSome, string_bytes};

use std::alloc::{AllocError, Global};
use std::fmt;
use std::fmt::{Display, Write};

// Counts the bytes that are written to it. More than `usize::MAX` of them are an error.
#[derive(Drop)]
struct Length {
    bytes: usize,
}

impl Write for Length {
    ghost write_str_gives = { λ old text new. new.bytes ≡ old.bytes + length text };

    fn write_str(&mut self, text: &str) -> fmt::Result {
        match self.bytes.checked_add(text.len()) {
            Some(bytes) => {
                self.bytes = bytes;
                Ok(())
            }
            None => Err(fmt::Error),
        }
    }
}

// How many bytes `{}` writes of a value.
fn printed_len<D: Display>(value: &D) -> Result<usize, fmt::Error>
    ensures { IfOk result (λ n. IfSome (D.output value.now) (λ text. n ≡ length text)) }
{
    let mut length = Length { bytes: 0 };
    write!(length, "{value}")?;
    Ok(length.bytes)
}

/// Formats a value with `{}`, as `to_string` does, into a string whose capacity is its length.
///
/// It formats the value twice, first to count the bytes, so that memory is allocated once:
/// `to_string` doubles its buffer as it grows. If formatting fails, the result is an `AllocError`
/// too.
pub fn exact_string<D: Display>(alloc: Global, value: &D) -> Result<String, AllocError>
    ensures { IfOk result (λ s. IfSome (D.output value.now) (λ text. string_bytes s ≡ text)) }
{
    let Ok(len) = printed_len(value) else {
        return Err(AllocError);
    };
    let mut out = String::with_capacity(alloc, len)?;
    write!(out, "{value}")?;
    Ok(out)
}
