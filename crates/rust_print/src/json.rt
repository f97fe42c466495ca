//! JSON by `serde_json`, one object on each line.

use rust_report::{Escaped, Medium};
use serde::Serialize;
use std::alloc::Global;
use std::io;
use std::io::{ErrorKind, Write};

// A record has a text unless memory runs out.
fn text_of<T: Serialize>(alloc: Global, value: &T) -> io::Result<String> {
    match serde_json::to_string(alloc, value) {
        Ok(text) => Ok(text),
        Err(_) => Err(io::Error::from(ErrorKind::OutOfMemory)),
    }
}

// Writes a text of JSON. `serde_json` leaves control characters from U+007F on as they are, and
// characters that turn the direction of a text; they are written as escapes, which mean the same.
fn write_text<W: Write>(out: &mut W, text: &str) -> io::Result<()> {
    if text.bytes().all(|byte| byte < 0x7f) {
        return out.write_all(text.as_bytes());
    }
    let medium = Medium::Json;
    write!(out, "{}", Escaped { text, medium })
}

/// Writes a value.
pub fn write<W: Write, T: Serialize>(alloc: Global, out: &mut W, value: &T) -> io::Result<()> {
    let text = text_of(alloc, value)?;
    write_text(out, text.as_str())
}

/// Writes a value and a line feed.
pub fn write_line<W: Write, T: Serialize>(alloc: Global, out: &mut W, value: &T) -> io::Result<()> {
    write(alloc, out, value)?;
    out.write_all(b"\n")
}

/// Writes the keys of an object, without its `{` and without its end: `}`, or `]}` for one whose
/// last key is an empty list, if the items of that list are written next.
pub fn write_keys<W: Write, T: Serialize>(
    alloc: Global,
    out: &mut W,
    object: &T,
    end: &str,
) -> io::Result<()> {
    let text = text_of(alloc, object)?;
    let keys = text.as_str().strip_prefix('{').unwrap_or("");
    write_text(out, keys.strip_suffix(end).unwrap_or(""))
}
