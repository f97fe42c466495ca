//! The calls that are measured.
use crate::stopped::Stopped;
use literal_escape::{Mode, unescape_str};
use ras_token_ext::{bytes_value, string_content, string_value};
use std::alloc::Global;

#[derive(Clone, Copy)]
pub enum Call {
    /// The value as a text.
    StringValue,
    /// The value of a byte string with this content, as bytes.
    BytesValue,
    /// The units of the content, one by one, with nothing made of them.
    Units,
}

// How many units a content has.
fn units(content: &str) -> usize {
    let mut count: usize = 0;
    unescape_str(content, |_range, _unit| {
        count = count.wrapping_add(1);
    });
    count
}

impl Call {
    /// Its name in the table.
    pub fn name(self) -> &'static str {
        match self {
            Call::StringValue => "string_value",
            Call::BytesValue => "bytes_value",
            Call::Units => "units",
        }
    }

    /// Whether it reads a byte string.
    pub fn is_of_bytes(self) -> bool {
        matches!(self, Call::BytesValue)
    }

    /// Calls it on a literal, and returns how many bytes or units it gave.
    pub fn run(self, alloc: Global, literal: &str) -> Result<usize, Stopped> {
        match self {
            Call::StringValue => Ok(string_value(alloc, literal)?.as_str().len()),
            Call::BytesValue => Ok(
                bytes_value(alloc, Mode::ByteStr, "r", literal)?
                    .as_slice()
                    .len(),
            ),
            Call::Units => Ok(string_content(literal).map_or(0, |content| units(content))),
        }
    }
}
