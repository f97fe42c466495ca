//! Writing the output.
ghost use Rattle.std.specs.Prelude.{◌≡◌, ◌⊎◌, ℕ, ◌<◌, length, take, IsTrue, MatchBool};
ghost use Rattle.std.specs.Io.KnownBytes.{Appends};
ghost use Rattle.syntax_tool.specs.Output.{Wrote};

use std::io::Write;

// Writes all of `bytes`, or a prefix of them if the writer fails: by an error, or by taking none of
// what is left.
fn write_all<W: Write>(writer: &mut W, bytes: &[u8]) -> bool
    ensures { MatchBool result (Appends (W.contents writer.old) (W.contents writer.new) bytes.now)
        ((n : ℕ) × (n < length bytes.now)
        × Appends (W.contents writer.old) (W.contents writer.new) (take n bytes.now)) }
{
    let mut rest = bytes;
    while !rest.is_empty() {
        match writer.write(rest) {
            Ok(0) => return false,
            Err(_) => return false,
            Ok(count) => rest = &rest[count..],
        }
    }
    true
}

// Writes an output, and returns the exit status: 1 if the writer fails.
pub(crate) fn write_output<W: Write>(writer: &mut W, text: &str, status: u8) -> u8
    ensures { Wrote (W.contents writer.old) (W.contents writer.new) result
        (record { text = text.now; status = status }) }
{
    if write_all(writer, text.as_bytes()) {
        status
    } else {
        1
    }
}
