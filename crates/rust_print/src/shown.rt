//! Texts of files on a terminal.
ghost use Rattle.std.specs.Prelude.{ℕ, ◌≡◌, ◌<◌, ◌≤◌, nat_lt, length, take};
ghost use Rattle.std.specs.Str.{IsCharBoundary};
ghost use Rattle.rust_report.specs.declared.escapes.Medium.TheVariants.{Name};

use crate::sarif::Uri;
use crate::source::Source;
use crate::style::Style;
use rust_report::{Escaped, Medium, Spot, WIDEST, short_of};
use std::io;
use std::io::Write;

/// A text that stays in its line: the name of a file, or a message, which may have characters of
/// the file.
pub fn name(text: &str) -> Escaped<'_>
    ensures text { result.text.now ≡ text.now }
    ensures medium { result.medium ≡ Name }
{
    Escaped {
        text,
        medium: Medium::Name,
    }
}

// Writes the name of a source and a place in it.
fn write_spot<W: Write>(out: &mut W, source: Source<'_>, at: Spot, style: Style) -> io::Result<()> {
    let (bold, plain) = (style.bold(), style.plain());
    write!(out, "{bold}{}:{at}:{plain}", name(source.name))
}

/// Writes the front of a line about a place of a file. If the source has a link, it is one to this
/// line of the file: `OSC 8` begins it on a terminal, and in its URL each character of a path that
/// is not plain is percent-encoded.
pub fn write_place<W: Write>(
    out: &mut W,
    source: Source<'_>,
    at: Spot,
    style: Style,
) -> io::Result<()> {
    if source.link.is_empty() {
        write_spot(out, source, at, style)?;
    } else {
        let uri = Uri { path: source.link };
        write!(out, "\u{1b}]8;;{uri}#{}\u{1b}\\", at.line)?;
        write_spot(out, source, at, style)?;
        out.write_all(b"\x1b]8;;\x1b\\")?;
    }
    out.write_all(b" ")
}

/// Writes the first line of a text and a line feed. Of a long line only the first part is written.
pub fn write_short<W: Write>(out: &mut W, text: &str) -> io::Result<()> {
    writeln!(out, "{}", short_of(text))
}

/// The front of a text, and whether it is not all of it. Many nodes of a tree may have long texts,
/// so none is written as a whole.
pub fn cut(text: &str) -> (&str, bool)
    ensures front { result.0.now ≡ take (length result.0.now) text.now }
    ensures short { length result.0.now ≤ 240 }
    ensures longest { (i : ℕ) → length result.0.now < i → i ≤ 240 → ¬ (IsCharBoundary text.now i) }
    ensures cut { result.1 ≡ nat_lt (length result.0.now) (length text.now) }
{
    let end = text.floor_char_boundary(WIDEST);
    let (front, _rest) = text.split_at(end);
    (front, end < text.len())
}

/// How many levels are indented. Each level costs two blanks for each of its lines, so of 100,000
/// levels they would fill a disk.
pub const DEEPEST: usize = 64;

/// Writes an indentation of two blanks for each level, at most [`DEEPEST`].
pub fn write_blanks<W: Write>(out: &mut W, levels: usize) -> io::Result<()> {
    for _i in 0..levels.min(DEEPEST) {
        out.write_all(b"  ")?;
    }
    Ok(())
}

/// The same, and for a deeper level its number.
pub fn write_indent<W: Write>(out: &mut W, levels: usize) -> io::Result<()> {
    write_blanks(out, levels)?;
    if levels > DEEPEST {
        write!(out, "{levels}: ")?;
    }
    Ok(())
}
