//! Places and ranges of a text, as a command line names them.
ghost use Rattle.std.specs.Prelude.{MatchOption};
ghost use Rattle.rust_report.specs.Asked.{Writes, WritesNone, IsOrdinal, NoOrdinal, IsPlace, NoPlace, IsRange, NoRange};

use line_index::WideLineCol;
use text_size::{TextRange, TextSize};

// Reads a number in decimal digits, which may have a `+` before them. Returns `None` if the text is
// not a number, or one past 32 bits.
fn number(text: &str) -> Option<u32>
    ensures { MatchOption result (WritesNone text.now) (Writes text.now) }
{
    text.parse::<u32>().ok()
}

// Reads a number that counts from 1, and returns it as one that counts from 0. Returns `None` if it
// is 0 or not a number.
fn from_one(text: &str) -> Option<u32>
    ensures { MatchOption result (NoOrdinal text.now) (IsOrdinal text.now) }
{
    number(text)?.checked_sub(1)
}

/// Reads a place such as `3:14`: a line, `:` and a column, both decimal numbers from 1 to 2^32 - 1,
/// which may have a `+` before them. The result counts both from 0. Returns `None` for every other
/// text.
pub fn place_of(text: &str) -> Option<WideLineCol>
    ensures { MatchOption result (NoPlace text.now) (IsPlace text.now) }
{
    let (line, column) = text.split_once(':')?;
    let line = from_one(line)?;
    let col = from_one(column)?;
    Some(WideLineCol { line, col })
}

/// Reads a range of bytes such as `3..14`: its start, `..` and its end, both decimal numbers below
/// 2^32, which may have a `+` before them. Returns `None` for every other text, and if the end is
/// less than the start.
pub fn range_of(text: &str) -> Option<TextRange>
    ensures { MatchOption result (NoRange text.now) (IsRange text.now) }
{
    let (start, end) = text.split_once("..")?;
    let start = number(start)?;
    let end = number(end)?;
    if end < start {
        return None;
    }
    Some(TextRange::new(TextSize::new(start), TextSize::new(end)))
}
