//! Places of a text by line and column, counted from 1.
ghost use Rattle.std.specs.Prelude.{◌≡◌, ℕ, MatchOption, IfSome, IsSome};
ghost use Rattle.rust_report.specs.Spots.{IsSpot, NoSpot, spot_of};

use line_index::{LineIndex, WideEncoding, WideLineCol, WidePlaces};
use std::fmt;
use std::marker::Model;
use text_size::TextSize;

/// A line and a column, both counted from 1, the column in characters. It prints as `line:column`.
#[derive(Clone, Copy, Debug, PartialEq, Eq)]
pub struct Spot {
    /// The number of the line.
    pub line: u64,
    /// One more than the number of characters of the line before the place.
    pub column: u64,
}

impl fmt::Display for Spot {
    ghost use Rattle.std.specs.Prelude.{Some};
    ghost use Rattle.rust_report.specs.Spots.{spot_text};

    ghost output = { λ at. Some (spot_text at) };

    fn fmt<W: fmt::Write>(&self, f: &mut fmt::Formatter<W>) -> fmt::Result {
        write!(f, "{}:{}", self.line, self.column)
    }
}

/// Lines and columns of offsets of a text. For offsets in ascending order they take time linear in
/// the text in all, however long its lines are. A clause sees the bytes of the text.
#[derive(Drop)]
pub struct Spots<'a> {
    // Its columns are in characters.
    places: WidePlaces<'a>,
}

impl<'a> Model for Spots<'a> {
    ghost use Rattle.std.specs.Prelude.{◌≡◌, ℕ, List};
    ghost use Rattle.line_index.specs.declared.line_col.WideEncoding.TheVariants.{Utf32};

    ghost Value = { List ℕ };

    ghost view = { λ a. a.places.1 };

    ghost invariant = { λ a. a.places.0 ≡ Utf32 };
}

impl<'a> Spots<'a> {
    /// The lines and columns of a text.
    pub fn new(lines: LineIndex<'a>) -> Spots<'a>
        ensures { result ≡ lines.entry }
    {
        Spots {
            places: WidePlaces::new(lines, WideEncoding::Utf32),
        }
    }

    /// The lines of the text.
    pub fn lines(&self) -> &LineIndex<'a>
        ensures { result.now ≡ self.now }
    {
        self.places.index()
    }

    /// The line and the column of an offset. Returns `None` if the offset is past the end of the
    /// text or inside a character.
    ///
    /// Takes time linear in the bytes between the last offset that was moved to and this one if
    /// both are in one line in this order, and otherwise in the column; beside that, logarithmic in
    /// the number of lines.
    pub fn spot(&self, offset: TextSize) -> Option<Spot>
        ensures { MatchOption result (NoSpot self.now offset) (IsSpot self.now offset) }
    {
        let wide = self.places.wide_line_col(offset)?;
        Some(spot_of(wide))
    }

    /// The same, and moves to the offset. Does not move if the result is `None`.
    pub fn move_to(&mut self, offset: TextSize) -> Option<Spot>
        ensures spot { MatchOption result (NoSpot self.old offset) (IsSpot self.old offset) }
        ensures text { self.new ≡ self.old }
    {
        let wide = self.places.move_to(offset)?;
        Some(spot_of(wide))
    }
}

/// A line and a column that are counted from 0, counted from 1.
pub fn spot_of(at: WideLineCol) -> Spot
    ensures { result ≡ spot_of at }
{
    Spot {
        line: at.line as u64 + 1,
        column: at.col as u64 + 1,
    }
}

/// The offset with this line and column, both counted from 0, the column in characters. Returns
/// `None` if the text has no such place.
///
/// Takes time linear in the column.
pub fn offset_of(lines: &LineIndex<'_>, at: WideLineCol) -> Option<TextSize>
    ensures found { IfSome result (λ o. IsSpot lines.now o (spot_of at)) }
    ensures some { (o : ℕ) → IsSpot lines.now o (spot_of at) → IsSome result }
{
    let place = lines.to_utf8(WideEncoding::Utf32, at)?;
    lines.offset(place)
}
