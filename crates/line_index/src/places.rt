//! Wide lines and columns of many offsets.
ghost use Rattle.std.specs.Prelude.{◌≡◌, MatchOption};
ghost use Rattle.line_index.specs.Lines.{IsWideAt, NoCharAt};

use crate::index::LineIndex;
use crate::line_col::{LineCol, WideEncoding, WideLineCol};
use std::marker::Model;
use text_size::TextSize;

/// The wide lines and columns of a text's offsets. For offsets in ascending order they take time
/// linear in the text in all, however long its lines are. A clause sees the encoding of the columns
/// and the bytes of the text.
#[derive(Drop)]
pub struct WidePlaces<'a> {
    index: LineIndex<'a>,
    encoding: WideEncoding,
    // The last place that was moved to, and the same with its wide column.
    at: LineCol,
    wide: WideLineCol,
}

impl<'a> Model for WidePlaces<'a> {
    ghost use Rattle.std.specs.Prelude.{ℕ, List};
    ghost use Rattle.line_index.specs.declared.line_col.WideEncoding.{WideEncoding};
    ghost use Rattle.line_index.specs.Lines.{IsWide};

    ghost Value = { WideEncoding × List ℕ };

    ghost view = { λ a. (a.encoding, a.index) };

    ghost invariant = { λ a. IsWide a.encoding a.index a.at a.wide };
}

impl<'a> WidePlaces<'a> {
    /// The places of a text, at its start.
    pub fn new(index: LineIndex<'a>, encoding: WideEncoding) -> WidePlaces<'a>
        ensures { result ≡ (encoding, index.entry) }
    {
        index.is_utf8();
        WidePlaces {
            index,
            encoding,
            at: LineCol { line: 0, col: 0 },
            wide: WideLineCol { line: 0, col: 0 },
        }
    }

    /// The lines of the text.
    pub fn index(&self) -> &LineIndex<'a>
        ensures { result.now ≡ self.now.1 }
    {
        &self.index
    }

    /// The line and the wide column of an offset, or `None` if it is past the end of the text or
    /// inside a character.
    ///
    /// Takes time linear in the bytes between the last offset that was moved to and this one if
    /// both are in one line in this order, and otherwise in the column; beside that, logarithmic in
    /// the number of lines.
    pub fn wide_line_col(&self, offset: TextSize) -> Option<WideLineCol>
        ensures { MatchOption result (NoCharAt self.now.1 offset)
            (IsWideAt self.now.0 self.now.1 offset) }
    {
        let at = self.index.line_col(offset)?;
        self.index
            .to_wide_from(self.encoding, self.at, self.wide, at)
    }

    /// The same, and moves to the offset. Does not move if the result is `None`.
    pub fn move_to(&mut self, offset: TextSize) -> Option<WideLineCol>
        ensures wide { MatchOption result (NoCharAt self.old.1 offset)
            (IsWideAt self.old.0 self.old.1 offset) }
        ensures kept { self.new ≡ self.old }
    {
        let at = self.index.line_col(offset)?;
        let wide = self
            .index
            .to_wide_from(self.encoding, self.at, self.wide, at)?;
        self.at = at;
        self.wide = wide;
        Some(wide)
    }
}
