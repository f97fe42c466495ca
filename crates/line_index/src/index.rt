//! Where the lines of a text start.
ghost use Rattle.std.specs.Prelude.{◌≡◌, ◌<◌, ◌≤◌, ◌^◌, length, take, IfOk, MatchOption};
ghost use Rattle.std.specs.Option.{SomeIff};
ghost use Rattle.std.specs.Str.{IsUtf8};
ghost use Rattle.line_index.specs.Lines.{line_col_at, line_feeds, IsIndexOf, IsOffset, NoOffset};
ghost use Rattle.line_index.specs.Lines.{IsLine, IsLineStart, IsWide, NoChar, NoWide};

use crate::line_col::{LineCol, WideEncoding, WideLineCol};
use crate::starts::LineStarts;
use std::alloc::{AllocError, Global};
use std::marker::Model;
use text_size::{TextRange, TextSize};

/// The starts of a text's lines, for the line and the column of an offset and back. A clause sees
/// the bytes of the text.
///
/// A line ends after its line feed (`\n`), or at the end of the text. So a text has one line more
/// than it has line feeds. It has the name, and calls, of the type in the crate `line-index`, and
/// borrows the text.
#[derive(Drop)]
pub struct LineIndex<'a> {
    text: &'a str,
    lines: LineStarts,
}

impl<'a> Model for LineIndex<'a> {
    ghost use Rattle.std.specs.Prelude.{◌<◌, ◌^◌, ℕ, List, length};
    ghost use Rattle.std.specs.Coded.{coded_list, coded_ℕ};
    ghost use Rattle.std.specs.Str.{IsUtf8};
    ghost use Rattle.line_index.specs.Lines.{IsIndexOf};

    ghost Value = { List ℕ };

    ghost coded = { coded_list coded_ℕ };

    ghost view = { λ a. a.text.now };

    ghost invariant = { λ a. IsIndexOf a.text.now a.lines × (length a.text.now < 2 ^ 32)
        × IsUtf8 a.text.now };
}

impl<'a> LineIndex<'a> {
    /// Finds the lines of a text of less than 4 GiB, in time linear in its length.
    ///
    /// # Errors
    ///
    /// `AllocError` if memory runs out.
    pub fn new(alloc: Global, text: &'a str) -> Result<LineIndex<'a>, AllocError>
        requires { length text.now < 2 ^ 32 }
        ensures { IfOk result (λ index. index ≡ text.now) }
    {
        let lines = LineStarts::new(alloc, text)?;
        Ok(LineIndex { text, lines })
    }

    /// The lines of a text whose numbers are known, as of one whose edits `LineStarts::edit` was
    /// told. Takes constant time.
    pub fn from_starts(text: &'a str, lines: LineStarts) -> LineIndex<'a>
        requires { IsIndexOf text.now lines }
        ensures { result ≡ text.now }
    {
        LineIndex { text, lines }
    }

    /// The numbers, without the text.
    pub fn into_starts(self) -> LineStarts
        ensures { IsIndexOf self.entry result }
    {
        self.lines
    }

    /// The text whose lines these are.
    pub fn text(&self) -> &'a str
        ensures { result.now ≡ self.now }
    {
        self.text
    }

    /// The line and the column of an offset, or `None` if it is past the end of the text.
    ///
    /// The line is the number of line feeds before the offset. In the text `"a\nbc"` offset 1 is
    /// line 0 and column 1, offset 2 is line 1 and column 0, and offset 4, the text's end, is line
    /// 1 and column 2. Takes time logarithmic in the number of lines.
    pub fn line_col(&self, offset: TextSize) -> Option<LineCol>
        ensures { SomeIff result (offset ≤ length self.now) (line_col_at self.now offset) }
    {
        self.lines.line_col(offset)
    }

    /// The offset with this line and column, or `None` if the text has no such line, or the line no
    /// such column.
    ///
    /// A line feed is the last byte of its line, so the offset after it has another line. The
    /// text's end is an offset of the last line. Inverse to `line_col`.
    pub fn offset(&self, at: LineCol) -> Option<TextSize>
        ensures { MatchOption result (NoOffset self.now at) (IsOffset self.now at) }
    {
        self.lines.offset(at)
    }

    /// The range of a line with its line feed, or `None` if the text has no such line.
    pub fn line(&self, line: u32) -> Option<TextRange>
        ensures { MatchOption result (line_feeds self.now < line) (IsLine self.now line) }
    {
        self.lines.line(line)
    }

    /// The same place with its column in units of an encoding, or `None` if the text has no such
    /// place, or it is inside a character.
    ///
    /// Takes time linear in the column.
    pub fn to_wide(&self, encoding: WideEncoding, at: LineCol) -> Option<WideLineCol>
        ensures { MatchOption result (NoChar self.now at) (IsWide encoding self.now at) }
    {
        let start = self.start(at.line as usize)? as usize;
        let end = self.offset(at)?.raw() as usize;
        if !self.text.is_char_boundary(end) {
            return None;
        }
        let before = &self.text[start..end];
        Some(WideLineCol {
            line: at.line,
            col: encoding.len_of(before),
        })
    }

    // The same as `to_wide`, counted on from a place with a known wide column if that is before
    // `at` in the same line. Takes time linear in the bytes between the two then.
    pub(crate) fn to_wide_from(
        &self,
        encoding: WideEncoding,
        from: LineCol,
        wide: WideLineCol,
        at: LineCol,
    ) -> Option<WideLineCol>
        requires { IsWide encoding self.now from wide }
        ensures { MatchOption result (NoChar self.now at) (IsWide encoding self.now at) }
    {
        if from.line != at.line || at.col < from.col {
            return self.to_wide(encoding, at);
        }
        let end = self.offset(at)?.raw() as usize;
        if !self.text.is_char_boundary(end) {
            return None;
        }
        let line = self.start(at.line as usize)?;
        let start = (line + from.col) as usize;
        let between = &self.text[start..end];
        Some(WideLineCol {
            line: at.line,
            col: wide.col + encoding.len_of(between),
        })
    }

    /// The same place with its column in bytes, or `None` if the text has no such line, or no
    /// character of the line starts at such a column. The end of the text counts as the start of a
    /// character.
    ///
    /// Inverse to `to_wide`. Takes time linear in the column.
    pub fn to_utf8(&self, encoding: WideEncoding, at: WideLineCol) -> Option<LineCol>
        ensures { MatchOption result (NoWide encoding self.now at)
            (λ place. IsWide encoding self.now place at) }
    {
        let start = self.start(at.line as usize)? as usize;
        let rest = &self.text[start..];
        let col = encoding.bytes_of(at.col, rest)?;
        let place = LineCol { line: at.line, col };
        self.offset(place)?;
        Some(place)
    }

    // The text is UTF-8. The function does nothing; a proof takes the fact from its call.
    pub(crate) fn is_utf8(&self)
        ensures { IsUtf8 self.now }
    {
        let _ = &self.text;
    }

    // The start of a line, or `None` if the text has no such line.
    fn start(&self, line: usize) -> Option<u32>
        ensures { MatchOption result (line_feeds self.now < line) (IsLineStart self.now line) }
    {
        self.lines.start(line)
    }
}
