//! Where the lines of a text start, without the text.
ghost use Rattle.std.specs.Prelude.{◌≡◌, ◌<◌, ◌≤◌, ◌^◌, ◌+◌, ◌-◌, ◌++◌, ℕ, List, length, take};
ghost use Rattle.std.specs.Prelude.{IfOk, OnOk, OnErr, MatchOption};
ghost use Rattle.std.specs.Option.{SomeIff};
ghost use Rattle.std.specs.List.{splice};
ghost use Rattle.line_index.specs.Lines.{line_col_at, line_feeds, starts_after, IsIndexOf};
ghost use Rattle.line_index.specs.Lines.{IsOffset, NoOffset, IsLine, IsLineStart};

use crate::line_col::LineCol;
use memchr::memchr_iter;
use std::alloc::{AllocError, Global};
use std::marker::Model;
use text_size::{TextRange, TextSize};

/// The starts of a text's lines, without the text: for a program that keeps them while the text is
/// edited.
///
/// Its calls answer for the text that the numbers are of: the one that `new` was given, with each
/// edit that `edit` was told of. A clause sees the numbers, and says what a call gives for each
/// text that has these numbers. `LineIndex` has the text beside them.
#[derive(Drop)]
pub struct LineStarts {
    // The start of each line, in order: 0, and the offset after each line feed.
    starts: Vec<u32>,
    // The length of the text.
    len: u32,
}

impl Model for LineStarts {
    ghost use Rattle.line_index.specs.Lines.{Numbers, HasText};

    ghost Value = { Numbers };

    ghost view = { λ a. record { starts = a.starts.items; len = a.len } };

    ghost invariant = { λ a. HasText (record { starts = a.starts.items; len = a.len }) };
}

impl LineStarts {
    /// Finds the lines of a text of less than 4 GiB, in time linear in its length.
    ///
    /// # Errors
    ///
    /// `AllocError` if memory runs out.
    pub fn new(alloc: Global, text: &str) -> Result<LineStarts, AllocError>
        requires { length text.now < 2 ^ 32 }
        ensures { IfOk result (IsIndexOf text.now) }
    {
        let mut starts = Vec::new(alloc);
        starts.push(0)?;
        push_starts(&mut starts, 0, text)?;
        let len = text.len() as u32;
        Ok(LineStarts { starts, len })
    }

    /// The length of the text.
    pub fn text_len(&self) -> TextSize
        ensures { result ≡ self.now.len }
    {
        TextSize::new(self.len)
    }

    /// The line and the column of an offset, or `None` if it is past the end of the text.
    ///
    /// The line is the number of line feeds before the offset. In the text `"a\nbc"` offset 1 is
    /// line 0 and column 1, offset 2 is line 1 and column 0, and offset 4, the text's end, is line
    /// 1 and column 2. Takes time logarithmic in the number of lines.
    pub fn line_col(&self, offset: TextSize) -> Option<LineCol>
        ensures { (s : List ℕ) → IsIndexOf s self.now
            → SomeIff result (offset ≤ length s) (line_col_at s offset) }
    {
        let offset = offset.raw();
        if self.len < offset {
            return None;
        }
        let line = self.line_at(offset);
        Some(LineCol {
            line: line as u32,
            col: offset - self.starts[line],
        })
    }

    /// The offset with this line and column, or `None` if the text has no such line, or the line no
    /// such column.
    ///
    /// A line feed is the last byte of its line, so the offset after it has another line. The
    /// text's end is an offset of the last line. Inverse to `line_col`. Takes constant time.
    pub fn offset(&self, at: LineCol) -> Option<TextSize>
        ensures { (s : List ℕ) → IsIndexOf s self.now
            → MatchOption result (NoOffset s at) (IsOffset s at) }
    {
        let len = self.len;
        let line = at.line as usize;
        let offset = self.start(line)?.checked_add(at.col)?;
        let last = match self.start(line + 1) {
            Some(next) => next - 1,
            None => len,
        };
        if last < offset {
            return None;
        }
        Some(TextSize::new(offset))
    }

    /// The range of a line with its line feed, or `None` if the text has no such line. Takes
    /// constant time.
    pub fn line(&self, line: u32) -> Option<TextRange>
        ensures { (s : List ℕ) → IsIndexOf s self.now
            → MatchOption result (line_feeds s < line) (IsLine s line) }
    {
        let line = line as usize;
        let start = self.start(line)?;
        let end = match self.start(line + 1) {
            Some(next) => next,
            None => self.len,
        };
        Some(TextRange::new(TextSize::new(start), TextSize::new(end)))
    }

    /// Makes the numbers those of the text in which `insert` stands in place of the range `delete`.
    ///
    /// The range is one of the text before the edit, so it may not go past that text's end,
    /// `text_len`; and the text after the edit must be shorter than 4 GiB. An empty range inserts,
    /// before what is at that offset, and an empty `insert` deletes. Of several edits with ranges
    /// of one text, the last in the text is told first.
    ///
    /// ```
    /// let mut lines = LineStarts::new(alloc, "a\nb\nc")?;
    /// lines.edit(alloc, TextRange::empty(TextSize::new(2)), "x\n\n")?;
    /// // The text is now "a\nx\n\nb\nc".
    /// let delete = TextRange::new(TextSize::new(1), TextSize::new(5));
    /// lines.edit(alloc, delete, "")?;
    /// // The text is now "ab\nc", whose line 1 starts at offset 3.
    /// ```
    ///
    /// It reads no text but `insert`. It takes time linear in that and in the number of lines that
    /// start behind the range's start, and logarithmic in the number of all lines. Until it returns
    /// it takes memory for the starts of the lines behind the edit, as many again.
    ///
    /// # Errors
    ///
    /// `AllocError` if memory runs out; then the numbers are unchanged.
    pub fn edit(&mut self, alloc: Global, delete: TextRange, insert: &str) -> Result<(), AllocError>
        requires within { delete.end ≤ self.old.len }
        requires fits { self.old.len - (delete.end - delete.start) + length insert.now < 2 ^ 32 }
        ensures edited { (s : List ℕ) → IsIndexOf s self.old
            → OnOk result (IsIndexOf (splice s delete.start delete.end insert.now) self.new) }
        ensures unchanged { OnErr result (self.new ≡ self.old) }
    {
        let start = delete.start().raw();
        let end = delete.end().raw();
        let inserted_end = start + insert.len() as u32;
        let kept = self.line_at(start) + 1;
        let behind = self.line_at(end) + 1;
        let mut later = Vec::new(alloc);
        push_starts(&mut later, start, insert)?;
        for old in self.starts[behind..].iter() {
            later.push(*old - end + inserted_end)?;
        }
        replace_from(&mut self.starts, kept, &later)?;
        self.len = self.len - end + inserted_end;
        Ok(())
    }

    // The line of an offset in the text.
    fn line_at(&self, offset: u32) -> usize
        requires { offset ≤ self.now.len }
        ensures { (s : List ℕ) → IsIndexOf s self.now → result ≡ line_feeds (take offset s) }
    {
        match self.starts.binary_search(&offset) {
            Ok(line) => line,
            Err(next) => next - 1,
        }
    }

    // The start of a line, or `None` if the text has no such line.
    pub(crate) fn start(&self, line: usize) -> Option<u32>
        ensures { (s : List ℕ) → IsIndexOf s self.now
            → MatchOption result (line_feeds s < line) (IsLineStart s line) }
    {
        self.starts.get(line).copied()
    }
}

// Adds where a line starts after each line feed of a text that starts at this offset.
fn push_starts(starts: &mut Vec<u32>, offset: u32, text: &str) -> Result<(), AllocError>
    requires { offset + length text.now < 2 ^ 32 }
    ensures { OnOk result (starts.new.items ≡ starts.old.items ++ starts_after offset text.now) }
{
    for at in memchr_iter(b'\n', text.as_bytes()) {
        starts.push(offset + at as u32 + 1)?;
    }
    Ok(())
}

// Keeps the first `kept` starts, and puts the later ones behind them. If memory runs out all stay
// as they are.
fn replace_from(starts: &mut Vec<u32>, kept: usize, later: &[u32]) -> Result<(), AllocError>
    requires { kept ≤ length starts.old.items }
    ensures ok { OnOk result (starts.new.items ≡ take kept starts.old.items ++ later.now) }
    ensures err { OnErr result (starts.new.items ≡ starts.old.items) }
{
    let replaced = starts.len() - kept;
    starts.reserve(later.len().saturating_sub(replaced))?;
    starts.truncate(kept);
    // There is room for them, so this does not fail.
    starts.extend_from_slice(later)
}
