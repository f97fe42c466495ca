//! Lines that show a place of a text on a terminal.
ghost use Rattle.std.specs.Prelude.{◌≡◌, ◌≤◌, chars, replicate};
ghost use Rattle.std.specs.List.{flat_map};
ghost use Rattle.std.specs.Fmt.{WritesOnOk};
ghost use Rattle.rust_report.specs.Shown.{ellipsis, columns_of, blanks_below, carets_below, carets, margin, shown_part, marks_below, ShowsRange, IsShort};

use crate::escapes::{Medium, picture, write_escaped};
use crate::texts::{Excerpt, excerpt_of, first_line, line_at};
use line_index::LineIndex;
use std::fmt;
use std::fmt::{Formatter, Write};
use text_size::TextRange;
use unicode_width::UnicodeWidthChar;

/// Prints the part as a terminal shows it: control characters as their pictures, and `…` in place
/// of text that is left out.
impl<'a> fmt::Display for Excerpt<'a> {
    ghost use Rattle.std.specs.Prelude.{Some};
    ghost use Rattle.rust_report.specs.Shown.{shown_part};

    ghost output = { λ e. Some (shown_part e) };

    fn fmt<W: Write>(&self, f: &mut Formatter<W>) -> fmt::Result {
        f.write_str(ellipsis(self.is_cut_before))?;
        write_escaped(f, Medium::Terminal, self.before)?;
        write_escaped(f, Medium::Terminal, self.marked)?;
        write_escaped(f, Medium::Terminal, self.after)?;
        f.write_str(ellipsis(self.is_cut_after))
    }
}

/// Prints the line below an [`Excerpt`] on a terminal: blanks below the text before the range, and
/// a `^` below each column of the range, at least one for each character and for an empty range. A
/// character is as wide as `unicode_width` says; a tab before the range stays a tab.
#[derive(Clone, Copy, Debug)]
pub struct Marks<'a> {
    /// The line above.
    pub excerpt: Excerpt<'a>,
}

impl<'a> fmt::Display for Marks<'a> {
    ghost use Rattle.std.specs.Prelude.{Some};
    ghost use Rattle.rust_report.specs.Shown.{marks_below};

    ghost output = { λ m. Some (marks_below m.excerpt) };

    fn fmt<W: Write>(&self, f: &mut Formatter<W>) -> fmt::Result {
        f.write_str(margin(self.excerpt.is_cut_before))?;
        write_blanks(f, self.excerpt.before)?;
        write_marks(f, self.excerpt.marked)
    }
}

// The sign in place of text that is left out.
fn ellipsis(is_cut: bool) -> &'static str
    ensures { result.now ≡ ellipsis is_cut }
{
    if is_cut { "…" } else { "" }
}

// The blank below that sign.
fn margin(is_cut: bool) -> &'static str
    ensures { result.now ≡ margin is_cut }
{
    if is_cut { " " } else { "" }
}

// How many columns a character takes on a terminal; a tab counts as one.
fn columns_of(c: char) -> usize
    ensures value { result ≡ columns_of c }
    ensures bound { result ≤ 3 }
{
    picture(c).width().unwrap_or(1)
}

fn blanks(columns: usize) -> &'static str
    requires { columns ≤ 3 }
    ensures { result.now ≡ replicate columns 32 }
{
    match columns {
        0 => "",
        1 => " ",
        2 => "  ",
        _ => "   ",
    }
}

fn carets(columns: usize) -> &'static str
    requires { columns ≤ 3 }
    ensures { result.now ≡ replicate columns 94 }
{
    match columns {
        0 => "",
        1 => "^",
        2 => "^^",
        _ => "^^^",
    }
}

// White space as wide as a character; a tab stays a tab.
fn blanks_below(c: char) -> &'static str
    ensures { result.now ≡ blanks_below c }
{
    if c == '\t' {
        "\t"
    } else {
        blanks(columns_of(c))
    }
}

// A `^` for each column of a character, at least one.
fn carets_below(c: char) -> &'static str
    ensures { result.now ≡ carets_below c }
{
    let columns = columns_of(c);
    if columns == 0 { "^" } else { carets(columns) }
}

fn write_blanks<W: Write>(f: &mut Formatter<W>, text: &str) -> fmt::Result
    ensures { WritesOnOk W.write_str_gives f.old result (flat_map blanks_below (chars text.now))
        f.new }
{
    for c in text.chars() {
        f.write_str(blanks_below(c))?;
    }
    Ok(())
}

fn write_carets<W: Write>(f: &mut Formatter<W>, text: &str) -> fmt::Result
    ensures { WritesOnOk W.write_str_gives f.old result (flat_map carets_below (chars text.now))
        f.new }
{
    for c in text.chars() {
        f.write_str(carets_below(c))?;
    }
    Ok(())
}

// A `^` below each column of a text, or one if it is empty.
fn write_marks<W: Write>(f: &mut Formatter<W>, text: &str) -> fmt::Result
    ensures { WritesOnOk W.write_str_gives f.old result (carets text.now) f.new }
{
    if text.is_empty() {
        f.write_str("^")
    } else {
        write_carets(f, text)
    }
}

/// The part of the line that a range starts in, around the range. An offset past the end of the
/// text has an empty line.
///
/// Takes time logarithmic in the number of lines.
pub fn excerpt_at<'a>(lines: &LineIndex<'a>, range: TextRange) -> Excerpt<'a>
    ensures { ShowsRange lines.now range result }
{
    let line = line_at(lines.text(), lines, range.start());
    let column = match lines.line_col(range.start()) {
        Some(place) => place.col as usize,
        None => 0,
    };
    excerpt_of(line, column, column + range.len().raw() as usize)
}

/// The first line of a text; of a long line only the first part. It is cut after if something of
/// the text is left out.
///
/// Takes time linear in the line.
pub fn short_of(text: &str) -> Excerpt<'_>
    ensures { IsShort text.now result }
{
    let line = first_line(text);
    let part = excerpt_of(line, 0, line.len());
    Excerpt {
        is_cut_after: part.is_cut_after || line.len() < text.len(),
        ..part
    }
}
