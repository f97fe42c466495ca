//! Lines of a text, as reports show them.
ghost use Rattle.std.specs.Prelude.{◌≡◌};
ghost use Rattle.std.specs.Str.Lines.{strip_carriage_return};
ghost use Rattle.rust_report.specs.Texts.{first_line, is_line_end, shown_line, ShowsLine, IsFloor, IsWindow, IsExcerpt};

use line_index::LineIndex;
use text_size::TextSize;

/// The first line of a text, without its line feed and one carriage return before that. Returns all
/// of a text without a line feed.
pub fn first_line(text: &str) -> &str
    ensures { result.now ≡ first_line text.now }
{
    match text.split_once('\n') {
        Some((line, _)) => without_return(line),
        None => text,
    }
}

// A line without the carriage return at its end.
fn without_return(line: &str) -> &str
    ensures { result.now ≡ strip_carriage_return line.now }
{
    let bytes = line.as_bytes();
    if !bytes.is_empty() && bytes[bytes.len() - 1] == b'\r' {
        &line[..bytes.len() - 1]
    } else {
        line
    }
}

fn is_line_end(byte: u8) -> bool
    ensures { result ≡ is_line_end byte }
{
    byte == b'\n' || byte == b'\r'
}

// A line without the line feeds and carriage returns at its end.
fn shown_line(line: &str) -> &str
    ensures { result.now ≡ shown_line line.now }
{
    let bytes = line.as_bytes();
    let mut end = bytes.len();
    while end > 0 && is_line_end(bytes[end - 1]) {
        end -= 1;
    }
    &line[..end]
}

/// The line of a text that an offset is in, without the line feed and carriage returns at its end.
/// Returns an empty text if the offset is past the end. `lines` is the index of `text`.
///
/// Takes time logarithmic in the number of lines.
pub fn line_at<'a>(text: &'a str, lines: &LineIndex<'_>, offset: TextSize) -> &'a str
    ensures { text.now ≡ lines.now → ShowsLine text.now offset result.now }
{
    let Some(place) = lines.line_col(offset) else {
        return "";
    };
    let Some(range) = lines.line(place.line) else {
        return "";
    };
    match text.get(range.start().raw() as usize..range.end().raw() as usize) {
        Some(line) => shown_line(line),
        None => "",
    }
}

/// The part of a line that a report shows of a range in it.
#[derive(Clone, Copy, Debug)]
pub struct Excerpt<'a> {
    /// Whether the line has text before the part.
    pub is_cut_before: bool,
    /// The text of the part before the range.
    pub before: &'a str,
    /// The text of the range within the part.
    pub marked: &'a str,
    /// The text of the part after the range.
    pub after: &'a str,
    /// Whether the line has text after the part.
    pub is_cut_after: bool,
}

/// A line with more bytes is not shown as a whole.
pub const WIDEST: usize = 240;

/// At most this many bytes of such a line are shown before the start of a range.
pub const BEFORE: usize = 80;

/// At most this many bytes of such a line are shown from the start of a range on.
pub const AFTER: usize = 160;

// Where the part of a line around a place starts and ends.
fn window(line: &str, at: usize) -> (usize, usize)
    requires { IsFloor line.now at at }
    ensures { IsWindow line.now at result.0 result.1 }
{
    if line.len() <= WIDEST {
        return (0, line.len());
    }
    (
        line.floor_char_boundary(at.saturating_sub(BEFORE)),
        line.floor_char_boundary(at.saturating_add(AFTER)),
    )
}

/// The part of a line around the range from `start` to `end`, both counted in bytes from the start
/// of the line. It is the whole line if that has at most [`WIDEST`] bytes; otherwise it starts up
/// to [`BEFORE`] bytes before the range, and ends up to [`AFTER`] bytes after the range's start. An
/// offset inside a character counts as that of the character, and one past the end of the line as
/// the end.
///
/// Takes constant time.
pub fn excerpt_of(line: &str, start: usize, end: usize) -> Excerpt<'_>
    ensures { IsExcerpt line.now start end result }
{
    let from = line.floor_char_boundary(start);
    let (first, last) = window(line, from);
    let to = line.floor_char_boundary(end).max(from).min(last);
    Excerpt {
        is_cut_before: first > 0,
        before: &line[first..from],
        marked: &line[from..to],
        after: &line[to..last],
        is_cut_after: last < line.len(),
    }
}
