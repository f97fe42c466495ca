//! Lines and columns of a text, from offsets and back.
ghost use Rattle.std.specs.Prelude.{◌≡◌, ◌≤◌, ◌<◌, ◌^◌, ◌⊎◌, ◌↔◌, ℕ, ◌++◌, ◌∷◌, [], length, IfOk, IfErr, OnOk, MatchOption, IsUtf8, None};
ghost use Rattle.ras_c.specs.Border.{IsHanded, IsCounted};
ghost use Rattle.ras_c.specs.Lines.{columns_of, line_starts, HasPlace, IsPlaceOf, IsOffsetOf, NoOffsetOf, ArePlaces, HasPlaces, HasOffsets, StopsAtOffset, StopsAtPlace, IsNoPlace, IsNoOffset};
ghost use Rattle.ras_c.specs.declared.lines.Columns.TheVariants as columns;
ghost use Rattle.ras_c.specs.declared.lines.Refusal.TheVariants as refused;

use crate::fill::{hand, small};
use crate::status::{NO_MEMORY, NO_PLACE, NOT_UTF8, TOO_LONG};
use line_index::{LineIndex, WideEncoding, WideLineCol, WidePlaces};
use memchr::memchr_iter;
use std::alloc::{AllocError, Global};
use text_size::TextSize;

/// Columns are counted in bytes, the units of UTF-8.
pub const ENCODING_UTF8: u32 = 0;
/// Columns are counted in units of UTF-16, as editors count: two for a character past U+FFFF.
pub const ENCODING_UTF16: u32 = 1;
/// Columns are counted in characters, the units of UTF-32.
pub const ENCODING_UTF32: u32 = 2;
/// No encoding has the number. Nothing was written.
pub const NO_ENCODING: u32 = 18;

/// A place in a text, by its line and its column, both counted from 0.
#[repr(C)]
#[derive(Clone, Copy)]
pub struct LineCol {
    /// How many line feeds are before the place.
    pub line: u32,
    /// How many units are between the last of them, or the text's start, and the place.
    pub col: u32,
}

/// What columns are counted in.
#[derive(Clone, Copy)]
pub enum Columns {
    /// Bytes.
    Bytes,
    /// Units of an encoding.
    Wide(WideEncoding),
}

// Why a list is not converted.
#[derive(Clone, Copy)]
enum Refusal {
    Memory,
    // The element with this number has no answer.
    At(usize),
}

impl From<AllocError> for Refusal {
    ghost from_gives = { λ _ e. e ≡ refused.Memory };

    fn from(_e: AllocError) -> Refusal {
        Refusal::Memory
    }
}

/// The encoding with a number, or `None` if there is none.
pub fn columns_of(number: u32) -> Option<Columns>
    ensures { result ≡ columns_of number }
{
    match number {
        ENCODING_UTF8 => Some(Columns::Bytes),
        ENCODING_UTF16 => Some(Columns::Wide(WideEncoding::Utf16)),
        ENCODING_UTF32 => Some(Columns::Wide(WideEncoding::Utf32)),
        _ => None,
    }
}

// Where the lines of a text start.
fn line_starts(alloc: Global, text: &str) -> Result<Vec<u32>, AllocError>
    requires { length text.now < 2 ^ 32 }
    ensures { IfOk result (λ v. v.items ≡ line_starts text.now) }
{
    let mut starts = Vec::new(alloc);
    starts.push(0)?;
    for at in memchr_iter(b'\n', text.as_bytes()) {
        starts.push(at as u32 + 1)?;
    }
    Ok(starts)
}

// The place of an offset with its column in bytes; `None` if no character starts there, nor does
// the text end.
fn byte_place(index: &LineIndex, offset: u32) -> Option<LineCol>
    ensures { MatchOption result (HasPlace index.now offset → ⊥)
        (IsPlaceOf columns.Bytes index.now offset) }
{
    let found = index.line_col(TextSize::new(offset))?;
    if !index.text().is_char_boundary(offset as usize) {
        return None;
    }
    Some(LineCol {
        line: found.line,
        col: found.col,
    })
}

// The same with its column in units of an encoding.
fn wide_place(places: &mut WidePlaces, offset: u32) -> Option<LineCol>
    ensures place { MatchOption result (HasPlace places.old.1 offset → ⊥)
        (IsPlaceOf (columns.Wide places.old.0) places.old.1 offset) }
    ensures kept { places.new ≡ places.old }
{
    let found = places.move_to(TextSize::new(offset))?;
    Some(LineCol {
        line: found.line,
        col: found.col,
    })
}

// Appends one more.
fn push<T: Copy>(items: &mut Vec<T>, item: T) -> Result<(), AllocError>
    ensures { OnOk result (items.new.items ≡ items.old.items ++ item ∷ []) }
{
    items.push(item)?;
    Ok(())
}

// The places of some offsets with their columns in bytes.
fn byte_places(alloc: Global, index: &LineIndex, offsets: &[u32]) -> Result<Vec<LineCol>, Refusal>
    ensures placed { IfOk result (λ v. ArePlaces columns.Bytes index.now offsets.now v.items) }
    ensures refused { IfErr result (IsNoPlace index.now offsets.now) }
{
    let mut places = Vec::new(alloc);
    for offset in offsets {
        match byte_place(index, *offset) {
            Some(place) => push(&mut places, place)?,
            None => return Err(Refusal::At(places.len())),
        }
    }
    Ok(places)
}

// The same with their columns in units of an encoding.
fn wide_places(
    alloc: Global,
    mut text: WidePlaces,
    offsets: &[u32],
) -> Result<Vec<LineCol>, Refusal>
    ensures placed { IfOk result
        (λ v. ArePlaces (columns.Wide text.entry.0) text.entry.1 offsets.now v.items) }
    ensures refused { IfErr result (IsNoPlace text.entry.1 offsets.now) }
{
    let mut places = Vec::new(alloc);
    for offset in offsets {
        match wide_place(&mut text, *offset) {
            Some(place) => push(&mut places, place)?,
            None => return Err(Refusal::At(places.len())),
        }
    }
    Ok(places)
}

// The places of some offsets of a text.
fn places_of(
    alloc: Global,
    text: &str,
    columns: Columns,
    offsets: &[u32],
) -> Result<Vec<LineCol>, Refusal>
    requires { length text.now < 2 ^ 32 }
    ensures placed { IfOk result (λ v. ArePlaces columns text.now offsets.now v.items) }
    ensures refused { IfErr result (IsNoPlace text.now offsets.now) }
{
    let index = LineIndex::new(alloc, text)?;
    match columns {
        Columns::Bytes => byte_places(alloc, &index, offsets),
        Columns::Wide(encoding) => wide_places(alloc, WidePlaces::new(index, encoding), offsets),
    }
}

// The offset of a place whose column is in bytes; `None` if no character starts at such a place,
// nor does the text end.
fn byte_offset(index: &LineIndex, at: &LineCol) -> Option<u32>
    ensures { MatchOption result (NoOffsetOf columns.Bytes index.now at.now)
        (IsOffsetOf columns.Bytes index.now at.now) }
{
    let place = line_index::LineCol {
        line: at.line,
        col: at.col,
    };
    let offset = index.offset(place)?.raw();
    if !index.text().is_char_boundary(offset as usize) {
        return None;
    }
    Some(offset)
}

// The same of a place whose column is in units of an encoding.
fn wide_offset(index: &LineIndex, encoding: WideEncoding, at: &LineCol) -> Option<u32>
    ensures { MatchOption result (NoOffsetOf (columns.Wide encoding) index.now at.now)
        (IsOffsetOf (columns.Wide encoding) index.now at.now) }
{
    let wide = WideLineCol {
        line: at.line,
        col: at.col,
    };
    let place = index.to_utf8(encoding, wide)?;
    let offset = index.offset(place)?;
    Some(offset.raw())
}

fn offset_of(index: &LineIndex, columns: Columns, at: &LineCol) -> Option<u32>
    ensures { MatchOption result (NoOffsetOf columns index.now at.now)
        (IsOffsetOf columns index.now at.now) }
{
    match columns {
        Columns::Bytes => byte_offset(index, at),
        Columns::Wide(encoding) => wide_offset(index, encoding, at),
    }
}

// The offsets of some places of a text.
fn offsets_of(
    alloc: Global,
    text: &str,
    columns: Columns,
    places: &[LineCol],
) -> Result<Vec<u32>, Refusal>
    requires { length text.now < 2 ^ 32 }
    ensures placed { IfOk result (λ v. ArePlaces columns text.now v.items places.now) }
    ensures refused { IfErr result (IsNoOffset columns text.now places.now) }
{
    let index = LineIndex::new(alloc, text)?;
    let mut offsets = Vec::new(alloc);
    for place in places {
        match offset_of(&index, columns, place) {
            Some(offset) => push(&mut offsets, offset)?,
            None => return Err(Refusal::At(offsets.len())),
        }
    }
    Ok(offsets)
}

// The status of a refusal. The number of the element goes to `count`.
fn told(refusal: Refusal, count: &mut u32) -> u32
    ensures nowhere { result ≡ 6 → refusal ≡ refused.At count.new }
    ensures long { result ≡ 2 → (n : ℕ) × (refusal ≡ refused.At n) × (2 ^ 32 ≤ n) }
    ensures kept { (result ≡ 6 → ⊥) → count.new ≡ count.old }
    ensures which { (result ≡ 2) ⊎ ((result ≡ 3) ⊎ (result ≡ 6)) }
{
    match refusal {
        Refusal::Memory => NO_MEMORY,
        Refusal::At(at) => match small(at) {
            Some(at) => {
                *count = at;
                NO_PLACE
            }
            None => TOO_LONG,
        },
    }
}

/// Writes where the lines of a text start to the front of `starts`, in bytes: 0, and the byte after
/// each line feed. Of `a\nb` these are 0 and 2.
///
/// With them a program finds the line of any byte by a binary search, and gives that line alone to
/// `ras_c_line_cols` or `ras_c_offsets`, as a text of one line.
///
/// Returns [`OK`], [`NOT_UTF8`], [`TOO_LONG`], [`NO_MEMORY`] or [`NO_ROOM`]. It takes time linear
/// in the text, which has one line more than line feeds.
#[unsafe(no_mangle)]
pub extern "C" fn ras_c_line_starts(
    alloc: Global,
    text: &[u8],
    starts: &mut [u32],
    count: &mut u32,
) -> u32
    ensures done { result ≡ 0 → IsHanded (line_starts text.now) starts.old starts.new count.new }
    ensures room { result ≡ 4 → IsCounted (line_starts text.now) starts.old starts.new count.new }
    ensures kept { (result ≡ 0 → ⊥) → (result ≡ 4 → ⊥)
        → (starts.new ≡ starts.old) × (count.new ≡ count.old) }
    ensures utf8 { (result ≡ 1) ↔ (IsUtf8 text.now → ⊥) }
    ensures long { result ≡ 2
        → (2 ^ 32 ≤ length text.now) ⊎ (2 ^ 32 ≤ length (line_starts text.now)) }
    ensures which { result ≤ 4 }
{
    let Ok(text) = str::from_utf8(text) else {
        return NOT_UTF8;
    };
    if text.len() > u32::MAX as usize {
        return TOO_LONG;
    }
    match line_starts(alloc, text) {
        Ok(found) => hand(&found, starts, count),
        Err(_) => NO_MEMORY,
    }
}

/// Writes the lines and columns of offsets of a text to the front of `places`, one for each in the
/// same order, and their number to `count`. The columns are in an encoding, such as
/// [`ENCODING_UTF16`]: byte 5 of a text with two letters of two bytes before it in its first line
/// is line 0 and column 5 in UTF-8, and column 3 in UTF-16.
///
/// It takes a list, so that the text is read once for all: in time linear in the text, and for
/// each offset in the logarithm of the number of lines and, but in UTF-8, in the bytes from the
/// offset before, if that is in the same line and not behind, or else from the line's start. To
/// convert offsets of a text one at a time, keep its `ras_c_line_starts` and give a line alone.
///
/// Returns [`OK`], [`NOT_UTF8`], [`TOO_LONG`], [`NO_MEMORY`], [`NO_ROOM`], [`NO_ENCODING`], or
/// [`NO_PLACE`] if an offset is past the end of the text or inside a character: then `count` is how
/// many offsets are before the first such one.
#[unsafe(no_mangle)]
pub extern "C" fn ras_c_line_cols(
    alloc: Global,
    text: &[u8],
    encoding: u32,
    offsets: &[u32],
    places: &mut [LineCol],
    count: &mut u32,
) -> u32
    ensures done { result ≡ 0 → HasPlaces encoding text.now offsets.now
        (λ found. IsHanded found places.old places.new count.new) }
    ensures room { result ≡ 4 → HasPlaces encoding text.now offsets.now
        (λ found. IsCounted found places.old places.new count.new) }
    ensures nowhere { result ≡ 6 → StopsAtOffset text.now offsets.now count.new }
    ensures kept { (result ≡ 0 → ⊥) → places.new ≡ places.old }
    ensures uncounted { (result ≡ 0 → ⊥) → (result ≡ 4 → ⊥) → (result ≡ 6 → ⊥)
        → count.new ≡ count.old }
    ensures utf8 { (result ≡ 1) ↔ (columns_of encoding ≡ None → ⊥) × (IsUtf8 text.now → ⊥) }
    ensures long { result ≡ 2 → (2 ^ 32 ≤ length text.now) ⊎ (2 ^ 32 ≤ length offsets.now) }
    ensures encoding { (result ≡ 18) ↔ (columns_of encoding ≡ None) }
    ensures which { (result ≤ 4) ⊎ ((result ≡ 6) ⊎ (result ≡ 18)) }
{
    let Some(columns) = columns_of(encoding) else {
        return NO_ENCODING;
    };
    let Ok(text) = str::from_utf8(text) else {
        return NOT_UTF8;
    };
    if text.len() > u32::MAX as usize {
        return TOO_LONG;
    }
    match places_of(alloc, text, columns, offsets) {
        Ok(found) => hand(&found, places, count),
        Err(refusal) => told(refusal, count),
    }
}

/// Writes the offsets of places of a text to the front of `offsets`, in bytes, one for each in the
/// same order, and their number to `count`. The columns are in an encoding, such as
/// [`ENCODING_UTF16`]. A line feed is the last character of its line. It takes back what
/// `ras_c_line_cols` gives.
///
/// It takes a list, so that the text is read once for all: in time linear in the text, and for
/// each place, but in UTF-8, in its column.
///
/// Returns [`OK`], [`NOT_UTF8`], [`TOO_LONG`], [`NO_MEMORY`], [`NO_ROOM`], [`NO_ENCODING`], or
/// [`NO_PLACE`] if the text has no such line, the line no such column, or the column is inside a
/// character: then `count` is how many places are before the first such one.
#[unsafe(no_mangle)]
pub extern "C" fn ras_c_offsets(
    alloc: Global,
    text: &[u8],
    encoding: u32,
    places: &[LineCol],
    offsets: &mut [u32],
    count: &mut u32,
) -> u32
    ensures done { result ≡ 0 → HasOffsets encoding text.now places.now
        (λ found. IsHanded found offsets.old offsets.new count.new) }
    ensures room { result ≡ 4 → HasOffsets encoding text.now places.now
        (λ found. IsCounted found offsets.old offsets.new count.new) }
    ensures nowhere { result ≡ 6 → StopsAtPlace encoding text.now places.now count.new }
    ensures kept { (result ≡ 0 → ⊥) → offsets.new ≡ offsets.old }
    ensures uncounted { (result ≡ 0 → ⊥) → (result ≡ 4 → ⊥) → (result ≡ 6 → ⊥)
        → count.new ≡ count.old }
    ensures utf8 { (result ≡ 1) ↔ (columns_of encoding ≡ None → ⊥) × (IsUtf8 text.now → ⊥) }
    ensures long { result ≡ 2 → (2 ^ 32 ≤ length text.now) ⊎ (2 ^ 32 ≤ length places.now) }
    ensures encoding { (result ≡ 18) ↔ (columns_of encoding ≡ None) }
    ensures which { (result ≤ 4) ⊎ ((result ≡ 6) ⊎ (result ≡ 18)) }
{
    let Some(columns) = columns_of(encoding) else {
        return NO_ENCODING;
    };
    let Ok(text) = str::from_utf8(text) else {
        return NOT_UTF8;
    };
    if text.len() > u32::MAX as usize {
        return TOO_LONG;
    }
    match offsets_of(alloc, text, columns, places) {
        Ok(found) => hand(&found, offsets, count),
        Err(refusal) => told(refusal, count),
    }
}
