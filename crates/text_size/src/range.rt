//! Ranges of bytes in a text.
ghost use Rattle.std.specs.Prelude.{◌≡◌, ◌↔◌, ◌+◌, ◌-◌, ◌≤◌, ◌<◌, ◌^◌, min, max, Some, IsTrue};
ghost use Rattle.std.specs.Option.{SomeIff};
ghost use Rattle.std.specs.declared.cmp.Ordering.TheVariants.{Less, Equal, Greater};
ghost use Rattle.text_size.specs.TextRange.{Bounds, range_text, IsBefore, Meets, Overlaps};

use crate::size::TextSize;
use std::cmp::Ordering;
use std::fmt;
use std::marker::Model;

/// A range of bytes of a text: `start` is included, `end` is not.
///
/// It has the name and the calls of the type in the crate `text-size`. It prints as `start..end`.
#[derive(Clone, Copy, PartialEq, Eq, Hash)]
pub struct TextRange {
    start: TextSize,
    end: TextSize,
}

impl Model for TextRange {
    ghost Value = { Bounds };

    ghost view = { λ r. record { start = r.start; end = r.end } };

    ghost invariant = { λ r. r.start ≤ r.end };

    ghost inverse = { λ r. record { start = r.start; end = r.end } };
}

impl TextRange {
    /// The range `start..end`; `start` must not be greater than `end`.
    pub fn new(start: TextSize, end: TextSize) -> TextRange
        requires { start ≤ end }
        ensures { result ≡ record { start = start; end = end } }
    {
        TextRange { start, end }
    }

    /// The empty range at `offset`.
    pub fn empty(offset: TextSize) -> TextRange
        ensures { result ≡ record { start = offset; end = offset } }
    {
        TextRange {
            start: offset,
            end: offset,
        }
    }

    /// The range of `len` bytes that starts at `offset`. Its end must fit in 32 bits.
    pub fn at(offset: TextSize, len: TextSize) -> TextRange
        requires { offset + len < 2 ^ 32 }
        ensures { result ≡ record { start = offset; end = offset + len } }
    {
        TextRange {
            start: offset,
            end: TextSize::new(offset.raw() + len.raw()),
        }
    }

    /// The range `0..end`.
    pub fn up_to(end: TextSize) -> TextRange
        ensures { result ≡ record { start = 0; end = end } }
    {
        TextRange {
            start: TextSize::new(0),
            end,
        }
    }

    /// Where the range starts.
    pub fn start(self) -> TextSize
        ensures value { result ≡ self.start }
        ensures ordered { self.start ≤ self.end }
    {
        self.start
    }

    /// Where the range ends.
    pub fn end(self) -> TextSize
        ensures value { result ≡ self.end }
        ensures ordered { self.start ≤ self.end }
    {
        self.end
    }

    /// How many bytes the range has.
    pub fn len(self) -> TextSize
        ensures { self.start + result ≡ self.end }
    {
        TextSize::new(self.end.raw() - self.start.raw())
    }

    /// Whether the range has no bytes.
    pub fn is_empty(self) -> bool
        ensures { IsTrue result ↔ (self.start ≡ self.end) }
    {
        self.len().raw() == 0
    }

    /// Whether the byte at `offset` is in the range.
    ///
    /// Of the range 3..5 these are 3 and 4, and not 5. An empty range has no bytes.
    pub fn contains(self, offset: TextSize) -> bool
        ensures { IsTrue result ↔ (self.start ≤ offset) × (offset < self.end) }
    {
        self.start <= offset && offset < self.end
    }

    /// Whether `offset` is in the range or at its end, as a cursor in a text may be.
    ///
    /// Of the range 3..5 these are 3, 4 and 5, and of the empty range at 3 it is 3.
    pub fn contains_inclusive(self, offset: TextSize) -> bool
        ensures { IsTrue result ↔ (self.start ≤ offset) × (offset ≤ self.end) }
    {
        self.start <= offset && offset <= self.end
    }

    /// Whether this range contains `other`; they may have the same start or end.
    pub fn contains_range(self, other: TextRange) -> bool
        ensures { IsTrue result ↔ (self.start ≤ other.start) × (other.end ≤ self.end) }
    {
        other.end <= self.end && self.start <= other.start
    }

    /// What two ranges have in common, or `None` if one of them ends before the other starts.
    ///
    /// It is 3..5 for 1..5 and 3..9. Ranges of which one ends where the other starts have the empty
    /// range there in common: 3..3 for 1..3 and 3..9.
    pub fn intersect(self, other: TextRange) -> Option<TextRange>
        ensures { SomeIff result (Meets self other)
            (record { start = max self.start other.start; end = min self.end other.end }) }
    {
        let start = self.start.raw().max(other.start.raw());
        let end = self.end.raw().min(other.end.raw());
        if end < start {
            return None;
        }
        Some(TextRange {
            start: TextSize::new(start),
            end: TextSize::new(end),
        })
    }

    /// The smallest range that contains both ranges, with what is between them.
    ///
    /// It is 1..9 for 1..3 and 7..9. An empty range counts too: it is 1..7 for 1..3 and the empty
    /// range at 7.
    pub fn cover(self, other: TextRange) -> TextRange
        ensures { result
            ≡ record { start = min self.start other.start; end = max self.end other.end } }
    {
        TextRange {
            start: TextSize::new(self.start.raw().min(other.start.raw())),
            end: TextSize::new(self.end.raw().max(other.end.raw())),
        }
    }

    /// The smallest range that contains this one and reaches `offset`.
    ///
    /// For 3..5 it is 3..9 at the offset 9, 1..5 at 1, and 3..5 from 3 to 5.
    pub fn cover_offset(self, offset: TextSize) -> TextRange
        ensures { result ≡ record { start = min self.start offset; end = max self.end offset } }
    {
        self.cover(TextRange::empty(offset))
    }

    /// The order of two ranges, for a binary search in ranges that do not overlap: `Less` if this
    /// one ends before `other` starts, or where it starts. Ranges that overlap are `Equal`.
    ///
    /// It is `Less` for 1..3 and 3..9, and `Equal` for 1..3 and 2..9. For an empty range it is
    /// `Equal` if it is strictly inside of the other, and `Less` if the two are the same.
    pub fn ordering(self, other: TextRange) -> Ordering
        ensures less { (result ≡ Less) ↔ IsBefore self other }
        ensures equal { (result ≡ Equal) ↔ Overlaps self other }
        ensures greater { (result ≡ Greater) ↔ IsBefore other self × (other.start < self.end) }
    {
        if self.end <= other.start {
            Ordering::Less
        } else if other.end <= self.start {
            Ordering::Greater
        } else {
            Ordering::Equal
        }
    }

    /// The range `offset` bytes later, or `None` if it would end past 32 bits.
    pub fn checked_add(self, offset: TextSize) -> Option<TextRange>
        ensures { SomeIff result (self.end + offset < 2 ^ 32)
            (record { start = self.start + offset; end = self.end + offset }) }
    {
        let end = self.end.raw().checked_add(offset.raw())?;
        Some(TextRange {
            start: TextSize::new(self.start.raw() + offset.raw()),
            end: TextSize::new(end),
        })
    }

    /// The range `offset` bytes earlier, or `None` if it would start before the text.
    pub fn checked_sub(self, offset: TextSize) -> Option<TextRange>
        ensures { SomeIff result (offset ≤ self.start)
            (record { start = self.start - offset; end = self.end - offset }) }
    {
        let start = self.start.raw().checked_sub(offset.raw())?;
        Some(TextRange {
            start: TextSize::new(start),
            end: TextSize::new(self.end.raw() - offset.raw()),
        })
    }
}

impl fmt::Display for TextRange {
    ghost output = { λ r. Some (range_text r) };

    fn fmt<W: fmt::Write>(&self, f: &mut fmt::Formatter<W>) -> fmt::Result {
        let start = self.start.raw();
        let end = self.end.raw();
        write!(f, "{start}..{end}")
    }
}

impl fmt::Debug for TextRange {
    ghost debug_output = { λ r. Some (range_text r) };

    fn fmt<W: fmt::Write>(&self, f: &mut fmt::Formatter<W>) -> fmt::Result {
        write!(f, "{self}")
    }
}
