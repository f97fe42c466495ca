//! Offsets and lengths in a text, in bytes.
ghost use Rattle.std.specs.Prelude.{◌≡◌, ◌+◌, ◌-◌, ◌≤◌, ◌<◌, ◌^◌, ℕ, Some, length, decimal};
ghost use Rattle.std.specs.Option.{SomeIff};

use std::fmt;
use std::marker::Model;

/// An offset into a text or the length of a text, in bytes, as a 32-bit number.
///
/// It has the name and the calls of the type in the crate `text-size`.
#[derive(Clone, Copy, PartialEq, Eq, PartialOrd, Ord, Hash)]
pub struct TextSize {
    raw: u32,
}

impl Model for TextSize {
    ghost Value = { ℕ };

    ghost view = { λ size. size.raw };

    ghost inverse = { λ raw. record { raw = raw } };
}

impl TextSize {
    /// The size of this many bytes.
    pub const fn new(raw: u32) -> TextSize
        ensures { result ≡ raw }
    {
        TextSize { raw }
    }

    /// The length of a text, or `None` if it does not fit in 32 bits.
    pub fn of(text: &str) -> Option<TextSize>
        ensures { SomeIff result (length text.now < 2 ^ 32) (length text.now) }
    {
        let raw = u32::try_from(text.len()).ok()?;
        Some(TextSize { raw })
    }

    /// The number of bytes.
    pub const fn raw(self) -> u32
        ensures { result ≡ self }
    {
        self.raw
    }

    /// The two sizes together, or `None` if that does not fit in 32 bits.
    ///
    /// So it is the offset that is `other` bytes after this one: 7 for 3 and 4.
    pub fn checked_add(self, other: TextSize) -> Option<TextSize>
        ensures { SomeIff result (self + other < 2 ^ 32) (self + other) }
    {
        let raw = self.raw.checked_add(other.raw)?;
        Some(TextSize { raw })
    }

    /// This size without `other`, or `None` if `other` is the greater one.
    ///
    /// So it is the number of bytes from the offset `other` to this one: 4 for 7 and 3, and 0 for
    /// equal offsets.
    pub fn checked_sub(self, other: TextSize) -> Option<TextSize>
        ensures { SomeIff result (other ≤ self) (self - other) }
    {
        let raw = self.raw.checked_sub(other.raw)?;
        Some(TextSize { raw })
    }
}

impl fmt::Debug for TextSize {
    ghost debug_output = { λ size. Some (decimal size) };

    fn fmt<W: fmt::Write>(&self, f: &mut fmt::Formatter<W>) -> fmt::Result {
        let raw = self.raw;
        write!(f, "{raw}")
    }
}
