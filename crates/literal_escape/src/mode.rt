// The kinds of literals, and what their units mean.
ghost use Rattle.std.specs.Prelude.{◌≡◌, ◌<◌};
ghost use Rattle.literal_escape.specs.Literal.{number_of};

/// The kind of literal that a content belongs to.
#[derive(Clone, Copy, Debug, PartialEq, Eq)]
pub enum Mode {
    /// `'a'`
    Char,
    /// `b'a'`
    Byte,
    /// `"a"`
    Str,
    /// `b"a"`
    ByteStr,
    /// `c"a"`
    CStr,
}

/// The meaning of a unit: `HighByte` for a byte from 80 (hexadecimal) on that is written with `\x`,
/// otherwise `Char`.
#[derive(Clone, Copy, Debug, PartialEq, Eq)]
pub enum MixedUnit {
    /// A character, encoded as UTF-8.
    Char(char),
    /// A byte from 80 to FF (hexadecimal), written with `\x`. It is not a character's UTF-8.
    HighByte(u8),
}

impl MixedUnit {
    /// The character, or the one whose code is the byte.
    pub(crate) fn as_char(self) -> char
        ensures { result ≡ number_of self }
    {
        match self {
            MixedUnit::Char(c) => c,
            MixedUnit::HighByte(byte) => byte as char,
        }
    }

    /// The byte, or the character's code.
    pub(crate) fn as_byte(self) -> u8
        requires { number_of self < 256 }
        ensures { result ≡ number_of self }
    {
        match self {
            MixedUnit::Char(c) => c as u8,
            MixedUnit::HighByte(byte) => byte,
        }
    }
}
