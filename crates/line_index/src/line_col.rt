//! A place in a text by its line and its column.
ghost use Rattle.std.specs.Prelude.{◌≡◌, ◌<◌, ◌^◌, length, MatchOption};
ghost use Rattle.line_index.specs.Lines.{units, wide_length, IsFront, NoFront};

/// A line and a column, both counted from 0. The column is in bytes from the start of the line.
///
/// It has the name, and fields, of the type in the crate `line-index`.
#[derive(Clone, Copy, Debug, PartialEq, Eq, PartialOrd, Ord, Hash)]
pub struct LineCol {
    /// How many line feeds are before the place.
    pub line: u32,
    /// How many bytes are between the last of them, or the text's start, and the place.
    pub col: u32,
}

/// What a column is counted in, if it is not in bytes.
#[derive(Clone, Copy, Debug, PartialEq, Eq, Hash)]
pub enum WideEncoding {
    /// Units of UTF-16: two for a character past U+FFFF, and otherwise one.
    Utf16,
    /// Characters.
    Utf32,
}

impl WideEncoding {
    // How many units a character takes.
    fn units(self, c: char) -> u32
        ensures { result ≡ units self c }
    {
        match self {
            WideEncoding::Utf16 => c.len_utf16() as u32,
            WideEncoding::Utf32 => 1,
        }
    }

    // How many units a text takes.
    pub(crate) fn len_of(self, text: &str) -> u32
        requires { length text.now < 2 ^ 32 }
        ensures { result ≡ wide_length self text.now }
    {
        let mut len = 0;
        for c in text.chars() {
            len += self.units(c);
        }
        len
    }

    // The length in bytes of the prefix of a text that has this number of units, or `None` if no
    // prefix has.
    pub(crate) fn bytes_of(self, units: u32, text: &str) -> Option<u32>
        requires { length text.now < 2 ^ 32 }
        ensures { MatchOption result (NoFront self text.now units) (IsFront self text.now units) }
    {
        let mut left = units;
        let mut bytes = 0;
        for c in text.chars() {
            if left == 0 {
                return Some(bytes);
            }
            left = left.checked_sub(self.units(c))?;
            bytes += c.len_utf8() as u32;
        }
        if left > 0 {
            return None;
        }
        Some(bytes)
    }
}

/// A line and a column, both counted from 0. The column is in units of a `WideEncoding`, as
/// language servers count.
///
/// It has the name, and fields, of the type in the crate `line-index`.
#[derive(Clone, Copy, Debug, PartialEq, Eq, PartialOrd, Ord, Hash)]
pub struct WideLineCol {
    /// How many line feeds are before the place.
    pub line: u32,
    /// How many units are between the last of them, or the text's start, and the place.
    pub col: u32,
}
