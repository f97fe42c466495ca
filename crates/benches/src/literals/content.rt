//! What is in the literals that are measured.
use std::alloc::{AllocError, Global};

#[derive(Clone, Copy)]
pub enum Content {
    /// Letters.
    Plain,
    /// Escapes alone.
    Escapes,
    /// The same in a raw string.
    Raw,
    /// Escapes of one letter.
    ShortEscapes,
    /// Escapes of characters by their numbers.
    UnicodeEscapes,
    /// Characters of two and three bytes.
    WideCharacters,
    /// Line continuations with ten blanks each.
    Continuations,
}

impl Content {
    /// Its name in the table.
    pub fn name(self) -> &'static str {
        match self {
            Content::Plain => "plain",
            Content::Escapes => "escapes",
            Content::Raw => "raw",
            Content::ShortEscapes => "short",
            Content::UnicodeEscapes => "unicode",
            Content::WideCharacters => "wide",
            Content::Continuations => "continued",
        }
    }

    /// Whether a byte string can have this content.
    pub fn is_of_bytes(self) -> bool {
        !matches!(self, Content::UnicodeEscapes | Content::WideCharacters)
    }

    // A piece of the content, and how often it stands in a hundred bytes.
    fn piece(self) -> (&'static str, u32) {
        match self {
            Content::Plain => ("abcd", 25),
            Content::Escapes | Content::Raw => ("\\x61", 25),
            Content::ShortEscapes => ("\\n\\t\\\\\\0", 12),
            Content::UnicodeEscapes => ("\\u{e9}\\u{1F600}", 6),
            Content::WideCharacters => ("\u{e9}\u{4e2d}", 20),
            Content::Continuations => ("\\\n          a", 7),
        }
    }

    /// A literal with about this many hundred bytes.
    pub fn literal(self, alloc: Global, hundreds: u32) -> Result<String, AllocError> {
        let (piece, times) = self.piece();
        let mut text = String::new(alloc);
        if let Content::Raw = self {
            text.push('r')?;
        }
        text.push('"')?;
        for _hundred in 0..hundreds {
            for _time in 0..times {
                text.push_str(piece)?;
            }
        }
        text.push('"')?;
        Ok(text)
    }
}
