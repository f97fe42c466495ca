//! A range of a text, and what replaces it.
ghost use Rattle.std.specs.Prelude.{◌≡◌, ◌≤◌, ◌<◌, ◌^◌, string_bytes, []};
ghost use Rattle.text_edit.specs.Replacements.{insertion, is_empty};

use std::alloc::Global;
use std::marker::Model;
use text_size::{TextRange, TextSize};

/// A range of a text, and the text that replaces it. A clause sees a `Replacement`.
///
/// With an empty range it is an insertion, with an empty text a deletion.
#[derive(Drop)]
pub struct Indel {
    insert: String,
    delete: TextRange,
}

impl Model for Indel {
    ghost use Rattle.std.specs.Prelude.{string_bytes};
    ghost use Rattle.text_edit.specs.Replacements.{Replacement, replacement_code};

    ghost Value = { Replacement };

    ghost coded = { replacement_code };

    ghost view = { λ e. record { insert = string_bytes e.insert; delete = e.delete } };
}

impl Indel {
    /// Replaces the bytes of a range by a text.
    pub fn replace(range: TextRange, text: String) -> Indel
        ensures { result ≡ record { insert = string_bytes text; delete = range } }
    {
        Indel {
            insert: text,
            delete: range,
        }
    }

    /// Inserts a text at an offset.
    pub fn insert(offset: TextSize, text: String) -> Indel
        ensures { result ≡ insertion offset (string_bytes text) }
    {
        Indel {
            insert: text,
            delete: TextRange::empty(offset),
        }
    }

    /// Deletes the bytes of a range. Takes no memory.
    pub fn delete(alloc: Global, range: TextRange) -> Indel
        ensures { result ≡ record { insert = []; delete = range } }
    {
        Indel {
            insert: String::new(alloc),
            delete: range,
        }
    }

    /// The text that is inserted.
    pub fn inserted(&self) -> &str
        ensures { result.now ≡ self.now.insert }
    {
        &self.insert
    }

    /// The range that is replaced, in bytes of the old text.
    pub fn deleted(&self) -> TextRange
        ensures { result ≡ self.now.delete }
    {
        self.delete
    }

    /// Whether it changes nothing: nothing is inserted, and the range is empty.
    pub fn is_empty(&self) -> bool
        ensures { result ≡ is_empty self.now }
    {
        self.insert.is_empty() && self.delete.is_empty()
    }

    // Where the range starts.
    pub(crate) fn start(&self) -> usize
        ensures value { result ≡ self.now.delete.start }
        ensures ordered { self.now.delete.start ≤ self.now.delete.end }
        ensures fits { result < 2 ^ 32 }
    {
        self.delete.start().raw() as usize
    }

    // Where it ends.
    pub(crate) fn end(&self) -> usize
        ensures value { result ≡ self.now.delete.end }
        ensures ordered { self.now.delete.start ≤ self.now.delete.end }
        ensures fits { result < 2 ^ 32 }
    {
        self.delete.end().raw() as usize
    }
}
