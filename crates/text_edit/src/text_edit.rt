//! A set of disjoint replacements of a text.
ghost use Rattle.std.specs.Prelude.{◌≡◌, ◌↔◌, ◌∷◌, ◌++◌, ◌+◌, Some, [], length, IfOk, IfErr, OnOk, OnErr, IsErrOf, IsTrue, string_bytes};
ghost use Rattle.std.specs.List.{Any};
ghost use Rattle.std.specs.Slice.Iter.{iter_rest};
ghost use Rattle.text_edit.specs.Replacements.{Replacement, InOrder, Overlaps, edited, insertion, with_one, with_all, IsEditOf, IsRefused, moved_offset, fitting};
ghost use Rattle.text_edit.specs.Replacements.{Overlap as overlaps};
ghost use Rattle.text_edit.specs.Inverse.{inverted};
ghost use Rattle.text_edit.specs.declared.error.OverlapError.TheVariants.{Overlap};

use crate::error::{ApplyError, OverlapError};
use crate::indel::Indel;
use crate::merge::{insert_at, merge, overlap, place_for, starts_before};
use crate::ranges::{new_len, written};
use std::alloc::{AllocError, Global};
use std::marker::Model;
use std::mem;
use std::slice::Iter;
use text_size::{TextRange, TextSize};

/// A set of disjoint replacements of a text, in the order of the text. A clause sees the list of
/// them.
///
/// All ranges refer to the old text.
#[derive(Drop)]
pub struct TextEdit {
    indels: Vec<Indel>,
}

impl Model for TextEdit {
    ghost use Rattle.std.specs.Prelude.{List};
    ghost use Rattle.std.specs.Coded.{coded_list};
    ghost use Rattle.text_edit.specs.Replacements.{Replacement, replacement_code, InOrder};

    ghost Value = { List Replacement };

    ghost coded = { coded_list replacement_code };

    ghost view = { λ a. a.indels.items };

    ghost invariant = { λ a. InOrder 0 a.indels.items };
}

// Appends one more.
fn push(indels: &mut Vec<Indel>, indel: Indel) -> Result<(), AllocError>
    ensures { OnOk result (indels.new.items ≡ indels.old.items ++ indel ∷ []) }
{
    indels.push(indel)?;
    Ok(())
}

// The offset so many bytes after another one, if it is below 2^32.
fn offset_at(new: usize, past: usize) -> Option<TextSize>
    ensures { result ≡ fitting (Some (new + past)) }
{
    let new = u32::try_from(new.checked_add(past)?).ok()?;
    Some(TextSize::new(new))
}

impl TextEdit {
    /// An edit that changes nothing. Takes no memory.
    pub fn new(alloc: Global) -> TextEdit
        ensures { result ≡ [] }
    {
        TextEdit {
            indels: Vec::new(alloc),
        }
    }

    /// The edit of replacements that are in the order of the text and do not overlap;
    /// [`TextEdit::add`] takes them in any order. Takes constant time.
    pub fn from_ordered(indels: Vec<Indel>) -> TextEdit
        requires { InOrder 0 indels.items }
        ensures { result ≡ indels.items }
    {
        TextEdit { indels }
    }

    // The edit of one replacement.
    fn of(alloc: Global, indel: Indel) -> Result<TextEdit, AllocError>
        ensures { IfOk result (λ edit. edit ≡ indel ∷ []) }
    {
        let mut indels = Vec::new(alloc);
        // For the proof: the range's start is not past its end.
        let _end = indel.end();
        push(&mut indels, indel)?;
        Ok(TextEdit { indels })
    }

    /// The edit that replaces the bytes of a range by a text.
    ///
    /// # Errors
    ///
    /// `AllocError` if memory runs out; so for `insert` and `delete`.
    pub fn replace(alloc: Global, range: TextRange, text: String) -> Result<TextEdit, AllocError>
        ensures { IfOk result
            (λ edit. edit ≡ record { insert = string_bytes text; delete = range } ∷ []) }
    {
        TextEdit::of(alloc, Indel::replace(range, text))
    }

    /// The edit that inserts a text at an offset.
    pub fn insert(alloc: Global, offset: TextSize, text: String) -> Result<TextEdit, AllocError>
        ensures { IfOk result (λ edit. edit ≡ insertion offset (string_bytes text) ∷ []) }
    {
        TextEdit::of(alloc, Indel::insert(offset, text))
    }

    /// The edit that deletes the bytes of a range.
    pub fn delete(alloc: Global, range: TextRange) -> Result<TextEdit, AllocError>
        ensures { IfOk result (λ edit. edit ≡ record { insert = []; delete = range } ∷ []) }
    {
        TextEdit::of(alloc, Indel::delete(alloc, range))
    }

    /// How many replacements there are.
    pub fn len(&self) -> usize
        ensures { result ≡ length self.now }
    {
        self.indels.len()
    }

    /// Whether there are none.
    pub fn is_empty(&self) -> bool
        ensures { IsTrue result ↔ (self.now ≡ []) }
    {
        self.indels.is_empty()
    }

    /// The replacements, in the order of the text.
    pub fn iter(&self) -> Iter<'_, Indel>
        ensures { iter_rest result ≡ self.now }
    {
        self.indels.as_slice().iter()
    }

    /// The replacements as a slice, in the order of the text.
    pub fn as_slice(&self) -> &[Indel]
        ensures same { result.now ≡ self.now }
        ensures in_order { InOrder 0 result.now }
    {
        self.indels.as_slice()
    }

    /// Adds a replacement, in any order; its range refers to the old text. Ranges may touch, and
    /// insertions at one place stay in the order of the calls.
    ///
    /// Takes constant time (amortized) for a range after all others, and otherwise time linear in
    /// the number of ranges after it.
    ///
    /// # Errors
    ///
    /// `Overlap` if its range overlaps one that is replaced already, and otherwise `Memory` if
    /// memory runs out. The edit is unchanged then.
    pub fn add(&mut self, indel: Indel) -> Result<(), OverlapError>
        ensures ok { OnOk result (self.new ≡ with_one self.old indel) }
        ensures err { OnErr result (self.new ≡ self.old) }
        ensures overlap { IsErrOf result Overlap ↔ Any (λ d. Overlaps d indel) self.old }
    {
        let start = indel.start();
        let end = indel.end();
        let at = place_for(self.indels.as_slice(), start);
        if starts_before(self.indels.as_slice(), at, end) {
            return Err(OverlapError::Overlap);
        }
        insert_at(&mut self.indels, at, indel)
    }

    /// Adds all replacements of another edit of the same text; where both insert at one place, its
    /// insertions go after. Takes time linear in both edits.
    ///
    /// # Errors
    ///
    /// `Overlap` if a range of the one overlaps a range of the other, and otherwise `Memory` if
    /// memory runs out. The edit is unchanged then.
    pub fn union(&mut self, alloc: Global, other: TextEdit) -> Result<(), OverlapError>
        ensures ok { OnOk result (self.new ≡ with_all self.old other) }
        ensures err { OnErr result (self.new ≡ self.old) }
        ensures overlap { IsErrOf result Overlap ↔ overlaps self.old other }
    {
        if overlap(self.indels.as_slice(), other.indels.as_slice()) {
            return Err(OverlapError::Overlap);
        }
        let both = Vec::with_capacity(alloc, self.indels.len() + other.indels.len())?;
        let mine = mem::replace(&mut self.indels, both);
        merge(mine, other.indels, &mut self.indels);
        Ok(())
    }

    /// The text after the edit. Takes time linear in the text and the edit, and allocates once.
    ///
    /// # Errors
    ///
    /// `PastEnd` if a range ends after the text, otherwise `InsideCharacter` if a range starts or
    /// ends inside a character, otherwise `TooLong` if the new text would have 2^32 bytes or more,
    /// and otherwise `Memory` if memory runs out.
    pub fn apply(&self, alloc: Global, text: &str) -> Result<String, ApplyError>
        ensures ok { IfOk result (λ new. string_bytes new ≡ edited text.now self.now) }
        ensures fits { OnOk result (IsEditOf text.now self.now) }
        ensures refused { IfErr result (IsRefused text.now self.now) }
    {
        let len = new_len(self.indels.as_slice(), text)?;
        let mut out = String::with_capacity(alloc, len)?;
        let mut at: usize = 0;
        for indel in &self.indels {
            out.push_str(&text[at..indel.start()])?;
            out.push_str(indel.inserted())?;
            at = indel.end();
        }
        out.push_str(&text[at..])?;
        Ok(out)
    }

    /// The edit of the new text that gives the old text back: it replaces each new text by what
    /// stood in its range. Takes time linear in the text and the edit.
    ///
    /// # Errors
    ///
    /// Those of [`TextEdit::apply`].
    pub fn invert(&self, alloc: Global, text: &str) -> Result<TextEdit, ApplyError>
        ensures ok { IfOk result (λ edit. edit ≡ inverted text.now self.now) }
        ensures fits { OnOk result (IsEditOf text.now self.now) }
        ensures refused { IfErr result (IsRefused text.now self.now) }
    {
        let _len = new_len(self.indels.as_slice(), text)?;
        let mut indels = Vec::with_capacity(alloc, self.indels.len())?;
        let mut at: usize = 0;
        let mut new: usize = 0;
        for indel in &self.indels {
            let old = &text[indel.start()..indel.end()];
            let start = new + (indel.start() - at);
            let end = start + indel.inserted().len();
            let range = TextRange::new(TextSize::new(start as u32), TextSize::new(end as u32));
            push(
                &mut indels,
                Indel::replace(range, String::from_str(alloc, old)?),
            )?;
            at = indel.end();
            new = end;
        }
        Ok(TextEdit { indels })
    }

    /// Where an offset of the old text is after the edit, or `None` if it is inside a replaced
    /// range, or at 2^32 or later after the edit. At the start of a range, or where a text is
    /// inserted, an offset stays before it.
    pub fn apply_to_offset(&self, offset: TextSize) -> Option<TextSize>
        ensures { result ≡ fitting (moved_offset self.now offset) }
    {
        let offset = offset.raw() as usize;
        let mut at: usize = 0;
        let mut new: usize = 0;
        for indel in &self.indels {
            let start = indel.start();
            if offset <= start {
                break;
            }
            if offset < indel.end() {
                return None;
            }
            new = written(new, start - at, indel.inserted().len())?;
            at = indel.end();
        }
        offset_at(new, offset - at)
    }
}
