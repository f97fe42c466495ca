//! Whether ranges are those of a text, and how long the new text is.
ghost use Rattle.std.specs.Prelude.{◌≡◌, ◌↔◌, ◌≤◌, ◌<◌, ◌^◌, ◌+◌, All, length, IfOk, IfErr, OnOk, IsTrue, IsFalse, SomeIff};
ghost use Rattle.std.specs.List.{Any};
ghost use Rattle.text_edit.specs.Replacements.{Replacement, InOrder, IsRangeOf, IsPastEnd, IsInsideCharacter, IsEditOf, IsRefused, edited};
ghost use Rattle.text_edit.specs.declared.error.ApplyError.TheVariants.{Memory};

use crate::error::ApplyError;
use crate::indel::Indel;

// Whether no range ends after the text.
fn end_within(indels: &[Indel], text: &str) -> bool
    ensures yes { IsTrue result → All (λ e. e.delete.end ≤ length text.now) indels.now }
    ensures no { IsFalse result → Any (IsPastEnd text.now) indels.now }
{
    for indel in indels {
        if indel.end() > text.len() {
            return false;
        }
    }
    true
}

// Whether no range starts or ends inside a character.
fn are_between_characters(indels: &[Indel], text: &str) -> bool
    requires { All (λ e. e.delete.end ≤ length text.now) indels.now }
    ensures yes { IsTrue result → All (IsRangeOf text.now) indels.now }
    ensures no { IsFalse result → Any (IsInsideCharacter text.now) indels.now }
{
    for indel in indels {
        if !text.is_char_boundary(indel.start()) || !text.is_char_boundary(indel.end()) {
            return false;
        }
    }
    true
}

// What a pass from the left has written after it copies some bytes and inserts others, if that fits
// in 64 bits.
pub(crate) fn written(len: usize, copied: usize, inserted: usize) -> Option<usize>
    ensures { SomeIff result (len + copied + inserted < 2 ^ 64) (len + copied + inserted) }
{
    len.checked_add(copied)?.checked_add(inserted)
}

// How long the new text is, if it is shorter than 4 GiB.
fn len_of_new(indels: &[Indel], text: &str) -> Option<usize>
    requires order { InOrder 0 indels.now }
    requires ranges { All (IsRangeOf text.now) indels.now }
    ensures { SomeIff result (length (edited text.now indels.now) < 2 ^ 32)
        (length (edited text.now indels.now)) }
{
    let mut at: usize = 0;
    let mut len: usize = 0;
    for indel in indels {
        let start = indel.start();
        len = written(len, start - at, indel.inserted().len())?;
        at = indel.end();
    }
    let len = written(len, text.len() - at, 0)?;
    if len > u32::MAX as usize {
        return None;
    }
    Some(len)
}

// How long the new text is, or why the edit is not made in this text.
pub(crate) fn new_len(indels: &[Indel], text: &str) -> Result<usize, ApplyError>
    requires { InOrder 0 indels.now }
    ensures ok { IfOk result (λ n. n ≡ length (edited text.now indels.now)) }
    ensures fits { OnOk result (IsEditOf text.now indels.now) }
    ensures refused { IfErr result (λ e. IsRefused text.now indels.now e × (e ≡ Memory → ⊥)) }
{
    if !end_within(indels, text) {
        return Err(ApplyError::PastEnd);
    }
    if !are_between_characters(indels, text) {
        return Err(ApplyError::InsideCharacter);
    }
    len_of_new(indels, text).ok_or(ApplyError::TooLong)
}
