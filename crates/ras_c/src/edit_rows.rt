//! Several replacements of a text as rows, and as an edit.
ghost use Rattle.std.specs.Prelude.{◌≡◌, ◌⊎◌, ◌≤◌, [], IfErr, IfOk, OnOk};
ghost use Rattle.ras_c.specs.EditRows.{replacing, IsAddable, IsNotAdded, AreAdded, AreNotAdded};
ghost use Rattle.text_edit.specs.Replacements.{with_one};

use crate::status::{NO_MEMORY, NO_PLACE};
use std::alloc::Global;
use text_edit::{Indel, OverlapError, TextEdit, TextRange};
use text_size::TextSize;

/// Two ranges of an edit overlap. Nothing was written.
pub const OVERLAP: u32 = 19;
/// The lengths of the inserted texts do not cut their bytes into texts: there are more or fewer
/// bytes, or a text would end inside a character. Nothing was written.
pub const NOT_CUT: u32 = 20;

/// One of several replacements of a text. Their inserted texts lie in a buffer, one behind the
/// other.
#[repr(C)]
#[derive(Clone, Copy)]
pub struct EditRow {
    /// The byte of the old text where what is replaced starts.
    pub start: u32,
    /// The byte where it ends.
    pub end: u32,
    /// The length of the inserted text in bytes.
    pub insert: u32,
}

// Adds the replacement of a row by a text, or returns the status of the refusal.
fn add(alloc: Global, edit: &mut TextEdit, row: &EditRow, insert: &str) -> Result<(), u32>
    ensures added { OnOk result (IsAddable edit.old row.now insert.now
        × (edit.new ≡ with_one edit.old (replacing row.now insert.now))) }
    ensures refused { IfErr result (λ s. (s ≡ 3) ⊎ IsNotAdded edit.old row.now insert.now s) }
    ensures which { IfErr result (λ s. (s ≡ 3) ⊎ (s ≡ 6) ⊎ (s ≡ 19)) }
{
    if row.start > row.end {
        return Err(NO_PLACE);
    }
    let range = TextRange::new(TextSize::new(row.start), TextSize::new(row.end));
    let Ok(text) = String::from_str(alloc, insert) else {
        return Err(NO_MEMORY);
    };
    match edit.add(Indel::replace(range, text)) {
        Ok(()) => Ok(()),
        Err(OverlapError::Overlap) => Err(OVERLAP),
        Err(OverlapError::Memory) => Err(NO_MEMORY),
    }
}

/// The edit that has the replacements of all rows, or the status of the first refusal.
pub(crate) fn edit_of(alloc: Global, rows: &[EditRow], inserts: &str) -> Result<TextEdit, u32>
    ensures added { IfOk result (AreAdded [] rows.now inserts.now) }
    ensures refused { IfErr result (λ s. (s ≡ 3) ⊎ AreNotAdded [] rows.now inserts.now s) }
    ensures which { IfErr result (λ s. (s ≡ 3) ⊎ (s ≡ 6) ⊎ (19 ≤ s) × (s ≤ 20)) }
{
    let mut edit = TextEdit::new(alloc);
    let mut rest = inserts;
    for row in rows {
        let len = row.insert as usize;
        if !rest.is_char_boundary(len) {
            return Err(NOT_CUT);
        }
        add(alloc, &mut edit, row, &rest[..len])?;
        rest = &rest[len..];
    }
    if !rest.is_empty() {
        return Err(NOT_CUT);
    }
    Ok(edit)
}
