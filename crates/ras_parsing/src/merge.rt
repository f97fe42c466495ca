//! Merges old and new errors after a re-parse of a piece.
ghost use Rattle.std.specs.Prelude.{◌≡◌, ◌+◌, ◌-◌, ◌<◌, ◌≤◌, ◌^◌, length, IfOk, OnOk, All, ◌++◌};
ghost use Rattle.ras_parsing.specs.Edit.{replacing};
ghost use Rattle.ras_parsing.specs.Reparse.{shifted, moved, kept_fault, merged};

use ras_front_end::SyntaxError;
use std::alloc::{AllocError, Global};
use text_size::{TextRange, TextSize};

// The new offset, after an edit, of a byte that follows it.
pub(crate) fn shifted(offset: TextSize, delete: TextRange, insert: &str) -> TextSize
    requires behind { delete.end ≤ offset }
    requires short { shifted (replacing delete insert.now) offset < 2 ^ 32 }
    ensures { result ≡ shifted (replacing delete insert.now) offset }
{
    let kept = offset.raw() as usize - delete.len().raw() as usize;
    TextSize::new((kept + insert.len()) as u32)
}

// Appends an old error if it is kept, with its range shifted if it is after the piece.
fn keep(
    kept: &mut Vec<SyntaxError>,
    error: &SyntaxError,
    replaced: TextRange,
    delete: TextRange,
    insert: &str,
) -> Result<(), AllocError>
    requires within { delete.end ≤ replaced.end }
    requires short { shifted (replacing delete insert.now) error.now.range.end
        < 2 ^ 32 }
    ensures { OnOk result (kept.new.items
        ≡ kept.old.items
        ++ kept_fault replaced (replacing delete insert.now)
        error.now) }
{
    let range = error.range();
    if range.end() <= replaced.start() {
        kept.push(error.clone()?)?;
    } else if replaced.end() <= range.start() {
        let start = shifted(range.start(), delete, insert);
        let end = shifted(range.end(), delete, insert);
        kept.push(error.clone()?.with_range(TextRange::new(start, end)))?;
    }
    Ok(())
}

// The error of a piece, as an error of the text around it.
pub(crate) fn moved(error: SyntaxError, by: TextSize) -> SyntaxError
    requires { error.range.end + by < 2 ^ 32 }
    ensures { result ≡ moved by error }
{
    let range = error.range();
    let start = TextSize::new(range.start().raw() + by.raw());
    let end = TextSize::new(range.end().raw() + by.raw());
    error.with_range(TextRange::new(start, end))
}

// The old errors that are kept after an edit inside of the replaced piece, and then the errors of
// the new piece.
pub(crate) fn merge(
    alloc: Global,
    old: &[SyntaxError],
    new: Vec<SyntaxError>,
    replaced: TextRange,
    delete: TextRange,
    insert: &str,
) -> Result<Vec<SyntaxError>, AllocError>
    requires within { delete.end ≤ replaced.end }
    requires old_short { All
        (λ f. shifted (replacing delete insert.now) f.range.end < 2 ^ 32)
        old.now }
    requires new_short { All (λ f. f.range.end + replaced.start < 2 ^ 32) new.items }
    ensures { IfOk result (λ errors. errors.items
        ≡ merged old.now new.items replaced (replacing delete insert.now)) }
{
    let mut errors = Vec::new(alloc);
    for error in old {
        keep(&mut errors, error, replaced, delete, insert)?;
    }
    for error in new {
        errors.push(moved(error, replaced.start()))?;
    }
    Ok(errors)
}
