//! Several edits of a parse that is kept, at once.
ghost use Rattle.std.specs.Prelude.{◌≡◌, ◌≤◌, ◌⊎◌, ◌↔◌, IsUtf8, None};
ghost use Rattle.ras_c.specs.Border.{edition_of};
ghost use Rattle.ras_c.specs.Edits.{HoldsEdits, HoldsUnedited};

use crate::edit_rows::EditRow;
use crate::handle::Handle;
use crate::held::{put, take};
use crate::status::{NO_EDITION, NO_PARSE, NOT_UTF8, OK, edition_of};
use std::alloc::Global;

/// Edits the text of a handle's parse at several places at once: all edits are made or, if they are
/// refused, none. The ranges of `edits` are of the text as it is, in any order; texts that are
/// inserted at one place stay in the order of the list. `inserts` has the inserted texts, one
/// behind the other. The handle then holds the parse of the new text: the same tree and errors that
/// `ras_c_parse` would make.
///
/// In the edition that the parse is of, up to eight edits are made one after another, the last in
/// the text first, and for each one token gets another text or one block is parsed again, if that
/// is enough for all of them; else, and in another edition, the whole new text is parsed, once.
/// Which parts were read again is not told: `ras_c_edit_told` tells it of one edit.
///
/// Returns [`OK`], [`NOT_UTF8`], [`TOO_LONG`], [`NO_MEMORY`], [`NO_EDITION`], [`NO_PARSE`] if the
/// handle holds no parse, [`NOT_CUT`] if the lengths in `edits` do not cut `inserts` into texts,
/// [`NO_PLACE`] if a range is backwards, not in the text or not on character boundaries, or
/// [`OVERLAP`] if two ranges overlap; those that touch do not, nor two insertions at one place.
/// Unless it is [`OK`], the handle is not changed.
#[unsafe(no_mangle)]
pub extern "C" fn ras_c_edits(
    alloc: Global,
    handle: &mut Handle,
    edition: u32,
    edits: &[EditRow],
    inserts: &[u8],
) -> u32
    ensures done { result ≡ 0 → HoldsEdits edition edits.now inserts.now
        handle.old.kept handle.new.kept }
    ensures kept { (result ≡ 0 → ⊥) → handle.new.kept ≡ handle.old.kept }
    ensures refused { (result ≡ 2) ⊎ ((result ≡ 6) ⊎ (19 ≤ result))
        → HoldsUnedited edits.now inserts.now handle.old.kept result }
    ensures utf8 { (result ≡ 1) ↔ (edition_of edition ≡ None → ⊥) × (IsUtf8 inserts.now → ⊥) }
    ensures edition { (result ≡ 5) ↔ (edition_of edition ≡ None) }
    ensures empty { (result ≡ 7) ↔ (edition_of edition ≡ None → ⊥) × IsUtf8 inserts.now
        × (handle.old.kept ≡ None) }
    ensures which { (result ≤ 3) ⊎ (5 ≤ result) × (result ≤ 7) ⊎ (19 ≤ result) × (result ≤ 20) }
{
    let Some(edition) = edition_of(edition) else {
        return NO_EDITION;
    };
    let Ok(inserts) = str::from_utf8(inserts) else {
        return NOT_UTF8;
    };
    let Some(mut kept) = take(alloc, handle) else {
        return NO_PARSE;
    };
    let edited = kept.edits(alloc, edition, edits, inserts);
    put(alloc, handle, kept);
    match edited {
        Ok(()) => OK,
        Err(status) => status,
    }
}
