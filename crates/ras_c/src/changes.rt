//! Many changes of the tree of a parse that is kept.
ghost use Rattle.std.specs.Prelude.{◌≡◌, ◌≤◌, ◌⊎◌, ◌↔◌, IsUtf8, None};
ghost use Rattle.ras_c.specs.Border.{IsHanded, IsCounted};
ghost use Rattle.ras_c.specs.Changes.{HoldsChanged, HoldsUnchanged};

use crate::change_rows::{ChangeRow, write_changed};
use crate::handle::Handle;
use crate::held::{put, take};
use crate::status::{NO_PARSE, NOT_UTF8};
use std::alloc::Global;

/// Writes the text of a handle's tree with many changes made at once to the front of `out`, and its
/// length to `count`. The handle keeps its parse. Each change puts a text or a copy of an element,
/// or nothing, before or after an element, into a node, or in the place of an element, which
/// deletes it: as `SyntaxEditor` does. In the tree of `fn f() {}`, the text `g` in the place of the
/// row of its `NAME` gives `fn g() {}`.
///
/// All rows are those of the tree as it is, so no change moves another one, and several texts at
/// one place stay in the order of the list. `texts` has the texts, each anywhere in it. They are
/// put in as they are: what they mean there, a parse of the new text tells, as by `ras_c_parse`. It
/// takes time linear in the tree and in what is put in.
///
/// Returns [`OK`], [`NOT_UTF8`], [`TOO_LONG`] if the new text would be too long, [`NO_MEMORY`],
/// [`NO_ROOM`], [`NO_PARSE`] if the handle holds no parse, or for the first change that is refused
/// [`NO_PLACE`] if the tree has no such row, [`NO_CHANGE`] if no place or content has the number,
/// [`NOT_CUT`] if `texts` has no such part, [`BESIDE_ROOT`], [`INTO_TOKEN`], [`REPLACED`],
/// [`IN_REPLACED`] or [`CHANGED_INSIDE`].
#[unsafe(no_mangle)]
pub extern "C" fn ras_c_change_tree(
    alloc: Global,
    handle: &mut Handle,
    changes: &[ChangeRow],
    texts: &[u8],
    out: &mut [u8],
    count: &mut u32,
) -> u32
    ensures done { result ≡ 0 → HoldsChanged changes.now texts.now handle.old.kept
        (λ new. IsHanded new out.old out.new count.new) }
    ensures room { result ≡ 4 → HoldsChanged changes.now texts.now handle.old.kept
        (λ new. IsCounted new out.old out.new count.new) }
    ensures refused { (result ≡ 2) ⊎ ((result ≡ 6) ⊎ (20 ≤ result))
        → HoldsUnchanged changes.now texts.now handle.old.kept result }
    ensures kept { (result ≡ 0 → ⊥) → (result ≡ 4 → ⊥)
        → (out.new ≡ out.old) × (count.new ≡ count.old) }
    ensures same { handle.new.kept ≡ handle.old.kept }
    ensures utf8 { (result ≡ 1) ↔ (IsUtf8 texts.now → ⊥) }
    ensures empty { (result ≡ 7) ↔ IsUtf8 texts.now × (handle.old.kept ≡ None) }
    ensures which { (result ≤ 4) ⊎ (6 ≤ result) × (result ≤ 7) ⊎ (20 ≤ result) × (result ≤ 26) }
{
    let Ok(texts) = str::from_utf8(texts) else {
        return NOT_UTF8;
    };
    let Some(kept) = take(alloc, handle) else {
        return NO_PARSE;
    };
    let root = kept.parse().root();
    let status = write_changed(alloc, root, changes, texts, out, count);
    put(alloc, handle, kept);
    status
}
