//! Some rows of a parse that is kept.
ghost use Rattle.std.specs.Prelude.{◌≡◌, ◌↔◌, ◌+◌, ◌<◌, ◌≤◌, ◌^◌, ◌⊎◌, length, None};
ghost use Rattle.tree_model.specs.Tree.{size};
ghost use Rattle.ras_c.specs.Live.{Holds};
ghost use Rattle.ras_c.specs.Part.{IsPart, LacksPart};

use crate::handle::Handle;
use crate::held::{put, take};
use crate::root::Root;
use crate::status::{NO_PARSE, NO_PLACE, OK, TOO_LONG};
use lossless_tree::FlatRow;
use ras_parsing::Parse;
use std::alloc::Global;

/// How many rows the tree of a parse has.
pub(crate) fn row_count(parse: &Parse<Root>) -> usize
    ensures { result ≡ size parse.now.tree }
{
    parse.root().write_flat_rows(&mut [])
}

// Fills the buffer with rows of a parse.
fn fill_part(parse: &Parse<Root>, from: usize, rows: &mut [FlatRow]) -> u32
    ensures done { result ≡ 0 → IsPart from parse.now.tree rows.old rows.new }
    ensures place { (result ≡ 6) ↔ LacksPart from (length rows.old) parse.now.tree }
    ensures long { (result ≡ 2) ↔ (2 ^ 32 ≤ size parse.now.tree) }
    ensures kept { (result ≡ 0 → ⊥) → rows.new ≡ rows.old }
    ensures which { (result ≡ 0) ⊎ (result ≡ 2) ⊎ (result ≡ 6) }
{
    let count = row_count(parse);
    if count > u32::MAX as usize {
        return TOO_LONG;
    }
    if parse.root().fill_flat_rows(from, rows) {
        OK
    } else {
        NO_PLACE
    }
}

/// Fills a buffer with rows of a handle's parse, those from number `from` on: a part of the rows
/// that `ras_c_rows` writes, so that a caller can use each part while it is near. The handle keeps
/// its parse.
///
/// Returns [`OK`], [`TOO_LONG`] if the whole tree has 2^32 rows or more, [`NO_PARSE`] if the handle
/// holds no parse, or [`NO_PLACE`] if the tree has fewer rows from `from` on than the buffer.
#[unsafe(no_mangle)]
pub extern "C" fn ras_c_rows_from(
    alloc: Global,
    handle: &mut Handle,
    from: u32,
    rows: &mut [FlatRow],
) -> u32
    ensures done { result ≡ 0
        → Holds handle.old.kept (λ p. IsPart from p.tree rows.old rows.new) }
    ensures place { (result ≡ 6)
        ↔ Holds handle.old.kept (λ p. LacksPart from (length rows.old) p.tree) }
    ensures long { (result ≡ 2) ↔ Holds handle.old.kept (λ p. 2 ^ 32 ≤ size p.tree) }
    ensures empty { (result ≡ 7) ↔ (handle.old.kept ≡ None) }
    ensures kept { (result ≡ 0 → ⊥) → rows.new ≡ rows.old }
    ensures same { handle.new.kept ≡ handle.old.kept }
    ensures which { (result ≡ 0) ⊎ (result ≡ 2) ⊎ (6 ≤ result) × (result ≤ 7) }
{
    let Some(kept) = take(alloc, handle) else {
        return NO_PARSE;
    };
    let status = fill_part(kept.parse(), from as usize, rows);
    put(alloc, handle, kept);
    status
}
