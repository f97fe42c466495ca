//! Trees that are handed over: the rows and the text in memory that C owns.
ghost use Rattle.std.specs.Prelude.{◌≡◌, ◌↔◌, ◌⊎◌, ◌<◌, ◌≤◌, ◌^◌, None, Some};
ghost use Rattle.tree_model.specs.Tree.{size};
ghost use Rattle.ras_c.specs.Live.{Holds};
ghost use Rattle.ras_c.specs.Handed.{IsTreeAt, IsTreeOf, IsNoTree};

use crate::flat::{FlatTree, flat_tree};
use crate::handle::Handle;
use crate::held::{put, take};
use crate::loose::Loose;
use crate::owner::{TreeOwner, empty, open, seal};
use crate::part::row_count;
use crate::status::{NO_MEMORY, NO_PARSE, OK, TOO_LONG};
use lossless_tree::FlatRow;
use std::alloc::Global;
use std::mem::replace;

/// A tree in memory that the caller owns: its rows, those that `ras_c_rows` writes, and its text.
/// All zeros is no tree.
///
/// Nothing changes the rows and the text, so any number of threads may read them, until
/// `ras_c_free_tree` frees them. It may be called by any thread, once: not for a copy of the struct
/// too. Only the library changes the fields.
#[repr(C)]
pub struct TreeRows {
    /// The rows, in preorder. Where there is no tree it is null.
    pub rows: *const FlatRow,
    /// How many rows there are: at least one, and fewer than 2^32.
    pub row_count: usize,
    /// The bytes of the text, which is UTF-8. Nothing may be read there if it is empty.
    pub text: *const u8,
    /// How many bytes the text has: fewer than 2^32.
    pub text_len: usize,
    /// What owns the memory. It is private to the library.
    owner: TreeOwner,
}

// No tree.
fn no_tree() -> TreeRows
    ensures { IsNoTree result }
{
    TreeRows {
        rows: std::ptr::null(),
        row_count: 0,
        text: std::ptr::null(),
        text_len: 0,
        owner: empty(),
    }
}

// The rows and the text of a tree, where they are.
fn handed(flat: Box<FlatTree>) -> TreeRows
    ensures { IsTreeAt flat.value result }
{
    let (rows, row_count) = (flat.rows.as_ptr(), flat.rows.len());
    let (text, text_len) = (flat.text.as_ptr(), flat.text.len());
    TreeRows {
        rows,
        row_count,
        text,
        text_len,
        owner: seal(Loose::of(flat)),
    }
}

// Frees what a tree owns.
fn free(alloc: Global, tree: TreeRows) {
    let TreeRows {
        rows: _,
        row_count: _,
        text: _,
        text_len: _,
        owner,
    } = tree;
    if let Some(loose) = open(alloc, owner) {
        let _flat = loose.into_box();
    }
}

/// Takes the tree of a handle's parse out of it, as rows and text that the caller owns from then
/// on, without a copy of them. The handle then holds no parse. A tree that `tree` held is freed.
///
/// Returns [`OK`], [`TOO_LONG`] if the tree has 2^32 rows or more, [`NO_MEMORY`], or [`NO_PARSE`]
/// if the handle holds no parse. Unless it is [`OK`], `tree` is not changed; if it is
/// [`NO_MEMORY`], the parse of the handle is freed, and else the handle is not changed.
#[unsafe(no_mangle)]
pub extern "C" fn ras_c_take_tree(alloc: Global, handle: &mut Handle, tree: &mut TreeRows) -> u32
    ensures done { result ≡ 0 → Holds handle.old.kept (λ p. IsTreeOf p.tree tree.new) }
    ensures taken { (result ≡ 0) ⊎ (result ≡ 3) → handle.new.kept ≡ None }
    ensures same { (result ≡ 2) ⊎ (result ≡ 7) → handle.new.kept ≡ handle.old.kept }
    ensures kept { (result ≡ 0 → ⊥) → tree.new ≡ tree.old }
    ensures long { (result ≡ 2) ↔ Holds handle.old.kept (λ p. 2 ^ 32 ≤ size p.tree) }
    ensures empty { (result ≡ 7) ↔ (handle.old.kept ≡ None) }
    ensures which { (result ≡ 0) ⊎ (2 ≤ result) × (result ≤ 3) ⊎ (result ≡ 7) }
{
    let Some(kept) = take(alloc, handle) else {
        return NO_PARSE;
    };
    if row_count(kept.parse()) > u32::MAX as usize {
        put(alloc, handle, kept);
        return TOO_LONG;
    }
    let Ok(flat) = flat_tree(alloc, Box::into_inner(kept)) else {
        return NO_MEMORY;
    };
    match Box::new(alloc, flat) {
        Ok(flat) => {
            free(alloc, replace(tree, handed(flat)));
            OK
        }
        Err(_) => NO_MEMORY,
    }
}

/// Frees the rows and the text of a tree, if there is one. It then is none, all zeros, and may be
/// used again.
#[unsafe(no_mangle)]
pub extern "C" fn ras_c_free_tree(alloc: Global, tree: &mut TreeRows)
    ensures { IsNoTree tree.new }
{
    free(alloc, replace(tree, no_tree()));
}
