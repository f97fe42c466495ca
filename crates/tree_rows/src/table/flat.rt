//! Rows as plain numbers, for readers beyond Rattle.
ghost use Rattle.std.specs.Prelude.{◌≡◌, ◌↔◌, ◌+◌, ◌-◌, ◌<◌, ◌≤◌, ◌^◌, ◌++◌, ◌⊎◌, take, drop, length, string_bytes, IfOk, IfErr, IfSome, OnOk};
ghost use Rattle.tree_model.specs.Tree.{size, text, IsNode};
ghost use Rattle.tree_model.specs.Rows.{tree_at};
ghost use Rattle.tree_rows.specs.Flat.{flat_rows, flat_row_at};
ghost use Rattle.tree_rows.specs.declared.table.flat.NotFlat.TheVariants.{TooMany};

use super::Table;
use crate::rows::kind_number;
use std::alloc::{AllocError, Global};

/// One node or token, in 16 bytes. Rows are numbered from 0 in preorder.
#[repr(C)]
#[derive(Clone, Copy)]
pub struct FlatRow {
    /// The number of its kind, plus 2^31 for a token, since ERROR is a kind of both.
    pub kind: u32,
    /// The byte where its text starts.
    pub start: u32,
    /// The number of the first row after its subtree.
    pub subtree_end: u32,
    /// The number of its parent's row; the root, row 0, has 0.
    pub parent: u32,
}

/// Why a tree is not handed over as plain numbers.
#[derive(Clone, Copy)]
pub enum NotFlat {
    /// The tree has 2^32 nodes and tokens or more.
    TooMany,
    /// Out of memory.
    Memory,
}

impl Table {
    // Row `n` as one of the subtree at row `root`.
    fn flat_row(&self, root: usize, n: usize) -> FlatRow
        requires is_root { root < size self.now }
        requires is_node { IsNode (tree_at self.now root) }
        requires behind { root ≤ n }
        requires inside { n < root + size (tree_at self.now root) }
        requires few { size (tree_at self.now root) < 2 ^ 32 }
        ensures { result ≡ flat_row_at (tree_at self.now root) (n - root) }
    {
        let row = self.row(n);
        let start = self.row(root).start;
        let parent = self.parent(n).saturating_sub(root);
        FlatRow {
            kind: kind_number(row.kind, row.is_token),
            start: row.start - start,
            subtree_end: (row.end - root) as u32,
            parent: parent as u32,
        }
    }

    // Row `n` of the whole tree, from whose numbers nothing is taken away.
    fn whole_row(&self, n: usize) -> FlatRow
        requires is_row { n < size self.now }
        requires is_node { IsNode self.now }
        requires few { size self.now < 2 ^ 32 }
        ensures { result ≡ flat_row_at self.now n }
    {
        let row = self.row(n);
        FlatRow {
            kind: kind_number(row.kind, row.is_token),
            start: row.start,
            subtree_end: row.end as u32,
            parent: self.parent(n) as u32,
        }
    }

    /// Fills `out` with the rows of the whole tree from row `from` on.
    pub fn fill_flat_rows(&self, from: usize, out: &mut [FlatRow])
        requires is_node { IsNode self.now }
        requires few { size self.now < 2 ^ 32 }
        requires inside { from + length out.old ≤ size self.now }
        ensures { out.new ≡ take (length out.old) (drop from (flat_rows self.now)) }
    {
        // For the proof: the number of rows fits.
        let _rows = self.len();
        if let Some(rows) = self.rows.flat() {
            out.copy_from_slice(&rows[from..from + out.len()]);
            return;
        }
        for k in 0..out.len() {
            out[k] = self.whole_row(from + k);
        }
    }

    // The rows of the whole tree in a new list.
    fn copied_rows(&self, alloc: Global) -> Result<Vec<FlatRow>, AllocError>
        requires is_node { IsNode self.now }
        requires few { size self.now < 2 ^ 32 }
        ensures { IfOk result (λ v. v.items ≡ flat_rows self.now) }
    {
        let blank = FlatRow {
            kind: 0,
            start: 0,
            subtree_end: 0,
            parent: 0,
        };
        let mut rows = Vec::from_elem(alloc, blank, self.len())?;
        self.fill_flat_rows(0, &mut rows);
        Ok(rows)
    }

    // The text and the rows as they are stored.
    fn own_rows(self) -> Option<(String, Vec<FlatRow>)>
        requires { IsNode self }
        ensures text { IfSome result (λ p. string_bytes p.0 ≡ text self) }
        ensures rows { IfSome result (λ p. p.1.items ≡ flat_rows self) }
    {
        let Table { text, rows } = self;
        let rows = rows.into_flat()?;
        Some((text, rows))
    }

    // The text and a copy of the rows.
    fn with_copied_rows(self, alloc: Global) -> Result<(String, Vec<FlatRow>), AllocError>
        requires is_node { IsNode self }
        requires few { size self < 2 ^ 32 }
        ensures text { IfOk result (λ p. string_bytes p.0 ≡ text self) }
        ensures rows { IfOk result (λ p. p.1.items ≡ flat_rows self) }
    {
        let rows = self.copied_rows(alloc)?;
        let Table { text, rows: _ } = self;
        Ok((text, rows))
    }

    /// The text and the rows of the whole tree, which the caller owns from then on. Rows that no
    /// other tree has are not copied, unless an edit has shifted their starts.
    pub fn into_flat_rows(self, alloc: Global) -> Result<(String, Vec<FlatRow>), NotFlat>
        requires is_node { IsNode self }
        ensures text { IfOk result (λ p. string_bytes p.0 ≡ text self) }
        ensures rows { IfOk result (λ p. p.1.items ≡ flat_rows self) }
        ensures refused { IfErr result (λ e. (e ≡ TooMany) ↔ (2 ^ 32 ≤ size self)) }
        ensures fits { OnOk result (size self < 2 ^ 32) }
    {
        if self.len() > u32::MAX as usize {
            return Err(NotFlat::TooMany);
        }
        if self.rows.is_own_and_flat() {
            self.own_rows().ok_or(NotFlat::Memory)
        } else {
            self.with_copied_rows(alloc).map_err(|_| NotFlat::Memory)
        }
    }

    /// Writes the rows of the node at row `n`, as the root of a tree of its own, to the start of
    /// `out`, and returns their number. If that is more than `out.len()`, or 2^32 or more, `out` is
    /// unchanged.
    pub fn write_flat_rows(&self, n: usize, out: &mut [FlatRow]) -> usize
        requires is_row { n < size self.now }
        requires is_node { IsNode (tree_at self.now n) }
        ensures count { result ≡ size (tree_at self.now n) }
        ensures written { size (tree_at self.now n) ≤ length out.old
            → size (tree_at self.now n) < 2 ^ 32
            → out.new ≡ flat_rows (tree_at self.now n) ++ drop (size (tree_at self.now n)) out.old }
        ensures unchanged { (length out.old < size (tree_at self.now n))
            ⊎ (2 ^ 32 ≤ size (tree_at self.now n)) → out.new ≡ out.old }
    {
        let count = self.size_at(n);
        if count > out.len() || count > u32::MAX as usize {
            return count;
        }
        if n == 0 {
            self.fill_flat_rows(0, &mut out[..count]);
            return count;
        }
        // For the proof: the number of rows fits.
        let _rows = self.len();
        for k in 0..count {
            out[k] = self.flat_row(n, n + k);
        }
        count
    }
}
