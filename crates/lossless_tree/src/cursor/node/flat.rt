//! The rows of a node as plain numbers.
ghost use Rattle.std.specs.Prelude.{◌≡◌, ◌+◌, ◌<◌, ◌≤◌, ◌^◌, ◌++◌, ◌⊎◌, ◌↔◌, IsTrue, take, drop, length, string_bytes, IfOk, IfErr, OnOk};
ghost use Rattle.tree_model.specs.Tree.{size, text, IsNode};
ghost use Rattle.tree_model.specs.Cursor.{focus};
ghost use Rattle.tree_rows.specs.Flat.{flat_rows};
ghost use Rattle.tree_rows.specs.declared.table.flat.NotFlat.TheVariants.{TooMany};

use super::SyntaxNode;
use std::alloc::{AllocError, Global};
use tree_rows::{FlatRow, NotFlat, Table};

// Copies of the text and the rows of a table.
fn copied(alloc: Global, table: &Table) -> Result<(String, Vec<FlatRow>), AllocError>
    requires is_node { IsNode table.now }
    requires few { size table.now < 2 ^ 32 }
    ensures text { IfOk result (λ p. string_bytes p.0 ≡ text table.now) }
    ensures rows { IfOk result (λ p. p.1.items ≡ flat_rows table.now) }
{
    let blank = FlatRow {
        kind: 0,
        start: 0,
        subtree_end: 0,
        parent: 0,
    };
    let text = String::from_str(alloc, table.text_at(0))?;
    let mut rows = Vec::from_elem(alloc, blank, table.len())?;
    table.fill_flat_rows(0, &mut rows);
    Ok((text, rows))
}

impl SyntaxNode {
    /// The text of the whole tree, and its rows: those that
    /// [`write_flat_rows`](SyntaxNode::write_flat_rows) of its root writes. The caller owns both.
    ///
    /// If no other cursor shares the tree, they are taken out of it; otherwise they are copied. If
    /// they are refused, the cursor is gone too.
    pub fn into_flat_rows(self, alloc: Global) -> Result<(String, Vec<FlatRow>), NotFlat>
        ensures text { IfOk result (λ p. string_bytes p.0 ≡ text self.tree) }
        ensures rows { IfOk result (λ p. p.1.items ≡ flat_rows self.tree) }
        ensures refused { IfErr result (λ e. (e ≡ TooMany) ↔ (2 ^ 32 ≤ size self.tree)) }
        ensures fits { OnOk result (size self.tree < 2 ^ 32) }
    {
        if self.table.len() > u32::MAX as usize {
            return Err(NotFlat::TooMany);
        }
        let SyntaxNode { table, row: _ } = self;
        match table.value_or_owner() {
            Some(Ok(table)) => table.into_flat_rows(alloc),
            Some(Err(shared)) => copied(alloc, shared.as_ref()).map_err(|_| NotFlat::Memory),
            // It does not happen, but no clause says so.
            None => Err(NotFlat::Memory),
        }
    }

    /// Writes the rows of this node's subtree, as a tree of its own, to the start of `out`, and
    /// returns their number: one for each node and token, in preorder. If that is more than
    /// `out.len()`, or 2^32 or more, `out` is unchanged; so a call with an empty slice counts.
    ///
    /// It takes time linear in the subtree, and no memory.
    pub fn write_flat_rows(&self, out: &mut [FlatRow]) -> usize
        ensures count { result ≡ size (focus self.now) }
        ensures written { size (focus self.now) ≤ length out.old → size (focus self.now) < 2 ^ 32
            → out.new ≡ flat_rows (focus self.now) ++ drop (size (focus self.now)) out.old }
        ensures unchanged { (length out.old < size (focus self.now))
            ⊎ (2 ^ 32 ≤ size (focus self.now)) → out.new ≡ out.old }
    {
        self.table.write_flat_rows(self.row, out)
    }

    /// Fills `out` with rows of the whole tree, those from row `from` on: some of those that
    /// [`write_flat_rows`](SyntaxNode::write_flat_rows) of its root writes. Returns whether it did:
    /// if the tree has fewer rows, or 2^32 or more, `out` is unchanged.
    ///
    /// It takes time linear in the rows that are written, and no memory.
    pub fn fill_flat_rows(&self, from: usize, out: &mut [FlatRow]) -> bool
        ensures filled { IsTrue result
            → out.new ≡ take (length out.old) (drop from (flat_rows self.now.tree)) }
        ensures fits { IsTrue result
            ↔ (size self.now.tree < 2 ^ 32) × (from + length out.old ≤ size self.now.tree) }
        ensures unchanged { (IsTrue result → ⊥) → out.new ≡ out.old }
    {
        let count = self.table.len();
        if count > u32::MAX as usize || from > count || out.len() > count - from {
            return false;
        }
        self.table.fill_flat_rows(from, out);
        true
    }
}
