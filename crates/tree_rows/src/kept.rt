//! Rows that several trees share. The starts of all rows after one of them can be shifted.
ghost use Rattle.std.specs.Prelude.{◌≡◌, ◌<◌, ◌≤◌, ◌^◌, length, get_or, IfOk, IfSome, OnOk};
ghost use Rattle.std.specs.Cmp.Lexicographic.{pointwise};
ghost use Rattle.tree_rows.specs.Rows.{no_row, joined};
ghost use Rattle.tree_rows.specs.MovedRows.{cut_of};
ghost use Rattle.tree_rows.specs.Stored.{flat_columns};
ghost use Rattle.tree_rows.specs.StartsMoved.{starts_moved, StartsFit};
ghost use Rattle.tree_rows.specs.RowEquality.{is_same_row};

use crate::rows::{Row, Rows};
use crate::shift::Shift;
use crate::table::FlatRow;
use shared_pointer::Shared;
use std::alloc::{AllocError, Global};
use std::marker::Model;

/// Rows and their parents. A clause sees both columns.
#[derive(Drop)]
pub struct Kept {
    rows: Shared<Rows>,
    /// The starts of the rows after this one are shifted.
    at: usize,
    /// A stored start `from + k` of these rows stands for the start `to + k`.
    from: usize,
    /// See `from`.
    to: usize,
}

impl Model for Kept {
    ghost use Rattle.tree_rows.specs.Rows.{Columns};
    ghost use Rattle.tree_rows.specs.Stored.{columns_code};
    ghost use Rattle.tree_rows.specs.StartsMoved.{starts_moved, StartsFit};

    ghost Value = { Columns };

    ghost coded = { columns_code };

    ghost view = { λ a. starts_moved a.at a.from a.to a.rows.value };

    ghost invariant = { λ a. StartsFit a.at a.from a.to a.rows.value };
}

impl Kept {
    /// These rows, without a shift.
    pub fn new(alloc: Global, rows: Rows) -> Result<Kept, AllocError>
        ensures { IfOk result (λ kept. kept ≡ rows) }
    {
        // For the proof: no row has a number as large as the one that is kept.
        let _count = rows.len();
        let rows = Shared::new(alloc, rows)?;
        Ok(Kept {
            rows,
            at: usize::MAX,
            from: 0,
            to: 0,
        })
    }

    /// How many rows there are.
    pub fn len(&self) -> usize
        ensures value { result ≡ length self.now.rows }
        ensures small { result < 2 ^ 63 }
    {
        self.rows.as_ref().len()
    }

    /// Row `n`.
    #[inline(always)]
    pub(crate) fn get(&self, n: usize) -> Row
        requires { n < length self.now.rows }
        ensures value { result ≡ get_or self.now.rows n no_row }
        ensures fits { result.end < 2 ^ 63 }
    {
        let row = self.rows.as_ref().get(n);
        if n <= self.at {
            return row;
        }
        let start = (row.start as usize).saturating_sub(self.from) + self.to;
        Row {
            kind: row.kind,
            is_token: row.is_token,
            start: start as u32,
            end: row.end,
        }
    }

    /// The rows as they are stored, if no start is shifted and each number fits in 32 bits.
    pub(crate) fn flat(&self) -> Option<&[FlatRow]>
        ensures { IfSome result (λ rows. rows.now ≡ flat_columns self.now) }
    {
        if self.at < self.len() {
            return None;
        }
        self.rows.as_ref().flat()
    }

    /// Whether [`Kept::into_flat`] has the rows to give.
    pub(crate) fn is_own_and_flat(&self) -> bool {
        self.rows.is_last() && self.flat().is_some()
    }

    /// The rows as they are stored, without a copy, if no other tree has them, no start is shifted
    /// and each number fits in 32 bits.
    pub(crate) fn into_flat(self) -> Option<Vec<FlatRow>>
        ensures { IfSome result (λ rows. rows.items ≡ flat_columns self) }
    {
        if self.len() > self.at {
            return None;
        }
        let Kept {
            rows,
            at: _,
            from: _,
            to: _,
        } = self;
        let rows = rows.into_value()?;
        rows.into_flat()
    }

    /// The stored number of the parent of row `n`.
    pub(crate) fn parent(&self, n: usize) -> usize
        requires { n < length self.now.rows }
        ensures { result ≡ get_or self.now.parents n 0 }
    {
        self.rows.as_ref().parent(n)
    }

    /// The same rows, shared, with the starts of all rows after row `n` (at least `from`) shifted
    /// by `to - from`. Returns `None` if the starts after another row are shifted already.
    pub(crate) fn restarted(&self, n: usize, from: usize, to: usize) -> Option<Kept>
        requires is_row { n < length self.now.rows }
        requires fits { StartsFit n from to self.now }
        ensures { IfSome result (λ kept. kept ≡ starts_moved n from to self.now) }
    {
        // For the proof: no row has a number as large as the one that is kept.
        let _count = self.len();
        if self.at == usize::MAX {
            return Some(Kept {
                rows: self.rows.share(),
                at: n,
                from,
                to,
            });
        }
        if self.at == n && self.to == from {
            return Some(Kept {
                rows: self.rows.share(),
                at: n,
                from: self.from,
                to,
            });
        }
        None
    }

    /// Appends the rows `first..end` of these to `rows`.
    pub(crate) fn copy_to(
        &self,
        rows: &mut Rows,
        first: usize,
        end: usize,
    ) -> Result<(), AllocError>
        requires ordered { first ≤ end }
        requires in_range { end ≤ length self.now.rows }
        ensures { OnOk result (rows.new ≡ joined rows.old (cut_of first end self.now)) }
    {
        // For the proof: how many rows there are before.
        let _count = rows.len();
        rows.extend_from(self.rows.as_ref(), first, end)?;
        if self.at < end {
            let behind = end - usize::max(first, self.at + 1);
            let by = Shift {
                from_row: 0,
                to_row: 0,
                from_byte: self.from,
                to_byte: self.to,
            };
            rows.move_from(rows.len() - behind, by)?;
        }
        Ok(())
    }

    fn has_same_rows(&self, other: &Kept) -> bool
        ensures { result ≡ pointwise is_same_row self.now.rows other.now.rows }
    {
        let count = self.len();
        if other.len() != count {
            return false;
        }
        for n in 0..count {
            if self.get(n) == other.get(n) {} else {
                return false;
            }
        }
        true
    }
}

impl PartialEq for Kept {
    ghost use Rattle.tree_rows.specs.RowEquality.{are_same_columns};
    ghost use Rattle.tree_rows.specs.RowEqualityLaws.{columns_equivalence};
    ghost use Rattle.std.specs.Cmp.{partial_equiv_from_equiv};

    ghost eq = { are_same_columns };

    ghost laws = { partial_equiv_from_equiv columns_equivalence };

    fn eq(&self, other: &Kept) -> bool {
        self.has_same_rows(other) && self.rows.as_ref().has_same_parents(other.rows.as_ref())
    }
}
