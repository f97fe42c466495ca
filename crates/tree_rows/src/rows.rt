//! Rows, in 16 bytes each, in the form that crosses to other languages.
ghost use Rattle.std.specs.Cmp.Lexicographic.{pointwise};
ghost use Rattle.std.specs.Prelude.{ℕ, ◌≡◌, ◌==◌, ◌<◌, ◌≤◌, ◌+◌, ◌-◌, ◌/◌, ◌%◌, ◌^◌, ◌++◌, ◌⊎◌, [], length, get_or, IfOk, IfSome, OnOk, OnErr, IsTrue, IsFalse};
ghost use Rattle.std.proofs.Math.ListN.{set};
ghost use Rattle.syntax_kind.specs.Kinds.{kind_raw};
ghost use Rattle.tree_rows.specs.Flat.{flat_kind};
ghost use Rattle.tree_rows.specs.Rows.{no_row, no_rows, one_row, joined};
ghost use Rattle.tree_rows.specs.Stored.{kind_numbered, kind_kept, token_kept, no_high, high_of, high_between, slot, row_in, parent_in, with_row, with_end, flat_columns, IsNumbered};
ghost use Rattle.tree_rows.specs.MovedRows.{cut_of, moved_row, moved_number, moved_from, MoveFits, NumberFits};

use crate::row_kind::{RowKind, TOKEN};
use crate::shift::Shift;
use crate::table::FlatRow;
use std::alloc::{AllocError, Global};
use std::marker::Model;
use syntax_kind::{KINDS, SyntaxKind};

/// One node or token. Rows are numbered from 0 in preorder.
#[derive(Clone, Copy)]
pub(crate) struct Row {
    /// Its kind.
    pub kind: SyntaxKind,
    /// Whether it is a token.
    pub is_token: bool,
    /// The byte where its text starts.
    pub start: u32,
    /// The number of the first row after the subtree.
    pub end: usize,
}

/// The high halves of the numbers of a row.
#[derive(Clone, Copy)]
pub struct High {
    end: u32,
    parent: u32,
}

const NO_HIGH: High = High { end: 0, parent: 0 };

// The first number that does not fit in 32 bits.
pub(crate) const HALF: usize = 4_294_967_296;

// The number of the kind `OTHER`.
fn other_number(number: u16) -> u32
    ensures raw { result ≡ 65536 + number }
    ensures kind { kind_numbered result ≡ SyntaxKind.OTHER number }
{
    65_536 + number as u32
}

#[inline(always)]
fn raw_number(kind: SyntaxKind) -> u32
    ensures raw { result ≡ kind_raw kind }
    ensures kind { kind_numbered result ≡ kind }
    ensures small { result < 2 ^ 31 }
{
    match kind {
        SyntaxKind::Token(_) => kind.to_raw(),
        SyntaxKind::Node(_) => kind.to_raw(),
        SyntaxKind::OTHER(number) => other_number(number),
    }
}

/// The number of a kind, and for a token `TOKEN` more.
#[inline(always)]
pub(crate) fn kind_number(kind: SyntaxKind, is_token: bool) -> u32
    ensures number { result ≡ flat_kind kind is_token }
    ensures kind { kind_kept result ≡ kind }
    ensures token { token_kept result ≡ is_token }
{
    let number = raw_number(kind);
    if is_token { number + TOKEN } else { number }
}

// The kind with a stored number.
#[inline(always)]
pub(crate) fn kind_of(number: u32) -> SyntaxKind
    ensures { result ≡ kind_kept number }
{
    let raw = number % TOKEN;
    if raw < 264 {
        KINDS[raw as usize]
    } else {
        SyntaxKind::OTHER((raw % 65_536) as u16)
    }
}

// The number in a half of a row's number, or the whole of both.
fn low_half(number: usize) -> u32
    ensures { result ≡ number % 2 ^ 32 }
{
    (number % HALF) as u32
}

fn high_half(number: usize) -> u32
    ensures { result ≡ number / 2 ^ 32 }
{
    (number / HALF) as u32
}

// The high halves of row `n`: 0 in a list without them.
fn high_at(high: &[High], n: usize) -> High
    ensures { result ≡ get_or high.now n no_high }
{
    if n < high.len() { high[n] } else { NO_HIGH }
}

// Appends the high halves of the rows `first..end` of another list.
fn extend_high(
    high: &mut Vec<High>,
    other: &[High],
    first: usize,
    end: usize,
) -> Result<(), AllocError>
    requires ordered { first ≤ end }
    requires in_range { (other.now ≡ []) ⊎ (end ≤ length other.now) }
    requires fits { length high.old.items + (end - first) < 2 ^ 64 }
    ensures ok { OnOk result (high.new.items ≡ high.old.items ++ high_between other.now first end) }
    ensures err { OnErr result (high.new.items ≡ high.old.items) }
{
    if other.is_empty() {
        high.resize(high.len() + (end - first), NO_HIGH)
    } else {
        high.extend_from_slice(&other[first..end])
    }
}

// A row in the form that is stored, whose high halves are beside it.
fn flat_row(row: Row, parent: usize) -> FlatRow
    ensures row { row.end < 2 ^ 63 → row_in (slot result (high_of row.end parent)) ≡ row }
    ensures parent { parent_in (slot result (high_of row.end parent)) ≡ parent }
    ensures numbered { IsNumbered result }
{
    FlatRow {
        kind: kind_number(row.kind, row.is_token),
        start: row.start,
        subtree_end: low_half(row.end),
        parent: low_half(parent),
    }
}

/// A list of rows, and the number of each one's parent. A clause sees two columns.
///
/// Each row is stored as it crosses to other languages. Where a number is 2^32 or more, there is a
/// second list with the high halves of all rows.
#[derive(Drop)]
pub struct Rows {
    flat: Vec<FlatRow>,
    /// Empty, or as long as `flat`.
    high: Vec<High>,
}

impl Model for Rows {
    ghost use Rattle.tree_rows.specs.Rows.{Columns};
    ghost use Rattle.tree_rows.specs.Stored.{columns_code, rows_kept, AreKept};

    ghost Value = { Columns };

    ghost coded = { columns_code };

    ghost view = { λ a. rows_kept a.flat.items a.high.items };

    ghost invariant = { λ a. AreKept a.flat.items a.high.items };
}

impl Rows {
    /// An empty list with room for this many rows.
    pub fn with_capacity(alloc: Global, count: usize) -> Result<Rows, AllocError>
        ensures empty { IfOk result (λ rows. rows ≡ no_rows) }
        ensures fits { OnOk result (count < 2 ^ 63) }
    {
        let flat = Vec::with_capacity(alloc, count)?;
        let high = Vec::new(alloc);
        Ok(Rows { flat, high })
    }

    /// How many rows there are. A vector never has room for 2^63.
    pub fn len(&self) -> usize
        ensures value { result ≡ length self.now.rows }
        ensures parents { result ≡ length self.now.parents }
        ensures small { result < 2 ^ 63 }
    {
        self.flat.len()
    }

    /// Row `n`. Where its caller reads no kind, the compiler drops the look-up of the kind.
    #[inline(always)]
    pub(crate) fn get(&self, n: usize) -> Row
        requires { n < length self.now.rows }
        ensures value { result ≡ get_or self.now.rows n no_row }
        ensures fits { result.end < 2 ^ 63 }
    {
        let flat = self.flat[n];
        let end = high_at(&self.high, n).end % TOKEN;
        Row {
            kind: kind_of(flat.kind),
            is_token: flat.kind >= TOKEN,
            start: flat.start,
            end: end as usize * HALF + flat.subtree_end as usize,
        }
    }

    /// The rows as they cross to other languages, if each number fits in 32 bits.
    pub(crate) fn flat(&self) -> Option<&[FlatRow]>
        ensures { IfSome result (λ rows. rows.now ≡ flat_columns self.now) }
    {
        if self.high.is_empty() {
            Some(&self.flat)
        } else {
            None
        }
    }

    /// The same as [`Rows::flat`], without a copy, as a list of the caller's own.
    pub(crate) fn into_flat(self) -> Option<Vec<FlatRow>>
        ensures { IfSome result (λ rows. rows.items ≡ flat_columns self) }
    {
        if self.high.is_empty() {
            let Rows { flat, high: _ } = self;
            Some(flat)
        } else {
            None
        }
    }

    /// The number of the parent of row `n`.
    pub(crate) fn parent(&self, n: usize) -> usize
        requires { n < length self.now.rows }
        ensures { result ≡ get_or self.now.parents n 0 }
    {
        let parent = high_at(&self.high, n).parent;
        parent as usize * HALF + self.flat[n].parent as usize
    }

    /// Appends a row and the number of its parent if there is room and no number needs a high half.
    /// Returns whether it did; if not, nothing is changed.
    ///
    /// Nearly all rows of a parse are written so, without a call; [`Rows::push`] takes the others.
    #[inline(always)]
    pub(crate) fn push_low(&mut self, kind: RowKind, start: u32, end: u32, parent: usize) -> bool
        ensures pushed { IsTrue result → self.new ≡ joined self.old (one_row (record {
          kind = kind.kind;
          is_token = kind.is_token;
          start = start;
          end = end;
        }) parent) }
        ensures left { IsFalse result → self.new ≡ self.old }
    {
        if self.flat.len() < self.flat.capacity() && parent < HALF && self.high.is_empty() {
            self.flat.push_reserved(FlatRow {
                kind: kind.number,
                start,
                subtree_end: end,
                parent: low_half(parent),
            });
            true
        } else {
            false
        }
    }

    /// Appends a row and the number of its parent; if memory runs out, nothing is changed.
    #[inline(always)]
    pub(crate) fn push(&mut self, row: Row, parent: usize) -> Result<(), AllocError>
        requires { row.end < 2 ^ 63 }
        ensures ok { OnOk result (self.new ≡ joined self.old (one_row row parent)) }
        ensures err { OnErr result (self.new ≡ self.old) }
    {
        if self.high.is_empty() && row.end < HALF && parent < HALF {
            self.flat.push(flat_row(row, parent))?;
            return Ok(());
        }
        // A row of its own, so that only this way has one in memory.
        let Row {
            kind,
            is_token,
            start,
            end,
        } = row;
        let wide = Row {
            kind,
            is_token,
            start,
            end,
        };
        self.push_wide(wide, parent)
    }

    // The same for a list with high halves, or that gets them now.
    #[cold]
    #[inline(never)]
    fn push_wide(&mut self, row: Row, parent: usize) -> Result<(), AllocError>
        requires { row.end < 2 ^ 63 }
        ensures ok { OnOk result (self.new ≡ joined self.old (one_row row parent)) }
        ensures err { OnErr result (self.new ≡ self.old) }
    {
        let count = self.flat.len();
        self.high.resize(count, NO_HIGH)?;
        let high = High {
            end: high_half(row.end),
            parent: high_half(parent),
        };
        self.high.push(high)?;
        match self.flat.extend_from_slice(&[flat_row(row, parent)]) {
            Ok(()) => Ok(()),
            Err(_) => {
                self.high.pop();
                Err(AllocError)
            }
        }
    }

    // Puts a row in place of row `n`. Its kind has a number.
    fn put(&mut self, n: usize, flat: FlatRow, high: High) -> Result<(), AllocError>
        requires is_row { n < length self.old.rows }
        requires numbered { IsNumbered flat }
        ensures { OnOk result (self.new ≡ with_row self.old n (slot flat high)) }
    {
        if self.high.is_empty() && high.end == 0 && high.parent == 0 {
            self.flat[n] = flat;
            return Ok(());
        }
        // A row of its own, as in `push`.
        let FlatRow {
            kind,
            start,
            subtree_end,
            parent,
        } = flat;
        let wide = FlatRow {
            kind,
            start,
            subtree_end,
            parent,
        };
        self.put_wide(n, wide, high)
    }

    #[cold]
    #[inline(never)]
    fn put_wide(&mut self, n: usize, flat: FlatRow, high: High) -> Result<(), AllocError>
        requires is_row { n < length self.old.rows }
        requires numbered { IsNumbered flat }
        ensures { OnOk result (self.new ≡ with_row self.old n (slot flat high)) }
    {
        let count = self.flat.len();
        self.high.resize(count, NO_HIGH)?;
        self.high[n] = high;
        self.flat[n] = flat;
        Ok(())
    }

    /// Ends row `n` behind the last row, and gives the number of its parent.
    #[inline(always)]
    pub(crate) fn close(&mut self, n: usize) -> Result<usize, AllocError>
        requires { n < length self.old.rows }
        ensures ended { OnOk result (self.new ≡ with_end self.old n (length self.old.rows)) }
        ensures parent { IfOk result (λ p. p ≡ get_or self.old.parents n 0) }
    {
        let end = self.flat.len();
        if self.high.is_empty() && end < HALF {
            let flat = self.flat[n];
            self.flat[n] = FlatRow {
                kind: flat.kind,
                start: flat.start,
                subtree_end: low_half(end),
                parent: flat.parent,
            };
            return Ok(flat.parent as usize);
        }
        self.close_wide(n)
    }

    // The same for a list with high halves, or that gets them now.
    #[cold]
    #[inline(never)]
    fn close_wide(&mut self, n: usize) -> Result<usize, AllocError>
        requires { n < length self.old.rows }
        ensures ended { OnOk result (self.new ≡ with_end self.old n (length self.old.rows)) }
        ensures parent { IfOk result (λ p. p ≡ get_or self.old.parents n 0) }
    {
        let parent = self.parent(n);
        let end = self.len();
        self.set_end(n, end)?;
        Ok(parent)
    }

    // Sets the end of row `n`.
    fn set_end(&mut self, n: usize, end: usize) -> Result<(), AllocError>
        requires is_row { n < length self.old.rows }
        requires fits { end < 2 ^ 63 }
        ensures { OnOk result (self.new ≡ with_end self.old n end) }
    {
        let flat = self.flat[n];
        let high = High {
            end: high_half(end),
            parent: high_at(&self.high, n).parent,
        };
        let flat = FlatRow {
            kind: flat.kind,
            start: flat.start,
            subtree_end: low_half(end),
            parent: flat.parent,
        };
        self.put(n, flat, high)
    }

    // Moves row `n`.
    fn move_row(&mut self, n: usize, by: Shift) -> Result<(), AllocError>
        requires is_row { n < length self.old.rows }
        requires row_fits { (get_or self.old.rows n no_row).end < 2 ^ 63
            → MoveFits by (get_or self.old.rows n no_row) }
        requires parent_fits { get_or self.old.parents n 0 < 2 ^ 64
            → NumberFits by (get_or self.old.parents n 0) }
        ensures { OnOk result (self.new
            ≡ record {
              rows = set self.old.rows n (moved_row by (get_or self.old.rows n no_row));
              parents = set self.old.parents n (moved_number by (get_or self.old.parents n 0));
            }) }
    {
        let flat = self.flat[n];
        let end = by.number(self.get(n).end);
        let parent = by.number(self.parent(n));
        let flat = FlatRow {
            kind: flat.kind,
            start: by.start(flat.start),
            subtree_end: low_half(end),
            parent: low_half(parent),
        };
        let high = High {
            end: high_half(end),
            parent: high_half(parent),
        };
        self.put(n, flat, high)
    }

    /// Appends the rows `first..end` of another list; if memory runs out, nothing is changed.
    pub(crate) fn extend_from(
        &mut self,
        other: &Rows,
        first: usize,
        end: usize,
    ) -> Result<(), AllocError>
        requires ordered { first ≤ end }
        requires in_range { end ≤ length other.now.rows }
        ensures ok { OnOk result (self.new ≡ joined self.old (cut_of first end other.now)) }
        ensures err { OnErr result (self.new ≡ self.old) }
    {
        if self.high.is_empty() && other.high.is_empty() {
            self.flat.extend_from_slice(&other.flat[first..end])?;
            return Ok(());
        }
        self.extend_wide(other, first, end)
    }

    // The same where one of the lists has high halves.
    #[cold]
    #[inline(never)]
    fn extend_wide(&mut self, other: &Rows, first: usize, end: usize) -> Result<(), AllocError>
        requires ordered { first ≤ end }
        requires in_range { end ≤ length other.now.rows }
        ensures ok { OnOk result (self.new ≡ joined self.old (cut_of first end other.now)) }
        ensures err { OnErr result (self.new ≡ self.old) }
    {
        // For the proof: the number of all rows fits.
        let _more = other.len();
        let count = self.len();
        self.high.resize(count, NO_HIGH)?;
        extend_high(&mut self.high, &other.high, first, end)?;
        match self.flat.extend_from_slice(&other.flat[first..end]) {
            Ok(()) => Ok(()),
            Err(_) => {
                self.high.truncate(count);
                Err(AllocError)
            }
        }
    }

    /// Moves the rows from `n` on.
    pub(crate) fn move_from(&mut self, n: usize, by: Shift) -> Result<(), AllocError>
        requires is_row { n ≤ length self.old.rows }
        requires rows_fit { (k : ℕ) → n ≤ k → k < length self.old.rows
            → (get_or self.old.rows k no_row).end < 2 ^ 63
            → MoveFits by (get_or self.old.rows k no_row) }
        requires parents_fit { (k : ℕ) → n ≤ k → k < length self.old.rows
            → get_or self.old.parents k 0 < 2 ^ 64 → NumberFits by (get_or self.old.parents k 0) }
        ensures { OnOk result (self.new ≡ moved_from n by self.old) }
    {
        let count = self.len();
        for k in n..count {
            self.move_row(k, by)?;
        }
        Ok(())
    }

    /// Whether the numbers of the parents are the same.
    pub(crate) fn has_same_parents(&self, other: &Rows) -> bool
        ensures { result ≡ pointwise ◌==◌ self.now.parents other.now.parents }
    {
        let count = self.len();
        if other.len() != count {
            return false;
        }
        for n in 0..count {
            if self.parent(n) != other.parent(n) {
                return false;
            }
        }
        true
    }
}

impl PartialEq for Row {
    ghost use Rattle.tree_rows.specs.RowEquality.{is_same_row};
    ghost use Rattle.tree_rows.specs.RowEqualityLaws.{row_equivalence};
    ghost use Rattle.std.specs.Cmp.{partial_equiv_from_equiv};

    ghost eq = { is_same_row };

    ghost laws = { partial_equiv_from_equiv row_equivalence };

    fn eq(&self, other: &Row) -> bool {
        self.kind.to_raw() == other.kind.to_raw()
            && self.is_token == other.is_token
            && self.start == other.start
            && self.end == other.end
    }
}
