//! Searches of rows by offset. The starts of rows are sorted, so they are binary searches, after a
//! guess.
ghost use Rattle.std.specs.Prelude.{◌≡◌, ◌+◌, ◌≤◌, ◌<◌, ◌^◌, ◌++◌, nat_lt, length, map, option_map, IfSome, IsTrue, ◌↔◌};
ghost use Rattle.std.specs.Option.{option_to_list};
ghost use Rattle.tree_model.specs.Tree.{nil, cons, size};
ghost use Rattle.tree_model.specs.Rows.{end_at};
ghost use Rattle.tree_rows.specs.Rows.{rows_of, row_at};
ghost use Rattle.tree_rows.specs.RowSearch.{SplitsAt, Reaching, IsTokenRow, IsNodeRow, NoneHolds, IsHolding};
ghost use Rattle.tree_model.specs.Cursor.{cursor_at, descendants_of};
ghost use Rattle.tree_model.specs.Covering.{covering_of, holds};
ghost use Rattle.tree_model.specs.Pointer.{IsFirst, PointsTo};
ghost use Rattle.tree_model.specs.TokenSearch.{tokens_at};

use super::Table;
use super::narrow::Stretch;
use syntax_kind::SyntaxKind;
use text_size::TextRange;

impl Table {
    // The first of the rows `from..to` that starts at `offset` or after it; `to` where none does.
    fn first_row_from(&self, from: usize, to: usize, offset: usize) -> usize
        requires ordered { from ≤ to }
        requires in_range { to ≤ size self.now }
        ensures { SplitsAt self.now from to offset result }
    {
        let mut near = self.narrowed(
            Stretch {
                low: from,
                high: to,
            },
            offset,
        );
        while near.low < near.high {
            near = self.halved(near, offset);
        }
        near.low
    }

    /// The non-empty tokens in the subtree at row `n` that touch the offset: one that starts before
    /// it, and one that starts at it.
    pub fn tokens_at(&self, n: usize, offset: usize) -> (Option<usize>, Option<usize>)
        requires is_row { n < size self.now }
        requires fits { offset < 2 ^ 32 }
        ensures tokens { map (cursor_at self.now)
            (option_to_list result.0 ++ option_to_list result.1)
            ≡ tokens_at (cursor_at self.now n) offset }
        ensures left { IfSome result.0 (IsTokenRow self.now) }
        ensures right { IfSome result.1 (IsTokenRow self.now) }
    {
        let end = self.row(n).end;
        let at = self.first_row_from(n, end, offset);
        let past = self.first_row_from(at, end, offset + 1);
        (
            self.last_reaching(n, at, offset),
            self.last_reaching(at, past, offset + 1),
        )
    }

    // The last of the rows `from..to`, if there is one and its text ends at `offset` or after it.
    fn last_reaching(&self, from: usize, to: usize, offset: usize) -> Option<usize>
        requires { to ≤ size self.now }
        ensures { Reaching self.now from to offset result }
    {
        if from < to && offset <= self.end_at(to - 1) {
            Some(to - 1)
        } else {
            None
        }
    }

    /// The first node in preorder with this kind and range.
    pub fn first_node(&self, kind: SyntaxKind, range: TextRange) -> Option<usize>
        ensures first { IsFirst (PointsTo (record { kind = kind; range = range }))
            (descendants_of (cursor_at self.now 0)) (option_map (cursor_at self.now) result) }
        ensures node { IfSome result (IsNodeRow self.now) }
    {
        let start = range.start().raw() as usize;
        let end = range.end().raw() as usize;
        let count = self.len();
        let from = self.first_row_from(0, count, start);
        let past = self.first_row_from(from, count, start + 1);
        for n in from..past {
            let row = self.row(n);
            if !row.is_token && same_kind(row.kind, kind) && self.end_at(n) == end {
                return Some(n);
            }
        }
        None
    }

    /// The row that covers a range in the subtree at row `n`.
    pub fn covering_row(&self, n: usize, range: TextRange) -> usize
        requires { n < size self.now }
        ensures in_range { result < size self.now }
        ensures covers { cursor_at self.now result ≡ covering_of (cursor_at self.now n) range }
    {
        let row = self.holding_row(n, range);
        if range.is_empty() {
            self.row_by_empty_range(row, range)
        } else {
            row
        }
    }

    // The lowest row in the subtree at row `n` whose range contains a range; row `n` itself if none
    // of its children does.
    fn holding_row(&self, n: usize, range: TextRange) -> usize
        requires { n < size self.now }
        ensures holding { IsHolding self.now n range result }
        ensures ordered { range.start ≤ range.end }
    {
        let end = self.row(n).end;
        let start = range.start().raw() as usize;
        let bound = if range.is_empty() { start } else { start + 1 };
        let mut row = self.first_row_from(n + 1, end, bound) - 1;
        while row > n && !holds(range, self.range_at(row)) {
            row = self.parent(row);
        }
        row
    }

    // The row that covers an empty range in the subtree at row `n`, if the range is strictly inside
    // no child.
    fn row_by_empty_range(&self, n: usize, range: TextRange) -> usize
        requires is_row { n < size self.now }
        requires empty { range.start ≡ range.end }
        requires none { NoneHolds self.now n range }
        ensures in_range { result < size self.now }
        ensures covers { cursor_at self.now result ≡ covering_of (cursor_at self.now n) range }
    {
        let row = self.down_first_children(n, range);
        let end = self.row(row).end;
        let offset = range.start().raw() as usize;
        if end == row + 1 || self.end_at(row) <= offset {
            return end - 1;
        }
        let last = self.first_row_from(row + 1, end, offset + 1) - 1;
        self.child_over(row, last) - 1
    }

    // From row `n` down to first children while these end after an empty range.
    fn down_first_children(&self, n: usize, range: TextRange) -> usize
        requires is_row { n < size self.now }
        requires empty { range.start ≡ range.end }
        requires none { NoneHolds self.now n range }
        ensures holding { IsHolding self.now n range result }
        ensures first_ends { result + 1 < (row_at self.now result).end
            → end_at self.now (result + 1) ≤ range.start }
    {
        let offset = range.start().raw() as usize;
        let mut row = n;
        while self.row(row).end > row + 1 && self.end_at(row + 1) > offset {
            row += 1;
        }
        row
    }
}

// Kinds are the same where their numbers are.
pub(super) fn same_kind(kind: SyntaxKind, other: SyntaxKind) -> bool
    ensures { IsTrue result ↔ (kind ≡ other) }
{
    kind.to_raw() == other.to_raw()
}

// Whether a range that is not empty is within another, or an empty one is strictly inside it.
fn holds(asked: TextRange, range: TextRange) -> bool
    ensures { result ≡ holds asked range }
{
    if asked.is_empty() {
        range.start() < asked.start() && asked.start() < range.end()
    } else {
        range.contains_range(asked)
    }
}
