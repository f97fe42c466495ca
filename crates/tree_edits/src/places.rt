//! Where what is kept is in the new tree.
ghost use Rattle.std.specs.Prelude.{length, ◌≡◌, ◌≤◌, ◌^◌, ◌<◌, ◌+◌, ◌-◌, if◌then◌else◌, true, false, IfOk, ◌++◌, ◌∷◌, [], OnOk};
ghost use Rattle.tree_model.specs.Tree.{Place, size, IsNode};
ghost use Rattle.tree_model.specs.Cursor.{cursor_at};
ghost use Rattle.tree_model.specs.Rows.{tree_at};
ghost use Rattle.tree_edit_model.specs.Changes.{Change, change_at};
ghost use Rattle.tree_edits.specs.Walked.{AreChangesOf, skip_after};
ghost use Rattle.tree_edits.specs.Kept.{rows_in, rows_within, rows_entered, rows_left, row_entered, new_row, new_rows_of, IsCountedStep};

use crate::change::{RowChange, RowChanges};
use crate::element::Element;
use std::alloc::{AllocError, Global};
use tree_rows::{Table, WalkStep};

// How many rows are made, and how many levels are open in a place that is replaced.
#[derive(Clone, Copy)]
struct Count {
    rows: usize,
    skip: usize,
}

// A number of rows with those of elements. More than fit in 64 bits do not fit in memory.
fn with_rows(rows: usize, elements: &[Element]) -> Result<usize, AllocError>
    ensures { IfOk result (λ n. n ≡ rows + rows_in elements.now) }
{
    let mut sum = rows;
    for element in elements {
        sum = sum.checked_add(element.len()).ok_or(AllocError)?;
    }
    Ok(sum)
}

// The same for elements that are put into a node; into a token nothing is put.
fn with_rows_within(
    rows: usize,
    table: &Table,
    row: usize,
    elements: &[Element],
) -> Result<usize, AllocError>
    requires { row < size table.now }
    ensures { IfOk result (λ n. n ≡ rows + rows_within (tree_at table.now row) elements.now) }
{
    if table.is_token_at(row) {
        Ok(rows)
    } else {
        with_rows(rows, elements)
    }
}

// One more row.
fn with_one(rows: usize) -> Result<usize, AllocError>
    ensures { IfOk result (λ n. n ≡ rows + 1) }
{
    rows.checked_add(1).ok_or(AllocError)
}

impl RowChange {
    // How many rows are made once the row is entered, if it is replaced.
    fn count_instead(&self, rows: usize) -> Result<usize, AllocError>
        ensures { IfOk result
            (λ n. n ≡ rows + (rows_in self.now.before + rows_in self.now.instead)) }
    {
        let rows = with_rows(rows, self.before.as_slice())?;
        with_rows(rows, self.instead.as_slice())
    }

    // The number of the row in the new tree, from 1.
    fn count_before(&self, rows: usize) -> Result<usize, AllocError>
        ensures { IfOk result (λ n. n ≡ rows + rows_in self.now.before + 1) }
    {
        let rows = with_rows(rows, self.before.as_slice())?;
        with_one(rows)
    }

    // How many rows are made once the row is left, if it is not replaced.
    fn count_left(&self, rows: usize, table: &Table, row: usize) -> Result<usize, AllocError>
        requires { row < size table.now }
        ensures { IfOk result (λ n. n ≡ rows + rows_left self.now (tree_at table.now row)) }
    {
        let rows = with_rows_within(rows, table, row, self.last.as_slice())?;
        with_rows(rows, self.after.as_slice())
    }
}

impl RowChange {
    // Appends the row's number in the new tree, from 1, or 0 if it is replaced, and counts what
    // entering it makes.
    fn push_row(
        &self,
        out: &mut Vec<usize>,
        rows: usize,
        table: &Table,
        row: usize,
    ) -> Result<Count, AllocError>
        requires { row < size table.now }
        ensures number { OnOk result
            (out.new.items ≡ out.old.items ++ row_entered self.now rows ∷ []) }
        ensures rows { IfOk result
            (λ after. after.rows ≡ rows + rows_entered self.now (tree_at table.now row)) }
        ensures skip { IfOk result (λ after. after.skip ≡ skip_after self.now) }
    {
        if self.replaced {
            out.push(0)?;
            let rows = self.count_instead(rows)?;
            return Ok(Count { rows, skip: 1 });
        }
        let number = self.count_before(rows)?;
        out.push(number)?;
        let rows = with_rows_within(number, table, row, self.first.as_slice())?;
        Ok(Count { rows, skip: 0 })
    }
}

impl RowChanges {
    // The same for the change of a row, if it has one.
    fn push_row(
        &self,
        out: &mut Vec<usize>,
        rows: usize,
        table: &Table,
        row: usize,
    ) -> Result<Count, AllocError>
        requires is_row { row < size table.now }
        requires has_row { row < length self.now.marks.items }
        ensures number { OnOk result (out.new.items
            ≡ out.old.items
            ++ row_entered (change_at self.now.marks.items self.now.changes.items row) rows
            ∷ []) }
        ensures rows { IfOk result (λ after. after.rows
            ≡ rows
            + rows_entered (change_at self.now.marks.items self.now.changes.items row)
            (tree_at table.now row)) }
        ensures skip { IfOk result (λ after. after.skip
            ≡ skip_after (change_at self.now.marks.items self.now.changes.items row)) }
    {
        match self.at(row) {
            Some(change) => change.push_row(out, rows, table, row),
            None => {
                let number = with_one(rows)?;
                out.push(number)?;
                Ok(Count {
                    rows: number,
                    skip: 0,
                })
            }
        }
    }

    // How many rows are made once a row is left, if it is not replaced.
    fn count_left(&self, rows: usize, table: &Table, row: usize) -> Result<usize, AllocError>
        requires is_row { row < size table.now }
        requires has_row { row < length self.now.marks.items }
        ensures { IfOk result (λ n. n
            ≡ rows
            + rows_left (change_at self.now.marks.items self.now.changes.items row)
            (tree_at table.now row)) }
    {
        match self.at(row) {
            Some(change) => change.count_left(rows, table, row),
            None => Ok(rows),
        }
    }

    // The same, if it is replaced.
    fn count_after(&self, rows: usize, row: usize) -> Result<usize, AllocError>
        requires { row < length self.now.marks.items }
        ensures { IfOk result (λ n. n
            ≡ rows
            + rows_in (change_at self.now.marks.items self.now.changes.items row).after) }
    {
        match self.at(row) {
            Some(change) => with_rows(rows, change.after.as_slice()),
            None => Ok(rows),
        }
    }
}

// Appends the number that one step of a walk gives, and counts the rows that it makes.
fn push_counted(
    out: &mut Vec<usize>,
    table: &Table,
    changes: &RowChanges,
    step: WalkStep,
    count: Count,
) -> Result<Count, AllocError>
    ghost at: { Place → Change }
    requires are_changes { AreChangesOf at table.now changes.now.marks.items
        changes.now.changes.items }
    requires is_row { step.row < size table.now }
    requires fits { step.enters ≡ true → count.skip + 1 < 2 ^ 64 }
    ensures made { IfOk result (λ after.
        IsCountedStep at (new_row at table.now) out.old.items out.new.items step.enters
        (cursor_at table.now step.row) count.skip count.rows after.skip after.rows) }
    ensures level { IfOk result
        (λ after. after.skip ≤ (if step.enters then count.skip + 1 else (count.skip - 1))) }
{
    if step.enters {
        if count.skip > 0 {
            out.push(0)?;
            return Ok(Count {
                rows: count.rows,
                skip: count.skip + 1,
            });
        }
        return changes.push_row(out, count.rows, table, step.row);
    }
    if count.skip == 0 {
        let rows = changes.count_left(count.rows, table, step.row)?;
        return Ok(Count { rows, skip: 0 });
    }
    if count.skip > 1 {
        return Ok(Count {
            rows: count.rows,
            skip: count.skip - 1,
        });
    }
    let rows = changes.count_after(count.rows, step.row)?;
    Ok(Count { rows, skip: 0 })
}

// The number of each row in the new tree, from 1, or 0 where it is not kept.
pub(crate) fn new_rows(
    alloc: Global,
    table: &Table,
    changes: &RowChanges,
) -> Result<Vec<usize>, AllocError>
    ghost at: { Place → Change }
    requires are_changes { AreChangesOf at table.now changes.now.marks.items
        changes.now.changes.items }
    requires is_node { IsNode table.now }
    ensures { IfOk result (λ rows. rows.items ≡ new_rows_of at table.now) }
{
    let mut out = Vec::with_capacity(alloc, table.len())?;
    let mut next: usize = 0;
    let mut innermost = None;
    let mut count = Count { rows: 0, skip: 0 };
    while let Some(step) = table.walk_step(0, next, innermost) {
        next = step.next;
        innermost = step.innermost;
        count = push_counted(&mut out, table, changes, step, count)?;
    }
    Ok(out)
}
