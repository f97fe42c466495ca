//! The edit of the text that the changes are.
ghost use Rattle.std.specs.Prelude.{length, ◌≡◌, ◌≤◌, ◌^◌, ◌++◌, ◌∷◌, [], ◌<◌, ◌+◌, ◌-◌, if◌then◌else◌, true, IfOk, OnOk, string_bytes};
ghost use Rattle.tree_model.specs.Tree.{Place, forest_text, size, IsNode};
ghost use Rattle.tree_model.specs.Cursor.{cursor_at};
ghost use Rattle.tree_model.specs.Rows.{tree_at, start_at};
ghost use Rattle.text_edit.specs.Replacements.{nonempty};
ghost use Rattle.tree_edit_model.specs.Changes.{Change, forest_from, change_at};
ghost use Rattle.tree_edit_model.specs.Texts.{put, text_edit_of};
ghost use Rattle.tree_edits.specs.Walked.{AreChangesOf};
ghost use Rattle.tree_edits.specs.Edited.{edits_within, edits_entered, edits_left, edits_after, IsEditedStep};

use crate::change::{RowChange, RowChanges};
use crate::element::Element;
use std::alloc::{AllocError, Global};
use text_edit::{Indel, TextRange, TextSize};
use tree_rows::{Table, WalkStep};

// The texts of elements, joined.
fn text_of(alloc: Global, elements: &[Element]) -> Result<String, AllocError>
    ensures { IfOk result (λ s. string_bytes s ≡ forest_text (forest_from elements.now)) }
{
    let mut text = String::new(alloc);
    for element in elements {
        text.push_str(element.text())?;
    }
    Ok(text)
}

// Appends the replacement of a range by elements, if it changes the text.
fn push_edit(
    alloc: Global,
    out: &mut Vec<Indel>,
    range: TextRange,
    elements: &[Element],
) -> Result<(), AllocError>
    ensures { OnOk result
        (out.new.items ≡ out.old.items ++ nonempty (put range.start range.end elements.now ∷ [])) }
{
    let indel = Indel::replace(range, text_of(alloc, elements)?);
    if indel.is_empty() {
        return Ok(());
    }
    out.push(indel)?;
    Ok(())
}

// Appends what is put into a node at an offset; into a token nothing is put.
fn push_within(
    alloc: Global,
    out: &mut Vec<Indel>,
    table: &Table,
    row: usize,
    offset: TextSize,
    elements: &[Element],
) -> Result<(), AllocError>
    requires { row < size table.now }
    ensures { OnOk result (out.new.items
        ≡ out.old.items
        ++ nonempty (edits_within (tree_at table.now row) offset elements.now)) }
{
    if table.is_token_at(row) {
        Ok(())
    } else {
        push_edit(alloc, out, TextRange::empty(offset), elements)
    }
}

impl RowChange {
    // Appends what entering the row adds.
    fn push_edits_entered(
        &self,
        alloc: Global,
        out: &mut Vec<Indel>,
        table: &Table,
        row: usize,
    ) -> Result<(), AllocError>
        requires { row < size table.now }
        ensures { OnOk result (out.new.items
            ≡ out.old.items
            ++ nonempty
            (edits_entered self.now (tree_at table.now row) (start_at table.now row))) }
    {
        let range = table.range_at(row);
        let start = range.start();
        push_edit(alloc, out, TextRange::empty(start), self.before.as_slice())?;
        if self.replaced {
            return push_edit(alloc, out, range, self.instead.as_slice());
        }
        push_within(alloc, out, table, row, start, self.first.as_slice())
    }

    // Appends what leaving the row adds, where it is not replaced.
    fn push_edits_left(
        &self,
        alloc: Global,
        out: &mut Vec<Indel>,
        table: &Table,
        row: usize,
    ) -> Result<(), AllocError>
        requires { row < size table.now }
        ensures { OnOk result (out.new.items
            ≡ out.old.items
            ++ nonempty
            (edits_left self.now (tree_at table.now row) (start_at table.now row))) }
    {
        let end = table.range_at(row).end();
        push_within(alloc, out, table, row, end, self.last.as_slice())?;
        push_edit(alloc, out, TextRange::empty(end), self.after.as_slice())
    }

    // Appends what stands after the row, where it is replaced.
    fn push_edits_after(
        &self,
        alloc: Global,
        out: &mut Vec<Indel>,
        table: &Table,
        row: usize,
    ) -> Result<(), AllocError>
        requires { row < size table.now }
        ensures { OnOk result (out.new.items
            ≡ out.old.items
            ++ nonempty
            (edits_after self.now (tree_at table.now row) (start_at table.now row))) }
    {
        let end = TextRange::empty(table.range_at(row).end());
        push_edit(alloc, out, end, self.after.as_slice())
    }
}

impl RowChanges {
    // Appends what entering a row adds, and returns whether the row is replaced.
    fn push_edits_entered(
        &self,
        alloc: Global,
        out: &mut Vec<Indel>,
        table: &Table,
        row: usize,
    ) -> Result<bool, AllocError>
        requires is_row { row < size table.now }
        requires has_row { row < length self.now.marks.items }
        ensures edits { OnOk result (out.new.items
            ≡ out.old.items
            ++ nonempty (edits_entered
            (change_at self.now.marks.items self.now.changes.items row)
            (tree_at table.now row) (start_at table.now row))) }
        ensures replaced { IfOk result
            (λ yes. yes ≡ (change_at self.now.marks.items self.now.changes.items row).replaced) }
    {
        match self.at(row) {
            Some(change) => {
                change.push_edits_entered(alloc, out, table, row)?;
                Ok(change.replaced)
            }
            None => Ok(false),
        }
    }

    // Appends what leaving a row adds, where it is not replaced.
    fn push_edits_left(
        &self,
        alloc: Global,
        out: &mut Vec<Indel>,
        table: &Table,
        row: usize,
    ) -> Result<(), AllocError>
        requires is_row { row < size table.now }
        requires has_row { row < length self.now.marks.items }
        ensures { OnOk result (out.new.items
            ≡ out.old.items
            ++ nonempty (edits_left
            (change_at self.now.marks.items self.now.changes.items row)
            (tree_at table.now row) (start_at table.now row))) }
    {
        match self.at(row) {
            Some(change) => change.push_edits_left(alloc, out, table, row),
            None => Ok(()),
        }
    }

    // Appends what stands after a row that is replaced.
    fn push_edits_after(
        &self,
        alloc: Global,
        out: &mut Vec<Indel>,
        table: &Table,
        row: usize,
    ) -> Result<(), AllocError>
        requires is_row { row < size table.now }
        requires has_row { row < length self.now.marks.items }
        ensures { OnOk result (out.new.items
            ≡ out.old.items
            ++ nonempty (edits_after
            (change_at self.now.marks.items self.now.changes.items row)
            (tree_at table.now row) (start_at table.now row))) }
    {
        match self.at(row) {
            Some(change) => change.push_edits_after(alloc, out, table, row),
            None => Ok(()),
        }
    }
}

// Appends what one step of a walk adds, where `skip` levels are open in a place that is replaced.
// Returns how many are open after.
fn push_walked(
    alloc: Global,
    out: &mut Vec<Indel>,
    table: &Table,
    changes: &RowChanges,
    step: WalkStep,
    skip: usize,
) -> Result<usize, AllocError>
    ghost at: { Place → Change }
    requires are_changes { AreChangesOf at table.now changes.now.marks.items
        changes.now.changes.items }
    requires is_row { step.row < size table.now }
    requires fits { step.enters ≡ true → skip + 1 < 2 ^ 64 }
    ensures made { IfOk result (IsEditedStep at out.old.items out.new.items step.enters
        (cursor_at table.now step.row) skip) }
    ensures level { IfOk result (λ after. after ≤ (if step.enters then skip + 1 else (skip - 1))) }
{
    if step.enters {
        if skip > 0 {
            return Ok(skip + 1);
        }
        let replaced = changes.push_edits_entered(alloc, out, table, step.row)?;
        return Ok(usize::from(replaced));
    }
    if skip == 0 {
        changes.push_edits_left(alloc, out, table, step.row)?;
        return Ok(0);
    }
    if skip > 1 {
        return Ok(skip - 1);
    }
    changes.push_edits_after(alloc, out, table, step.row)?;
    Ok(0)
}

// The replacements that the changes are, in the order of the text.
pub(crate) fn edits(
    alloc: Global,
    table: &Table,
    changes: &RowChanges,
) -> Result<Vec<Indel>, AllocError>
    ghost at: { Place → Change }
    requires are_changes { AreChangesOf at table.now changes.now.marks.items
        changes.now.changes.items }
    requires is_node { IsNode table.now }
    ensures { IfOk result (λ indels. indels.items ≡ text_edit_of at table.now) }
{
    // For the proof: the number of rows fits.
    let _count = table.len();
    let mut out = Vec::new(alloc);
    let mut next: usize = 0;
    let mut innermost = None;
    let mut skip: usize = 0;
    while let Some(step) = table.walk_step(0, next, innermost) {
        next = step.next;
        innermost = step.innermost;
        skip = push_walked(alloc, &mut out, table, changes, step, skip)?;
    }
    Ok(out)
}
