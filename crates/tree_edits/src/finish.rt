//! The new tree.
ghost use Rattle.std.specs.Prelude.{◌≡◌, ◌≤◌, ◌^◌, length, IfOk, IfErr, OnOk, IsErrOf, ◌++◌, ◌<◌, ◌+◌, ◌-◌, if◌then◌else◌, true};
ghost use Rattle.tree_model.specs.Tree.{Place, text, size, IsNode, cons, nil};
ghost use Rattle.tree_model.specs.Rows.{TextsAreUtf8};
ghost use Rattle.tree_model.specs.Cursor.{cursor_at};
ghost use Rattle.tree_model.specs.Events.{events_of};
ghost use Rattle.tree_edit_model.specs.Changes.{Change, changed, changed_whole};
ghost use Rattle.tree_rows.specs.Walks.{IsWalk};
ghost use Rattle.tree_edits.specs.Walked.{AreChangesOf, Stepped, IsWalkedOn};
ghost use Rattle.tree_edits.specs.declared.error.ChangeError.TheVariants.{TooLong, Memory};

use crate::change::RowChanges;
use crate::error::ChangeError;
use crate::steps::Steps;
use std::alloc::{AllocError, Global};
use tree_rows::Table;

// Appends what one step of a walk adds, where `skip` levels are open in a place that is replaced.
// Returns how many are open after.
fn push_walked(
    out: &mut Steps,
    table: &Table,
    changes: &RowChanges,
    row: usize,
    enters: bool,
    skip: usize,
) -> Result<usize, AllocError>
    ghost at: { Place → Change }
    requires are_changes { AreChangesOf at table.now changes.now.marks.items
        changes.now.changes.items }
    requires is_row { row < size table.now }
    requires fits { enters ≡ true → skip + 1 < 2 ^ 64 }
    ensures made { IfOk result (Stepped at out.old out.new enters (cursor_at table.now row) skip) }
    ensures level { IfOk result (λ after. after ≤ (if enters then skip + 1 else (skip - 1))) }
{
    if enters {
        if skip > 0 {
            return Ok(skip + 1);
        }
        let replaced = changes.push_entered(out, table, row)?;
        return Ok(usize::from(replaced));
    }
    if skip == 0 {
        changes.push_left(out, table, row)?;
        return Ok(0);
    }
    if skip > 1 {
        return Ok(skip - 1);
    }
    changes.push_after(out, row)?;
    Ok(0)
}

// Appends the steps of a walk up to the next row with a change, unless `skip` levels are open in
// a place that is replaced. Returns the first row that is not entered yet then, and the innermost
// one that is not left.
fn push_unchanged(
    out: &mut Steps,
    table: &Table,
    changes: &RowChanges,
    next: usize,
    innermost: Option<usize>,
    skip: usize,
) -> Result<(usize, Option<usize>), AllocError>
    ghost at: { Place → Change }
    requires are_changes { AreChangesOf at table.now changes.now.marks.items
        changes.now.changes.items }
    requires walks { IsWalk table.now 0 next innermost }
    requires utf8 { TextsAreUtf8 (cons table.now nil) }
    ensures { IfOk result (λ after.
        IsWalkedOn at table.now out.old out.new skip next innermost after.0 after.1) }
{
    let Some(first) = innermost else {
        return Ok((next, innermost));
    };
    if skip > 0 || table.is_token_at(first) {
        return Ok((next, innermost));
    }
    let reached = out.push_unchanged(table, changes, next, first)?;
    Ok((reached.next, Some(reached.innermost)))
}

// Appends the steps of the tree with its changes made.
fn push_changed(out: &mut Steps, table: &Table, changes: &RowChanges) -> Result<(), AllocError>
    ghost at: { Place → Change }
    requires are_changes { AreChangesOf at table.now changes.now.marks.items
        changes.now.changes.items }
    requires is_node { IsNode table.now }
    requires utf8 { TextsAreUtf8 (cons table.now nil) }
    ensures { OnOk result (out.new ≡ out.old ++ events_of (changed_whole at table.now)) }
{
    let count = table.len();
    out.reserve(count, table.end_at(0))?;
    let mut next: usize = 0;
    let mut innermost = None;
    let mut skip: usize = 0;
    while let Some(step) = table.walk_step(0, next, innermost) {
        skip = push_walked(out, table, changes, step.row, step.enters, skip)?;
        let after = push_unchanged(out, table, changes, step.next, step.innermost, skip)?;
        next = after.0;
        innermost = after.1;
    }
    Ok(())
}

// The table of the tree with its changes made, in time linear in the old tree and the elements.
pub(crate) fn changed_table(
    alloc: Global,
    table: &Table,
    changes: &RowChanges,
) -> Result<Table, ChangeError>
    ghost at: { Place → Change }
    requires are_changes { AreChangesOf at table.now changes.now.marks.items
        changes.now.changes.items }
    requires is_node { IsNode table.now }
    ensures ok { IfOk result (λ t. t ≡ changed at table.now) }
    ensures too_long { IsErrOf result TooLong → 2 ^ 32 ≤ length (text (changed at table.now)) }
    ensures short { OnOk result (length (text (changed at table.now)) < 2 ^ 32) }
    ensures only { IfErr result (λ e. (e ≡ TooLong → ⊥) → e ≡ Memory) }
{
    // For the proof.
    table.texts_are_utf8();
    let mut out = Steps::new(alloc);
    match push_changed(&mut out, table, changes) {
        Ok(()) => out.finish(alloc),
        Err(_) => Err(ChangeError::Memory),
    }
}
