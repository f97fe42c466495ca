//! Rows without changes between others.
ghost use Rattle.std.specs.Prelude.{◌≡◌, ◌++◌, ◌<◌, ◌≤◌, ◌∷◌, [], take, length, IfOk, OnOk, OnErr, Some};
ghost use Rattle.tree_model.specs.Tree.{size, Place, IsNode, cons, nil};
ghost use Rattle.tree_model.specs.Rows.{tree_at, TextsAreUtf8};
ghost use Rattle.tree_rows.specs.Walks.{IsWalk};
ghost use Rattle.tree_edit_model.specs.Changes.{Change};
ghost use Rattle.tree_edits.specs.Walked.{AreChangesOf};
ghost use Rattle.tree_edits.specs.Unchanged.{offset_of, token_end, entering, AreUnchanged};

use crate::change::RowChanges;
use std::alloc::AllocError;
use tree_rows::{BuilderEvent, Table};

/// Where a walk has come to: the first row that is not entered yet, the innermost one that is not
/// left, and the byte where the text of the tokens that were entered ends.
#[derive(Clone, Copy, Drop)]
pub(crate) struct Reached {
    pub next: usize,
    pub innermost: usize,
    pub end: usize,
}

/// Where a row starts; behind the last row, where the text ends.
pub(crate) fn offset_of(table: &Table, row: usize) -> usize
    ensures { result ≡ offset_of table.now row }
{
    if row < table.len() {
        table.start_at(row) as usize
    } else {
        table.end_at(0)
    }
}

// Appends the step of entering a row, but not its text. Returns where the token's text ends; `None`
// for a node.
#[inline(always)]
fn push_row(
    steps: &mut Vec<BuilderEvent>,
    table: &Table,
    row: usize,
) -> Result<Option<usize>, AllocError>
    requires { row < size table.now }
    ensures ok { OnOk result (steps.new.items ≡ steps.old.items ++ entering table.now row) }
    ensures err { OnErr result (steps.new.items ≡ steps.old.items) }
    ensures end { IfOk result (λ end. end ≡ token_end table.now row) }
{
    steps.reserve(1)?;
    let kind = table.kind_at(row);
    if table.is_token_at(row) {
        let start = table.start_at(row) as usize;
        let end = table.end_at(row);
        steps.push_reserved(BuilderEvent::Token(kind, end - start));
        Ok(Some(end))
    } else {
        steps.push_reserved(BuilderEvent::Enter(kind));
        Ok(None)
    }
}

/// Appends the steps of a walk up to the next row with a change, but not the texts of its tokens:
/// these are one part of the text of the table, from where the first row starts to where the walk
/// has come to.
// In a caller that is long, its variables would not stay in registers.
#[inline(never)]
pub(crate) fn push_rows(
    steps: &mut Vec<BuilderEvent>,
    table: &Table,
    changes: &RowChanges,
    next: usize,
    innermost: usize,
) -> Result<Reached, AllocError>
    ghost at: { Place → Change }
    requires are_changes { AreChangesOf at table.now changes.now.marks.items
        changes.now.changes.items }
    requires walks { IsWalk table.now 0 next (Some innermost) }
    requires is_node { IsNode (tree_at table.now innermost) }
    requires utf8 { TextsAreUtf8 (cons table.now nil) }
    ensures ok { IfOk result
        (AreUnchanged at table.now steps.old.items steps.new.items next innermost) }
    ensures kept { take (length steps.old.items) steps.new.items ≡ steps.old.items }
{
    let mut row = next;
    let mut inner = innermost;
    let mut behind = table.row_behind(inner);
    let mut end = offset_of(table, next);
    loop {
        if row < behind {
            if changes.is_changed(row) {
                break;
            }
            if let Some(token_end) = push_row(steps, table, row)? {
                // It is left at once.
                end = token_end;
                row += 1;
                continue;
            }
            inner = row;
            behind = table.row_behind(row);
            row += 1;
        } else {
            if changes.is_changed(inner) {
                break;
            }
            let Some(parent) = table.parent_row(inner) else {
                break;
            };
            steps.reserve(1)?;
            steps.push_reserved(BuilderEvent::Exit);
            inner = parent;
            behind = table.row_behind(parent);
        }
    }
    Ok(Reached {
        next: row,
        innermost: inner,
        end,
    })
}
