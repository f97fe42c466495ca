//! Nodes and tokens of other trees that are put into a tree.
ghost use Rattle.std.specs.Prelude.{◌≡◌, ◌++◌, ◌<◌, OnOk, IfOk, true};
ghost use Rattle.tree_model.specs.Tree.{size, text, is_token, cons, nil};
ghost use Rattle.tree_model.specs.Rows.{tree_at};
ghost use Rattle.tree_model.specs.Events.{events_of};
ghost use Rattle.tree_edit_model.specs.Changes.{forest_from};
ghost use Rattle.tree_edits.specs.Walked.{step_events, events_inside};

use crate::steps::Steps;
use shared_pointer::Shared;
use std::alloc::AllocError;
use std::marker::Model;
use tree_rows::Table;

/// A node or token of a tree. A clause sees the subtree.
#[derive(Drop)]
pub struct Element {
    table: Shared<Table>,
    row: usize,
}

impl Model for Element {
    ghost use Rattle.tree_model.specs.Tree.{Tree};
    ghost use Rattle.tree_model.specs.TreeCode.{tree_code};
    ghost use Rattle.tree_model.specs.Rows.{tree_at, IsRow};

    ghost Value = { Tree };

    ghost coded = { tree_code };

    ghost view = { λ p. tree_at p.table.value p.row };

    ghost invariant = { λ p. IsRow p.table.value p.row };
}

impl Element {
    /// The node or token at a row.
    pub fn new(table: &Shared<Table>, row: usize) -> Element
        requires { row < size table.now.value }
        ensures { result ≡ tree_at table.now.value row }
    {
        Element {
            table: table.share(),
            row,
        }
    }

    /// Its text.
    pub(crate) fn text(&self) -> &str
        ensures { result.now ≡ text self.now }
    {
        self.table.text_at(self.row)
    }

    /// How many nodes and tokens it has, itself counted.
    pub(crate) fn len(&self) -> usize
        ensures { result ≡ size self.now }
    {
        self.table.size_at(self.row)
    }

    /// Appends its steps.
    pub(crate) fn push_to(&self, out: &mut Steps) -> Result<(), AllocError>
        ensures { OnOk result (out.new ≡ out.old ++ events_of (cons self.now nil)) }
    {
        push_rows(out, self.table.as_ref(), self.row)
    }
}

// Appends the steps of the subtree at a row.
fn push_rows(out: &mut Steps, table: &Table, row: usize) -> Result<(), AllocError>
    requires { row < size table.now }
    ensures { OnOk result (out.new ≡ out.old ++ events_of (cons (tree_at table.now row) nil)) }
{
    let mut next = row;
    let mut innermost = None;
    while let Some(step) = table.walk_step(row, next, innermost) {
        next = step.next;
        innermost = step.innermost;
        push_step(out, table, step.row, step.enters)?;
    }
    Ok(())
}

// Appends what entering a row adds. Returns whether it is a token's.
#[inline(always)]
fn push_row(out: &mut Steps, table: &Table, row: usize) -> Result<bool, AllocError>
    requires { row < size table.now }
    ensures events { OnOk result (out.new ≡ out.old ++ step_events (tree_at table.now row) true) }
    ensures token { IfOk result (λ token. token ≡ is_token (tree_at table.now row)) }
{
    let kind = table.kind_at(row);
    if table.is_token_at(row) {
        out.token(kind, table.text_at(row))?;
        Ok(true)
    } else {
        out.enter(kind)?;
        Ok(false)
    }
}

// Appends what one step of a walk adds.
pub(crate) fn push_step(
    out: &mut Steps,
    table: &Table,
    row: usize,
    enters: bool,
) -> Result<(), AllocError>
    requires { row < size table.now }
    ensures { OnOk result (out.new ≡ out.old ++ step_events (tree_at table.now row) enters) }
{
    if enters {
        push_row(out, table, row)?;
        return Ok(());
    }
    if table.is_token_at(row) {
        Ok(())
    } else {
        out.exit()
    }
}

// Appends the steps of elements.
pub(crate) fn push_all(out: &mut Steps, elements: &[Element]) -> Result<(), AllocError>
    ensures { OnOk result (out.new ≡ out.old ++ events_of (forest_from elements.now)) }
{
    for element in elements {
        element.push_to(out)?;
    }
    Ok(())
}

// Appends the steps of elements that are put into a node; into a token nothing is put.
pub(crate) fn push_inside(
    out: &mut Steps,
    table: &Table,
    row: usize,
    elements: &[Element],
) -> Result<(), AllocError>
    requires { row < size table.now }
    ensures { OnOk result
        (out.new ≡ out.old ++ events_inside (tree_at table.now row) elements.now) }
{
    if table.is_token_at(row) {
        Ok(())
    } else {
        push_all(out, elements)
    }
}
