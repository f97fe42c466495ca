//! What is done at each row of a tree.
ghost use Rattle.std.specs.Prelude.{◌≡◌, ◌++◌, ◌<◌, ◌^◌, [], IfOk, OnOk, OnErr, length, option_copied, ◌↔◌, IsTrue, IsFalse};
ghost use Rattle.tree_model.specs.Tree.{size, Tree};
ghost use Rattle.tree_model.specs.Rows.{tree_at};
ghost use Rattle.tree_edit_model.specs.Changes.{no_change, change_or_none, change_at, MarksFit};
ghost use Rattle.tree_edits.specs.Walked.{entered, left, events_from_all};
ghost use Rattle.tree_edits.specs.Added.{with_elements};
ghost use Rattle.tree_edits.specs.Stored.{MarksDiffer, HasNumber, SameChanges, IsAdded, rows_of, IsMarked, KeepsMarks};
ghost use Rattle.tree_edits.specs.Run.{AreBelow, AreMarked, deleted, run_replaced};
ghost use Rattle.tree_edits.specs.Refused.{HasNoNewChild};
ghost use Rattle.tree_edits.specs.declared.change.Slot.TheVariants.{Instead};

use crate::element::{Element, push_all, push_inside, push_step};
use crate::error::ChangeError;
use crate::steps::Steps;
use std::alloc::{AllocError, Global};
use std::marker::Model;
use tree_rows::Table;

/// What is done at one node or token. A clause sees a `Change`.
#[derive(Drop)]
pub(crate) struct RowChange {
    pub before: Vec<Element>,
    pub replaced: bool,
    pub instead: Vec<Element>,
    pub first: Vec<Element>,
    pub last: Vec<Element>,
    pub after: Vec<Element>,
}

impl Model for RowChange {
    ghost use Rattle.tree_edit_model.specs.Changes.{Change, change_code};

    ghost Value = { Change };

    ghost coded = { change_code };

    ghost view = { λ c.
        record {
          before = c.before.items;
          replaced = c.replaced;
          instead = c.instead.items;
          first = c.first.items;
          last = c.last.items;
          after = c.after.items;
        } };
}

impl RowChange {
    /// No change. It takes no memory.
    pub fn new(alloc: Global) -> RowChange
        ensures { result ≡ no_change }
    {
        RowChange {
            before: Vec::new(alloc),
            replaced: false,
            instead: Vec::new(alloc),
            first: Vec::new(alloc),
            last: Vec::new(alloc),
            after: Vec::new(alloc),
        }
    }

    // Whether nothing is changed.
    fn is_none(&self) -> bool
        ensures { IsTrue result ↔ (self.now ≡ no_change) }
    {
        !self.replaced
            && self.before.is_empty()
            && self.instead.is_empty()
            && self.first.is_empty()
            && self.last.is_empty()
            && self.after.is_empty()
    }

    // Whether no child is put into the element.
    fn has_no_new_child(&self) -> bool
        ensures { IsTrue result ↔ HasNoNewChild self.now }
    {
        self.first.is_empty() && self.last.is_empty()
    }

    // Adds elements; if memory runs out, nothing is changed.
    fn add(&mut self, slot: Slot, mut elements: Vec<Element>) -> Result<(), AllocError>
        ensures ok { OnOk result (self.new ≡ with_elements self.old slot elements.items) }
        ensures err { OnErr result (self.new ≡ self.old) }
    {
        match slot {
            Slot::Before => self.before.append(&mut elements),
            Slot::First => self.first.append(&mut elements),
            Slot::Last => self.last.append(&mut elements),
            Slot::After => self.after.append(&mut elements),
            Slot::Instead => {
                self.instead.append(&mut elements)?;
                self.replaced = true;
                Ok(())
            }
        }
    }

    // Deletes the element; what is put in its place stays.
    fn delete(&mut self)
        ensures { self.new ≡ with_elements self.old Instead [] }
    {
        self.replaced = true;
    }

    /// Appends the steps that stand where `row`, which has this change, is entered: those of the
    /// elements before it, and then of the row itself and of the new first children; or, if the
    /// row is replaced, of the elements in its place. It fails only if memory runs out; `out` may
    /// then have some of the steps.
    pub fn push_entered(&self, out: &mut Steps, table: &Table, row: usize) -> Result<(), AllocError>
        requires { row < size table.now }
        ensures { OnOk result (out.new ≡ out.old ++ entered self.now (tree_at table.now row)) }
    {
        push_all(out, self.before.as_slice())?;
        if self.replaced {
            return push_all(out, self.instead.as_slice());
        }
        push_step(out, table, row, true)?;
        push_inside(out, table, row, self.first.as_slice())
    }

    /// Appends the steps that stand where `row`, which has this change, is left: those of the new
    /// last children, of leaving the row, and of the elements after it. It is not for a row that
    /// is replaced, which is never left. It fails only if memory runs out; `out` may then have
    /// some of the steps.
    pub fn push_left(&self, out: &mut Steps, table: &Table, row: usize) -> Result<(), AllocError>
        requires { row < size table.now }
        ensures { OnOk result (out.new ≡ out.old ++ left self.now (tree_at table.now row)) }
    {
        push_inside(out, table, row, self.last.as_slice())?;
        push_step(out, table, row, false)?;
        push_all(out, self.after.as_slice())
    }
}

/// Where a element goes.
#[derive(Clone, Copy, PartialEq, Eq, Drop)]
pub enum Slot {
    /// Before an element.
    Before,
    /// In the place of an element.
    Instead,
    /// Before the first child of a node.
    First,
    /// After the last child of a node.
    Last,
    /// After an element.
    After,
}

// The changes of rows: each row has the number of its change, from 1, or 0.
#[derive(Drop)]
pub(crate) struct RowChanges {
    marks: Vec<usize>,
    changes: Vec<RowChange>,
    ghost marked: { MarksFit marks.items (length changes.items) },
    ghost differ: { MarksDiffer marks.items },
}

impl RowChanges {
    /// No change at any of `count` rows. It takes memory for one number a row, and fails only if
    /// that runs out.
    pub fn new(alloc: Global, count: usize) -> Result<RowChanges, AllocError>
        ensures { IfOk result
            (λ all. (length all.marks.items ≡ count) × (length all.changes.items ≡ 0)) }
    {
        let mut marks = Vec::with_capacity(alloc, count)?;
        for _row in 0..count {
            marks.push(0)?;
        }
        Ok(RowChanges {
            marks,
            changes: Vec::new(alloc),
        })
    }

    // The change of a row, if it has one.
    pub(crate) fn at(&self, row: usize) -> Option<&RowChange>
        requires { row < length self.now.marks.items }
        ensures { change_or_none (option_copied result)
            ≡ change_at self.now.marks.items self.now.changes.items row }
    {
        let mark = self.marks[row];
        if mark == 0 {
            None
        } else {
            Some(&self.changes[mark - 1])
        }
    }

    /// Whether something is changed at a row. A row to which an empty list of elements was added
    /// is not changed, unless that replaced it.
    pub fn is_changed(&self, row: usize) -> bool
        requires { row < length self.now.marks.items }
        ensures { IsFalse result
            ↔ (change_at self.now.marks.items self.now.changes.items row ≡ no_change) }
    {
        match self.at(row) {
            Some(change) => !change.is_none(),
            None => false,
        }
    }

    /// Whether a child is put into the element at a row, as its first or its last one. Elements
    /// before, after or in the place of the row's children are changes of their rows, and do not
    /// count.
    pub fn has_new_child(&self, row: usize) -> bool
        requires { row < length self.now.marks.items }
        ensures { IsFalse result
            ↔ HasNoNewChild (change_at self.now.marks.items self.now.changes.items row) }
    {
        match self.at(row) {
            Some(change) => !change.has_no_new_child(),
            None => false,
        }
    }

    /// Whether the element at a row is replaced. One that is deleted is replaced by nothing.
    pub fn is_replaced(&self, row: usize) -> bool
        requires { row < length self.now.marks.items }
        ensures { result ≡ (change_at self.now.marks.items self.now.changes.items row).replaced }
    {
        match self.at(row) {
            Some(change) => change.replaced,
            None => false,
        }
    }

    // The number of a row's change, which is made if there is none.
    fn number(&mut self, alloc: Global, row: usize) -> Result<usize, AllocError>
        requires { row < length self.old.marks.items }
        ensures ok { IfOk result (HasNumber self.new.marks.items self.new.changes.items row) }
        ensures same { SameChanges self.old.marks.items self.old.changes.items self.new.marks.items
            self.new.changes.items }
        ensures long { length self.new.marks.items ≡ length self.old.marks.items }
        ensures marked { KeepsMarks self.old.marks.items self.new.marks.items }
    {
        let mark = self.marks[row];
        if mark > 0 {
            return Ok(mark - 1);
        }
        let count = self.changes.len();
        self.changes.push(RowChange::new(alloc))?;
        self.marks[row] = count + 1;
        Ok(count)
    }

    // Adds elements to the change with a row's number; if memory runs out, nothing is changed.
    fn put(
        &mut self,
        row: usize,
        number: usize,
        slot: Slot,
        elements: Vec<Element>,
    ) -> Result<(), AllocError>
        requires { HasNumber self.old.marks.items self.old.changes.items row number }
        ensures ok { OnOk result (IsAdded self.old.marks.items self.old.changes.items row slot
            elements.items self.new.marks.items self.new.changes.items) }
        ensures err { OnErr result (SameChanges self.old.marks.items self.old.changes.items
            self.new.marks.items self.new.changes.items) }
        ensures long { length self.new.marks.items ≡ length self.old.marks.items }
        ensures marked { KeepsMarks self.old.marks.items self.new.marks.items }
    {
        self.changes[number].add(slot, elements)
    }

    // Deletes the element at a row that has a number.
    fn delete(&mut self, row: usize)
        requires is_row { row < length self.old.marks.items }
        requires marked { IsMarked self.old.marks.items row }
        ensures ok { IsAdded self.old.marks.items self.old.changes.items row Instead []
            self.new.marks.items self.new.changes.items }
        ensures long { length self.new.marks.items ≡ length self.old.marks.items }
        ensures marked { KeepsMarks self.old.marks.items self.new.marks.items }
    {
        let mark = self.marks[row];
        self.changes[mark - 1].delete();
    }

    // Gives each of some rows a number; if memory runs out, each row has the change that it had.
    fn number_all(&mut self, alloc: Global, rows: &[usize]) -> Result<(), AllocError>
        requires { AreBelow (length self.old.marks.items) rows.now }
        ensures ok { OnOk result (AreMarked self.new.marks.items rows.now) }
        ensures same { SameChanges self.old.marks.items self.old.changes.items self.new.marks.items
            self.new.changes.items }
        ensures long { length self.new.marks.items ≡ length self.old.marks.items }
    {
        for row in rows {
            self.number(alloc, *row)?;
        }
        Ok(())
    }

    // Deletes the elements at some rows that have numbers.
    fn delete_all(&mut self, rows: &[usize])
        requires are_rows { AreBelow (length self.old.marks.items) rows.now }
        requires marked { AreMarked self.old.marks.items rows.now }
        ensures ok { rows_of self.new.marks.items self.new.changes.items
            ≡ deleted (rows_of self.old.marks.items self.old.changes.items) rows.now }
        ensures long { length self.new.marks.items ≡ length self.old.marks.items }
    {
        for row in rows {
            self.delete(*row);
        }
    }

    /// Puts elements in the place of the element at the row `first`, and deletes those at
    /// `others`. With no elements, `first` is deleted too. An earlier change of these rows is
    /// kept: the elements come behind those that are already in the place of `first`.
    ///
    /// If memory runs out, each row has the change that it had.
    pub fn replace_run(
        &mut self,
        alloc: Global,
        first: usize,
        others: &[usize],
        elements: Vec<Element>,
    ) -> Result<(), AllocError>
        requires is_row { first < length self.old.marks.items }
        requires are_rows { AreBelow (length self.old.marks.items) others.now }
        ensures ok { OnOk result (rows_of self.new.marks.items self.new.changes.items
            ≡ run_replaced (rows_of self.old.marks.items self.old.changes.items) first
            others.now elements.items) }
        ensures err { OnErr result (SameChanges self.old.marks.items self.old.changes.items
            self.new.marks.items self.new.changes.items) }
        ensures long { length self.new.marks.items ≡ length self.old.marks.items }
    {
        self.number_all(alloc, others)?;
        let number = self.number(alloc, first)?;
        self.put(first, number, Slot::Instead, elements)?;
        self.delete_all(others);
        Ok(())
    }

    /// Adds elements at a row, behind those that are already in the same slot. In
    /// [`Slot::Instead`] an empty list deletes the element, and elsewhere it changes nothing.
    ///
    /// If memory runs out, each row has the change that it had.
    pub fn add(
        &mut self,
        alloc: Global,
        row: usize,
        slot: Slot,
        elements: Vec<Element>,
    ) -> Result<(), AllocError>
        requires { row < length self.old.marks.items }
        ensures ok { OnOk result (IsAdded self.old.marks.items self.old.changes.items row slot
            elements.items self.new.marks.items self.new.changes.items) }
        ensures err { OnErr result (SameChanges self.old.marks.items self.old.changes.items
            self.new.marks.items self.new.changes.items) }
        ensures long { length self.new.marks.items ≡ length self.old.marks.items }
    {
        let number = self.number(alloc, row)?;
        self.put(row, number, slot, elements)
    }

    // Appends what entering a row adds, and returns whether the row is replaced.
    pub(crate) fn push_entered(
        &self,
        out: &mut Steps,
        table: &Table,
        row: usize,
    ) -> Result<bool, AllocError>
        requires is_row { row < size table.now }
        requires has_row { row < length self.now.marks.items }
        ensures events { OnOk result (out.new
            ≡ out.old
            ++ entered (change_at self.now.marks.items self.now.changes.items row)
            (tree_at table.now row)) }
        ensures replaced { IfOk result
            (λ yes. yes ≡ (change_at self.now.marks.items self.now.changes.items row).replaced) }
    {
        match self.at(row) {
            Some(change) => {
                change.push_entered(out, table, row)?;
                Ok(change.replaced)
            }
            None => {
                push_step(out, table, row, true)?;
                Ok(false)
            }
        }
    }

    // Appends what leaving a row adds, where it is not replaced.
    pub(crate) fn push_left(
        &self,
        out: &mut Steps,
        table: &Table,
        row: usize,
    ) -> Result<(), AllocError>
        requires is_row { row < size table.now }
        requires has_row { row < length self.now.marks.items }
        ensures { OnOk result (out.new
            ≡ out.old
            ++ left (change_at self.now.marks.items self.now.changes.items row)
            (tree_at table.now row)) }
    {
        match self.at(row) {
            Some(change) => change.push_left(out, table, row),
            None => push_step(out, table, row, false),
        }
    }

    // Appends what stands after a row that is replaced.
    pub(crate) fn push_after(&self, out: &mut Steps, row: usize) -> Result<(), AllocError>
        requires { row < length self.now.marks.items }
        ensures { OnOk result (out.new
            ≡ out.old
            ++ events_from_all
            (change_at self.now.marks.items self.now.changes.items row).after) }
    {
        match self.at(row) {
            Some(change) => push_all(out, change.after.as_slice()),
            None => Ok(()),
        }
    }
}
