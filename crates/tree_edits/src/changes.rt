//! The changes of a tree.
ghost use Rattle.std.specs.Prelude.{◌≡◌, ◌↔◌, ◌<◌, ◌++◌, ◌∷◌, [], All, IfOk, IfErr, OnOk, OnErr, IsTrue};
ghost use Rattle.tree_model.specs.Tree.{size, text, IsNode};
ghost use Rattle.text_edit.specs.Replacements.{IsRangeOf};
ghost use Rattle.tree_edit_model.specs.Texts.{text_edit_of};
ghost use Rattle.tree_edits.specs.Session.{IsNew, with_elements_at, result_of, at_of};
ghost use Rattle.tree_edits.specs.Kept.{new_rows_of};
ghost use Rattle.tree_edits.specs.Refused.{IsBesideRoot, IsInner, IsIntoToken, IsAtReplaced, IsInReplaced, HasChangeInside, IsOverChange, IsTaken, IsRefused, IsShort, IsNotMade};
ghost use Rattle.tree_edits.specs.Run.{IsRun, IsNoRun, IsRunReplaced, IsRunRefused, IsFirstRefused, AreTaken, AreBelow, with_run};
ghost use Rattle.tree_edits.specs.declared.error.ChangeError.TheVariants.{Memory};

use crate::change::{RowChanges, Slot};
use crate::edits::edits;
use crate::element::Element;
use crate::error::ChangeError;
use crate::finish::changed_table;
use crate::places::new_rows;
use shared_pointer::Shared;
use std::alloc::{AllocError, Global};
use std::marker::Model;
use text_edit::TextEdit;
use tree_rows::Table;

/// The changes of a tree, by its rows. A clause sees the tree, and what is changed at each row.
#[derive(Drop)]
pub struct Changes {
    table: Shared<Table>,
    rows: RowChanges,
}

impl Model for Changes {
    ghost use Rattle.tree_edits.specs.Stored.{AreRowsOf, rows_of};
    ghost use Rattle.tree_edits.specs.Session.{Session, session_code};

    ghost Value = { Session };

    ghost coded = { session_code };

    ghost view = { λ c.
        record { tree = c.table.value; rows = rows_of c.rows.marks.items c.rows.changes.items } };

    ghost invariant = { λ c. AreRowsOf c.table.value c.rows.marks.items c.rows.changes.items };
}

// Whether a change would be before, after or in the place of the root.
fn is_beside_root(row: usize, slot: Slot) -> bool
    ensures { IsTrue result ↔ IsBesideRoot row slot }
{
    match slot {
        Slot::First | Slot::Last => false,
        Slot::Before | Slot::Instead | Slot::After => row == 0,
    }
}

// Whether a slot is one of a node's children.
fn is_inner(slot: Slot) -> bool
    ensures { IsTrue result ↔ IsInner slot }
{
    match slot {
        Slot::First | Slot::Last => true,
        Slot::Before | Slot::Instead | Slot::After => false,
    }
}

// The rows of the siblings after a row, up to another one.
fn siblings_to(
    alloc: Global,
    table: &Table,
    first: usize,
    last: usize,
) -> Result<Vec<usize>, ChangeError>
    requires { first < size table.now }
    ensures ok { IfOk result (λ rows. IsRun table.now first last rows.items) }
    ensures err { IfErr result (IsNoRun table.now first last) }
{
    let mut rows = Vec::new(alloc);
    let mut at = first;
    while at != last {
        let Some(next) = table.next_sibling_row(at) else {
            return Err(ChangeError::NotSiblings);
        };
        push_row(&mut rows, next)?;
        at = next;
    }
    Ok(rows)
}

// Appends a row.
fn push_row(rows: &mut Vec<usize>, row: usize) -> Result<(), ChangeError>
    ensures ok { OnOk result (rows.new.items ≡ rows.old.items ++ row ∷ []) }
    ensures err { IfErr result (λ e. e ≡ Memory) }
{
    match rows.push(row) {
        Ok(()) => Ok(()),
        Err(_) => Err(ChangeError::Memory),
    }
}

impl Changes {
    /// No changes of the tree of a table, whose first row is a node.
    ///
    /// # Errors
    ///
    /// `AllocError` if memory runs out: it takes 8 bytes for each row.
    pub fn new(alloc: Global, table: &Shared<Table>) -> Result<Changes, AllocError>
        requires { IsNode table.now.value }
        ensures { IfOk result (IsNew table.now.value) }
    {
        Ok(Changes {
            table: table.share(),
            rows: RowChanges::new(alloc, table.len())?,
        })
    }

    /// The tree that is changed.
    pub fn table(&self) -> &Shared<Table>
        ensures { result.now.value ≡ self.now.tree }
    {
        &self.table
    }

    // Whether a child would be put into a token.
    fn is_into_token(&self, row: usize, slot: Slot) -> bool
        requires { row < size self.now.tree }
        ensures { IsTrue result ↔ IsIntoToken self.now row slot }
    {
        is_inner(slot) && self.table.is_token_at(row)
    }

    // Whether an element that is replaced would be replaced again, or get a child.
    fn is_at_replaced(&self, row: usize, slot: Slot) -> bool
        requires { row < size self.now.tree }
        ensures { IsTrue result ↔ IsAtReplaced self.now row slot }
    {
        match slot {
            Slot::First | Slot::Last | Slot::Instead => self.rows.is_replaced(row),
            Slot::Before | Slot::After => false,
        }
    }

    // Whether the row is inside an element that is replaced.
    fn is_in_replaced(&self, row: usize) -> bool
        requires { row < size self.now.tree }
        ensures { IsTrue result ↔ IsInReplaced self.now row }
    {
        let mut at = row;
        while let Some(up) = self.table.parent_row(at) {
            if self.rows.is_replaced(up) {
                return true;
            }
            at = up;
        }
        false
    }

    // Whether something inside the row's element is changed.
    fn has_change_inside(&self, row: usize) -> bool
        requires { row < size self.now.tree }
        ensures { IsTrue result ↔ HasChangeInside self.now row }
    {
        let (first, end) = self.table.rows_below(row);
        for inner in first..end {
            if self.rows.is_changed(inner) {
                return true;
            }
        }
        false
    }

    // Whether an element would be replaced, with the changes inside it.
    fn is_over_change(&self, row: usize, slot: Slot) -> bool
        requires { row < size self.now.tree }
        ensures { IsTrue result ↔ IsOverChange self.now row slot }
    {
        match slot {
            Slot::Instead => self.rows.has_new_child(row) || self.has_change_inside(row),
            Slot::Before | Slot::First | Slot::Last | Slot::After => false,
        }
    }

    /// Whether a change at a row is taken. Takes time linear in the depth of the row, and for
    /// `Instead` in the number of rows inside it too.
    ///
    /// # Errors
    ///
    /// The first of the variants of `ChangeError`, from `Root` to `ChangedInside`, whose condition
    /// holds.
    pub fn check(&self, row: usize, slot: Slot) -> Result<(), ChangeError>
        requires { row < size self.now.tree }
        ensures ok { OnOk result (IsTaken self.now row slot) }
        ensures err { IfErr result (λ e. IsRefused self.now row slot e × (e ≡ Memory → ⊥)) }
    {
        if is_beside_root(row, slot) {
            return Err(ChangeError::Root);
        }
        if self.is_into_token(row, slot) {
            return Err(ChangeError::Token);
        }
        if self.is_at_replaced(row, slot) {
            return Err(ChangeError::Replaced);
        }
        if self.is_in_replaced(row) {
            return Err(ChangeError::InReplaced);
        }
        if self.is_over_change(row, slot) {
            return Err(ChangeError::ChangedInside);
        }
        Ok(())
    }

    /// Adds elements at a row, after those that were added there before; `Instead` with none
    /// deletes it. Takes the time of [`Changes::check`].
    ///
    /// # Errors
    ///
    /// Those of [`Changes::check`], and otherwise `Memory` if memory runs out. Nothing is changed
    /// then.
    pub fn add(
        &mut self,
        alloc: Global,
        row: usize,
        slot: Slot,
        elements: Vec<Element>,
    ) -> Result<(), ChangeError>
        requires { row < size self.old.tree }
        ensures ok { OnOk result (self.new ≡ with_elements_at self.old row slot elements.items) }
        ensures taken { OnOk result (IsTaken self.old row slot) }
        ensures err { OnErr result (self.new ≡ self.old) }
        ensures refused { IfErr result (IsRefused self.old row slot) }
    {
        self.check(row, slot)?;
        self.put(alloc, row, slot, elements)
    }

    /// The same, where the change is taken. Takes constant time.
    ///
    /// # Errors
    ///
    /// `Memory` if memory runs out. Nothing is changed then.
    pub fn put(
        &mut self,
        alloc: Global,
        row: usize,
        slot: Slot,
        elements: Vec<Element>,
    ) -> Result<(), ChangeError>
        requires is_row { row < size self.old.tree }
        requires taken { IsTaken self.old row slot }
        ensures ok { OnOk result (self.new ≡ with_elements_at self.old row slot elements.items) }
        ensures err { OnErr result (self.new ≡ self.old) }
        ensures memory { IfErr result (λ e. e ≡ Memory) }
    {
        self.rows.add(alloc, row, slot, elements)?;
        Ok(())
    }

    // Whether each of some elements may be replaced.
    fn check_all(&self, rows: &[usize]) -> Result<(), ChangeError>
        requires { AreBelow (size self.now.tree) rows.now }
        ensures ok { OnOk result (AreTaken self.now rows.now) }
        ensures err { IfErr result (λ e. IsFirstRefused self.now rows.now e × (e ≡ Memory → ⊥)) }
    {
        for row in rows {
            self.check(*row, Slot::Instead)?;
        }
        Ok(())
    }

    // Puts elements in the place of one element, and deletes others, where that is taken.
    fn put_run(
        &mut self,
        alloc: Global,
        first: usize,
        others: &[usize],
        elements: Vec<Element>,
    ) -> Result<(), ChangeError>
        requires are_rows { AreBelow (size self.old.tree) (first ∷ others.now) }
        requires taken { AreTaken self.old (first ∷ others.now) }
        ensures ok { OnOk result (self.new ≡ with_run self.old first others.now elements.items) }
        ensures err { OnErr result (self.new ≡ self.old) }
        ensures memory { IfErr result (λ e. e ≡ Memory) }
    {
        self.rows.replace_run(alloc, first, others, elements)?;
        Ok(())
    }

    /// Puts elements in the place of the run of siblings from one row to another, both included;
    /// with none, it deletes them. Takes the time of [`Changes::check`] for each of them, and
    /// constant time for each sibling after the first.
    ///
    /// # Errors
    ///
    /// `NotSiblings` if the last row is neither the first nor one of its later siblings; otherwise
    /// the reason of the first element of the run that may not be replaced; and `Memory` if memory
    /// runs out. Nothing is changed then.
    pub fn replace_all(
        &mut self,
        alloc: Global,
        first: usize,
        last: usize,
        elements: Vec<Element>,
    ) -> Result<(), ChangeError>
        requires { first < size self.old.tree }
        ensures ok { OnOk result (IsRunReplaced self.old first last elements.items self.new) }
        ensures err { OnErr result (self.new ≡ self.old) }
        ensures refused { IfErr result (IsRunRefused self.old first last) }
    {
        let others = siblings_to(alloc, self.table.as_ref(), first, last)?;
        self.check(first, Slot::Instead)?;
        self.check_all(others.as_slice())?;
        self.put_run(alloc, first, others.as_slice(), elements)
    }

    /// The edit of the text that the changes are, without replacements that change nothing; its
    /// ranges are within the text of the tree, on character boundaries. Takes time linear in the
    /// tree and the texts of the elements.
    ///
    /// # Errors
    ///
    /// `AllocError` if memory runs out.
    pub fn text_edit(&self, alloc: Global) -> Result<TextEdit, AllocError>
        ensures edit { IfOk result (λ edit. edit ≡ text_edit_of (at_of self.now) self.now.tree) }
        ensures ranges { IfOk result (All (IsRangeOf (text self.now.tree))) }
    {
        let table = self.table.as_ref();
        // For the proof: each token's text is UTF-8.
        table.texts_are_utf8();
        let indels = edits(alloc, table, &self.rows)?;
        Ok(TextEdit::from_ordered(indels))
    }

    /// The number of each row in the new tree, counted from 1, or 0 for a row that is replaced or
    /// inside one that is. Takes time linear in the tree and the number of elements.
    ///
    /// # Errors
    ///
    /// `AllocError` if memory runs out: it takes 8 bytes for each row.
    pub fn new_rows(&self, alloc: Global) -> Result<Vec<usize>, AllocError>
        ensures { IfOk result (λ rows. rows.items ≡ new_rows_of (at_of self.now) self.now.tree) }
    {
        new_rows(alloc, self.table.as_ref(), &self.rows)
    }

    /// The table of the tree with the changes made. Takes time linear in the old tree and the
    /// elements.
    ///
    /// # Errors
    ///
    /// `TooLong` if the new text would have 2^32 bytes or more, and `Memory` if memory runs out.
    pub fn new_table(&self, alloc: Global) -> Result<Table, ChangeError>
        ensures ok { IfOk result (λ t. t ≡ result_of self.now) }
        ensures short { OnOk result (IsShort self.now) }
        ensures refused { IfErr result (IsNotMade self.now) }
    {
        changed_table(alloc, self.table.as_ref(), &self.rows)
    }
}
