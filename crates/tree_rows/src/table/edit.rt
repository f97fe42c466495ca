//! New tables from the rows and texts of others.
ghost use Rattle.std.specs.Prelude.{ℕ, ◌≡◌, ◌<◌, ◌≤◌, ◌+◌, ◌-◌, ◌^◌, ◌↔◌, length, IfOk, OnOk, IsErrOf, string_bytes, IsUtf8};
ghost use Rattle.tree_model.specs.declared.error.ReplaceError.TheVariants.{TooLong};
ghost use Rattle.tree_model.specs.Tree.{size, text, token, cons, nil, IsNode, IsToken};
ghost use Rattle.tree_model.specs.Rows.{tree_at, start_at, end_at, place_at};
ghost use Rattle.tree_rows.specs.Rows.{row_at, columns_of, joined};
ghost use Rattle.tree_model.specs.Cursor.{cursor_at};
ghost use Rattle.tree_model.specs.Edit.{splice, replace};
ghost use Rattle.tree_model.specs.Placed.{IsPlaced};
ghost use Rattle.tree_rows.specs.MovedRows.{moved, MoveFits, rows_between, moved_subtree, moved_before, moved_behind};

use super::Table;
use super::search::same_kind;
use crate::kept::Kept;
use crate::rows::{Row, Rows};
use crate::shift::Shift;
use std::alloc::{AllocError, Global};
use syntax_kind::SyntaxKind;
use tree_model::ReplaceError;

impl Table {
    // The rows from `first` up to `end`, moved, after `rows`.
    fn push_moved(
        &self,
        rows: &mut Rows,
        first: usize,
        end: usize,
        by: Shift,
    ) -> Result<(), AllocError>
        requires ordered { first ≤ end }
        requires in_range { end ≤ size self.now }
        requires fits { (k : ℕ) → first ≤ k → k < end → MoveFits by (row_at self.now k) }
        ensures { OnOk result
            (rows.new ≡ joined rows.old (moved by (rows_between self.now first end))) }
    {
        let count = rows.len();
        self.rows.copy_to(rows, first, end)?;
        rows.move_from(count, by)
    }

    // The rows of the node at row `n` after `rows`, moved so that the node has the row `to`, starts
    // at `byte` and has its parent at `up`.
    fn push_node(
        &self,
        rows: &mut Rows,
        n: usize,
        to: usize,
        byte: usize,
        up: usize,
    ) -> Result<(), AllocError>
        requires is_row { n < size self.now }
        requires is_node { IsNode (tree_at self.now n) }
        requires rows_fit { to + size (tree_at self.now n) < 2 ^ 63 }
        requires bytes_fit { byte + length (text (tree_at self.now n)) < 2 ^ 32 }
        ensures { OnOk result (rows.new ≡ joined rows.old (moved_subtree self.now n to byte up)) }
    {
        let node = self.row(n);
        let end = node.end;
        let first = Row {
            kind: node.kind,
            is_token: false,
            start: byte as u32,
            end: end - n + to,
        };
        rows.push(first, up)?;
        let by = Shift {
            from_row: n,
            to_row: to,
            from_byte: node.start as usize,
            to_byte: byte,
        };
        self.push_moved(rows, n + 1, end, by)
    }

    /// The node at row `n` as the root of a table of its own.
    pub fn subtree(&self, alloc: Global, n: usize) -> Result<Table, AllocError>
        requires is_row { n < size self.now }
        requires is_node { IsNode (tree_at self.now n) }
        ensures { IfOk result (λ t. t ≡ tree_at self.now n) }
    {
        // Opens the table's invariant for the proof.
        let _count = self.rows.len();
        let text = String::from_str(alloc, self.text_at(n))?;
        let mut rows = Rows::with_capacity(alloc, self.size_at(n))?;
        self.push_node(&mut rows, n, 0, 0, 0)?;
        let kept = Kept::new(alloc, rows)?;
        Ok(Table::from_parts(text, kept))
    }

    // The whole text with `new` in place of that of row `n`.
    fn spliced_text(&self, alloc: Global, n: usize, new: &str) -> Result<String, ReplaceError>
        requires { n < size self.now }
        ensures ok { IfOk result (λ s. string_bytes s
            ≡ splice (text self.now) (start_at self.now n) (end_at self.now n) new.now) }
        ensures too_long { IsErrOf result TooLong
            ↔ (2 ^ 32
            ≤ length (splice (text self.now) (start_at self.now n) (end_at self.now n)
            new.now)) }
    {
        let text = self.text.as_str();
        let start = self.start_at(n) as usize;
        let end = self.end_at(n);
        let kept = text.len() - (end - start);
        if new.len() > u32::MAX as usize - kept {
            return Err(ReplaceError::TooLong);
        }
        let mut spliced = String::with_capacity(alloc, kept + new.len())?;
        spliced.push_str(&text[..start])?;
        spliced.push_str(new)?;
        spliced.push_str(&text[end..])?;
        Ok(spliced)
    }

    // The rows before row `n`, where `count` rows take the place of the subtree there. The list has
    // room for all rows.
    fn rows_before(&self, alloc: Global, n: usize, count: usize) -> Result<Rows, AllocError>
        requires is_row { n < size self.now }
        requires count_fits { count < 2 ^ 63 }
        ensures rows { IfOk result (λ rows. rows ≡ moved_before self.now n count) }
        ensures fits { OnOk result ((size self.now - size (tree_at self.now n)) + count < 2 ^ 63) }
    {
        let len = self.rows.len();
        let after = self.row(n).end;
        let mut rows = Rows::with_capacity(alloc, len - (after - n) + count)?;
        let by = Shift {
            from_row: after,
            to_row: n + count,
            from_byte: 0,
            to_byte: 0,
        };
        self.push_moved(&mut rows, 0, n, by)?;
        Ok(rows)
    }

    // The rows after the subtree at row `n`, where `count` rows and `bytes` bytes take its place.
    fn push_behind(
        &self,
        rows: &mut Rows,
        n: usize,
        count: usize,
        bytes: usize,
    ) -> Result<(), AllocError>
        requires is_row { n < size self.now }
        requires rows_fit { (size self.now - size (tree_at self.now n)) + count < 2 ^ 63 }
        requires bytes_fit { (length (text self.now) - length (text (tree_at self.now n))) + bytes
            < 2 ^ 32 }
        ensures { OnOk result (rows.new ≡ joined rows.old (moved_behind self.now n count bytes)) }
    {
        let after = self.row(n).end;
        let by = Shift {
            from_row: after,
            to_row: n + count,
            from_byte: self.end_at(n),
            to_byte: self.start_at(n) as usize + bytes,
        };
        self.push_moved(rows, after, self.len(), by)
    }

    // The rows of the tree with a token in place of the subtree at row `n`.
    fn rows_with_token(
        &self,
        alloc: Global,
        n: usize,
        kind: SyntaxKind,
        new: &str,
    ) -> Result<Kept, AllocError>
        requires is_row { n < size self.now }
        requires is_token { IsToken (tree_at self.now n) }
        requires fits { length
            (splice (text self.now) (start_at self.now n) (end_at self.now n) new.now)
            < 2 ^ 32 }
        ensures { IfOk result (λ rows. rows
            ≡ columns_of
            (cons (replace self.now (place_at self.now n) (token kind new.now)) nil)) }
    {
        // Opens the table's invariant for the proof.
        let _count = self.rows.len();
        let from = self.end_at(n);
        let start = self.start_at(n);
        let to = start as usize + new.len();
        if same_kind(self.kind_at(n), kind) {
            if let Some(rows) = self.rows.restarted(n, from, to) {
                return Ok(rows);
            }
        }
        let mut rows = self.rows_before(alloc, n, 1)?;
        let token = Row {
            kind,
            is_token: true,
            start,
            end: n + 1,
        };
        rows.push(token, self.parent(n))?;
        self.push_behind(&mut rows, n, 1, new.len())?;
        let kept = Kept::new(alloc, rows)?;
        Ok(kept)
    }

    // The rows of the tree with the node at row `other` of `piece` in place of the subtree at row
    // `n`.
    fn rows_with_node(
        &self,
        alloc: Global,
        n: usize,
        piece: &Table,
        other: usize,
    ) -> Result<Kept, AllocError>
        requires is_row { n < size self.now }
        requires is_other { other < size piece.now }
        requires is_node { IsNode (tree_at piece.now other) }
        requires fits { length (splice (text self.now) (start_at self.now n) (end_at self.now n)
            (text (tree_at piece.now other))) < 2 ^ 32 }
        ensures { IfOk result (λ rows. rows
            ≡ columns_of
            (cons (replace self.now (place_at self.now n) (tree_at piece.now other)) nil)) }
    {
        // Opens the table's invariant for the proof.
        let _count = self.rows.len();
        let _more = piece.rows.len();
        let start = self.start_at(n) as usize;
        let count = piece.size_at(other);
        let bytes = piece.end_at(other) - piece.start_at(other) as usize;
        let mut rows = self.rows_before(alloc, n, count)?;
        piece.push_node(&mut rows, other, n, start, self.parent(n))?;
        self.push_behind(&mut rows, n, count, bytes)?;
        let kept = Kept::new(alloc, rows)?;
        Ok(kept)
    }

    /// The table of the tree with a token in place of the token at row `n`.
    pub fn with_token(
        &self,
        alloc: Global,
        n: usize,
        kind: SyntaxKind,
        new: &str,
    ) -> Result<Table, ReplaceError>
        requires is_row { n < size self.now }
        requires is_token { IsToken (tree_at self.now n) }
        ensures ok { IfOk result
            (λ t. (t ≡ replace self.now (place_at self.now n) (token kind new.now)) × IsNode t) }
        ensures too_long { IsErrOf result TooLong
            ↔ (2 ^ 32
            ≤ length (text (replace self.now (place_at self.now n) (token kind new.now)))) }
    {
        // Opens the table's invariant for the proof.
        let _count = self.rows.len();
        let spliced = self.spliced_text(alloc, n, new)?;
        let rows = self.rows_with_token(alloc, n, kind, new)?;
        Ok(Table::from_parts(spliced, rows))
    }

    /// The table of the tree with the node at row `other` of `piece` in place of the node at row
    /// `n`.
    pub fn with_node(
        &self,
        alloc: Global,
        n: usize,
        piece: &Table,
        other: usize,
    ) -> Result<Table, ReplaceError>
        requires is_row { n < size self.now }
        requires is_other { other < size piece.now }
        requires is_node { IsNode (tree_at piece.now other) }
        ensures ok { IfOk result (λ t.
            (t ≡ replace self.now (place_at self.now n) (tree_at piece.now other))
            × IsNode t) }
        ensures too_long { IsErrOf result TooLong
            ↔ (2 ^ 32
            ≤ length
            (text (replace self.now (place_at self.now n) (tree_at piece.now other)))) }
    {
        // Opens the table's invariant for the proof.
        let _count = self.rows.len();
        let _more = piece.rows.len();
        let spliced = self.spliced_text(alloc, n, piece.text_at(other))?;
        let rows = self.rows_with_node(alloc, n, piece, other)?;
        Ok(Table::from_parts(spliced, rows))
    }

    /// A law: the place of row `n` is in the tree, whose root is a node and whose text is UTF-8 of
    /// less than 2^32 bytes. The function does nothing.
    pub fn placed(&self, n: usize)
        requires { n < size self.now }
        ensures { IsPlaced (cursor_at self.now n) }
    {
        // Opens the table's invariant for the proof.
        let _count = self.rows.len();
    }
}
