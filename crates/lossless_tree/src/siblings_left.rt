//! Siblings that are left to read.
ghost use Rattle.std.specs.Prelude.{◌≡◌};
ghost use Rattle.tree_model.specs.Tree.{kind_of, text, forest_of_children, is_token};
ghost use Rattle.tree_model.specs.Rows.{IsRow, tree_at, start_at};
ghost use Rattle.lossless_tree.specs.Trees.{is_done, first_of, behind_first, inside_first, without_trivia};

use std::marker::Model;
use syntax_kind::SyntaxKind;
use text_size::TextSize;
use tree_rows::Table;

/// A child and all its later siblings, for code that reads a tree in order and looks ahead at a few
/// siblings. A clause sees a forest and the byte where its first tree starts.
///
/// No call takes memory, and each takes constant time but for `without_trivia`. A value is never
/// changed: `rest` and `inside` give new ones. Where nothing is left, the kind is `OTHER(0)`, the
/// text is empty, and `rest` and `inside` have nothing.
#[derive(Drop)]
pub struct SiblingsLeft<'t> {
    table: &'t Table,
    row: usize,
    end: usize,
    start: TextSize,
}

impl<'t> Model for SiblingsLeft<'t> {
    ghost use Rattle.lossless_tree.specs.Trees.{Siblings, siblings_code};
    ghost use Rattle.lossless_tree.specs.SiblingRows.{trees_at, IsTrees};

    ghost Value = { Siblings };

    ghost coded = { siblings_code };

    ghost view = { λ a. record { trees = trees_at a.table.now a.row a.end; start = a.start } };

    ghost invariant = { λ a. IsTrees a.table.now a.row a.end a.start };
}

impl<'t> SiblingsLeft<'t> {
    // The children of the node or token at a row.
    pub(crate) fn below(table: &'t Table, row: usize) -> Self
        requires { IsRow table.now row }
        ensures { result
            ≡ record {
              trees = forest_of_children (tree_at table.now row);
              start = start_at table.now row;
            } }
    {
        let (first, end) = table.rows_below(row);
        SiblingsLeft {
            table,
            row: first,
            end,
            start: TextSize::new(table.start_at(row)),
        }
    }

    /// A copy.
    pub fn all(&self) -> SiblingsLeft<'t>
        ensures { result ≡ self.now }
    {
        SiblingsLeft {
            table: self.table,
            row: self.row,
            end: self.end,
            start: self.start,
        }
    }

    /// Whether nothing is left.
    pub fn is_done(&self) -> bool
        ensures { result ≡ is_done self.now.trees }
    {
        self.row >= self.end
    }

    /// The kind of the first one.
    pub fn kind(&self) -> SyntaxKind
        ensures { result ≡ kind_of (first_of self.now.trees) }
    {
        if self.row < self.end {
            self.table.kind_at(self.row)
        } else {
            SyntaxKind::OTHER(0)
        }
    }

    /// Whether the first one is a token.
    pub fn is_token(&self) -> bool
        ensures { result ≡ is_token (first_of self.now.trees) }
    {
        self.row < self.end && self.table.is_token_at(self.row)
    }

    /// The text of the first one.
    pub fn text(&self) -> &'t str
        ensures { result.now ≡ text (first_of self.now.trees) }
    {
        if self.row < self.end {
            self.table.text_at(self.row)
        } else {
            ""
        }
    }

    /// Offset of the first sibling left, in bytes; if none is left, the end of the last; if there
    /// were none, the start of the parent.
    pub fn start(&self) -> TextSize
        ensures { result ≡ self.now.start }
    {
        self.start
    }

    /// The siblings after the first one.
    pub fn rest(&self) -> SiblingsLeft<'t>
        ensures { result ≡ behind_first self.now }
    {
        if self.row < self.end {
            SiblingsLeft {
                table: self.table,
                row: self.table.row_behind(self.row),
                end: self.end,
                start: TextSize::new(self.table.end_at(self.row) as u32),
            }
        } else {
            self.all()
        }
    }

    /// The children of the first one.
    pub fn inside(&self) -> SiblingsLeft<'t>
        ensures { result ≡ inside_first self.now }
    {
        if self.row < self.end {
            SiblingsLeft::below(self.table, self.row)
        } else {
            self.all()
        }
    }

    /// The siblings left, from the first on that is not trivia (white space or a comment). Takes
    /// time linear in the trivia that it passes.
    pub fn without_trivia(&self) -> SiblingsLeft<'t>
        ensures { result ≡ without_trivia self.now }
    {
        let mut left = self.all();
        while left.is_token() && left.kind().is_trivia() {
            left = left.rest();
        }
        left
    }
}
