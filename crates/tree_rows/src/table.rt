//! A tree as one text and one row for each place in preorder.
ghost use Rattle.std.specs.Prelude.{◌≡◌, ◌<◌, ◌+◌, ◌^◌, option_map, IfSome, string_bytes};
ghost use Rattle.tree_model.specs.Tree.{size, text, kind_of, is_token, IsNode, cons, nil, parent_place, first_child_place, next_sibling_place};
ghost use Rattle.tree_model.specs.Rows.{tree_at, start_at, end_at, place_at, TextsAreUtf8};
ghost use Rattle.tree_rows.specs.Rows.{row_at, parent_at, tree_of_rows, Represents};

mod edit;
mod flat;
mod kinds;
mod narrow;
mod over;
mod search;
mod steps;
mod walk;

use crate::kept::Kept;
use crate::rows::Row;
pub use flat::{FlatRow, NotFlat};
use std::marker::Model;
use syntax_kind::SyntaxKind;
use text_size::{TextRange, TextSize};
pub use walk::WalkStep;

/// A tree as one text and its rows. A clause sees the tree.
#[derive(Drop)]
pub struct Table {
    text: String,
    rows: Kept,
}

impl Model for Table {
    ghost use Rattle.std.specs.Prelude.{string_bytes};
    ghost use Rattle.tree_model.specs.Tree.{Tree};
    ghost use Rattle.tree_model.specs.TreeCode.{tree_code};

    ghost Value = { Tree };

    ghost coded = { tree_code };

    ghost use Rattle.tree_rows.specs.Rows.{tree_of_rows, Represents};

    ghost view = { λ a. tree_of_rows a.rows (string_bytes a.text) };

    ghost invariant = { λ a.
        Represents a.rows (string_bytes a.text) (tree_of_rows a.rows (string_bytes a.text)) };
}

impl Table {
    /// The table of a text and of rows that represent a tree of it.
    pub fn from_parts(text: String, rows: Kept) -> Self
        requires { Represents rows (string_bytes text) (tree_of_rows rows (string_bytes text)) }
        ensures { result ≡ tree_of_rows rows (string_bytes text) }
    {
        Table { text, rows }
    }

    /// How many rows there are: the nodes and tokens of the tree.
    pub fn len(&self) -> usize
        ensures { result ≡ size self.now }
    {
        self.rows.len()
    }

    /// The text of each token is UTF-8. The contract is the law: the function reads the number of
    /// rows, and that opens the invariant.
    #[inline(always)]
    pub fn texts_are_utf8(&self)
        ensures { TextsAreUtf8 (cons self.now nil) }
    {
        let _count = self.rows.len();
    }

    // Row `n`.
    #[inline(always)]
    fn row(&self, n: usize) -> Row
        requires { n < size self.now }
        ensures value { result ≡ row_at self.now n }
        ensures end_fits { result.end < 2 ^ 63 }
    {
        self.rows.get(n)
    }

    // The number of the row that is the parent of row `n`; for the root, its own number.
    fn parent(&self, n: usize) -> usize
        requires { n < size self.now }
        ensures { result ≡ parent_at self.now n }
    {
        self.rows.parent(n)
    }

    /// The kind of row `n`.
    pub fn kind_at(&self, n: usize) -> SyntaxKind
        requires { n < size self.now }
        ensures { result ≡ kind_of (tree_at self.now n) }
    {
        self.row(n).kind
    }

    /// Whether the node or token at row `n` is a token.
    pub fn is_token_at(&self, n: usize) -> bool
        requires { n < size self.now }
        ensures { result ≡ is_token (tree_at self.now n) }
    {
        self.row(n).is_token
    }

    /// The first row after the subtree at row `n`: `n` plus the number of rows of the subtree.
    pub fn row_behind(&self, n: usize) -> usize
        requires { n < size self.now }
        ensures { result ≡ n + size (tree_at self.now n) }
    {
        self.row(n).end
    }

    /// The row of the next place in preorder; after the last place, the number of rows.
    pub fn next_row(&self, n: usize) -> usize
        requires { n < size self.now }
        ensures { result ≡ n + 1 }
    {
        // For the proof: the number of rows fits.
        let _count = self.len();
        n + 1
    }

    /// The rows of the descendants of row `n`: the first row, and the row after the last one.
    pub fn rows_below(&self, n: usize) -> (usize, usize)
        requires { n < size self.now }
        ensures first { result.0 ≡ n + 1 }
        ensures behind { result.1 ≡ n + size (tree_at self.now n) }
    {
        let end = self.row(n).end;
        (n + 1, end)
    }

    /// Where the text of the subtree at row `n` starts.
    pub fn start_at(&self, n: usize) -> u32
        requires { n < size self.now }
        ensures { result ≡ start_at self.now n }
    {
        self.row(n).start
    }

    /// The number of nodes and tokens of the subtree at row `n`.
    pub fn size_at(&self, n: usize) -> usize
        requires { n < size self.now }
        ensures { result ≡ size (tree_at self.now n) }
    {
        self.row(n).end - n
    }

    /// Where the text of the subtree at row `n` ends.
    pub fn end_at(&self, n: usize) -> usize
        requires { n < size self.now }
        ensures value { result ≡ end_at self.now n }
        ensures fits { result < 2 ^ 32 }
    {
        let after = self.row(n).end;
        if after < self.len() {
            self.row(after).start as usize
        } else {
            self.text.len()
        }
    }

    /// The range of the subtree at row `n`.
    pub fn range_at(&self, n: usize) -> TextRange
        requires { n < size self.now }
        ensures { result ≡ record { start = start_at self.now n; end = end_at self.now n } }
    {
        let start = TextSize::new(self.start_at(n));
        let end = TextSize::new(self.end_at(n) as u32);
        TextRange::new(start, end)
    }

    /// The text of the subtree at row `n`.
    pub fn text_at(&self, n: usize) -> &str
        requires { n < size self.now }
        ensures { result.now ≡ text (tree_at self.now n) }
    {
        let start = self.row(n).start as usize;
        let end = self.end_at(n);
        &self.text.as_str()[start..end]
    }

    /// The row of the parent of row `n`; `None` for the root.
    pub fn parent_row(&self, n: usize) -> Option<usize>
        requires { n < size self.now }
        ensures place { option_map (place_at self.now) result ≡ parent_place (place_at self.now n) }
        ensures node { IfSome result (λ q. IsNode (tree_at self.now q)) }
        ensures in_range { IfSome result (λ q. q < size self.now) }
        ensures earlier { IfSome result (λ q. q < n) }
    {
        if n == 0 { None } else { Some(self.parent(n)) }
    }

    /// The row of the first child of row `n`, or `None` if it has none.
    pub fn first_child_row(&self, n: usize) -> Option<usize>
        requires { n < size self.now }
        ensures place { option_map (place_at self.now) result
            ≡ first_child_place self.now (place_at self.now n) }
        ensures in_range { IfSome result (λ q. q < size self.now) }
    {
        let end = self.row(n).end;
        let next = n + 1;
        if next < end { Some(next) } else { None }
    }

    /// The row of the next sibling of row `n`; `None` for a last child and for the root.
    pub fn next_sibling_row(&self, n: usize) -> Option<usize>
        requires { n < size self.now }
        ensures place { option_map (place_at self.now) result
            ≡ next_sibling_place self.now (place_at self.now n) }
        ensures in_range { IfSome result (λ q. q < size self.now) }
    {
        let after = self.row(n).end;
        let q = self.parent_row(n)?;
        if after < self.row(q).end {
            Some(after)
        } else {
            None
        }
    }
}

impl PartialEq for Table {
    ghost use Rattle.tree_model.specs.Equality.{is_same_tree};
    ghost use Rattle.tree_model.specs.EqualityLaws.{tree_equivalence};
    ghost use Rattle.std.specs.Cmp.{partial_equiv_from_equiv};

    ghost eq = { is_same_tree };

    ghost laws = { partial_equiv_from_equiv tree_equivalence };

    fn eq(&self, other: &Table) -> bool {
        self.text.as_str() == other.text.as_str() && self.rows == other.rows
    }
}
