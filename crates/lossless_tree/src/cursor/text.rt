//! The text of a node.
ghost use Rattle.std.specs.Prelude.{◌≡◌, ◌↔◌, length, IfOk, IsTrue, MatchOption, string_bytes};
ghost use Rattle.tree_model.specs.Tree.{text};
ghost use Rattle.tree_model.specs.Rows.{IsRow, tree_at};
ghost use Rattle.lossless_tree.specs.SyntaxText.{StartsAt, NoneStartsAt};

use std::alloc::{AllocError, Global};
use std::fmt;
use std::marker::Model;
use text_size::TextSize;
use tree_rows::Table;

/// The text of a node, borrowed from its tree. A clause sees the bytes.
#[derive(Drop)]
pub struct SyntaxText<'t> {
    text: &'t str,
    len: TextSize,
}

impl<'t> Model for SyntaxText<'t> {
    ghost use Rattle.std.specs.Prelude.{◌≡◌, ℕ, List, length};
    ghost use Rattle.std.specs.Coded.{coded_list, coded_ℕ};

    ghost Value = { List ℕ };

    ghost coded = { coded_list coded_ℕ };

    ghost view = { λ a. a.text.now };

    ghost invariant = { λ a. a.len ≡ length a.text.now };
}

impl<'t> SyntaxText<'t> {
    // The text of the subtree at a row.
    pub(crate) fn of_row(table: &'t Table, row: usize) -> Self
        requires { IsRow table.now row }
        ensures { result ≡ text (tree_at table.now row) }
    {
        SyntaxText {
            text: table.text_at(row),
            len: table.range_at(row).len(),
        }
    }

    /// The text as one slice of the tree's text.
    pub fn as_str(&self) -> &'t str
        ensures { result.now ≡ self.now }
    {
        self.text
    }

    /// How many bytes it has.
    pub fn len(&self) -> TextSize
        ensures { result ≡ length self.now }
    {
        self.len
    }

    /// The character that starts at byte `offset` of the text; `None` past the last one, and inside
    /// a character.
    pub fn char_at(&self, offset: TextSize) -> Option<char>
        ensures { MatchOption result (NoneStartsAt self.now offset) (StartsAt self.now offset) }
    {
        let start = offset.raw() as usize;
        if !self.text.is_char_boundary(start) {
            return None;
        }
        self.text[start..].chars().next()
    }

    /// Whether the text is `other`.
    pub fn eq_str(&self, other: &str) -> bool
        ensures { IsTrue result ↔ (self.now ≡ other.now) }
    {
        *self.text == *other
    }

    /// A copy that owns its text.
    pub fn to_string(&self, alloc: Global) -> Result<String, AllocError>
        ensures { IfOk result (λ s. string_bytes s ≡ self.now) }
    {
        String::from_str(alloc, self.text)
    }
}

impl<'t> fmt::Display for SyntaxText<'t> {
    ghost use Rattle.std.specs.Prelude.{Some};

    ghost output = { λ text. Some text };

    fn fmt<W: fmt::Write>(&self, f: &mut fmt::Formatter<W>) -> fmt::Result {
        let text = self.text;
        write!(f, "{text}")
    }
}
