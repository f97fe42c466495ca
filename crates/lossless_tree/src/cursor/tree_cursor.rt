//! The common part of nodes and tokens: a place in a tree, and its properties.
ghost use Rattle.std.specs.Prelude.{◌≡◌, option_map, IfOk, string_bytes};
ghost use Rattle.std.specs.List.{find};
ghost use Rattle.tree_model.specs.Tree.{text, kind_of};
ghost use Rattle.tree_model.specs.Rows.{IsRow};
ghost use Rattle.tree_model.specs.Cursor.{cursor_at, focus, range_of, parent_of, next_sibling_of, prev_sibling_of, following_of, siblings_in};
ghost use Rattle.tree_model.specs.Placed.{IsPlaced};
ghost use Rattle.tree_model.specs.NearestToken.{is_no_trivia};
ghost use Rattle.lossless_tree.specs.Element.{element_of};
ghost use Rattle.lossless_tree.specs.Dump.{dump_of};

use super::element::{SyntaxElement, element};
use super::node::SyntaxNode;
use super::siblings::{SyntaxElementSiblings, first_no_trivia};
use crate::dump::Dump;
use crate::exact::exact_string;
use shared_pointer::Shared;
use std::alloc::{AllocError, Global};
use std::hash::{Hash, Hasher};
use std::marker::Model;
use syntax_kind::SyntaxKind;
use text_size::TextRange;
use tree_model::Direction;
use tree_rows::Table;

// A row of a shared table, borrowed from a node or a token. A clause sees the whole tree and the
// place in it.
#[derive(Drop)]
pub(crate) struct TreeCursor<'t> {
    table: &'t Shared<Table>,
    row: usize,
}

impl<'t> Model for TreeCursor<'t> {
    ghost use Rattle.tree_model.specs.Cursor.{Cursor, cursor_code};

    ghost Value = { Cursor };

    ghost coded = { cursor_code };

    ghost use Rattle.tree_model.specs.Rows.{place_at, IsRow};

    ghost view = { λ a.
        record { tree = a.table.now.value; place = place_at a.table.now.value a.row } };

    ghost invariant = { λ a. IsRow a.table.now.value a.row };
}

impl<'t> TreeCursor<'t> {
    // The cursor at a row.
    pub(crate) fn at(table: &'t Shared<Table>, row: usize) -> Self
        requires { IsRow table.now.value row }
        ensures { result ≡ cursor_at table.now.value row }
    {
        TreeCursor { table, row }
    }

    // The place is one of its tree's. It does nothing.
    pub(crate) fn placed(&self)
        ensures { IsPlaced self.now }
    {
        self.table.placed(self.row)
    }

    pub(crate) fn kind(&self) -> SyntaxKind
        ensures { result ≡ kind_of (focus self.now) }
    {
        self.table.kind_at(self.row)
    }

    pub(crate) fn text_range(&self) -> TextRange
        ensures { result ≡ range_of self.now }
    {
        self.table.range_at(self.row)
    }

    pub(crate) fn text(&self) -> &'t str
        ensures { result.now ≡ text (focus self.now) }
    {
        self.table.text_at(self.row)
    }

    pub(crate) fn parent(&self) -> Option<SyntaxNode>
        ensures { result ≡ parent_of self.now }
    {
        let row = self.table.parent_row(self.row)?;
        Some(SyntaxNode::at(self.table.share(), row))
    }

    pub(crate) fn next_sibling_or_token(&self) -> Option<SyntaxElement>
        ensures { result ≡ option_map element_of (next_sibling_of self.now) }
    {
        let row = self.table.next_sibling_row(self.row)?;
        Some(element(self.table, row))
    }

    pub(crate) fn prev_sibling_or_token(&self) -> Option<SyntaxElement>
        ensures { result ≡ option_map element_of (prev_sibling_of self.now) }
    {
        let row = self.table.prev_sibling_row(self.row)?;
        Some(element(self.table, row))
    }

    pub(crate) fn next_no_trivia(&self) -> Option<SyntaxElement>
        ensures { result ≡ option_map element_of (find is_no_trivia (following_of self.now)) }
    {
        let later = self.table.next_sibling_row(self.row);
        first_no_trivia(SyntaxElementSiblings::new(self.table.share(), later, Direction::Next))
    }

    pub(crate) fn siblings_with_tokens(&self, direction: Direction) -> SyntaxElementSiblings
        ensures { result ≡ siblings_in direction self.now }
    {
        SyntaxElementSiblings::new(self.table.share(), Some(self.row), direction)
    }

    pub(crate) fn dump(&self, alloc: Global) -> Result<String, AllocError>
        ensures { IfOk result (λ text. string_bytes text ≡ dump_of self.now) }
    {
        exact_string(alloc, &Dump::at(self.table, self.row))
    }
}

// Equal where both are at the same place in equal trees. Takes constant time if they share one
// table; otherwise, if the row numbers are equal, it compares texts and rows.
impl<'t> PartialEq for TreeCursor<'t> {
    ghost use Rattle.tree_model.specs.Equality.{is_same_cursor};
    ghost use Rattle.tree_model.specs.EqualityLaws.{cursor_equivalence};
    ghost use Rattle.std.specs.Cmp.{partial_equiv_from_equiv};

    ghost eq = { is_same_cursor };

    ghost laws = { partial_equiv_from_equiv cursor_equivalence };

    fn eq(&self, other: &TreeCursor<'t>) -> bool {
        self.row == other.row
            && (Shared::ptr_eq(self.table, other.table) || **self.table == **other.table)
    }
}

impl<'t> Eq for TreeCursor<'t> {
    ghost use Rattle.tree_model.specs.EqualityLaws.{cursor_equivalence};

    ghost laws = { cursor_equivalence };
}

// It feeds the kind, the range and the number of nodes and tokens in the subtree, and never walks
// the tree.
impl<'t> Hash for TreeCursor<'t> {
    ghost use Rattle.tree_model.specs.Equality.{cursor_hash};
    ghost use Rattle.tree_model.specs.EqualityLaws.{cursors_alike};

    ghost hash_input = { cursor_hash };

    ghost respects_eq = { cursors_alike };

    fn hash<H: Hasher>(&self, state: &mut H) {
        let range = self.text_range();
        self.kind().to_raw().hash(state);
        range.start().raw().hash(state);
        range.end().raw().hash(state);
        self.table.size_at(self.row).hash(state);
    }
}
