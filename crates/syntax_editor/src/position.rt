//! Where elements are put.
ghost use Rattle.std.specs.Prelude.{◌≡◌, ◌<◌, ◌↔◌, IsTrue};
ghost use Rattle.tree_model.specs.Tree.{size};
ghost use Rattle.tree_model.specs.Cursor.{cursor_at};
ghost use Rattle.lossless_tree.specs.Element.{cursor_of};
ghost use Rattle.syntax_editor.specs.Spot.{spot_of};
ghost use Rattle.syntax_editor.specs.Editor.{before, after, instead_of, first_child_of, last_child_of};

use lossless_tree::{NodeOrToken, SyntaxElement, SyntaxNode, SyntaxToken};
use shared_pointer::Shared;
use std::marker::Model;
use tree_edits::{Changes, Slot};
use tree_rows::Table;

/// The place of a node or token in the tree that is changed. A clause sees the tree and the row.
#[derive(Drop)]
pub(crate) struct Place {
    table: Shared<Table>,
    row: usize,
}

impl Model for Place {
    ghost use Rattle.syntax_editor.specs.Spot.{Spot, spot_code};
    ghost use Rattle.tree_model.specs.Rows.{IsRow};

    ghost Value = { Spot };

    ghost coded = { spot_code };

    ghost view = { λ p. record { tree = p.table.value; row = p.row } };

    ghost invariant = { λ p. IsRow p.table.value p.row };
}

impl Place {
    /// The place of a node. It keeps the node's whole tree alive, and copies nothing of it.
    pub fn of_node(node: &SyntaxNode) -> Place
        ensures spot { result ≡ spot_of node.now }
        ensures cursor { cursor_at result.tree result.row ≡ node.now }
    {
        Place {
            table: node.table().share(),
            row: node.row(),
        }
    }

    /// The place of a token. It keeps the token's whole tree alive, and copies nothing of it.
    pub fn of_token(token: &SyntaxToken) -> Place
        ensures spot { result ≡ spot_of token.now }
        ensures cursor { cursor_at result.tree result.row ≡ token.now }
    {
        Place {
            table: token.table().share(),
            row: token.row(),
        }
    }

    /// The place of a node or token, as [`Place::of_node`] and [`Place::of_token`] give it.
    pub fn of(element: &SyntaxElement) -> Place
        ensures spot { result ≡ spot_of (cursor_of element.now) }
        ensures cursor { cursor_at result.tree result.row ≡ cursor_of element.now }
    {
        match element {
            NodeOrToken::Node(node) => Place::of_node(node),
            NodeOrToken::Token(token) => Place::of_token(token),
        }
    }

    /// The table of the whole tree, which need not be the tree that an editor changes.
    pub fn table(&self) -> &Shared<Table>
        ensures { result.now.value ≡ self.now.tree }
    {
        &self.table
    }

    /// The row in [`Place::table`]: 0 for the root, and always below the number of rows.
    pub fn row(&self) -> usize
        ensures value { result ≡ self.now.row }
        ensures is_row { result < size self.now.tree }
    {
        self.row
    }
}

// Whether two tables have one tree.
fn is_one_tree(one: &Table, other: &Table) -> bool
    ensures { IsTrue result ↔ (one.now ≡ other.now) }
{
    *one == *other
}

// Whether a place is one of the tree that is changed.
pub(crate) fn is_in_tree(changes: &Changes, place: &Place) -> bool
    ensures { IsTrue result ↔ (place.now.tree ≡ changes.now.tree) }
{
    let here = changes.table();
    Shared::ptr_eq(place.table(), here) || is_one_tree(place.table().as_ref(), here.as_ref())
}

/// A position in the tree that is changed, next to or inside an element of it.
#[derive(Drop)]
pub struct Position {
    pub(crate) place: Place,
    pub(crate) slot: Slot,
}

impl Position {
    /// Right before an element.
    pub fn before(element: &SyntaxElement) -> Position
        ensures { result ≡ before element.now }
    {
        Position {
            place: Place::of(element),
            slot: Slot::Before,
        }
    }

    /// Right after an element.
    pub fn after(element: &SyntaxElement) -> Position
        ensures { result ≡ after element.now }
    {
        Position {
            place: Place::of(element),
            slot: Slot::After,
        }
    }

    // In the place of an element.
    pub(crate) fn instead_of(element: &SyntaxElement) -> Position
        ensures { result ≡ instead_of element.now }
    {
        Position {
            place: Place::of(element),
            slot: Slot::Instead,
        }
    }

    /// Inside a node, before its first child; the node may be empty.
    pub fn first_child_of(node: &SyntaxNode) -> Position
        ensures { result ≡ first_child_of node.now }
    {
        Position {
            place: Place::of_node(node),
            slot: Slot::First,
        }
    }

    /// Inside a node, after its last child; the node may be empty.
    pub fn last_child_of(node: &SyntaxNode) -> Position
        ensures { result ≡ last_child_of node.now }
    {
        Position {
            place: Place::of_node(node),
            slot: Slot::Last,
        }
    }
}
