//! The siblings of a node or token, itself first.
ghost use Rattle.std.specs.Prelude.{◌≡◌, map, IfSome, option_map};
ghost use Rattle.std.specs.List.{filter, find};
ghost use Rattle.std.specs.Iterator.{YieldsFirst, item_count};
ghost use Rattle.tree_model.specs.Rows.{IsRow};
ghost use Rattle.tree_model.specs.Cursor.{at_node};
ghost use Rattle.tree_rows.specs.Walks.{siblings_from};
ghost use Rattle.lossless_tree.specs.Element.{element_of};
ghost use Rattle.tree_model.specs.NearestToken.{is_no_trivia};

use super::element::{NodeOrToken, SyntaxElement, element};
use super::node::SyntaxNode;
use shared_pointer::Shared;
use std::marker::Model;
use tree_model::Direction;
use tree_rows::Table;

/// A node or token and its siblings in a direction, nodes and tokens. A clause sees the cursors
/// that are left.
#[derive(Clone, Drop)]
pub struct SyntaxElementSiblings {
    table: Shared<Table>,
    next: Option<usize>,
    direction: Direction,
}

impl Model for SyntaxElementSiblings {
    ghost use Rattle.std.specs.Prelude.{List, IfSome};
    ghost use Rattle.std.specs.Coded.{coded_list};
    ghost use Rattle.tree_model.specs.Cursor.{Cursor, cursor_code};
    ghost use Rattle.tree_rows.specs.Walks.{siblings_from};
    ghost use Rattle.tree_model.specs.Rows.{IsRow};

    ghost Value = { List Cursor };

    ghost coded = { coded_list cursor_code };

    ghost view = { λ a. siblings_from a.direction a.table.value a.next };

    ghost invariant = { λ a. IfSome a.next (IsRow a.table.value) };
}

impl SyntaxElementSiblings {
    // From a row on, if there is one.
    pub(crate) fn new(table: Shared<Table>, next: Option<usize>, direction: Direction) -> Self
        requires { IfSome next (IsRow table.value) }
        ensures { result ≡ siblings_from direction table.value next }
    {
        SyntaxElementSiblings {
            table,
            next,
            direction,
        }
    }
}

impl Iterator for SyntaxElementSiblings {
    type Item = SyntaxElement;

    ghost next_gives = { YieldsFirst (map element_of) };

    ghost remaining = { item_count (map element_of) };

    fn next(&mut self) -> Option<SyntaxElement> {
        let row = self.next?;
        self.next = self.table.sibling_row(row, self.direction);
        Some(element(&self.table, row))
    }
}

// The first sibling that is not trivia (white space or a comment).
pub(crate) fn first_no_trivia(elements: SyntaxElementSiblings) -> Option<SyntaxElement>
    ensures { result ≡ option_map element_of (find is_no_trivia elements) }
{
    let mut left = elements;
    while let Some(element) = left.next() {
        if !element.is_trivia() {
            return Some(element);
        }
    }
    None
}

/// A node and its sibling nodes in a direction. A clause sees the cursors that are left.
#[derive(Clone, Drop)]
pub struct SyntaxNodeSiblings {
    elements: SyntaxElementSiblings,
}

impl Model for SyntaxNodeSiblings {
    ghost use Rattle.std.specs.Prelude.{List};
    ghost use Rattle.std.specs.List.{filter};
    ghost use Rattle.std.specs.Coded.{coded_list};
    ghost use Rattle.tree_model.specs.Cursor.{Cursor, cursor_code, at_node};

    ghost Value = { List Cursor };

    ghost coded = { coded_list cursor_code };

    ghost view = { λ a. filter at_node a.elements };
}

impl SyntaxNodeSiblings {
    pub(crate) fn new(elements: SyntaxElementSiblings) -> Self
        ensures { result ≡ filter at_node elements }
    {
        SyntaxNodeSiblings { elements }
    }
}

impl Iterator for SyntaxNodeSiblings {
    type Item = SyntaxNode;

    ghost next_gives = { YieldsFirst (λ left. left) };

    ghost remaining = { item_count (λ left. left) };

    fn next(&mut self) -> Option<SyntaxNode> {
        self.elements.find_map(NodeOrToken::into_node)
    }
}
