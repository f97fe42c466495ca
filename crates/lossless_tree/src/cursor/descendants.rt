//! Every node and token of a subtree, and every node, in preorder.
ghost use Rattle.std.specs.Prelude.{◌≡◌, ◌-◌, map};
ghost use Rattle.std.specs.List.{filter, find};
ghost use Rattle.std.specs.Iterator.{YieldsFirst, item_count};
ghost use Rattle.tree_model.specs.Rows.{IsRow, EndsWithin};
ghost use Rattle.tree_model.specs.Cursor.{descendants_of, cursor_at, cursors_from, at_node};
ghost use Rattle.tree_rows.specs.KindSearch.{is_among, first_node_among, after_first};
ghost use Rattle.lossless_tree.specs.Element.{element_of};

use super::element::{NodeOrToken, SyntaxElement, element};
use super::node::SyntaxNode;
use shared_pointer::Shared;
use std::marker::Model;
use tree_rows::{KindSet, Table};

/// The nodes and tokens of a subtree in preorder, itself first. A clause sees the cursors that are
/// left.
#[derive(Clone, Drop)]
pub struct DescendantsWithTokens {
    table: Shared<Table>,
    next: usize,
    end: usize,
}

impl Model for DescendantsWithTokens {
    ghost use Rattle.std.specs.Prelude.{List, ◌-◌};
    ghost use Rattle.std.specs.Coded.{coded_list};
    ghost use Rattle.tree_model.specs.Cursor.{Cursor, cursor_code, cursors_from};
    ghost use Rattle.tree_model.specs.Rows.{EndsWithin};

    ghost Value = { List Cursor };

    ghost coded = { coded_list cursor_code };

    ghost view = { λ a. cursors_from a.table.value a.next (a.end - a.next) };

    ghost invariant = { λ a. EndsWithin a.table.value a.end };
}

impl DescendantsWithTokens {
    pub(crate) fn new(table: Shared<Table>, row: usize) -> Self
        requires { IsRow table.value row }
        ensures { result ≡ descendants_of (cursor_at table.value row) }
    {
        let end = table.row_behind(row);
        DescendantsWithTokens {
            table,
            next: row,
            end,
        }
    }

    // The rows from one on, up to another.
    pub(crate) fn among(table: Shared<Table>, from: usize, to: usize) -> Self
        requires { EndsWithin table.value to }
        ensures { result ≡ cursors_from table.value from (to - from) }
    {
        DescendantsWithTokens {
            table,
            next: from,
            end: to,
        }
    }

    // The next node with a kind of the set; what comes before it is passed, and all where there is
    // none.
    fn next_node_among<K: KindSet>(&mut self) -> Option<SyntaxNode>
        ensures found { result ≡ first_node_among K.kinds self.old }
        ensures left { filter at_node self.new
            ≡ after_first (is_among K.kinds) (filter at_node self.old) }
    {
        let end = self.end;
        match self.table.first_node_among::<K>(self.next, end) {
            Some(row) => {
                self.next = self.table.next_row(row);
                Some(SyntaxNode::at(self.table.share(), row))
            }
            None => {
                self.next = end;
                None
            }
        }
    }
}

impl Iterator for DescendantsWithTokens {
    type Item = SyntaxElement;

    ghost next_gives = { YieldsFirst (map element_of) };

    ghost remaining = { item_count (map element_of) };

    fn next(&mut self) -> Option<SyntaxElement> {
        let row = self.next;
        if row < self.end {
            self.next = self.table.next_row(row);
            Some(element(&self.table, row))
        } else {
            None
        }
    }
}

/// The nodes of a subtree in preorder, itself first. A clause sees the cursors that are left.
#[derive(Clone, Drop)]
pub struct Descendants {
    elements: DescendantsWithTokens,
}

impl Model for Descendants {
    ghost use Rattle.std.specs.Prelude.{List};
    ghost use Rattle.std.specs.List.{filter};
    ghost use Rattle.std.specs.Coded.{coded_list};
    ghost use Rattle.tree_model.specs.Cursor.{Cursor, cursor_code, at_node};

    ghost Value = { List Cursor };

    ghost coded = { coded_list cursor_code };

    ghost view = { λ a. filter at_node a.elements };
}

impl Descendants {
    pub(crate) fn new(elements: DescendantsWithTokens) -> Self
        ensures { result ≡ filter at_node elements }
    {
        Descendants { elements }
    }

    /// The next node with a kind of the set; the nodes before it are passed. `None` if there is
    /// none, and then all are.
    ///
    /// It reads the rows that it passes, and makes no cursor for them, so a walk over nodes of a
    /// few kinds takes a fraction of the time of one over all nodes.
    pub fn next_of<K: KindSet>(&mut self) -> Option<SyntaxNode>
        ensures found { result ≡ find (is_among K.kinds) self.old }
        ensures left { self.new ≡ after_first (is_among K.kinds) self.old }
    {
        self.elements.next_node_among::<K>()
    }
}

impl Iterator for Descendants {
    type Item = SyntaxNode;

    ghost next_gives = { YieldsFirst (λ left. left) };

    ghost remaining = { item_count (λ left. left) };

    fn next(&mut self) -> Option<SyntaxNode> {
        self.elements.find_map(NodeOrToken::into_node)
    }
}
