//! The children of a node.
ghost use Rattle.std.specs.Prelude.{◌≡◌, map};
ghost use Rattle.std.specs.Iterator.{YieldsFirst, item_count};
ghost use Rattle.tree_model.specs.Rows.{IsRow};
ghost use Rattle.tree_model.specs.Cursor.{children_of, at_node, cursor_at};
ghost use Rattle.tree_rows.specs.KindSearch.{first_node_among, first_token_among};
ghost use Rattle.lossless_tree.specs.Element.{element_of};

use super::element::{NodeOrToken, SyntaxElement, element};
use super::node::SyntaxNode;
use super::token::SyntaxToken;
use shared_pointer::Shared;
use std::marker::Model;
use tree_rows::{KindSet, Table};

/// The children of a node, nodes and tokens, in order. A clause sees the cursors that are left.
#[derive(Clone, Drop)]
pub struct SyntaxElementChildren {
    table: Shared<Table>,
    next: usize,
    end: usize,
}

impl Model for SyntaxElementChildren {
    ghost use Rattle.std.specs.Prelude.{List};
    ghost use Rattle.std.specs.Coded.{coded_list};
    ghost use Rattle.tree_model.specs.Cursor.{Cursor, cursor_code};
    ghost use Rattle.tree_rows.specs.Walks.{siblings_left, HaveParentEnd};

    ghost Value = { List Cursor };

    ghost coded = { coded_list cursor_code };

    ghost view = { λ a. siblings_left a.table.value a.next a.end };

    ghost invariant = { λ a. HaveParentEnd a.table.value a.next a.end };
}

impl SyntaxElementChildren {
    pub(crate) fn new(table: Shared<Table>, row: usize) -> Self
        requires { IsRow table.value row }
        ensures { result ≡ children_of (cursor_at table.value row) }
    {
        let (next, end) = table.rows_below(row);
        SyntaxElementChildren { table, next, end }
    }

    /// The first of the children left that is a node with a kind of the set, or `None` if there is
    /// none. All stay left.
    ///
    /// It makes no cursor for those before it, and takes time linear in their number.
    pub fn node_among<K: KindSet>(&self) -> Option<SyntaxNode>
        ensures { result ≡ first_node_among K.kinds self.now }
    {
        let row = self.table.child_node_among::<K>(self.next, self.end)?;
        Some(SyntaxNode::at(self.table.share(), row))
    }

    /// The first of the children left that is a token with a kind of the set, or `None` if there is
    /// none. All stay left.
    ///
    /// It makes no cursor for those before it, and takes time linear in their number.
    pub fn token_among<K: KindSet>(&self) -> Option<SyntaxToken>
        ensures { result ≡ first_token_among K.kinds self.now }
    {
        let row = self.table.child_token_among::<K>(self.next, self.end)?;
        Some(SyntaxToken::at(self.table.share(), row))
    }
}

impl Iterator for SyntaxElementChildren {
    type Item = SyntaxElement;

    ghost next_gives = { YieldsFirst (map element_of) };

    ghost remaining = { item_count (map element_of) };

    fn next(&mut self) -> Option<SyntaxElement> {
        let row = self.next;
        if row < self.end {
            self.next = self.table.row_behind(row);
            Some(element(&self.table, row))
        } else {
            None
        }
    }
}

/// The child nodes of a node, in order. A clause sees the cursors that are left.
#[derive(Clone, Drop)]
pub struct SyntaxNodeChildren {
    elements: SyntaxElementChildren,
}

impl Model for SyntaxNodeChildren {
    ghost use Rattle.std.specs.Prelude.{List};
    ghost use Rattle.std.specs.List.{filter};
    ghost use Rattle.std.specs.Coded.{coded_list};
    ghost use Rattle.tree_model.specs.Cursor.{Cursor, cursor_code, at_node};

    ghost Value = { List Cursor };

    ghost coded = { coded_list cursor_code };

    ghost view = { λ a. filter at_node a.elements };
}

impl SyntaxNodeChildren {
    ghost use Rattle.std.specs.List.{filter};

    pub(crate) fn new(elements: SyntaxElementChildren) -> Self
        ensures { result ≡ filter at_node elements }
    {
        SyntaxNodeChildren { elements }
    }
}

impl Iterator for SyntaxNodeChildren {
    type Item = SyntaxNode;

    ghost next_gives = { YieldsFirst (λ left. left) };

    ghost remaining = { item_count (λ left. left) };

    #[inline]
    fn next(&mut self) -> Option<SyntaxNode> {
        self.elements.find_map(NodeOrToken::into_node)
    }
}
