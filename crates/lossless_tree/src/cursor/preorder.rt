//! The walk that enters and leaves each node and token of a subtree.
ghost use Rattle.std.specs.Prelude.{◌≡◌, map};
ghost use Rattle.std.specs.List.{filter};
ghost use Rattle.std.specs.Iterator.{YieldsFirst, item_count};
ghost use Rattle.tree_model.specs.Rows.{IsRow};
ghost use Rattle.tree_model.specs.Cursor.{walk_of, cursor_at, moves_at_node};
ghost use Rattle.tree_rows.specs.Walks.{walk_left, IsWalk, MovesLevel};
ghost use Rattle.lossless_tree.specs.WalkEvent.{walk_event, node_event, event_of_node};
ghost use Rattle.lossless_tree.specs.Skip.{from_leave, IsAtNode};

use super::element::{NodeOrToken, SyntaxElement, element};
use super::node::SyntaxNode;
use shared_pointer::Shared;
use std::marker::Model;
use tree_rows::Table;

/// A step of a walk, which enters an element, walks its children, and leaves it.
#[derive(Clone, PartialEq, Eq, Hash, Drop)]
pub enum WalkEvent<T> {
    /// Entered, before its descendants.
    Enter(T),
    /// Left, after its descendants.
    Leave(T),
}

/// The walk of a subtree. A clause sees the steps that are left: cursors that are entered (true) or
/// left (false).
#[derive(Clone, Drop)]
pub struct PreorderWithTokens {
    table: Shared<Table>,
    start: usize,
    next: usize,
    innermost: Option<usize>,
}

impl Model for PreorderWithTokens {
    ghost use Rattle.std.specs.Prelude.{List, Bool};
    ghost use Rattle.std.specs.Coded.{coded_list, coded×, coded_bool};
    ghost use Rattle.tree_model.specs.Cursor.{Cursor, cursor_code};
    ghost use Rattle.tree_rows.specs.Walks.{walk_left, IsWalk};

    ghost Value = { List (Bool × Cursor) };

    ghost coded = { coded_list (coded× coded_bool cursor_code) };

    ghost view = { λ a. walk_left a.table.value a.start a.next a.innermost };

    ghost invariant = { λ a. IsWalk a.table.value a.start a.next a.innermost };
}

impl PreorderWithTokens {
    pub(crate) fn new(table: Shared<Table>, row: usize) -> Self
        requires { IsRow table.value row }
        ensures { result ≡ walk_of (cursor_at table.value row) }
    {
        PreorderWithTokens {
            table,
            start: row,
            next: row,
            innermost: None,
        }
    }

    /// Passes over what is left of the innermost element that is entered and not left: the next
    /// step leaves it.
    ///
    /// So after the step that enters a node its children are passed over, and after the step that
    /// leaves an element its later siblings. Before the first step, all of the walk is passed over.
    /// Takes constant time.
    pub fn skip_subtree(&mut self)
        ensures { self.new ≡ from_leave 0 self.old }
    {
        let row = self.innermost.unwrap_or(self.start);
        self.next = self.table.row_behind(row);
    }
}

impl Iterator for PreorderWithTokens {
    type Item = WalkEvent<SyntaxElement>;

    ghost next_gives = { YieldsFirst (map walk_event) };

    ghost remaining = { item_count (map walk_event) };

    fn next(&mut self) -> Option<WalkEvent<SyntaxElement>> {
        let step = self.table.walk_step(self.start, self.next, self.innermost)?;
        self.next = step.next;
        self.innermost = step.innermost;
        let element = element(&self.table, step.row);
        if step.enters {
            Some(WalkEvent::Enter(element))
        } else {
            Some(WalkEvent::Leave(element))
        }
    }
}

/// The walk of the nodes of a subtree. A clause sees the steps that are left: cursors that are
/// entered (true) or left (false).
#[derive(Clone, Drop)]
pub struct Preorder {
    events: PreorderWithTokens,
}

impl Model for Preorder {
    ghost use Rattle.std.specs.Prelude.{List, Bool};
    ghost use Rattle.std.specs.List.{filter};
    ghost use Rattle.std.specs.Coded.{coded_list, coded×, coded_bool};
    ghost use Rattle.tree_model.specs.Cursor.{Cursor, cursor_code, moves_at_node};
    ghost use Rattle.lossless_tree.specs.Skip.{IsAtNode};

    ghost Value = { List (Bool × Cursor) };

    ghost coded = { coded_list (coded× coded_bool cursor_code) };

    ghost view = { λ a. filter moves_at_node a.events };

    ghost invariant = { λ a. IsAtNode a.events };
}

impl Preorder {
    pub(crate) fn new(events: PreorderWithTokens) -> Self
        requires { IsAtNode events }
        ensures { result ≡ filter moves_at_node events }
    {
        Preorder { events }
    }

    /// Passes over what is left of the innermost node that is entered and not left: the next step
    /// leaves it.
    ///
    /// So after the step that enters a node its child nodes are passed over, and after the step
    /// that leaves a node its later siblings. Before the first step, all of the walk is passed
    /// over. Takes constant time.
    pub fn skip_subtree(&mut self)
        ensures { self.new ≡ from_leave 0 self.old }
    {
        self.events.skip_subtree();
    }
}

// The event at its node, if it is at one.
fn event_of_node(event: WalkEvent<SyntaxElement>) -> Option<WalkEvent<SyntaxNode>>
    ensures { result ≡ event_of_node event }
{
    match event {
        WalkEvent::Enter(NodeOrToken::Node(node)) => Some(WalkEvent::Enter(node)),
        WalkEvent::Leave(NodeOrToken::Node(node)) => Some(WalkEvent::Leave(node)),
        _token => None,
    }
}

impl Iterator for Preorder {
    type Item = WalkEvent<SyntaxNode>;

    ghost next_gives = { YieldsFirst (map node_event) };

    ghost remaining = { item_count (map node_event) };

    fn next(&mut self) -> Option<WalkEvent<SyntaxNode>> {
        self.events.find_map(event_of_node)
    }
}
