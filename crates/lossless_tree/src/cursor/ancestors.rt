//! A node and the nodes above it.
ghost use Rattle.std.specs.Prelude.{◌≡◌};
ghost use Rattle.std.specs.Iterator.{YieldsFirst, item_count};
ghost use Rattle.tree_model.specs.Cursor.{ancestors_of, ancestors_from};

use super::node::SyntaxNode;
use std::marker::Model;

/// A node, its parent, and so on up to the root. A clause sees the cursors that are left.
#[derive(Clone, Drop)]
pub struct Ancestors {
    next: Option<SyntaxNode>,
}

impl Model for Ancestors {
    ghost use Rattle.std.specs.Prelude.{List};
    ghost use Rattle.std.specs.Coded.{coded_list};
    ghost use Rattle.tree_model.specs.Cursor.{Cursor, cursor_code, ancestors_from};

    ghost Value = { List Cursor };

    ghost coded = { coded_list cursor_code };

    ghost view = { λ a. ancestors_from a.next };
}

impl Ancestors {
    pub(crate) fn new(node: SyntaxNode) -> Self
        ensures { result ≡ ancestors_of node }
    {
        Ancestors { next: Some(node) }
    }

    // From a parent on, if there is one.
    pub(crate) fn from_parent(next: Option<SyntaxNode>) -> Self
        ensures { result ≡ ancestors_from next }
    {
        Ancestors { next }
    }
}

impl Iterator for Ancestors {
    type Item = SyntaxNode;

    ghost next_gives = { YieldsFirst (λ left. left) };

    ghost remaining = { item_count (λ left. left) };

    fn next(&mut self) -> Option<SyntaxNode> {
        let node = self.next.take()?;
        self.next = node.parent();
        Some(node)
    }
}
