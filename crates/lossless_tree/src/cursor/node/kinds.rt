//! Children by their kinds. These calls read the rows of the children, and make a cursor for the
//! result alone.
ghost use Rattle.std.specs.Prelude.{◌≡◌};
ghost use Rattle.tree_model.specs.Cursor.{children_of};
ghost use Rattle.tree_rows.specs.KindSearch.{only, first_node_among, first_token_among, has_token_in};
ghost use Rattle.tree_rows.specs.Walks.{siblings_left, HaveParentEnd};

use super::SyntaxNode;
use crate::cursor::token::SyntaxToken;
use syntax_kind::SyntaxKind;
use tree_rows::KindSet;

impl SyntaxNode {
    // The row of the first child, and the row after the last one's subtree; the same row twice if
    // there is no child.
    fn child_rows(&self) -> (usize, usize)
        ensures have_end { HaveParentEnd self.now.tree result.0 result.1 }
        ensures left { siblings_left self.now.tree result.0 result.1 ≡ children_of self.now }
    {
        self.table.rows_below(self.row)
    }

    /// The first child node with a kind of the set, or `None` if there is none.
    ///
    /// Takes time linear in the number of children before it, whatever these contain.
    pub fn child_among<K: KindSet>(&self) -> Option<SyntaxNode>
        ensures { result ≡ first_node_among K.kinds (children_of self.now) }
    {
        let (next, stop) = self.child_rows();
        let row = self.table.child_node_among::<K>(next, stop)?;
        Some(SyntaxNode::at(self.table.share(), row))
    }

    /// The first child token with a kind of the set, or `None` if there is none.
    ///
    /// Takes time linear in the number of children before it, whatever these contain.
    pub fn token_among<K: KindSet>(&self) -> Option<SyntaxToken>
        ensures { result ≡ first_token_among K.kinds (children_of self.now) }
    {
        let (next, stop) = self.child_rows();
        let row = self.table.child_token_among::<K>(next, stop)?;
        Some(SyntaxToken::at(self.table.share(), row))
    }

    /// The first child node of a kind, or `None` if there is none.
    ///
    /// Takes time linear in the number of children before it, whatever these contain.
    pub fn child_of_kind(&self, kind: SyntaxKind) -> Option<SyntaxNode>
        ensures { result ≡ first_node_among (only kind) (children_of self.now) }
    {
        let (next, stop) = self.child_rows();
        let row = self.table.child_node_of(next, stop, kind)?;
        Some(SyntaxNode::at(self.table.share(), row))
    }

    /// The first child token of a kind, or `None` if there is none.
    ///
    /// Takes time linear in the number of children before it, whatever these contain.
    pub fn token_of_kind(&self, kind: SyntaxKind) -> Option<SyntaxToken>
        ensures { result ≡ first_token_among (only kind) (children_of self.now) }
    {
        let (next, stop) = self.child_rows();
        let row = self.table.child_token_of(next, stop, kind)?;
        Some(SyntaxToken::at(self.table.share(), row))
    }

    /// Whether the first child node of a kind has a child token with a kind of the set.
    ///
    /// Takes time linear in the number of children before them, whatever these contain.
    pub fn has_token_in_child<K: KindSet>(&self, kind: SyntaxKind) -> bool
        ensures { result
            ≡ has_token_in (first_node_among (only kind) (children_of self.now)) K.kinds }
    {
        let (next, stop) = self.child_rows();
        self.table.has_token_in_child::<K>(next, stop, kind)
    }
}
