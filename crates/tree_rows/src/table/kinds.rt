//! Searches of rows by kind. They read rows, and make no cursor.
ghost use Rattle.std.specs.Prelude.{◌≡◌, ◌<◌, ◌≤◌, option_map, IfSome};
ghost use Rattle.tree_model.specs.Tree.{size};
ghost use Rattle.tree_model.specs.Cursor.{cursor_at};
ghost use Rattle.tree_rows.specs.KindSearch.{only, is_node_among, is_token_among, first_node_among, first_token_among, has_token_in};
ghost use Rattle.tree_rows.specs.RowKinds.{IsFirstNodeAmong};
ghost use Rattle.tree_rows.specs.RowSearch.{IsNodeRow, IsTokenRow};
ghost use Rattle.tree_rows.specs.Walks.{siblings_left, HaveParentEnd};

use super::Table;
use crate::kind_set::KindSet;
use syntax_kind::SyntaxKind;

impl Table {
    // Whether row `n` is a node, or a token, with a kind of the set; whether it is one of a kind.
    fn is_node_among<K: KindSet>(&self, n: usize) -> bool
        requires { n < size self.now }
        ensures { result ≡ is_node_among K.kinds (cursor_at self.now n) }
    {
        // Of a token the kind is not looked up: a walk passes over more tokens than nodes.
        if self.row(n).is_token {
            return false;
        }
        K::has(self.row(n).kind)
    }

    fn is_token_among<K: KindSet>(&self, n: usize) -> bool
        requires { n < size self.now }
        ensures { result ≡ is_token_among K.kinds (cursor_at self.now n) }
    {
        let row = self.row(n);
        row.is_token && K::has(row.kind)
    }

    fn is_node_of(&self, n: usize, kind: SyntaxKind) -> bool
        requires { n < size self.now }
        ensures { result ≡ is_node_among (only kind) (cursor_at self.now n) }
    {
        let row = self.row(n);
        !row.is_token && row.kind.to_raw() == kind.to_raw()
    }

    fn is_token_of(&self, n: usize, kind: SyntaxKind) -> bool
        requires { n < size self.now }
        ensures { result ≡ is_token_among (only kind) (cursor_at self.now n) }
    {
        let row = self.row(n);
        row.is_token && row.kind.to_raw() == kind.to_raw()
    }

    /// The first of the rows `from..to` that is a node with a kind of the set.
    pub fn first_node_among<K: KindSet>(&self, from: usize, to: usize) -> Option<usize>
        requires { to ≤ size self.now }
        ensures found { IsFirstNodeAmong K.kinds self.now from to result }
        ensures node { IfSome result (IsNodeRow self.now) }
    {
        for n in from..to {
            if self.is_node_among::<K>(n) {
                return Some(n);
            }
        }
        None
    }

    /// The first of row `next` and its later siblings that is a node with a kind of the set, where
    /// their parent's rows end before `stop`. It steps over the rows below each of them.
    pub fn child_node_among<K: KindSet>(&self, next: usize, stop: usize) -> Option<usize>
        requires { HaveParentEnd self.now next stop }
        ensures found { option_map (cursor_at self.now) result
            ≡ first_node_among K.kinds (siblings_left self.now next stop) }
        ensures node { IfSome result (IsNodeRow self.now) }
    {
        let mut n = next;
        while n < stop {
            if self.is_node_among::<K>(n) {
                return Some(n);
            }
            n = self.row_behind(n);
        }
        None
    }

    /// The first of these that is a token with a kind of the set.
    pub fn child_token_among<K: KindSet>(&self, next: usize, stop: usize) -> Option<usize>
        requires { HaveParentEnd self.now next stop }
        ensures found { option_map (cursor_at self.now) result
            ≡ first_token_among K.kinds (siblings_left self.now next stop) }
        ensures token { IfSome result (IsTokenRow self.now) }
    {
        let mut n = next;
        while n < stop {
            if self.is_token_among::<K>(n) {
                return Some(n);
            }
            n = self.row_behind(n);
        }
        None
    }

    /// The first of these that is a node of a kind.
    pub fn child_node_of(&self, next: usize, stop: usize, kind: SyntaxKind) -> Option<usize>
        requires { HaveParentEnd self.now next stop }
        ensures found { option_map (cursor_at self.now) result
            ≡ first_node_among (only kind) (siblings_left self.now next stop) }
        ensures node { IfSome result (IsNodeRow self.now) }
    {
        let mut n = next;
        while n < stop {
            if self.is_node_of(n, kind) {
                return Some(n);
            }
            n = self.row_behind(n);
        }
        None
    }

    /// The first of these that is a token of a kind.
    pub fn child_token_of(&self, next: usize, stop: usize, kind: SyntaxKind) -> Option<usize>
        requires { HaveParentEnd self.now next stop }
        ensures found { option_map (cursor_at self.now) result
            ≡ first_token_among (only kind) (siblings_left self.now next stop) }
        ensures token { IfSome result (IsTokenRow self.now) }
    {
        let mut n = next;
        while n < stop {
            if self.is_token_of(n, kind) {
                return Some(n);
            }
            n = self.row_behind(n);
        }
        None
    }

    /// Whether the first of these that is a node of a kind has a child token with a kind of the
    /// set.
    pub fn has_token_in_child<K: KindSet>(&self, next: usize, stop: usize, kind: SyntaxKind) -> bool
        requires { HaveParentEnd self.now next stop }
        ensures { result
            ≡ has_token_in (first_node_among (only kind) (siblings_left self.now next stop))
            K.kinds }
    {
        match self.child_node_of(next, stop, kind) {
            Some(child) => {
                let (first, behind) = self.rows_below(child);
                self.child_token_among::<K>(first, behind).is_some()
            }
            None => false,
        }
    }
}
