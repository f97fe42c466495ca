//! Tokens.
ghost use Rattle.std.specs.Prelude.{◌≡◌, option_map, IfOk, string_bytes, ◌↔◌, ◌≤◌, ◌^◌, length, IsErrOf};
ghost use Rattle.tree_model.specs.Tree.{text, kind_of, token, IsToken};
ghost use Rattle.tree_model.specs.Cursor.{focus, range_of, parent_of, ancestors_from, next_sibling_of, prev_sibling_of, following_of, siblings_in, all_tokens, IsRightBehind, IsRightBefore};
ghost use Rattle.tree_model.specs.declared.error.ReplaceError.TheVariants.{TooLong};
ghost use Rattle.tree_model.specs.Edit.{replace, root_of};
ghost use Rattle.tree_model.specs.Placed.{IsPlaced};
ghost use Rattle.std.specs.List.{find};
ghost use Rattle.tree_model.specs.NearestToken.{tokens_beyond, is_no_trivia};
ghost use Rattle.tree_model.specs.declared.direction.Direction.TheVariants.{Next, Prev};
ghost use Rattle.lossless_tree.specs.Element.{element_of};
ghost use Rattle.lossless_tree.specs.Dump.{dump_of};

use super::ancestors::Ancestors;
use super::element::SyntaxElement;
use super::node::SyntaxNode;
use super::siblings::SyntaxElementSiblings;
use super::tree_cursor::TreeCursor;
use shared_pointer::Shared;
use std::alloc::{AllocError, Global};
use std::hash::{Hash, Hasher};
use std::marker::Model;
use syntax_kind::SyntaxKind;
use text_size::TextRange;
use tree_model::{Direction, ReplaceError};
use tree_rows::Table;

/// A token of a tree: a cursor, which shares the whole tree with every other cursor of it.
///
/// Cloning one takes no memory and always succeeds. A clause sees the whole tree and the token's
/// place in it.
#[derive(Drop)]
pub struct SyntaxToken {
    table: Shared<Table>,
    row: usize,
}

impl Model for SyntaxToken {
    ghost use Rattle.tree_model.specs.Cursor.{Cursor, cursor_code};

    ghost Value = { Cursor };

    ghost coded = { cursor_code };

    ghost use Rattle.tree_model.specs.Tree.{IsToken};
    ghost use Rattle.tree_model.specs.Rows.{place_at, tree_at, IsRow};

    ghost view = { λ a. record { tree = a.table.value; place = place_at a.table.value a.row } };

    ghost invariant = { λ a. IsRow a.table.value a.row × IsToken (tree_at a.table.value a.row) };
}

impl SyntaxToken {
    ghost use Rattle.std.specs.Prelude.{◌≡◌};
    ghost use Rattle.tree_model.specs.Tree.{IsToken};
    ghost use Rattle.tree_model.specs.Rows.{IsRow, tree_at};
    ghost use Rattle.tree_model.specs.Cursor.{cursor_at};

    // The token at a row.
    pub(crate) fn at(table: Shared<Table>, row: usize) -> SyntaxToken
        requires is_row { IsRow table.value row }
        requires is_token { IsToken (tree_at table.value row) }
        ensures { result ≡ cursor_at table.value row }
    {
        SyntaxToken { table, row }
    }

    /// The table of the whole tree, for crates that work on its rows.
    pub fn table(&self) -> &Shared<Table>
        ensures { result.now.value ≡ self.now.tree }
    {
        &self.table
    }

    /// The row of the token in [`SyntaxToken::table`]: its number in a preorder walk of the whole
    /// tree, from 0 for the root.
    pub fn row(&self) -> usize
        ensures is_row { IsRow self.now.tree result }
        ensures place { cursor_at self.now.tree result ≡ self.now }
    {
        self.row
    }

    // What a node and a token have in common, borrowed.
    pub(crate) fn cursor(&self) -> TreeCursor<'_>
        ensures place { result ≡ self.now }
        ensures token { IsToken (focus self.now) }
    {
        TreeCursor::at(&self.table, self.row)
    }
}

impl SyntaxToken {
    /// The root of a new tree: this token's whole tree with a token of the kind and the text `new`
    /// in place of this one. The old tree stays as it was.
    ///
    /// It takes time and memory linear in the whole text and the new one. The nodes and tokens are
    /// shared with the old tree if `kind` is the token's kind and no other token of the old tree
    /// was replaced before; otherwise they are copied.
    pub fn replace_with(
        &self,
        alloc: Global,
        kind: SyntaxKind,
        new: &str,
    ) -> Result<SyntaxNode, ReplaceError>
        ensures ok { IfOk result
            (λ root. root ≡ root_of (replace self.now.tree self.now.place (token kind new.now))) }
        ensures too_long { IsErrOf result TooLong
            ↔ (2 ^ 32 ≤ length (text (replace self.now.tree self.now.place (token kind new.now)))) }
    {
        let table = self.table.with_token(alloc, self.row, kind, new)?;
        Ok(SyntaxNode::root(alloc, table)?)
    }
}

impl SyntaxToken {
    /// A law: the place of the token is in its tree, and has a token. The function does nothing;
    /// other crates call it for these facts.
    pub fn placed(&self)
        ensures placed { IsPlaced self.now }
        ensures token { IsToken (focus self.now) }
    {
        self.cursor().placed()
    }
}

impl SyntaxToken {
    /// The token's kind.
    pub fn kind(&self) -> SyntaxKind
        ensures { result ≡ kind_of (focus self.now) }
    {
        self.cursor().kind()
    }

    /// The range of the token's text in the whole tree's text, in bytes. A token without text has
    /// an empty range.
    pub fn text_range(&self) -> TextRange
        ensures { result ≡ range_of self.now }
    {
        self.cursor().text_range()
    }

    /// The token's text, a slice of the tree's one text.
    pub fn text(&self) -> &str
        ensures { result.now ≡ text (focus self.now) }
    {
        self.cursor().text()
    }

    /// The node that this token is a child of. It is never `None`, since the root of a tree is a
    /// node. It takes constant time.
    pub fn parent(&self) -> Option<SyntaxNode>
        ensures { result ≡ parent_of self.now }
    {
        self.cursor().parent()
    }

    /// What follows this token in its parent, node or token; `None` for the last child.
    pub fn next_sibling_or_token(&self) -> Option<SyntaxElement>
        ensures { result ≡ option_map element_of (next_sibling_of self.now) }
    {
        self.cursor().next_sibling_or_token()
    }

    /// The nodes above this token, the nearest first, up to the root.
    pub fn parent_ancestors(&self) -> Ancestors
        ensures { result ≡ ancestors_from (parent_of self.now) }
    {
        Ancestors::from_parent(self.parent())
    }

    /// What comes before this token in its parent, node or token; `None` for the first child. It
    /// climbs from the row before, so it takes time linear in the depth there.
    pub fn prev_sibling_or_token(&self) -> Option<SyntaxElement>
        ensures { result ≡ option_map element_of (prev_sibling_of self.now) }
    {
        self.cursor().prev_sibling_or_token()
    }

    /// The nearest later sibling, node or token, that is not trivia (white space or a comment), or
    /// `None` if there is none. It passes over the trivia between.
    pub fn next_no_trivia(&self) -> Option<SyntaxElement>
        ensures { result ≡ option_map element_of (find is_no_trivia (following_of self.now)) }
    {
        self.cursor().next_no_trivia()
    }

    /// This token and its siblings in a direction, nodes and tokens. A step backwards takes time
    /// linear in the depth of the sibling before.
    pub fn siblings_with_tokens(&self, direction: Direction) -> SyntaxElementSiblings
        ensures { result ≡ siblings_in direction self.now }
    {
        self.cursor().siblings_with_tokens(direction)
    }

    /// The token right after this one in the whole tree; `None` for the last. Takes time linear in
    /// the number of nodes between.
    pub fn next_token(&self) -> Option<SyntaxToken>
        ensures { IsRightBehind (all_tokens self.now) self.now result }
    {
        let row = self.table.next_token_row(self.row)?;
        Some(SyntaxToken::at(self.table.share(), row))
    }

    /// The token right before this one in the whole tree; `None` for the first. Takes time linear
    /// in the number of nodes between.
    pub fn prev_token(&self) -> Option<SyntaxToken>
        ensures { IsRightBefore (all_tokens self.now) self.now result }
    {
        let row = self.table.prev_token_row(self.row)?;
        Some(SyntaxToken::at(self.table.share(), row))
    }

    /// The nearest token after this one in the whole tree that is not trivia (white space or a
    /// comment), or `None` if there is none. Takes time linear in the nodes and tokens that it
    /// passes.
    pub fn next_token_no_trivia(&self) -> Option<SyntaxToken>
        ensures { result ≡ find is_no_trivia (tokens_beyond Next self.now) }
    {
        let row = self.table.next_no_trivia_token_row(self.row)?;
        Some(SyntaxToken::at(self.table.share(), row))
    }

    /// The nearest token before this one in the whole tree that is not trivia (white space or a
    /// comment), or `None` if there is none. Takes time linear in the nodes and tokens that it
    /// passes.
    pub fn prev_token_no_trivia(&self) -> Option<SyntaxToken>
        ensures { result ≡ find is_no_trivia (tokens_beyond Prev self.now) }
    {
        let row = self.table.prev_no_trivia_token_row(self.row)?;
        Some(SyntaxToken::at(self.table.share(), row))
    }

    /// The token's one line, as in the dump of a tree around it.
    pub fn dump(&self, alloc: Global) -> Result<String, AllocError>
        ensures { IfOk result (λ text. string_bytes text ≡ dump_of self.now) }
    {
        self.cursor().dump(alloc)
    }
}

impl Clone for SyntaxToken {
    ghost use Rattle.std.specs.Prelude.{◌≡◌, ⊤};

    ghost is_clone = { λ s copy. copy ≡ s };

    ghost is_infallible = { λ _. ⊤ };

    fn clone(&self) -> Result<SyntaxToken, AllocError> {
        Ok(SyntaxToken {
            table: self.table.share(),
            row: self.row,
        })
    }
}

/// Equal where both are at the same place in equal trees. Takes constant time for cursors of one
/// tree.
impl PartialEq for SyntaxToken {
    ghost use Rattle.tree_model.specs.Equality.{is_same_cursor};
    ghost use Rattle.tree_model.specs.EqualityLaws.{cursor_equivalence};
    ghost use Rattle.std.specs.Cmp.{partial_equiv_from_equiv};

    ghost eq = { is_same_cursor };

    ghost laws = { partial_equiv_from_equiv cursor_equivalence };

    fn eq(&self, other: &SyntaxToken) -> bool {
        self.cursor() == other.cursor()
    }
}

impl Eq for SyntaxToken {
    ghost use Rattle.tree_model.specs.EqualityLaws.{cursor_equivalence};

    ghost laws = { cursor_equivalence };
}

/// Equal cursors hash alike. It takes constant time.
impl Hash for SyntaxToken {
    ghost use Rattle.tree_model.specs.Equality.{cursor_hash};
    ghost use Rattle.tree_model.specs.EqualityLaws.{cursors_alike};

    ghost hash_input = { cursor_hash };

    ghost respects_eq = { cursors_alike };

    fn hash<H: Hasher>(&self, state: &mut H) {
        self.cursor().hash(state);
    }
}
