//! Nodes.
ghost use Rattle.std.specs.Prelude.{◌≡◌, option_map, IfOk, IfSome, reverse, string_bytes, ◌↔◌, ◌-◌, ◌<◌, ◌≤◌, ◌^◌, length, IsErrOf};
ghost use Rattle.std.specs.List.{filter, find};
ghost use Rattle.tree_model.specs.Tree.{text, size, kind_of, IsNode, forest_of_children};
ghost use Rattle.tree_model.specs.Rows.{IsRow};
ghost use Rattle.tree_model.specs.Cursor.{focus, range_of, parent_of, ancestors_of, children_of, first_child_of, last_child_of, next_sibling_of, prev_sibling_of, following_of, preceding_of, siblings_in, at_node, at_token, cursors_from, descendants_of, walk_of, moves_at_node, range_start};
ghost use Rattle.tree_rows.specs.Walks.{siblings_from};
ghost use Rattle.tree_model.specs.declared.error.ReplaceError.TheVariants.{TooLong};
ghost use Rattle.lossless_tree.specs.Trees.{child_text};
ghost use Rattle.tree_model.specs.NearestToken.{is_no_trivia};
ghost use Rattle.tree_model.specs.Edit.{replace, root_of};
ghost use Rattle.tree_model.specs.Placed.{IsPlaced};
ghost use Rattle.lossless_tree.specs.Element.{element_of};
ghost use Rattle.lossless_tree.specs.Dump.{dump_of};

mod flat;
mod kinds;

use super::ancestors::Ancestors;
use super::children::{SyntaxElementChildren, SyntaxNodeChildren};
use super::descendants::{Descendants, DescendantsWithTokens};
use super::element::{SyntaxElement, element};
use super::preorder::{Preorder, PreorderWithTokens};
use super::siblings::{SyntaxElementSiblings, SyntaxNodeSiblings, first_no_trivia};
use super::text::SyntaxText;
use super::token::SyntaxToken;
use super::token_at_offset::TokenAtOffset;
use super::tree_cursor::TreeCursor;
use crate::dump::Dump;
use crate::siblings_left::SiblingsLeft;
use shared_pointer::Shared;
use std::alloc::{AllocError, Global};
use std::hash::{Hash, Hasher};
use std::marker::Model;
use syntax_kind::SyntaxKind;
use text_size::{TextRange, TextSize};
use tree_model::{Direction, ReplaceError};
use tree_rows::Table;

/// A node of a tree: a cursor, which shares the whole tree with every other cursor of it.
///
/// Cloning one takes no memory and always succeeds. A clause sees the whole tree and the node's
/// place in it.
#[derive(Drop)]
pub struct SyntaxNode {
    table: Shared<Table>,
    row: usize,
}

impl Model for SyntaxNode {
    ghost use Rattle.tree_model.specs.Cursor.{Cursor, cursor_code};

    ghost Value = { Cursor };

    ghost coded = { cursor_code };

    ghost use Rattle.tree_model.specs.Tree.{IsNode};
    ghost use Rattle.tree_model.specs.Rows.{place_at, tree_at, IsRow};

    ghost view = { λ a. record { tree = a.table.value; place = place_at a.table.value a.row } };

    ghost invariant = { λ a. IsRow a.table.value a.row × IsNode (tree_at a.table.value a.row) };
}

impl SyntaxNode {
    ghost use Rattle.std.specs.Prelude.{◌≡◌, IfOk};
    ghost use Rattle.tree_model.specs.Tree.{IsNode};
    ghost use Rattle.tree_model.specs.Rows.{IsRow, tree_at};
    ghost use Rattle.tree_model.specs.Cursor.{cursor_at};
    ghost use Rattle.tree_model.specs.Edit.{root_of};
    ghost use Rattle.std.specs.Prelude.{◌↔◌, ◌≤◌, Option, Some, None, IfSome};
    ghost use Rattle.tree_model.specs.Tree.{size};
    ghost use Rattle.lossless_tree.specs.Element.{element_of};

    // The root of the tree of a table whose first row is a node.
    pub(crate) fn root(alloc: Global, table: Table) -> Result<SyntaxNode, AllocError>
        requires { IsNode table }
        ensures { IfOk result (λ root. root ≡ root_of table) }
    {
        let table = Shared::new(alloc, table)?;
        Ok(SyntaxNode { table, row: 0 })
    }

    // The node at a row.
    pub(crate) fn at(table: Shared<Table>, row: usize) -> SyntaxNode
        requires is_row { IsRow table.value row }
        requires is_node { IsNode (tree_at table.value row) }
        ensures { result ≡ cursor_at table.value row }
    {
        SyntaxNode { table, row }
    }

    /// The table of the whole tree, for crates that work on its rows.
    pub fn table(&self) -> &Shared<Table>
        ensures { result.now.value ≡ self.now.tree }
    {
        &self.table
    }

    /// The root of the tree of a table, or `None` if its first row is a token. For crates that
    /// build tables.
    pub fn of_table(alloc: Global, table: Table) -> Result<Option<SyntaxNode>, AllocError>
        ensures some { IsNode table → IfOk result (λ o. o ≡ Some (root_of table)) }
        ensures none { IfOk result (λ o. o ≡ None → IsNode table → ⊥) }
    {
        if table.is_token_at(0) {
            return Ok(None);
        }
        Ok(Some(SyntaxNode::root(alloc, table)?))
    }

    /// The node or token at a row of [`SyntaxNode::table`], or `None` if it has fewer rows. Takes
    /// constant time.
    pub fn element_at_row(&self, row: usize) -> Option<SyntaxElement>
        ensures some { IfSome result (λ e. e ≡ element_of (cursor_at self.now.tree row)) }
        ensures none { result ≡ None ↔ size self.now.tree ≤ row }
    {
        if row < self.table.len() {
            return Some(element(&self.table, row));
        }
        None
    }

    /// The row of the node in [`SyntaxNode::table`]: its number in a preorder walk of the whole
    /// tree, from 0 for the root.
    pub fn row(&self) -> usize
        ensures is_row { IsRow self.now.tree result }
        ensures place { cursor_at self.now.tree result ≡ self.now }
    {
        self.row
    }

    // What a node and a token have in common, borrowed.
    pub(crate) fn cursor(&self) -> TreeCursor<'_>
        ensures place { result ≡ self.now }
        ensures node { IsNode (focus self.now) }
    {
        TreeCursor::at(&self.table, self.row)
    }
}

impl SyntaxNode {
    /// The root of a new tree that equals this subtree, with a text of its own.
    ///
    /// It takes time and memory linear in the subtree, whatever the whole tree's size.
    pub fn clone_subtree(&self, alloc: Global) -> Result<SyntaxNode, AllocError>
        ensures { IfOk result (λ root. root ≡ root_of (focus self.now)) }
    {
        let table = self.table.subtree(alloc, self.row)?;
        SyntaxNode::root(alloc, table)
    }

    /// The root of a new tree: this node's whole tree with `replacement` in place of this node. The
    /// old tree stays as it was. Where this node is the root, the new tree equals `replacement`.
    ///
    /// It takes time and memory linear in the new tree.
    pub fn replace_with(
        &self,
        alloc: Global,
        replacement: &SyntaxNode,
    ) -> Result<SyntaxNode, ReplaceError>
        ensures ok { IfOk result (λ root. root
            ≡ root_of (replace self.now.tree self.now.place (focus replacement.now))) }
        ensures too_long { IsErrOf result TooLong
            ↔ (2 ^ 32
            ≤ length
            (text (replace self.now.tree self.now.place (focus replacement.now)))) }
    {
        let table = self
            .table
            .with_node(alloc, self.row, &replacement.table, replacement.row)?;
        Ok(SyntaxNode::root(alloc, table)?)
    }
}

impl SyntaxNode {
    /// The node's text as a `SyntaxText`. `as_str` returns the same text as a slice.
    pub fn text(&self) -> SyntaxText<'_>
        ensures { result ≡ text (focus self.now) }
    {
        SyntaxText::of_row(&self.table, self.row)
    }

    /// The node's children as a `SiblingsLeft`, for code that reads whole trees.
    pub fn trees(&self) -> SiblingsLeft<'_>
        ensures { result
            ≡ record { trees = forest_of_children (focus self.now); start = range_start self.now } }
    {
        SiblingsLeft::below(&self.table, self.row)
    }

    /// The text of child number `n`, from 0, if it is a token. Returns `None` if it is a node or if
    /// there is no such child.
    ///
    /// Takes time linear in `n`, whatever the children contain.
    pub fn child_text(&self, n: usize) -> Option<&str>
        ensures { option_map (λ s. s.now) result ≡ child_text (focus self.now) n }
    {
        let mut left = self.trees();
        for _ in 0..n {
            if left.is_done() {
                return None;
            }
            left = left.rest();
        }
        if left.is_token() {
            Some(left.text())
        } else {
            None
        }
    }
}

impl SyntaxNode {
    /// A law: the place of the node is in its tree, and has a node. The function does nothing;
    /// other crates call it for these facts.
    pub fn placed(&self)
        ensures placed { IsPlaced self.now }
        ensures node { IsNode (focus self.now) }
    {
        self.cursor().placed()
    }
}

impl SyntaxNode {
    /// The node's kind.
    pub fn kind(&self) -> SyntaxKind
        ensures { result ≡ kind_of (focus self.now) }
    {
        self.cursor().kind()
    }

    /// The range of the node's text in the whole tree's text, in bytes. A node without text has an
    /// empty range.
    pub fn text_range(&self) -> TextRange
        ensures { result ≡ range_of self.now }
    {
        self.cursor().text_range()
    }

    /// The node's text, a slice of the tree's one text.
    pub fn as_str(&self) -> &str
        ensures { result.now ≡ text (focus self.now) }
    {
        self.cursor().text()
    }

    /// The node that this one is a child of; `None` for the root. It takes constant time.
    pub fn parent(&self) -> Option<SyntaxNode>
        ensures { result ≡ parent_of self.now }
    {
        self.cursor().parent()
    }

    /// This node, its parent, its parent's parent, up to the root.
    pub fn ancestors(&self) -> Ancestors
        ensures { result ≡ ancestors_of self.now }
    {
        Ancestors::new(SyntaxNode::at(self.table.share(), self.row))
    }

    /// The first child, node or token, or `None` if there is none.
    pub fn first_child_or_token(&self) -> Option<SyntaxElement>
        ensures { result ≡ option_map element_of (first_child_of self.now) }
    {
        let row = self.table.first_child_row(self.row)?;
        Some(element(&self.table, row))
    }

    /// What follows this node in its parent, node or token; `None` for the last child and the root.
    pub fn next_sibling_or_token(&self) -> Option<SyntaxElement>
        ensures { result ≡ option_map element_of (next_sibling_of self.now) }
    {
        self.cursor().next_sibling_or_token()
    }

    /// The last child, node or token, or `None` if there is none. It climbs from the subtree's last
    /// row, so it takes time linear in the depth there.
    pub fn last_child_or_token(&self) -> Option<SyntaxElement>
        ensures { result ≡ option_map element_of (last_child_of self.now) }
    {
        let row = self.table.last_child_row(self.row)?;
        Some(element(&self.table, row))
    }

    /// What comes before this node in its parent, node or token; `None` for the first child and the
    /// root.
    ///
    /// Takes time linear in the depth of the previous sibling's subtree. Going back through all
    /// siblings takes time linear in the size of their subtrees.
    pub fn prev_sibling_or_token(&self) -> Option<SyntaxElement>
        ensures { result ≡ option_map element_of (prev_sibling_of self.now) }
    {
        self.cursor().prev_sibling_or_token()
    }

    /// The children, nodes and tokens, in order.
    pub fn children_with_tokens(&self) -> SyntaxElementChildren
        ensures { result ≡ children_of self.now }
    {
        SyntaxElementChildren::new(self.table.share(), self.row)
    }

    /// The child nodes, in order.
    pub fn children(&self) -> SyntaxNodeChildren
        ensures { result ≡ filter at_node (children_of self.now) }
    {
        SyntaxNodeChildren::new(self.children_with_tokens())
    }

    /// The first child node, or `None` if there is none. It passes over the tokens before it.
    pub fn first_child(&self) -> Option<SyntaxNode>
        ensures { result ≡ find at_node (children_of self.now) }
    {
        let mut children = self.children();
        children.next()
    }

    /// The last child node, or `None` if there is none. It passes over the tokens after it, and
    /// takes time linear in the depth of that node and of the sibling before it.
    pub fn last_child(&self) -> Option<SyntaxNode>
        ensures { result ≡ find at_node (reverse (children_of self.now)) }
    {
        let last = self.table.last_child_row(self.row);
        nearest_node(&self.table, last, Direction::Prev)
    }

    /// The nearest sibling node after this one, or `None` if there is none. It passes over the
    /// tokens between.
    pub fn next_sibling(&self) -> Option<SyntaxNode>
        ensures { result ≡ find at_node (following_of self.now) }
    {
        let next = self.table.next_sibling_row(self.row);
        nearest_node(&self.table, next, Direction::Next)
    }

    /// The nearest sibling node before this one, or `None` if there is none. It passes over the
    /// tokens between, and takes time linear in the depth of that node and of the sibling before
    /// it.
    pub fn prev_sibling(&self) -> Option<SyntaxNode>
        ensures { result ≡ find at_node (preceding_of self.now) }
    {
        let prev = self.table.prev_sibling_row(self.row);
        nearest_node(&self.table, prev, Direction::Prev)
    }

    /// The first child, node or token, that is not trivia (white space or a comment), or `None` if
    /// there is none. It passes over the trivia before it.
    pub fn first_child_no_trivia(&self) -> Option<SyntaxElement>
        ensures { result ≡ option_map element_of (find is_no_trivia (children_of self.now)) }
    {
        let first = self.table.first_child_row(self.row);
        first_no_trivia(SyntaxElementSiblings::new(self.table.share(), first, Direction::Next))
    }

    /// The nearest later sibling, node or token, that is not trivia (white space or a comment), or
    /// `None` if there is none. It passes over the trivia between.
    pub fn next_no_trivia(&self) -> Option<SyntaxElement>
        ensures { result ≡ option_map element_of (find is_no_trivia (following_of self.now)) }
    {
        self.cursor().next_no_trivia()
    }

    /// This node and its siblings in a direction, nodes and tokens. A step backwards takes time
    /// linear in the depth of the sibling before.
    pub fn siblings_with_tokens(&self, direction: Direction) -> SyntaxElementSiblings
        ensures { result ≡ siblings_in direction self.now }
    {
        self.cursor().siblings_with_tokens(direction)
    }

    /// This node and its sibling nodes in a direction. A step backwards takes time linear in the
    /// depth of the siblings before.
    pub fn siblings(&self, direction: Direction) -> SyntaxNodeSiblings
        ensures { result ≡ filter at_node (siblings_in direction self.now) }
    {
        SyntaxNodeSiblings::new(self.siblings_with_tokens(direction))
    }

    /// The first token below this node, or `None` if there is none. Takes time linear in the number
    /// of nodes before it.
    pub fn first_token(&self) -> Option<SyntaxToken>
        ensures { result ≡ find at_token (descendants_of self.now) }
    {
        let row = self.table.first_token_in(self.row)?;
        Some(SyntaxToken::at(self.table.share(), row))
    }

    /// The last token below this node, or `None` if there is none. Takes time linear in the number
    /// of nodes after it.
    pub fn last_token(&self) -> Option<SyntaxToken>
        ensures { result ≡ find at_token (reverse (descendants_of self.now)) }
    {
        let row = self.table.last_token_in(self.row)?;
        Some(SyntaxToken::at(self.table.share(), row))
    }

    /// The walk of the nodes alone: it enters this node, walks its child nodes in order, and leaves
    /// it.
    pub fn preorder(&self) -> Preorder
        ensures { result ≡ filter moves_at_node (walk_of self.now) }
    {
        Preorder::new(PreorderWithTokens::new(self.table.share(), self.row))
    }

    /// The nodes of this subtree in preorder, this node first.
    pub fn descendants(&self) -> Descendants
        ensures { result ≡ filter at_node (descendants_of self.now) }
    {
        Descendants::new(self.descendants_with_tokens())
    }

    /// The nodes of the whole tree whose rows have the numbers `from..to`, in preorder: a part of
    /// the [`descendants`](SyntaxNode::descendants) of the root. If there are fewer rows, it is all
    /// from `from` on.
    pub fn nodes_among_rows(&self, from: usize, to: usize) -> Descendants
        ensures within { to ≤ size self.now.tree
            → result ≡ filter at_node (cursors_from self.now.tree from (to - from)) }
        ensures past { size self.now.tree < to
            → result
            ≡ filter at_node (cursors_from self.now.tree from (size self.now.tree - from)) }
    {
        let count = self.table.len();
        let end = if to > count { count } else { to };
        let elements = DescendantsWithTokens::among(self.table.share(), from, end);
        Descendants::new(elements)
    }

    /// The walk that enters this node, walks its children in order, and leaves it.
    pub fn preorder_with_tokens(&self) -> PreorderWithTokens
        ensures { result ≡ walk_of self.now }
    {
        PreorderWithTokens::new(self.table.share(), self.row)
    }

    /// The nodes and tokens of this subtree in preorder, this node first.
    pub fn descendants_with_tokens(&self) -> DescendantsWithTokens
        ensures { result ≡ descendants_of self.now }
    {
        DescendantsWithTokens::new(self.table.share(), self.row)
    }
}

impl SyntaxNode {
    ghost use Rattle.tree_model.specs.Tree.{IsToken};
    ghost use Rattle.tree_model.specs.Rows.{IsRow, tree_at};
    ghost use Rattle.tree_model.specs.Cursor.{cursor_at};
    ghost use Rattle.tree_model.specs.TokenSearch.{tokens_at};
    ghost use Rattle.lossless_tree.specs.TokenAtOffset.{found_tokens};
    ghost use Rattle.tree_model.specs.Covering.{covering_of};
    ghost use Rattle.tree_model.specs.Pointer.{Finds};

    /// The tokens of this node at an offset of the whole tree's text: those that are not empty and
    /// whose range, both ends included, contains the offset. Between two tokens both are returned,
    /// and none if the offset is outside the node.
    ///
    /// Empty tokens and nodes are passed over. The time grows with the logarithm of the size of the
    /// tree.
    pub fn token_at_offset(&self, offset: TextSize) -> TokenAtOffset<SyntaxToken>
        ensures { found_tokens result ≡ tokens_at self.now offset }
    {
        let (left, right) = self.table.tokens_at(self.row, offset.raw() as usize);
        match (left, right) {
            (None, None) => TokenAtOffset::None,
            (Some(row), None) | (None, Some(row)) => TokenAtOffset::Single(self.token(row)),
            (Some(left), Some(right)) => {
                TokenAtOffset::Between(self.token(left), self.token(right))
            }
        }
    }

    /// The node or token that covers a range of the whole tree's text. From this node, it goes down
    /// to a child as long as there is one to go to.
    ///
    /// For a non-empty range, that is the child whose range contains it. For an empty range, it is
    /// the child that has its offset strictly inside, otherwise the last child that ends at or
    /// before it, otherwise the first child. So the result is this node for a non-empty range that
    /// no child contains, for example one outside this node; for an empty range it is always a
    /// token or a node without children. The time grows with the logarithm of the size of the tree
    /// and with its depth.
    pub fn covering_element(&self, range: TextRange) -> SyntaxElement
        ensures { result ≡ element_of (covering_of self.now range) }
    {
        let row = self.table.covering_row(self.row, range);
        element(&self.table, row)
    }

    // The first node of this tree in preorder with this kind and range; `None` where this node is
    // not the root.
    pub(crate) fn first_in_root(&self, kind: SyntaxKind, range: TextRange) -> Option<SyntaxNode>
        ensures { Finds (record { kind = kind; range = range }) self.now result }
    {
        if self.row != 0 {
            return None;
        }
        let row = self.table.first_node(kind, range)?;
        Some(SyntaxNode::at(self.table.share(), row))
    }

    // The token at a row of this tree.
    fn token(&self, row: usize) -> SyntaxToken
        requires is_row { IsRow self.now.tree row }
        requires is_token { IsToken (tree_at self.now.tree row) }
        ensures { result ≡ cursor_at self.now.tree row }
    {
        SyntaxToken::at(self.table.share(), row)
    }
}

impl SyntaxNode {
    /// The tree below this node as text, a line for each node and token in preorder, two spaces a
    /// level: `KIND@start..end`, and after that a token's text in quotes.
    ///
    /// A text of 25 bytes or more is cut off at the first character boundary at or after byte 21,
    /// and ` ...` is added. Quotes, backslashes and control bytes are escaped. Every line ends with
    /// a newline. Takes time linear in the length of the result.
    pub fn dump(&self, alloc: Global) -> Result<String, AllocError>
        ensures { IfOk result (λ text. string_bytes text ≡ dump_of self.now) }
    {
        self.cursor().dump(alloc)
    }

    /// What [`SyntaxNode::dump`] returns, as a value that `{}` prints. It takes no memory, and
    /// prints in time linear in the text.
    pub fn display_dump(&self) -> Dump<'_>
        ensures { result ≡ self.now }
    {
        Dump::at(&self.table, self.row)
    }
}

// The first node among the siblings from a row on, in a direction.
fn nearest_node(
    table: &Shared<Table>,
    from: Option<usize>,
    direction: Direction,
) -> Option<SyntaxNode>
    requires { IfSome from (IsRow table.now.value) }
    ensures { result ≡ find at_node (siblings_from direction table.now.value from) }
{
    let elements = SyntaxElementSiblings::new(table.share(), from, direction);
    let mut siblings = SyntaxNodeSiblings::new(elements);
    siblings.next()
}

impl Clone for SyntaxNode {
    ghost use Rattle.std.specs.Prelude.{◌≡◌, ⊤};

    ghost is_clone = { λ s copy. copy ≡ s };

    ghost is_infallible = { λ _. ⊤ };

    fn clone(&self) -> Result<SyntaxNode, AllocError> {
        Ok(SyntaxNode {
            table: self.table.share(),
            row: self.row,
        })
    }
}

/// Equal where both are at the same place in equal trees. Takes constant time for cursors of one
/// tree.
impl PartialEq for SyntaxNode {
    ghost use Rattle.tree_model.specs.Equality.{is_same_cursor};
    ghost use Rattle.tree_model.specs.EqualityLaws.{cursor_equivalence};
    ghost use Rattle.std.specs.Cmp.{partial_equiv_from_equiv};

    ghost eq = { is_same_cursor };

    ghost laws = { partial_equiv_from_equiv cursor_equivalence };

    fn eq(&self, other: &SyntaxNode) -> bool {
        self.cursor() == other.cursor()
    }
}

impl Eq for SyntaxNode {
    ghost use Rattle.tree_model.specs.EqualityLaws.{cursor_equivalence};

    ghost laws = { cursor_equivalence };
}

/// Equal cursors hash alike. It takes constant time.
impl Hash for SyntaxNode {
    ghost use Rattle.tree_model.specs.Equality.{cursor_hash};
    ghost use Rattle.tree_model.specs.EqualityLaws.{cursors_alike};

    ghost hash_input = { cursor_hash };

    ghost respects_eq = { cursors_alike };

    fn hash<H: Hasher>(&self, state: &mut H) {
        self.cursor().hash(state);
    }
}
