//! A node or a token.
ghost use Rattle.std.specs.Prelude.{◌≡◌, option_map, option_copied, IfOk, string_bytes};
ghost use Rattle.tree_model.specs.Tree.{kind_of, text};
ghost use Rattle.tree_model.specs.Rows.{IsRow};
ghost use Rattle.tree_model.specs.Cursor.{cursor_at, focus, range_of, parent_of, next_sibling_of, prev_sibling_of, following_of, siblings_in};
ghost use Rattle.lossless_tree.specs.Element.{element_of, cursor_of, node_part, token_part, ancestors_of_element, is_trivia_element};
ghost use Rattle.std.specs.List.{find};
ghost use Rattle.tree_model.specs.NearestToken.{is_no_trivia};
ghost use Rattle.lossless_tree.specs.Dump.{dump_of};

use super::ancestors::Ancestors;
use super::node::SyntaxNode;
use super::siblings::SyntaxElementSiblings;
use super::token::SyntaxToken;
use shared_pointer::Shared;
use std::alloc::{AllocError, Global};
use syntax_kind::SyntaxKind;
use text_size::TextRange;
use tree_model::Direction;
use tree_rows::Table;

/// A node or a token. `N` is the type of nodes, and `T` that of tokens.
#[derive(Clone, Hash, Drop)]
pub enum NodeOrToken<N, T> {
    /// A node.
    Node(N),
    /// A token.
    Token(T),
}

/// A node or a token of a tree.
pub type SyntaxElement = NodeOrToken<SyntaxNode, SyntaxToken>;

impl<N, T> NodeOrToken<N, T> {
    /// The node; `None` for a token.
    pub fn as_node(&self) -> Option<&N>
        ensures { option_copied result ≡ node_part self.now }
    {
        match self {
            NodeOrToken::Node(node) => Some(node),
            NodeOrToken::Token(_) => None,
        }
    }

    /// The token; `None` for a node.
    pub fn as_token(&self) -> Option<&T>
        ensures { option_copied result ≡ token_part self.now }
    {
        match self {
            NodeOrToken::Node(_) => None,
            NodeOrToken::Token(token) => Some(token),
        }
    }

    /// The node itself; `None` for a token, which is dropped.
    pub fn into_node(self) -> Option<N>
    where
        T: Drop,
        ensures { result ≡ node_part self }
    {
        match self {
            Self::Node(node) => Some(node),
            Self::Token(_) => None,
        }
    }

    /// The token itself; `None` for a node, which is dropped.
    pub fn into_token(self) -> Option<T>
    where
        N: Drop,
        ensures { result ≡ token_part self }
    {
        match self {
            Self::Node(_) => None,
            Self::Token(token) => Some(token),
        }
    }
}

impl NodeOrToken<SyntaxNode, SyntaxToken> {
    /// The kind of the node or token.
    pub fn kind(&self) -> SyntaxKind
        ensures { result ≡ kind_of (focus (cursor_of self.now)) }
    {
        match self {
            NodeOrToken::Node(node) => node.kind(),
            NodeOrToken::Token(token) => token.kind(),
        }
    }

    /// Whether this is a token of white space or a comment. It is false for every node, also for
    /// one that contains only comments.
    pub fn is_trivia(&self) -> bool
        ensures { result ≡ is_trivia_element self.now }
    {
        match self {
            NodeOrToken::Node(_) => false,
            NodeOrToken::Token(token) => token.kind().is_trivia(),
        }
    }

    /// The range of the text in the whole tree's text, in bytes.
    pub fn text_range(&self) -> TextRange
        ensures { result ≡ range_of (cursor_of self.now) }
    {
        match self {
            NodeOrToken::Node(node) => node.text_range(),
            NodeOrToken::Token(token) => token.text_range(),
        }
    }

    /// The text of the node or token, a slice of the tree's one text.
    pub fn text(&self) -> &str
        ensures { result.now ≡ text (focus (cursor_of self.now)) }
    {
        match self {
            NodeOrToken::Node(node) => node.as_str(),
            NodeOrToken::Token(token) => token.text(),
        }
    }

    /// The node that this is a child of; `None` for the root. It takes constant time.
    pub fn parent(&self) -> Option<SyntaxNode>
        ensures { result ≡ parent_of (cursor_of self.now) }
    {
        match self {
            NodeOrToken::Node(node) => node.parent(),
            NodeOrToken::Token(token) => token.parent(),
        }
    }

    /// The nodes above a token, and a node and the nodes above it, the nearest first, up to the
    /// root.
    pub fn ancestors(&self) -> Ancestors
        ensures { result ≡ ancestors_of_element self.now }
    {
        match self {
            NodeOrToken::Node(node) => node.ancestors(),
            NodeOrToken::Token(token) => token.parent_ancestors(),
        }
    }

    /// What comes before this in its parent, node or token; `None` for the first child and the
    /// root. Takes time linear in the depth of what comes before.
    pub fn prev_sibling_or_token(&self) -> Option<SyntaxElement>
        ensures { result ≡ option_map element_of (prev_sibling_of (cursor_of self.now)) }
    {
        match self {
            NodeOrToken::Node(node) => node.prev_sibling_or_token(),
            NodeOrToken::Token(token) => token.prev_sibling_or_token(),
        }
    }

    /// The nearest later sibling, node or token, that is not trivia, or `None` if there is none.
    pub fn next_no_trivia(&self) -> Option<SyntaxElement>
        ensures { result
            ≡ option_map element_of (find is_no_trivia (following_of (cursor_of self.now))) }
    {
        match self {
            NodeOrToken::Node(node) => node.next_no_trivia(),
            NodeOrToken::Token(token) => token.next_no_trivia(),
        }
    }

    /// This and its siblings in a direction, nodes and tokens. A step backwards takes time linear
    /// in the depth of the sibling before.
    pub fn siblings_with_tokens(&self, direction: Direction) -> SyntaxElementSiblings
        ensures { result ≡ siblings_in direction (cursor_of self.now) }
    {
        match self {
            NodeOrToken::Node(node) => node.siblings_with_tokens(direction),
            NodeOrToken::Token(token) => token.siblings_with_tokens(direction),
        }
    }

    /// The dump of the node, or the token's one line.
    pub fn dump(&self, alloc: Global) -> Result<String, AllocError>
        ensures { IfOk result (λ text. string_bytes text ≡ dump_of (cursor_of self.now)) }
    {
        match self {
            NodeOrToken::Node(node) => node.dump(alloc),
            NodeOrToken::Token(token) => token.dump(alloc),
        }
    }

    /// What follows this in its parent, node or token; `None` for the last child and the root.
    pub fn next_sibling_or_token(&self) -> Option<SyntaxElement>
        ensures { result ≡ option_map element_of (next_sibling_of (cursor_of self.now)) }
    {
        match self {
            NodeOrToken::Node(node) => node.next_sibling_or_token(),
            NodeOrToken::Token(token) => token.next_sibling_or_token(),
        }
    }
}

/// Equal where both are nodes, or both tokens, and these are equal.
impl<N: PartialEq, T: PartialEq> PartialEq for NodeOrToken<N, T> {
    ghost use Rattle.lossless_tree.specs.Element.{is_same_by};
    ghost use Rattle.lossless_tree.specs.ElementLaws.{same_partial};

    ghost eq = { is_same_by N.eq T.eq };

    ghost laws = { same_partial N.eq T.eq N.laws T.laws };

    fn eq(&self, other: &NodeOrToken<N, T>) -> bool {
        match (self, other) {
            (NodeOrToken::Node(node), NodeOrToken::Node(other)) => *node == *other,
            (NodeOrToken::Token(token), NodeOrToken::Token(other)) => *token == *other,
            _ => false,
        }
    }
}

impl<N: Eq, T: Eq> Eq for NodeOrToken<N, T> {
    ghost use Rattle.lossless_tree.specs.ElementLaws.{same_equivalence};

    ghost laws = { same_equivalence N.eq T.eq N.Eq.laws T.Eq.laws };
}

impl From<SyntaxNode> for NodeOrToken<SyntaxNode, SyntaxToken> {
    ghost use Rattle.lossless_tree.specs.declared.cursor.element.NodeOrToken.TheVariants.{Node};

    ghost from_gives = { λ node element. element ≡ Node node };

    fn from(node: SyntaxNode) -> SyntaxElement {
        NodeOrToken::Node(node)
    }
}

impl From<SyntaxToken> for NodeOrToken<SyntaxNode, SyntaxToken> {
    ghost use Rattle.lossless_tree.specs.declared.cursor.element.NodeOrToken.TheVariants.{Token};

    ghost from_gives = { λ token element. element ≡ Token token };

    fn from(token: SyntaxToken) -> SyntaxElement {
        NodeOrToken::Token(token)
    }
}

// The element at a row.
pub(crate) fn element(table: &Shared<Table>, row: usize) -> SyntaxElement
    requires { IsRow table.now.value row }
    ensures { result ≡ element_of (cursor_at table.now.value row) }
{
    if table.is_token_at(row) {
        NodeOrToken::Token(SyntaxToken::at(table.share(), row))
    } else {
        NodeOrToken::Node(SyntaxNode::at(table.share(), row))
    }
}
