//! Searches in syntax trees: upwards, sideways and along the tokens. They take no memory.
ghost use Rattle.std.specs.Prelude.{◌≡◌, ◌-◌, length, drop, reverse, option_map};
ghost use Rattle.std.specs.Option.{option_and_then};
ghost use Rattle.std.specs.Iterator.{YieldsFirst, item_count};
ghost use Rattle.std.specs.List.{filter, find, list_any};
ghost use Rattle.tree_model.specs.declared.direction.Direction.TheVariants.{Next, Prev};
ghost use Rattle.tree_model.specs.Cursor.{at_node, at_token, ancestors_of, children_of, descendants_of};
ghost use Rattle.lossless_tree.specs.Element.{element_of, cursor_of, ancestors_of_element};
ghost use Rattle.tree_model.specs.Covering.{covering_of};
ghost use Rattle.tree_model.specs.NearestToken.{tokens_beyond, is_no_trivia};
ghost use Rattle.ras_node.specs.Nodes.{has_kind_in};
ghost use Rattle.ras_algo.specs.Algo.{siblings_beyond, tokens_from, first_token_of, last_token_of, has_no_trivia_kind, is_no_whitespace, is_error, common_ancestor, common_ancestor_of_elements, ancestors_at, takes_right};

use lossless_tree::laws::node_is_placed;
use lossless_tree::{
    Ancestors, Direction, NodeOrToken, SyntaxElement, SyntaxKind, SyntaxNode, SyntaxToken,
    TextRange, TextSize, TokenAtOffset,
};
use ras_node::AstNode;
use std::marker::Model;

/// The nodes above the tokens at an offset, by the length of their text, the shortest first. A
/// clause sees the cursors that are left.
#[derive(Clone, Drop)]
pub struct AncestorsAtOffset {
    left: Option<SyntaxNode>,
    right: Option<SyntaxNode>,
}

impl Model for AncestorsAtOffset {
    ghost use Rattle.std.specs.Prelude.{List};
    ghost use Rattle.std.specs.Coded.{coded_list};
    ghost use Rattle.tree_model.specs.Cursor.{Cursor, cursor_code, ancestors_from};
    ghost use Rattle.ras_algo.specs.Algo.{merged};

    ghost Value = { List Cursor };

    ghost coded = { coded_list cursor_code };

    ghost view = { λ a. merged (ancestors_from a.left) (ancestors_from a.right) };
}

impl Iterator for AncestorsAtOffset {
    type Item = SyntaxNode;

    ghost next_gives = { YieldsFirst (λ left. left) };

    ghost remaining = { item_count (λ left. left) };

    fn next(&mut self) -> Option<SyntaxNode> {
        if is_right_next(&self.left, &self.right) {
            let node = self.right.take()?;
            self.right = node.parent();
            Some(node)
        } else {
            let node = self.left.take()?;
            self.left = node.parent();
            Some(node)
        }
    }
}

// Whether the next node is from the right one of two chains: if it is shorter, and if the left
// chain has ended.
fn is_right_next(left: &Option<SyntaxNode>, right: &Option<SyntaxNode>) -> bool
    ensures { result ≡ takes_right left.now right.now }
{
    match (left, right) {
        (None, _) => true,
        (Some(_), None) => false,
        (Some(left), Some(right)) => right.text_range().len() < left.text_range().len(),
    }
}

/// The nodes above the tokens at an offset, by the length of their text, the shortest first.
///
/// Between two tokens there are two chains of nodes, and the left one comes first at equal lengths;
/// a node above both tokens comes twice. The result is empty if no non-empty token touches the
/// offset. The tokens are found in time that grows with the logarithm of the size of the tree; each
/// node takes constant time.
pub fn ancestors_at_offset(node: &SyntaxNode, offset: TextSize) -> AncestorsAtOffset
    ensures { result ≡ ancestors_at node.now offset }
{
    let (left, right) = match node.token_at_offset(offset) {
        TokenAtOffset::None => (None, None),
        TokenAtOffset::Single(token) => (token.parent(), None),
        TokenAtOffset::Between(left, right) => (left.parent(), right.parent()),
    };
    AncestorsAtOffset { left, right }
}

/// The first of the nodes above the tokens at an offset, the shortest first, that can be cast to
/// this view, or `None` if there is none. It takes the time of `ancestors_at_offset` and of the
/// nodes that it passes.
pub fn find_node_at_offset<N: AstNode>(syntax: &SyntaxNode, offset: TextSize) -> Option<N>
    ensures { option_map N.node result
        ≡ find (has_kind_in N.casts) (ancestors_at syntax.now offset) }
{
    let mut nodes = ancestors_at_offset(syntax, offset);
    N::cast(nodes.find(|node| N::can_cast(node.kind()))?)
}

/// The element that covers a range, or else the nearest node above it, that can be cast to this
/// view, or `None` if there is none. It takes the time of `SyntaxNode::covering_element`.
pub fn find_node_at_range<N: AstNode>(syntax: &SyntaxNode, range: TextRange) -> Option<N>
    ensures { option_map N.node result
        ≡ find (has_kind_in N.casts)
        (ancestors_of_element (element_of (covering_of syntax.now range))) }
{
    let mut nodes = syntax.covering_element(range).ancestors();
    N::cast(nodes.find(|node| N::can_cast(node.kind()))?)
}

/// The first token from this one on, itself included, in a direction, that is not trivia (white
/// space or a comment), or `None` if there is none. It takes time linear in the nodes and tokens
/// that it passes.
pub fn skip_trivia_token(token: SyntaxToken, direction: Direction) -> Option<SyntaxToken>
    ensures { result ≡ find has_no_trivia_kind (tokens_from direction token) }
{
    if token.kind().is_trivia() {
        non_trivia_beyond(&token, direction)
    } else {
        Some(token)
    }
}

/// The first token from this one on, itself included, in a direction, that is not `WHITESPACE`, or
/// `None` if there is none. It takes time linear in the nodes and tokens that it passes.
pub fn skip_whitespace_token(token: SyntaxToken, direction: Direction) -> Option<SyntaxToken>
    ensures { result ≡ find is_no_whitespace (tokens_from direction token) }
{
    let mut tokens = Tokens::from(token, direction);
    tokens.find(|token| token.kind() != SyntaxKind::WHITESPACE)
}

/// The nearest sibling in a direction, node or token, that is not trivia (white space or a
/// comment), or `None` if there is none. It passes over the trivia between, forwards in constant
/// time each, backwards in the depth there.
pub fn non_trivia_sibling(element: SyntaxElement, direction: Direction) -> Option<SyntaxElement>
    ensures { result
        ≡ option_map element_of
        (find is_no_trivia (siblings_beyond direction (cursor_of element))) }
{
    element
        .siblings_with_tokens(direction)
        .skip(1)
        .find(|sibling| !sibling.is_trivia())
}

/// The nearest sibling node in a direction that can be cast to the type of `me`, or `None` if there
/// is none. It passes over the siblings between, forwards in constant time each, backwards in the
/// size of their subtrees.
pub fn neighbor<T: AstNode>(me: &T, direction: Direction) -> Option<T>
    ensures { option_map T.node result
        ≡ find (has_kind_in T.casts) (filter at_node (siblings_beyond direction (T.node me.now))) }
{
    let node = me.syntax();
    // The iterator starts at the node itself, the first of its sibling nodes.
    node_is_placed(node);
    let mut siblings = node.siblings(direction).skip(1);
    T::cast(siblings.find(|node| T::can_cast(node.kind()))?)
}

/// The deepest node that is an ancestor of both, where a node counts as its own ancestor, or `None`
/// if their trees are unequal.
///
/// Takes time linear in the depths for nodes of one tree; for nodes of two trees it also compares
/// the trees, at most twice.
pub fn least_common_ancestor(u: &SyntaxNode, v: &SyntaxNode) -> Option<SyntaxNode>
    ensures { result ≡ common_ancestor u.now v.now }
{
    if u.ancestors().last() != v.ancestors().last() {
        return None;
    }
    let mut candidates = ancestors_from_depth(u, v).zip(ancestors_from_depth(v, u));
    let (ancestor, _) = candidates.find(|(x, y)| x == y)?;
    Some(ancestor)
}

// The ancestors of a node, itself included, from the depth of another node on; all of them where
// that is deeper.
fn ancestors_from_depth(node: &SyntaxNode, other: &SyntaxNode) -> Ancestors
    ensures { result
        ≡ drop (length (ancestors_of node.now) - length (ancestors_of other.now))
        (ancestors_of node.now) }
{
    let mut ahead = node.ancestors();
    for _node in other.ancestors() {
        ahead.next();
    }
    let mut ancestors = node.ancestors();
    for _node in ahead {
        ancestors.next();
    }
    ancestors
}

/// The deepest node that is an ancestor of both, where a node counts as its own ancestor, or `None`
/// if their trees are unequal. The nearest ancestor of a token is its parent.
///
/// It takes the time of `least_common_ancestor`.
pub fn least_common_ancestor_element(u: SyntaxElement, v: SyntaxElement) -> Option<SyntaxNode>
    ensures { result ≡ common_ancestor_of_elements u v }
{
    least_common_ancestor(&u.ancestors().next()?, &v.ancestors().next()?)
}

fn is_error(node: &SyntaxNode) -> bool
    ensures { result ≡ is_error node.now }
{
    node.kind() == SyntaxKind::ERROR
}

/// Whether a child node is of kind `ERROR`. Only children are tested, not deeper descendants.
pub fn has_errors(node: &SyntaxNode) -> bool
    ensures { result ≡ list_any is_error (filter at_node (children_of node.now)) }
{
    node.children().any(|child| is_error(&child))
}

/// The nearest token before this node or token that is not trivia, or `None` if there is none or
/// the node has no tokens. It takes time linear in the nodes and tokens that it passes.
pub fn previous_non_trivia_token(element: SyntaxElement) -> Option<SyntaxToken>
    ensures { result
        ≡ option_and_then (λ first. find has_no_trivia_kind (tokens_beyond Prev first))
        (first_token_of element) }
{
    let first = first_token(element)?;
    non_trivia_beyond(&first, Direction::Prev)
}

/// The nearest token after this node or token that is not trivia, or `None` if there is none or the
/// node has no tokens. It takes time linear in the nodes and tokens that it passes.
pub fn next_non_trivia_token(element: SyntaxElement) -> Option<SyntaxToken>
    ensures { result
        ≡ option_and_then (λ last. find has_no_trivia_kind (tokens_beyond Next last))
        (last_token_of element) }
{
    let last = last_token(element)?;
    non_trivia_beyond(&last, Direction::Next)
}

fn first_token(element: SyntaxElement) -> Option<SyntaxToken>
    ensures { result ≡ first_token_of element }
{
    match element {
        NodeOrToken::Node(node) => node.first_token(),
        NodeOrToken::Token(token) => Some(token),
    }
}

fn last_token(element: SyntaxElement) -> Option<SyntaxToken>
    ensures { result ≡ last_token_of element }
{
    match element {
        NodeOrToken::Node(node) => node.last_token(),
        NodeOrToken::Token(token) => Some(token),
    }
}

fn non_trivia_beyond(token: &SyntaxToken, direction: Direction) -> Option<SyntaxToken>
    ensures { result ≡ find has_no_trivia_kind (tokens_beyond direction token.now) }
{
    match direction {
        Direction::Next => token.next_token_no_trivia(),
        Direction::Prev => token.prev_token_no_trivia(),
    }
}

// A token and the tokens after it in a direction. A clause sees the cursors that are left.
#[derive(Drop)]
struct Tokens {
    next: Option<SyntaxToken>,
    direction: Direction,
}

impl Model for Tokens {
    ghost use Rattle.std.specs.Prelude.{List};
    ghost use Rattle.std.specs.Coded.{coded_list};
    ghost use Rattle.tree_model.specs.Cursor.{Cursor, cursor_code};
    ghost use Rattle.ras_algo.specs.Algo.{tokens_left};

    ghost Value = { List Cursor };

    ghost coded = { coded_list cursor_code };

    ghost view = { λ a. tokens_left a.direction a.next };
}

impl Tokens {
    // The token and the tokens after it.
    fn from(token: SyntaxToken, direction: Direction) -> Self
        ensures { result ≡ tokens_from direction token }
    {
        Tokens {
            next: Some(token),
            direction,
        }
    }

    // The tokens after the token.
    fn beyond(token: &SyntaxToken, direction: Direction) -> Self
        ensures { result ≡ tokens_beyond direction token.now }
    {
        let next = match direction {
            Direction::Next => token.next_token(),
            Direction::Prev => token.prev_token(),
        };
        Tokens { next, direction }
    }
}

impl Iterator for Tokens {
    type Item = SyntaxToken;

    ghost next_gives = { YieldsFirst (λ left. left) };

    ghost remaining = { item_count (λ left. left) };

    fn next(&mut self) -> Option<SyntaxToken> {
        let token = self.next.take()?;
        *self = Tokens::beyond(&token, self.direction);
        Some(token)
    }
}
