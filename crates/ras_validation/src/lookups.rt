//! Lookups of the rules below and above a node.
ghost use Rattle.std.specs.Prelude.{◌≡◌, false};
ghost use Rattle.std.specs.List.{filter, list_any};
ghost use Rattle.tree_model.specs.Cursor.{children_of, at_node};
ghost use Rattle.ras_validation.specs.Lookups.{node_child, if_kind, type_child, token_before, token_behind, literal_token, range_operator, range_end_expr, binary_operator, single_name, segment_keyword, has_path_keyword, path_around, starts_path, has_trait, is_inner_attribute, has_two_bounds, is_typed_bound};

use crate::kinds::PathKeywords;
use lossless_tree::{NodeOrToken, SyntaxKind, SyntaxNode, SyntaxToken};
use ras_algo::algo;
use ras_node::sets::{BeforeLiteral, BinaryOperators, Exprs, RangeOperators, Types};
use ras_node::{behind, first_node, first_other, support};

/// The first child node of a kind.
pub fn node_child(parent: &SyntaxNode, kind: SyntaxKind) -> Option<SyntaxNode>
    ensures { result ≡ node_child kind parent.now }
{
    parent.child_of_kind(kind)
}

/// The first child that is a type.
pub fn type_child(parent: &SyntaxNode) -> Option<SyntaxNode>
    ensures { result ≡ type_child parent.now }
{
    parent.child_among::<Types>()
}

/// The token before a token, white space and comments left out.
pub fn token_before(token: SyntaxToken) -> Option<SyntaxToken>
    ensures { result ≡ token_before token }
{
    algo::previous_non_trivia_token(NodeOrToken::Token(token))
}

/// The token after a token, white space and comments left out.
pub fn token_behind(token: SyntaxToken) -> Option<SyntaxToken>
    ensures { result ≡ token_behind token }
{
    algo::next_non_trivia_token(NodeOrToken::Token(token))
}

/// The token of a literal.
pub fn literal_token(literal: &SyntaxNode) -> Option<SyntaxToken>
    ensures { result ≡ literal_token literal.now }
{
    first_other::<BeforeLiteral>(literal.children_with_tokens())?.into_token()
}

/// The operator of a range.
pub fn range_operator(range: &SyntaxNode) -> Option<SyntaxToken>
    ensures { result ≡ range_operator range.now }
{
    range.token_among::<RangeOperators>()
}

/// The end of a range.
pub fn range_end(range: &SyntaxNode) -> Option<SyntaxNode>
    ensures { result ≡ range_end_expr range.now }
{
    first_node::<Exprs>(behind::<RangeOperators>(range.children_with_tokens()))
}

/// The operator of a binary expression.
pub fn binary_operator(expr: &SyntaxNode) -> Option<SyntaxToken>
    ensures { result ≡ binary_operator expr.now }
{
    expr.token_among::<BinaryOperators>()
}

/// The name of a path that is one segment.
pub fn single_name(path: &SyntaxNode) -> Option<SyntaxNode>
    ensures { result ≡ single_name path.now }
{
    if node_child(path, SyntaxKind::PATH).is_some() {
        return None;
    }
    let segment = node_child(path, SyntaxKind::PATH_SEGMENT)?;
    node_child(&segment, SyntaxKind::NAME_REF)
}

/// A keyword as the name of a segment.
pub fn segment_keyword(segment: &SyntaxNode, kind: SyntaxKind) -> Option<SyntaxToken>
    ensures { result ≡ segment_keyword kind segment.now }
{
    let name = node_child(segment, SyntaxKind::NAME_REF)?;
    support::token(&name, kind)
}

/// Whether the name of a segment is `self` or `crate`.
pub fn has_path_keyword(segment: &SyntaxNode) -> bool
    ensures { result ≡ has_path_keyword segment.now }
{
    segment.has_token_in_child::<PathKeywords>(SyntaxKind::NAME_REF)
}

/// The path that a segment or a path is in.
pub fn path_around(node: &SyntaxNode) -> Option<SyntaxNode>
    ensures { result ≡ path_around node.now }
{
    let parent = node.parent()?;
    if parent.kind() == SyntaxKind::PATH {
        Some(parent)
    } else {
        None
    }
}

/// Whether a segment is the start of its path.
pub fn starts_path(segment: &SyntaxNode, path: &SyntaxNode) -> bool
    ensures { result ≡ starts_path segment.now path.now }
{
    support::token(segment, SyntaxKind::COLON2).is_none()
        && node_child(path, SyntaxKind::PATH).is_none()
}

/// Whether an implementation implements a trait.
pub fn has_trait(item: &SyntaxNode) -> bool
    ensures { result ≡ has_trait item.now }
{
    let Some(keyword) = support::token(item, SyntaxKind::FOR_KW) else {
        return false;
    };
    let Some(ty) = type_child(item) else {
        return false;
    };
    ty.text_range().start().raw() < keyword.text_range().start().raw()
}

/// Whether a node is an attribute that has a `!`.
pub fn is_inner_attribute(node: &SyntaxNode) -> bool
    ensures { result ≡ is_inner_attribute node.now }
{
    node.kind() == SyntaxKind::ATTR && support::token(node, SyntaxKind::BANG).is_some()
}

/// Whether a list of bounds has at least two bounds.
pub fn has_two_bounds(list: &SyntaxNode) -> bool
    ensures { result ≡ has_two_bounds false (filter at_node (children_of list.now)) }
{
    let mut one = false;
    let mut left = list.children();
    while let Some(child) = left.next() {
        if child.kind() == SyntaxKind::TYPE_BOUND {
            if one {
                return true;
            }
            one = true;
        }
    }
    false
}

// Whether a node is a bound that has a type.
fn is_typed_bound(node: &SyntaxNode) -> bool
    ensures { result ≡ is_typed_bound node.now }
{
    node.kind() == SyntaxKind::TYPE_BOUND && type_child(node).is_some()
}

/// Whether a list of bounds has a bound with a type.
pub fn has_typed_bound(list: &SyntaxNode) -> bool
    ensures { result ≡ list_any is_typed_bound (filter at_node (children_of list.now)) }
{
    let mut left = list.children();
    while let Some(child) = left.next() {
        if is_typed_bound(&child) {
            return true;
        }
    }
    false
}
