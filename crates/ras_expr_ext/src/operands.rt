//! Operators, and the ends of ranges.
ghost use Rattle.std.specs.Prelude.{◌≡◌, option_map};
ghost use Rattle.ras_expr_ext.specs.ExprParts.{first_child_token, binary_operator, range_operator, range_start_of, range_end_of, bound_before};

use lossless_tree::{SyntaxNode, SyntaxToken};
use ras_node::sets::{BinaryOperators, RangeOperators};
use ras_node::{AstNode, support};

/// The first child, if it is a token: a prefix operator.
pub fn first_child_token(parent: &SyntaxNode) -> Option<SyntaxToken>
    ensures { result ≡ first_child_token parent.now }
{
    parent.first_child_or_token()?.into_token()
}

/// The first child token that is a binary operator.
pub fn binary_operator(parent: &SyntaxNode) -> Option<SyntaxToken>
    ensures { result ≡ binary_operator parent.now }
{
    ras_node::first_token::<BinaryOperators>(parent.children_with_tokens())
}

/// The first child token `..` or `..=`.
pub fn range_operator(parent: &SyntaxNode) -> Option<SyntaxToken>
    ensures { result ≡ range_operator parent.now }
{
    ras_node::first_token::<RangeOperators>(parent.children_with_tokens())
}

/// The first end before the operator, or `None` if there is no operator.
pub fn range_start<N: AstNode>(parent: &SyntaxNode) -> Option<N>
    ensures { option_map N.node result ≡ range_start_of N.casts parent.now }
{
    let _operator = range_operator(parent)?;
    start_or_first(parent)
}

/// The first end before the operator; without an operator, the first of all.
pub fn start_or_first<N: AstNode>(parent: &SyntaxNode) -> Option<N>
    ensures { option_map N.node result ≡ bound_before N.casts parent.now }
{
    support::first_before::<N, RangeOperators>(parent.children_with_tokens())
}

/// The first end after the operator, or `None` if there is no operator.
pub fn range_end<N: AstNode>(parent: &SyntaxNode) -> Option<N>
    ensures { option_map N.node result ≡ range_end_of N.casts parent.now }
{
    support::first(ras_node::behind::<RangeOperators>(parent.children_with_tokens()))
}
