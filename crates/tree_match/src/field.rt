//! Fields without a `:`, as `a` in `S { a }`: what replaces such a name would be the name of
//! another field.
ghost use Rattle.std.specs.Prelude.{◌≡◌};
ghost use Rattle.std.specs.Option.{option_and_then};
ghost use Rattle.tree_model.specs.Cursor.{parent_of};
ghost use Rattle.tree_match.specs.Fields.{is_field, has_colon, is_short, is_short_first, is_short_at, is_in_short};

use crate::bare::is_token_of;
use crate::kind::is_kind;
use crate::run::Run;
use lossless_tree::{SyntaxKind, SyntaxNode};

fn is_field(kind: SyntaxKind) -> bool
    ensures { result ≡ is_field kind }
{
    is_kind(kind, SyntaxKind::RECORD_EXPR_FIELD) || is_kind(kind, SyntaxKind::RECORD_PAT_FIELD)
}

fn has_colon(children: &Run<'_>) -> bool
    ensures { result ≡ has_colon children.now.trees }
{
    let mut rest = children.all();
    while !rest.is_done() {
        if is_token_of(SyntaxKind::COLON, &rest) {
            return true;
        }
        rest = rest.rest();
    }
    false
}

// Whether a node of a kind with these children is a field without a `:`.
fn is_short(kind: SyntaxKind, children: &Run<'_>) -> bool
    ensures { result ≡ is_short kind children.now.trees }
{
    is_field(kind) && !has_colon(children)
}

/// Whether the first of some siblings is a field without a `:`.
pub(crate) fn is_short_first(left: &Run<'_>) -> bool
    ensures { result ≡ is_short_first left.now.trees }
{
    is_short(left.kind(), &left.inside())
}

fn is_short_at(node: Option<SyntaxNode>) -> bool
    ensures { result ≡ is_short_at node }
{
    match node {
        None => false,
        Some(node) => is_short(node.kind(), &Run::of(node.trees())),
    }
}

// Whether the node around a node is a field without a `:`.
fn is_below_short(node: Option<SyntaxNode>) -> bool
    ensures { result ≡ is_short_at (option_and_then parent_of node) }
{
    match node {
        None => false,
        Some(node) => is_short_at(node.parent()),
    }
}

/// Whether a node is all that is in a field without a `:`, or all that is in that.
pub(crate) fn is_in_short(node: &SyntaxNode) -> bool
    ensures { result ≡ is_in_short node.now }
{
    is_short_at(node.parent()) || is_below_short(node.parent())
}
