//! The types of an impl.
ghost use Rattle.std.specs.Prelude.{◌≡◌, option_map};
ghost use Rattle.ras_node_ext.specs.NodeParts.{trait_of, self_type_of};

use lossless_tree::{SyntaxKind, SyntaxNode};
use ras_node::{AstNode, support};

/// The trait of an impl: the first child that can be viewed as an `N`, if it starts before the
/// `for`, or `None` if there is no `for`.
pub fn trait_of<N: AstNode + Drop>(parent: &SyntaxNode) -> Option<N>
    ensures { option_map N.node result ≡ trait_of N.casts parent.now }
{
    let for_token = support::token(parent, SyntaxKind::FOR_KW)?;
    let first = support::children::<N>(parent).next()?;
    if first.syntax().text_range().start() < for_token.text_range().start() {
        Some(first)
    } else {
        None
    }
}

/// The type that an impl is for. Among the children that can be viewed as an `N`, it is the second
/// if the first starts before the `for`, otherwise the first.
pub fn self_type_of<N: AstNode + Drop>(parent: &SyntaxNode) -> Option<N>
    ensures { option_map N.node result ≡ self_type_of N.casts parent.now }
{
    let mut all = support::children::<N>(parent);
    let first = all.next()?;
    if let Some(for_token) = support::token(parent, SyntaxKind::FOR_KW) {
        if first.syntax().text_range().start() < for_token.text_range().start() {
            return all.next();
        }
    }
    Some(first)
}
