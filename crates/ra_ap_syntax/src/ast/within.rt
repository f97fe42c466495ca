//! Views whose nodes are all nodes of another view.
ghost use Rattle.std.specs.Prelude.{◌≡◌, true};
ghost use Rattle.syntax_kind.specs.declared.syntax_kind.SyntaxKind.{SyntaxKind};

use crate::ast::AstNode;

/// A view whose every node is a node of the view `A` too, as [`ast::Fn`](crate::ast::Fn) is of
/// [`ast::AnyHasAttrs`](crate::ast::AnyHasAttrs). So `AnyHasAttrs::from(function)` needs no test
/// and cannot fail, where [`AnyHasAttrs::new`](crate::ast::AnyHasAttrs::new) takes any view and may
/// return `None`.
///
/// It is implemented for each kind of node that has the trait which an `AnyHas..` is named for. An
/// implementation shows that each kind of the view is one of `A`.
pub trait Within<A: AstNode>: AstNode {
    /// Each kind of this view is a kind of `A`.
    ghost within: { (k : SyntaxKind) → Self.casts k ≡ true → A.casts k ≡ true };
}
