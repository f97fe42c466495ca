//! Lookups in paths, generic arguments and bounds. Made by `tools/views` from `views.txt`.
ghost use Rattle.std.specs.Prelude.{◌≡◌};
ghost use Rattle.ras_node.specs.Nodes.{token_child, typed_children};
ghost use Rattle.ra_ap_syntax.specs.GenericViews.{type_arg_kinds};
ghost use Rattle.rust_views.specs.PathViews.{IsFirstParenthesizedArgList, IsFirstReturnTypeSyntax};
ghost use Rattle.rust_views.specs.UseBoundGenericArgCases.{use_bound_generic_arg_kinds};

use crate::{ParenthesizedArgList, ReturnTypeSyntax, UseBoundGenericArg};
use ra_ap_syntax::ast::{self, AstChildren, AstNode};
use ra_ap_syntax::{SyntaxKind, SyntaxToken, T};
use ras_node::support;

/// The lookups of an `AssocTypeArg` that lead to a view or token of this table.
pub trait AssocTypeArgExt: AstNode {
    /// The first child that is a return type syntax, if there is one.
    /// Example: `(..)` of `C(..): T`.
    final fn return_type_syntax(&self) -> Option<ReturnTypeSyntax>
        ensures { IsFirstReturnTypeSyntax (Self.node self.now) result }
    {
        support::child(self.syntax())
    }
}

impl AssocTypeArgExt for ast::AssocTypeArg {}

/// The lookups of a `ParenthesizedArgList`.
pub trait ParenthesizedArgListExt: AstNode {
    /// The children that are type arguments, in order.
    /// Example: `T` and `U` of `::(T, U)`.
    final fn type_args(&self) -> AstChildren<ast::TypeArg>
        ensures { result ≡ typed_children type_arg_kinds (Self.node self.now) }
    {
        support::children(self.syntax())
    }

    /// The first token `::` among the children, if there is one.
    /// Example: `::` of `::(T, U)`.
    final fn coloncolon_token(&self) -> Option<SyntaxToken>
        ensures { result ≡ token_child SyntaxKind.COLON2 (Self.node self.now) }
    {
        support::token(self.syntax(), T![::])
    }

    /// The first token `(` among the children, if there is one.
    /// Example: `(` of `::(T, U)`.
    final fn l_paren_token(&self) -> Option<SyntaxToken>
        ensures { result ≡ token_child SyntaxKind.L_PAREN (Self.node self.now) }
    {
        support::token(self.syntax(), T!['('])
    }

    /// The first token `)` among the children, if there is one.
    /// Example: `)` of `::(T, U)`.
    final fn r_paren_token(&self) -> Option<SyntaxToken>
        ensures { result ≡ token_child SyntaxKind.R_PAREN (Self.node self.now) }
    {
        support::token(self.syntax(), T![')'])
    }
}

impl ParenthesizedArgListExt for ParenthesizedArgList {}

/// The lookups of a `PathSegment` that lead to a view or token of this table.
pub trait PathSegmentExt: AstNode {
    /// The first child that is a list of parenthesized arguments, if there is one.
    /// Example: `(T)` of `Fn(T) -> U`.
    final fn parenthesized_arg_list(&self) -> Option<ParenthesizedArgList>
        ensures { IsFirstParenthesizedArgList (Self.node self.now) result }
    {
        support::child(self.syntax())
    }

    /// The first child that is a return type syntax, if there is one.
    /// Example: `(..)` of `f(..)`.
    final fn return_type_syntax(&self) -> Option<ReturnTypeSyntax>
        ensures { IsFirstReturnTypeSyntax (Self.node self.now) result }
    {
        support::child(self.syntax())
    }
}

impl PathSegmentExt for ast::PathSegment {}

/// The lookups of a `ReturnTypeSyntax`.
pub trait ReturnTypeSyntaxExt: AstNode {
    /// The first token `..` among the children, if there is one.
    /// Example: `..` of `(..)`.
    final fn dotdot_token(&self) -> Option<SyntaxToken>
        ensures { result ≡ token_child SyntaxKind.DOT2 (Self.node self.now) }
    {
        support::token(self.syntax(), T![..])
    }

    /// The first token `(` among the children, if there is one.
    /// Example: `(` of `(..)`.
    final fn l_paren_token(&self) -> Option<SyntaxToken>
        ensures { result ≡ token_child SyntaxKind.L_PAREN (Self.node self.now) }
    {
        support::token(self.syntax(), T!['('])
    }

    /// The first token `)` among the children, if there is one.
    /// Example: `)` of `(..)`.
    final fn r_paren_token(&self) -> Option<SyntaxToken>
        ensures { result ≡ token_child SyntaxKind.R_PAREN (Self.node self.now) }
    {
        support::token(self.syntax(), T![')'])
    }
}

impl ReturnTypeSyntaxExt for ReturnTypeSyntax {}

/// The lookups of an `UseBoundGenericArgs` that lead to a view or token of this table.
pub trait UseBoundGenericArgsExt: AstNode {
    /// The children that are use bound generic arguments, in order.
    /// Example: `'a` and `T` of `<'a, T>`.
    final fn use_bound_generic_args(&self) -> AstChildren<UseBoundGenericArg>
        ensures { result ≡ typed_children use_bound_generic_arg_kinds (Self.node self.now) }
    {
        support::children(self.syntax())
    }
}

impl UseBoundGenericArgsExt for ast::UseBoundGenericArgs {}
