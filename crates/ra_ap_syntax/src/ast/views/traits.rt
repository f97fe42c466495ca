//! The lookups that several types share. Made by `tools/views` from `views.txt`.
//! Each call takes time linear in the number of children that it passes, and no memory.
ghost use Rattle.std.specs.Prelude.{◌≡◌};
ghost use Rattle.ras_node.specs.Nodes.{token_child, typed_children};
ghost use Rattle.ra_ap_syntax.specs.GenericViews.{IsFirstGenericArgList, IsFirstGenericParamList, IsFirstTypeBoundList, IsFirstWhereClause};
ghost use Rattle.ra_ap_syntax.specs.ItemCases.{item_kinds};
ghost use Rattle.ra_ap_syntax.specs.PartViews.{IsFirstVisibility};
ghost use Rattle.ra_ap_syntax.specs.PathViews.{IsFirstName};
ghost use Rattle.ra_ap_syntax.specs.StmtViews.{IsFirstArgList};

use crate::ast::{self, AstChildren, AstNode, support};
use lossless_tree::{SyntaxKind, SyntaxToken, T};

/// A node with a name.
pub trait HasName: AstNode {
    /// The first child that is a name, if there is one.
    /// Example: `f` of `fn f() {}`.
    final fn name(&self) -> Option<ast::Name>
        ensures { IsFirstName (Self.node self.now) result }
    {
        support::child(self.syntax())
    }
}

/// A node that can have a visibility.
pub trait HasVisibility: AstNode {
    /// The first child that is a visibility, if there is one.
    /// Example: `pub` of `pub fn f() {}`.
    final fn visibility(&self) -> Option<ast::Visibility>
        ensures { IsFirstVisibility (Self.node self.now) result }
    {
        support::child(self.syntax())
    }
}

/// A call.
pub trait HasArgList: AstNode {
    /// The first child that is a list of arguments, if there is one.
    /// Example: `(a)` of `f(a)`.
    final fn arg_list(&self) -> Option<ast::ArgList>
        ensures { IsFirstArgList (Self.node self.now) result }
    {
        support::child(self.syntax())
    }
}

/// A container of items.
pub trait HasModuleItem: AstNode {
    /// The children that are items, in order.
    /// Example: `fn f() {}` and `struct S;` of `fn f() {} struct S;`.
    final fn items(&self) -> AstChildren<ast::Item>
        ensures { result ≡ typed_children item_kinds (Self.node self.now) }
    {
        support::children(self.syntax())
    }
}

/// A node that can have generic parameters.
pub trait HasGenericParams: AstNode {
    /// The first child that is a list of generic parameters, if there is one.
    /// Example: `<T>` of `fn f<T>() where T: U {}`.
    final fn generic_param_list(&self) -> Option<ast::GenericParamList>
        ensures { IsFirstGenericParamList (Self.node self.now) result }
    {
        support::child(self.syntax())
    }

    /// The first child that is a `where` clause, if there is one.
    /// Example: `where T: U` of `fn f<T>() where T: U {}`.
    final fn where_clause(&self) -> Option<ast::WhereClause>
        ensures { IsFirstWhereClause (Self.node self.now) result }
    {
        support::child(self.syntax())
    }
}

/// A node that can have generic arguments.
pub trait HasGenericArgs: AstNode {
    /// The first child that is a list of generic arguments, if there is one.
    /// Example: `::<T>` of `a.f::<T>()`.
    final fn generic_arg_list(&self) -> Option<ast::GenericArgList>
        ensures { IsFirstGenericArgList (Self.node self.now) result }
    {
        support::child(self.syntax())
    }
}

/// A node that can have type bounds.
pub trait HasTypeBounds: AstNode {
    /// The first child that is a list of type bounds, if there is one.
    /// Example: `U + V` of `T: U + V`.
    final fn type_bound_list(&self) -> Option<ast::TypeBoundList>
        ensures { IsFirstTypeBoundList (Self.node self.now) result }
    {
        support::child(self.syntax())
    }

    /// The first token `:` among the children, if there is one.
    /// Example: `:` of `T: U + V`.
    final fn colon_token(&self) -> Option<SyntaxToken>
        ensures { result ≡ token_child SyntaxKind.COLON (Self.node self.now) }
    {
        support::token(self.syntax(), T![:])
    }
}
