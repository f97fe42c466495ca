//! Lookups in paths and names. Made by `tools/views` from `views.txt`.
//! Each call takes time linear in the number of children that it passes, and no memory.
//! The names are those of rust-analyzer.
ghost use Rattle.std.specs.Prelude.{◌≡◌};
ghost use Rattle.ras_node.specs.Nodes.{token_child};
ghost use Rattle.ra_ap_syntax.specs.PathViews.{IsFirstNameRef, IsFirstPath, IsFirstPathSegment, IsFirstTypeAnchor};
ghost use Rattle.ra_ap_syntax.specs.TyViews.{IsFirstPathType, IsFirstRetType};
ghost use Rattle.ra_ap_syntax.specs.TypeCases.{IsFirstType};

use crate::ast::{self, support};
use lossless_tree::{SyntaxKind, SyntaxToken, T};

impl ast::Lifetime {
    /// The first lifetime identifier token among the children, if there is one.
    /// Example: `'a` of `'a`.
    pub fn lifetime_ident_token(&self) -> Option<SyntaxToken>
        ensures { result ≡ token_child SyntaxKind.LIFETIME_IDENT self.now.syntax }
    {
        support::token(&self.syntax, SyntaxKind::LIFETIME_IDENT)
    }
}

impl ast::Name {
    /// The first identifier token among the children, if there is one.
    /// Example: `f` of `f`.
    pub fn ident_token(&self) -> Option<SyntaxToken>
        ensures { result ≡ token_child SyntaxKind.IDENT self.now.syntax }
    {
        support::token(&self.syntax, SyntaxKind::IDENT)
    }

    /// The first token `self` among the children, if there is one.
    /// Example: `self` of `self`.
    pub fn self_token(&self) -> Option<SyntaxToken>
        ensures { result ≡ token_child SyntaxKind.SELF_KW self.now.syntax }
    {
        support::token(&self.syntax, T![self])
    }
}

impl ast::NameRef {
    /// The first identifier token among the children, if there is one.
    /// Example: `a` of `a`.
    pub fn ident_token(&self) -> Option<SyntaxToken>
        ensures { result ≡ token_child SyntaxKind.IDENT self.now.syntax }
    {
        support::token(&self.syntax, SyntaxKind::IDENT)
    }

    /// The first token `self` among the children, if there is one.
    /// Example: `self` of `self`.
    pub fn self_token(&self) -> Option<SyntaxToken>
        ensures { result ≡ token_child SyntaxKind.SELF_KW self.now.syntax }
    {
        support::token(&self.syntax, T![self])
    }

    /// The first token `super` among the children, if there is one.
    /// Example: `super` of `super`.
    pub fn super_token(&self) -> Option<SyntaxToken>
        ensures { result ≡ token_child SyntaxKind.SUPER_KW self.now.syntax }
    {
        support::token(&self.syntax, T![super])
    }

    /// The first token `crate` among the children, if there is one.
    /// Example: `crate` of `crate`.
    pub fn crate_token(&self) -> Option<SyntaxToken>
        ensures { result ≡ token_child SyntaxKind.CRATE_KW self.now.syntax }
    {
        support::token(&self.syntax, T![crate])
    }

    /// The first token `Self` among the children, if there is one.
    /// Example: `Self` of `Self`.
    pub fn self_type_token(&self) -> Option<SyntaxToken>
        ensures { result ≡ token_child SyntaxKind.SELF_TYPE_KW self.now.syntax }
    {
        support::token(&self.syntax, T![Self])
    }

    /// The first int number token among the children, if there is one.
    /// Example: `0` of `0`.
    pub fn int_number_token(&self) -> Option<SyntaxToken>
        ensures { result ≡ token_child SyntaxKind.INT_NUMBER self.now.syntax }
    {
        support::token(&self.syntax, SyntaxKind::INT_NUMBER)
    }
}

impl ast::Path {
    /// The first child that is a path, if there is one.
    /// Example: `a` of `a::b`.
    pub fn qualifier(&self) -> Option<ast::Path>
        ensures { IsFirstPath self.now.syntax result }
    {
        support::child(&self.syntax)
    }

    /// The first child that is a path segment, if there is one.
    /// Example: `b` of `a::b`.
    pub fn segment(&self) -> Option<ast::PathSegment>
        ensures { IsFirstPathSegment self.now.syntax result }
    {
        support::child(&self.syntax)
    }

    /// The first token `::` among the children, if there is one.
    /// Example: `::` of `a::b`.
    pub fn coloncolon_token(&self) -> Option<SyntaxToken>
        ensures { result ≡ token_child SyntaxKind.COLON2 self.now.syntax }
    {
        support::token(&self.syntax, T![::])
    }
}

impl ast::PathSegment {
    /// The first child that is a name reference, if there is one.
    /// Example: `a` of `::a`.
    pub fn name_ref(&self) -> Option<ast::NameRef>
        ensures { IsFirstNameRef self.now.syntax result }
    {
        support::child(&self.syntax)
    }

    /// The first token `::` among the children, if there is one.
    /// Example: `::` of `::a`.
    pub fn coloncolon_token(&self) -> Option<SyntaxToken>
        ensures { result ≡ token_child SyntaxKind.COLON2 self.now.syntax }
    {
        support::token(&self.syntax, T![::])
    }

    /// The first child that is a return type, if there is one.
    /// Example: `-> U` of `Fn(T) -> U`.
    pub fn ret_type(&self) -> Option<ast::RetType>
        ensures { IsFirstRetType self.now.syntax result }
    {
        support::child(&self.syntax)
    }

    /// The first child that is a type anchor, if there is one.
    /// Example: `<T as U>` of `<T as U>`.
    pub fn type_anchor(&self) -> Option<ast::TypeAnchor>
        ensures { IsFirstTypeAnchor self.now.syntax result }
    {
        support::child(&self.syntax)
    }
}

impl ast::TypeAnchor {
    /// The first child that is a path type, if there is one.
    /// Example: `T` of `<T as U>`.
    pub fn path_type(&self) -> Option<ast::PathType>
        ensures { IsFirstPathType self.now.syntax result }
    {
        support::child(&self.syntax)
    }

    /// The first child that is a type, if there is one.
    /// Example: `T` of `<T as U>`.
    pub fn ty(&self) -> Option<ast::Type>
        ensures { IsFirstType self.now.syntax result }
    {
        support::child(&self.syntax)
    }

    /// The first token `as` among the children, if there is one.
    /// Example: `as` of `<T as U>`.
    pub fn as_token(&self) -> Option<SyntaxToken>
        ensures { result ≡ token_child SyntaxKind.AS_KW self.now.syntax }
    {
        support::token(&self.syntax, T![as])
    }

    /// The first token `<` among the children, if there is one.
    /// Example: `<` of `<T as U>`.
    pub fn l_angle_token(&self) -> Option<SyntaxToken>
        ensures { result ≡ token_child SyntaxKind.L_ANGLE self.now.syntax }
    {
        support::token(&self.syntax, T![<])
    }

    /// The first token `>` among the children, if there is one.
    /// Example: `>` of `<T as U>`.
    pub fn r_angle_token(&self) -> Option<SyntaxToken>
        ensures { result ≡ token_child SyntaxKind.R_ANGLE self.now.syntax }
    {
        support::token(&self.syntax, T![>])
    }
}
