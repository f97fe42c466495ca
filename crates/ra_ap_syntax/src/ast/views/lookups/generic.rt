//! Lookups in generic parameters and arguments, bounds and where clauses. Made by `tools/views`
//! from `views.txt`.
//! Each call takes time linear in the number of children that it passes, and no memory.
//! The names are those of rust-analyzer.
ghost use Rattle.std.specs.Prelude.{◌≡◌};
ghost use Rattle.ras_node.specs.Nodes.{token_child, typed_children};
ghost use Rattle.ra_ap_syntax.specs.ExprCases.{IsFirstExpr};
ghost use Rattle.ra_ap_syntax.specs.GenericArgCases.{generic_arg_kinds};
ghost use Rattle.ra_ap_syntax.specs.GenericParamCases.{generic_param_kinds};
ghost use Rattle.ra_ap_syntax.specs.GenericViews.{IsFirstConstArg, IsFirstForBinder, IsFirstGenericParamList, IsFirstUseBoundGenericArgs, type_bound_kinds, where_pred_kinds};
ghost use Rattle.ra_ap_syntax.specs.PartViews.{IsFirstParamList};
ghost use Rattle.ra_ap_syntax.specs.PathViews.{IsFirstLifetime, IsFirstNameRef};
ghost use Rattle.ra_ap_syntax.specs.TyViews.{IsFirstRetType};
ghost use Rattle.ra_ap_syntax.specs.TypeCases.{IsFirstType};

use crate::ast::{self, AstChildren, support};
use lossless_tree::{SyntaxKind, SyntaxToken, T};

impl ast::AssocTypeArg {
    /// The first child that is a list of parameters, if there is one.
    pub fn param_list(&self) -> Option<ast::ParamList>
        ensures { IsFirstParamList self.now.syntax result }
    {
        support::child(&self.syntax)
    }

    /// The first child that is a name reference, if there is one.
    /// Example: `C` of `C = T`.
    pub fn name_ref(&self) -> Option<ast::NameRef>
        ensures { IsFirstNameRef self.now.syntax result }
    {
        support::child(&self.syntax)
    }

    /// The first child that is a type, if there is one.
    /// Example: `T` of `C = T`.
    pub fn ty(&self) -> Option<ast::Type>
        ensures { IsFirstType self.now.syntax result }
    {
        support::child(&self.syntax)
    }

    /// The first token `=` among the children, if there is one.
    /// Example: `=` of `C = T`.
    pub fn eq_token(&self) -> Option<SyntaxToken>
        ensures { result ≡ token_child SyntaxKind.EQ self.now.syntax }
    {
        support::token(&self.syntax, T![=])
    }

    /// The first child that is a const argument, if there is one.
    /// Example: `1` of `C = 1`.
    pub fn const_arg(&self) -> Option<ast::ConstArg>
        ensures { IsFirstConstArg self.now.syntax result }
    {
        support::child(&self.syntax)
    }

    /// The first child that is a return type, if there is one.
    /// Example: `-> E` of `C(D) -> E = T`.
    pub fn ret_type(&self) -> Option<ast::RetType>
        ensures { IsFirstRetType self.now.syntax result }
    {
        support::child(&self.syntax)
    }
}

impl ast::ConstArg {
    /// The first child that is an expression, if there is one.
    /// Example: `1` of `1`.
    pub fn expr(&self) -> Option<ast::Expr>
        ensures { IsFirstExpr self.now.syntax result }
    {
        support::child(&self.syntax)
    }
}

impl ast::ConstParam {
    /// The first child that is a const argument, if there is one.
    /// Example: `1` of `const N: T = 1`.
    pub fn default_val(&self) -> Option<ast::ConstArg>
        ensures { IsFirstConstArg self.now.syntax result }
    {
        support::child(&self.syntax)
    }

    /// The first child that is a type, if there is one.
    /// Example: `T` of `const N: T = 1`.
    pub fn ty(&self) -> Option<ast::Type>
        ensures { IsFirstType self.now.syntax result }
    {
        support::child(&self.syntax)
    }

    /// The first token `:` among the children, if there is one.
    /// Example: `:` of `const N: T = 1`.
    pub fn colon_token(&self) -> Option<SyntaxToken>
        ensures { result ≡ token_child SyntaxKind.COLON self.now.syntax }
    {
        support::token(&self.syntax, T![:])
    }

    /// The first token `const` among the children, if there is one.
    /// Example: `const` of `const N: T = 1`.
    pub fn const_token(&self) -> Option<SyntaxToken>
        ensures { result ≡ token_child SyntaxKind.CONST_KW self.now.syntax }
    {
        support::token(&self.syntax, T![const])
    }

    /// The first token `=` among the children, if there is one.
    /// Example: `=` of `const N: T = 1`.
    pub fn eq_token(&self) -> Option<SyntaxToken>
        ensures { result ≡ token_child SyntaxKind.EQ self.now.syntax }
    {
        support::token(&self.syntax, T![=])
    }
}

impl ast::ForBinder {
    /// The first child that is a list of generic parameters, if there is one.
    /// Example: `<'a>` of `for<'a>`.
    pub fn generic_param_list(&self) -> Option<ast::GenericParamList>
        ensures { IsFirstGenericParamList self.now.syntax result }
    {
        support::child(&self.syntax)
    }

    /// The first token `for` among the children, if there is one.
    /// Example: `for` of `for<'a>`.
    pub fn for_token(&self) -> Option<SyntaxToken>
        ensures { result ≡ token_child SyntaxKind.FOR_KW self.now.syntax }
    {
        support::token(&self.syntax, T![for])
    }
}

impl ast::GenericArgList {
    /// The children that are generic arguments, in order.
    /// Example: `'a` and `T` of `::<'a, T>`.
    pub fn generic_args(&self) -> AstChildren<ast::GenericArg>
        ensures { result ≡ typed_children generic_arg_kinds self.now.syntax }
    {
        support::children(&self.syntax)
    }

    /// The first token `::` among the children, if there is one.
    /// Example: `::` of `::<'a, T>`.
    pub fn coloncolon_token(&self) -> Option<SyntaxToken>
        ensures { result ≡ token_child SyntaxKind.COLON2 self.now.syntax }
    {
        support::token(&self.syntax, T![::])
    }

    /// The first token `<` among the children, if there is one.
    /// Example: `<` of `::<'a, T>`.
    pub fn l_angle_token(&self) -> Option<SyntaxToken>
        ensures { result ≡ token_child SyntaxKind.L_ANGLE self.now.syntax }
    {
        support::token(&self.syntax, T![<])
    }

    /// The first token `>` among the children, if there is one.
    /// Example: `>` of `::<'a, T>`.
    pub fn r_angle_token(&self) -> Option<SyntaxToken>
        ensures { result ≡ token_child SyntaxKind.R_ANGLE self.now.syntax }
    {
        support::token(&self.syntax, T![>])
    }
}

impl ast::GenericParamList {
    /// The children that are generic parameters, in order.
    /// Example: `'a` and `T` of `<'a, T>`.
    pub fn generic_params(&self) -> AstChildren<ast::GenericParam>
        ensures { result ≡ typed_children generic_param_kinds self.now.syntax }
    {
        support::children(&self.syntax)
    }

    /// The first token `<` among the children, if there is one.
    /// Example: `<` of `<'a, T>`.
    pub fn l_angle_token(&self) -> Option<SyntaxToken>
        ensures { result ≡ token_child SyntaxKind.L_ANGLE self.now.syntax }
    {
        support::token(&self.syntax, T![<])
    }

    /// The first token `>` among the children, if there is one.
    /// Example: `>` of `<'a, T>`.
    pub fn r_angle_token(&self) -> Option<SyntaxToken>
        ensures { result ≡ token_child SyntaxKind.R_ANGLE self.now.syntax }
    {
        support::token(&self.syntax, T![>])
    }
}

impl ast::LifetimeArg {
    /// The first child that is a lifetime, if there is one.
    /// Example: `'a` of `'a`.
    pub fn lifetime(&self) -> Option<ast::Lifetime>
        ensures { IsFirstLifetime self.now.syntax result }
    {
        support::child(&self.syntax)
    }
}

impl ast::LifetimeParam {
    /// The first child that is a lifetime, if there is one.
    /// Example: `'a` of `'a: 'b`.
    pub fn lifetime(&self) -> Option<ast::Lifetime>
        ensures { IsFirstLifetime self.now.syntax result }
    {
        support::child(&self.syntax)
    }
}

impl ast::TypeArg {
    /// The first child that is a type, if there is one.
    /// Example: `T` of `T`.
    pub fn ty(&self) -> Option<ast::Type>
        ensures { IsFirstType self.now.syntax result }
    {
        support::child(&self.syntax)
    }
}

impl ast::TypeBound {
    /// The first child that is a `for` binder, if there is one.
    /// Example: `for<'a>` of `for<'a> ?T`.
    pub fn for_binder(&self) -> Option<ast::ForBinder>
        ensures { IsFirstForBinder self.now.syntax result }
    {
        support::child(&self.syntax)
    }

    /// The first child that is a type, if there is one.
    /// Example: `T` of `for<'a> ?T`.
    pub fn ty(&self) -> Option<ast::Type>
        ensures { IsFirstType self.now.syntax result }
    {
        support::child(&self.syntax)
    }

    /// The first token `?` among the children, if there is one.
    /// Example: `?` of `for<'a> ?T`.
    pub fn question_mark_token(&self) -> Option<SyntaxToken>
        ensures { result ≡ token_child SyntaxKind.QUESTION self.now.syntax }
    {
        support::token(&self.syntax, T![?])
    }

    /// The first token `async` among the children, if there is one.
    /// Example: `async` of `async T`.
    pub fn async_token(&self) -> Option<SyntaxToken>
        ensures { result ≡ token_child SyntaxKind.ASYNC_KW self.now.syntax }
    {
        support::token(&self.syntax, T![async])
    }

    /// The first token `const` among the children, if there is one.
    /// Example: `const` of `const T`.
    pub fn const_token(&self) -> Option<SyntaxToken>
        ensures { result ≡ token_child SyntaxKind.CONST_KW self.now.syntax }
    {
        support::token(&self.syntax, T![const])
    }

    /// The first token `[` among the children, if there is one.
    /// Example: `[` of `[const] T`.
    pub fn l_brack_token(&self) -> Option<SyntaxToken>
        ensures { result ≡ token_child SyntaxKind.L_BRACK self.now.syntax }
    {
        support::token(&self.syntax, T!['['])
    }

    /// The first token `]` among the children, if there is one.
    /// Example: `]` of `[const] T`.
    pub fn r_brack_token(&self) -> Option<SyntaxToken>
        ensures { result ≡ token_child SyntaxKind.R_BRACK self.now.syntax }
    {
        support::token(&self.syntax, T![']'])
    }

    /// The first token `~` among the children, if there is one.
    /// Example: `~` of `~const T`.
    pub fn tilde_token(&self) -> Option<SyntaxToken>
        ensures { result ≡ token_child SyntaxKind.TILDE self.now.syntax }
    {
        support::token(&self.syntax, T![~])
    }

    /// The first child that is a lifetime, if there is one.
    /// Example: `'a` of `'a`.
    pub fn lifetime(&self) -> Option<ast::Lifetime>
        ensures { IsFirstLifetime self.now.syntax result }
    {
        support::child(&self.syntax)
    }

    /// The first child that is the generic arguments of a `use` bound, if there is one.
    /// Example: `<'a, T>` of `use<'a, T>`.
    pub fn use_bound_generic_args(&self) -> Option<ast::UseBoundGenericArgs>
        ensures { IsFirstUseBoundGenericArgs self.now.syntax result }
    {
        support::child(&self.syntax)
    }

    /// The first token `use` among the children, if there is one.
    /// Example: `use` of `use<'a, T>`.
    pub fn use_token(&self) -> Option<SyntaxToken>
        ensures { result ≡ token_child SyntaxKind.USE_KW self.now.syntax }
    {
        support::token(&self.syntax, T![use])
    }
}

impl ast::TypeBoundList {
    /// The children that are type bounds, in order.
    /// Example: `T` and `U` of `T + U`.
    pub fn bounds(&self) -> AstChildren<ast::TypeBound>
        ensures { result ≡ typed_children type_bound_kinds self.now.syntax }
    {
        support::children(&self.syntax)
    }
}

impl ast::TypeParam {
    /// The first child that is a type, if there is one.
    /// Example: `U` of `T = U`.
    pub fn default_type(&self) -> Option<ast::Type>
        ensures { IsFirstType self.now.syntax result }
    {
        support::child(&self.syntax)
    }

    /// The first token `=` among the children, if there is one.
    /// Example: `=` of `T = U`.
    pub fn eq_token(&self) -> Option<SyntaxToken>
        ensures { result ≡ token_child SyntaxKind.EQ self.now.syntax }
    {
        support::token(&self.syntax, T![=])
    }
}

impl ast::UseBoundGenericArgs {
    /// The first token `<` among the children, if there is one.
    /// Example: `<` of `<'a, T>`.
    pub fn l_angle_token(&self) -> Option<SyntaxToken>
        ensures { result ≡ token_child SyntaxKind.L_ANGLE self.now.syntax }
    {
        support::token(&self.syntax, T![<])
    }

    /// The first token `>` among the children, if there is one.
    /// Example: `>` of `<'a, T>`.
    pub fn r_angle_token(&self) -> Option<SyntaxToken>
        ensures { result ≡ token_child SyntaxKind.R_ANGLE self.now.syntax }
    {
        support::token(&self.syntax, T![>])
    }
}

impl ast::WhereClause {
    /// The children that are `where` predicates, in order.
    /// Example: `T: U` and `V: W` of `where T: U, V: W`.
    pub fn predicates(&self) -> AstChildren<ast::WherePred>
        ensures { result ≡ typed_children where_pred_kinds self.now.syntax }
    {
        support::children(&self.syntax)
    }

    /// The first token `where` among the children, if there is one.
    /// Example: `where` of `where T: U, V: W`.
    pub fn where_token(&self) -> Option<SyntaxToken>
        ensures { result ≡ token_child SyntaxKind.WHERE_KW self.now.syntax }
    {
        support::token(&self.syntax, T![where])
    }
}

impl ast::WherePred {
    /// The first child that is a `for` binder, if there is one.
    /// Example: `for<'a>` of `for<'a> T: U`.
    pub fn for_binder(&self) -> Option<ast::ForBinder>
        ensures { IsFirstForBinder self.now.syntax result }
    {
        support::child(&self.syntax)
    }

    /// The first child that is a type, if there is one.
    /// Example: `T` of `for<'a> T: U`.
    pub fn ty(&self) -> Option<ast::Type>
        ensures { IsFirstType self.now.syntax result }
    {
        support::child(&self.syntax)
    }

    /// The first child that is a lifetime, if there is one.
    /// Example: `'a` of `'a: 'b`.
    pub fn lifetime(&self) -> Option<ast::Lifetime>
        ensures { IsFirstLifetime self.now.syntax result }
    {
        support::child(&self.syntax)
    }
}
