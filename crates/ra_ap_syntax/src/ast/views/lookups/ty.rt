//! Lookups in types. Made by `tools/views` from `views.txt`.
//! Each call takes time linear in the number of children that it passes, and no memory.
//! The names are those of rust-analyzer.
ghost use Rattle.std.specs.Prelude.{◌≡◌};
ghost use Rattle.ras_node.specs.Nodes.{token_child, typed_children};
ghost use Rattle.ra_ap_syntax.specs.GenericViews.{IsFirstConstArg, IsFirstForBinder, IsFirstTypeBoundList};
ghost use Rattle.ra_ap_syntax.specs.ItemViews.{IsFirstMacroCall};
ghost use Rattle.ra_ap_syntax.specs.PartViews.{IsFirstAbi, IsFirstParamList};
ghost use Rattle.ra_ap_syntax.specs.PathViews.{IsFirstLifetime, IsFirstPath};
ghost use Rattle.ra_ap_syntax.specs.TyViews.{IsFirstRetType};
ghost use Rattle.ra_ap_syntax.specs.TypeCases.{IsFirstType, type_kinds};

use crate::ast::{self, AstChildren, support};
use lossless_tree::{SyntaxKind, SyntaxToken, T};

impl ast::ArrayType {
    /// The first child that is a const argument, if there is one.
    /// Example: `1` of `[T; 1]`.
    pub fn const_arg(&self) -> Option<ast::ConstArg>
        ensures { IsFirstConstArg self.now.syntax result }
    {
        support::child(&self.syntax)
    }

    /// The first child that is a type, if there is one.
    /// Example: `T` of `[T; 1]`.
    pub fn ty(&self) -> Option<ast::Type>
        ensures { IsFirstType self.now.syntax result }
    {
        support::child(&self.syntax)
    }

    /// The first token `[` among the children, if there is one.
    /// Example: `[` of `[T; 1]`.
    pub fn l_brack_token(&self) -> Option<SyntaxToken>
        ensures { result ≡ token_child SyntaxKind.L_BRACK self.now.syntax }
    {
        support::token(&self.syntax, T!['['])
    }

    /// The first token `]` among the children, if there is one.
    /// Example: `]` of `[T; 1]`.
    pub fn r_brack_token(&self) -> Option<SyntaxToken>
        ensures { result ≡ token_child SyntaxKind.R_BRACK self.now.syntax }
    {
        support::token(&self.syntax, T![']'])
    }

    /// The first token `;` among the children, if there is one.
    /// Example: `;` of `[T; 1]`.
    pub fn semicolon_token(&self) -> Option<SyntaxToken>
        ensures { result ≡ token_child SyntaxKind.SEMICOLON self.now.syntax }
    {
        support::token(&self.syntax, T![;])
    }
}

impl ast::DynTraitType {
    /// The first child that is a list of type bounds, if there is one.
    /// Example: `T + U` of `dyn T + U`.
    pub fn type_bound_list(&self) -> Option<ast::TypeBoundList>
        ensures { IsFirstTypeBoundList self.now.syntax result }
    {
        support::child(&self.syntax)
    }

    /// The first token `dyn` among the children, if there is one.
    /// Example: `dyn` of `dyn T + U`.
    pub fn dyn_token(&self) -> Option<SyntaxToken>
        ensures { result ≡ token_child SyntaxKind.DYN_KW self.now.syntax }
    {
        support::token(&self.syntax, T![dyn])
    }
}

impl ast::FnPtrType {
    /// The first token `async` among the children, if there is one.
    pub fn async_token(&self) -> Option<SyntaxToken>
        ensures { result ≡ token_child SyntaxKind.ASYNC_KW self.now.syntax }
    {
        support::token(&self.syntax, T![async])
    }

    /// The first token `const` among the children, if there is one.
    pub fn const_token(&self) -> Option<SyntaxToken>
        ensures { result ≡ token_child SyntaxKind.CONST_KW self.now.syntax }
    {
        support::token(&self.syntax, T![const])
    }

    /// The first child that is an ABI, if there is one.
    /// Example: `extern "C"` of `unsafe extern "C" fn(T) -> U`.
    pub fn abi(&self) -> Option<ast::Abi>
        ensures { IsFirstAbi self.now.syntax result }
    {
        support::child(&self.syntax)
    }

    /// The first child that is a list of parameters, if there is one.
    /// Example: `(T)` of `unsafe extern "C" fn(T) -> U`.
    pub fn param_list(&self) -> Option<ast::ParamList>
        ensures { IsFirstParamList self.now.syntax result }
    {
        support::child(&self.syntax)
    }

    /// The first child that is a return type, if there is one.
    /// Example: `-> U` of `unsafe extern "C" fn(T) -> U`.
    pub fn ret_type(&self) -> Option<ast::RetType>
        ensures { IsFirstRetType self.now.syntax result }
    {
        support::child(&self.syntax)
    }

    /// The first token `fn` among the children, if there is one.
    /// Example: `fn` of `unsafe extern "C" fn(T) -> U`.
    pub fn fn_token(&self) -> Option<SyntaxToken>
        ensures { result ≡ token_child SyntaxKind.FN_KW self.now.syntax }
    {
        support::token(&self.syntax, T![fn])
    }

    /// The first token `unsafe` among the children, if there is one.
    /// Example: `unsafe` of `unsafe extern "C" fn(T) -> U`.
    pub fn unsafe_token(&self) -> Option<SyntaxToken>
        ensures { result ≡ token_child SyntaxKind.UNSAFE_KW self.now.syntax }
    {
        support::token(&self.syntax, T![unsafe])
    }
}

impl ast::ForType {
    /// The first child that is a `for` binder, if there is one.
    /// Example: `for<'a>` of `for<'a> fn(&'a T)`.
    pub fn for_binder(&self) -> Option<ast::ForBinder>
        ensures { IsFirstForBinder self.now.syntax result }
    {
        support::child(&self.syntax)
    }

    /// The first child that is a type, if there is one.
    /// Example: `fn(&'a T)` of `for<'a> fn(&'a T)`.
    pub fn ty(&self) -> Option<ast::Type>
        ensures { IsFirstType self.now.syntax result }
    {
        support::child(&self.syntax)
    }
}

impl ast::ImplTraitType {
    /// The first child that is a list of type bounds, if there is one.
    /// Example: `T + U` of `impl T + U`.
    pub fn type_bound_list(&self) -> Option<ast::TypeBoundList>
        ensures { IsFirstTypeBoundList self.now.syntax result }
    {
        support::child(&self.syntax)
    }

    /// The first token `impl` among the children, if there is one.
    /// Example: `impl` of `impl T + U`.
    pub fn impl_token(&self) -> Option<SyntaxToken>
        ensures { result ≡ token_child SyntaxKind.IMPL_KW self.now.syntax }
    {
        support::token(&self.syntax, T![impl])
    }
}

impl ast::InferType {
    /// The first token `_` among the children, if there is one.
    /// Example: `_` of `_`.
    pub fn underscore_token(&self) -> Option<SyntaxToken>
        ensures { result ≡ token_child SyntaxKind.UNDERSCORE self.now.syntax }
    {
        support::token(&self.syntax, T![_])
    }
}

impl ast::MacroType {
    /// The first child that is a macro call, if there is one.
    /// Example: `m!(a)` of `m!(a)`.
    pub fn macro_call(&self) -> Option<ast::MacroCall>
        ensures { IsFirstMacroCall self.now.syntax result }
    {
        support::child(&self.syntax)
    }
}

impl ast::NeverType {
    /// The first token `!` among the children, if there is one.
    /// Example: `!` of `!`.
    pub fn excl_token(&self) -> Option<SyntaxToken>
        ensures { result ≡ token_child SyntaxKind.BANG self.now.syntax }
    {
        support::token(&self.syntax, T![!])
    }
}

impl ast::ParenType {
    /// The first child that is a type, if there is one.
    /// Example: `T` of `(T)`.
    pub fn ty(&self) -> Option<ast::Type>
        ensures { IsFirstType self.now.syntax result }
    {
        support::child(&self.syntax)
    }

    /// The first token `(` among the children, if there is one.
    /// Example: `(` of `(T)`.
    pub fn l_paren_token(&self) -> Option<SyntaxToken>
        ensures { result ≡ token_child SyntaxKind.L_PAREN self.now.syntax }
    {
        support::token(&self.syntax, T!['('])
    }

    /// The first token `)` among the children, if there is one.
    /// Example: `)` of `(T)`.
    pub fn r_paren_token(&self) -> Option<SyntaxToken>
        ensures { result ≡ token_child SyntaxKind.R_PAREN self.now.syntax }
    {
        support::token(&self.syntax, T![')'])
    }
}

impl ast::PathType {
    /// The first child that is a path, if there is one.
    /// Example: `a::T` of `a::T`.
    pub fn path(&self) -> Option<ast::Path>
        ensures { IsFirstPath self.now.syntax result }
    {
        support::child(&self.syntax)
    }
}

impl ast::PtrType {
    /// The first child that is a type, if there is one.
    /// Example: `T` of `*const T`.
    pub fn ty(&self) -> Option<ast::Type>
        ensures { IsFirstType self.now.syntax result }
    {
        support::child(&self.syntax)
    }

    /// The first token `const` among the children, if there is one.
    /// Example: `const` of `*const T`.
    pub fn const_token(&self) -> Option<SyntaxToken>
        ensures { result ≡ token_child SyntaxKind.CONST_KW self.now.syntax }
    {
        support::token(&self.syntax, T![const])
    }

    /// The first token `*` among the children, if there is one.
    /// Example: `*` of `*const T`.
    pub fn star_token(&self) -> Option<SyntaxToken>
        ensures { result ≡ token_child SyntaxKind.STAR self.now.syntax }
    {
        support::token(&self.syntax, T![*])
    }

    /// The first token `mut` among the children, if there is one.
    /// Example: `mut` of `*mut T`.
    pub fn mut_token(&self) -> Option<SyntaxToken>
        ensures { result ≡ token_child SyntaxKind.MUT_KW self.now.syntax }
    {
        support::token(&self.syntax, T![mut])
    }
}

impl ast::RefType {
    /// The first child that is a lifetime, if there is one.
    /// Example: `'a` of `&'a mut T`.
    pub fn lifetime(&self) -> Option<ast::Lifetime>
        ensures { IsFirstLifetime self.now.syntax result }
    {
        support::child(&self.syntax)
    }

    /// The first child that is a type, if there is one.
    /// Example: `T` of `&'a mut T`.
    pub fn ty(&self) -> Option<ast::Type>
        ensures { IsFirstType self.now.syntax result }
    {
        support::child(&self.syntax)
    }

    /// The first token `&` among the children, if there is one.
    /// Example: `&` of `&'a mut T`.
    pub fn amp_token(&self) -> Option<SyntaxToken>
        ensures { result ≡ token_child SyntaxKind.AMP self.now.syntax }
    {
        support::token(&self.syntax, T![&])
    }

    /// The first token `mut` among the children, if there is one.
    /// Example: `mut` of `&'a mut T`.
    pub fn mut_token(&self) -> Option<SyntaxToken>
        ensures { result ≡ token_child SyntaxKind.MUT_KW self.now.syntax }
    {
        support::token(&self.syntax, T![mut])
    }
}

impl ast::RetType {
    /// The first child that is a type, if there is one.
    /// Example: `T` of `-> T`.
    pub fn ty(&self) -> Option<ast::Type>
        ensures { IsFirstType self.now.syntax result }
    {
        support::child(&self.syntax)
    }

    /// The first token `->` among the children, if there is one.
    /// Example: `->` of `-> T`.
    pub fn thin_arrow_token(&self) -> Option<SyntaxToken>
        ensures { result ≡ token_child SyntaxKind.THIN_ARROW self.now.syntax }
    {
        support::token(&self.syntax, T![->])
    }
}

impl ast::SliceType {
    /// The first child that is a type, if there is one.
    /// Example: `T` of `[T]`.
    pub fn ty(&self) -> Option<ast::Type>
        ensures { IsFirstType self.now.syntax result }
    {
        support::child(&self.syntax)
    }

    /// The first token `[` among the children, if there is one.
    /// Example: `[` of `[T]`.
    pub fn l_brack_token(&self) -> Option<SyntaxToken>
        ensures { result ≡ token_child SyntaxKind.L_BRACK self.now.syntax }
    {
        support::token(&self.syntax, T!['['])
    }

    /// The first token `]` among the children, if there is one.
    /// Example: `]` of `[T]`.
    pub fn r_brack_token(&self) -> Option<SyntaxToken>
        ensures { result ≡ token_child SyntaxKind.R_BRACK self.now.syntax }
    {
        support::token(&self.syntax, T![']'])
    }
}

impl ast::TupleType {
    /// The children that are types, in order.
    /// Example: `T` and `U` of `(T, U)`.
    pub fn fields(&self) -> AstChildren<ast::Type>
        ensures { result ≡ typed_children type_kinds self.now.syntax }
    {
        support::children(&self.syntax)
    }

    /// The first token `(` among the children, if there is one.
    /// Example: `(` of `(T, U)`.
    pub fn l_paren_token(&self) -> Option<SyntaxToken>
        ensures { result ≡ token_child SyntaxKind.L_PAREN self.now.syntax }
    {
        support::token(&self.syntax, T!['('])
    }

    /// The first token `)` among the children, if there is one.
    /// Example: `)` of `(T, U)`.
    pub fn r_paren_token(&self) -> Option<SyntaxToken>
        ensures { result ≡ token_child SyntaxKind.R_PAREN self.now.syntax }
    {
        support::token(&self.syntax, T![')'])
    }
}
