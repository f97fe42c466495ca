//! Lookups in items. Made by `tools/views` from `views.txt`.
//! Each call takes time linear in the number of children that it passes, and no memory.
//! The names are those of rust-analyzer.
ghost use Rattle.std.specs.Prelude.{◌≡◌};
ghost use Rattle.ras_node.specs.Nodes.{token_child};
ghost use Rattle.ra_ap_syntax.specs.AttrViews.{IsFirstTokenTree};
ghost use Rattle.ra_ap_syntax.specs.ControlViews.{IsFirstBlockExpr};
ghost use Rattle.ra_ap_syntax.specs.ExprCases.{IsFirstExpr};
ghost use Rattle.ra_ap_syntax.specs.PartViews.{IsFirstAbi, IsFirstAssocItemList, IsFirstExternItemList, IsFirstItemList, IsFirstParamList, IsFirstRecordFieldList, IsFirstUseTree};
ghost use Rattle.ra_ap_syntax.specs.PathViews.{IsFirstNameRef, IsFirstPath};
ghost use Rattle.ra_ap_syntax.specs.TyViews.{IsFirstRetType};
ghost use Rattle.ra_ap_syntax.specs.TypeCases.{IsFirstType};

use crate::ast::{self, support};
use lossless_tree::{SyntaxKind, SyntaxToken, T};

impl ast::Const {
    /// The first child that is an expression, if there is one.
    /// Example: `a` of `const A: T = a;`.
    pub fn body(&self) -> Option<ast::Expr>
        ensures { IsFirstExpr self.now.syntax result }
    {
        support::child(&self.syntax)
    }

    /// The first child that is a type, if there is one.
    /// Example: `T` of `const A: T = a;`.
    pub fn ty(&self) -> Option<ast::Type>
        ensures { IsFirstType self.now.syntax result }
    {
        support::child(&self.syntax)
    }

    /// The first token `:` among the children, if there is one.
    /// Example: `:` of `const A: T = a;`.
    pub fn colon_token(&self) -> Option<SyntaxToken>
        ensures { result ≡ token_child SyntaxKind.COLON self.now.syntax }
    {
        support::token(&self.syntax, T![:])
    }

    /// The first token `const` among the children, if there is one.
    /// Example: `const` of `const A: T = a;`.
    pub fn const_token(&self) -> Option<SyntaxToken>
        ensures { result ≡ token_child SyntaxKind.CONST_KW self.now.syntax }
    {
        support::token(&self.syntax, T![const])
    }

    /// The first token `=` among the children, if there is one.
    /// Example: `=` of `const A: T = a;`.
    pub fn eq_token(&self) -> Option<SyntaxToken>
        ensures { result ≡ token_child SyntaxKind.EQ self.now.syntax }
    {
        support::token(&self.syntax, T![=])
    }

    /// The first token `;` among the children, if there is one.
    /// Example: `;` of `const A: T = a;`.
    pub fn semicolon_token(&self) -> Option<SyntaxToken>
        ensures { result ≡ token_child SyntaxKind.SEMICOLON self.now.syntax }
    {
        support::token(&self.syntax, T![;])
    }

    /// The first token `_` among the children, if there is one.
    /// Example: `_` of `const _: T = a;`.
    pub fn underscore_token(&self) -> Option<SyntaxToken>
        ensures { result ≡ token_child SyntaxKind.UNDERSCORE self.now.syntax }
    {
        support::token(&self.syntax, T![_])
    }

    /// The first token `default` among the children, if there is one.
    /// Example: `default` of `default const A: T = a;`.
    pub fn default_token(&self) -> Option<SyntaxToken>
        ensures { result ≡ token_child SyntaxKind.DEFAULT_KW self.now.syntax }
    {
        support::token(&self.syntax, T![default])
    }
}

impl ast::Enum {
    /// The first token `enum` among the children, if there is one.
    /// Example: `enum` of `enum E { A, B }`.
    pub fn enum_token(&self) -> Option<SyntaxToken>
        ensures { result ≡ token_child SyntaxKind.ENUM_KW self.now.syntax }
    {
        support::token(&self.syntax, T![enum])
    }
}

impl ast::ExternBlock {
    /// The first child that is an ABI, if there is one.
    /// Example: `extern "C"` of `unsafe extern "C" { fn f(); }`.
    pub fn abi(&self) -> Option<ast::Abi>
        ensures { IsFirstAbi self.now.syntax result }
    {
        support::child(&self.syntax)
    }

    /// The first child that is a list of extern items, if there is one.
    /// Example: `{ fn f(); }` of `unsafe extern "C" { fn f(); }`.
    pub fn extern_item_list(&self) -> Option<ast::ExternItemList>
        ensures { IsFirstExternItemList self.now.syntax result }
    {
        support::child(&self.syntax)
    }

    /// The first token `unsafe` among the children, if there is one.
    /// Example: `unsafe` of `unsafe extern "C" { fn f(); }`.
    pub fn unsafe_token(&self) -> Option<SyntaxToken>
        ensures { result ≡ token_child SyntaxKind.UNSAFE_KW self.now.syntax }
    {
        support::token(&self.syntax, T![unsafe])
    }
}

impl ast::ExternCrate {
    /// The first child that is a name reference, if there is one.
    /// Example: `a` of `extern crate a as b;`.
    pub fn name_ref(&self) -> Option<ast::NameRef>
        ensures { IsFirstNameRef self.now.syntax result }
    {
        support::child(&self.syntax)
    }

    /// The first token `crate` among the children, if there is one.
    /// Example: `crate` of `extern crate a as b;`.
    pub fn crate_token(&self) -> Option<SyntaxToken>
        ensures { result ≡ token_child SyntaxKind.CRATE_KW self.now.syntax }
    {
        support::token(&self.syntax, T![crate])
    }

    /// The first token `extern` among the children, if there is one.
    /// Example: `extern` of `extern crate a as b;`.
    pub fn extern_token(&self) -> Option<SyntaxToken>
        ensures { result ≡ token_child SyntaxKind.EXTERN_KW self.now.syntax }
    {
        support::token(&self.syntax, T![extern])
    }

    /// The first token `;` among the children, if there is one.
    /// Example: `;` of `extern crate a as b;`.
    pub fn semicolon_token(&self) -> Option<SyntaxToken>
        ensures { result ≡ token_child SyntaxKind.SEMICOLON self.now.syntax }
    {
        support::token(&self.syntax, T![;])
    }
}

impl ast::Fn {
    /// The first child that is a block expression, if there is one.
    /// Example: `{ b }` of `fn f(a: T) -> U { b }`.
    pub fn body(&self) -> Option<ast::BlockExpr>
        ensures { IsFirstBlockExpr self.now.syntax result }
    {
        support::child(&self.syntax)
    }

    /// The first child that is a list of parameters, if there is one.
    /// Example: `(a: T)` of `fn f(a: T) -> U { b }`.
    pub fn param_list(&self) -> Option<ast::ParamList>
        ensures { IsFirstParamList self.now.syntax result }
    {
        support::child(&self.syntax)
    }

    /// The first child that is a return type, if there is one.
    /// Example: `-> U` of `fn f(a: T) -> U { b }`.
    pub fn ret_type(&self) -> Option<ast::RetType>
        ensures { IsFirstRetType self.now.syntax result }
    {
        support::child(&self.syntax)
    }

    /// The first token `fn` among the children, if there is one.
    /// Example: `fn` of `fn f(a: T) -> U { b }`.
    pub fn fn_token(&self) -> Option<SyntaxToken>
        ensures { result ≡ token_child SyntaxKind.FN_KW self.now.syntax }
    {
        support::token(&self.syntax, T![fn])
    }

    /// The first token `async` among the children, if there is one.
    /// Example: `async` of `async fn f() {}`.
    pub fn async_token(&self) -> Option<SyntaxToken>
        ensures { result ≡ token_child SyntaxKind.ASYNC_KW self.now.syntax }
    {
        support::token(&self.syntax, T![async])
    }

    /// The first token `const` among the children, if there is one.
    /// Example: `const` of `const fn f() {}`.
    pub fn const_token(&self) -> Option<SyntaxToken>
        ensures { result ≡ token_child SyntaxKind.CONST_KW self.now.syntax }
    {
        support::token(&self.syntax, T![const])
    }

    /// The first token `gen` among the children, if there is one.
    /// Example: `gen` of `gen fn f() {}`.
    pub fn gen_token(&self) -> Option<SyntaxToken>
        ensures { result ≡ token_child SyntaxKind.GEN_KW self.now.syntax }
    {
        support::token(&self.syntax, T![gen])
    }

    /// The first child that is an ABI, if there is one.
    /// Example: `extern "C"` of `unsafe extern "C" fn f() {}`.
    pub fn abi(&self) -> Option<ast::Abi>
        ensures { IsFirstAbi self.now.syntax result }
    {
        support::child(&self.syntax)
    }

    /// The first token `unsafe` among the children, if there is one.
    /// Example: `unsafe` of `unsafe extern "C" fn f() {}`.
    pub fn unsafe_token(&self) -> Option<SyntaxToken>
        ensures { result ≡ token_child SyntaxKind.UNSAFE_KW self.now.syntax }
    {
        support::token(&self.syntax, T![unsafe])
    }

    /// The first token `default` among the children, if there is one.
    /// Example: `default` of `default fn f() {}`.
    pub fn default_token(&self) -> Option<SyntaxToken>
        ensures { result ≡ token_child SyntaxKind.DEFAULT_KW self.now.syntax }
    {
        support::token(&self.syntax, T![default])
    }

    /// The first token `;` among the children, if there is one.
    /// Example: `;` of `fn f();`.
    pub fn semicolon_token(&self) -> Option<SyntaxToken>
        ensures { result ≡ token_child SyntaxKind.SEMICOLON self.now.syntax }
    {
        support::token(&self.syntax, T![;])
    }
}

impl ast::Impl {
    /// The first child that is a list of associated items, if there is one.
    /// Example: `{ fn f() {} }` of `impl T for U { fn f() {} }`.
    pub fn assoc_item_list(&self) -> Option<ast::AssocItemList>
        ensures { IsFirstAssocItemList self.now.syntax result }
    {
        support::child(&self.syntax)
    }

    /// The first token `for` among the children, if there is one.
    /// Example: `for` of `impl T for U { fn f() {} }`.
    pub fn for_token(&self) -> Option<SyntaxToken>
        ensures { result ≡ token_child SyntaxKind.FOR_KW self.now.syntax }
    {
        support::token(&self.syntax, T![for])
    }

    /// The first token `impl` among the children, if there is one.
    /// Example: `impl` of `impl T for U { fn f() {} }`.
    pub fn impl_token(&self) -> Option<SyntaxToken>
        ensures { result ≡ token_child SyntaxKind.IMPL_KW self.now.syntax }
    {
        support::token(&self.syntax, T![impl])
    }

    /// The first token `!` among the children, if there is one.
    /// Example: `!` of `impl !T for U {}`.
    pub fn excl_token(&self) -> Option<SyntaxToken>
        ensures { result ≡ token_child SyntaxKind.BANG self.now.syntax }
    {
        support::token(&self.syntax, T![!])
    }

    /// The first token `const` among the children, if there is one.
    /// Example: `const` of `impl const T for U {}`.
    pub fn const_token(&self) -> Option<SyntaxToken>
        ensures { result ≡ token_child SyntaxKind.CONST_KW self.now.syntax }
    {
        support::token(&self.syntax, T![const])
    }

    /// The first token `default` among the children, if there is one.
    /// Example: `default` of `default impl T for U {}`.
    pub fn default_token(&self) -> Option<SyntaxToken>
        ensures { result ≡ token_child SyntaxKind.DEFAULT_KW self.now.syntax }
    {
        support::token(&self.syntax, T![default])
    }

    /// The first token `unsafe` among the children, if there is one.
    /// Example: `unsafe` of `unsafe impl T for U {}`.
    pub fn unsafe_token(&self) -> Option<SyntaxToken>
        ensures { result ≡ token_child SyntaxKind.UNSAFE_KW self.now.syntax }
    {
        support::token(&self.syntax, T![unsafe])
    }
}

impl ast::MacroCall {
    /// The first child that is a path, if there is one.
    /// Example: `m` of `m!(a);`.
    pub fn path(&self) -> Option<ast::Path>
        ensures { IsFirstPath self.now.syntax result }
    {
        support::child(&self.syntax)
    }

    /// The first child that is a token tree, if there is one.
    /// Example: `(a)` of `m!(a);`.
    pub fn token_tree(&self) -> Option<ast::TokenTree>
        ensures { IsFirstTokenTree self.now.syntax result }
    {
        support::child(&self.syntax)
    }

    /// The first token `!` among the children, if there is one.
    /// Example: `!` of `m!(a);`.
    pub fn excl_token(&self) -> Option<SyntaxToken>
        ensures { result ≡ token_child SyntaxKind.BANG self.now.syntax }
    {
        support::token(&self.syntax, T![!])
    }

    /// The first token `;` among the children, if there is one.
    /// Example: `;` of `m!(a);`.
    pub fn semicolon_token(&self) -> Option<SyntaxToken>
        ensures { result ≡ token_child SyntaxKind.SEMICOLON self.now.syntax }
    {
        support::token(&self.syntax, T![;])
    }
}

impl ast::MacroDef {
    /// The first token `macro` among the children, if there is one.
    /// Example: `macro` of `macro m(a) { b }`.
    pub fn macro_token(&self) -> Option<SyntaxToken>
        ensures { result ≡ token_child SyntaxKind.MACRO_KW self.now.syntax }
    {
        support::token(&self.syntax, T![macro])
    }
}

impl ast::MacroRules {
    /// The first child that is a token tree, if there is one.
    /// Example: `{ () => {} }` of `macro_rules! m { () => {} }`.
    pub fn token_tree(&self) -> Option<ast::TokenTree>
        ensures { IsFirstTokenTree self.now.syntax result }
    {
        support::child(&self.syntax)
    }

    /// The first token `!` among the children, if there is one.
    /// Example: `!` of `macro_rules! m { () => {} }`.
    pub fn excl_token(&self) -> Option<SyntaxToken>
        ensures { result ≡ token_child SyntaxKind.BANG self.now.syntax }
    {
        support::token(&self.syntax, T![!])
    }

    /// The first token `macro_rules` among the children, if there is one.
    /// Example: `macro_rules` of `macro_rules! m { () => {} }`.
    pub fn macro_rules_token(&self) -> Option<SyntaxToken>
        ensures { result ≡ token_child SyntaxKind.MACRO_RULES_KW self.now.syntax }
    {
        support::token(&self.syntax, T![macro_rules])
    }
}

impl ast::Module {
    /// The first child that is a list of items, if there is one.
    /// Example: `{ fn f() {} }` of `mod m { fn f() {} }`.
    pub fn item_list(&self) -> Option<ast::ItemList>
        ensures { IsFirstItemList self.now.syntax result }
    {
        support::child(&self.syntax)
    }

    /// The first token `mod` among the children, if there is one.
    /// Example: `mod` of `mod m { fn f() {} }`.
    pub fn mod_token(&self) -> Option<SyntaxToken>
        ensures { result ≡ token_child SyntaxKind.MOD_KW self.now.syntax }
    {
        support::token(&self.syntax, T![mod])
    }

    /// The first token `;` among the children, if there is one.
    /// Example: `;` of `mod m;`.
    pub fn semicolon_token(&self) -> Option<SyntaxToken>
        ensures { result ≡ token_child SyntaxKind.SEMICOLON self.now.syntax }
    {
        support::token(&self.syntax, T![;])
    }
}

impl ast::Static {
    /// The first child that is an expression, if there is one.
    /// Example: `a` of `static A: T = a;`.
    pub fn body(&self) -> Option<ast::Expr>
        ensures { IsFirstExpr self.now.syntax result }
    {
        support::child(&self.syntax)
    }

    /// The first child that is a type, if there is one.
    /// Example: `T` of `static A: T = a;`.
    pub fn ty(&self) -> Option<ast::Type>
        ensures { IsFirstType self.now.syntax result }
    {
        support::child(&self.syntax)
    }

    /// The first token `:` among the children, if there is one.
    /// Example: `:` of `static A: T = a;`.
    pub fn colon_token(&self) -> Option<SyntaxToken>
        ensures { result ≡ token_child SyntaxKind.COLON self.now.syntax }
    {
        support::token(&self.syntax, T![:])
    }

    /// The first token `=` among the children, if there is one.
    /// Example: `=` of `static A: T = a;`.
    pub fn eq_token(&self) -> Option<SyntaxToken>
        ensures { result ≡ token_child SyntaxKind.EQ self.now.syntax }
    {
        support::token(&self.syntax, T![=])
    }

    /// The first token `;` among the children, if there is one.
    /// Example: `;` of `static A: T = a;`.
    pub fn semicolon_token(&self) -> Option<SyntaxToken>
        ensures { result ≡ token_child SyntaxKind.SEMICOLON self.now.syntax }
    {
        support::token(&self.syntax, T![;])
    }

    /// The first token `static` among the children, if there is one.
    /// Example: `static` of `static A: T = a;`.
    pub fn static_token(&self) -> Option<SyntaxToken>
        ensures { result ≡ token_child SyntaxKind.STATIC_KW self.now.syntax }
    {
        support::token(&self.syntax, T![static])
    }

    /// The first token `mut` among the children, if there is one.
    /// Example: `mut` of `static mut A: T = a;`.
    pub fn mut_token(&self) -> Option<SyntaxToken>
        ensures { result ≡ token_child SyntaxKind.MUT_KW self.now.syntax }
    {
        support::token(&self.syntax, T![mut])
    }

    /// The first token `unsafe` among the children, if there is one.
    /// Example: `unsafe` of `unsafe static A: T;`.
    pub fn unsafe_token(&self) -> Option<SyntaxToken>
        ensures { result ≡ token_child SyntaxKind.UNSAFE_KW self.now.syntax }
    {
        support::token(&self.syntax, T![unsafe])
    }
}

impl ast::Struct {
    /// The first token `;` among the children, if there is one.
    /// Example: `;` of `struct S(T);`.
    pub fn semicolon_token(&self) -> Option<SyntaxToken>
        ensures { result ≡ token_child SyntaxKind.SEMICOLON self.now.syntax }
    {
        support::token(&self.syntax, T![;])
    }

    /// The first token `struct` among the children, if there is one.
    /// Example: `struct` of `struct S(T);`.
    pub fn struct_token(&self) -> Option<SyntaxToken>
        ensures { result ≡ token_child SyntaxKind.STRUCT_KW self.now.syntax }
    {
        support::token(&self.syntax, T![struct])
    }
}

impl ast::Trait {
    /// The first child that is a list of associated items, if there is one.
    /// Example: `{ fn f(); }` of `trait T { fn f(); }`.
    pub fn assoc_item_list(&self) -> Option<ast::AssocItemList>
        ensures { IsFirstAssocItemList self.now.syntax result }
    {
        support::child(&self.syntax)
    }

    /// The first token `trait` among the children, if there is one.
    /// Example: `trait` of `trait T { fn f(); }`.
    pub fn trait_token(&self) -> Option<SyntaxToken>
        ensures { result ≡ token_child SyntaxKind.TRAIT_KW self.now.syntax }
    {
        support::token(&self.syntax, T![trait])
    }

    /// The first token `=` among the children, if there is one.
    /// Example: `=` of `trait T = U;`.
    pub fn eq_token(&self) -> Option<SyntaxToken>
        ensures { result ≡ token_child SyntaxKind.EQ self.now.syntax }
    {
        support::token(&self.syntax, T![=])
    }

    /// The first token `;` among the children, if there is one.
    /// Example: `;` of `trait T = U;`.
    pub fn semicolon_token(&self) -> Option<SyntaxToken>
        ensures { result ≡ token_child SyntaxKind.SEMICOLON self.now.syntax }
    {
        support::token(&self.syntax, T![;])
    }

    /// The first token `auto` among the children, if there is one.
    /// Example: `auto` of `auto trait T {}`.
    pub fn auto_token(&self) -> Option<SyntaxToken>
        ensures { result ≡ token_child SyntaxKind.AUTO_KW self.now.syntax }
    {
        support::token(&self.syntax, T![auto])
    }

    /// The first token `unsafe` among the children, if there is one.
    /// Example: `unsafe` of `unsafe trait T {}`.
    pub fn unsafe_token(&self) -> Option<SyntaxToken>
        ensures { result ≡ token_child SyntaxKind.UNSAFE_KW self.now.syntax }
    {
        support::token(&self.syntax, T![unsafe])
    }
}

impl ast::TypeAlias {
    /// The first child that is a type, if there is one.
    /// Example: `T` of `type A = T;`.
    pub fn ty(&self) -> Option<ast::Type>
        ensures { IsFirstType self.now.syntax result }
    {
        support::child(&self.syntax)
    }

    /// The first token `=` among the children, if there is one.
    /// Example: `=` of `type A = T;`.
    pub fn eq_token(&self) -> Option<SyntaxToken>
        ensures { result ≡ token_child SyntaxKind.EQ self.now.syntax }
    {
        support::token(&self.syntax, T![=])
    }

    /// The first token `;` among the children, if there is one.
    /// Example: `;` of `type A = T;`.
    pub fn semicolon_token(&self) -> Option<SyntaxToken>
        ensures { result ≡ token_child SyntaxKind.SEMICOLON self.now.syntax }
    {
        support::token(&self.syntax, T![;])
    }

    /// The first token `type` among the children, if there is one.
    /// Example: `type` of `type A = T;`.
    pub fn type_token(&self) -> Option<SyntaxToken>
        ensures { result ≡ token_child SyntaxKind.TYPE_KW self.now.syntax }
    {
        support::token(&self.syntax, T![type])
    }

    /// The first token `default` among the children, if there is one.
    /// Example: `default` of `default type A = T;`.
    pub fn default_token(&self) -> Option<SyntaxToken>
        ensures { result ≡ token_child SyntaxKind.DEFAULT_KW self.now.syntax }
    {
        support::token(&self.syntax, T![default])
    }
}

impl ast::Union {
    /// The first child that is a list of record fields, if there is one.
    /// Example: `{ f: T }` of `union U { f: T }`.
    pub fn record_field_list(&self) -> Option<ast::RecordFieldList>
        ensures { IsFirstRecordFieldList self.now.syntax result }
    {
        support::child(&self.syntax)
    }

    /// The first token `union` among the children, if there is one.
    /// Example: `union` of `union U { f: T }`.
    pub fn union_token(&self) -> Option<SyntaxToken>
        ensures { result ≡ token_child SyntaxKind.UNION_KW self.now.syntax }
    {
        support::token(&self.syntax, T![union])
    }
}

impl ast::Use {
    /// The first child that is a use tree, if there is one.
    /// Example: `a::b` of `use a::b;`.
    pub fn use_tree(&self) -> Option<ast::UseTree>
        ensures { IsFirstUseTree self.now.syntax result }
    {
        support::child(&self.syntax)
    }

    /// The first token `;` among the children, if there is one.
    /// Example: `;` of `use a::b;`.
    pub fn semicolon_token(&self) -> Option<SyntaxToken>
        ensures { result ≡ token_child SyntaxKind.SEMICOLON self.now.syntax }
    {
        support::token(&self.syntax, T![;])
    }

    /// The first token `use` among the children, if there is one.
    /// Example: `use` of `use a::b;`.
    pub fn use_token(&self) -> Option<SyntaxToken>
        ensures { result ≡ token_child SyntaxKind.USE_KW self.now.syntax }
    {
        support::token(&self.syntax, T![use])
    }
}
