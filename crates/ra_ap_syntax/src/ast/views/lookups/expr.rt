//! Lookups in expressions. Made by `tools/views` from `views.txt`.
//! Each call takes time linear in the number of children that it passes, and no memory.
//! The names are those of rust-analyzer.
ghost use Rattle.std.specs.Prelude.{◌≡◌};
ghost use Rattle.ras_node.specs.Nodes.{token_child, typed_children};
ghost use Rattle.ra_ap_syntax.specs.ExprCases.{IsFirstExpr, expr_kinds};
ghost use Rattle.ra_ap_syntax.specs.GenericViews.{IsFirstForBinder};
ghost use Rattle.ra_ap_syntax.specs.ItemViews.{IsFirstMacroCall};
ghost use Rattle.ra_ap_syntax.specs.PartViews.{IsFirstParamList};
ghost use Rattle.ra_ap_syntax.specs.PathViews.{IsFirstNameRef, IsFirstPath, name_ref_kinds};
ghost use Rattle.ra_ap_syntax.specs.StmtViews.{format_args_arg_kinds};
ghost use Rattle.ra_ap_syntax.specs.TyViews.{IsFirstRetType};
ghost use Rattle.ra_ap_syntax.specs.TypeCases.{IsFirstType};

use crate::ast::{self, AstChildren, support};
use lossless_tree::{SyntaxKind, SyntaxToken, T};

impl ast::ArrayExpr {
    /// The first child that is an expression, if there is one.
    /// Example: `a` of `[a, b]`.
    pub fn expr(&self) -> Option<ast::Expr>
        ensures { IsFirstExpr self.now.syntax result }
    {
        support::child(&self.syntax)
    }

    /// The children that are expressions, in order.
    /// Example: `a` and `b` of `[a, b]`.
    pub fn exprs(&self) -> AstChildren<ast::Expr>
        ensures { result ≡ typed_children expr_kinds self.now.syntax }
    {
        support::children(&self.syntax)
    }

    /// The first token `[` among the children, if there is one.
    /// Example: `[` of `[a, b]`.
    pub fn l_brack_token(&self) -> Option<SyntaxToken>
        ensures { result ≡ token_child SyntaxKind.L_BRACK self.now.syntax }
    {
        support::token(&self.syntax, T!['['])
    }

    /// The first token `]` among the children, if there is one.
    /// Example: `]` of `[a, b]`.
    pub fn r_brack_token(&self) -> Option<SyntaxToken>
        ensures { result ≡ token_child SyntaxKind.R_BRACK self.now.syntax }
    {
        support::token(&self.syntax, T![']'])
    }

    /// The first token `;` among the children, if there is one.
    /// Example: `;` of `[a; n]`.
    pub fn semicolon_token(&self) -> Option<SyntaxToken>
        ensures { result ≡ token_child SyntaxKind.SEMICOLON self.now.syntax }
    {
        support::token(&self.syntax, T![;])
    }
}

impl ast::AsmExpr {
    /// The children that are expressions, in order.
    /// Example: `"a"` and `"b"` of `builtin # asm("a", "b", out(r) c)`.
    pub fn template(&self) -> AstChildren<ast::Expr>
        ensures { result ≡ typed_children expr_kinds self.now.syntax }
    {
        support::children(&self.syntax)
    }

    /// The first token `builtin` among the children, if there is one.
    /// Example: `builtin` of `builtin # asm("a", "b", out(r) c)`.
    pub fn builtin_token(&self) -> Option<SyntaxToken>
        ensures { result ≡ token_child SyntaxKind.BUILTIN_KW self.now.syntax }
    {
        support::token(&self.syntax, T![builtin])
    }

    /// The first token `,` among the children, if there is one.
    /// Example: `,` of `builtin # asm("a", "b", out(r) c)`.
    pub fn comma_token(&self) -> Option<SyntaxToken>
        ensures { result ≡ token_child SyntaxKind.COMMA self.now.syntax }
    {
        support::token(&self.syntax, T![,])
    }

    /// The first token `(` among the children, if there is one.
    /// Example: `(` of `builtin # asm("a", "b", out(r) c)`.
    pub fn l_paren_token(&self) -> Option<SyntaxToken>
        ensures { result ≡ token_child SyntaxKind.L_PAREN self.now.syntax }
    {
        support::token(&self.syntax, T!['('])
    }

    /// The first token `#` among the children, if there is one.
    /// Example: `#` of `builtin # asm("a", "b", out(r) c)`.
    pub fn pound_token(&self) -> Option<SyntaxToken>
        ensures { result ≡ token_child SyntaxKind.POUND self.now.syntax }
    {
        support::token(&self.syntax, T![#])
    }

    /// The first token `)` among the children, if there is one.
    /// Example: `)` of `builtin # asm("a", "b", out(r) c)`.
    pub fn r_paren_token(&self) -> Option<SyntaxToken>
        ensures { result ≡ token_child SyntaxKind.R_PAREN self.now.syntax }
    {
        support::token(&self.syntax, T![')'])
    }
}

impl ast::AwaitExpr {
    /// The first child that is an expression, if there is one.
    /// Example: `a` of `a.await`.
    pub fn expr(&self) -> Option<ast::Expr>
        ensures { IsFirstExpr self.now.syntax result }
    {
        support::child(&self.syntax)
    }

    /// The first token `await` among the children, if there is one.
    /// Example: `await` of `a.await`.
    pub fn await_token(&self) -> Option<SyntaxToken>
        ensures { result ≡ token_child SyntaxKind.AWAIT_KW self.now.syntax }
    {
        support::token(&self.syntax, T![await])
    }

    /// The first token `.` among the children, if there is one.
    /// Example: `.` of `a.await`.
    pub fn dot_token(&self) -> Option<SyntaxToken>
        ensures { result ≡ token_child SyntaxKind.DOT self.now.syntax }
    {
        support::token(&self.syntax, T![.])
    }
}

impl ast::CallExpr {
    /// The first child that is an expression, if there is one.
    /// Example: `f` of `f(a, b)`.
    pub fn expr(&self) -> Option<ast::Expr>
        ensures { IsFirstExpr self.now.syntax result }
    {
        support::child(&self.syntax)
    }
}

impl ast::CastExpr {
    /// The first child that is an expression, if there is one.
    /// Example: `a` of `a as T`.
    pub fn expr(&self) -> Option<ast::Expr>
        ensures { IsFirstExpr self.now.syntax result }
    {
        support::child(&self.syntax)
    }

    /// The first child that is a type, if there is one.
    /// Example: `T` of `a as T`.
    pub fn ty(&self) -> Option<ast::Type>
        ensures { IsFirstType self.now.syntax result }
    {
        support::child(&self.syntax)
    }

    /// The first token `as` among the children, if there is one.
    /// Example: `as` of `a as T`.
    pub fn as_token(&self) -> Option<SyntaxToken>
        ensures { result ≡ token_child SyntaxKind.AS_KW self.now.syntax }
    {
        support::token(&self.syntax, T![as])
    }
}

impl ast::ClosureExpr {
    /// The first child that is an expression, if there is one.
    /// Example: `{ b }` of `|a| -> T { b }`.
    pub fn body(&self) -> Option<ast::Expr>
        ensures { IsFirstExpr self.now.syntax result }
    {
        support::child(&self.syntax)
    }

    /// The first child that is a list of parameters, if there is one.
    /// Example: `|a|` of `|a| -> T { b }`.
    pub fn param_list(&self) -> Option<ast::ParamList>
        ensures { IsFirstParamList self.now.syntax result }
    {
        support::child(&self.syntax)
    }

    /// The first child that is a return type, if there is one.
    /// Example: `-> T` of `|a| -> T { b }`.
    pub fn ret_type(&self) -> Option<ast::RetType>
        ensures { IsFirstRetType self.now.syntax result }
    {
        support::child(&self.syntax)
    }

    /// The first child that is a `for` binder, if there is one.
    /// Example: `for<'a>` of `for<'a> |b| c`.
    pub fn for_binder(&self) -> Option<ast::ForBinder>
        ensures { IsFirstForBinder self.now.syntax result }
    {
        support::child(&self.syntax)
    }

    /// The first token `async` among the children, if there is one.
    /// Example: `async` of `async move |a| b`.
    pub fn async_token(&self) -> Option<SyntaxToken>
        ensures { result ≡ token_child SyntaxKind.ASYNC_KW self.now.syntax }
    {
        support::token(&self.syntax, T![async])
    }

    /// The first token `move` among the children, if there is one.
    /// Example: `move` of `async move |a| b`.
    pub fn move_token(&self) -> Option<SyntaxToken>
        ensures { result ≡ token_child SyntaxKind.MOVE_KW self.now.syntax }
    {
        support::token(&self.syntax, T![move])
    }

    /// The first token `const` among the children, if there is one.
    /// Example: `const` of `const |a| b`.
    pub fn const_token(&self) -> Option<SyntaxToken>
        ensures { result ≡ token_child SyntaxKind.CONST_KW self.now.syntax }
    {
        support::token(&self.syntax, T![const])
    }

    /// The first token `gen` among the children, if there is one.
    /// Example: `gen` of `async gen |a| b`.
    pub fn gen_token(&self) -> Option<SyntaxToken>
        ensures { result ≡ token_child SyntaxKind.GEN_KW self.now.syntax }
    {
        support::token(&self.syntax, T![gen])
    }

    /// The first token `static` among the children, if there is one.
    /// Example: `static` of `static |a| b`.
    pub fn static_token(&self) -> Option<SyntaxToken>
        ensures { result ≡ token_child SyntaxKind.STATIC_KW self.now.syntax }
    {
        support::token(&self.syntax, T![static])
    }
}

impl ast::FieldExpr {
    /// The first child that is an expression, if there is one.
    /// Example: `a` of `a.f`.
    pub fn expr(&self) -> Option<ast::Expr>
        ensures { IsFirstExpr self.now.syntax result }
    {
        support::child(&self.syntax)
    }

    /// The first child that is a name reference, if there is one.
    /// Example: `f` of `a.f`.
    pub fn name_ref(&self) -> Option<ast::NameRef>
        ensures { IsFirstNameRef self.now.syntax result }
    {
        support::child(&self.syntax)
    }

    /// The first token `.` among the children, if there is one.
    /// Example: `.` of `a.f`.
    pub fn dot_token(&self) -> Option<SyntaxToken>
        ensures { result ≡ token_child SyntaxKind.DOT self.now.syntax }
    {
        support::token(&self.syntax, T![.])
    }
}

impl ast::FormatArgsExpr {
    /// The children that are arguments of a format, in order.
    /// Example: `a = b` of `builtin # format_args("{}", a = b)`.
    pub fn args(&self) -> AstChildren<ast::FormatArgsArg>
        ensures { result ≡ typed_children format_args_arg_kinds self.now.syntax }
    {
        support::children(&self.syntax)
    }

    /// The first child that is an expression, if there is one.
    /// Example: `"{}"` of `builtin # format_args("{}", a = b)`.
    pub fn template(&self) -> Option<ast::Expr>
        ensures { IsFirstExpr self.now.syntax result }
    {
        support::child(&self.syntax)
    }

    /// The first token `builtin` among the children, if there is one.
    /// Example: `builtin` of `builtin # format_args("{}", a = b)`.
    pub fn builtin_token(&self) -> Option<SyntaxToken>
        ensures { result ≡ token_child SyntaxKind.BUILTIN_KW self.now.syntax }
    {
        support::token(&self.syntax, T![builtin])
    }

    /// The first token `,` among the children, if there is one.
    /// Example: `,` of `builtin # format_args("{}", a = b)`.
    pub fn comma_token(&self) -> Option<SyntaxToken>
        ensures { result ≡ token_child SyntaxKind.COMMA self.now.syntax }
    {
        support::token(&self.syntax, T![,])
    }

    /// The first token `(` among the children, if there is one.
    /// Example: `(` of `builtin # format_args("{}", a = b)`.
    pub fn l_paren_token(&self) -> Option<SyntaxToken>
        ensures { result ≡ token_child SyntaxKind.L_PAREN self.now.syntax }
    {
        support::token(&self.syntax, T!['('])
    }

    /// The first token `#` among the children, if there is one.
    /// Example: `#` of `builtin # format_args("{}", a = b)`.
    pub fn pound_token(&self) -> Option<SyntaxToken>
        ensures { result ≡ token_child SyntaxKind.POUND self.now.syntax }
    {
        support::token(&self.syntax, T![#])
    }

    /// The first token `)` among the children, if there is one.
    /// Example: `)` of `builtin # format_args("{}", a = b)`.
    pub fn r_paren_token(&self) -> Option<SyntaxToken>
        ensures { result ≡ token_child SyntaxKind.R_PAREN self.now.syntax }
    {
        support::token(&self.syntax, T![')'])
    }
}

impl ast::IndexExpr {
    /// The first token `[` among the children, if there is one.
    /// Example: `[` of `a[i]`.
    pub fn l_brack_token(&self) -> Option<SyntaxToken>
        ensures { result ≡ token_child SyntaxKind.L_BRACK self.now.syntax }
    {
        support::token(&self.syntax, T!['['])
    }

    /// The first token `]` among the children, if there is one.
    /// Example: `]` of `a[i]`.
    pub fn r_brack_token(&self) -> Option<SyntaxToken>
        ensures { result ≡ token_child SyntaxKind.R_BRACK self.now.syntax }
    {
        support::token(&self.syntax, T![']'])
    }
}

impl ast::MacroExpr {
    /// The first child that is a macro call, if there is one.
    /// Example: `m!(a)` of `m!(a)`.
    pub fn macro_call(&self) -> Option<ast::MacroCall>
        ensures { IsFirstMacroCall self.now.syntax result }
    {
        support::child(&self.syntax)
    }
}

impl ast::MethodCallExpr {
    /// The first child that is a name reference, if there is one.
    /// Example: `f` of `a.f::<T>(b)`.
    pub fn name_ref(&self) -> Option<ast::NameRef>
        ensures { IsFirstNameRef self.now.syntax result }
    {
        support::child(&self.syntax)
    }

    /// The first child that is an expression, if there is one.
    /// Example: `a` of `a.f::<T>(b)`.
    pub fn receiver(&self) -> Option<ast::Expr>
        ensures { IsFirstExpr self.now.syntax result }
    {
        support::child(&self.syntax)
    }

    /// The first token `.` among the children, if there is one.
    /// Example: `.` of `a.f::<T>(b)`.
    pub fn dot_token(&self) -> Option<SyntaxToken>
        ensures { result ≡ token_child SyntaxKind.DOT self.now.syntax }
    {
        support::token(&self.syntax, T![.])
    }
}

impl ast::OffsetOfExpr {
    /// The children that are name references, in order.
    /// Example: `f` and `g` of `builtin # offset_of(T, f.g)`.
    pub fn fields(&self) -> AstChildren<ast::NameRef>
        ensures { result ≡ typed_children name_ref_kinds self.now.syntax }
    {
        support::children(&self.syntax)
    }

    /// The first child that is a type, if there is one.
    /// Example: `T` of `builtin # offset_of(T, f.g)`.
    pub fn ty(&self) -> Option<ast::Type>
        ensures { IsFirstType self.now.syntax result }
    {
        support::child(&self.syntax)
    }

    /// The first token `builtin` among the children, if there is one.
    /// Example: `builtin` of `builtin # offset_of(T, f.g)`.
    pub fn builtin_token(&self) -> Option<SyntaxToken>
        ensures { result ≡ token_child SyntaxKind.BUILTIN_KW self.now.syntax }
    {
        support::token(&self.syntax, T![builtin])
    }

    /// The first token `,` among the children, if there is one.
    /// Example: `,` of `builtin # offset_of(T, f.g)`.
    pub fn comma_token(&self) -> Option<SyntaxToken>
        ensures { result ≡ token_child SyntaxKind.COMMA self.now.syntax }
    {
        support::token(&self.syntax, T![,])
    }

    /// The first token `(` among the children, if there is one.
    /// Example: `(` of `builtin # offset_of(T, f.g)`.
    pub fn l_paren_token(&self) -> Option<SyntaxToken>
        ensures { result ≡ token_child SyntaxKind.L_PAREN self.now.syntax }
    {
        support::token(&self.syntax, T!['('])
    }

    /// The first token `#` among the children, if there is one.
    /// Example: `#` of `builtin # offset_of(T, f.g)`.
    pub fn pound_token(&self) -> Option<SyntaxToken>
        ensures { result ≡ token_child SyntaxKind.POUND self.now.syntax }
    {
        support::token(&self.syntax, T![#])
    }

    /// The first token `)` among the children, if there is one.
    /// Example: `)` of `builtin # offset_of(T, f.g)`.
    pub fn r_paren_token(&self) -> Option<SyntaxToken>
        ensures { result ≡ token_child SyntaxKind.R_PAREN self.now.syntax }
    {
        support::token(&self.syntax, T![')'])
    }
}

impl ast::ParenExpr {
    /// The first child that is an expression, if there is one.
    /// Example: `a` of `(a)`.
    pub fn expr(&self) -> Option<ast::Expr>
        ensures { IsFirstExpr self.now.syntax result }
    {
        support::child(&self.syntax)
    }

    /// The first token `(` among the children, if there is one.
    /// Example: `(` of `(a)`.
    pub fn l_paren_token(&self) -> Option<SyntaxToken>
        ensures { result ≡ token_child SyntaxKind.L_PAREN self.now.syntax }
    {
        support::token(&self.syntax, T!['('])
    }

    /// The first token `)` among the children, if there is one.
    /// Example: `)` of `(a)`.
    pub fn r_paren_token(&self) -> Option<SyntaxToken>
        ensures { result ≡ token_child SyntaxKind.R_PAREN self.now.syntax }
    {
        support::token(&self.syntax, T![')'])
    }
}

impl ast::PathExpr {
    /// The first child that is a path, if there is one.
    /// Example: `a::b` of `a::b`.
    pub fn path(&self) -> Option<ast::Path>
        ensures { IsFirstPath self.now.syntax result }
    {
        support::child(&self.syntax)
    }
}

impl ast::PrefixExpr {
    /// The first child that is an expression, if there is one.
    /// Example: `a` of `-a`.
    pub fn expr(&self) -> Option<ast::Expr>
        ensures { IsFirstExpr self.now.syntax result }
    {
        support::child(&self.syntax)
    }
}

impl ast::RecordExpr {
    /// The first child that is a path, if there is one.
    /// Example: `S` of `S { f: a, ..b }`.
    pub fn path(&self) -> Option<ast::Path>
        ensures { IsFirstPath self.now.syntax result }
    {
        support::child(&self.syntax)
    }
}

impl ast::RefExpr {
    /// The first child that is an expression, if there is one.
    /// Example: `a` of `&a`.
    pub fn expr(&self) -> Option<ast::Expr>
        ensures { IsFirstExpr self.now.syntax result }
    {
        support::child(&self.syntax)
    }

    /// The first token `&` among the children, if there is one.
    /// Example: `&` of `&a`.
    pub fn amp_token(&self) -> Option<SyntaxToken>
        ensures { result ≡ token_child SyntaxKind.AMP self.now.syntax }
    {
        support::token(&self.syntax, T![&])
    }

    /// The first token `mut` among the children, if there is one.
    /// Example: `mut` of `&mut a`.
    pub fn mut_token(&self) -> Option<SyntaxToken>
        ensures { result ≡ token_child SyntaxKind.MUT_KW self.now.syntax }
    {
        support::token(&self.syntax, T![mut])
    }

    /// The first token `const` among the children, if there is one.
    /// Example: `const` of `&raw const a`.
    pub fn const_token(&self) -> Option<SyntaxToken>
        ensures { result ≡ token_child SyntaxKind.CONST_KW self.now.syntax }
    {
        support::token(&self.syntax, T![const])
    }
}

impl ast::TryExpr {
    /// The first child that is an expression, if there is one.
    /// Example: `a` of `a?`.
    pub fn expr(&self) -> Option<ast::Expr>
        ensures { IsFirstExpr self.now.syntax result }
    {
        support::child(&self.syntax)
    }

    /// The first token `?` among the children, if there is one.
    /// Example: `?` of `a?`.
    pub fn question_mark_token(&self) -> Option<SyntaxToken>
        ensures { result ≡ token_child SyntaxKind.QUESTION self.now.syntax }
    {
        support::token(&self.syntax, T![?])
    }
}

impl ast::TupleExpr {
    /// The children that are expressions, in order.
    /// Example: `a` and `b` of `(a, b)`.
    pub fn fields(&self) -> AstChildren<ast::Expr>
        ensures { result ≡ typed_children expr_kinds self.now.syntax }
    {
        support::children(&self.syntax)
    }

    /// The first token `(` among the children, if there is one.
    /// Example: `(` of `(a, b)`.
    pub fn l_paren_token(&self) -> Option<SyntaxToken>
        ensures { result ≡ token_child SyntaxKind.L_PAREN self.now.syntax }
    {
        support::token(&self.syntax, T!['('])
    }

    /// The first token `)` among the children, if there is one.
    /// Example: `)` of `(a, b)`.
    pub fn r_paren_token(&self) -> Option<SyntaxToken>
        ensures { result ≡ token_child SyntaxKind.R_PAREN self.now.syntax }
    {
        support::token(&self.syntax, T![')'])
    }
}

impl ast::UnderscoreExpr {
    /// The first token `_` among the children, if there is one.
    /// Example: `_` of `_`.
    pub fn underscore_token(&self) -> Option<SyntaxToken>
        ensures { result ≡ token_child SyntaxKind.UNDERSCORE self.now.syntax }
    {
        support::token(&self.syntax, T![_])
    }
}
