//! Lookups in parts of items. Made by `tools/views` from `views.txt`.
//! Each call takes time linear in the number of children that it passes, and no memory.
//! The names are those of rust-analyzer.
ghost use Rattle.std.specs.Prelude.{◌≡◌};
ghost use Rattle.ras_node.specs.Nodes.{token_child, typed_children};
ghost use Rattle.ra_ap_syntax.specs.AssocItemCases.{assoc_item_kinds};
ghost use Rattle.ra_ap_syntax.specs.ExprCases.{IsFirstExpr};
ghost use Rattle.ra_ap_syntax.specs.ExternItemCases.{extern_item_kinds};
ghost use Rattle.ra_ap_syntax.specs.GenericViews.{IsFirstConstArg};
ghost use Rattle.ra_ap_syntax.specs.PartViews.{IsFirstSelfParam, IsFirstUseTreeList, IsFirstVisibilityInner, param_kinds, record_field_kinds, tuple_field_kinds, use_tree_kinds};
ghost use Rattle.ra_ap_syntax.specs.PatCases.{IsFirstPat};
ghost use Rattle.ra_ap_syntax.specs.PathViews.{IsFirstLifetime, IsFirstPath};
ghost use Rattle.ra_ap_syntax.specs.StmtCases.{stmt_kinds};
ghost use Rattle.ra_ap_syntax.specs.TypeCases.{IsFirstType};

use crate::ast::{self, AstChildren, support};
use lossless_tree::{SyntaxKind, SyntaxToken, T};

impl ast::Abi {
    /// The first token `extern` among the children, if there is one.
    /// Example: `extern` of `extern "C"`.
    pub fn extern_token(&self) -> Option<SyntaxToken>
        ensures { result ≡ token_child SyntaxKind.EXTERN_KW self.now.syntax }
    {
        support::token(&self.syntax, T![extern])
    }

    /// The first string token among the children, if there is one.
    /// Example: `"C"` of `extern "C"`.
    pub fn string_token(&self) -> Option<SyntaxToken>
        ensures { result ≡ token_child SyntaxKind.STRING self.now.syntax }
    {
        support::token(&self.syntax, SyntaxKind::STRING)
    }
}

impl ast::AssocItemList {
    /// The children that are associated items, in order.
    /// Example: `fn f() {}` of `{ fn f() {} }`.
    pub fn assoc_items(&self) -> AstChildren<ast::AssocItem>
        ensures { result ≡ typed_children assoc_item_kinds self.now.syntax }
    {
        support::children(&self.syntax)
    }

    /// The first token `{` among the children, if there is one.
    /// Example: `{` of `{ fn f() {} }`.
    pub fn l_curly_token(&self) -> Option<SyntaxToken>
        ensures { result ≡ token_child SyntaxKind.L_CURLY self.now.syntax }
    {
        support::token(&self.syntax, T!['{'])
    }

    /// The first token `}` among the children, if there is one.
    /// Example: `}` of `{ fn f() {} }`.
    pub fn r_curly_token(&self) -> Option<SyntaxToken>
        ensures { result ≡ token_child SyntaxKind.R_CURLY self.now.syntax }
    {
        support::token(&self.syntax, T!['}'])
    }
}

impl ast::ExternItemList {
    /// The children that are extern items, in order.
    /// Example: `fn f();` of `{ fn f(); }`.
    pub fn extern_items(&self) -> AstChildren<ast::ExternItem>
        ensures { result ≡ typed_children extern_item_kinds self.now.syntax }
    {
        support::children(&self.syntax)
    }

    /// The first token `{` among the children, if there is one.
    /// Example: `{` of `{ fn f(); }`.
    pub fn l_curly_token(&self) -> Option<SyntaxToken>
        ensures { result ≡ token_child SyntaxKind.L_CURLY self.now.syntax }
    {
        support::token(&self.syntax, T!['{'])
    }

    /// The first token `}` among the children, if there is one.
    /// Example: `}` of `{ fn f(); }`.
    pub fn r_curly_token(&self) -> Option<SyntaxToken>
        ensures { result ≡ token_child SyntaxKind.R_CURLY self.now.syntax }
    {
        support::token(&self.syntax, T!['}'])
    }
}

impl ast::ItemList {
    /// The first token `{` among the children, if there is one.
    /// Example: `{` of `{ fn f() {} }`.
    pub fn l_curly_token(&self) -> Option<SyntaxToken>
        ensures { result ≡ token_child SyntaxKind.L_CURLY self.now.syntax }
    {
        support::token(&self.syntax, T!['{'])
    }

    /// The first token `}` among the children, if there is one.
    /// Example: `}` of `{ fn f() {} }`.
    pub fn r_curly_token(&self) -> Option<SyntaxToken>
        ensures { result ≡ token_child SyntaxKind.R_CURLY self.now.syntax }
    {
        support::token(&self.syntax, T!['}'])
    }
}

impl ast::MacroStmts {
    /// The first child that is an expression, if there is one.
    pub fn expr(&self) -> Option<ast::Expr>
        ensures { IsFirstExpr self.now.syntax result }
    {
        support::child(&self.syntax)
    }

    /// The children that are statements, in order.
    pub fn statements(&self) -> AstChildren<ast::Stmt>
        ensures { result ≡ typed_children stmt_kinds self.now.syntax }
    {
        support::children(&self.syntax)
    }
}

impl ast::Param {
    /// The first child that is a pattern, if there is one.
    /// Example: `a` of `a: T`.
    pub fn pat(&self) -> Option<ast::Pat>
        ensures { IsFirstPat self.now.syntax result }
    {
        support::child(&self.syntax)
    }

    /// The first child that is a type, if there is one.
    /// Example: `T` of `a: T`.
    pub fn ty(&self) -> Option<ast::Type>
        ensures { IsFirstType self.now.syntax result }
    {
        support::child(&self.syntax)
    }

    /// The first token `:` among the children, if there is one.
    /// Example: `:` of `a: T`.
    pub fn colon_token(&self) -> Option<SyntaxToken>
        ensures { result ≡ token_child SyntaxKind.COLON self.now.syntax }
    {
        support::token(&self.syntax, T![:])
    }

    /// The first token `...` among the children, if there is one.
    /// Example: `...` of `...`.
    pub fn dotdotdot_token(&self) -> Option<SyntaxToken>
        ensures { result ≡ token_child SyntaxKind.DOT3 self.now.syntax }
    {
        support::token(&self.syntax, T![...])
    }
}

impl ast::ParamList {
    /// The children that are parameters, in order.
    /// Example: `a: T` and `b: U` of `(self, a: T, b: U)`.
    pub fn params(&self) -> AstChildren<ast::Param>
        ensures { result ≡ typed_children param_kinds self.now.syntax }
    {
        support::children(&self.syntax)
    }

    /// The first child that is a self parameter, if there is one.
    /// Example: `self` of `(self, a: T, b: U)`.
    pub fn self_param(&self) -> Option<ast::SelfParam>
        ensures { IsFirstSelfParam self.now.syntax result }
    {
        support::child(&self.syntax)
    }

    /// The first token `,` among the children, if there is one.
    /// Example: `,` of `(self, a: T, b: U)`.
    pub fn comma_token(&self) -> Option<SyntaxToken>
        ensures { result ≡ token_child SyntaxKind.COMMA self.now.syntax }
    {
        support::token(&self.syntax, T![,])
    }

    /// The first token `(` among the children, if there is one.
    /// Example: `(` of `(self, a: T, b: U)`.
    pub fn l_paren_token(&self) -> Option<SyntaxToken>
        ensures { result ≡ token_child SyntaxKind.L_PAREN self.now.syntax }
    {
        support::token(&self.syntax, T!['('])
    }

    /// The first token `)` among the children, if there is one.
    /// Example: `)` of `(self, a: T, b: U)`.
    pub fn r_paren_token(&self) -> Option<SyntaxToken>
        ensures { result ≡ token_child SyntaxKind.R_PAREN self.now.syntax }
    {
        support::token(&self.syntax, T![')'])
    }

    /// The first token `|` among the children, if there is one.
    /// Example: `|` of `|a, b|`.
    pub fn pipe_token(&self) -> Option<SyntaxToken>
        ensures { result ≡ token_child SyntaxKind.PIPE self.now.syntax }
    {
        support::token(&self.syntax, T![|])
    }
}

impl ast::RecordField {
    /// The first child that is a const argument, if there is one.
    /// Example: `1` of `f: T = 1`.
    pub fn default_val(&self) -> Option<ast::ConstArg>
        ensures { IsFirstConstArg self.now.syntax result }
    {
        support::child(&self.syntax)
    }

    /// The first child that is a type, if there is one.
    /// Example: `T` of `f: T = 1`.
    pub fn ty(&self) -> Option<ast::Type>
        ensures { IsFirstType self.now.syntax result }
    {
        support::child(&self.syntax)
    }

    /// The first token `:` among the children, if there is one.
    /// Example: `:` of `f: T = 1`.
    pub fn colon_token(&self) -> Option<SyntaxToken>
        ensures { result ≡ token_child SyntaxKind.COLON self.now.syntax }
    {
        support::token(&self.syntax, T![:])
    }

    /// The first token `=` among the children, if there is one.
    /// Example: `=` of `f: T = 1`.
    pub fn eq_token(&self) -> Option<SyntaxToken>
        ensures { result ≡ token_child SyntaxKind.EQ self.now.syntax }
    {
        support::token(&self.syntax, T![=])
    }

    /// The first token `unsafe` among the children, if there is one.
    /// Example: `unsafe` of `unsafe f: T`.
    pub fn unsafe_token(&self) -> Option<SyntaxToken>
        ensures { result ≡ token_child SyntaxKind.UNSAFE_KW self.now.syntax }
    {
        support::token(&self.syntax, T![unsafe])
    }
}

impl ast::RecordFieldList {
    /// The children that are record fields, in order.
    /// Example: `f: T` and `g: U` of `{ f: T, g: U }`.
    pub fn fields(&self) -> AstChildren<ast::RecordField>
        ensures { result ≡ typed_children record_field_kinds self.now.syntax }
    {
        support::children(&self.syntax)
    }

    /// The first token `{` among the children, if there is one.
    /// Example: `{` of `{ f: T, g: U }`.
    pub fn l_curly_token(&self) -> Option<SyntaxToken>
        ensures { result ≡ token_child SyntaxKind.L_CURLY self.now.syntax }
    {
        support::token(&self.syntax, T!['{'])
    }

    /// The first token `}` among the children, if there is one.
    /// Example: `}` of `{ f: T, g: U }`.
    pub fn r_curly_token(&self) -> Option<SyntaxToken>
        ensures { result ≡ token_child SyntaxKind.R_CURLY self.now.syntax }
    {
        support::token(&self.syntax, T!['}'])
    }
}

impl ast::SelfParam {
    /// The first child that is a lifetime, if there is one.
    /// Example: `'a` of `&'a mut self`.
    pub fn lifetime(&self) -> Option<ast::Lifetime>
        ensures { IsFirstLifetime self.now.syntax result }
    {
        support::child(&self.syntax)
    }

    /// The first token `&` among the children, if there is one.
    /// Example: `&` of `&'a mut self`.
    pub fn amp_token(&self) -> Option<SyntaxToken>
        ensures { result ≡ token_child SyntaxKind.AMP self.now.syntax }
    {
        support::token(&self.syntax, T![&])
    }

    /// The first token `mut` among the children, if there is one.
    /// Example: `mut` of `&'a mut self`.
    pub fn mut_token(&self) -> Option<SyntaxToken>
        ensures { result ≡ token_child SyntaxKind.MUT_KW self.now.syntax }
    {
        support::token(&self.syntax, T![mut])
    }

    /// The first child that is a type, if there is one.
    /// Example: `T` of `self: T`.
    pub fn ty(&self) -> Option<ast::Type>
        ensures { IsFirstType self.now.syntax result }
    {
        support::child(&self.syntax)
    }

    /// The first token `:` among the children, if there is one.
    /// Example: `:` of `self: T`.
    pub fn colon_token(&self) -> Option<SyntaxToken>
        ensures { result ≡ token_child SyntaxKind.COLON self.now.syntax }
    {
        support::token(&self.syntax, T![:])
    }
}

impl ast::TupleField {
    /// The first child that is a type, if there is one.
    /// Example: `T` of `T`.
    pub fn ty(&self) -> Option<ast::Type>
        ensures { IsFirstType self.now.syntax result }
    {
        support::child(&self.syntax)
    }
}

impl ast::TupleFieldList {
    /// The children that are tuple fields, in order.
    /// Example: `T` and `U` of `(T, U)`.
    pub fn fields(&self) -> AstChildren<ast::TupleField>
        ensures { result ≡ typed_children tuple_field_kinds self.now.syntax }
    {
        support::children(&self.syntax)
    }

    /// The first token `(` among the children, if there is one.
    /// Example: `(` of `(T, U)`.
    pub fn l_paren_token(&self) -> Option<SyntaxToken>
        ensures { result ≡ token_child SyntaxKind.L_PAREN self.now.syntax }
    {
        support::token(&self.syntax, T!['('])
    }

    /// The first token `)` among the children, if there is one.
    /// Example: `)` of `(T, U)`.
    pub fn r_paren_token(&self) -> Option<SyntaxToken>
        ensures { result ≡ token_child SyntaxKind.R_PAREN self.now.syntax }
    {
        support::token(&self.syntax, T![')'])
    }
}

impl ast::UseTree {
    /// The first child that is a path, if there is one.
    /// Example: `a` of `a::{b, c}`.
    pub fn path(&self) -> Option<ast::Path>
        ensures { IsFirstPath self.now.syntax result }
    {
        support::child(&self.syntax)
    }

    /// The first child that is a list of use trees, if there is one.
    /// Example: `{b, c}` of `a::{b, c}`.
    pub fn use_tree_list(&self) -> Option<ast::UseTreeList>
        ensures { IsFirstUseTreeList self.now.syntax result }
    {
        support::child(&self.syntax)
    }

    /// The first token `::` among the children, if there is one.
    /// Example: `::` of `a::{b, c}`.
    pub fn coloncolon_token(&self) -> Option<SyntaxToken>
        ensures { result ≡ token_child SyntaxKind.COLON2 self.now.syntax }
    {
        support::token(&self.syntax, T![::])
    }

    /// The first token `*` among the children, if there is one.
    /// Example: `*` of `a::*`.
    pub fn star_token(&self) -> Option<SyntaxToken>
        ensures { result ≡ token_child SyntaxKind.STAR self.now.syntax }
    {
        support::token(&self.syntax, T![*])
    }
}

impl ast::UseTreeList {
    /// The children that are use trees, in order.
    /// Example: `b` and `c` of `{b, c}`.
    pub fn use_trees(&self) -> AstChildren<ast::UseTree>
        ensures { result ≡ typed_children use_tree_kinds self.now.syntax }
    {
        support::children(&self.syntax)
    }

    /// The first token `{` among the children, if there is one.
    /// Example: `{` of `{b, c}`.
    pub fn l_curly_token(&self) -> Option<SyntaxToken>
        ensures { result ≡ token_child SyntaxKind.L_CURLY self.now.syntax }
    {
        support::token(&self.syntax, T!['{'])
    }

    /// The first token `}` among the children, if there is one.
    /// Example: `}` of `{b, c}`.
    pub fn r_curly_token(&self) -> Option<SyntaxToken>
        ensures { result ≡ token_child SyntaxKind.R_CURLY self.now.syntax }
    {
        support::token(&self.syntax, T!['}'])
    }
}

impl ast::Variant {
    /// The first child that is a const argument, if there is one.
    /// Example: `1` of `A = 1`.
    pub fn const_arg(&self) -> Option<ast::ConstArg>
        ensures { IsFirstConstArg self.now.syntax result }
    {
        support::child(&self.syntax)
    }

    /// The first token `=` among the children, if there is one.
    /// Example: `=` of `A = 1`.
    pub fn eq_token(&self) -> Option<SyntaxToken>
        ensures { result ≡ token_child SyntaxKind.EQ self.now.syntax }
    {
        support::token(&self.syntax, T![=])
    }
}

impl ast::Visibility {
    /// The first child that is the inside of a visibility, if there is one.
    /// Example: `(in a)` of `pub(in a)`.
    pub fn visibility_inner(&self) -> Option<ast::VisibilityInner>
        ensures { IsFirstVisibilityInner self.now.syntax result }
    {
        support::child(&self.syntax)
    }

    /// The first token `pub` among the children, if there is one.
    /// Example: `pub` of `pub(in a)`.
    pub fn pub_token(&self) -> Option<SyntaxToken>
        ensures { result ≡ token_child SyntaxKind.PUB_KW self.now.syntax }
    {
        support::token(&self.syntax, T![pub])
    }
}

impl ast::VisibilityInner {
    /// The first child that is a path, if there is one.
    /// Example: `a` of `(in a)`.
    pub fn path(&self) -> Option<ast::Path>
        ensures { IsFirstPath self.now.syntax result }
    {
        support::child(&self.syntax)
    }

    /// The first token `in` among the children, if there is one.
    /// Example: `in` of `(in a)`.
    pub fn in_token(&self) -> Option<SyntaxToken>
        ensures { result ≡ token_child SyntaxKind.IN_KW self.now.syntax }
    {
        support::token(&self.syntax, T![in])
    }

    /// The first token `(` among the children, if there is one.
    /// Example: `(` of `(in a)`.
    pub fn l_paren_token(&self) -> Option<SyntaxToken>
        ensures { result ≡ token_child SyntaxKind.L_PAREN self.now.syntax }
    {
        support::token(&self.syntax, T!['('])
    }

    /// The first token `)` among the children, if there is one.
    /// Example: `)` of `(in a)`.
    pub fn r_paren_token(&self) -> Option<SyntaxToken>
        ensures { result ≡ token_child SyntaxKind.R_PAREN self.now.syntax }
    {
        support::token(&self.syntax, T![')'])
    }
}
