//! Lookups in statements and parts of expressions. Made by `tools/views` from `views.txt`.
//! Each call takes time linear in the number of children that it passes, and no memory.
//! The names are those of rust-analyzer.
ghost use Rattle.std.specs.Prelude.{◌≡◌};
ghost use Rattle.ras_node.specs.Nodes.{token_child, typed_children};
ghost use Rattle.ra_ap_syntax.specs.ControlViews.{IsFirstBlockExpr};
ghost use Rattle.ra_ap_syntax.specs.ExprCases.{IsFirstExpr, expr_kinds};
ghost use Rattle.ra_ap_syntax.specs.PatCases.{IsFirstPat};
ghost use Rattle.ra_ap_syntax.specs.PathViews.{IsFirstLifetime, IsFirstNameRef};
ghost use Rattle.ra_ap_syntax.specs.StmtCases.{stmt_kinds};
ghost use Rattle.ra_ap_syntax.specs.StmtViews.{IsFirstLetElse, IsFirstMatchGuard, match_arm_kinds};
ghost use Rattle.ra_ap_syntax.specs.TypeCases.{IsFirstType};

use crate::ast::{self, AstChildren, support};
use lossless_tree::{SyntaxKind, SyntaxToken, T};

impl ast::ArgList {
    /// The children that are expressions, in order.
    /// Example: `a` and `b` of `(a, b)`.
    pub fn args(&self) -> AstChildren<ast::Expr>
        ensures { result ≡ typed_children expr_kinds self.now.syntax }
    {
        support::children(&self.syntax)
    }

    /// The first token `(` among the children, if there is one.
    /// Example: `(` of `(a, b)`.
    pub fn l_paren_token(&self) -> Option<SyntaxToken>
        ensures { result ≡ token_child SyntaxKind.L_PAREN self.now.syntax }
    {
        support::token(&self.syntax, T!['('])
    }

    /// The first token `)` among the children, if there is one.
    /// Example: `)` of `(a, b)`.
    pub fn r_paren_token(&self) -> Option<SyntaxToken>
        ensures { result ≡ token_child SyntaxKind.R_PAREN self.now.syntax }
    {
        support::token(&self.syntax, T![')'])
    }
}

impl ast::ExprStmt {
    /// The first child that is an expression, if there is one.
    /// Example: `a` of `a;`.
    pub fn expr(&self) -> Option<ast::Expr>
        ensures { IsFirstExpr self.now.syntax result }
    {
        support::child(&self.syntax)
    }

    /// The first token `;` among the children, if there is one.
    /// Example: `;` of `a;`.
    pub fn semicolon_token(&self) -> Option<SyntaxToken>
        ensures { result ≡ token_child SyntaxKind.SEMICOLON self.now.syntax }
    {
        support::token(&self.syntax, T![;])
    }
}

impl ast::FormatArgsArg {
    /// The first child that is an expression, if there is one.
    /// Example: `b` of `a = b`.
    pub fn expr(&self) -> Option<ast::Expr>
        ensures { IsFirstExpr self.now.syntax result }
    {
        support::child(&self.syntax)
    }
}

impl ast::Label {
    /// The first child that is a lifetime, if there is one.
    /// Example: `'a` of `'a:`.
    pub fn lifetime(&self) -> Option<ast::Lifetime>
        ensures { IsFirstLifetime self.now.syntax result }
    {
        support::child(&self.syntax)
    }

    /// The first token `:` among the children, if there is one.
    /// Example: `:` of `'a:`.
    pub fn colon_token(&self) -> Option<SyntaxToken>
        ensures { result ≡ token_child SyntaxKind.COLON self.now.syntax }
    {
        support::token(&self.syntax, T![:])
    }
}

impl ast::LetElse {
    /// The first child that is a block expression, if there is one.
    /// Example: `{ b }` of `else { b }`.
    pub fn block_expr(&self) -> Option<ast::BlockExpr>
        ensures { IsFirstBlockExpr self.now.syntax result }
    {
        support::child(&self.syntax)
    }

    /// The first token `else` among the children, if there is one.
    /// Example: `else` of `else { b }`.
    pub fn else_token(&self) -> Option<SyntaxToken>
        ensures { result ≡ token_child SyntaxKind.ELSE_KW self.now.syntax }
    {
        support::token(&self.syntax, T![else])
    }
}

impl ast::LetStmt {
    /// The first child that is an expression, if there is one.
    /// Example: `a` of `let p: T = a else { b };`.
    pub fn initializer(&self) -> Option<ast::Expr>
        ensures { IsFirstExpr self.now.syntax result }
    {
        support::child(&self.syntax)
    }

    /// The first child that is the `else` of a `let`, if there is one.
    /// Example: `else { b }` of `let p: T = a else { b };`.
    pub fn let_else(&self) -> Option<ast::LetElse>
        ensures { IsFirstLetElse self.now.syntax result }
    {
        support::child(&self.syntax)
    }

    /// The first child that is a pattern, if there is one.
    /// Example: `p` of `let p: T = a else { b };`.
    pub fn pat(&self) -> Option<ast::Pat>
        ensures { IsFirstPat self.now.syntax result }
    {
        support::child(&self.syntax)
    }

    /// The first child that is a type, if there is one.
    /// Example: `T` of `let p: T = a else { b };`.
    pub fn ty(&self) -> Option<ast::Type>
        ensures { IsFirstType self.now.syntax result }
    {
        support::child(&self.syntax)
    }

    /// The first token `:` among the children, if there is one.
    /// Example: `:` of `let p: T = a else { b };`.
    pub fn colon_token(&self) -> Option<SyntaxToken>
        ensures { result ≡ token_child SyntaxKind.COLON self.now.syntax }
    {
        support::token(&self.syntax, T![:])
    }

    /// The first token `=` among the children, if there is one.
    /// Example: `=` of `let p: T = a else { b };`.
    pub fn eq_token(&self) -> Option<SyntaxToken>
        ensures { result ≡ token_child SyntaxKind.EQ self.now.syntax }
    {
        support::token(&self.syntax, T![=])
    }

    /// The first token `let` among the children, if there is one.
    /// Example: `let` of `let p: T = a else { b };`.
    pub fn let_token(&self) -> Option<SyntaxToken>
        ensures { result ≡ token_child SyntaxKind.LET_KW self.now.syntax }
    {
        support::token(&self.syntax, T![let])
    }

    /// The first token `;` among the children, if there is one.
    /// Example: `;` of `let p: T = a else { b };`.
    pub fn semicolon_token(&self) -> Option<SyntaxToken>
        ensures { result ≡ token_child SyntaxKind.SEMICOLON self.now.syntax }
    {
        support::token(&self.syntax, T![;])
    }

    /// The first token `super` among the children, if there is one.
    /// Example: `super` of `super let p = a;`.
    pub fn super_token(&self) -> Option<SyntaxToken>
        ensures { result ≡ token_child SyntaxKind.SUPER_KW self.now.syntax }
    {
        support::token(&self.syntax, T![super])
    }
}

impl ast::MatchArm {
    /// The first child that is an expression, if there is one.
    /// Example: `b` of `p if a => b,`.
    pub fn expr(&self) -> Option<ast::Expr>
        ensures { IsFirstExpr self.now.syntax result }
    {
        support::child(&self.syntax)
    }

    /// The first child that is a match guard, if there is one.
    /// Example: `if a` of `p if a => b,`.
    pub fn guard(&self) -> Option<ast::MatchGuard>
        ensures { IsFirstMatchGuard self.now.syntax result }
    {
        support::child(&self.syntax)
    }

    /// The first child that is a pattern, if there is one.
    /// Example: `p` of `p if a => b,`.
    pub fn pat(&self) -> Option<ast::Pat>
        ensures { IsFirstPat self.now.syntax result }
    {
        support::child(&self.syntax)
    }

    /// The first token `,` among the children, if there is one.
    /// Example: `,` of `p if a => b,`.
    pub fn comma_token(&self) -> Option<SyntaxToken>
        ensures { result ≡ token_child SyntaxKind.COMMA self.now.syntax }
    {
        support::token(&self.syntax, T![,])
    }

    /// The first token `=>` among the children, if there is one.
    /// Example: `=>` of `p if a => b,`.
    pub fn fat_arrow_token(&self) -> Option<SyntaxToken>
        ensures { result ≡ token_child SyntaxKind.FAT_ARROW self.now.syntax }
    {
        support::token(&self.syntax, T![=>])
    }
}

impl ast::MatchArmList {
    /// The children that are match arms, in order.
    /// Example: `p => b,` and `q => c` of `{ p => b, q => c }`.
    pub fn arms(&self) -> AstChildren<ast::MatchArm>
        ensures { result ≡ typed_children match_arm_kinds self.now.syntax }
    {
        support::children(&self.syntax)
    }

    /// The first token `{` among the children, if there is one.
    /// Example: `{` of `{ p => b, q => c }`.
    pub fn l_curly_token(&self) -> Option<SyntaxToken>
        ensures { result ≡ token_child SyntaxKind.L_CURLY self.now.syntax }
    {
        support::token(&self.syntax, T!['{'])
    }

    /// The first token `}` among the children, if there is one.
    /// Example: `}` of `{ p => b, q => c }`.
    pub fn r_curly_token(&self) -> Option<SyntaxToken>
        ensures { result ≡ token_child SyntaxKind.R_CURLY self.now.syntax }
    {
        support::token(&self.syntax, T!['}'])
    }
}

impl ast::MatchGuard {
    /// The first child that is an expression, if there is one.
    /// Example: `a` of `if a`.
    pub fn condition(&self) -> Option<ast::Expr>
        ensures { IsFirstExpr self.now.syntax result }
    {
        support::child(&self.syntax)
    }

    /// The first token `if` among the children, if there is one.
    /// Example: `if` of `if a`.
    pub fn if_token(&self) -> Option<SyntaxToken>
        ensures { result ≡ token_child SyntaxKind.IF_KW self.now.syntax }
    {
        support::token(&self.syntax, T![if])
    }
}

impl ast::RecordExprField {
    /// The first child that is an expression, if there is one.
    /// Example: `a` of `f: a`.
    pub fn expr(&self) -> Option<ast::Expr>
        ensures { IsFirstExpr self.now.syntax result }
    {
        support::child(&self.syntax)
    }

    /// The first child that is a name reference, if there is one.
    /// Example: `f` of `f: a`.
    pub fn name_ref(&self) -> Option<ast::NameRef>
        ensures { IsFirstNameRef self.now.syntax result }
    {
        support::child(&self.syntax)
    }

    /// The first token `:` among the children, if there is one.
    /// Example: `:` of `f: a`.
    pub fn colon_token(&self) -> Option<SyntaxToken>
        ensures { result ≡ token_child SyntaxKind.COLON self.now.syntax }
    {
        support::token(&self.syntax, T![:])
    }
}

impl ast::StmtList {
    /// The children that are statements, in order.
    /// Example: `a;` and `fn g() {}` of `{ a; fn g() {} b }`.
    pub fn statements(&self) -> AstChildren<ast::Stmt>
        ensures { result ≡ typed_children stmt_kinds self.now.syntax }
    {
        support::children(&self.syntax)
    }

    /// The first child that is an expression, if there is one.
    /// Example: `b` of `{ a; fn g() {} b }`.
    pub fn tail_expr(&self) -> Option<ast::Expr>
        ensures { IsFirstExpr self.now.syntax result }
    {
        support::child(&self.syntax)
    }

    /// The first token `{` among the children, if there is one.
    /// Example: `{` of `{ a; fn g() {} b }`.
    pub fn l_curly_token(&self) -> Option<SyntaxToken>
        ensures { result ≡ token_child SyntaxKind.L_CURLY self.now.syntax }
    {
        support::token(&self.syntax, T!['{'])
    }

    /// The first token `}` among the children, if there is one.
    /// Example: `}` of `{ a; fn g() {} b }`.
    pub fn r_curly_token(&self) -> Option<SyntaxToken>
        ensures { result ≡ token_child SyntaxKind.R_CURLY self.now.syntax }
    {
        support::token(&self.syntax, T!['}'])
    }
}

impl ast::TryBlockModifier {
    /// The first child that is a type, if there is one.
    /// Example: `T` of `try bikeshed T`.
    pub fn ty(&self) -> Option<ast::Type>
        ensures { IsFirstType self.now.syntax result }
    {
        support::child(&self.syntax)
    }

    /// The first token `bikeshed` among the children, if there is one.
    /// Example: `bikeshed` of `try bikeshed T`.
    pub fn bikeshed_token(&self) -> Option<SyntaxToken>
        ensures { result ≡ token_child SyntaxKind.BIKESHED_KW self.now.syntax }
    {
        support::token(&self.syntax, T![bikeshed])
    }

    /// The first token `try` among the children, if there is one.
    /// Example: `try` of `try bikeshed T`.
    pub fn try_token(&self) -> Option<SyntaxToken>
        ensures { result ≡ token_child SyntaxKind.TRY_KW self.now.syntax }
    {
        support::token(&self.syntax, T![try])
    }
}
