//! Lookups in patterns. Made by `tools/views` from `views.txt`.
//! Each call takes time linear in the number of children that it passes, and no memory.
//! The names are those of rust-analyzer.
ghost use Rattle.std.specs.Prelude.{◌≡◌};
ghost use Rattle.ras_node.specs.Nodes.{token_child, typed_children};
ghost use Rattle.ra_ap_syntax.specs.ControlViews.{IsFirstBlockExpr};
ghost use Rattle.ra_ap_syntax.specs.ExprViews.{IsFirstLiteral};
ghost use Rattle.ra_ap_syntax.specs.ItemViews.{IsFirstMacroCall};
ghost use Rattle.ra_ap_syntax.specs.PatCases.{IsFirstPat, pat_kinds};
ghost use Rattle.ra_ap_syntax.specs.PathViews.{IsFirstNameRef, IsFirstPath};

use crate::ast::{self, AstChildren, support};
use lossless_tree::{SyntaxKind, SyntaxToken, T};

impl ast::BoxPat {
    /// The first child that is a pattern, if there is one.
    /// Example: `p` of `box p`.
    pub fn pat(&self) -> Option<ast::Pat>
        ensures { IsFirstPat self.now.syntax result }
    {
        support::child(&self.syntax)
    }
}

impl ast::ConstBlockPat {
    /// The first child that is a block expression, if there is one.
    /// Example: `{ b }` of `const { b }`.
    pub fn block_expr(&self) -> Option<ast::BlockExpr>
        ensures { IsFirstBlockExpr self.now.syntax result }
    {
        support::child(&self.syntax)
    }

    /// The first token `const` among the children, if there is one.
    /// Example: `const` of `const { b }`.
    pub fn const_token(&self) -> Option<SyntaxToken>
        ensures { result ≡ token_child SyntaxKind.CONST_KW self.now.syntax }
    {
        support::token(&self.syntax, T![const])
    }
}

impl ast::IdentPat {
    /// The first child that is a pattern, if there is one.
    /// Example: `p` of `ref mut x @ p`.
    pub fn pat(&self) -> Option<ast::Pat>
        ensures { IsFirstPat self.now.syntax result }
    {
        support::child(&self.syntax)
    }

    /// The first token `@` among the children, if there is one.
    /// Example: `@` of `ref mut x @ p`.
    pub fn at_token(&self) -> Option<SyntaxToken>
        ensures { result ≡ token_child SyntaxKind.AT self.now.syntax }
    {
        support::token(&self.syntax, T![@])
    }

    /// The first token `mut` among the children, if there is one.
    /// Example: `mut` of `ref mut x @ p`.
    pub fn mut_token(&self) -> Option<SyntaxToken>
        ensures { result ≡ token_child SyntaxKind.MUT_KW self.now.syntax }
    {
        support::token(&self.syntax, T![mut])
    }

    /// The first token `ref` among the children, if there is one.
    /// Example: `ref` of `ref mut x @ p`.
    pub fn ref_token(&self) -> Option<SyntaxToken>
        ensures { result ≡ token_child SyntaxKind.REF_KW self.now.syntax }
    {
        support::token(&self.syntax, T![ref])
    }
}

impl ast::LiteralPat {
    /// The first child that is a literal, if there is one.
    /// Example: `1` of `-1`.
    pub fn literal(&self) -> Option<ast::Literal>
        ensures { IsFirstLiteral self.now.syntax result }
    {
        support::child(&self.syntax)
    }

    /// The first token `-` among the children, if there is one.
    /// Example: `-` of `-1`.
    pub fn minus_token(&self) -> Option<SyntaxToken>
        ensures { result ≡ token_child SyntaxKind.MINUS self.now.syntax }
    {
        support::token(&self.syntax, T![-])
    }
}

impl ast::MacroPat {
    /// The first child that is a macro call, if there is one.
    /// Example: `m!(a)` of `m!(a)`.
    pub fn macro_call(&self) -> Option<ast::MacroCall>
        ensures { IsFirstMacroCall self.now.syntax result }
    {
        support::child(&self.syntax)
    }
}

impl ast::OrPat {
    /// The children that are patterns, in order.
    /// Example: `p` and `q` of `p | q`.
    pub fn pats(&self) -> AstChildren<ast::Pat>
        ensures { result ≡ typed_children pat_kinds self.now.syntax }
    {
        support::children(&self.syntax)
    }

    /// The first token `|` among the children, if there is one.
    /// Example: `|` of `p | q`.
    pub fn pipe_token(&self) -> Option<SyntaxToken>
        ensures { result ≡ token_child SyntaxKind.PIPE self.now.syntax }
    {
        support::token(&self.syntax, T![|])
    }
}

impl ast::ParenPat {
    /// The first child that is a pattern, if there is one.
    /// Example: `p` of `(p)`.
    pub fn pat(&self) -> Option<ast::Pat>
        ensures { IsFirstPat self.now.syntax result }
    {
        support::child(&self.syntax)
    }

    /// The first token `(` among the children, if there is one.
    /// Example: `(` of `(p)`.
    pub fn l_paren_token(&self) -> Option<SyntaxToken>
        ensures { result ≡ token_child SyntaxKind.L_PAREN self.now.syntax }
    {
        support::token(&self.syntax, T!['('])
    }

    /// The first token `)` among the children, if there is one.
    /// Example: `)` of `(p)`.
    pub fn r_paren_token(&self) -> Option<SyntaxToken>
        ensures { result ≡ token_child SyntaxKind.R_PAREN self.now.syntax }
    {
        support::token(&self.syntax, T![')'])
    }
}

impl ast::PathPat {
    /// The first child that is a path, if there is one.
    /// Example: `a::b` of `a::b`.
    pub fn path(&self) -> Option<ast::Path>
        ensures { IsFirstPath self.now.syntax result }
    {
        support::child(&self.syntax)
    }
}

impl ast::RecordPat {
    /// The first child that is a path, if there is one.
    /// Example: `S` of `S { f: p, .. }`.
    pub fn path(&self) -> Option<ast::Path>
        ensures { IsFirstPath self.now.syntax result }
    {
        support::child(&self.syntax)
    }
}

impl ast::RecordPatField {
    /// The first child that is a name reference, if there is one.
    /// Example: `f` of `f: p`.
    pub fn name_ref(&self) -> Option<ast::NameRef>
        ensures { IsFirstNameRef self.now.syntax result }
    {
        support::child(&self.syntax)
    }

    /// The first child that is a pattern, if there is one.
    /// Example: `p` of `f: p`.
    pub fn pat(&self) -> Option<ast::Pat>
        ensures { IsFirstPat self.now.syntax result }
    {
        support::child(&self.syntax)
    }

    /// The first token `:` among the children, if there is one.
    /// Example: `:` of `f: p`.
    pub fn colon_token(&self) -> Option<SyntaxToken>
        ensures { result ≡ token_child SyntaxKind.COLON self.now.syntax }
    {
        support::token(&self.syntax, T![:])
    }
}

impl ast::RefPat {
    /// The first child that is a pattern, if there is one.
    /// Example: `p` of `&mut p`.
    pub fn pat(&self) -> Option<ast::Pat>
        ensures { IsFirstPat self.now.syntax result }
    {
        support::child(&self.syntax)
    }

    /// The first token `&` among the children, if there is one.
    /// Example: `&` of `&mut p`.
    pub fn amp_token(&self) -> Option<SyntaxToken>
        ensures { result ≡ token_child SyntaxKind.AMP self.now.syntax }
    {
        support::token(&self.syntax, T![&])
    }

    /// The first token `mut` among the children, if there is one.
    /// Example: `mut` of `&mut p`.
    pub fn mut_token(&self) -> Option<SyntaxToken>
        ensures { result ≡ token_child SyntaxKind.MUT_KW self.now.syntax }
    {
        support::token(&self.syntax, T![mut])
    }
}

impl ast::RestPat {
    /// The first token `..` among the children, if there is one.
    /// Example: `..` of `..`.
    pub fn dotdot_token(&self) -> Option<SyntaxToken>
        ensures { result ≡ token_child SyntaxKind.DOT2 self.now.syntax }
    {
        support::token(&self.syntax, T![..])
    }
}

impl ast::SlicePat {
    /// The children that are patterns, in order.
    /// Example: `p` and `q` of `[p, q]`.
    pub fn pats(&self) -> AstChildren<ast::Pat>
        ensures { result ≡ typed_children pat_kinds self.now.syntax }
    {
        support::children(&self.syntax)
    }

    /// The first token `[` among the children, if there is one.
    /// Example: `[` of `[p, q]`.
    pub fn l_brack_token(&self) -> Option<SyntaxToken>
        ensures { result ≡ token_child SyntaxKind.L_BRACK self.now.syntax }
    {
        support::token(&self.syntax, T!['['])
    }

    /// The first token `]` among the children, if there is one.
    /// Example: `]` of `[p, q]`.
    pub fn r_brack_token(&self) -> Option<SyntaxToken>
        ensures { result ≡ token_child SyntaxKind.R_BRACK self.now.syntax }
    {
        support::token(&self.syntax, T![']'])
    }
}

impl ast::TuplePat {
    /// The children that are patterns, in order.
    /// Example: `p` and `q` of `(p, q)`.
    pub fn fields(&self) -> AstChildren<ast::Pat>
        ensures { result ≡ typed_children pat_kinds self.now.syntax }
    {
        support::children(&self.syntax)
    }

    /// The first token `(` among the children, if there is one.
    /// Example: `(` of `(p, q)`.
    pub fn l_paren_token(&self) -> Option<SyntaxToken>
        ensures { result ≡ token_child SyntaxKind.L_PAREN self.now.syntax }
    {
        support::token(&self.syntax, T!['('])
    }

    /// The first token `)` among the children, if there is one.
    /// Example: `)` of `(p, q)`.
    pub fn r_paren_token(&self) -> Option<SyntaxToken>
        ensures { result ≡ token_child SyntaxKind.R_PAREN self.now.syntax }
    {
        support::token(&self.syntax, T![')'])
    }
}

impl ast::TupleStructPat {
    /// The children that are patterns, in order.
    /// Example: `p` and `q` of `S(p, q)`.
    pub fn fields(&self) -> AstChildren<ast::Pat>
        ensures { result ≡ typed_children pat_kinds self.now.syntax }
    {
        support::children(&self.syntax)
    }

    /// The first child that is a path, if there is one.
    /// Example: `S` of `S(p, q)`.
    pub fn path(&self) -> Option<ast::Path>
        ensures { IsFirstPath self.now.syntax result }
    {
        support::child(&self.syntax)
    }

    /// The first token `(` among the children, if there is one.
    /// Example: `(` of `S(p, q)`.
    pub fn l_paren_token(&self) -> Option<SyntaxToken>
        ensures { result ≡ token_child SyntaxKind.L_PAREN self.now.syntax }
    {
        support::token(&self.syntax, T!['('])
    }

    /// The first token `)` among the children, if there is one.
    /// Example: `)` of `S(p, q)`.
    pub fn r_paren_token(&self) -> Option<SyntaxToken>
        ensures { result ≡ token_child SyntaxKind.R_PAREN self.now.syntax }
    {
        support::token(&self.syntax, T![')'])
    }
}

impl ast::WildcardPat {
    /// The first token `_` among the children, if there is one.
    /// Example: `_` of `_`.
    pub fn underscore_token(&self) -> Option<SyntaxToken>
        ensures { result ≡ token_child SyntaxKind.UNDERSCORE self.now.syntax }
    {
        support::token(&self.syntax, T![_])
    }
}
