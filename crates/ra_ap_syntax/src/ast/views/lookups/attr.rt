//! Lookups in attributes and doc comments. Made by `tools/views` from `views.txt`.
//! Each call takes time linear in the number of children that it passes, and no memory.
//! The names are those of rust-analyzer.
ghost use Rattle.std.specs.Prelude.{◌≡◌};
ghost use Rattle.ras_node.specs.Nodes.{token_child, typed_children};
ghost use Rattle.ra_ap_syntax.specs.AttrViews.{IsFirstTokenTree};
ghost use Rattle.ra_ap_syntax.specs.ExprCases.{IsFirstExpr};
ghost use Rattle.ra_ap_syntax.specs.MetaCases.{IsFirstMeta, meta_kinds};
ghost use Rattle.ra_ap_syntax.specs.PathViews.{IsFirstPath};

use crate::ast::{self, AstChildren, support};
use lossless_tree::{SyntaxKind, SyntaxToken, T};

impl ast::Attr {
    /// The first child that is a meta item, if there is one.
    /// Example: `a` of `#[a]`.
    pub fn meta(&self) -> Option<ast::Meta>
        ensures { IsFirstMeta self.now.syntax result }
    {
        support::child(&self.syntax)
    }

    /// The first token `[` among the children, if there is one.
    /// Example: `[` of `#[a]`.
    pub fn l_brack_token(&self) -> Option<SyntaxToken>
        ensures { result ≡ token_child SyntaxKind.L_BRACK self.now.syntax }
    {
        support::token(&self.syntax, T!['['])
    }

    /// The first token `#` among the children, if there is one.
    /// Example: `#` of `#[a]`.
    pub fn pound_token(&self) -> Option<SyntaxToken>
        ensures { result ≡ token_child SyntaxKind.POUND self.now.syntax }
    {
        support::token(&self.syntax, T![#])
    }

    /// The first token `]` among the children, if there is one.
    /// Example: `]` of `#[a]`.
    pub fn r_brack_token(&self) -> Option<SyntaxToken>
        ensures { result ≡ token_child SyntaxKind.R_BRACK self.now.syntax }
    {
        support::token(&self.syntax, T![']'])
    }

    /// The first token `!` among the children, if there is one.
    /// Example: `!` of `#![a]`.
    pub fn excl_token(&self) -> Option<SyntaxToken>
        ensures { result ≡ token_child SyntaxKind.BANG self.now.syntax }
    {
        support::token(&self.syntax, T![!])
    }
}

impl ast::CfgAtom {
    /// The first identifier token among the children, if there is one.
    /// Example: `a` of `a`.
    pub fn ident_token(&self) -> Option<SyntaxToken>
        ensures { result ≡ token_child SyntaxKind.IDENT self.now.syntax }
    {
        support::token(&self.syntax, SyntaxKind::IDENT)
    }

    /// The first token `true` among the children, if there is one.
    /// Example: `true` of `true`.
    pub fn true_token(&self) -> Option<SyntaxToken>
        ensures { result ≡ token_child SyntaxKind.TRUE_KW self.now.syntax }
    {
        support::token(&self.syntax, T![true])
    }

    /// The first token `false` among the children, if there is one.
    /// Example: `false` of `false`.
    pub fn false_token(&self) -> Option<SyntaxToken>
        ensures { result ≡ token_child SyntaxKind.FALSE_KW self.now.syntax }
    {
        support::token(&self.syntax, T![false])
    }
}

impl ast::CfgAttrMeta {
    /// The children that are meta items, in order.
    /// Example: `m` of `cfg_attr(p, m)`.
    pub fn metas(&self) -> AstChildren<ast::Meta>
        ensures { result ≡ typed_children meta_kinds self.now.syntax }
    {
        support::children(&self.syntax)
    }

    /// The first token `,` among the children, if there is one.
    /// Example: `,` of `cfg_attr(p, m)`.
    pub fn comma_token(&self) -> Option<SyntaxToken>
        ensures { result ≡ token_child SyntaxKind.COMMA self.now.syntax }
    {
        support::token(&self.syntax, T![,])
    }

    /// The first token `(` among the children, if there is one.
    /// Example: `(` of `cfg_attr(p, m)`.
    pub fn l_paren_token(&self) -> Option<SyntaxToken>
        ensures { result ≡ token_child SyntaxKind.L_PAREN self.now.syntax }
    {
        support::token(&self.syntax, T!['('])
    }

    /// The first token `)` among the children, if there is one.
    /// Example: `)` of `cfg_attr(p, m)`.
    pub fn r_paren_token(&self) -> Option<SyntaxToken>
        ensures { result ≡ token_child SyntaxKind.R_PAREN self.now.syntax }
    {
        support::token(&self.syntax, T![')'])
    }
}

impl ast::CfgMeta {
    /// The first token `(` among the children, if there is one.
    /// Example: `(` of `cfg(p)`.
    pub fn l_paren_token(&self) -> Option<SyntaxToken>
        ensures { result ≡ token_child SyntaxKind.L_PAREN self.now.syntax }
    {
        support::token(&self.syntax, T!['('])
    }

    /// The first token `)` among the children, if there is one.
    /// Example: `)` of `cfg(p)`.
    pub fn r_paren_token(&self) -> Option<SyntaxToken>
        ensures { result ≡ token_child SyntaxKind.R_PAREN self.now.syntax }
    {
        support::token(&self.syntax, T![')'])
    }
}

impl ast::DocComment {
    /// The first outer doc comment token among the children, if there is one.
    /// Example: `/// a` of `/// a`.
    pub fn outer_doc_comment_token(&self) -> Option<SyntaxToken>
        ensures { result ≡ token_child SyntaxKind.OUTER_DOC_COMMENT self.now.syntax }
    {
        support::token(&self.syntax, SyntaxKind::OUTER_DOC_COMMENT)
    }

    /// The first inner doc comment token among the children, if there is one.
    /// Example: `//! a` of `//! a`.
    pub fn inner_doc_comment_token(&self) -> Option<SyntaxToken>
        ensures { result ≡ token_child SyntaxKind.INNER_DOC_COMMENT self.now.syntax }
    {
        support::token(&self.syntax, SyntaxKind::INNER_DOC_COMMENT)
    }
}

impl ast::KeyValueMeta {
    /// The first child that is an expression, if there is one.
    /// Example: `b` of `a = b`.
    pub fn expr(&self) -> Option<ast::Expr>
        ensures { IsFirstExpr self.now.syntax result }
    {
        support::child(&self.syntax)
    }

    /// The first child that is a path, if there is one.
    /// Example: `a` of `a = b`.
    pub fn path(&self) -> Option<ast::Path>
        ensures { IsFirstPath self.now.syntax result }
    {
        support::child(&self.syntax)
    }

    /// The first token `=` among the children, if there is one.
    /// Example: `=` of `a = b`.
    pub fn eq_token(&self) -> Option<SyntaxToken>
        ensures { result ≡ token_child SyntaxKind.EQ self.now.syntax }
    {
        support::token(&self.syntax, T![=])
    }
}

impl ast::PathMeta {
    /// The first child that is a path, if there is one.
    /// Example: `a::b` of `a::b`.
    pub fn path(&self) -> Option<ast::Path>
        ensures { IsFirstPath self.now.syntax result }
    {
        support::child(&self.syntax)
    }
}

impl ast::TokenTree {
    /// The first token `(` among the children, if there is one.
    /// Example: `(` of `(a)`.
    pub fn l_paren_token(&self) -> Option<SyntaxToken>
        ensures { result ≡ token_child SyntaxKind.L_PAREN self.now.syntax }
    {
        support::token(&self.syntax, T!['('])
    }

    /// The first token `)` among the children, if there is one.
    /// Example: `)` of `(a)`.
    pub fn r_paren_token(&self) -> Option<SyntaxToken>
        ensures { result ≡ token_child SyntaxKind.R_PAREN self.now.syntax }
    {
        support::token(&self.syntax, T![')'])
    }

    /// The first token `[` among the children, if there is one.
    /// Example: `[` of `[a]`.
    pub fn l_brack_token(&self) -> Option<SyntaxToken>
        ensures { result ≡ token_child SyntaxKind.L_BRACK self.now.syntax }
    {
        support::token(&self.syntax, T!['['])
    }

    /// The first token `]` among the children, if there is one.
    /// Example: `]` of `[a]`.
    pub fn r_brack_token(&self) -> Option<SyntaxToken>
        ensures { result ≡ token_child SyntaxKind.R_BRACK self.now.syntax }
    {
        support::token(&self.syntax, T![']'])
    }

    /// The first token `{` among the children, if there is one.
    /// Example: `{` of `{a}`.
    pub fn l_curly_token(&self) -> Option<SyntaxToken>
        ensures { result ≡ token_child SyntaxKind.L_CURLY self.now.syntax }
    {
        support::token(&self.syntax, T!['{'])
    }

    /// The first token `}` among the children, if there is one.
    /// Example: `}` of `{a}`.
    pub fn r_curly_token(&self) -> Option<SyntaxToken>
        ensures { result ≡ token_child SyntaxKind.R_CURLY self.now.syntax }
    {
        support::token(&self.syntax, T!['}'])
    }
}

impl ast::TokenTreeMeta {
    /// The first child that is a path, if there is one.
    /// Example: `a` of `a(b)`.
    pub fn path(&self) -> Option<ast::Path>
        ensures { IsFirstPath self.now.syntax result }
    {
        support::child(&self.syntax)
    }

    /// The first child that is a token tree, if there is one.
    /// Example: `(b)` of `a(b)`.
    pub fn token_tree(&self) -> Option<ast::TokenTree>
        ensures { IsFirstTokenTree self.now.syntax result }
    {
        support::child(&self.syntax)
    }
}

impl ast::UnsafeMeta {
    /// The first child that is a meta item, if there is one.
    /// Example: `m` of `unsafe(m)`.
    pub fn meta(&self) -> Option<ast::Meta>
        ensures { IsFirstMeta self.now.syntax result }
    {
        support::child(&self.syntax)
    }

    /// The first token `(` among the children, if there is one.
    /// Example: `(` of `unsafe(m)`.
    pub fn l_paren_token(&self) -> Option<SyntaxToken>
        ensures { result ≡ token_child SyntaxKind.L_PAREN self.now.syntax }
    {
        support::token(&self.syntax, T!['('])
    }

    /// The first token `)` among the children, if there is one.
    /// Example: `)` of `unsafe(m)`.
    pub fn r_paren_token(&self) -> Option<SyntaxToken>
        ensures { result ≡ token_child SyntaxKind.R_PAREN self.now.syntax }
    {
        support::token(&self.syntax, T![')'])
    }

    /// The first token `unsafe` among the children, if there is one.
    /// Example: `unsafe` of `unsafe(m)`.
    pub fn unsafe_token(&self) -> Option<SyntaxToken>
        ensures { result ≡ token_child SyntaxKind.UNSAFE_KW self.now.syntax }
    {
        support::token(&self.syntax, T![unsafe])
    }
}
