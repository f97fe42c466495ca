//! The contents of an attribute. Made by `tools/views` from `views.txt`.
ghost use Rattle.std.specs.Prelude.{◌≡◌, Some};
ghost use Rattle.ras_node.specs.Nodes.{token_child};
ghost use Rattle.ra_ap_syntax.specs.AttrViews.{IsFirstTokenTree};
ghost use Rattle.ra_ap_syntax.specs.ExprCases.{IsFirstExpr};
ghost use Rattle.tree_model.specs.Tree.{text};
ghost use Rattle.tree_model.specs.Cursor.{focus};
ghost use Rattle.lossless_tree.specs.Dump.{span_text};
ghost use Rattle.ra_ap_syntax.specs.declared.ast.views.meta.Meta.TheVariants as meta;
ghost use Rattle.ras_node.specs.Sets.{is_meta};
ghost use Rattle.ra_ap_syntax.specs.MetaCases.{meta_node, meta_castable};

use crate::ast::{self, AstNode, Typed, support};
use lossless_tree::{SyntaxKind, SyntaxNode, SyntaxToken, T};
use ras_node::sets::{KindSet, Metas};
use std::fmt;
use std::hash::Hash;

/// The contents of an attribute.
#[derive(Clone, PartialEq, Eq, Hash, Drop)]
pub enum Meta {
    CfgAttrMeta(ast::CfgAttrMeta),
    CfgMeta(ast::CfgMeta),
    KeyValueMeta(ast::KeyValueMeta),
    PathMeta(ast::PathMeta),
    TokenTreeMeta(ast::TokenTreeMeta),
    UnsafeMeta(ast::UnsafeMeta),
}

impl Meta {
    /// The first child that is an expression, if there is one.
    /// Example: `b` of `a = b`.
    pub fn expr(&self) -> Option<ast::Expr>
        ensures { IsFirstExpr (meta_node self.now) result }
    {
        support::child(self.syntax())
    }

    /// The first token `=` among the children, if there is one.
    /// Example: `=` of `a = b`.
    pub fn eq_token(&self) -> Option<SyntaxToken>
        ensures { result ≡ token_child SyntaxKind.EQ (meta_node self.now) }
    {
        support::token(self.syntax(), T![=])
    }

    /// The first child that is a token tree, if there is one.
    /// Example: `(b)` of `a(b)`.
    pub fn token_tree(&self) -> Option<ast::TokenTree>
        ensures { IsFirstTokenTree (meta_node self.now) result }
    {
        support::child(self.syntax())
    }

    /// The first token `(` among the children, if there is one.
    /// Example: `(` of `unsafe(m)`.
    pub fn l_paren_token(&self) -> Option<SyntaxToken>
        ensures { result ≡ token_child SyntaxKind.L_PAREN (meta_node self.now) }
    {
        support::token(self.syntax(), T!['('])
    }

    /// The first token `)` among the children, if there is one.
    /// Example: `)` of `unsafe(m)`.
    pub fn r_paren_token(&self) -> Option<SyntaxToken>
        ensures { result ≡ token_child SyntaxKind.R_PAREN (meta_node self.now) }
    {
        support::token(self.syntax(), T![')'])
    }

    /// The first token `unsafe` among the children, if there is one.
    /// Example: `unsafe` of `unsafe(m)`.
    pub fn unsafe_token(&self) -> Option<SyntaxToken>
        ensures { result ≡ token_child SyntaxKind.UNSAFE_KW (meta_node self.now) }
    {
        support::token(self.syntax(), T![unsafe])
    }
}

impl AstNode for Meta {
    ghost casts = { is_meta };

    ghost node = { meta_node };

    ghost castable = { meta_castable };

    fn can_cast(kind: SyntaxKind) -> bool {
        Metas::has(kind)
    }

    fn cast(syntax: SyntaxNode) -> Option<Meta> {
        match syntax.kind() {
            SyntaxKind::CFG_ATTR_META => Some(Meta::CfgAttrMeta(Typed { syntax })),
            SyntaxKind::CFG_META => Some(Meta::CfgMeta(Typed { syntax })),
            SyntaxKind::KEY_VALUE_META => Some(Meta::KeyValueMeta(Typed { syntax })),
            SyntaxKind::PATH_META => Some(Meta::PathMeta(Typed { syntax })),
            SyntaxKind::TOKEN_TREE_META => Some(Meta::TokenTreeMeta(Typed { syntax })),
            SyntaxKind::UNSAFE_META => Some(Meta::UnsafeMeta(Typed { syntax })),
            _ => None,
        }
    }

    fn syntax(&self) -> &SyntaxNode {
        match self {
            Meta::CfgAttrMeta(it) => it.syntax(),
            Meta::CfgMeta(it) => it.syntax(),
            Meta::KeyValueMeta(it) => it.syntax(),
            Meta::PathMeta(it) => it.syntax(),
            Meta::TokenTreeMeta(it) => it.syntax(),
            Meta::UnsafeMeta(it) => it.syntax(),
        }
    }
}

impl fmt::Display for Meta {
    ghost output = { λ it. Some (text (focus (meta_node it))) };

    fn fmt<W: fmt::Write>(&self, f: &mut fmt::Formatter<W>) -> fmt::Result {
        let text = self.syntax().as_str();
        write!(f, "{text}")
    }
}

/// The kind and the range, as the node prints.
impl fmt::Debug for Meta {
    ghost debug_output = { λ it. Some (span_text (meta_node it)) };

    fn fmt<W: fmt::Write>(&self, f: &mut fmt::Formatter<W>) -> fmt::Result {
        fmt::Debug::fmt(self.syntax(), f)
    }
}

impl From<ast::CfgAttrMeta> for Meta {
    ghost from_gives = { λ it made. made ≡ meta.CfgAttrMeta it };

    fn from(it: ast::CfgAttrMeta) -> Meta {
        Meta::CfgAttrMeta(it)
    }
}

impl From<ast::CfgMeta> for Meta {
    ghost from_gives = { λ it made. made ≡ meta.CfgMeta it };

    fn from(it: ast::CfgMeta) -> Meta {
        Meta::CfgMeta(it)
    }
}

impl From<ast::KeyValueMeta> for Meta {
    ghost from_gives = { λ it made. made ≡ meta.KeyValueMeta it };

    fn from(it: ast::KeyValueMeta) -> Meta {
        Meta::KeyValueMeta(it)
    }
}

impl From<ast::PathMeta> for Meta {
    ghost from_gives = { λ it made. made ≡ meta.PathMeta it };

    fn from(it: ast::PathMeta) -> Meta {
        Meta::PathMeta(it)
    }
}

impl From<ast::TokenTreeMeta> for Meta {
    ghost from_gives = { λ it made. made ≡ meta.TokenTreeMeta it };

    fn from(it: ast::TokenTreeMeta) -> Meta {
        Meta::TokenTreeMeta(it)
    }
}

impl From<ast::UnsafeMeta> for Meta {
    ghost from_gives = { λ it made. made ≡ meta.UnsafeMeta it };

    fn from(it: ast::UnsafeMeta) -> Meta {
        Meta::UnsafeMeta(it)
    }
}
