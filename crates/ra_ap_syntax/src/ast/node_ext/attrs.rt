//! Attributes, documentation comments and token trees.
ghost use Rattle.std.specs.Prelude.{◌≡◌, map, option_map};
ghost use Rattle.tree_model.specs.Cursor.{focus, children_of, parent_of};
ghost use Rattle.lossless_tree.specs.Element.{element_of};
ghost use Rattle.lossless_tree.specs.Trees.{child_text};
ghost use Rattle.ras_node_ext.specs.Attrs.{is_inner};
ghost use Rattle.ras_node_ext.specs.TokenTrees.{trees_and_tokens};
ghost use Rattle.ras_node.specs.Lookups.{view_in};
ghost use Rattle.ras_node_ext.specs.NodeParts.{left_delimiter, right_delimiter, is_opening, is_closing, if_in};
ghost use Rattle.ras_node_ext.specs.NodeParts.{has_token};
ghost use Rattle.ra_ap_syntax.specs.NodeShapes.{atom_shape, atom_key};
ghost use Rattle.ra_ap_syntax.specs.AnyAttrCases.{any_attr_node};
ghost use Rattle.ra_ap_syntax.specs.AttrParts.{kind_by, doc_shape, doc_text, doc_token};
ghost use Rattle.ra_ap_syntax.specs.AttrViews.{token_tree_kinds};
ghost use Rattle.ra_ap_syntax.specs.MetaCases.{IsMeta, meta_kinds};
ghost use Rattle.std.specs.Option.{option_and_then};

use crate::ast::{self, AnyAttr, AnyComment, AstNode, AstToken, support};
use lossless_tree::{SyntaxKind, SyntaxToken};
use ras_token_ext::{AttrKind, CommentShape};

/// The attributes and documentation comments of a node that can have some, inner ones too, in
/// order.
pub type AttrsWithDoc = ras_node_ext::AttrsWithDoc<AnyAttr>;

/// The attributes among those that an iterator of attributes and documentation comments gives, in
/// order: `AttrsIter::new(iter)` takes any iterator of [`AnyAttr`], and ends where that ends.
///
/// Which attributes come is a law where a list says what is left in `iter`, as for
/// [`AttrsWithDoc`]:
/// [`attributes_are_those_of_the_source`](crate::laws::attributes_are_those_of_the_source).
pub type AttrsIter<I> = ras_node_ext::AttrsIter<I, ast::Attr>;

/// The token trees and tokens in a token tree, in order, without its first child, whatever it is,
/// closing delimiters, white space and comments.
pub type TokenTreeChildren = ras_node_ext::TokenTreeChildren<ast::TokenTree>;

/// All token trees and tokens among the children of a token tree, in order.
pub type TokenTreesAndTokens = ras_node_ext::TokenTreesAndTokens<ast::TokenTree>;

fn kind_by(inner: bool) -> AttrKind
    ensures { result ≡ kind_by inner }
{
    if inner {
        AttrKind::Inner
    } else {
        AttrKind::Outer
    }
}

impl ast::Attr {
    /// Inner if it has a `!`, otherwise outer.
    pub fn kind(&self) -> AttrKind
        ensures { result ≡ kind_by (has_token SyntaxKind.BANG self.now.syntax) }
    {
        kind_by(self.excl_token().is_some())
    }
}

impl ast::DocComment {
    /// The length of the opening marker of a documentation comment, in bytes.
    pub const PREFIX_LEN: usize = 3;

    /// Inner if it has an inner comment token, otherwise outer.
    pub fn kind(&self) -> AttrKind
        ensures { result ≡ kind_by (has_token SyntaxKind.INNER_DOC_COMMENT self.now.syntax) }
    {
        kind_by(self.inner_doc_comment_token().is_some())
    }

    /// The first token, at any depth, if it is a comment.
    pub fn token(&self) -> Option<AnyComment>
        ensures { option_map ⟦<AnyComment as AstToken>⟧.token result ≡ doc_token self.now.syntax }
    {
        AnyComment::cast(self.syntax.first_token()?)
    }

    /// Whether the text ends with its line or with its closing marker, or `None` if the first child
    /// is not a token.
    pub fn shape(&self) -> Option<CommentShape>
        ensures { result ≡ doc_shape self.now.syntax }
    {
        Some(CommentShape::from_text(self.text_with_markers()?))
    }

    /// The text of the first child, if that is a token.
    pub fn text_with_markers(&self) -> Option<&str>
        ensures { option_map (λ s. s.now) result ≡ child_text (focus self.now.syntax) 0 }
    {
        self.syntax.child_text(0)
    }

    /// The text of the first child without the markers, of which the closing one may be missing.
    /// Returns `None` if that is not a token, is shorter than three bytes, or if byte 3 is not a
    /// character boundary.
    pub fn text(&self) -> Option<&str>
        ensures { option_map (λ s. s.now) result ≡ doc_text self.now.syntax }
    {
        ras_token_ext::comment_text(self.text_with_markers()?, 3)
    }
}

impl AnyAttr {
    /// Inner or outer, as the attribute or the documentation comment is.
    pub fn kind(&self) -> AttrKind
        ensures { result ≡ kind_by (is_inner (any_attr_node self.now)) }
    {
        kind_by(ras_node_ext::is_inner(self.syntax()))
    }
}

/// The key of an atom in a `cfg`.
#[derive(Clone, Drop)]
pub enum CfgAtomKey {
    /// `true`
    True,
    /// `false`
    False,
    /// A name: `unix`, `feature`.
    Ident(SyntaxToken),
}

impl ast::CfgAtom {
    /// The first of these that it has: `true`, `false`, a name.
    pub fn key(&self) -> Option<CfgAtomKey>
        ensures { option_map atom_shape result ≡ atom_key self.now.syntax }
    {
        if self.true_token().is_some() {
            return Some(CfgAtomKey::True);
        }
        if self.false_token().is_some() {
            return Some(CfgAtomKey::False);
        }
        Some(CfgAtomKey::Ident(self.ident_token()?))
    }
}

impl ast::TokenTree {
    /// The first child, if it is `{`, `(` or `[`.
    pub fn left_delimiter_token(&self) -> Option<SyntaxToken>
        ensures { result ≡ left_delimiter self.now.syntax }
    {
        let token = self.syntax.first_child_or_token()?.into_token()?;
        match token.kind() {
            SyntaxKind::L_CURLY | SyntaxKind::L_PAREN | SyntaxKind::L_BRACK => Some(token),
            _ => None,
        }
    }

    /// The last child, if it is `}`, `)` or `]`.
    pub fn right_delimiter_token(&self) -> Option<SyntaxToken>
        ensures { result ≡ right_delimiter self.now.syntax }
    {
        let token = self.syntax.last_child_or_token()?.into_token()?;
        match token.kind() {
            SyntaxKind::R_CURLY | SyntaxKind::R_PAREN | SyntaxKind::R_BRACK => Some(token),
            _ => None,
        }
    }

    /// The children that are token trees or tokens, in order.
    pub fn token_trees_and_tokens(&self) -> TokenTreesAndTokens
        ensures { result
            ≡ trees_and_tokens token_tree_kinds (map element_of (children_of self.now.syntax)) }
    {
        TokenTreesAndTokens::new(&self.syntax)
    }

    /// The meta that it is in: the parent, if that is a meta.
    pub fn parent_meta(&self) -> Option<ast::Meta>
        ensures { IsMeta (view_in meta_kinds (parent_of self.now.syntax)) result }
    {
        support::parent_as(&self.syntax)
    }
}
