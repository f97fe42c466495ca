//! An attribute or a documentation comment. Made by `tools/views` from `views.txt`.
ghost use Rattle.std.specs.Prelude.{◌≡◌, Some};
ghost use Rattle.tree_model.specs.Tree.{text};
ghost use Rattle.tree_model.specs.Cursor.{focus};
ghost use Rattle.lossless_tree.specs.Dump.{span_text};
ghost use Rattle.ra_ap_syntax.specs.declared.ast.views.any_attr.AnyAttr.TheVariants as any_attr;
ghost use Rattle.ras_node.specs.Sets.{is_any_attr};
ghost use Rattle.ra_ap_syntax.specs.AnyAttrCases.{any_attr_node, any_attr_castable};

use crate::ast::{self, AstNode, Typed};
use lossless_tree::{SyntaxKind, SyntaxNode};
use ras_node::sets::{AnyAttrs, KindSet};
use std::fmt;
use std::hash::Hash;

/// An attribute or a documentation comment.
#[derive(Clone, PartialEq, Eq, Hash, Drop)]
pub enum AnyAttr {
    Attr(ast::Attr),
    DocComment(ast::DocComment),
}

impl AstNode for AnyAttr {
    ghost casts = { is_any_attr };

    ghost node = { any_attr_node };

    ghost castable = { any_attr_castable };

    fn can_cast(kind: SyntaxKind) -> bool {
        AnyAttrs::has(kind)
    }

    fn cast(syntax: SyntaxNode) -> Option<AnyAttr> {
        match syntax.kind() {
            SyntaxKind::ATTR => Some(AnyAttr::Attr(Typed { syntax })),
            SyntaxKind::DOC_COMMENT => Some(AnyAttr::DocComment(Typed { syntax })),
            _ => None,
        }
    }

    fn syntax(&self) -> &SyntaxNode {
        match self {
            AnyAttr::Attr(it) => it.syntax(),
            AnyAttr::DocComment(it) => it.syntax(),
        }
    }
}

impl fmt::Display for AnyAttr {
    ghost output = { λ it. Some (text (focus (any_attr_node it))) };

    fn fmt<W: fmt::Write>(&self, f: &mut fmt::Formatter<W>) -> fmt::Result {
        let text = self.syntax().as_str();
        write!(f, "{text}")
    }
}

/// The kind and the range, as the node prints.
impl fmt::Debug for AnyAttr {
    ghost debug_output = { λ it. Some (span_text (any_attr_node it)) };

    fn fmt<W: fmt::Write>(&self, f: &mut fmt::Formatter<W>) -> fmt::Result {
        fmt::Debug::fmt(self.syntax(), f)
    }
}

impl From<ast::Attr> for AnyAttr {
    ghost from_gives = { λ it made. made ≡ any_attr.Attr it };

    fn from(it: ast::Attr) -> AnyAttr {
        AnyAttr::Attr(it)
    }
}

impl From<ast::DocComment> for AnyAttr {
    ghost from_gives = { λ it made. made ≡ any_attr.DocComment it };

    fn from(it: ast::DocComment) -> AnyAttr {
        AnyAttr::DocComment(it)
    }
}
