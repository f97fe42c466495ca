//! An item of an `extern` block. Made by `tools/views` from `views.txt`.
ghost use Rattle.std.specs.Prelude.{◌≡◌, Some};
ghost use Rattle.tree_model.specs.Tree.{text};
ghost use Rattle.tree_model.specs.Cursor.{focus};
ghost use Rattle.lossless_tree.specs.Dump.{span_text};
ghost use Rattle.ra_ap_syntax.specs.declared.ast.views.extern_item.ExternItem.TheVariants as extern_item;
ghost use Rattle.ras_node.specs.Sets.{is_extern_item};
ghost use Rattle.ra_ap_syntax.specs.ExternItemCases.{extern_item_node, extern_item_castable};

use crate::ast::{self, AstNode, Typed};
use lossless_tree::{SyntaxKind, SyntaxNode};
use ras_node::sets::{ExternItems, KindSet};
use std::fmt;
use std::hash::Hash;

/// An item of an `extern` block.
#[derive(Clone, PartialEq, Eq, Hash, Drop)]
pub enum ExternItem {
    Static(ast::Static),
    Fn(ast::Fn),
    MacroCall(ast::MacroCall),
    TypeAlias(ast::TypeAlias),
}

impl AstNode for ExternItem {
    ghost casts = { is_extern_item };

    ghost node = { extern_item_node };

    ghost castable = { extern_item_castable };

    fn can_cast(kind: SyntaxKind) -> bool {
        ExternItems::has(kind)
    }

    fn cast(syntax: SyntaxNode) -> Option<ExternItem> {
        match syntax.kind() {
            SyntaxKind::STATIC => Some(ExternItem::Static(Typed { syntax })),
            SyntaxKind::FN => Some(ExternItem::Fn(Typed { syntax })),
            SyntaxKind::MACRO_CALL => Some(ExternItem::MacroCall(Typed { syntax })),
            SyntaxKind::TYPE_ALIAS => Some(ExternItem::TypeAlias(Typed { syntax })),
            _ => None,
        }
    }

    fn syntax(&self) -> &SyntaxNode {
        match self {
            ExternItem::Static(it) => it.syntax(),
            ExternItem::Fn(it) => it.syntax(),
            ExternItem::MacroCall(it) => it.syntax(),
            ExternItem::TypeAlias(it) => it.syntax(),
        }
    }
}

impl fmt::Display for ExternItem {
    ghost output = { λ it. Some (text (focus (extern_item_node it))) };

    fn fmt<W: fmt::Write>(&self, f: &mut fmt::Formatter<W>) -> fmt::Result {
        let text = self.syntax().as_str();
        write!(f, "{text}")
    }
}

/// The kind and the range, as the node prints.
impl fmt::Debug for ExternItem {
    ghost debug_output = { λ it. Some (span_text (extern_item_node it)) };

    fn fmt<W: fmt::Write>(&self, f: &mut fmt::Formatter<W>) -> fmt::Result {
        fmt::Debug::fmt(self.syntax(), f)
    }
}

impl From<ast::Static> for ExternItem {
    ghost from_gives = { λ it made. made ≡ extern_item.Static it };

    fn from(it: ast::Static) -> ExternItem {
        ExternItem::Static(it)
    }
}

impl From<ast::Fn> for ExternItem {
    ghost from_gives = { λ it made. made ≡ extern_item.Fn it };

    fn from(it: ast::Fn) -> ExternItem {
        ExternItem::Fn(it)
    }
}

impl From<ast::MacroCall> for ExternItem {
    ghost from_gives = { λ it made. made ≡ extern_item.MacroCall it };

    fn from(it: ast::MacroCall) -> ExternItem {
        ExternItem::MacroCall(it)
    }
}

impl From<ast::TypeAlias> for ExternItem {
    ghost from_gives = { λ it made. made ≡ extern_item.TypeAlias it };

    fn from(it: ast::TypeAlias) -> ExternItem {
        ExternItem::TypeAlias(it)
    }
}
