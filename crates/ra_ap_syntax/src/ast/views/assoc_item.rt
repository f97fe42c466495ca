//! An item of a trait or an implementation. Made by `tools/views` from `views.txt`.
ghost use Rattle.std.specs.Prelude.{◌≡◌, Some};
ghost use Rattle.tree_model.specs.Tree.{text};
ghost use Rattle.tree_model.specs.Cursor.{focus};
ghost use Rattle.lossless_tree.specs.Dump.{span_text};
ghost use Rattle.ra_ap_syntax.specs.declared.ast.views.assoc_item.AssocItem.TheVariants as assoc_item;
ghost use Rattle.ras_node.specs.Sets.{is_assoc_item};
ghost use Rattle.ra_ap_syntax.specs.AssocItemCases.{assoc_item_node, assoc_item_castable};

use crate::ast::{self, AstNode, Typed};
use lossless_tree::{SyntaxKind, SyntaxNode};
use ras_node::sets::{AssocItems, KindSet};
use std::fmt;
use std::hash::Hash;

/// An item of a trait or an implementation.
#[derive(Clone, PartialEq, Eq, Hash, Drop)]
pub enum AssocItem {
    Const(ast::Const),
    Fn(ast::Fn),
    MacroCall(ast::MacroCall),
    TypeAlias(ast::TypeAlias),
}

impl AstNode for AssocItem {
    ghost casts = { is_assoc_item };

    ghost node = { assoc_item_node };

    ghost castable = { assoc_item_castable };

    fn can_cast(kind: SyntaxKind) -> bool {
        AssocItems::has(kind)
    }

    fn cast(syntax: SyntaxNode) -> Option<AssocItem> {
        match syntax.kind() {
            SyntaxKind::CONST => Some(AssocItem::Const(Typed { syntax })),
            SyntaxKind::FN => Some(AssocItem::Fn(Typed { syntax })),
            SyntaxKind::MACRO_CALL => Some(AssocItem::MacroCall(Typed { syntax })),
            SyntaxKind::TYPE_ALIAS => Some(AssocItem::TypeAlias(Typed { syntax })),
            _ => None,
        }
    }

    fn syntax(&self) -> &SyntaxNode {
        match self {
            AssocItem::Const(it) => it.syntax(),
            AssocItem::Fn(it) => it.syntax(),
            AssocItem::MacroCall(it) => it.syntax(),
            AssocItem::TypeAlias(it) => it.syntax(),
        }
    }
}

impl fmt::Display for AssocItem {
    ghost output = { λ it. Some (text (focus (assoc_item_node it))) };

    fn fmt<W: fmt::Write>(&self, f: &mut fmt::Formatter<W>) -> fmt::Result {
        let text = self.syntax().as_str();
        write!(f, "{text}")
    }
}

/// The kind and the range, as the node prints.
impl fmt::Debug for AssocItem {
    ghost debug_output = { λ it. Some (span_text (assoc_item_node it)) };

    fn fmt<W: fmt::Write>(&self, f: &mut fmt::Formatter<W>) -> fmt::Result {
        fmt::Debug::fmt(self.syntax(), f)
    }
}

impl From<ast::Const> for AssocItem {
    ghost from_gives = { λ it made. made ≡ assoc_item.Const it };

    fn from(it: ast::Const) -> AssocItem {
        AssocItem::Const(it)
    }
}

impl From<ast::Fn> for AssocItem {
    ghost from_gives = { λ it made. made ≡ assoc_item.Fn it };

    fn from(it: ast::Fn) -> AssocItem {
        AssocItem::Fn(it)
    }
}

impl From<ast::MacroCall> for AssocItem {
    ghost from_gives = { λ it made. made ≡ assoc_item.MacroCall it };

    fn from(it: ast::MacroCall) -> AssocItem {
        AssocItem::MacroCall(it)
    }
}

impl From<ast::TypeAlias> for AssocItem {
    ghost from_gives = { λ it made. made ≡ assoc_item.TypeAlias it };

    fn from(it: ast::TypeAlias) -> AssocItem {
        AssocItem::TypeAlias(it)
    }
}
