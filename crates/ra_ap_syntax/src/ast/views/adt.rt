//! An item that defines a type of its own. Made by `tools/views` from `views.txt`.
ghost use Rattle.std.specs.Prelude.{◌≡◌, Some};
ghost use Rattle.tree_model.specs.Tree.{text};
ghost use Rattle.tree_model.specs.Cursor.{focus};
ghost use Rattle.lossless_tree.specs.Dump.{span_text};
ghost use Rattle.ra_ap_syntax.specs.declared.ast.views.adt.Adt.TheVariants as adt;
ghost use Rattle.ras_node.specs.Sets.{is_adt};
ghost use Rattle.ra_ap_syntax.specs.AdtCases.{adt_node, adt_castable};

use crate::ast::{self, AstNode, Typed};
use lossless_tree::{SyntaxKind, SyntaxNode};
use ras_node::sets::{Adts, KindSet};
use std::fmt;
use std::hash::Hash;

/// An item that defines a type of its own.
#[derive(Clone, PartialEq, Eq, Hash, Drop)]
pub enum Adt {
    Enum(ast::Enum),
    Struct(ast::Struct),
    Union(ast::Union),
}

impl AstNode for Adt {
    ghost casts = { is_adt };

    ghost node = { adt_node };

    ghost castable = { adt_castable };

    fn can_cast(kind: SyntaxKind) -> bool {
        Adts::has(kind)
    }

    fn cast(syntax: SyntaxNode) -> Option<Adt> {
        match syntax.kind() {
            SyntaxKind::ENUM => Some(Adt::Enum(Typed { syntax })),
            SyntaxKind::STRUCT => Some(Adt::Struct(Typed { syntax })),
            SyntaxKind::UNION => Some(Adt::Union(Typed { syntax })),
            _ => None,
        }
    }

    fn syntax(&self) -> &SyntaxNode {
        match self {
            Adt::Enum(it) => it.syntax(),
            Adt::Struct(it) => it.syntax(),
            Adt::Union(it) => it.syntax(),
        }
    }
}

impl fmt::Display for Adt {
    ghost output = { λ it. Some (text (focus (adt_node it))) };

    fn fmt<W: fmt::Write>(&self, f: &mut fmt::Formatter<W>) -> fmt::Result {
        let text = self.syntax().as_str();
        write!(f, "{text}")
    }
}

/// The kind and the range, as the node prints.
impl fmt::Debug for Adt {
    ghost debug_output = { λ it. Some (span_text (adt_node it)) };

    fn fmt<W: fmt::Write>(&self, f: &mut fmt::Formatter<W>) -> fmt::Result {
        fmt::Debug::fmt(self.syntax(), f)
    }
}

impl From<ast::Enum> for Adt {
    ghost from_gives = { λ it made. made ≡ adt.Enum it };

    fn from(it: ast::Enum) -> Adt {
        Adt::Enum(it)
    }
}

impl From<ast::Struct> for Adt {
    ghost from_gives = { λ it made. made ≡ adt.Struct it };

    fn from(it: ast::Struct) -> Adt {
        Adt::Struct(it)
    }
}

impl From<ast::Union> for Adt {
    ghost from_gives = { λ it made. made ≡ adt.Union it };

    fn from(it: ast::Union) -> Adt {
        Adt::Union(it)
    }
}
