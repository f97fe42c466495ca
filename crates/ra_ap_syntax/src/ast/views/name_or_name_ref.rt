//! A name where it is defined or used. Made by `tools/views` from `views.txt`.
ghost use Rattle.std.specs.Prelude.{◌≡◌, Some};
ghost use Rattle.tree_model.specs.Tree.{text};
ghost use Rattle.tree_model.specs.Cursor.{focus};
ghost use Rattle.lossless_tree.specs.Dump.{span_text};
ghost use Rattle.ras_node.specs.Sets.{is_name_or_name_ref};
ghost use Rattle.ra_ap_syntax.specs.NameOrNameRefCases.{name_or_name_ref_node, name_or_name_ref_castable};

use crate::ast::{self, AstNode, Typed};
use lossless_tree::{SyntaxKind, SyntaxNode};
use ras_node::sets::{KindSet, NameOrNameRefs};
use std::fmt;

/// A name where it is defined or used.
#[derive(Clone, PartialEq, Drop)]
pub enum NameOrNameRef {
    Name(ast::Name),
    NameRef(ast::NameRef),
}

impl AstNode for NameOrNameRef {
    ghost casts = { is_name_or_name_ref };

    ghost node = { name_or_name_ref_node };

    ghost castable = { name_or_name_ref_castable };

    fn can_cast(kind: SyntaxKind) -> bool {
        NameOrNameRefs::has(kind)
    }

    fn cast(syntax: SyntaxNode) -> Option<NameOrNameRef> {
        match syntax.kind() {
            SyntaxKind::NAME => Some(NameOrNameRef::Name(Typed { syntax })),
            SyntaxKind::NAME_REF => Some(NameOrNameRef::NameRef(Typed { syntax })),
            _ => None,
        }
    }

    fn syntax(&self) -> &SyntaxNode {
        match self {
            NameOrNameRef::Name(it) => it.syntax(),
            NameOrNameRef::NameRef(it) => it.syntax(),
        }
    }
}

impl fmt::Display for NameOrNameRef {
    ghost output = { λ it. Some (text (focus (name_or_name_ref_node it))) };

    fn fmt<W: fmt::Write>(&self, f: &mut fmt::Formatter<W>) -> fmt::Result {
        let text = self.syntax().as_str();
        write!(f, "{text}")
    }
}

/// The kind and the range, as the node prints.
impl fmt::Debug for NameOrNameRef {
    ghost debug_output = { λ it. Some (span_text (name_or_name_ref_node it)) };

    fn fmt<W: fmt::Write>(&self, f: &mut fmt::Formatter<W>) -> fmt::Result {
        fmt::Debug::fmt(self.syntax(), f)
    }
}
