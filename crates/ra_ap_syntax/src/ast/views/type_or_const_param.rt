//! A type parameter or a constant parameter. Made by `tools/views` from `views.txt`.
ghost use Rattle.std.specs.Prelude.{◌≡◌, Some};
ghost use Rattle.tree_model.specs.Tree.{text};
ghost use Rattle.tree_model.specs.Cursor.{focus};
ghost use Rattle.lossless_tree.specs.Dump.{span_text};
ghost use Rattle.ras_node.specs.Sets.{is_type_or_const_param};
ghost use Rattle.ra_ap_syntax.specs.TypeOrConstParamCases.{type_or_const_param_node, type_or_const_param_castable};

use crate::ast::{self, AstNode, Typed};
use lossless_tree::{SyntaxKind, SyntaxNode};
use ras_node::sets::{KindSet, TypeOrConstParams};
use std::fmt;

/// A type parameter or a constant parameter.
#[derive(Clone, Drop)]
pub enum TypeOrConstParam {
    Ty(ast::TypeParam),
    Const(ast::ConstParam),
}

impl AstNode for TypeOrConstParam {
    ghost casts = { is_type_or_const_param };

    ghost node = { type_or_const_param_node };

    ghost castable = { type_or_const_param_castable };

    fn can_cast(kind: SyntaxKind) -> bool {
        TypeOrConstParams::has(kind)
    }

    fn cast(syntax: SyntaxNode) -> Option<TypeOrConstParam> {
        match syntax.kind() {
            SyntaxKind::TYPE_PARAM => Some(TypeOrConstParam::Ty(Typed { syntax })),
            SyntaxKind::CONST_PARAM => Some(TypeOrConstParam::Const(Typed { syntax })),
            _ => None,
        }
    }

    fn syntax(&self) -> &SyntaxNode {
        match self {
            TypeOrConstParam::Ty(it) => it.syntax(),
            TypeOrConstParam::Const(it) => it.syntax(),
        }
    }
}

impl fmt::Display for TypeOrConstParam {
    ghost output = { λ it. Some (text (focus (type_or_const_param_node it))) };

    fn fmt<W: fmt::Write>(&self, f: &mut fmt::Formatter<W>) -> fmt::Result {
        let text = self.syntax().as_str();
        write!(f, "{text}")
    }
}

/// The kind and the range, as the node prints.
impl fmt::Debug for TypeOrConstParam {
    ghost debug_output = { λ it. Some (span_text (type_or_const_param_node it)) };

    fn fmt<W: fmt::Write>(&self, f: &mut fmt::Formatter<W>) -> fmt::Result {
        fmt::Debug::fmt(self.syntax(), f)
    }
}
