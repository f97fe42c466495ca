//! A generic argument. Made by `tools/views` from `views.txt`.
ghost use Rattle.std.specs.Prelude.{◌≡◌, Some};
ghost use Rattle.tree_model.specs.Tree.{text};
ghost use Rattle.tree_model.specs.Cursor.{focus};
ghost use Rattle.lossless_tree.specs.Dump.{span_text};
ghost use Rattle.ra_ap_syntax.specs.declared.ast.views.generic_arg.GenericArg.TheVariants as generic_arg;
ghost use Rattle.ras_node.specs.Sets.{is_generic_arg};
ghost use Rattle.ra_ap_syntax.specs.GenericArgCases.{generic_arg_node, generic_arg_castable};

use crate::ast::{self, AstNode, Typed};
use lossless_tree::{SyntaxKind, SyntaxNode};
use ras_node::sets::{GenericArgs, KindSet};
use std::fmt;
use std::hash::Hash;

/// A generic argument.
#[derive(Clone, PartialEq, Eq, Hash, Drop)]
pub enum GenericArg {
    TypeArg(ast::TypeArg),
    AssocTypeArg(ast::AssocTypeArg),
    LifetimeArg(ast::LifetimeArg),
    ConstArg(ast::ConstArg),
}

impl AstNode for GenericArg {
    ghost casts = { is_generic_arg };

    ghost node = { generic_arg_node };

    ghost castable = { generic_arg_castable };

    fn can_cast(kind: SyntaxKind) -> bool {
        GenericArgs::has(kind)
    }

    fn cast(syntax: SyntaxNode) -> Option<GenericArg> {
        match syntax.kind() {
            SyntaxKind::TYPE_ARG => Some(GenericArg::TypeArg(Typed { syntax })),
            SyntaxKind::ASSOC_TYPE_ARG => Some(GenericArg::AssocTypeArg(Typed { syntax })),
            SyntaxKind::LIFETIME_ARG => Some(GenericArg::LifetimeArg(Typed { syntax })),
            SyntaxKind::CONST_ARG => Some(GenericArg::ConstArg(Typed { syntax })),
            _ => None,
        }
    }

    fn syntax(&self) -> &SyntaxNode {
        match self {
            GenericArg::TypeArg(it) => it.syntax(),
            GenericArg::AssocTypeArg(it) => it.syntax(),
            GenericArg::LifetimeArg(it) => it.syntax(),
            GenericArg::ConstArg(it) => it.syntax(),
        }
    }
}

impl fmt::Display for GenericArg {
    ghost output = { λ it. Some (text (focus (generic_arg_node it))) };

    fn fmt<W: fmt::Write>(&self, f: &mut fmt::Formatter<W>) -> fmt::Result {
        let text = self.syntax().as_str();
        write!(f, "{text}")
    }
}

/// The kind and the range, as the node prints.
impl fmt::Debug for GenericArg {
    ghost debug_output = { λ it. Some (span_text (generic_arg_node it)) };

    fn fmt<W: fmt::Write>(&self, f: &mut fmt::Formatter<W>) -> fmt::Result {
        fmt::Debug::fmt(self.syntax(), f)
    }
}

impl From<ast::TypeArg> for GenericArg {
    ghost from_gives = { λ it made. made ≡ generic_arg.TypeArg it };

    fn from(it: ast::TypeArg) -> GenericArg {
        GenericArg::TypeArg(it)
    }
}

impl From<ast::AssocTypeArg> for GenericArg {
    ghost from_gives = { λ it made. made ≡ generic_arg.AssocTypeArg it };

    fn from(it: ast::AssocTypeArg) -> GenericArg {
        GenericArg::AssocTypeArg(it)
    }
}

impl From<ast::LifetimeArg> for GenericArg {
    ghost from_gives = { λ it made. made ≡ generic_arg.LifetimeArg it };

    fn from(it: ast::LifetimeArg) -> GenericArg {
        GenericArg::LifetimeArg(it)
    }
}

impl From<ast::ConstArg> for GenericArg {
    ghost from_gives = { λ it made. made ≡ generic_arg.ConstArg it };

    fn from(it: ast::ConstArg) -> GenericArg {
        GenericArg::ConstArg(it)
    }
}
