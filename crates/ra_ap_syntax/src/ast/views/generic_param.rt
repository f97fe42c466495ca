//! A generic parameter. Made by `tools/views` from `views.txt`.
ghost use Rattle.std.specs.Prelude.{◌≡◌, Some};
ghost use Rattle.tree_model.specs.Tree.{text};
ghost use Rattle.tree_model.specs.Cursor.{focus};
ghost use Rattle.lossless_tree.specs.Dump.{span_text};
ghost use Rattle.ra_ap_syntax.specs.declared.ast.views.generic_param.GenericParam.TheVariants as generic_param;
ghost use Rattle.ras_node.specs.Sets.{is_generic_param};
ghost use Rattle.ra_ap_syntax.specs.GenericParamCases.{generic_param_node, generic_param_castable};
ghost use Rattle.ra_ap_syntax.specs.TypeOrConstParamCases.{type_or_const_param_node};

use crate::ast::{self, AstNode, Typed};
use lossless_tree::{SyntaxKind, SyntaxNode};
use ras_node::sets::{GenericParams, KindSet};
use std::fmt;
use std::hash::Hash;

/// A generic parameter.
#[derive(Clone, PartialEq, Eq, Hash, Drop)]
pub enum GenericParam {
    LifetimeParam(ast::LifetimeParam),
    TypeParam(ast::TypeParam),
    ConstParam(ast::ConstParam),
}

impl AstNode for GenericParam {
    ghost casts = { is_generic_param };

    ghost node = { generic_param_node };

    ghost castable = { generic_param_castable };

    fn can_cast(kind: SyntaxKind) -> bool {
        GenericParams::has(kind)
    }

    fn cast(syntax: SyntaxNode) -> Option<GenericParam> {
        match syntax.kind() {
            SyntaxKind::LIFETIME_PARAM => Some(GenericParam::LifetimeParam(Typed { syntax })),
            SyntaxKind::TYPE_PARAM => Some(GenericParam::TypeParam(Typed { syntax })),
            SyntaxKind::CONST_PARAM => Some(GenericParam::ConstParam(Typed { syntax })),
            _ => None,
        }
    }

    fn syntax(&self) -> &SyntaxNode {
        match self {
            GenericParam::LifetimeParam(it) => it.syntax(),
            GenericParam::TypeParam(it) => it.syntax(),
            GenericParam::ConstParam(it) => it.syntax(),
        }
    }
}

impl fmt::Display for GenericParam {
    ghost output = { λ it. Some (text (focus (generic_param_node it))) };

    fn fmt<W: fmt::Write>(&self, f: &mut fmt::Formatter<W>) -> fmt::Result {
        let text = self.syntax().as_str();
        write!(f, "{text}")
    }
}

/// The kind and the range, as the node prints.
impl fmt::Debug for GenericParam {
    ghost debug_output = { λ it. Some (span_text (generic_param_node it)) };

    fn fmt<W: fmt::Write>(&self, f: &mut fmt::Formatter<W>) -> fmt::Result {
        fmt::Debug::fmt(self.syntax(), f)
    }
}

impl From<ast::LifetimeParam> for GenericParam {
    ghost from_gives = { λ it made. made ≡ generic_param.LifetimeParam it };

    fn from(it: ast::LifetimeParam) -> GenericParam {
        GenericParam::LifetimeParam(it)
    }
}

impl From<ast::TypeParam> for GenericParam {
    ghost from_gives = { λ it made. made ≡ generic_param.TypeParam it };

    fn from(it: ast::TypeParam) -> GenericParam {
        GenericParam::TypeParam(it)
    }
}

impl From<ast::ConstParam> for GenericParam {
    ghost from_gives = { λ it made. made ≡ generic_param.ConstParam it };

    fn from(it: ast::ConstParam) -> GenericParam {
        GenericParam::ConstParam(it)
    }
}

impl From<ast::TypeOrConstParam> for GenericParam {
    ghost from_gives = { λ it made. generic_param_node made ≡ type_or_const_param_node it };

    fn from(it: ast::TypeOrConstParam) -> GenericParam {
        match it {
            ast::TypeOrConstParam::Ty(it) => GenericParam::TypeParam(it),
            ast::TypeOrConstParam::Const(it) => GenericParam::ConstParam(it),
        }
    }
}
