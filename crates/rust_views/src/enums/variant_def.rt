//! An item or variant that has fields. Made by `tools/views` from `views.txt`.
ghost use Rattle.std.specs.Prelude.{◌≡◌, Some};
ghost use Rattle.tree_model.specs.Tree.{text};
ghost use Rattle.tree_model.specs.Cursor.{focus};
ghost use Rattle.lossless_tree.specs.Dump.{span_text};
ghost use Rattle.rust_views.specs.declared.enums.variant_def.VariantDef.TheVariants as variant_def;
ghost use Rattle.rust_views.specs.VariantDefCases.{variant_def_node, variant_def_castable, is_variant_def};

use ra_ap_syntax::ast::{self, AstNode};
use ra_ap_syntax::{SyntaxKind, SyntaxNode};
use std::fmt;
use std::hash::Hash;

/// An item or variant that has fields.
#[derive(Clone, PartialEq, Eq, Hash, Drop)]
pub enum VariantDef {
    Struct(ast::Struct),
    Union(ast::Union),
    Variant(ast::Variant),
}

impl AstNode for VariantDef {
    ghost casts = { is_variant_def };

    ghost node = { variant_def_node };

    ghost castable = { variant_def_castable };

    fn can_cast(kind: SyntaxKind) -> bool {
        ast::Struct::can_cast(kind) || ast::Union::can_cast(kind) || ast::Variant::can_cast(kind)
    }

    fn cast(syntax: SyntaxNode) -> Option<VariantDef> {
        if ast::Struct::can_cast(syntax.kind()) {
            match ast::Struct::cast(syntax) {
                Some(it) => Some(VariantDef::Struct(it)),
                None => None,
            }
        } else if ast::Union::can_cast(syntax.kind()) {
            match ast::Union::cast(syntax) {
                Some(it) => Some(VariantDef::Union(it)),
                None => None,
            }
        } else if ast::Variant::can_cast(syntax.kind()) {
            match ast::Variant::cast(syntax) {
                Some(it) => Some(VariantDef::Variant(it)),
                None => None,
            }
        } else {
            None
        }
    }

    fn syntax(&self) -> &SyntaxNode {
        match self {
            VariantDef::Struct(it) => it.syntax(),
            VariantDef::Union(it) => it.syntax(),
            VariantDef::Variant(it) => it.syntax(),
        }
    }
}

impl fmt::Display for VariantDef {
    ghost output = { λ it. Some (text (focus (variant_def_node it))) };

    fn fmt<W: fmt::Write>(&self, f: &mut fmt::Formatter<W>) -> fmt::Result {
        let text = self.syntax().as_str();
        write!(f, "{text}")
    }
}

/// The kind and the range, as the node prints.
impl fmt::Debug for VariantDef {
    ghost debug_output = { λ it. Some (span_text (variant_def_node it)) };

    fn fmt<W: fmt::Write>(&self, f: &mut fmt::Formatter<W>) -> fmt::Result {
        fmt::Debug::fmt(self.syntax(), f)
    }
}

impl From<ast::Struct> for VariantDef {
    ghost from_gives = { λ it made. made ≡ variant_def.Struct it };

    fn from(it: ast::Struct) -> VariantDef {
        VariantDef::Struct(it)
    }
}

impl From<ast::Union> for VariantDef {
    ghost from_gives = { λ it made. made ≡ variant_def.Union it };

    fn from(it: ast::Union) -> VariantDef {
        VariantDef::Union(it)
    }
}

impl From<ast::Variant> for VariantDef {
    ghost from_gives = { λ it made. made ≡ variant_def.Variant it };

    fn from(it: ast::Variant) -> VariantDef {
        VariantDef::Variant(it)
    }
}
