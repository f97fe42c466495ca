//! A type. Made by `tools/views` from `views.txt`.
ghost use Rattle.std.specs.Prelude.{◌≡◌, Some, ⊤};
ghost use Rattle.std.specs.Cmp.{partial_equiv_from_equiv, on_equiv};
ghost use Rattle.tree_model.specs.Tree.{text};
ghost use Rattle.tree_model.specs.Cursor.{focus};
ghost use Rattle.lossless_tree.specs.Dump.{span_text};
ghost use Rattle.tree_model.specs.Equality.{is_same_cursor, cursor_hash};
ghost use Rattle.tree_model.specs.EqualityLaws.{cursor_equivalence, cursors_alike};
ghost use Rattle.ra_ap_syntax.specs.declared.ast.views.ty.«Type».TheVariants as ty;
ghost use Rattle.ras_node.specs.Sets.{is_ty};
ghost use Rattle.ra_ap_syntax.specs.TypeCases.{ty_node, ty_castable};

use crate::ast::{self, AstNode, Typed, support};
use lossless_tree::{SyntaxKind, SyntaxNode};
use ras_node::sets::{KindSet, Types};
use std::alloc::AllocError;
use std::fmt;
use std::hash::{Hash, Hasher};

/// A type.
#[derive(Drop)]
pub enum Type {
    ArrayType(ast::ArrayType),
    DynTraitType(ast::DynTraitType),
    FnPtrType(ast::FnPtrType),
    ForType(ast::ForType),
    ImplTraitType(ast::ImplTraitType),
    InferType(ast::InferType),
    MacroType(ast::MacroType),
    NeverType(ast::NeverType),
    ParenType(ast::ParenType),
    PathType(ast::PathType),
    PtrType(ast::PtrType),
    RefType(ast::RefType),
    SliceType(ast::SliceType),
    TupleType(ast::TupleType),
}

impl AstNode for Type {
    ghost casts = { is_ty };

    ghost node = { ty_node };

    ghost castable = { ty_castable };

    fn can_cast(kind: SyntaxKind) -> bool {
        Types::has(kind)
    }

    fn cast(syntax: SyntaxNode) -> Option<Type> {
        match syntax.kind() {
            SyntaxKind::ARRAY_TYPE => Some(Type::ArrayType(Typed { syntax })),
            SyntaxKind::DYN_TRAIT_TYPE => Some(Type::DynTraitType(Typed { syntax })),
            SyntaxKind::FN_PTR_TYPE => Some(Type::FnPtrType(Typed { syntax })),
            SyntaxKind::FOR_TYPE => Some(Type::ForType(Typed { syntax })),
            SyntaxKind::IMPL_TRAIT_TYPE => Some(Type::ImplTraitType(Typed { syntax })),
            SyntaxKind::INFER_TYPE => Some(Type::InferType(Typed { syntax })),
            SyntaxKind::MACRO_TYPE => Some(Type::MacroType(Typed { syntax })),
            SyntaxKind::NEVER_TYPE => Some(Type::NeverType(Typed { syntax })),
            SyntaxKind::PAREN_TYPE => Some(Type::ParenType(Typed { syntax })),
            SyntaxKind::PATH_TYPE => Some(Type::PathType(Typed { syntax })),
            SyntaxKind::PTR_TYPE => Some(Type::PtrType(Typed { syntax })),
            SyntaxKind::REF_TYPE => Some(Type::RefType(Typed { syntax })),
            SyntaxKind::SLICE_TYPE => Some(Type::SliceType(Typed { syntax })),
            SyntaxKind::TUPLE_TYPE => Some(Type::TupleType(Typed { syntax })),
            _ => None,
        }
    }

    fn syntax(&self) -> &SyntaxNode {
        match self {
            Type::ArrayType(it) => it.syntax(),
            Type::DynTraitType(it) => it.syntax(),
            Type::FnPtrType(it) => it.syntax(),
            Type::ForType(it) => it.syntax(),
            Type::ImplTraitType(it) => it.syntax(),
            Type::InferType(it) => it.syntax(),
            Type::MacroType(it) => it.syntax(),
            Type::NeverType(it) => it.syntax(),
            Type::ParenType(it) => it.syntax(),
            Type::PathType(it) => it.syntax(),
            Type::PtrType(it) => it.syntax(),
            Type::RefType(it) => it.syntax(),
            Type::SliceType(it) => it.syntax(),
            Type::TupleType(it) => it.syntax(),
        }
    }
}

impl Clone for Type {
    ghost is_clone = { λ s copy. ty_node copy ≡ ty_node s };

    ghost is_infallible = { λ _. ⊤ };

    fn clone(&self) -> Result<Type, AllocError> {
        Ok(support::copy(self))
    }
}

impl PartialEq for Type {
    ghost eq = { λ a b. is_same_cursor (ty_node a) (ty_node b) };

    ghost laws = { partial_equiv_from_equiv (on_equiv ty_node cursor_equivalence) };

    fn eq(&self, other: &Type) -> bool {
        self.syntax() == other.syntax()
    }
}

impl Eq for Type {
    ghost laws = { on_equiv ty_node cursor_equivalence };
}

impl Hash for Type {
    ghost hash_input = { λ it. cursor_hash (ty_node it) };

    ghost respects_eq = { λ a b same. cursors_alike (ty_node a) (ty_node b) same };

    fn hash<H: Hasher>(&self, state: &mut H) {
        self.syntax().hash(state);
    }
}

impl fmt::Display for Type {
    ghost output = { λ it. Some (text (focus (ty_node it))) };

    fn fmt<W: fmt::Write>(&self, f: &mut fmt::Formatter<W>) -> fmt::Result {
        let text = self.syntax().as_str();
        write!(f, "{text}")
    }
}

/// The kind and the range, as the node prints.
impl fmt::Debug for Type {
    ghost debug_output = { λ it. Some (span_text (ty_node it)) };

    fn fmt<W: fmt::Write>(&self, f: &mut fmt::Formatter<W>) -> fmt::Result {
        fmt::Debug::fmt(self.syntax(), f)
    }
}

impl From<ast::ArrayType> for Type {
    ghost from_gives = { λ it made. made ≡ ty.ArrayType it };

    fn from(it: ast::ArrayType) -> Type {
        Type::ArrayType(it)
    }
}

impl From<ast::DynTraitType> for Type {
    ghost from_gives = { λ it made. made ≡ ty.DynTraitType it };

    fn from(it: ast::DynTraitType) -> Type {
        Type::DynTraitType(it)
    }
}

impl From<ast::FnPtrType> for Type {
    ghost from_gives = { λ it made. made ≡ ty.FnPtrType it };

    fn from(it: ast::FnPtrType) -> Type {
        Type::FnPtrType(it)
    }
}

impl From<ast::ForType> for Type {
    ghost from_gives = { λ it made. made ≡ ty.ForType it };

    fn from(it: ast::ForType) -> Type {
        Type::ForType(it)
    }
}

impl From<ast::ImplTraitType> for Type {
    ghost from_gives = { λ it made. made ≡ ty.ImplTraitType it };

    fn from(it: ast::ImplTraitType) -> Type {
        Type::ImplTraitType(it)
    }
}

impl From<ast::InferType> for Type {
    ghost from_gives = { λ it made. made ≡ ty.InferType it };

    fn from(it: ast::InferType) -> Type {
        Type::InferType(it)
    }
}

impl From<ast::MacroType> for Type {
    ghost from_gives = { λ it made. made ≡ ty.MacroType it };

    fn from(it: ast::MacroType) -> Type {
        Type::MacroType(it)
    }
}

impl From<ast::NeverType> for Type {
    ghost from_gives = { λ it made. made ≡ ty.NeverType it };

    fn from(it: ast::NeverType) -> Type {
        Type::NeverType(it)
    }
}

impl From<ast::ParenType> for Type {
    ghost from_gives = { λ it made. made ≡ ty.ParenType it };

    fn from(it: ast::ParenType) -> Type {
        Type::ParenType(it)
    }
}

impl From<ast::PathType> for Type {
    ghost from_gives = { λ it made. made ≡ ty.PathType it };

    fn from(it: ast::PathType) -> Type {
        Type::PathType(it)
    }
}

impl From<ast::PtrType> for Type {
    ghost from_gives = { λ it made. made ≡ ty.PtrType it };

    fn from(it: ast::PtrType) -> Type {
        Type::PtrType(it)
    }
}

impl From<ast::RefType> for Type {
    ghost from_gives = { λ it made. made ≡ ty.RefType it };

    fn from(it: ast::RefType) -> Type {
        Type::RefType(it)
    }
}

impl From<ast::SliceType> for Type {
    ghost from_gives = { λ it made. made ≡ ty.SliceType it };

    fn from(it: ast::SliceType) -> Type {
        Type::SliceType(it)
    }
}

impl From<ast::TupleType> for Type {
    ghost from_gives = { λ it made. made ≡ ty.TupleType it };

    fn from(it: ast::TupleType) -> Type {
        Type::TupleType(it)
    }
}
