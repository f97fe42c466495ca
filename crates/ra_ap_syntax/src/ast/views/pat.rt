//! A pattern. Made by `tools/views` from `views.txt`.
ghost use Rattle.std.specs.Prelude.{◌≡◌, Some, ⊤};
ghost use Rattle.std.specs.Cmp.{partial_equiv_from_equiv, on_equiv};
ghost use Rattle.tree_model.specs.Tree.{text};
ghost use Rattle.tree_model.specs.Cursor.{focus};
ghost use Rattle.lossless_tree.specs.Dump.{span_text};
ghost use Rattle.tree_model.specs.Equality.{is_same_cursor, cursor_hash};
ghost use Rattle.tree_model.specs.EqualityLaws.{cursor_equivalence, cursors_alike};
ghost use Rattle.ra_ap_syntax.specs.declared.ast.views.pat.Pat.TheVariants as pat;
ghost use Rattle.ras_node.specs.Sets.{is_pat};
ghost use Rattle.ra_ap_syntax.specs.PatCases.{pat_node, pat_castable};

use crate::ast::{self, AstNode, Typed, support};
use lossless_tree::{SyntaxKind, SyntaxNode};
use ras_node::sets::{KindSet, Pats};
use std::alloc::AllocError;
use std::fmt;
use std::hash::{Hash, Hasher};

/// A pattern.
#[derive(Drop)]
pub enum Pat {
    BoxPat(ast::BoxPat),
    ConstBlockPat(ast::ConstBlockPat),
    IdentPat(ast::IdentPat),
    LiteralPat(ast::LiteralPat),
    MacroPat(ast::MacroPat),
    OrPat(ast::OrPat),
    ParenPat(ast::ParenPat),
    PathPat(ast::PathPat),
    RangePat(ast::RangePat),
    RecordPat(ast::RecordPat),
    RefPat(ast::RefPat),
    RestPat(ast::RestPat),
    SlicePat(ast::SlicePat),
    TuplePat(ast::TuplePat),
    TupleStructPat(ast::TupleStructPat),
    WildcardPat(ast::WildcardPat),
}

impl AstNode for Pat {
    ghost casts = { is_pat };

    ghost node = { pat_node };

    ghost castable = { pat_castable };

    fn can_cast(kind: SyntaxKind) -> bool {
        Pats::has(kind)
    }

    fn cast(syntax: SyntaxNode) -> Option<Pat> {
        match syntax.kind() {
            SyntaxKind::BOX_PAT => Some(Pat::BoxPat(Typed { syntax })),
            SyntaxKind::CONST_BLOCK_PAT => Some(Pat::ConstBlockPat(Typed { syntax })),
            SyntaxKind::IDENT_PAT => Some(Pat::IdentPat(Typed { syntax })),
            SyntaxKind::LITERAL_PAT => Some(Pat::LiteralPat(Typed { syntax })),
            SyntaxKind::MACRO_PAT => Some(Pat::MacroPat(Typed { syntax })),
            SyntaxKind::OR_PAT => Some(Pat::OrPat(Typed { syntax })),
            SyntaxKind::PAREN_PAT => Some(Pat::ParenPat(Typed { syntax })),
            SyntaxKind::PATH_PAT => Some(Pat::PathPat(Typed { syntax })),
            SyntaxKind::RANGE_PAT => Some(Pat::RangePat(Typed { syntax })),
            SyntaxKind::RECORD_PAT => Some(Pat::RecordPat(Typed { syntax })),
            SyntaxKind::REF_PAT => Some(Pat::RefPat(Typed { syntax })),
            SyntaxKind::REST_PAT => Some(Pat::RestPat(Typed { syntax })),
            SyntaxKind::SLICE_PAT => Some(Pat::SlicePat(Typed { syntax })),
            SyntaxKind::TUPLE_PAT => Some(Pat::TuplePat(Typed { syntax })),
            SyntaxKind::TUPLE_STRUCT_PAT => Some(Pat::TupleStructPat(Typed { syntax })),
            SyntaxKind::WILDCARD_PAT => Some(Pat::WildcardPat(Typed { syntax })),
            _ => None,
        }
    }

    fn syntax(&self) -> &SyntaxNode {
        match self {
            Pat::BoxPat(it) => it.syntax(),
            Pat::ConstBlockPat(it) => it.syntax(),
            Pat::IdentPat(it) => it.syntax(),
            Pat::LiteralPat(it) => it.syntax(),
            Pat::MacroPat(it) => it.syntax(),
            Pat::OrPat(it) => it.syntax(),
            Pat::ParenPat(it) => it.syntax(),
            Pat::PathPat(it) => it.syntax(),
            Pat::RangePat(it) => it.syntax(),
            Pat::RecordPat(it) => it.syntax(),
            Pat::RefPat(it) => it.syntax(),
            Pat::RestPat(it) => it.syntax(),
            Pat::SlicePat(it) => it.syntax(),
            Pat::TuplePat(it) => it.syntax(),
            Pat::TupleStructPat(it) => it.syntax(),
            Pat::WildcardPat(it) => it.syntax(),
        }
    }
}

impl Clone for Pat {
    ghost is_clone = { λ s copy. pat_node copy ≡ pat_node s };

    ghost is_infallible = { λ _. ⊤ };

    fn clone(&self) -> Result<Pat, AllocError> {
        Ok(support::copy(self))
    }
}

impl PartialEq for Pat {
    ghost eq = { λ a b. is_same_cursor (pat_node a) (pat_node b) };

    ghost laws = { partial_equiv_from_equiv (on_equiv pat_node cursor_equivalence) };

    fn eq(&self, other: &Pat) -> bool {
        self.syntax() == other.syntax()
    }
}

impl Eq for Pat {
    ghost laws = { on_equiv pat_node cursor_equivalence };
}

impl Hash for Pat {
    ghost hash_input = { λ it. cursor_hash (pat_node it) };

    ghost respects_eq = { λ a b same. cursors_alike (pat_node a) (pat_node b) same };

    fn hash<H: Hasher>(&self, state: &mut H) {
        self.syntax().hash(state);
    }
}

impl fmt::Display for Pat {
    ghost output = { λ it. Some (text (focus (pat_node it))) };

    fn fmt<W: fmt::Write>(&self, f: &mut fmt::Formatter<W>) -> fmt::Result {
        let text = self.syntax().as_str();
        write!(f, "{text}")
    }
}

/// The kind and the range, as the node prints.
impl fmt::Debug for Pat {
    ghost debug_output = { λ it. Some (span_text (pat_node it)) };

    fn fmt<W: fmt::Write>(&self, f: &mut fmt::Formatter<W>) -> fmt::Result {
        fmt::Debug::fmt(self.syntax(), f)
    }
}

impl From<ast::BoxPat> for Pat {
    ghost from_gives = { λ it made. made ≡ pat.BoxPat it };

    fn from(it: ast::BoxPat) -> Pat {
        Pat::BoxPat(it)
    }
}

impl From<ast::ConstBlockPat> for Pat {
    ghost from_gives = { λ it made. made ≡ pat.ConstBlockPat it };

    fn from(it: ast::ConstBlockPat) -> Pat {
        Pat::ConstBlockPat(it)
    }
}

impl From<ast::IdentPat> for Pat {
    ghost from_gives = { λ it made. made ≡ pat.IdentPat it };

    fn from(it: ast::IdentPat) -> Pat {
        Pat::IdentPat(it)
    }
}

impl From<ast::LiteralPat> for Pat {
    ghost from_gives = { λ it made. made ≡ pat.LiteralPat it };

    fn from(it: ast::LiteralPat) -> Pat {
        Pat::LiteralPat(it)
    }
}

impl From<ast::MacroPat> for Pat {
    ghost from_gives = { λ it made. made ≡ pat.MacroPat it };

    fn from(it: ast::MacroPat) -> Pat {
        Pat::MacroPat(it)
    }
}

impl From<ast::OrPat> for Pat {
    ghost from_gives = { λ it made. made ≡ pat.OrPat it };

    fn from(it: ast::OrPat) -> Pat {
        Pat::OrPat(it)
    }
}

impl From<ast::ParenPat> for Pat {
    ghost from_gives = { λ it made. made ≡ pat.ParenPat it };

    fn from(it: ast::ParenPat) -> Pat {
        Pat::ParenPat(it)
    }
}

impl From<ast::PathPat> for Pat {
    ghost from_gives = { λ it made. made ≡ pat.PathPat it };

    fn from(it: ast::PathPat) -> Pat {
        Pat::PathPat(it)
    }
}

impl From<ast::RangePat> for Pat {
    ghost from_gives = { λ it made. made ≡ pat.RangePat it };

    fn from(it: ast::RangePat) -> Pat {
        Pat::RangePat(it)
    }
}

impl From<ast::RecordPat> for Pat {
    ghost from_gives = { λ it made. made ≡ pat.RecordPat it };

    fn from(it: ast::RecordPat) -> Pat {
        Pat::RecordPat(it)
    }
}

impl From<ast::RefPat> for Pat {
    ghost from_gives = { λ it made. made ≡ pat.RefPat it };

    fn from(it: ast::RefPat) -> Pat {
        Pat::RefPat(it)
    }
}

impl From<ast::RestPat> for Pat {
    ghost from_gives = { λ it made. made ≡ pat.RestPat it };

    fn from(it: ast::RestPat) -> Pat {
        Pat::RestPat(it)
    }
}

impl From<ast::SlicePat> for Pat {
    ghost from_gives = { λ it made. made ≡ pat.SlicePat it };

    fn from(it: ast::SlicePat) -> Pat {
        Pat::SlicePat(it)
    }
}

impl From<ast::TuplePat> for Pat {
    ghost from_gives = { λ it made. made ≡ pat.TuplePat it };

    fn from(it: ast::TuplePat) -> Pat {
        Pat::TuplePat(it)
    }
}

impl From<ast::TupleStructPat> for Pat {
    ghost from_gives = { λ it made. made ≡ pat.TupleStructPat it };

    fn from(it: ast::TupleStructPat) -> Pat {
        Pat::TupleStructPat(it)
    }
}

impl From<ast::WildcardPat> for Pat {
    ghost from_gives = { λ it made. made ≡ pat.WildcardPat it };

    fn from(it: ast::WildcardPat) -> Pat {
        Pat::WildcardPat(it)
    }
}
