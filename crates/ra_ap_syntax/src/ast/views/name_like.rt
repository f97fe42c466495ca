//! A name where it is used or defined, or a lifetime. Made by `tools/views` from `views.txt`.
ghost use Rattle.std.specs.Prelude.{◌≡◌, Some};
ghost use Rattle.tree_model.specs.Tree.{text};
ghost use Rattle.tree_model.specs.Cursor.{focus};
ghost use Rattle.lossless_tree.specs.Dump.{span_text};
ghost use Rattle.ra_ap_syntax.specs.declared.ast.views.name_like.NameLike.TheVariants as name_like;
ghost use Rattle.ras_node.specs.Sets.{is_name_like};
ghost use Rattle.ra_ap_syntax.specs.NameLikeCases.{name_like_node, name_like_castable};

use crate::ast::{self, AstNode, Typed};
use lossless_tree::{SyntaxKind, SyntaxNode};
use ras_node::sets::{KindSet, NameLikes};
use std::fmt;

/// A name where it is used or defined, or a lifetime.
#[derive(Clone, Drop)]
pub enum NameLike {
    NameRef(ast::NameRef),
    Name(ast::Name),
    Lifetime(ast::Lifetime),
}

impl AstNode for NameLike {
    ghost casts = { is_name_like };

    ghost node = { name_like_node };

    ghost castable = { name_like_castable };

    fn can_cast(kind: SyntaxKind) -> bool {
        NameLikes::has(kind)
    }

    fn cast(syntax: SyntaxNode) -> Option<NameLike> {
        match syntax.kind() {
            SyntaxKind::NAME_REF => Some(NameLike::NameRef(Typed { syntax })),
            SyntaxKind::NAME => Some(NameLike::Name(Typed { syntax })),
            SyntaxKind::LIFETIME => Some(NameLike::Lifetime(Typed { syntax })),
            _ => None,
        }
    }

    fn syntax(&self) -> &SyntaxNode {
        match self {
            NameLike::NameRef(it) => it.syntax(),
            NameLike::Name(it) => it.syntax(),
            NameLike::Lifetime(it) => it.syntax(),
        }
    }
}

impl fmt::Display for NameLike {
    ghost output = { λ it. Some (text (focus (name_like_node it))) };

    fn fmt<W: fmt::Write>(&self, f: &mut fmt::Formatter<W>) -> fmt::Result {
        let text = self.syntax().as_str();
        write!(f, "{text}")
    }
}

/// The kind and the range, as the node prints.
impl fmt::Debug for NameLike {
    ghost debug_output = { λ it. Some (span_text (name_like_node it)) };

    fn fmt<W: fmt::Write>(&self, f: &mut fmt::Formatter<W>) -> fmt::Result {
        fmt::Debug::fmt(self.syntax(), f)
    }
}

impl From<ast::NameRef> for NameLike {
    ghost from_gives = { λ it made. made ≡ name_like.NameRef it };

    fn from(it: ast::NameRef) -> NameLike {
        NameLike::NameRef(it)
    }
}

impl From<ast::Name> for NameLike {
    ghost from_gives = { λ it made. made ≡ name_like.Name it };

    fn from(it: ast::Name) -> NameLike {
        NameLike::Name(it)
    }
}

impl From<ast::Lifetime> for NameLike {
    ghost from_gives = { λ it made. made ≡ name_like.Lifetime it };

    fn from(it: ast::Lifetime) -> NameLike {
        NameLike::Lifetime(it)
    }
}
