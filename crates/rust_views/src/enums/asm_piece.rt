//! A part of inline assembly after its templates. Made by `tools/views` from `views.txt`.
ghost use Rattle.std.specs.Prelude.{◌≡◌, Some};
ghost use Rattle.tree_model.specs.Tree.{text};
ghost use Rattle.tree_model.specs.Cursor.{focus};
ghost use Rattle.lossless_tree.specs.Dump.{span_text};
ghost use Rattle.rust_views.specs.declared.enums.asm_piece.AsmPiece.TheVariants as asm_piece;
ghost use Rattle.rust_views.specs.AsmPieceCases.{asm_piece_node, asm_piece_castable, is_asm_piece};

use crate::{AsmClobberAbi, AsmOperandNamed, AsmOptions};
use ra_ap_syntax::ast::AstNode;
use ra_ap_syntax::{SyntaxKind, SyntaxNode};
use std::fmt;
use std::hash::Hash;

/// A part of inline assembly after its templates.
#[derive(Clone, PartialEq, Eq, Hash, Drop)]
pub enum AsmPiece {
    AsmOperandNamed(AsmOperandNamed),
    AsmClobberAbi(AsmClobberAbi),
    AsmOptions(AsmOptions),
}

impl AstNode for AsmPiece {
    ghost casts = { is_asm_piece };

    ghost node = { asm_piece_node };

    ghost castable = { asm_piece_castable };

    fn can_cast(kind: SyntaxKind) -> bool {
        AsmOperandNamed::can_cast(kind)
            || AsmClobberAbi::can_cast(kind)
            || AsmOptions::can_cast(kind)
    }

    fn cast(syntax: SyntaxNode) -> Option<AsmPiece> {
        if AsmOperandNamed::can_cast(syntax.kind()) {
            match AsmOperandNamed::cast(syntax) {
                Some(it) => Some(AsmPiece::AsmOperandNamed(it)),
                None => None,
            }
        } else if AsmClobberAbi::can_cast(syntax.kind()) {
            match AsmClobberAbi::cast(syntax) {
                Some(it) => Some(AsmPiece::AsmClobberAbi(it)),
                None => None,
            }
        } else if AsmOptions::can_cast(syntax.kind()) {
            match AsmOptions::cast(syntax) {
                Some(it) => Some(AsmPiece::AsmOptions(it)),
                None => None,
            }
        } else {
            None
        }
    }

    fn syntax(&self) -> &SyntaxNode {
        match self {
            AsmPiece::AsmOperandNamed(it) => it.syntax(),
            AsmPiece::AsmClobberAbi(it) => it.syntax(),
            AsmPiece::AsmOptions(it) => it.syntax(),
        }
    }
}

impl fmt::Display for AsmPiece {
    ghost output = { λ it. Some (text (focus (asm_piece_node it))) };

    fn fmt<W: fmt::Write>(&self, f: &mut fmt::Formatter<W>) -> fmt::Result {
        let text = self.syntax().as_str();
        write!(f, "{text}")
    }
}

/// The kind and the range, as the node prints.
impl fmt::Debug for AsmPiece {
    ghost debug_output = { λ it. Some (span_text (asm_piece_node it)) };

    fn fmt<W: fmt::Write>(&self, f: &mut fmt::Formatter<W>) -> fmt::Result {
        fmt::Debug::fmt(self.syntax(), f)
    }
}

impl From<AsmOperandNamed> for AsmPiece {
    ghost from_gives = { λ it made. made ≡ asm_piece.AsmOperandNamed it };

    fn from(it: AsmOperandNamed) -> AsmPiece {
        AsmPiece::AsmOperandNamed(it)
    }
}

impl From<AsmClobberAbi> for AsmPiece {
    ghost from_gives = { λ it made. made ≡ asm_piece.AsmClobberAbi it };

    fn from(it: AsmClobberAbi) -> AsmPiece {
        AsmPiece::AsmClobberAbi(it)
    }
}

impl From<AsmOptions> for AsmPiece {
    ghost from_gives = { λ it made. made ≡ asm_piece.AsmOptions it };

    fn from(it: AsmOptions) -> AsmPiece {
        AsmPiece::AsmOptions(it)
    }
}
