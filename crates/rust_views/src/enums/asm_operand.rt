//! An operand of inline assembly. Made by `tools/views` from `views.txt`.
ghost use Rattle.std.specs.Prelude.{◌≡◌, Some};
ghost use Rattle.tree_model.specs.Tree.{text};
ghost use Rattle.tree_model.specs.Cursor.{focus};
ghost use Rattle.lossless_tree.specs.Dump.{span_text};
ghost use Rattle.rust_views.specs.declared.enums.asm_operand.AsmOperand.TheVariants as asm_operand;
ghost use Rattle.rust_views.specs.AsmOperandCases.{asm_operand_node, asm_operand_castable, is_asm_operand};

use crate::{AsmConst, AsmLabel, AsmRegOperand, AsmSym};
use ra_ap_syntax::ast::AstNode;
use ra_ap_syntax::{SyntaxKind, SyntaxNode};
use std::fmt;
use std::hash::Hash;

/// An operand of inline assembly.
#[derive(Clone, PartialEq, Eq, Hash, Drop)]
pub enum AsmOperand {
    AsmRegOperand(AsmRegOperand),
    AsmLabel(AsmLabel),
    AsmSym(AsmSym),
    AsmConst(AsmConst),
}

impl AstNode for AsmOperand {
    ghost casts = { is_asm_operand };

    ghost node = { asm_operand_node };

    ghost castable = { asm_operand_castable };

    fn can_cast(kind: SyntaxKind) -> bool {
        AsmRegOperand::can_cast(kind)
            || AsmLabel::can_cast(kind)
            || AsmSym::can_cast(kind)
            || AsmConst::can_cast(kind)
    }

    fn cast(syntax: SyntaxNode) -> Option<AsmOperand> {
        if AsmRegOperand::can_cast(syntax.kind()) {
            match AsmRegOperand::cast(syntax) {
                Some(it) => Some(AsmOperand::AsmRegOperand(it)),
                None => None,
            }
        } else if AsmLabel::can_cast(syntax.kind()) {
            match AsmLabel::cast(syntax) {
                Some(it) => Some(AsmOperand::AsmLabel(it)),
                None => None,
            }
        } else if AsmSym::can_cast(syntax.kind()) {
            match AsmSym::cast(syntax) {
                Some(it) => Some(AsmOperand::AsmSym(it)),
                None => None,
            }
        } else if AsmConst::can_cast(syntax.kind()) {
            match AsmConst::cast(syntax) {
                Some(it) => Some(AsmOperand::AsmConst(it)),
                None => None,
            }
        } else {
            None
        }
    }

    fn syntax(&self) -> &SyntaxNode {
        match self {
            AsmOperand::AsmRegOperand(it) => it.syntax(),
            AsmOperand::AsmLabel(it) => it.syntax(),
            AsmOperand::AsmSym(it) => it.syntax(),
            AsmOperand::AsmConst(it) => it.syntax(),
        }
    }
}

impl fmt::Display for AsmOperand {
    ghost output = { λ it. Some (text (focus (asm_operand_node it))) };

    fn fmt<W: fmt::Write>(&self, f: &mut fmt::Formatter<W>) -> fmt::Result {
        let text = self.syntax().as_str();
        write!(f, "{text}")
    }
}

/// The kind and the range, as the node prints.
impl fmt::Debug for AsmOperand {
    ghost debug_output = { λ it. Some (span_text (asm_operand_node it)) };

    fn fmt<W: fmt::Write>(&self, f: &mut fmt::Formatter<W>) -> fmt::Result {
        fmt::Debug::fmt(self.syntax(), f)
    }
}

impl From<AsmRegOperand> for AsmOperand {
    ghost from_gives = { λ it made. made ≡ asm_operand.AsmRegOperand it };

    fn from(it: AsmRegOperand) -> AsmOperand {
        AsmOperand::AsmRegOperand(it)
    }
}

impl From<AsmLabel> for AsmOperand {
    ghost from_gives = { λ it made. made ≡ asm_operand.AsmLabel it };

    fn from(it: AsmLabel) -> AsmOperand {
        AsmOperand::AsmLabel(it)
    }
}

impl From<AsmSym> for AsmOperand {
    ghost from_gives = { λ it made. made ≡ asm_operand.AsmSym it };

    fn from(it: AsmSym) -> AsmOperand {
        AsmOperand::AsmSym(it)
    }
}

impl From<AsmConst> for AsmOperand {
    ghost from_gives = { λ it made. made ≡ asm_operand.AsmConst it };

    fn from(it: AsmConst) -> AsmOperand {
        AsmOperand::AsmConst(it)
    }
}
