//! Lookups in inline assembly. Made by `tools/views` from `views.txt`.
ghost use Rattle.std.specs.Prelude.{◌≡◌};
ghost use Rattle.ras_node.specs.Lookups.{second_typed_child};
ghost use Rattle.ras_node.specs.Nodes.{token_child, typed_children};
ghost use Rattle.ra_ap_syntax.specs.ControlViews.{IsFirstBlockExpr};
ghost use Rattle.ra_ap_syntax.specs.ExprCases.{IsExpr, IsFirstExpr, expr_kinds};
ghost use Rattle.ra_ap_syntax.specs.PathViews.{IsFirstName, IsFirstNameRef, IsFirstPath};
ghost use Rattle.rust_views.specs.AsmOperandCases.{IsFirstAsmOperand};
ghost use Rattle.rust_views.specs.AsmPieceCases.{asm_piece_kinds};
ghost use Rattle.rust_views.specs.AsmViews.{IsFirstAsmDirSpec, IsFirstAsmOperandExpr, IsFirstAsmRegSpec, asm_option_kinds};
ghost use Rattle.rust_kinds.specs.declared.kinds.TheConstants.{ASM_KW, ATT_SYNTAX_KW, CLOBBER_ABI_KW, GLOBAL_ASM_KW, INLATEOUT_KW, INOUT_KW, LABEL_KW, LATEOUT_KW, MAY_UNWIND_KW, NAKED_ASM_KW, NOMEM_KW, NORETURN_KW, NOSTACK_KW, OPTIONS_KW, OUT_KW, PRESERVES_FLAGS_KW, PURE_KW, RAW_KW, READONLY_KW, SYM_KW};

use crate::{
    AsmClobberAbi, AsmConst, AsmDirSpec, AsmLabel, AsmOperand, AsmOperandExpr, AsmOperandNamed,
    AsmOption, AsmOptions, AsmPiece, AsmRegOperand, AsmRegSpec, AsmSym,
};
use ra_ap_syntax::ast::{self, AstChildren, AstNode};
use ra_ap_syntax::{SyntaxKind, SyntaxToken, T};
use ras_node::support;
use rust_kinds::kinds::{
    ASM_KW, ATT_SYNTAX_KW, CLOBBER_ABI_KW, GLOBAL_ASM_KW, INLATEOUT_KW, INOUT_KW, LABEL_KW,
    LATEOUT_KW, MAY_UNWIND_KW, NAKED_ASM_KW, NOMEM_KW, NORETURN_KW, NOSTACK_KW, OPTIONS_KW, OUT_KW,
    PRESERVES_FLAGS_KW, PURE_KW, RAW_KW, READONLY_KW, SYM_KW,
};

/// The lookups of an `AsmClobberAbi`.
pub trait AsmClobberAbiExt: AstNode {
    /// The first token `clobber_abi` among the children, if there is one.
    /// Example: `clobber_abi` of `clobber_abi("C")`.
    final fn clobber_abi_token(&self) -> Option<SyntaxToken>
        ensures { result ≡ token_child CLOBBER_ABI_KW (Self.node self.now) }
    {
        support::token(self.syntax(), CLOBBER_ABI_KW)
    }

    /// The first token `(` among the children, if there is one.
    /// Example: `(` of `clobber_abi("C")`.
    final fn l_paren_token(&self) -> Option<SyntaxToken>
        ensures { result ≡ token_child SyntaxKind.L_PAREN (Self.node self.now) }
    {
        support::token(self.syntax(), T!['('])
    }

    /// The first token `)` among the children, if there is one.
    /// Example: `)` of `clobber_abi("C")`.
    final fn r_paren_token(&self) -> Option<SyntaxToken>
        ensures { result ≡ token_child SyntaxKind.R_PAREN (Self.node self.now) }
    {
        support::token(self.syntax(), T![')'])
    }

    /// The first string token among the children, if there is one.
    /// Example: `"C"` of `clobber_abi("C")`.
    final fn string_token(&self) -> Option<SyntaxToken>
        ensures { result ≡ token_child SyntaxKind.STRING (Self.node self.now) }
    {
        support::token(self.syntax(), SyntaxKind::STRING)
    }
}

impl AsmClobberAbiExt for AsmClobberAbi {}

/// The lookups of an `AsmConst`.
pub trait AsmConstExt: AstNode {
    /// The first child that is an expression, if there is one.
    /// Example: `b` of `const b`.
    final fn expr(&self) -> Option<ast::Expr>
        ensures { IsFirstExpr (Self.node self.now) result }
    {
        support::child(self.syntax())
    }

    /// The first token `const` among the children, if there is one.
    /// Example: `const` of `const b`.
    final fn const_token(&self) -> Option<SyntaxToken>
        ensures { result ≡ token_child SyntaxKind.CONST_KW (Self.node self.now) }
    {
        support::token(self.syntax(), T![const])
    }
}

impl AsmConstExt for AsmConst {}

/// The lookups of an `AsmDirSpec`.
pub trait AsmDirSpecExt: AstNode {
    /// The first token `in` among the children, if there is one.
    /// Example: `in` of `in`.
    final fn in_token(&self) -> Option<SyntaxToken>
        ensures { result ≡ token_child SyntaxKind.IN_KW (Self.node self.now) }
    {
        support::token(self.syntax(), T![in])
    }

    /// The first token `out` among the children, if there is one.
    /// Example: `out` of `out`.
    final fn out_token(&self) -> Option<SyntaxToken>
        ensures { result ≡ token_child OUT_KW (Self.node self.now) }
    {
        support::token(self.syntax(), OUT_KW)
    }

    /// The first token `lateout` among the children, if there is one.
    /// Example: `lateout` of `lateout`.
    final fn lateout_token(&self) -> Option<SyntaxToken>
        ensures { result ≡ token_child LATEOUT_KW (Self.node self.now) }
    {
        support::token(self.syntax(), LATEOUT_KW)
    }

    /// The first token `inout` among the children, if there is one.
    /// Example: `inout` of `inout`.
    final fn inout_token(&self) -> Option<SyntaxToken>
        ensures { result ≡ token_child INOUT_KW (Self.node self.now) }
    {
        support::token(self.syntax(), INOUT_KW)
    }

    /// The first token `inlateout` among the children, if there is one.
    /// Example: `inlateout` of `inlateout`.
    final fn inlateout_token(&self) -> Option<SyntaxToken>
        ensures { result ≡ token_child INLATEOUT_KW (Self.node self.now) }
    {
        support::token(self.syntax(), INLATEOUT_KW)
    }
}

impl AsmDirSpecExt for AsmDirSpec {}

/// The lookups of an `AsmExpr` that lead to a view or token of this table.
pub trait AsmExprExt: AstNode {
    /// The children that are asm pieces, in order.
    /// Example: `out(r) c` of `builtin # asm("a", "b", out(r) c)`.
    final fn asm_pieces(&self) -> AstChildren<AsmPiece>
        ensures { result ≡ typed_children asm_piece_kinds (Self.node self.now) }
    {
        support::children(self.syntax())
    }

    /// The first token `asm` among the children, if there is one.
    /// Example: `asm` of `builtin # asm("a", "b", out(r) c)`.
    final fn asm_token(&self) -> Option<SyntaxToken>
        ensures { result ≡ token_child ASM_KW (Self.node self.now) }
    {
        support::token(self.syntax(), ASM_KW)
    }

    /// The first token `global_asm` among the children, if there is one.
    /// Example: `global_asm` of `builtin # global_asm("a")`.
    final fn global_asm_token(&self) -> Option<SyntaxToken>
        ensures { result ≡ token_child GLOBAL_ASM_KW (Self.node self.now) }
    {
        support::token(self.syntax(), GLOBAL_ASM_KW)
    }

    /// The first token `naked_asm` among the children, if there is one.
    /// Example: `naked_asm` of `builtin # naked_asm("a")`.
    final fn naked_asm_token(&self) -> Option<SyntaxToken>
        ensures { result ≡ token_child NAKED_ASM_KW (Self.node self.now) }
    {
        support::token(self.syntax(), NAKED_ASM_KW)
    }
}

impl AsmExprExt for ast::AsmExpr {}

/// The lookups of an `AsmLabel`.
pub trait AsmLabelExt: AstNode {
    /// The first child that is a block expression, if there is one.
    /// Example: `{ b }` of `label { b }`.
    final fn block_expr(&self) -> Option<ast::BlockExpr>
        ensures { IsFirstBlockExpr (Self.node self.now) result }
    {
        support::child(self.syntax())
    }

    /// The first token `label` among the children, if there is one.
    /// Example: `label` of `label { b }`.
    final fn label_token(&self) -> Option<SyntaxToken>
        ensures { result ≡ token_child LABEL_KW (Self.node self.now) }
    {
        support::token(self.syntax(), LABEL_KW)
    }
}

impl AsmLabelExt for AsmLabel {}

/// The lookups of an `AsmOperandExpr`.
pub trait AsmOperandExprExt: AstNode {
    /// The first child that is an expression, if there is one.
    /// Example: `b` of `b => c`.
    final fn in_expr(&self) -> Option<ast::Expr>
        ensures { IsFirstExpr (Self.node self.now) result }
    {
        support::child(self.syntax())
    }

    /// The second child that is an expression, if there is one.
    /// Example: `c` of `b => c`.
    final fn out_expr(&self) -> Option<ast::Expr>
        ensures { IsExpr (second_typed_child expr_kinds (Self.node self.now)) result }
    {
        support::second_child(self.syntax())
    }

    /// The first token `=>` among the children, if there is one.
    /// Example: `=>` of `b => c`.
    final fn fat_arrow_token(&self) -> Option<SyntaxToken>
        ensures { result ≡ token_child SyntaxKind.FAT_ARROW (Self.node self.now) }
    {
        support::token(self.syntax(), T![=>])
    }
}

impl AsmOperandExprExt for AsmOperandExpr {}

/// The lookups of an `AsmOperandNamed`.
pub trait AsmOperandNamedExt: AstNode {
    /// The first child that is an asm operand, if there is one.
    /// Example: `const c` of `b = const c`.
    final fn asm_operand(&self) -> Option<AsmOperand>
        ensures { IsFirstAsmOperand (Self.node self.now) result }
    {
        support::child(self.syntax())
    }

    /// The first child that is a name, if there is one.
    /// Example: `b` of `b = const c`.
    final fn name(&self) -> Option<ast::Name>
        ensures { IsFirstName (Self.node self.now) result }
    {
        support::child(self.syntax())
    }

    /// The first token `=` among the children, if there is one.
    /// Example: `=` of `b = const c`.
    final fn eq_token(&self) -> Option<SyntaxToken>
        ensures { result ≡ token_child SyntaxKind.EQ (Self.node self.now) }
    {
        support::token(self.syntax(), T![=])
    }
}

impl AsmOperandNamedExt for AsmOperandNamed {}

/// The lookups of an `AsmOption`.
pub trait AsmOptionExt: AstNode {
    /// The first token `att_syntax` among the children, if there is one.
    /// Example: `att_syntax` of `att_syntax`.
    final fn att_syntax_token(&self) -> Option<SyntaxToken>
        ensures { result ≡ token_child ATT_SYNTAX_KW (Self.node self.now) }
    {
        support::token(self.syntax(), ATT_SYNTAX_KW)
    }

    /// The first token `may_unwind` among the children, if there is one.
    /// Example: `may_unwind` of `may_unwind`.
    final fn may_unwind_token(&self) -> Option<SyntaxToken>
        ensures { result ≡ token_child MAY_UNWIND_KW (Self.node self.now) }
    {
        support::token(self.syntax(), MAY_UNWIND_KW)
    }

    /// The first token `nomem` among the children, if there is one.
    /// Example: `nomem` of `nomem`.
    final fn nomem_token(&self) -> Option<SyntaxToken>
        ensures { result ≡ token_child NOMEM_KW (Self.node self.now) }
    {
        support::token(self.syntax(), NOMEM_KW)
    }

    /// The first token `noreturn` among the children, if there is one.
    /// Example: `noreturn` of `noreturn`.
    final fn noreturn_token(&self) -> Option<SyntaxToken>
        ensures { result ≡ token_child NORETURN_KW (Self.node self.now) }
    {
        support::token(self.syntax(), NORETURN_KW)
    }

    /// The first token `nostack` among the children, if there is one.
    /// Example: `nostack` of `nostack`.
    final fn nostack_token(&self) -> Option<SyntaxToken>
        ensures { result ≡ token_child NOSTACK_KW (Self.node self.now) }
    {
        support::token(self.syntax(), NOSTACK_KW)
    }

    /// The first token `preserves_flags` among the children, if there is one.
    /// Example: `preserves_flags` of `preserves_flags`.
    final fn preserves_flags_token(&self) -> Option<SyntaxToken>
        ensures { result ≡ token_child PRESERVES_FLAGS_KW (Self.node self.now) }
    {
        support::token(self.syntax(), PRESERVES_FLAGS_KW)
    }

    /// The first token `pure` among the children, if there is one.
    /// Example: `pure` of `pure`.
    final fn pure_token(&self) -> Option<SyntaxToken>
        ensures { result ≡ token_child PURE_KW (Self.node self.now) }
    {
        support::token(self.syntax(), PURE_KW)
    }

    /// The first token `raw` among the children, if there is one.
    /// Example: `raw` of `raw`.
    final fn raw_token(&self) -> Option<SyntaxToken>
        ensures { result ≡ token_child RAW_KW (Self.node self.now) }
    {
        support::token(self.syntax(), RAW_KW)
    }

    /// The first token `readonly` among the children, if there is one.
    /// Example: `readonly` of `readonly`.
    final fn readonly_token(&self) -> Option<SyntaxToken>
        ensures { result ≡ token_child READONLY_KW (Self.node self.now) }
    {
        support::token(self.syntax(), READONLY_KW)
    }
}

impl AsmOptionExt for AsmOption {}

/// The lookups of an `AsmOptions`.
pub trait AsmOptionsExt: AstNode {
    /// The children that are asm options, in order.
    /// Example: `pure` and `nomem` of `options(pure, nomem)`.
    final fn asm_options(&self) -> AstChildren<AsmOption>
        ensures { result ≡ typed_children asm_option_kinds (Self.node self.now) }
    {
        support::children(self.syntax())
    }

    /// The first token `,` among the children, if there is one.
    /// Example: `,` of `options(pure, nomem)`.
    final fn comma_token(&self) -> Option<SyntaxToken>
        ensures { result ≡ token_child SyntaxKind.COMMA (Self.node self.now) }
    {
        support::token(self.syntax(), T![,])
    }

    /// The first token `(` among the children, if there is one.
    /// Example: `(` of `options(pure, nomem)`.
    final fn l_paren_token(&self) -> Option<SyntaxToken>
        ensures { result ≡ token_child SyntaxKind.L_PAREN (Self.node self.now) }
    {
        support::token(self.syntax(), T!['('])
    }

    /// The first token `options` among the children, if there is one.
    /// Example: `options` of `options(pure, nomem)`.
    final fn options_token(&self) -> Option<SyntaxToken>
        ensures { result ≡ token_child OPTIONS_KW (Self.node self.now) }
    {
        support::token(self.syntax(), OPTIONS_KW)
    }

    /// The first token `)` among the children, if there is one.
    /// Example: `)` of `options(pure, nomem)`.
    final fn r_paren_token(&self) -> Option<SyntaxToken>
        ensures { result ≡ token_child SyntaxKind.R_PAREN (Self.node self.now) }
    {
        support::token(self.syntax(), T![')'])
    }
}

impl AsmOptionsExt for AsmOptions {}

/// The lookups of an `AsmRegOperand`.
pub trait AsmRegOperandExt: AstNode {
    /// The first child that is an asm dir spec, if there is one.
    /// Example: `in` of `in(r) b`.
    final fn asm_dir_spec(&self) -> Option<AsmDirSpec>
        ensures { IsFirstAsmDirSpec (Self.node self.now) result }
    {
        support::child(self.syntax())
    }

    /// The first child that is an asm operand expression, if there is one.
    /// Example: `b` of `in(r) b`.
    final fn asm_operand_expr(&self) -> Option<AsmOperandExpr>
        ensures { IsFirstAsmOperandExpr (Self.node self.now) result }
    {
        support::child(self.syntax())
    }

    /// The first child that is an asm reg spec, if there is one.
    /// Example: `r` of `in(r) b`.
    final fn asm_reg_spec(&self) -> Option<AsmRegSpec>
        ensures { IsFirstAsmRegSpec (Self.node self.now) result }
    {
        support::child(self.syntax())
    }

    /// The first token `(` among the children, if there is one.
    /// Example: `(` of `in(r) b`.
    final fn l_paren_token(&self) -> Option<SyntaxToken>
        ensures { result ≡ token_child SyntaxKind.L_PAREN (Self.node self.now) }
    {
        support::token(self.syntax(), T!['('])
    }

    /// The first token `)` among the children, if there is one.
    /// Example: `)` of `in(r) b`.
    final fn r_paren_token(&self) -> Option<SyntaxToken>
        ensures { result ≡ token_child SyntaxKind.R_PAREN (Self.node self.now) }
    {
        support::token(self.syntax(), T![')'])
    }
}

impl AsmRegOperandExt for AsmRegOperand {}

/// The lookups of an `AsmRegSpec`.
pub trait AsmRegSpecExt: AstNode {
    /// The first child that is a name reference, if there is one.
    /// Example: `r` of `r`.
    final fn name_ref(&self) -> Option<ast::NameRef>
        ensures { IsFirstNameRef (Self.node self.now) result }
    {
        support::child(self.syntax())
    }

    /// The first string token among the children, if there is one.
    /// Example: `"eax"` of `"eax"`.
    final fn string_token(&self) -> Option<SyntaxToken>
        ensures { result ≡ token_child SyntaxKind.STRING (Self.node self.now) }
    {
        support::token(self.syntax(), SyntaxKind::STRING)
    }
}

impl AsmRegSpecExt for AsmRegSpec {}

/// The lookups of an `AsmSym`.
pub trait AsmSymExt: AstNode {
    /// The first child that is a path, if there is one.
    /// Example: `b` of `sym b`.
    final fn path(&self) -> Option<ast::Path>
        ensures { IsFirstPath (Self.node self.now) result }
    {
        support::child(self.syntax())
    }

    /// The first token `sym` among the children, if there is one.
    /// Example: `sym` of `sym b`.
    final fn sym_token(&self) -> Option<SyntaxToken>
        ensures { result ≡ token_child SYM_KW (Self.node self.now) }
    {
        support::token(self.syntax(), SYM_KW)
    }
}

impl AsmSymExt for AsmSym {}
