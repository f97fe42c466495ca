// Plain lookups in inline assembly, of `rust_views`. Made by `tools/views` from `views.txt`.
use crate::sheet::Sheet;
use ra_ap_syntax::SyntaxNode;
use ra_ap_syntax::ast::{self, AstNode, cast_ref};
use rust_views::{
    AsmClobberAbi, AsmClobberAbiExt, AsmConst, AsmConstExt, AsmDirSpec, AsmDirSpecExt, AsmExprExt,
    AsmLabel, AsmLabelExt, AsmOperandExpr, AsmOperandExprExt, AsmOperandNamed, AsmOperandNamedExt,
    AsmOption, AsmOptionExt, AsmOptions, AsmOptionsExt, AsmRegOperand, AsmRegOperandExt,
    AsmRegSpec, AsmRegSpecExt, AsmSym, AsmSymExt,
};
use std::alloc::AllocError;

/// Prints the results, for a node, of the plain lookups in inline assembly, of `rust_views`.
pub fn answers(sheet: &mut Sheet, node: &SyntaxNode) -> Result<(), AllocError> {
    of_asm_clobber_abi(sheet, node)?;
    of_asm_const(sheet, node)?;
    of_asm_dir_spec(sheet, node)?;
    of_asm_expr(sheet, node)?;
    of_asm_label(sheet, node)?;
    of_asm_operand_expr(sheet, node)?;
    of_asm_operand_named(sheet, node)?;
    of_asm_option(sheet, node)?;
    from_asm_options(sheet, node)
}

fn from_asm_options(sheet: &mut Sheet, node: &SyntaxNode) -> Result<(), AllocError> {
    of_asm_options(sheet, node)?;
    of_asm_reg_operand(sheet, node)?;
    of_asm_reg_spec(sheet, node)?;
    of_asm_sym(sheet, node)
}

fn of_asm_clobber_abi(sheet: &mut Sheet, node: &SyntaxNode) -> Result<(), AllocError> {
    let Some(it) = cast_ref::<AsmClobberAbi>(node) else {
        return Ok(());
    };
    sheet.token("AsmClobberAbi.clobber_abi_token", it.clobber_abi_token())?;
    sheet.token("AsmClobberAbi.l_paren_token", it.l_paren_token())?;
    sheet.token("AsmClobberAbi.r_paren_token", it.r_paren_token())?;
    sheet.token("AsmClobberAbi.string_token", it.string_token())
}

fn of_asm_const(sheet: &mut Sheet, node: &SyntaxNode) -> Result<(), AllocError> {
    let Some(it) = cast_ref::<AsmConst>(node) else {
        return Ok(());
    };
    sheet.node("AsmConst.expr", it.expr())?;
    sheet.token("AsmConst.const_token", it.const_token())
}

fn of_asm_dir_spec(sheet: &mut Sheet, node: &SyntaxNode) -> Result<(), AllocError> {
    let Some(it) = cast_ref::<AsmDirSpec>(node) else {
        return Ok(());
    };
    sheet.token("AsmDirSpec.in_token", it.in_token())?;
    sheet.token("AsmDirSpec.out_token", it.out_token())?;
    sheet.token("AsmDirSpec.lateout_token", it.lateout_token())?;
    sheet.token("AsmDirSpec.inout_token", it.inout_token())?;
    sheet.token("AsmDirSpec.inlateout_token", it.inlateout_token())
}

fn of_asm_expr(sheet: &mut Sheet, node: &SyntaxNode) -> Result<(), AllocError> {
    let Some(it) = cast_ref::<ast::AsmExpr>(node) else {
        return Ok(());
    };
    sheet.nodes("AsmExpr.asm_pieces", it.asm_pieces())?;
    sheet.token("AsmExpr.asm_token", it.asm_token())?;
    sheet.token("AsmExpr.global_asm_token", it.global_asm_token())?;
    sheet.token("AsmExpr.naked_asm_token", it.naked_asm_token())
}

fn of_asm_label(sheet: &mut Sheet, node: &SyntaxNode) -> Result<(), AllocError> {
    let Some(it) = cast_ref::<AsmLabel>(node) else {
        return Ok(());
    };
    sheet.node("AsmLabel.block_expr", it.block_expr())?;
    sheet.token("AsmLabel.label_token", it.label_token())
}

fn of_asm_operand_expr(sheet: &mut Sheet, node: &SyntaxNode) -> Result<(), AllocError> {
    let Some(it) = cast_ref::<AsmOperandExpr>(node) else {
        return Ok(());
    };
    sheet.node("AsmOperandExpr.in_expr", it.in_expr())?;
    sheet.node("AsmOperandExpr.out_expr", it.out_expr())?;
    sheet.token("AsmOperandExpr.fat_arrow_token", it.fat_arrow_token())
}

fn of_asm_operand_named(sheet: &mut Sheet, node: &SyntaxNode) -> Result<(), AllocError> {
    let Some(it) = cast_ref::<AsmOperandNamed>(node) else {
        return Ok(());
    };
    sheet.node("AsmOperandNamed.asm_operand", it.asm_operand())?;
    sheet.node("AsmOperandNamed.name", it.name())?;
    sheet.token("AsmOperandNamed.eq_token", it.eq_token())
}

fn of_asm_option(sheet: &mut Sheet, node: &SyntaxNode) -> Result<(), AllocError> {
    let Some(it) = cast_ref::<AsmOption>(node) else {
        return Ok(());
    };
    sheet.token("AsmOption.att_syntax_token", it.att_syntax_token())?;
    sheet.token("AsmOption.may_unwind_token", it.may_unwind_token())?;
    sheet.token("AsmOption.nomem_token", it.nomem_token())?;
    sheet.token("AsmOption.noreturn_token", it.noreturn_token())?;
    rest_of_asm_option(sheet, &it)
}

fn rest_of_asm_option(sheet: &mut Sheet, it: &AsmOption) -> Result<(), AllocError> {
    sheet.token("AsmOption.nostack_token", it.nostack_token())?;
    sheet.token(
        "AsmOption.preserves_flags_token",
        it.preserves_flags_token(),
    )?;
    sheet.token("AsmOption.pure_token", it.pure_token())?;
    sheet.token("AsmOption.raw_token", it.raw_token())?;
    sheet.token("AsmOption.readonly_token", it.readonly_token())
}

fn of_asm_options(sheet: &mut Sheet, node: &SyntaxNode) -> Result<(), AllocError> {
    let Some(it) = cast_ref::<AsmOptions>(node) else {
        return Ok(());
    };
    sheet.nodes("AsmOptions.asm_options", it.asm_options())?;
    sheet.token("AsmOptions.comma_token", it.comma_token())?;
    sheet.token("AsmOptions.l_paren_token", it.l_paren_token())?;
    sheet.token("AsmOptions.options_token", it.options_token())?;
    sheet.token("AsmOptions.r_paren_token", it.r_paren_token())
}

fn of_asm_reg_operand(sheet: &mut Sheet, node: &SyntaxNode) -> Result<(), AllocError> {
    let Some(it) = cast_ref::<AsmRegOperand>(node) else {
        return Ok(());
    };
    sheet.node("AsmRegOperand.asm_dir_spec", it.asm_dir_spec())?;
    sheet.node("AsmRegOperand.asm_operand_expr", it.asm_operand_expr())?;
    sheet.node("AsmRegOperand.asm_reg_spec", it.asm_reg_spec())?;
    sheet.token("AsmRegOperand.l_paren_token", it.l_paren_token())?;
    sheet.token("AsmRegOperand.r_paren_token", it.r_paren_token())
}

fn of_asm_reg_spec(sheet: &mut Sheet, node: &SyntaxNode) -> Result<(), AllocError> {
    let Some(it) = cast_ref::<AsmRegSpec>(node) else {
        return Ok(());
    };
    sheet.node("AsmRegSpec.name_ref", it.name_ref())?;
    sheet.token("AsmRegSpec.string_token", it.string_token())
}

fn of_asm_sym(sheet: &mut Sheet, node: &SyntaxNode) -> Result<(), AllocError> {
    let Some(it) = cast_ref::<AsmSym>(node) else {
        return Ok(());
    };
    sheet.node("AsmSym.path", it.path())?;
    sheet.token("AsmSym.sym_token", it.sym_token())
}
