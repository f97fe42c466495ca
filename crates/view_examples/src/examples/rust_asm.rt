//! Lookups of `rust_views` in inline assembly. Made by `tools/views` from `views.txt`.
use crate::{find, is_node, is_nodes, is_token};
use ra_ap_syntax::ast;
use rust_views::{
    AsmClobberAbi, AsmClobberAbiExt, AsmConst, AsmConstExt, AsmDirSpec, AsmDirSpecExt, AsmExprExt,
    AsmLabel, AsmLabelExt, AsmOperandExpr, AsmOperandExprExt, AsmOperandNamed, AsmOperandNamedExt,
    AsmOption, AsmOptionExt, AsmOptions, AsmOptionsExt, AsmRegOperand, AsmRegOperandExt,
    AsmRegSpec, AsmRegSpecExt, AsmSym, AsmSymExt,
};
use std::test::Fail;

#[test]
fn of_asm_clobber_abi(rt: HostRuntime) -> Result<(), Fail> {
    let it: AsmClobberAbi = find(
        &rt,
        "const A: T = builtin # asm(\"a\", clobber_abi(\"C\"));",
        "clobber_abi(\"C\")",
    )?;
    is_token(it.clobber_abi_token(), "clobber_abi")?;
    is_token(it.l_paren_token(), "(")?;
    is_token(it.r_paren_token(), ")")?;
    is_token(it.string_token(), "\"C\"")?;
    Ok(())
}

#[test]
fn of_asm_const(rt: HostRuntime) -> Result<(), Fail> {
    let it: AsmConst = find(
        &rt,
        "const A: T = builtin # asm(\"a\", const b);",
        "const b",
    )?;
    is_node(it.expr(), "b")?;
    is_token(it.const_token(), "const")?;
    Ok(())
}

#[test]
fn of_asm_dir_spec(rt: HostRuntime) -> Result<(), Fail> {
    let it: AsmDirSpec = find(&rt, "const A: T = builtin # asm(\"a\", in(r) b);", "in")?;
    is_token(it.in_token(), "in")?;
    let it: AsmDirSpec = find(&rt, "const A: T = builtin # asm(\"a\", out(r) b);", "out")?;
    is_token(it.out_token(), "out")?;
    let it: AsmDirSpec = find(
        &rt,
        "const A: T = builtin # asm(\"a\", lateout(r) b);",
        "lateout",
    )?;
    is_token(it.lateout_token(), "lateout")?;
    let it: AsmDirSpec = find(
        &rt,
        "const A: T = builtin # asm(\"a\", inout(r) b);",
        "inout",
    )?;
    is_token(it.inout_token(), "inout")?;
    let it: AsmDirSpec = find(
        &rt,
        "const A: T = builtin # asm(\"a\", inlateout(r) b);",
        "inlateout",
    )?;
    is_token(it.inlateout_token(), "inlateout")?;
    Ok(())
}

#[test]
fn of_asm_expr(rt: HostRuntime) -> Result<(), Fail> {
    let it: ast::AsmExpr = find(
        &rt,
        "const A: T = builtin # asm(\"a\", \"b\", out(r) c);",
        "builtin # asm(\"a\", \"b\", out(r) c)",
    )?;
    is_nodes(it.asm_pieces(), &["out(r) c"])?;
    is_token(it.asm_token(), "asm")?;
    let it: ast::AsmExpr = find(
        &rt,
        "const A: T = builtin # global_asm(\"a\");",
        "builtin # global_asm(\"a\")",
    )?;
    is_token(it.global_asm_token(), "global_asm")?;
    let it: ast::AsmExpr = find(
        &rt,
        "const A: T = builtin # naked_asm(\"a\");",
        "builtin # naked_asm(\"a\")",
    )?;
    is_token(it.naked_asm_token(), "naked_asm")?;
    Ok(())
}

#[test]
fn of_asm_label(rt: HostRuntime) -> Result<(), Fail> {
    let it: AsmLabel = find(
        &rt,
        "const A: T = builtin # asm(\"a\", label { b });",
        "label { b }",
    )?;
    is_node(it.block_expr(), "{ b }")?;
    is_token(it.label_token(), "label")?;
    Ok(())
}

#[test]
fn of_asm_operand_expr(rt: HostRuntime) -> Result<(), Fail> {
    let it: AsmOperandExpr = find(
        &rt,
        "const A: T = builtin # asm(\"a\", inout(r) b => c);",
        "b => c",
    )?;
    is_node(it.in_expr(), "b")?;
    is_node(it.out_expr(), "c")?;
    is_token(it.fat_arrow_token(), "=>")?;
    Ok(())
}

#[test]
fn of_asm_operand_named(rt: HostRuntime) -> Result<(), Fail> {
    let it: AsmOperandNamed = find(
        &rt,
        "const A: T = builtin # asm(\"a\", b = const c);",
        "b = const c",
    )?;
    is_node(it.asm_operand(), "const c")?;
    is_node(it.name(), "b")?;
    is_token(it.eq_token(), "=")?;
    Ok(())
}

#[test]
fn of_asm_option(rt: HostRuntime) -> Result<(), Fail> {
    let it: AsmOption = find(
        &rt,
        "const A: T = builtin # asm(\"a\", options(att_syntax));",
        "att_syntax",
    )?;
    is_token(it.att_syntax_token(), "att_syntax")?;
    let it: AsmOption = find(
        &rt,
        "const A: T = builtin # asm(\"a\", options(may_unwind));",
        "may_unwind",
    )?;
    is_token(it.may_unwind_token(), "may_unwind")?;
    let it: AsmOption = find(
        &rt,
        "const A: T = builtin # asm(\"a\", options(nomem));",
        "nomem",
    )?;
    is_token(it.nomem_token(), "nomem")?;
    let it: AsmOption = find(
        &rt,
        "const A: T = builtin # asm(\"a\", options(noreturn));",
        "noreturn",
    )?;
    is_token(it.noreturn_token(), "noreturn")?;
    let it: AsmOption = find(
        &rt,
        "const A: T = builtin # asm(\"a\", options(nostack));",
        "nostack",
    )?;
    is_token(it.nostack_token(), "nostack")?;
    let it: AsmOption = find(
        &rt,
        "const A: T = builtin # asm(\"a\", options(preserves_flags));",
        "preserves_flags",
    )?;
    is_token(it.preserves_flags_token(), "preserves_flags")?;
    let it: AsmOption = find(
        &rt,
        "const A: T = builtin # asm(\"a\", options(pure));",
        "pure",
    )?;
    is_token(it.pure_token(), "pure")?;
    let it: AsmOption = find(
        &rt,
        "const A: T = builtin # asm(\"a\", options(raw));",
        "raw",
    )?;
    is_token(it.raw_token(), "raw")?;
    let it: AsmOption = find(
        &rt,
        "const A: T = builtin # asm(\"a\", options(readonly));",
        "readonly",
    )?;
    is_token(it.readonly_token(), "readonly")?;
    Ok(())
}

#[test]
fn of_asm_options(rt: HostRuntime) -> Result<(), Fail> {
    let it: AsmOptions = find(
        &rt,
        "const A: T = builtin # asm(\"a\", options(pure, nomem));",
        "options(pure, nomem)",
    )?;
    is_nodes(it.asm_options(), &["pure", "nomem"])?;
    is_token(it.comma_token(), ",")?;
    is_token(it.l_paren_token(), "(")?;
    is_token(it.options_token(), "options")?;
    is_token(it.r_paren_token(), ")")?;
    Ok(())
}

#[test]
fn of_asm_reg_operand(rt: HostRuntime) -> Result<(), Fail> {
    let it: AsmRegOperand = find(
        &rt,
        "const A: T = builtin # asm(\"a\", in(r) b);",
        "in(r) b",
    )?;
    is_node(it.asm_dir_spec(), "in")?;
    is_node(it.asm_operand_expr(), "b")?;
    is_node(it.asm_reg_spec(), "r")?;
    is_token(it.l_paren_token(), "(")?;
    is_token(it.r_paren_token(), ")")?;
    Ok(())
}

#[test]
fn of_asm_reg_spec(rt: HostRuntime) -> Result<(), Fail> {
    let it: AsmRegSpec = find(&rt, "const A: T = builtin # asm(\"a\", in(r) b);", "r")?;
    is_node(it.name_ref(), "r")?;
    let it: AsmRegSpec = find(
        &rt,
        "const A: T = builtin # asm(\"a\", in(\"eax\") b);",
        "\"eax\"",
    )?;
    is_token(it.string_token(), "\"eax\"")?;
    Ok(())
}

#[test]
fn of_asm_sym(rt: HostRuntime) -> Result<(), Fail> {
    let it: AsmSym = find(&rt, "const A: T = builtin # asm(\"a\", sym b);", "sym b")?;
    is_node(it.path(), "b")?;
    is_token(it.sym_token(), "sym")?;
    Ok(())
}
