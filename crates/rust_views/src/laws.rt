//! The views are of the kinds that they are named for. The function does nothing: the contract is
//! the law. Made by `tools/views` from `views.txt`.
ghost use Rattle.std.specs.Prelude.{◌≡◌};
ghost use Rattle.ra_ap_syntax.specs.Words.{Views};
ghost use Rattle.rust_kinds.specs.declared.kinds.TheConstants.{ASM_CLOBBER_ABI, ASM_CONST, ASM_DIR_SPEC, ASM_LABEL, ASM_OPERAND_EXPR, ASM_OPERAND_NAMED, ASM_OPTION, ASM_OPTIONS, ASM_REG_OPERAND, ASM_REG_SPEC, ASM_SYM, FORMAT_ARGS_ARG_NAME, MACRO_ITEMS, PARENTHESIZED_ARG_LIST, RECORD_EXPR_FIELD_LIST, RECORD_PAT_FIELD_LIST, RENAME, RETURN_TYPE_SYNTAX, VARIANT_LIST};

// The formatter would write this many names one per line.
#[rattlefmt::skip]
use crate::{
    AsmClobberAbi, AsmConst, AsmDirSpec, AsmLabel, AsmOperandExpr, AsmOperandNamed, AsmOption,
    AsmOptions, AsmRegOperand, AsmRegSpec, AsmSym, FormatArgsArgName, MacroItems,
    ParenthesizedArgList, RecordExprFieldList, RecordPatFieldList, Rename, ReturnTypeSyntax,
    VariantList,
};
use ra_ap_syntax::AstNode;

/// Each view is of the kind `SyntaxKind::OTHER(n)` whose number `rust_kinds` gives its name.
pub fn names_of_views()
    ensures asm_clobber_abi { Views ⟦<AsmClobberAbi as AstNode>⟧ ASM_CLOBBER_ABI }
    ensures asm_const { Views ⟦<AsmConst as AstNode>⟧ ASM_CONST }
    ensures asm_dir_spec { Views ⟦<AsmDirSpec as AstNode>⟧ ASM_DIR_SPEC }
    ensures asm_label { Views ⟦<AsmLabel as AstNode>⟧ ASM_LABEL }
    ensures asm_operand_expr { Views ⟦<AsmOperandExpr as AstNode>⟧ ASM_OPERAND_EXPR }
    ensures asm_operand_named { Views ⟦<AsmOperandNamed as AstNode>⟧ ASM_OPERAND_NAMED }
    ensures asm_option { Views ⟦<AsmOption as AstNode>⟧ ASM_OPTION }
    ensures asm_options { Views ⟦<AsmOptions as AstNode>⟧ ASM_OPTIONS }
    ensures asm_reg_operand { Views ⟦<AsmRegOperand as AstNode>⟧ ASM_REG_OPERAND }
    ensures asm_reg_spec { Views ⟦<AsmRegSpec as AstNode>⟧ ASM_REG_SPEC }
    ensures asm_sym { Views ⟦<AsmSym as AstNode>⟧ ASM_SYM }
    ensures format_args_arg_name { Views ⟦<FormatArgsArgName as AstNode>⟧ FORMAT_ARGS_ARG_NAME }
    ensures macro_items { Views ⟦<MacroItems as AstNode>⟧ MACRO_ITEMS }
    ensures parenthesized_arg { Views ⟦<ParenthesizedArgList as AstNode>⟧ PARENTHESIZED_ARG_LIST }
    ensures record_expr_field { Views ⟦<RecordExprFieldList as AstNode>⟧ RECORD_EXPR_FIELD_LIST }
    ensures record_pat_field_list { Views ⟦<RecordPatFieldList as AstNode>⟧ RECORD_PAT_FIELD_LIST }
    ensures rename { Views ⟦<Rename as AstNode>⟧ RENAME }
    ensures return_type_syntax { Views ⟦<ReturnTypeSyntax as AstNode>⟧ RETURN_TYPE_SYNTAX }
    ensures variant_list { Views ⟦<VariantList as AstNode>⟧ VARIANT_LIST }
{}
