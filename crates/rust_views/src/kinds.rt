//! A view for each kind of node. Made by `tools/views` from `views.txt`.
use crate::raw;
use ra_ap_syntax::ast::Typed;

/// The variants of an enum with their braces: `{ A, B(T) }`.
pub type VariantList = Typed<{ raw::VARIANT_LIST }>;

/// The new name of what is used: `as a`, `as _`.
pub type Rename = Typed<{ raw::RENAME }>;

/// The items that a macro expands to.
pub type MacroItems = Typed<{ raw::MACRO_ITEMS }>;

/// The types of the arguments in a path: the `(A, B)` of `Fn(A, B) -> C`.
pub type ParenthesizedArgList = Typed<{ raw::PARENTHESIZED_ARG_LIST }>;

/// `(..)` after the name of a function in a bound.
pub type ReturnTypeSyntax = Typed<{ raw::RETURN_TYPE_SYNTAX }>;

/// The fields of a struct that is made, with their braces: `{ f: a, ..b }`.
pub type RecordExprFieldList = Typed<{ raw::RECORD_EXPR_FIELD_LIST }>;

/// The name of an argument of `format_args`, and its `=`.
pub type FormatArgsArgName = Typed<{ raw::FORMAT_ARGS_ARG_NAME }>;

/// The fields of a struct that is matched, with their braces: `{ f: p, .. }`.
pub type RecordPatFieldList = Typed<{ raw::RECORD_PAT_FIELD_LIST }>;

/// The ABIs whose registers are overwritten: `clobber_abi("C")`.
pub type AsmClobberAbi = Typed<{ raw::ASM_CLOBBER_ABI }>;

/// A constant as an operand: `const a`.
pub type AsmConst = Typed<{ raw::ASM_CONST }>;

/// The direction of an operand: `in`, `out`, `lateout`, `inout`, `inlateout`.
pub type AsmDirSpec = Typed<{ raw::ASM_DIR_SPEC }>;

/// A block as an operand: `label { a }`.
pub type AsmLabel = Typed<{ raw::ASM_LABEL }>;

/// What is read, and what is written: `a`, `a => b`.
pub type AsmOperandExpr = Typed<{ raw::ASM_OPERAND_EXPR }>;

/// An operand, with a name where it has one: `a = in(r) b`.
pub type AsmOperandNamed = Typed<{ raw::ASM_OPERAND_NAMED }>;

/// An option: `pure`, `nomem`.
pub type AsmOption = Typed<{ raw::ASM_OPTION }>;

/// Options: `options(pure, nomem)`.
pub type AsmOptions = Typed<{ raw::ASM_OPTIONS }>;

/// A register as an operand: `in(r) a`.
pub type AsmRegOperand = Typed<{ raw::ASM_REG_OPERAND }>;

/// A register, or a class of registers: `"eax"`, `r`.
pub type AsmRegSpec = Typed<{ raw::ASM_REG_SPEC }>;

/// A symbol as an operand: `sym a`.
pub type AsmSym = Typed<{ raw::ASM_SYM }>;
