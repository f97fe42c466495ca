//! The kinds, by their names. Written by tools/rust_kinds from kinds.txt.

use syntax_kind::SyntaxKind;

/// A front matter at a file's start, with its fences.
pub const FRONTMATTER: SyntaxKind = SyntaxKind::OTHER(0);
/// The line `#!..` at a file's start.
pub const SHEBANG: SyntaxKind = SyntaxKind::OTHER(1);
/// The word `abstract`.
pub const ABSTRACT_KW: SyntaxKind = SyntaxKind::OTHER(2);
/// The word `box`.
pub const BOX_KW: SyntaxKind = SyntaxKind::OTHER(3);
/// The word `final`.
pub const FINAL_KW: SyntaxKind = SyntaxKind::OTHER(4);
/// The word `override`.
pub const OVERRIDE_KW: SyntaxKind = SyntaxKind::OTHER(5);
/// The word `priv`.
pub const PRIV_KW: SyntaxKind = SyntaxKind::OTHER(6);
/// The word `typeof`.
pub const TYPEOF_KW: SyntaxKind = SyntaxKind::OTHER(7);
/// The word `unsized`.
pub const UNSIZED_KW: SyntaxKind = SyntaxKind::OTHER(8);
/// The word `virtual`.
pub const VIRTUAL_KW: SyntaxKind = SyntaxKind::OTHER(9);
/// The word `asm`.
pub const ASM_KW: SyntaxKind = SyntaxKind::OTHER(10);
/// The word `att_syntax`.
pub const ATT_SYNTAX_KW: SyntaxKind = SyntaxKind::OTHER(11);
/// The word `clobber_abi`.
pub const CLOBBER_ABI_KW: SyntaxKind = SyntaxKind::OTHER(12);
/// The word `format_args`.
pub const FORMAT_ARGS_KW: SyntaxKind = SyntaxKind::OTHER(13);
/// The word `global_asm`.
pub const GLOBAL_ASM_KW: SyntaxKind = SyntaxKind::OTHER(14);
/// The word `inlateout`.
pub const INLATEOUT_KW: SyntaxKind = SyntaxKind::OTHER(15);
/// The word `inout`.
pub const INOUT_KW: SyntaxKind = SyntaxKind::OTHER(16);
/// The word `label`.
pub const LABEL_KW: SyntaxKind = SyntaxKind::OTHER(17);
/// The word `lateout`.
pub const LATEOUT_KW: SyntaxKind = SyntaxKind::OTHER(18);
/// The word `may_unwind`.
pub const MAY_UNWIND_KW: SyntaxKind = SyntaxKind::OTHER(19);
/// The word `naked_asm`.
pub const NAKED_ASM_KW: SyntaxKind = SyntaxKind::OTHER(20);
/// The word `nomem`.
pub const NOMEM_KW: SyntaxKind = SyntaxKind::OTHER(21);
/// The word `noreturn`.
pub const NORETURN_KW: SyntaxKind = SyntaxKind::OTHER(22);
/// The word `nostack`.
pub const NOSTACK_KW: SyntaxKind = SyntaxKind::OTHER(23);
/// The word `offset_of`.
pub const OFFSET_OF_KW: SyntaxKind = SyntaxKind::OTHER(24);
/// The word `options`.
pub const OPTIONS_KW: SyntaxKind = SyntaxKind::OTHER(25);
/// The word `out`.
pub const OUT_KW: SyntaxKind = SyntaxKind::OTHER(26);
/// The word `preserves_flags`.
pub const PRESERVES_FLAGS_KW: SyntaxKind = SyntaxKind::OTHER(27);
/// The word `pure`.
pub const PURE_KW: SyntaxKind = SyntaxKind::OTHER(28);
/// The word `raw`.
pub const RAW_KW: SyntaxKind = SyntaxKind::OTHER(29);
/// The word `readonly`.
pub const READONLY_KW: SyntaxKind = SyntaxKind::OTHER(30);
/// The word `safe`.
pub const SAFE_KW: SyntaxKind = SyntaxKind::OTHER(31);
/// The word `sym`.
pub const SYM_KW: SyntaxKind = SyntaxKind::OTHER(32);
/// The word `cfg`.
pub const CFG_KW: SyntaxKind = SyntaxKind::OTHER(33);
/// The word `cfg_attr`.
pub const CFG_ATTR_KW: SyntaxKind = SyntaxKind::OTHER(34);
/// The node `ASM_CLOBBER_ABI`.
pub const ASM_CLOBBER_ABI: SyntaxKind = SyntaxKind::OTHER(256);
/// The node `ASM_CONST`.
pub const ASM_CONST: SyntaxKind = SyntaxKind::OTHER(257);
/// The node `ASM_DIR_SPEC`.
pub const ASM_DIR_SPEC: SyntaxKind = SyntaxKind::OTHER(258);
/// The node `ASM_LABEL`.
pub const ASM_LABEL: SyntaxKind = SyntaxKind::OTHER(259);
/// The node `ASM_OPERAND_EXPR`.
pub const ASM_OPERAND_EXPR: SyntaxKind = SyntaxKind::OTHER(260);
/// The node `ASM_OPERAND_NAMED`.
pub const ASM_OPERAND_NAMED: SyntaxKind = SyntaxKind::OTHER(261);
/// The node `ASM_OPTION`.
pub const ASM_OPTION: SyntaxKind = SyntaxKind::OTHER(262);
/// The node `ASM_OPTIONS`.
pub const ASM_OPTIONS: SyntaxKind = SyntaxKind::OTHER(263);
/// The node `ASM_REG_OPERAND`.
pub const ASM_REG_OPERAND: SyntaxKind = SyntaxKind::OTHER(264);
/// The node `ASM_REG_SPEC`.
pub const ASM_REG_SPEC: SyntaxKind = SyntaxKind::OTHER(265);
/// The node `ASM_SYM`.
pub const ASM_SYM: SyntaxKind = SyntaxKind::OTHER(266);
/// The node `CFG_COMPOSITE`.
pub const CFG_COMPOSITE: SyntaxKind = SyntaxKind::OTHER(267);
/// The node `FORMAT_ARGS_ARG_NAME`.
pub const FORMAT_ARGS_ARG_NAME: SyntaxKind = SyntaxKind::OTHER(268);
/// The node `MACRO_ITEMS`.
pub const MACRO_ITEMS: SyntaxKind = SyntaxKind::OTHER(269);
/// The node `PARENTHESIZED_ARG_LIST`.
pub const PARENTHESIZED_ARG_LIST: SyntaxKind = SyntaxKind::OTHER(270);
/// The node `RECORD_EXPR_FIELD_LIST`.
pub const RECORD_EXPR_FIELD_LIST: SyntaxKind = SyntaxKind::OTHER(271);
/// The node `RECORD_PAT_FIELD_LIST`.
pub const RECORD_PAT_FIELD_LIST: SyntaxKind = SyntaxKind::OTHER(272);
/// The node `RENAME`.
pub const RENAME: SyntaxKind = SyntaxKind::OTHER(273);
/// The node `RETURN_TYPE_SYNTAX`.
pub const RETURN_TYPE_SYNTAX: SyntaxKind = SyntaxKind::OTHER(274);
/// The node `VARIANT_LIST`.
pub const VARIANT_LIST: SyntaxKind = SyntaxKind::OTHER(275);
