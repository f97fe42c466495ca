//! The raw numbers of the kinds, as `SyntaxKind::to_raw` gives them. Made by `tools/views` from
//! `views.txt`.

// The number of `SyntaxKind::OTHER(0)`.
const FIRST_OTHER: u32 = 65_536;

pub const ASM_CLOBBER_ABI: u32 = FIRST_OTHER + 256;

pub const ASM_CONST: u32 = FIRST_OTHER + 257;

pub const ASM_DIR_SPEC: u32 = FIRST_OTHER + 258;

pub const ASM_LABEL: u32 = FIRST_OTHER + 259;

pub const ASM_OPERAND_EXPR: u32 = FIRST_OTHER + 260;

pub const ASM_OPERAND_NAMED: u32 = FIRST_OTHER + 261;

pub const ASM_OPTION: u32 = FIRST_OTHER + 262;

pub const ASM_OPTIONS: u32 = FIRST_OTHER + 263;

pub const ASM_REG_OPERAND: u32 = FIRST_OTHER + 264;

pub const ASM_REG_SPEC: u32 = FIRST_OTHER + 265;

pub const ASM_SYM: u32 = FIRST_OTHER + 266;

pub const FORMAT_ARGS_ARG_NAME: u32 = FIRST_OTHER + 268;

pub const MACRO_ITEMS: u32 = FIRST_OTHER + 269;

pub const PARENTHESIZED_ARG_LIST: u32 = FIRST_OTHER + 270;

pub const RECORD_EXPR_FIELD_LIST: u32 = FIRST_OTHER + 271;

pub const RECORD_PAT_FIELD_LIST: u32 = FIRST_OTHER + 272;

pub const RENAME: u32 = FIRST_OTHER + 273;

pub const RETURN_TYPE_SYNTAX: u32 = FIRST_OTHER + 274;

pub const VARIANT_LIST: u32 = FIRST_OTHER + 275;
