//! The kinds of tokens and their numbers. Written by tools/grammar from rust.grammar.

use rust_kinds::kinds;
use syntax_kind::SyntaxKind;

/// The kinds, by their numbers. A finer kind of a number with a dot is that of the number.
#[rattlefmt::skip]
pub(crate) static KINDS: [SyntaxKind; 154] = [
    SyntaxKind::ERROR, SyntaxKind::ERROR, SyntaxKind::ERROR, SyntaxKind::IDENT, SyntaxKind::LIFETIME_IDENT,
    SyntaxKind::INT_NUMBER, SyntaxKind::FLOAT_NUMBER, SyntaxKind::CHAR, SyntaxKind::BYTE, SyntaxKind::STRING,
    SyntaxKind::BYTE_STRING, SyntaxKind::C_STRING, SyntaxKind::INNER_DOC_COMMENT, SyntaxKind::OUTER_DOC_COMMENT,
    kinds::SHEBANG, kinds::FRONTMATTER, SyntaxKind::SEMICOLON, SyntaxKind::COMMA, SyntaxKind::L_PAREN,
    SyntaxKind::R_PAREN, SyntaxKind::L_CURLY, SyntaxKind::R_CURLY, SyntaxKind::L_BRACK, SyntaxKind::R_BRACK,
    SyntaxKind::L_ANGLE, SyntaxKind::R_ANGLE, SyntaxKind::AT, SyntaxKind::POUND, SyntaxKind::DOLLAR, SyntaxKind::TILDE,
    SyntaxKind::QUESTION, SyntaxKind::AMP, SyntaxKind::PIPE, SyntaxKind::PLUS, SyntaxKind::STAR, SyntaxKind::SLASH,
    SyntaxKind::CARET, SyntaxKind::PERCENT, SyntaxKind::DOT, SyntaxKind::COLON, SyntaxKind::EQ, SyntaxKind::BANG,
    SyntaxKind::MINUS, SyntaxKind::UNDERSCORE, SyntaxKind::SELF_TYPE_KW, kinds::ABSTRACT_KW, SyntaxKind::AS_KW,
    SyntaxKind::BECOME_KW, kinds::BOX_KW, SyntaxKind::BREAK_KW, SyntaxKind::CONST_KW, SyntaxKind::CONTINUE_KW,
    SyntaxKind::CRATE_KW, SyntaxKind::DO_KW, SyntaxKind::ELSE_KW, SyntaxKind::ENUM_KW, SyntaxKind::EXTERN_KW,
    SyntaxKind::FALSE_KW, kinds::FINAL_KW, SyntaxKind::FN_KW, SyntaxKind::FOR_KW, SyntaxKind::IF_KW,
    SyntaxKind::IMPL_KW, SyntaxKind::IN_KW, SyntaxKind::LET_KW, SyntaxKind::LOOP_KW, SyntaxKind::MACRO_KW,
    SyntaxKind::MATCH_KW, SyntaxKind::MOD_KW, SyntaxKind::MOVE_KW, SyntaxKind::MUT_KW, kinds::OVERRIDE_KW,
    kinds::PRIV_KW, SyntaxKind::PUB_KW, SyntaxKind::REF_KW, SyntaxKind::RETURN_KW, SyntaxKind::SELF_KW,
    SyntaxKind::STATIC_KW, SyntaxKind::STRUCT_KW, SyntaxKind::SUPER_KW, SyntaxKind::TRAIT_KW, SyntaxKind::TRUE_KW,
    SyntaxKind::TYPE_KW, kinds::TYPEOF_KW, SyntaxKind::UNSAFE_KW, kinds::UNSIZED_KW, SyntaxKind::USE_KW,
    kinds::VIRTUAL_KW, SyntaxKind::WHERE_KW, SyntaxKind::WHILE_KW, SyntaxKind::YIELD_KW, SyntaxKind::ASYNC_KW,
    SyntaxKind::AWAIT_KW, SyntaxKind::DYN_KW, SyntaxKind::GEN_KW, SyntaxKind::TRY_KW, SyntaxKind::DOT2,
    SyntaxKind::DOT3, SyntaxKind::DOT2EQ, SyntaxKind::COLON2, SyntaxKind::EQ2, SyntaxKind::FAT_ARROW, SyntaxKind::NEQ,
    SyntaxKind::THIN_ARROW, SyntaxKind::LTEQ, SyntaxKind::GTEQ, SyntaxKind::PLUSEQ, SyntaxKind::MINUSEQ,
    SyntaxKind::PIPEEQ, SyntaxKind::AMPEQ, SyntaxKind::CARETEQ, SyntaxKind::SLASHEQ, SyntaxKind::STAREQ,
    SyntaxKind::PERCENTEQ, SyntaxKind::AMP2, SyntaxKind::PIPE2, SyntaxKind::SHL, SyntaxKind::SHR, SyntaxKind::SHLEQ,
    SyntaxKind::SHREQ, kinds::CFG_KW, kinds::CFG_ATTR_KW, kinds::ASM_KW, kinds::ATT_SYNTAX_KW, SyntaxKind::AUTO_KW,
    SyntaxKind::BIKESHED_KW, SyntaxKind::BUILTIN_KW, kinds::CLOBBER_ABI_KW, SyntaxKind::DEFAULT_KW,
    kinds::FORMAT_ARGS_KW, kinds::GLOBAL_ASM_KW, kinds::INLATEOUT_KW, kinds::INOUT_KW, kinds::LABEL_KW,
    kinds::LATEOUT_KW, SyntaxKind::MACRO_RULES_KW, kinds::MAY_UNWIND_KW, kinds::NAKED_ASM_KW, kinds::NOMEM_KW,
    kinds::NORETURN_KW, kinds::NOSTACK_KW, kinds::OFFSET_OF_KW, kinds::OPTIONS_KW, kinds::OUT_KW,
    kinds::PRESERVES_FLAGS_KW, kinds::PURE_KW, kinds::RAW_KW, kinds::READONLY_KW, kinds::SAFE_KW, kinds::SYM_KW,
    SyntaxKind::UNION_KW, SyntaxKind::YEET_KW, SyntaxKind::FLOAT_NUMBER, SyntaxKind::FLOAT_NUMBER,
];

/// The numbers of the lexer's kinds, by `to_raw`; 0 for what the lexer does not make, and for trivia.
#[rattlefmt::skip]
pub(crate) static TOKENS: [u8; 117] = [
    0, 0, 12, 13, 2, 3, 4, 5, 6, 7, 8, 9, 10, 11, 16, 17, 18, 19, 20, 21, 22, 23, 24, 25, 26, 27, 28, 29, 30, 31, 32,
    33, 34, 35, 36, 37, 43, 38, 0, 0, 0, 39, 0, 40, 0, 0, 41, 0, 42, 0, 0, 0, 0, 0, 0, 0, 0, 0, 0, 0, 0, 0, 0, 0, 0, 0,
    46, 91, 0, 92, 47, 0, 49, 0, 50, 51, 52, 0, 53, 93, 54, 55, 56, 57, 59, 60, 94, 61, 62, 63, 64, 65, 66, 0, 67, 68,
    69, 70, 73, 74, 75, 76, 44, 77, 78, 79, 80, 81, 95, 82, 0, 84, 86, 88, 89, 0, 90,
];

/// The same of the kinds `OTHER(n)`, by n.
#[rattlefmt::skip]
pub(crate) static OTHERS: [u8; 10] = [
    15, 14, 45, 48, 58, 71, 72, 83, 85, 87,
];

/// The numbers of the kinds of contextual keywords, by `to_raw`, else 0.
#[rattlefmt::skip]
pub(crate) static WORD_TOKENS: [u8; 117] = [
    0, 0, 0, 0, 0, 0, 0, 0, 0, 0, 0, 0, 0, 0, 0, 0, 0, 0, 0, 0, 0, 0, 0, 0, 0, 0, 0, 0, 0, 0, 0, 0, 0, 0, 0, 0, 0, 0, 0,
    0, 0, 0, 0, 0, 0, 0, 0, 0, 0, 0, 0, 0, 0, 0, 0, 0, 0, 0, 0, 0, 0, 0, 0, 0, 0, 0, 0, 0, 124, 0, 0, 125, 0, 126, 0, 0,
    0, 128, 0, 93, 0, 0, 0, 0, 0, 0, 0, 0, 0, 0, 0, 0, 0, 135, 0, 0, 0, 0, 0, 0, 0, 0, 0, 0, 0, 0, 0, 0, 0, 0, 150, 0,
    0, 0, 0, 151, 0,
];

/// The same of the kinds `OTHER(n)`, by n.
#[rattlefmt::skip]
pub(crate) static WORD_OTHERS: [u8; 35] = [
    0, 0, 0, 0, 0, 0, 0, 0, 0, 0, 122, 123, 127, 129, 130, 131, 132, 133, 134, 136, 137, 138, 139, 140, 141, 142, 143,
    144, 145, 146, 147, 148, 149, 120, 121,
];

/// The number of an identifier.
pub(crate) const IDENT: u8 = 3;

/// The number of a number with a dot or an exponent.
pub(crate) const FLOAT_NUMBER: u8 = 6;

/// The number of a number with digits after its dot.
pub(crate) const FLOAT_PAIR: u8 = 152;

/// The number of a number that ends with its dot.
pub(crate) const FLOAT_DOT: u8 = 153;
