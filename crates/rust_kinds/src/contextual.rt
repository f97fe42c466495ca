//! The words that are keywords only where the grammar asks for them, by their first letter.
ghost use Rattle.std.specs.Prelude.{◌≡◌};
ghost use Rattle.rust_kinds.specs.Keywords.{find};
ghost use Rattle.rust_kinds.specs.Contextual.{contextual_kind_of, contextual_keyword_of, names_a, names_b, names_c, names_d, names_f, names_g, names_i, names_l, names_m, names_n, names_o, names_p, names_r, names_s, names_u, names_y};

use crate::keywords::{is, is_2018};
use crate::kinds;
use ras_front_end::Edition;
use syntax_kind::SyntaxKind;

fn name_a(text: &str) -> Option<SyntaxKind>
    ensures { result ≡ find names_a text.now }
{
    if is(text, "asm") {
        Some(kinds::ASM_KW)
    } else if is(text, "att_syntax") {
        Some(kinds::ATT_SYNTAX_KW)
    } else if is(text, "auto") {
        Some(SyntaxKind::AUTO_KW)
    } else {
        None
    }
}

fn name_b(text: &str) -> Option<SyntaxKind>
    ensures { result ≡ find names_b text.now }
{
    if is(text, "bikeshed") {
        Some(SyntaxKind::BIKESHED_KW)
    } else if is(text, "builtin") {
        Some(SyntaxKind::BUILTIN_KW)
    } else {
        None
    }
}

fn name_c(text: &str) -> Option<SyntaxKind>
    ensures { result ≡ find names_c text.now }
{
    if is(text, "cfg") {
        Some(kinds::CFG_KW)
    } else if is(text, "cfg_attr") {
        Some(kinds::CFG_ATTR_KW)
    } else if is(text, "clobber_abi") {
        Some(kinds::CLOBBER_ABI_KW)
    } else {
        None
    }
}

fn name_d(text: &str) -> Option<SyntaxKind>
    ensures { result ≡ find names_d text.now }
{
    if is(text, "default") {
        Some(SyntaxKind::DEFAULT_KW)
    } else {
        None
    }
}

fn name_f(text: &str) -> Option<SyntaxKind>
    ensures { result ≡ find names_f text.now }
{
    if is(text, "format_args") {
        Some(kinds::FORMAT_ARGS_KW)
    } else {
        None
    }
}

fn name_g(text: &str) -> Option<SyntaxKind>
    ensures { result ≡ find names_g text.now }
{
    if is(text, "global_asm") {
        Some(kinds::GLOBAL_ASM_KW)
    } else {
        None
    }
}

fn name_i(text: &str) -> Option<SyntaxKind>
    ensures { result ≡ find names_i text.now }
{
    if is(text, "inlateout") {
        Some(kinds::INLATEOUT_KW)
    } else if is(text, "inout") {
        Some(kinds::INOUT_KW)
    } else {
        None
    }
}

fn name_l(text: &str) -> Option<SyntaxKind>
    ensures { result ≡ find names_l text.now }
{
    if is(text, "label") {
        Some(kinds::LABEL_KW)
    } else if is(text, "lateout") {
        Some(kinds::LATEOUT_KW)
    } else {
        None
    }
}

fn name_m(text: &str) -> Option<SyntaxKind>
    ensures { result ≡ find names_m text.now }
{
    if is(text, "macro_rules") {
        Some(SyntaxKind::MACRO_RULES_KW)
    } else if is(text, "may_unwind") {
        Some(kinds::MAY_UNWIND_KW)
    } else {
        None
    }
}

fn name_n(text: &str) -> Option<SyntaxKind>
    ensures { result ≡ find names_n text.now }
{
    if is(text, "naked_asm") {
        Some(kinds::NAKED_ASM_KW)
    } else if is(text, "nomem") {
        Some(kinds::NOMEM_KW)
    } else if is(text, "noreturn") {
        Some(kinds::NORETURN_KW)
    } else if is(text, "nostack") {
        Some(kinds::NOSTACK_KW)
    } else {
        None
    }
}

fn name_o(text: &str) -> Option<SyntaxKind>
    ensures { result ≡ find names_o text.now }
{
    if is(text, "offset_of") {
        Some(kinds::OFFSET_OF_KW)
    } else if is(text, "options") {
        Some(kinds::OPTIONS_KW)
    } else if is(text, "out") {
        Some(kinds::OUT_KW)
    } else {
        None
    }
}

fn name_p(text: &str) -> Option<SyntaxKind>
    ensures { result ≡ find names_p text.now }
{
    if is(text, "preserves_flags") {
        Some(kinds::PRESERVES_FLAGS_KW)
    } else if is(text, "pure") {
        Some(kinds::PURE_KW)
    } else {
        None
    }
}

fn name_r(text: &str) -> Option<SyntaxKind>
    ensures { result ≡ find names_r text.now }
{
    if is(text, "raw") {
        Some(kinds::RAW_KW)
    } else if is(text, "readonly") {
        Some(kinds::READONLY_KW)
    } else {
        None
    }
}

fn name_s(text: &str) -> Option<SyntaxKind>
    ensures { result ≡ find names_s text.now }
{
    if is(text, "safe") {
        Some(kinds::SAFE_KW)
    } else if is(text, "sym") {
        Some(kinds::SYM_KW)
    } else {
        None
    }
}

fn name_u(text: &str) -> Option<SyntaxKind>
    ensures { result ≡ find names_u text.now }
{
    if is(text, "union") {
        Some(SyntaxKind::UNION_KW)
    } else {
        None
    }
}

fn name_y(text: &str) -> Option<SyntaxKind>
    ensures { result ≡ find names_y text.now }
{
    if is(text, "yeet") {
        Some(SyntaxKind::YEET_KW)
    } else {
        None
    }
}

/// The kind of a word that is a keyword only in some places, such as `union`, or `None` if the text
/// is no such word. The lexer's kind for these words is `IDENT`.
///
/// It compares the text with at most six words.
pub fn contextual_kind(text: &str) -> Option<SyntaxKind>
    ensures { result ≡ contextual_kind_of text.now }
{
    match text.as_bytes().first() {
        None => None,
        Some(first) => match *first {
            b'a' => name_a(text),
            b'b' => name_b(text),
            b'c' => name_c(text),
            b'd' => name_d(text),
            b'f' => name_f(text),
            b'g' => name_g(text),
            b'i' => name_i(text),
            b'l' => name_l(text),
            b'm' => name_m(text),
            b'n' => name_n(text),
            b'o' => name_o(text),
            b'p' => name_p(text),
            b'r' => name_r(text),
            b's' => name_s(text),
            b'u' => name_u(text),
            b'y' => name_y(text),
            _ => None,
        },
    }
}

/// As [`contextual_kind`]. In 2015 `dyn` is such a word too; from 2018 on it is a keyword
/// everywhere.
pub fn contextual_keyword(text: &str, edition: Edition) -> Option<SyntaxKind>
    ensures { result ≡ contextual_keyword_of edition text.now }
{
    if is(text, "dyn") && !is_2018(edition) {
        Some(SyntaxKind::DYN_KW)
    } else {
        contextual_kind(text)
    }
}
