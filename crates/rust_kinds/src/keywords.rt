//! The words that are keywords everywhere in an edition, by their first letter.
ghost use Rattle.std.specs.Prelude.{◌≡◌, bytes_eq};
ghost use Rattle.rust_kinds.specs.Keywords.{find, is_2018_of, is_2024_of, keyword_of, words_upper_s, words_a, words_b, words_c, words_d, words_e, words_f, words_g, words_i, words_l, words_m, words_o, words_p, words_r, words_s, words_t, words_u, words_v, words_w, words_y};

use crate::kinds;
use ras_front_end::Edition;
use syntax_kind::SyntaxKind;

/// Whether it is 2018 or later.
pub(crate) fn is_2018(edition: Edition) -> bool
    ensures { result ≡ is_2018_of edition }
{
    !matches!(edition, Edition::Edition2015)
}

/// Whether it is 2024 or later.
pub(crate) fn is_2024(edition: Edition) -> bool
    ensures { result ≡ is_2024_of edition }
{
    matches!(edition, Edition::Edition2024)
}

// Whether the text is this word. Most texts differ from most words in their length, which costs no
// call.
#[tactic(auto, using(crate::proofs::Words::lengths_first))]
#[inline(always)]
pub(crate) fn is(text: &str, word: &str) -> bool
    ensures { result ≡ bytes_eq text.now word.now }
{
    text.len() == word.len() && text == word
}

fn word_upper_s(text: &str) -> Option<SyntaxKind>
    ensures { result ≡ find words_upper_s text.now }
{
    if is(text, "Self") {
        Some(SyntaxKind::SELF_TYPE_KW)
    } else {
        None
    }
}

fn word_a(text: &str, edition: Edition) -> Option<SyntaxKind>
    ensures { result ≡ find (words_a edition) text.now }
{
    if is(text, "abstract") {
        Some(kinds::ABSTRACT_KW)
    } else if is(text, "as") {
        Some(SyntaxKind::AS_KW)
    } else if is(text, "async") && is_2018(edition) {
        Some(SyntaxKind::ASYNC_KW)
    } else if is(text, "await") && is_2018(edition) {
        Some(SyntaxKind::AWAIT_KW)
    } else {
        None
    }
}

fn word_b(text: &str) -> Option<SyntaxKind>
    ensures { result ≡ find words_b text.now }
{
    if is(text, "become") {
        Some(SyntaxKind::BECOME_KW)
    } else if is(text, "box") {
        Some(kinds::BOX_KW)
    } else if is(text, "break") {
        Some(SyntaxKind::BREAK_KW)
    } else {
        None
    }
}

fn word_c(text: &str) -> Option<SyntaxKind>
    ensures { result ≡ find words_c text.now }
{
    if is(text, "const") {
        Some(SyntaxKind::CONST_KW)
    } else if is(text, "continue") {
        Some(SyntaxKind::CONTINUE_KW)
    } else if is(text, "crate") {
        Some(SyntaxKind::CRATE_KW)
    } else {
        None
    }
}

fn word_d(text: &str, edition: Edition) -> Option<SyntaxKind>
    ensures { result ≡ find (words_d edition) text.now }
{
    if is(text, "do") {
        Some(SyntaxKind::DO_KW)
    } else if is(text, "dyn") && is_2018(edition) {
        Some(SyntaxKind::DYN_KW)
    } else {
        None
    }
}

fn word_e(text: &str) -> Option<SyntaxKind>
    ensures { result ≡ find words_e text.now }
{
    if is(text, "else") {
        Some(SyntaxKind::ELSE_KW)
    } else if is(text, "enum") {
        Some(SyntaxKind::ENUM_KW)
    } else if is(text, "extern") {
        Some(SyntaxKind::EXTERN_KW)
    } else {
        None
    }
}

fn word_f(text: &str) -> Option<SyntaxKind>
    ensures { result ≡ find words_f text.now }
{
    if is(text, "false") {
        Some(SyntaxKind::FALSE_KW)
    } else if is(text, "final") {
        Some(kinds::FINAL_KW)
    } else if is(text, "fn") {
        Some(SyntaxKind::FN_KW)
    } else if is(text, "for") {
        Some(SyntaxKind::FOR_KW)
    } else {
        None
    }
}

fn word_g(text: &str, edition: Edition) -> Option<SyntaxKind>
    ensures { result ≡ find (words_g edition) text.now }
{
    if is(text, "gen") && is_2024(edition) {
        Some(SyntaxKind::GEN_KW)
    } else {
        None
    }
}

fn word_i(text: &str) -> Option<SyntaxKind>
    ensures { result ≡ find words_i text.now }
{
    if is(text, "if") {
        Some(SyntaxKind::IF_KW)
    } else if is(text, "impl") {
        Some(SyntaxKind::IMPL_KW)
    } else if is(text, "in") {
        Some(SyntaxKind::IN_KW)
    } else {
        None
    }
}

fn word_l(text: &str) -> Option<SyntaxKind>
    ensures { result ≡ find words_l text.now }
{
    if is(text, "let") {
        Some(SyntaxKind::LET_KW)
    } else if is(text, "loop") {
        Some(SyntaxKind::LOOP_KW)
    } else {
        None
    }
}

fn word_m(text: &str) -> Option<SyntaxKind>
    ensures { result ≡ find words_m text.now }
{
    if is(text, "macro") {
        Some(SyntaxKind::MACRO_KW)
    } else if is(text, "match") {
        Some(SyntaxKind::MATCH_KW)
    } else if is(text, "mod") {
        Some(SyntaxKind::MOD_KW)
    } else if is(text, "move") {
        Some(SyntaxKind::MOVE_KW)
    } else if is(text, "mut") {
        Some(SyntaxKind::MUT_KW)
    } else {
        None
    }
}

fn word_o(text: &str) -> Option<SyntaxKind>
    ensures { result ≡ find words_o text.now }
{
    if is(text, "override") {
        Some(kinds::OVERRIDE_KW)
    } else {
        None
    }
}

fn word_p(text: &str) -> Option<SyntaxKind>
    ensures { result ≡ find words_p text.now }
{
    if is(text, "priv") {
        Some(kinds::PRIV_KW)
    } else if is(text, "pub") {
        Some(SyntaxKind::PUB_KW)
    } else {
        None
    }
}

fn word_r(text: &str) -> Option<SyntaxKind>
    ensures { result ≡ find words_r text.now }
{
    if is(text, "ref") {
        Some(SyntaxKind::REF_KW)
    } else if is(text, "return") {
        Some(SyntaxKind::RETURN_KW)
    } else {
        None
    }
}

fn word_s(text: &str) -> Option<SyntaxKind>
    ensures { result ≡ find words_s text.now }
{
    if is(text, "self") {
        Some(SyntaxKind::SELF_KW)
    } else if is(text, "static") {
        Some(SyntaxKind::STATIC_KW)
    } else if is(text, "struct") {
        Some(SyntaxKind::STRUCT_KW)
    } else if is(text, "super") {
        Some(SyntaxKind::SUPER_KW)
    } else {
        None
    }
}

fn word_t(text: &str, edition: Edition) -> Option<SyntaxKind>
    ensures { result ≡ find (words_t edition) text.now }
{
    if is(text, "trait") {
        Some(SyntaxKind::TRAIT_KW)
    } else if is(text, "true") {
        Some(SyntaxKind::TRUE_KW)
    } else if is(text, "try") && is_2018(edition) {
        Some(SyntaxKind::TRY_KW)
    } else if is(text, "type") {
        Some(SyntaxKind::TYPE_KW)
    } else if is(text, "typeof") {
        Some(kinds::TYPEOF_KW)
    } else {
        None
    }
}

fn word_u(text: &str) -> Option<SyntaxKind>
    ensures { result ≡ find words_u text.now }
{
    if is(text, "unsafe") {
        Some(SyntaxKind::UNSAFE_KW)
    } else if is(text, "unsized") {
        Some(kinds::UNSIZED_KW)
    } else if is(text, "use") {
        Some(SyntaxKind::USE_KW)
    } else {
        None
    }
}

fn word_v(text: &str) -> Option<SyntaxKind>
    ensures { result ≡ find words_v text.now }
{
    if is(text, "virtual") {
        Some(kinds::VIRTUAL_KW)
    } else {
        None
    }
}

fn word_w(text: &str) -> Option<SyntaxKind>
    ensures { result ≡ find words_w text.now }
{
    if is(text, "where") {
        Some(SyntaxKind::WHERE_KW)
    } else if is(text, "while") {
        Some(SyntaxKind::WHILE_KW)
    } else {
        None
    }
}

fn word_y(text: &str) -> Option<SyntaxKind>
    ensures { result ≡ find words_y text.now }
{
    if is(text, "yield") {
        Some(SyntaxKind::YIELD_KW)
    } else {
        None
    }
}

/// The kind of a keyword, or `None` if the text is not a keyword in the edition. Reserved words
/// such as `abstract` are keywords. Words that are keywords only in some places, such as `union`,
/// are not.
///
/// It compares the text with at most five words.
pub fn keyword(text: &str, edition: Edition) -> Option<SyntaxKind>
    ensures { result ≡ keyword_of edition text.now }
{
    match text.as_bytes().first() {
        None => None,
        Some(first) => match *first {
            b'S' => word_upper_s(text),
            b'a' => word_a(text, edition),
            b'b' => word_b(text),
            b'c' => word_c(text),
            b'd' => word_d(text, edition),
            b'e' => word_e(text),
            b'f' => word_f(text),
            b'g' => word_g(text, edition),
            b'i' => word_i(text),
            b'l' => word_l(text),
            b'm' => word_m(text),
            b'o' => word_o(text),
            b'p' => word_p(text),
            b'r' => word_r(text),
            b's' => word_s(text),
            b't' => word_t(text, edition),
            b'u' => word_u(text),
            b'v' => word_v(text),
            b'w' => word_w(text),
            b'y' => word_y(text),
            _ => None,
        },
    }
}
