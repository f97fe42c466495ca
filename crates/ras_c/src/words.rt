//! What a word is in an edition: an identifier, or a keyword.
ghost use Rattle.std.specs.Prelude.{◌≡◌, ◌↔◌, ◌≤◌, ◌⊎◌, IsUtf8, None, Some};
ghost use Rattle.ras_front_end.specs.declared.edition.Edition.{Edition};
ghost use Rattle.ras_c.specs.Border.{edition_of};
ghost use Rattle.ras_c.specs.Words.{kind_number, word_of};

use crate::kinds::NO_KIND;
use crate::status::{NO_EDITION, NOT_UTF8, OK, edition_of};
use ras_front_end::Edition;
use ras_parsing::utils::{is_identifier, is_raw_identifier};
use rust_front::Rust;
use rust_kinds::{contextual_keyword, keyword};
use syntax_kind::SyntaxKind;

/// What a word is in an edition.
#[repr(C)]
#[derive(Clone, Copy)]
pub struct Word {
    /// The number of its kind if it is a keyword everywhere in the edition, such as `fn`, also if
    /// it is reserved, as `abstract`; [`NO_KIND`] if it is none.
    pub keyword: u32,
    /// The number of its kind if it is a keyword in some places alone, such as `union`; [`NO_KIND`]
    /// if it is none.
    pub contextual: u32,
    /// Whether it is an identifier: it begins with a letter or `_`, goes on with such and digits,
    /// by Unicode, and is no keyword everywhere.
    pub is_identifier: bool,
    /// Whether it is one only behind `r#`: it is a keyword everywhere, but for `self`, `crate`,
    /// `super` and `Self`.
    pub is_raw_identifier: bool,
}

fn kind_number(kind: Option<SyntaxKind>) -> u32
    ensures { result ≡ kind_number kind }
{
    match kind {
        Some(kind) => kind.to_raw(),
        None => NO_KIND,
    }
}

fn word_of(text: &str, edition: Edition) -> Word
    ensures { result ≡ word_of edition text.now }
{
    Word {
        keyword: kind_number(keyword(text, edition)),
        contextual: kind_number(contextual_keyword(text, edition)),
        is_identifier: is_identifier(text, &Rust, edition),
        is_raw_identifier: is_raw_identifier(text, &Rust, edition),
    }
}

/// What a text is as one word of an edition, such as 2024. A text that is no word, as `a b`, is
/// neither a keyword nor an identifier; `r#fn` is none either: ask for `fn`.
///
/// Returns [`OK`], [`NOT_UTF8`] or [`NO_EDITION`]. Unless it is [`OK`], `word` is not changed. It
/// takes no memory.
#[unsafe(no_mangle)]
pub extern "C" fn ras_c_word(text: &[u8], edition: u32, word: &mut Word) -> u32
    ensures done { result ≡ 0 → (e : Edition) × (edition_of edition ≡ Some e)
        × (word.new ≡ word_of e text.now) }
    ensures kept { (result ≡ 0 → ⊥) → word.new ≡ word.old }
    ensures utf8 { (result ≡ 1) ↔ (edition_of edition ≡ None → ⊥) × (IsUtf8 text.now → ⊥) }
    ensures edition { (result ≡ 5) ↔ (edition_of edition ≡ None) }
    ensures which { (result ≤ 1) ⊎ (result ≡ 5) }
{
    let Some(edition) = edition_of(edition) else {
        return NO_EDITION;
    };
    let Ok(text) = str::from_utf8(text) else {
        return NOT_UTF8;
    };
    *word = word_of(text, edition);
    OK
}
