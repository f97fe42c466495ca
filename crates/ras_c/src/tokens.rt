//! The tokens of a text.
ghost use Rattle.std.specs.Prelude.{◌≡◌, ◌≤◌, ◌^◌, ◌⊎◌, ◌↔◌, length, map, IfOk, IsUtf8, None, Some};
ghost use Rattle.ras_front_end.specs.declared.edition.Edition.{Edition};
ghost use Rattle.rust_lexer.specs.Lexing.{tokens_of};
ghost use Rattle.ras_c.specs.Border.{edition_of, IsHanded, IsCounted};
ghost use Rattle.ras_c.specs.Tokens.{token_row};

use crate::fill::hand;
use crate::status::{NO_EDITION, NO_MEMORY, NOT_UTF8, TOO_LONG, edition_of};
use rust_lexer::lex;
use std::alloc::{AllocError, Global};
use token_layout::Token;

/// One token.
#[repr(C)]
#[derive(Clone, Copy)]
pub struct TokenRow {
    /// The number of its kind.
    pub kind: u32,
    /// The length of its text in bytes.
    pub bytes: u32,
}

fn token_row(token: Token) -> TokenRow
    ensures { result ≡ token_row token }
{
    TokenRow {
        kind: token.kind.to_raw(),
        bytes: token.len.raw(),
    }
}

fn token_rows(alloc: Global, tokens: &[Token]) -> Result<Vec<TokenRow>, AllocError>
    ensures { IfOk result (λ v. v.items ≡ map token_row tokens.now) }
{
    let mut rows = Vec::new(alloc);
    for token in tokens {
        rows.push(token_row(*token))?;
    }
    Ok(rows)
}

/// Cuts a text of an edition, such as 2024, into tokens. White space and comments are tokens too,
/// and punctuation is cut into single characters.
///
/// Returns [`OK`], [`NOT_UTF8`], [`TOO_LONG`], [`NO_MEMORY`], [`NO_ROOM`] or [`NO_EDITION`]. A text
/// has at most as many tokens as bytes.
#[unsafe(no_mangle)]
pub extern "C" fn ras_c_tokens(
    alloc: Global,
    text: &[u8],
    edition: u32,
    tokens: &mut [TokenRow],
    count: &mut u32,
) -> u32
    ensures done { result ≡ 0
        → (e : Edition) × (edition_of edition ≡ Some e)
        × IsHanded (map token_row (tokens_of e text.now)) tokens.old tokens.new count.new }
    ensures room { result ≡ 4
        → (e : Edition) × (edition_of edition ≡ Some e)
        × IsCounted (map token_row (tokens_of e text.now)) tokens.old tokens.new count.new }
    ensures kept { (result ≡ 0 → ⊥) → (result ≡ 4 → ⊥)
        → (tokens.new ≡ tokens.old) × (count.new ≡ count.old) }
    ensures utf8 { (result ≡ 1) ↔ (edition_of edition ≡ None → ⊥) × (IsUtf8 text.now → ⊥) }
    ensures long { result ≡ 2
        → (2 ^ 32 ≤ length text.now)
        ⊎ ((e : Edition) × (edition_of edition ≡ Some e)
        × (2 ^ 32 ≤ length (tokens_of e text.now))) }
    ensures edition { (result ≡ 5) ↔ (edition_of edition ≡ None) }
    ensures which { result ≤ 5 }
{
    let Some(edition) = edition_of(edition) else {
        return NO_EDITION;
    };
    let Ok(text) = str::from_utf8(text) else {
        return NOT_UTF8;
    };
    if text.len() > u32::MAX as usize {
        return TOO_LONG;
    }
    let Ok(lexed) = lex(alloc, text, edition) else {
        return NO_MEMORY;
    };
    match token_rows(alloc, &lexed.tokens) {
        Ok(rows) => hand(&rows, tokens, count),
        Err(_) => NO_MEMORY,
    }
}
