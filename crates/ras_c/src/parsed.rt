//! The parse of a text.
ghost use Rattle.std.specs.Prelude.{◌≡◌, ◌<◌, ◌≤◌, ◌^◌, ◌⊎◌, ◌↔◌, length, IfOk, IfErr, IsUtf8, None, OnOk};
ghost use Rattle.ras_front_end.specs.declared.parse_error.ParseError.TheVariants.{TooLong};
ghost use Rattle.ras_front_end.specs.Parsed.{IsParseOf};
ghost use Rattle.rust_front.specs.Tops.{top_of};
ghost use Rattle.ras_c.specs.Border.{edition_of};
ghost use Rattle.ras_c.specs.Read.{IsReading, IsReadingAs};

use crate::status::{NO_EDITION, NO_MEMORY, NOT_UTF8, TOO_LONG, edition_of};
use ras_front_end::{Edition, ParseError};
use ras_parsing::Parse;
use rust_front::TopEntryPoint;
use std::alloc::Global;

// The parse of a text by an entry.
#[tactic(auto, using(crate::proofs::ReadLemmas::any_root))]
fn read<T>(
    alloc: Global,
    entry: TopEntryPoint,
    text: &str,
    edition: Edition,
) -> Result<Parse<T>, ParseError>
    ensures parsed { IfOk result (IsParseOf text.now (top_of entry edition text.now)) }
    ensures accepted { OnOk result (length text.now < 2 ^ 32) }
    ensures refused { IfErr result (λ e. (e ≡ TooLong) ↔ (2 ^ 32 ≤ length text.now)) }
{
    if text.len() > u32::MAX as usize {
        return Err(ParseError::TooLong);
    }
    let output = entry.parse(alloc, text, edition)?;
    Ok(Parse::of_output(alloc, text, output)?)
}

/// The parse of a text by an entry, or the status of the refusal.
pub(crate) fn parsed_as<T>(
    alloc: Global,
    entry: TopEntryPoint,
    text: &[u8],
    edition: u32,
) -> Result<Parse<T>, u32>
    ensures read { IfOk result (λ p. IsReadingAs entry edition text.now p) }
    ensures known { IfOk result (λ _. edition_of edition ≡ None → ⊥) }
    ensures text { IfOk result (λ _. IsUtf8 text.now × (length text.now < 2 ^ 32)) }
    ensures utf8 { IfErr result
        (λ s. (s ≡ 1) ↔ (edition_of edition ≡ None → ⊥) × (IsUtf8 text.now → ⊥)) }
    ensures long { IfErr result (λ s. (s ≡ 2)
        ↔ (edition_of edition ≡ None → ⊥) × IsUtf8 text.now × (2 ^ 32 ≤ length text.now)) }
    ensures edition { IfErr result (λ s. (s ≡ 5) ↔ (edition_of edition ≡ None)) }
    ensures which { IfErr result (λ s. (s ≡ 1) ⊎ (s ≡ 2) ⊎ (s ≡ 3) ⊎ (s ≡ 5)) }
{
    let Some(edition) = edition_of(edition) else {
        return Err(NO_EDITION);
    };
    let Ok(text) = str::from_utf8(text) else {
        return Err(NOT_UTF8);
    };
    match read(alloc, entry, text, edition) {
        Ok(parse) => Ok(parse),
        Err(ParseError::TooLong) => Err(TOO_LONG),
        Err(ParseError::Memory) => Err(NO_MEMORY),
    }
}

/// The parse of a text as a file, or the status of the refusal.
pub(crate) fn parsed<T>(alloc: Global, text: &[u8], edition: u32) -> Result<Parse<T>, u32>
    ensures read { IfOk result (λ p. IsReading edition text.now p) }
    ensures known { IfOk result (λ _. edition_of edition ≡ None → ⊥) }
    ensures text { IfOk result (λ _. IsUtf8 text.now × (length text.now < 2 ^ 32)) }
    ensures utf8 { IfErr result
        (λ s. (s ≡ 1) ↔ (edition_of edition ≡ None → ⊥) × (IsUtf8 text.now → ⊥)) }
    ensures long { IfErr result (λ s. (s ≡ 2)
        ↔ (edition_of edition ≡ None → ⊥) × IsUtf8 text.now × (2 ^ 32 ≤ length text.now)) }
    ensures edition { IfErr result (λ s. (s ≡ 5) ↔ (edition_of edition ≡ None)) }
    ensures which { IfErr result (λ s. (s ≡ 1) ⊎ (s ≡ 2) ⊎ (s ≡ 3) ⊎ (s ≡ 5)) }
{
    parsed_as(alloc, TopEntryPoint::SourceFile, text, edition)
}
