//! The errors of a parse that is kept, without its rows.
ghost use Rattle.std.specs.Prelude.{◌≡◌, ◌↔◌, ◌≤◌, ◌⊎◌, length, None};
ghost use Rattle.ras_c.specs.Border.{errors_of};
ghost use Rattle.ras_c.specs.Errors.{AreWritten, AreNumbered};
ghost use Rattle.ras_c.specs.Live.{HoldsReport};
ghost use Rattle.ras_c.specs.Read.{report_on, violations_by};
ghost use Rattle.ras_c.specs.Violations.{AreFew, error_buffers};

use crate::choice::{Errors, errors_of};
use crate::fill::fill;
use crate::handle::Handle;
use crate::held::{put, take};
use crate::read::{Counts, ErrorRow, counts_of, error_rows, joined, stored_count};
use crate::root::Root;
use crate::status::{NO_CHOICE, NO_MEMORY, NO_PARSE, NO_ROOM, OK, TOO_LONG};
use ras_front_end::SyntaxError;
use ras_parsing::Parse;
use std::alloc::Global;

// Writes errors to the buffers, or counts them. The last `violations` of them are violations.
fn write_errors(
    alloc: Global,
    found: &[SyntaxError],
    violations: usize,
    errors: &mut [ErrorRow],
    messages: &mut [u8],
    counts: &mut Counts,
) -> u32
    requires { violations ≤ length found.now }
    ensures done { result ≡ 0 → AreWritten found.now violations
        (error_buffers errors.old messages.old counts.old)
        (error_buffers errors.new messages.new counts.new) }
    ensures room { result ≡ 4 → AreNumbered found.now violations
        (error_buffers errors.old messages.old counts.old)
        (error_buffers errors.new messages.new counts.new) }
    ensures long { result ≡ 2 → AreFew found.now → ⊥ }
    ensures kept { (result ≡ 0 → ⊥) → (result ≡ 4 → ⊥)
        → error_buffers errors.new messages.new counts.new
        ≡ error_buffers errors.old messages.old counts.old }
    ensures which { (result ≡ 0) ⊎ (2 ≤ result) × (result ≤ 4) }
{
    let Ok(texts) = joined(alloc, found) else {
        return NO_MEMORY;
    };
    let Some(needed) = counts_of(0, found.len(), violations, texts.len()) else {
        return TOO_LONG;
    };
    let Ok(lines) = error_rows(alloc, found) else {
        return NO_MEMORY;
    };
    *counts = needed;
    if errors.len() < found.len() || messages.len() < texts.len() {
        return NO_ROOM;
    }
    fill(&lines, errors);
    fill(texts.as_bytes(), messages);
    OK
}

// Writes the violations of a parse, and also the errors of the parse if `all`.
#[tactic(auto, using(crate::proofs::ReadLemmas::all_counted, crate::proofs::ReadLemmas::stored_within, crate::proofs::ReadLemmas::behind_stored))]
fn write_violations(
    alloc: Global,
    parse: &Parse<Root>,
    all: bool,
    errors: &mut [ErrorRow],
    messages: &mut [u8],
    counts: &mut Counts,
) -> u32
    ensures done { result ≡ 0 → AreWritten (report_on (violations_by all) parse.now).faults
        (report_on (violations_by all) parse.now).violations
        (error_buffers errors.old messages.old counts.old)
        (error_buffers errors.new messages.new counts.new) }
    ensures room { result ≡ 4 → AreNumbered (report_on (violations_by all) parse.now).faults
        (report_on (violations_by all) parse.now).violations
        (error_buffers errors.old messages.old counts.old)
        (error_buffers errors.new messages.new counts.new) }
    ensures long { result ≡ 2 → AreFew (report_on (violations_by all) parse.now).faults → ⊥ }
    ensures kept { (result ≡ 0 → ⊥) → (result ≡ 4 → ⊥)
        → error_buffers errors.new messages.new counts.new
        ≡ error_buffers errors.old messages.old counts.old }
    ensures which { (result ≡ 0) ⊎ (2 ≤ result) × (result ≤ 4) }
{
    let Ok(found) = parse.errors(alloc) else {
        return NO_MEMORY;
    };
    let stored = stored_count(parse);
    let violations = found.len() - stored;
    let told = if all {
        found.as_slice()
    } else {
        &found[stored..]
    };
    write_errors(alloc, told, violations, errors, messages, counts)
}

// Writes the chosen errors of a parse.
fn write_chosen(
    alloc: Global,
    parse: &Parse<Root>,
    told: Errors,
    errors: &mut [ErrorRow],
    messages: &mut [u8],
    counts: &mut Counts,
) -> u32
    ensures done { result ≡ 0 → AreWritten (report_on told parse.now).faults
        (report_on told parse.now).violations
        (error_buffers errors.old messages.old counts.old)
        (error_buffers errors.new messages.new counts.new) }
    ensures room { result ≡ 4 → AreNumbered (report_on told parse.now).faults
        (report_on told parse.now).violations
        (error_buffers errors.old messages.old counts.old)
        (error_buffers errors.new messages.new counts.new) }
    ensures long { result ≡ 2 → AreFew (report_on told parse.now).faults → ⊥ }
    ensures kept { (result ≡ 0 → ⊥) → (result ≡ 4 → ⊥)
        → error_buffers errors.new messages.new counts.new
        ≡ error_buffers errors.old messages.old counts.old }
    ensures which { (result ≡ 0) ⊎ (2 ≤ result) × (result ≤ 4) }
{
    match told {
        Errors::Nothing => write_errors(alloc, &[], 0, errors, messages, counts),
        Errors::Parse => write_errors(alloc, parse.stored(), 0, errors, messages, counts),
        Errors::Violations => write_violations(alloc, parse, false, errors, messages, counts),
        Errors::All => write_violations(alloc, parse, true, errors, messages, counts),
    }
}

/// Writes a choice of the errors of a handle's parse, such as [`PARSE_ERRORS`], and their messages,
/// as `ras_c_rows_as` does, without rows. The counts have no rows. The handle keeps its parse.
///
/// Returns [`OK`], [`TOO_LONG`], [`NO_MEMORY`], [`NO_ROOM`], [`NO_CHOICE`], or [`NO_PARSE`] if the
/// handle holds no parse.
#[unsafe(no_mangle)]
pub extern "C" fn ras_c_errors(
    alloc: Global,
    handle: &mut Handle,
    told: u32,
    errors: &mut [ErrorRow],
    messages: &mut [u8],
    counts: &mut Counts,
) -> u32
    ensures done { result ≡ 0 → HoldsReport told handle.old.kept
        (λ r. AreWritten r.faults r.violations
        (error_buffers errors.old messages.old counts.old)
        (error_buffers errors.new messages.new counts.new)) }
    ensures room { result ≡ 4 → HoldsReport told handle.old.kept
        (λ r. AreNumbered r.faults r.violations
        (error_buffers errors.old messages.old counts.old)
        (error_buffers errors.new messages.new counts.new)) }
    ensures long { result ≡ 2 → HoldsReport told handle.old.kept (λ r. AreFew r.faults → ⊥) }
    ensures kept { (result ≡ 0 → ⊥) → (result ≡ 4 → ⊥)
        → error_buffers errors.new messages.new counts.new
        ≡ error_buffers errors.old messages.old counts.old }
    ensures choice { (result ≡ 12) ↔ (errors_of told ≡ None) }
    ensures empty { (result ≡ 7) ↔ (errors_of told ≡ None → ⊥) × (handle.old.kept ≡ None) }
    ensures same { handle.new.kept ≡ handle.old.kept }
    ensures which { (result ≡ 0) ⊎ (2 ≤ result) × (result ≤ 4) ⊎ (result ≡ 7) ⊎ (result ≡ 12) }
{
    let Some(told) = errors_of(told) else {
        return NO_CHOICE;
    };
    let Some(kept) = take(alloc, handle) else {
        return NO_PARSE;
    };
    let status = write_chosen(alloc, kept.parse(), told, errors, messages, counts);
    put(alloc, handle, kept);
    status
}
