//! Rows and errors of a text.
ghost use Rattle.std.specs.Prelude.{◌≡◌, ◌↔◌, ◌≤◌, ◌<◌, ◌^◌, ◌⊎◌, length, map, IfOk, IfSome, IsUtf8, None, string_bytes};
ghost use Rattle.tree_model.specs.Tree.{size};
ghost use Rattle.tree_model.specs.Cursor.{focus};
ghost use Rattle.tree_rows.specs.Flat.{flat_rows};
ghost use Rattle.ras_c.specs.Border.{edition_of, entry_of, errors_of, over};
ghost use Rattle.ras_c.specs.Read.{error_row, messages_of, report, report_at, report_on, violations_by, IsTold, IsCut, IsSmall, IsReadBy, Reports, ReportsBy, buffers};

use crate::choice::{ALL_ERRORS, ENTRY_EXPR, ENTRY_FILE, Errors, entry_of, errors_of};
use crate::fill::{fill, small};
use crate::parsed::parsed_as;
use crate::root::Root;
use crate::status::{NO_CHOICE, NO_ENTRY, NO_MEMORY, NO_ROOM, OK, TOO_LONG};
use lossless_tree::{FlatRow, SyntaxNode};
use ras_front_end::SyntaxError;
use ras_parsing::Parse;
use rust_front::TopEntryPoint;
use std::alloc::{AllocError, Global};

/// One error: its range in the text, in bytes, and the length of its message.
#[repr(C)]
#[derive(Clone, Copy)]
pub struct ErrorRow {
    /// The byte where its range starts.
    pub start: u32,
    /// The byte where its range ends.
    pub end: u32,
    /// The length of its message in bytes. The messages are stored one after another.
    pub message: u32,
}

/// How many rows, errors and bytes of messages a text has.
#[repr(C)]
#[derive(Clone, Copy)]
pub struct Counts {
    /// The nodes and tokens of its tree.
    pub rows: u32,
    /// Its errors: those of the parser, then those of the lexer, then the violations of rules
    /// beyond the grammar.
    pub errors: u32,
    /// How many of the errors are such violations. They are the last ones.
    pub violations: u32,
    /// The bytes of all messages.
    pub messages: u32,
}

// One error as a row. A message has fewer than 2^32 bytes where all together have.
fn error_row(error: &SyntaxError) -> ErrorRow
    requires { length error.now.message < 2 ^ 32 }
    ensures { result ≡ error_row error.now }
{
    let range = error.range();
    let message = error.message().len() as u32;
    ErrorRow {
        start: range.start().raw(),
        end: range.end().raw(),
        message,
    }
}

/// Errors as rows, in order.
pub(crate) fn error_rows(alloc: Global, errors: &[SyntaxError]) -> Result<Vec<ErrorRow>, AllocError>
    requires { length (messages_of errors.now) < 2 ^ 32 }
    ensures { IfOk result (λ v. v.items ≡ map error_row errors.now) }
{
    let mut rows = Vec::new(alloc);
    for error in errors {
        rows.push(error_row(error))?;
    }
    Ok(rows)
}

/// The messages of errors, one after another.
pub(crate) fn joined(alloc: Global, errors: &[SyntaxError]) -> Result<String, AllocError>
    ensures { IfOk result (λ s. string_bytes s ≡ messages_of errors.now) }
{
    let mut messages = String::new(alloc);
    for error in errors {
        messages.push_str(error.message())?;
    }
    Ok(messages)
}

/// The counts of a report, or `None` if one of them has more than 32 bits.
pub(crate) fn counts_of(
    rows: usize,
    errors: usize,
    violations: usize,
    messages: usize,
) -> Option<Counts>
    ensures some { IfSome result (λ c. c
        ≡ record
        { rows = rows; errors = errors; violations = violations; messages = messages }) }
    ensures fits { IfSome result (λ _. (rows < 2 ^ 32) × (errors < 2 ^ 32) × (messages < 2 ^ 32)) }
    ensures none { result ≡ None → rows < 2 ^ 32 → errors < 2 ^ 32 → violations < 2 ^ 32
        → messages < 2 ^ 32 → ⊥ }
{
    Some(Counts {
        rows: small(rows)?,
        errors: small(errors)?,
        violations: small(violations)?,
        messages: small(messages)?,
    })
}

// Writes the rows of a node's tree to the front of `rows`, where there is room, and counts them.
fn write_rows(node: &SyntaxNode, rows: &mut [FlatRow]) -> usize
    ensures count { result ≡ size (focus node.now) }
    ensures written { size (focus node.now) ≤ length rows.old → size (focus node.now) < 2 ^ 32
        → rows.new ≡ over (flat_rows (focus node.now)) rows.old }
    ensures unchanged { (length rows.old < size (focus node.now)) ⊎ (2 ^ 32 ≤ size (focus node.now))
        → rows.new ≡ rows.old }
{
    node.write_flat_rows(rows)
}

/// How many errors a parse has without the violations.
pub(crate) fn stored_count(parse: &Parse<Root>) -> usize
    ensures { result ≡ length parse.now.errors }
{
    parse.stored().len()
}

// Writes a report on a node's tree with some errors. The last `violations` of them are violations.
fn write_report(
    alloc: Global,
    node: &SyntaxNode,
    found: &[SyntaxError],
    violations: usize,
    rows: &mut [FlatRow],
    errors: &mut [ErrorRow],
    messages: &mut [u8],
    counts: &mut Counts,
) -> u32
    requires { violations ≤ length found.now }
    ensures done { result ≡ 0 → IsTold (report (focus node.now) found.now violations)
        (buffers rows.old errors.old messages.old counts.old)
        (buffers rows.new errors.new messages.new counts.new) }
    ensures room { result ≡ 4 → IsCut (report (focus node.now) found.now violations)
        (buffers rows.old errors.old messages.old counts.old)
        (buffers rows.new errors.new messages.new counts.new) }
    ensures long { result ≡ 2 → IsSmall (report (focus node.now) found.now violations) → ⊥ }
    ensures kept { (result ≡ 0 → ⊥) → (result ≡ 4 → ⊥)
        → buffers rows.new errors.new messages.new counts.new
        ≡ buffers rows.old errors.old messages.old counts.old }
    ensures which { (result ≡ 0) ⊎ (2 ≤ result) × (result ≤ 4) }
{
    let row_count = write_rows(node, &mut []);
    let Ok(texts) = joined(alloc, found) else {
        return NO_MEMORY;
    };
    let Some(needed) = counts_of(row_count, found.len(), violations, texts.len()) else {
        return TOO_LONG;
    };
    let Ok(lines) = error_rows(alloc, found) else {
        return NO_MEMORY;
    };
    *counts = needed;
    if rows.len() < row_count || errors.len() < found.len() || messages.len() < texts.len() {
        return NO_ROOM;
    }
    write_rows(node, rows);
    fill(&lines, errors);
    fill(texts.as_bytes(), messages);
    OK
}

// The report with the violations, and also with the errors of the parse if `all`.
#[tactic(auto, using(crate::proofs::ReadLemmas::all_counted, crate::proofs::ReadLemmas::stored_within, crate::proofs::ReadLemmas::behind_stored))]
fn tell_violations(
    alloc: Global,
    parse: &Parse<Root>,
    node: &SyntaxNode,
    all: bool,
    rows: &mut [FlatRow],
    errors: &mut [ErrorRow],
    messages: &mut [u8],
    counts: &mut Counts,
) -> u32
    ensures done { result ≡ 0 → IsTold (report_at (focus node.now) (violations_by all) parse.now)
        (buffers rows.old errors.old messages.old counts.old)
        (buffers rows.new errors.new messages.new counts.new) }
    ensures room { result ≡ 4 → IsCut (report_at (focus node.now) (violations_by all) parse.now)
        (buffers rows.old errors.old messages.old counts.old)
        (buffers rows.new errors.new messages.new counts.new) }
    ensures long { result ≡ 2 → IsSmall (report_at (focus node.now) (violations_by all) parse.now)
        → ⊥ }
    ensures kept { (result ≡ 0 → ⊥) → (result ≡ 4 → ⊥)
        → buffers rows.new errors.new messages.new counts.new
        ≡ buffers rows.old errors.old messages.old counts.old }
    ensures which { (result ≡ 0) ⊎ (2 ≤ result) × (result ≤ 4) }
{
    let Ok(found) = parse.errors(alloc) else {
        return NO_MEMORY;
    };
    let stored = stored_count(parse);
    let violations = found.len() - stored;
    let told = if all {
        found.as_slice()
    } else {
        &found[stored..]
    };
    write_report(
        alloc, node, told, violations, rows, errors, messages, counts,
    )
}

/// Writes a report on a node of a parse: the rows of the node's tree, the chosen errors of the
/// whole parse and their messages, and the counts of these.
pub(crate) fn tell_at(
    alloc: Global,
    parse: &Parse<Root>,
    node: &SyntaxNode,
    told: Errors,
    rows: &mut [FlatRow],
    errors: &mut [ErrorRow],
    messages: &mut [u8],
    counts: &mut Counts,
) -> u32
    ensures done { result ≡ 0 → IsTold (report_at (focus node.now) told parse.now)
        (buffers rows.old errors.old messages.old counts.old)
        (buffers rows.new errors.new messages.new counts.new) }
    ensures room { result ≡ 4 → IsCut (report_at (focus node.now) told parse.now)
        (buffers rows.old errors.old messages.old counts.old)
        (buffers rows.new errors.new messages.new counts.new) }
    ensures long { result ≡ 2 → IsSmall (report_at (focus node.now) told parse.now) → ⊥ }
    ensures kept { (result ≡ 0 → ⊥) → (result ≡ 4 → ⊥)
        → buffers rows.new errors.new messages.new counts.new
        ≡ buffers rows.old errors.old messages.old counts.old }
    ensures which { (result ≡ 0) ⊎ (2 ≤ result) × (result ≤ 4) }
{
    match told {
        Errors::Nothing => write_report(alloc, node, &[], 0, rows, errors, messages, counts),
        Errors::Parse => {
            let found = parse.stored();
            write_report(alloc, node, found, 0, rows, errors, messages, counts)
        }
        Errors::Violations => {
            tell_violations(alloc, parse, node, false, rows, errors, messages, counts)
        }
        Errors::All => tell_violations(alloc, parse, node, true, rows, errors, messages, counts),
    }
}

/// Writes a report on a parse: its rows, the chosen errors and their messages, and the counts of
/// these.
pub(crate) fn tell(
    alloc: Global,
    parse: &Parse<Root>,
    told: Errors,
    rows: &mut [FlatRow],
    errors: &mut [ErrorRow],
    messages: &mut [u8],
    counts: &mut Counts,
) -> u32
    ensures done { result ≡ 0 → IsTold (report_on told parse.now)
        (buffers rows.old errors.old messages.old counts.old)
        (buffers rows.new errors.new messages.new counts.new) }
    ensures room { result ≡ 4 → IsCut (report_on told parse.now)
        (buffers rows.old errors.old messages.old counts.old)
        (buffers rows.new errors.new messages.new counts.new) }
    ensures long { result ≡ 2 → IsSmall (report_on told parse.now) → ⊥ }
    ensures kept { (result ≡ 0 → ⊥) → (result ≡ 4 → ⊥)
        → buffers rows.new errors.new messages.new counts.new
        ≡ buffers rows.old errors.old messages.old counts.old }
    ensures which { (result ≡ 0) ⊎ (2 ≤ result) × (result ≤ 4) }
{
    let root = parse.root();
    tell_at(alloc, parse, root, told, rows, errors, messages, counts)
}

// The report on the parse of a text by an entry.
fn read_told(
    alloc: Global,
    entry: TopEntryPoint,
    told: Errors,
    text: &[u8],
    edition: u32,
    rows: &mut [FlatRow],
    errors: &mut [ErrorRow],
    messages: &mut [u8],
    counts: &mut Counts,
) -> u32
    ensures done { result ≡ 0 → Reports entry told edition text.now (λ r. IsTold r
        (buffers rows.old errors.old messages.old counts.old)
        (buffers rows.new errors.new messages.new counts.new)) }
    ensures room { result ≡ 4 → Reports entry told edition text.now (λ r. IsCut r
        (buffers rows.old errors.old messages.old counts.old)
        (buffers rows.new errors.new messages.new counts.new)) }
    ensures kept { (result ≡ 0 → ⊥) → (result ≡ 4 → ⊥)
        → buffers rows.new errors.new messages.new counts.new
        ≡ buffers rows.old errors.old messages.old counts.old }
    ensures utf8 { (result ≡ 1) ↔ (edition_of edition ≡ None → ⊥) × (IsUtf8 text.now → ⊥) }
    ensures long { result ≡ 2 → (2 ^ 32 ≤ length text.now)
        ⊎ Reports entry told edition text.now (λ r. IsSmall r → ⊥) }
    ensures edition { (result ≡ 5) ↔ (edition_of edition ≡ None) }
    ensures which { result ≤ 5 }
{
    match parsed_as(alloc, entry, text, edition) {
        Ok(parse) => tell(alloc, &parse, told, rows, errors, messages, counts),
        Err(status) => status,
    }
}

/// Parses a text as a Rust file of an edition, such as 2024. Writes the tree as rows in preorder,
/// the errors, and their messages one after another, each to the front of its buffer.
///
/// Returns [`OK`], [`NOT_UTF8`], [`TOO_LONG`], [`NO_MEMORY`], [`NO_ROOM`] or [`NO_EDITION`]. Text
/// with syntax errors has a tree too. A text of n bytes seldom has more than 2 n rows.
#[unsafe(no_mangle)]
pub extern "C" fn ras_c_read(
    alloc: Global,
    text: &[u8],
    edition: u32,
    rows: &mut [FlatRow],
    errors: &mut [ErrorRow],
    messages: &mut [u8],
    counts: &mut Counts,
) -> u32
    ensures { IsReadBy 0 3 edition text.now result
        (buffers rows.old errors.old messages.old counts.old)
        (buffers rows.new errors.new messages.new counts.new) }
{
    ras_c_read_as(
        alloc, ENTRY_FILE, ALL_ERRORS, text, edition, rows, errors, messages, counts,
    )
}

/// Parses a text as an expression of an edition, and writes what `ras_c_read` writes for a file.
/// The root is a node of an expression, or `ERROR` if the text is not one expression. If only its
/// beginning is one, as in `a b`, there may be no errors.
///
/// Returns [`OK`], [`NOT_UTF8`], [`TOO_LONG`], [`NO_MEMORY`], [`NO_ROOM`] or [`NO_EDITION`].
#[unsafe(no_mangle)]
pub extern "C" fn ras_c_read_expr(
    alloc: Global,
    text: &[u8],
    edition: u32,
    rows: &mut [FlatRow],
    errors: &mut [ErrorRow],
    messages: &mut [u8],
    counts: &mut Counts,
) -> u32
    ensures { IsReadBy 1 3 edition text.now result
        (buffers rows.old errors.old messages.old counts.old)
        (buffers rows.new errors.new messages.new counts.new) }
{
    ras_c_read_as(
        alloc, ENTRY_EXPR, ALL_ERRORS, text, edition, rows, errors, messages, counts,
    )
}

/// Parses a text by an entry, such as [`ENTRY_TYPE`], and writes what `ras_c_read` writes for a
/// file, with a choice of errors, such as [`PARSE_ERRORS`]. The counts are those of the chosen
/// errors.
///
/// Returns [`OK`], [`NOT_UTF8`], [`TOO_LONG`], [`NO_MEMORY`], [`NO_ROOM`], [`NO_EDITION`],
/// [`NO_ENTRY`] or [`NO_CHOICE`]. The violations of rules beyond the grammar are looked for only if
/// they are chosen: they take a further walk through the tree.
#[unsafe(no_mangle)]
pub extern "C" fn ras_c_read_as(
    alloc: Global,
    entry: u32,
    told: u32,
    text: &[u8],
    edition: u32,
    rows: &mut [FlatRow],
    errors: &mut [ErrorRow],
    messages: &mut [u8],
    counts: &mut Counts,
) -> u32
    ensures done { result ≡ 0 → ReportsBy entry told edition text.now (λ r. IsTold r
        (buffers rows.old errors.old messages.old counts.old)
        (buffers rows.new errors.new messages.new counts.new)) }
    ensures room { result ≡ 4 → ReportsBy entry told edition text.now (λ r. IsCut r
        (buffers rows.old errors.old messages.old counts.old)
        (buffers rows.new errors.new messages.new counts.new)) }
    ensures kept { (result ≡ 0 → ⊥) → (result ≡ 4 → ⊥)
        → buffers rows.new errors.new messages.new counts.new
        ≡ buffers rows.old errors.old messages.old counts.old }
    ensures entry { (result ≡ 11) ↔ (entry_of entry ≡ None) }
    ensures choice { (result ≡ 12) ↔ (entry_of entry ≡ None → ⊥) × (errors_of told ≡ None) }
    ensures edition { (result ≡ 5) ↔ (entry_of entry ≡ None → ⊥) × (errors_of told ≡ None → ⊥)
        × (edition_of edition ≡ None) }
    ensures utf8 { (result ≡ 1) ↔ (entry_of entry ≡ None → ⊥) × (errors_of told ≡ None → ⊥)
        × (edition_of edition ≡ None → ⊥) × (IsUtf8 text.now → ⊥) }
    ensures long { result ≡ 2 → (2 ^ 32 ≤ length text.now)
        ⊎ ReportsBy entry told edition text.now (λ r. IsSmall r → ⊥) }
    ensures which { (result ≤ 5) ⊎ (11 ≤ result) × (result ≤ 12) }
{
    let Some(entry) = entry_of(entry) else {
        return NO_ENTRY;
    };
    let Some(told) = errors_of(told) else {
        return NO_CHOICE;
    };
    read_told(
        alloc, entry, told, text, edition, rows, errors, messages, counts,
    )
}
