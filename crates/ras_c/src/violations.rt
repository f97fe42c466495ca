//! The violations in one subtree, or among some rows, of a parse that is kept.
ghost use Rattle.std.specs.Prelude.{◌≡◌, ◌↔◌, ◌<◌, ◌≤◌, ◌⊎◌, map, IfOk, IfSome, None};
ghost use Rattle.tree_model.specs.Tree.{size};
ghost use Rattle.ras_parsing.specs.AllErrors.{violation_fault};
ghost use Rattle.ras_c.specs.Live.{Holds};
ghost use Rattle.ras_c.specs.Violations.{node_of_row, faults_in, faults_among, error_buffers, AreFew, AreListed, AreCounted, HoldsFaultsIn, HoldsFaultsAmong};

use crate::fill::fill;
use crate::handle::Handle;
use crate::held::{put, take};
use crate::part::row_count;
use crate::read::{Counts, ErrorRow, counts_of, error_rows, joined};
use crate::root::Root;
use crate::status::{NO_MEMORY, NO_PARSE, NO_PLACE, NO_ROOM, OK, TOO_LONG};
use lossless_tree::SyntaxNode;
use ras_front_end::SyntaxError;
use ras_parsing::Parse;
use ras_validation::{Violation, violations_among, violations_in};
use std::alloc::{AllocError, Global};

// The node at a row of the tree, if there is one.
fn node_of_row(parse: &Parse<Root>, row: usize) -> Option<SyntaxNode>
    ensures { result ≡ node_of_row parse.now.tree row }
{
    match parse.root().element_at_row(row) {
        Some(element) => element.into_node(),
        None => None,
    }
}

// A violation as an error.
fn as_error(alloc: Global, violation: Violation) -> Result<SyntaxError, AllocError>
    ensures { IfOk result (λ e. e ≡ violation_fault violation) }
{
    let message = String::from_str(alloc, violation.message())?;
    Ok(SyntaxError::new(message, violation.range))
}

// Violations as errors.
fn as_errors(alloc: Global, found: &[Violation]) -> Result<Vec<SyntaxError>, AllocError>
    ensures { IfOk result (λ v. v.items ≡ map violation_fault found.now) }
{
    let mut errors = Vec::new(alloc);
    for violation in found {
        errors.push(as_error(alloc, *violation)?)?;
    }
    Ok(errors)
}

// The violations at a node and at the nodes in it, as errors.
fn faults_in(alloc: Global, node: &SyntaxNode) -> Result<Vec<SyntaxError>, AllocError>
    ensures { IfOk result (λ v. v.items ≡ faults_in node.now) }
{
    let found = violations_in(alloc, node)?;
    as_errors(alloc, &found)
}

// The violations at the nodes of some rows of a parse's tree, as errors.
fn faults_among(
    alloc: Global,
    parse: &Parse<Root>,
    from: usize,
    to: usize,
) -> Result<Vec<SyntaxError>, AllocError>
    requires { to ≤ size parse.now.tree }
    ensures { IfOk result (λ v. v.items ≡ faults_among parse.now.tree from to) }
{
    let found = violations_among(alloc, parse.root(), from, to)?;
    as_errors(alloc, &found)
}

// Writes errors that are violations to the buffers, or counts them.
fn list(
    alloc: Global,
    found: &[SyntaxError],
    errors: &mut [ErrorRow],
    messages: &mut [u8],
    counts: &mut Counts,
) -> u32
    ensures done { result ≡ 0 → AreListed found.now
        (error_buffers errors.old messages.old counts.old)
        (error_buffers errors.new messages.new counts.new) }
    ensures room { result ≡ 4 → AreCounted found.now
        (error_buffers errors.old messages.old counts.old)
        (error_buffers errors.new messages.new counts.new) }
    ensures long { result ≡ 2 → AreFew found.now → ⊥ }
    ensures kept { (result ≡ 0 → ⊥) → (result ≡ 4 → ⊥)
        → error_buffers errors.new messages.new counts.new
        ≡ error_buffers errors.old messages.old counts.old }
    ensures which { (result ≡ 0) ⊎ (2 ≤ result) × (result ≤ 4) }
{
    let Ok(texts) = joined(alloc, found) else {
        return NO_MEMORY;
    };
    let Some(needed) = counts_of(0, found.len(), found.len(), texts.len()) else {
        return TOO_LONG;
    };
    let Ok(lines) = error_rows(alloc, found) else {
        return NO_MEMORY;
    };
    *counts = needed;
    if errors.len() < found.len() || messages.len() < texts.len() {
        return NO_ROOM;
    }
    fill(&lines, errors);
    fill(texts.as_bytes(), messages);
    OK
}

// Writes the violations in the node of a row of a parse.
fn list_in(
    alloc: Global,
    parse: &Parse<Root>,
    row: usize,
    errors: &mut [ErrorRow],
    messages: &mut [u8],
    counts: &mut Counts,
) -> u32
    ensures done { result ≡ 0
        → IfSome (node_of_row parse.now.tree row) (λ c. AreListed (faults_in c)
        (error_buffers errors.old messages.old counts.old)
        (error_buffers errors.new messages.new counts.new)) }
    ensures room { result ≡ 4
        → IfSome (node_of_row parse.now.tree row) (λ c. AreCounted (faults_in c)
        (error_buffers errors.old messages.old counts.old)
        (error_buffers errors.new messages.new counts.new)) }
    ensures long { result ≡ 2
        → IfSome (node_of_row parse.now.tree row) (λ c. AreFew (faults_in c) → ⊥) }
    ensures kept { (result ≡ 0 → ⊥) → (result ≡ 4 → ⊥)
        → error_buffers errors.new messages.new counts.new
        ≡ error_buffers errors.old messages.old counts.old }
    ensures place { (result ≡ 6) ↔ (node_of_row parse.now.tree row ≡ None) }
    ensures which { (result ≡ 0) ⊎ (2 ≤ result) × (result ≤ 4) ⊎ (result ≡ 6) }
{
    let Some(node) = node_of_row(parse, row) else {
        return NO_PLACE;
    };
    match faults_in(alloc, &node) {
        Ok(found) => list(alloc, &found, errors, messages, counts),
        Err(_) => NO_MEMORY,
    }
}

/// Writes the violations of rules beyond the grammar at the node of a row of a handle's parse, and
/// at the nodes in it: a part of those of the whole parse, which stand together in them, in the
/// same order, with positions in the whole text. It walks through this node alone. A row's number
/// is that in the rows of the whole parse, such as those of `ras_c_rows`. The counts have no rows.
/// The handle keeps its parse.
///
/// Returns [`OK`], [`TOO_LONG`], [`NO_MEMORY`], [`NO_ROOM`], [`NO_PARSE`] if the handle holds no
/// parse, or [`NO_PLACE`] if the tree has no such row, or that of a token.
#[unsafe(no_mangle)]
pub extern "C" fn ras_c_violations_at(
    alloc: Global,
    handle: &mut Handle,
    row: u32,
    errors: &mut [ErrorRow],
    messages: &mut [u8],
    counts: &mut Counts,
) -> u32
    ensures done { result ≡ 0 → HoldsFaultsIn row handle.old.kept (λ faults. AreListed faults
        (error_buffers errors.old messages.old counts.old)
        (error_buffers errors.new messages.new counts.new)) }
    ensures room { result ≡ 4 → HoldsFaultsIn row handle.old.kept (λ faults. AreCounted faults
        (error_buffers errors.old messages.old counts.old)
        (error_buffers errors.new messages.new counts.new)) }
    ensures long { result ≡ 2 → HoldsFaultsIn row handle.old.kept (λ faults. AreFew faults → ⊥) }
    ensures kept { (result ≡ 0 → ⊥) → (result ≡ 4 → ⊥)
        → error_buffers errors.new messages.new counts.new
        ≡ error_buffers errors.old messages.old counts.old }
    ensures empty { (result ≡ 7) ↔ (handle.old.kept ≡ None) }
    ensures place { (result ≡ 6) ↔ Holds handle.old.kept (λ p. node_of_row p.tree row ≡ None) }
    ensures same { handle.new.kept ≡ handle.old.kept }
    ensures which { (result ≡ 0) ⊎ (2 ≤ result) × (result ≤ 4) ⊎ (6 ≤ result) × (result ≤ 7) }
{
    let Some(kept) = take(alloc, handle) else {
        return NO_PARSE;
    };
    let parse = kept.parse();
    let status = list_in(alloc, parse, row as usize, errors, messages, counts);
    put(alloc, handle, kept);
    status
}

// Writes the violations at the nodes of some rows of a parse.
fn list_among(
    alloc: Global,
    parse: &Parse<Root>,
    from: usize,
    to: usize,
    errors: &mut [ErrorRow],
    messages: &mut [u8],
    counts: &mut Counts,
) -> u32
    ensures done { result ≡ 0 → AreListed (faults_among parse.now.tree from to)
        (error_buffers errors.old messages.old counts.old)
        (error_buffers errors.new messages.new counts.new) }
    ensures room { result ≡ 4 → AreCounted (faults_among parse.now.tree from to)
        (error_buffers errors.old messages.old counts.old)
        (error_buffers errors.new messages.new counts.new) }
    ensures long { result ≡ 2 → AreFew (faults_among parse.now.tree from to) → ⊥ }
    ensures kept { (result ≡ 0 → ⊥) → (result ≡ 4 → ⊥)
        → error_buffers errors.new messages.new counts.new
        ≡ error_buffers errors.old messages.old counts.old }
    ensures place { (result ≡ 6) ↔ (size parse.now.tree < to) }
    ensures which { (result ≡ 0) ⊎ (2 ≤ result) × (result ≤ 4) ⊎ (result ≡ 6) }
{
    if to > row_count(parse) {
        return NO_PLACE;
    }
    match faults_among(alloc, parse, from, to) {
        Ok(found) => list(alloc, &found, errors, messages, counts),
        Err(_) => NO_MEMORY,
    }
}

/// Writes the violations of rules beyond the grammar at the nodes of a handle's parse whose rows
/// have the numbers from `from` to before `to`. Those of the whole parse are those among its first
/// rows, and then those among the rest, as they are written here. The counts have no rows. The
/// handle keeps its parse.
///
/// Returns [`OK`], [`TOO_LONG`], [`NO_MEMORY`], [`NO_ROOM`], [`NO_PARSE`] if the handle holds no
/// parse, or [`NO_PLACE`] if the tree has fewer than `to` rows.
#[unsafe(no_mangle)]
pub extern "C" fn ras_c_violations_among(
    alloc: Global,
    handle: &mut Handle,
    from: u32,
    to: u32,
    errors: &mut [ErrorRow],
    messages: &mut [u8],
    counts: &mut Counts,
) -> u32
    ensures done { result ≡ 0 → HoldsFaultsAmong from to handle.old.kept (λ faults. AreListed faults
        (error_buffers errors.old messages.old counts.old)
        (error_buffers errors.new messages.new counts.new)) }
    ensures room { result ≡ 4
        → HoldsFaultsAmong from to handle.old.kept (λ faults. AreCounted faults
        (error_buffers errors.old messages.old counts.old)
        (error_buffers errors.new messages.new counts.new)) }
    ensures long { result ≡ 2 → HoldsFaultsAmong from to handle.old.kept
        (λ faults. AreFew faults → ⊥) }
    ensures kept { (result ≡ 0 → ⊥) → (result ≡ 4 → ⊥)
        → error_buffers errors.new messages.new counts.new
        ≡ error_buffers errors.old messages.old counts.old }
    ensures empty { (result ≡ 7) ↔ (handle.old.kept ≡ None) }
    ensures place { (result ≡ 6) ↔ Holds handle.old.kept (λ p. size p.tree < to) }
    ensures same { handle.new.kept ≡ handle.old.kept }
    ensures which { (result ≡ 0) ⊎ (2 ≤ result) × (result ≤ 4) ⊎ (6 ≤ result) × (result ≤ 7) }
{
    let Some(kept) = take(alloc, handle) else {
        return NO_PARSE;
    };
    let parse = kept.parse();
    let (first, end) = (from as usize, to as usize);
    let status = list_among(alloc, parse, first, end, errors, messages, counts);
    put(alloc, handle, kept);
    status
}
