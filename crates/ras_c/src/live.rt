//! Parses that are kept and edited.
ghost use Rattle.std.specs.Prelude.{◌≡◌, ◌<◌, ◌≤◌, ◌^◌, ◌⊎◌, ◌↔◌, length, IfSome, IsUtf8, None, Some};
ghost use Rattle.tree_model.specs.Tree.{text};
ghost use Rattle.tree_model.specs.Edit.{root_of};
ghost use Rattle.ras_parsing.specs.Edit.{IsEditOf, edited};
ghost use Rattle.ras_c.specs.Border.{edition_of, errors_of};
ghost use Rattle.ras_c.specs.Read.{report_at, report_on, IsTold, IsCut, IsSmall, buffers};
ghost use Rattle.ras_c.specs.Kept.{IsRead};
ghost use Rattle.ras_c.specs.Live.{edit_from, node_around, tree_around, AreRowsBy, Holds, HoldsRead, HoldsEdited, HoldsAgain, HoldsReport, HoldsReportAt, IsIn};

use crate::choice::{ALL_ERRORS, Errors, errors_of};
use crate::handle::Handle;
use crate::held::{put, take};
use crate::kept::KeptParse;
use crate::parens::Range;
use crate::read::{Counts, ErrorRow, tell, tell_at};
use crate::root::Root;
use crate::status::{
    NO_CHOICE, NO_EDITION, NO_MEMORY, NO_PARSE, NO_PLACE, NOT_UTF8, OK, TOO_LONG, edition_of,
};
use lossless_tree::{FlatRow, NodeOrToken, SyntaxNode, TextRange, TextSize};
use ras_front_end::ParseError;
use ras_parsing::Parse;
use std::alloc::Global;

/// Parses a text as a Rust file of an edition, such as 2024, and puts the parse into a handle. A
/// parse that the handle held is freed.
///
/// Returns [`OK`], [`NOT_UTF8`], [`TOO_LONG`], [`NO_MEMORY`] or [`NO_EDITION`]. Unless it is
/// [`OK`], the handle is not changed.
#[unsafe(no_mangle)]
pub extern "C" fn ras_c_parse(alloc: Global, text: &[u8], edition: u32, handle: &mut Handle) -> u32
    ensures done { result ≡ 0 → HoldsRead edition text.now handle.new.kept }
    ensures kept { (result ≡ 0 → ⊥) → handle.new.kept ≡ handle.old.kept }
    ensures utf8 { (result ≡ 1) ↔ (edition_of edition ≡ None → ⊥) × (IsUtf8 text.now → ⊥) }
    ensures long { (result ≡ 2)
        ↔ (edition_of edition ≡ None → ⊥) × IsUtf8 text.now × (2 ^ 32 ≤ length text.now) }
    ensures edition { (result ≡ 5) ↔ (edition_of edition ≡ None) }
    ensures which { (result ≤ 3) ⊎ (result ≡ 5) }
{
    let Some(edition) = edition_of(edition) else {
        return NO_EDITION;
    };
    let Ok(text) = str::from_utf8(text) else {
        return NOT_UTF8;
    };
    let kept = match KeptParse::new(alloc, text, edition) {
        Ok(kept) => kept,
        Err(ParseError::TooLong) => return TOO_LONG,
        Err(ParseError::Memory) => return NO_MEMORY,
    };
    match Box::new(alloc, kept) {
        Ok(kept) => {
            put(alloc, handle, kept);
            OK
        }
        Err(_) => NO_MEMORY,
    }
}

// Writes a report on a handle's parse.
fn rows_told(
    alloc: Global,
    handle: &mut Handle,
    told: Errors,
    rows: &mut [FlatRow],
    errors: &mut [ErrorRow],
    messages: &mut [u8],
    counts: &mut Counts,
) -> u32
    ensures done { result ≡ 0 → Holds handle.old.kept (λ p. IsTold (report_on told p)
        (buffers rows.old errors.old messages.old counts.old)
        (buffers rows.new errors.new messages.new counts.new)) }
    ensures room { result ≡ 4 → Holds handle.old.kept (λ p. IsCut (report_on told p)
        (buffers rows.old errors.old messages.old counts.old)
        (buffers rows.new errors.new messages.new counts.new)) }
    ensures long { result ≡ 2 → Holds handle.old.kept (λ p. IsSmall (report_on told p) → ⊥) }
    ensures kept { (result ≡ 0 → ⊥) → (result ≡ 4 → ⊥)
        → buffers rows.new errors.new messages.new counts.new
        ≡ buffers rows.old errors.old messages.old counts.old }
    ensures empty { (result ≡ 7) ↔ (handle.old.kept ≡ None) }
    ensures same { handle.new.kept ≡ handle.old.kept }
    ensures read { IfSome handle.old.kept (λ k. IsRead (text k.parse.tree) k) }
    ensures which { (result ≡ 0) ⊎ (2 ≤ result) × (result ≤ 4) ⊎ (result ≡ 7) }
{
    let Some(kept) = take(alloc, handle) else {
        return NO_PARSE;
    };
    let parse = kept.parse();
    let status = tell(alloc, parse, told, rows, errors, messages, counts);
    put(alloc, handle, kept);
    status
}

/// Writes the rows, errors and messages of a handle's parse, as `ras_c_read` does for a text. The
/// handle keeps its parse.
///
/// Returns [`OK`], [`TOO_LONG`], [`NO_MEMORY`], [`NO_ROOM`], or [`NO_PARSE`] if the handle holds no
/// parse.
#[unsafe(no_mangle)]
pub extern "C" fn ras_c_rows(
    alloc: Global,
    handle: &mut Handle,
    rows: &mut [FlatRow],
    errors: &mut [ErrorRow],
    messages: &mut [u8],
    counts: &mut Counts,
) -> u32
    ensures told { AreRowsBy 3 handle.old.kept result
        (buffers rows.old errors.old messages.old counts.old)
        (buffers rows.new errors.new messages.new counts.new) }
    ensures same { handle.new.kept ≡ handle.old.kept }
{
    ras_c_rows_as(alloc, handle, ALL_ERRORS, rows, errors, messages, counts)
}

/// Writes the rows of a handle's parse with a choice of errors, such as [`PARSE_ERRORS`], as
/// `ras_c_read_as` does for a text. The handle keeps its parse.
///
/// Returns [`OK`], [`TOO_LONG`], [`NO_MEMORY`], [`NO_ROOM`], [`NO_CHOICE`], or [`NO_PARSE`] if the
/// handle holds no parse.
#[unsafe(no_mangle)]
pub extern "C" fn ras_c_rows_as(
    alloc: Global,
    handle: &mut Handle,
    told: u32,
    rows: &mut [FlatRow],
    errors: &mut [ErrorRow],
    messages: &mut [u8],
    counts: &mut Counts,
) -> u32
    ensures done { result ≡ 0 → HoldsReport told handle.old.kept (λ r. IsTold r
        (buffers rows.old errors.old messages.old counts.old)
        (buffers rows.new errors.new messages.new counts.new)) }
    ensures room { result ≡ 4 → HoldsReport told handle.old.kept (λ r. IsCut r
        (buffers rows.old errors.old messages.old counts.old)
        (buffers rows.new errors.new messages.new counts.new)) }
    ensures long { result ≡ 2 → HoldsReport told handle.old.kept (λ r. IsSmall r → ⊥) }
    ensures kept { (result ≡ 0 → ⊥) → (result ≡ 4 → ⊥)
        → buffers rows.new errors.new messages.new counts.new
        ≡ buffers rows.old errors.old messages.old counts.old }
    ensures choice { (result ≡ 12) ↔ (errors_of told ≡ None) }
    ensures empty { (result ≡ 7) ↔ (errors_of told ≡ None → ⊥) × (handle.old.kept ≡ None) }
    ensures same { handle.new.kept ≡ handle.old.kept }
    ensures read { (result ≡ 12 → ⊥)
        → IfSome handle.old.kept (λ k. IsRead (text k.parse.tree) k) }
    ensures which { (result ≡ 0) ⊎ (2 ≤ result) × (result ≤ 4) ⊎ (result ≡ 7) ⊎ (result ≡ 12) }
{
    let Some(told) = errors_of(told) else {
        return NO_CHOICE;
    };
    rows_told(alloc, handle, told, rows, errors, messages, counts)
}

// The innermost node around a range of the text: what covers it, or the node that this token is in.
fn node_around(parse: &Parse<Root>, range: TextRange) -> SyntaxNode
    ensures { result ≡ node_around (root_of parse.now.tree) range }
{
    match parse.root().covering_element(range) {
        NodeOrToken::Node(node) => node,
        NodeOrToken::Token(token) => match token.parent() {
            Some(node) => node,
            None => parse.syntax_node(),
        },
    }
}

// Writes a report on the innermost node around a range.
fn tell_around(
    alloc: Global,
    parse: &Parse<Root>,
    told: Errors,
    start: u32,
    end: u32,
    rows: &mut [FlatRow],
    errors: &mut [ErrorRow],
    messages: &mut [u8],
    counts: &mut Counts,
) -> u32
    ensures done { result ≡ 0
        → IsTold (report_at (tree_around parse.now.tree start end) told parse.now)
        (buffers rows.old errors.old messages.old counts.old)
        (buffers rows.new errors.new messages.new counts.new) }
    ensures room { result ≡ 4
        → IsCut (report_at (tree_around parse.now.tree start end) told parse.now)
        (buffers rows.old errors.old messages.old counts.old)
        (buffers rows.new errors.new messages.new counts.new) }
    ensures long { result ≡ 2
        → IsSmall (report_at (tree_around parse.now.tree start end) told parse.now) → ⊥ }
    ensures kept { (result ≡ 0 → ⊥) → (result ≡ 4 → ⊥)
        → buffers rows.new errors.new messages.new counts.new
        ≡ buffers rows.old errors.old messages.old counts.old }
    ensures place { (result ≡ 6) ↔ (IsIn (text parse.now.tree) start end → ⊥) }
    ensures which { (result ≡ 0) ⊎ (2 ≤ result) × (result ≤ 4) ⊎ (result ≡ 6) }
{
    if start > end || end as usize > parse.root().as_str().len() {
        return NO_PLACE;
    }
    let range = TextRange::new(TextSize::new(start), TextSize::new(end));
    let node = node_around(parse, range);
    tell_at(alloc, parse, &node, told, rows, errors, messages, counts)
}

/// Writes the rows of the innermost node of a handle's parse that covers a range of the text, as a
/// tree of its own: positions count from the node's start, and rows from its row, which is row 0
/// here. The errors are those of the whole parse, by a choice, such as [`PARSE_ERRORS`], with
/// positions in the whole text. The handle keeps its parse. Of a range that `ras_c_edit_told`
/// wrote, if it is not the whole text, the node is the block that was parsed again, or has the
/// token as a child that got another text.
///
/// Returns [`OK`], [`TOO_LONG`], [`NO_MEMORY`], [`NO_ROOM`], [`NO_CHOICE`], [`NO_PARSE`] if the
/// handle holds no parse, or [`NO_PLACE`] if the text has no such range.
#[unsafe(no_mangle)]
pub extern "C" fn ras_c_rows_at(
    alloc: Global,
    handle: &mut Handle,
    told: u32,
    start: u32,
    end: u32,
    rows: &mut [FlatRow],
    errors: &mut [ErrorRow],
    messages: &mut [u8],
    counts: &mut Counts,
) -> u32
    ensures done { result ≡ 0 → HoldsReportAt told start end handle.old.kept (λ r. IsTold r
        (buffers rows.old errors.old messages.old counts.old)
        (buffers rows.new errors.new messages.new counts.new)) }
    ensures room { result ≡ 4 → HoldsReportAt told start end handle.old.kept (λ r. IsCut r
        (buffers rows.old errors.old messages.old counts.old)
        (buffers rows.new errors.new messages.new counts.new)) }
    ensures long { result ≡ 2
        → HoldsReportAt told start end handle.old.kept (λ r. IsSmall r → ⊥) }
    ensures kept { (result ≡ 0 → ⊥) → (result ≡ 4 → ⊥)
        → buffers rows.new errors.new messages.new counts.new
        ≡ buffers rows.old errors.old messages.old counts.old }
    ensures choice { (result ≡ 12) ↔ (errors_of told ≡ None) }
    ensures empty { (result ≡ 7) ↔ (errors_of told ≡ None → ⊥) × (handle.old.kept ≡ None) }
    ensures place { (result ≡ 6) ↔ (errors_of told ≡ None → ⊥)
        × Holds handle.old.kept (λ p. IsIn (text p.tree) start end → ⊥) }
    ensures same { handle.new.kept ≡ handle.old.kept }
    ensures read { (result ≡ 12 → ⊥)
        → IfSome handle.old.kept (λ k. IsRead (text k.parse.tree) k) }
    ensures which { (result ≡ 0) ⊎ (2 ≤ result) × (result ≤ 4) ⊎ (6 ≤ result) × (result ≤ 7)
        ⊎ (result ≡ 12) }
{
    let Some(told) = errors_of(told) else {
        return NO_CHOICE;
    };
    let Some(kept) = take(alloc, handle) else {
        return NO_PARSE;
    };
    let parse = kept.parse();
    let status = tell_around(
        alloc, parse, told, start, end, rows, errors, messages, counts,
    );
    put(alloc, handle, kept);
    status
}

/// Edits the text of a handle's parse: `insert` replaces the bytes from `start` to `end`, and the
/// handle then holds the parse of the new text: the same tree and errors that `ras_c_parse` would
/// make. In the edition that the parse is of, one token gets another text or one block is parsed
/// again, if that is enough; in another edition the whole text is parsed.
///
/// Returns [`OK`], [`NOT_UTF8`], [`TOO_LONG`], [`NO_MEMORY`], [`NO_EDITION`], [`NO_PARSE`] if the
/// handle holds no parse, or [`NO_PLACE`] if the range is not in the text or not on character
/// boundaries. Unless it is [`OK`], the handle is not changed.
#[unsafe(no_mangle)]
pub extern "C" fn ras_c_edit(
    alloc: Global,
    handle: &mut Handle,
    edition: u32,
    start: u32,
    end: u32,
    insert: &[u8],
) -> u32
    ensures done { result ≡ 0 → HoldsEdited edition (edit_from start end insert.now)
        handle.old.kept handle.new.kept }
    ensures kept { (result ≡ 0 → ⊥) → handle.new.kept ≡ handle.old.kept }
    ensures utf8 { (result ≡ 1) ↔ (edition_of edition ≡ None → ⊥) × (IsUtf8 insert.now → ⊥) }
    ensures long { (result ≡ 2) ↔ (edition_of edition ≡ None → ⊥) × IsUtf8 insert.now
        × Holds handle.old.kept (λ p. IsEditOf (text p.tree) (edit_from start end insert.now)
        × (2 ^ 32 ≤ length (edited (text p.tree) (edit_from start end insert.now)))) }
    ensures edition { (result ≡ 5) ↔ (edition_of edition ≡ None) }
    ensures place { (result ≡ 6) ↔ (edition_of edition ≡ None → ⊥) × IsUtf8 insert.now
        × Holds handle.old.kept (λ p. IsEditOf (text p.tree) (edit_from start end insert.now) → ⊥) }
    ensures empty { (result ≡ 7) ↔ (edition_of edition ≡ None → ⊥) × IsUtf8 insert.now
        × (handle.old.kept ≡ None) }
    ensures which { (result ≤ 3) ⊎ (5 ≤ result) × (result ≤ 7) }
{
    let mut again = Range { start: 0, end: 0 };
    ras_c_edit_told(alloc, handle, edition, start, end, insert, &mut again)
}

/// Edits the text of a handle's parse as `ras_c_edit` does, and writes the range of the new text
/// that was read again to `again`: that of one token or block, or the whole text. The rest of the
/// tree is as it was; what is behind the token or block has moved with the text.
///
/// Returns what `ras_c_edit` returns. Unless it is [`OK`], nothing was changed.
#[unsafe(no_mangle)]
pub extern "C" fn ras_c_edit_told(
    alloc: Global,
    handle: &mut Handle,
    edition: u32,
    start: u32,
    end: u32,
    insert: &[u8],
    again: &mut Range,
) -> u32
    ensures done { result ≡ 0 → HoldsEdited edition (edit_from start end insert.now)
        handle.old.kept handle.new.kept }
    ensures again { result ≡ 0 → HoldsAgain (edit_from start end insert.now)
        handle.old.kept handle.new.kept again.new }
    ensures kept { (result ≡ 0 → ⊥)
        → (handle.new.kept ≡ handle.old.kept) × (again.new ≡ again.old) }
    ensures utf8 { (result ≡ 1) ↔ (edition_of edition ≡ None → ⊥) × (IsUtf8 insert.now → ⊥) }
    ensures long { (result ≡ 2) ↔ (edition_of edition ≡ None → ⊥) × IsUtf8 insert.now
        × Holds handle.old.kept (λ p. IsEditOf (text p.tree) (edit_from start end insert.now)
        × (2 ^ 32 ≤ length (edited (text p.tree) (edit_from start end insert.now)))) }
    ensures edition { (result ≡ 5) ↔ (edition_of edition ≡ None) }
    ensures place { (result ≡ 6) ↔ (edition_of edition ≡ None → ⊥) × IsUtf8 insert.now
        × Holds handle.old.kept (λ p. IsEditOf (text p.tree) (edit_from start end insert.now) → ⊥) }
    ensures empty { (result ≡ 7) ↔ (edition_of edition ≡ None → ⊥) × IsUtf8 insert.now
        × (handle.old.kept ≡ None) }
    ensures which { (result ≤ 3) ⊎ (5 ≤ result) × (result ≤ 7) }
{
    let Some(edition) = edition_of(edition) else {
        return NO_EDITION;
    };
    let Ok(insert) = str::from_utf8(insert) else {
        return NOT_UTF8;
    };
    let Some(mut kept) = take(alloc, handle) else {
        return NO_PARSE;
    };
    let edited = kept.edit(alloc, edition, start, end, insert);
    put(alloc, handle, kept);
    match edited {
        Ok(range) => {
            *again = Range {
                start: range.start().raw(),
                end: range.end().raw(),
            };
            OK
        }
        Err(status) => status,
    }
}

/// Frees the parse of a handle, if it holds one. The handle then holds none, and may be used again.
#[unsafe(no_mangle)]
pub extern "C" fn ras_c_free(alloc: Global, handle: &mut Handle)
    ensures { handle.new.kept ≡ None }
{
    let _parse = take(alloc, handle);
}
