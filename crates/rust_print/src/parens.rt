//! The command `parens`: pairs of parentheses without which a text parses to the same tree.
ghost use Rattle.std.specs.Prelude.{◌≡◌, IfOk, option_map, string_bytes};
ghost use Rattle.std.specs.List.{filter};
ghost use Rattle.tree_model.specs.Cursor.{at_node, descendants_of};
ghost use Rattle.rust_parens.specs.Pairs.{may_go};
ghost use Rattle.rust_print.specs.Readings.{is_wanted, AreNeedless};

use crate::failure::Failure;
use crate::forms::{ReportFormat, ReportOptions, Wanted};
use crate::json;
use crate::sarif::{Region, Rule, write_result};
use crate::shown::{cut, write_place, write_short};
use crate::source::{Reading, Source, move_to, parsed, spot, spots};
use lossless_tree::SyntaxNode;
use ras_front_end::ParseError;
use rust_front::Rust;
use rust_parens::{Needless, PairPlace, find_needless_among, pairs, place_of};
use rust_report::{Spot, Spots};
use serde::Serialize;
use std::alloc::{AllocError, Global};
use std::io;
use std::io::Write;

// A pair in JSON. The line and the column count from 1, the column in characters; `start` and `end`
// are offsets in bytes. Of a long text the front is written, and `cut` says so.
#[derive(Drop, Serialize)]
struct PairRecord<'a> {
    path: &'a str,
    line: u64,
    column: u64,
    start: u32,
    end: u32,
    text: &'a str,
    cut: bool,
    place: &'a str,
}

fn is_wanted(wanted: Wanted, pair: &SyntaxNode) -> bool
    ensures { result ≡ is_wanted wanted pair.now }
{
    match place_of(pair) {
        PairPlace::Value => wanted.values,
        PairPlace::Operand => wanted.operands,
        PairPlace::Mixed => wanted.mixed,
        PairPlace::Other => wanted.others,
    }
}

fn wanted_pairs(
    alloc: Global,
    root: &SyntaxNode,
    wanted: Wanted,
) -> Result<Vec<SyntaxNode>, AllocError>
    ensures { IfOk result (λ found. found.items
        ≡ filter (is_wanted wanted) (filter may_go (filter at_node (descendants_of root.now)))) }
{
    let mut found = Vec::new(alloc);
    for pair in pairs(alloc, root)? {
        if is_wanted(wanted, &pair) {
            found.push(pair)?;
        }
    }
    Ok(found)
}

/// The pairs of a text that can all be removed together, of those that are wanted.
pub fn needless(
    alloc: Global,
    text: &str,
    reading: Reading,
    wanted: Wanted,
) -> Result<Needless, ParseError>
    ensures { IfOk result (λ n. AreNeedless reading wanted text.now n.pairs.items n.tried.items
        (option_map string_bytes n.text)) }
{
    let parse = parsed(alloc, text, reading)?;
    let candidates = wanted_pairs(alloc, parse.root(), wanted)?;
    Ok(find_needless_among(
        alloc,
        &Rust,
        reading.entry,
        reading.edition,
        &parse,
        candidates,
    )?)
}

fn word_of(place: PairPlace) -> &'static str {
    match place {
        PairPlace::Value => "value",
        PairPlace::Operand => "operand",
        PairPlace::Mixed => "mixed",
        PairPlace::Other => "other",
    }
}

fn write_json<W: Write>(
    alloc: Global,
    out: &mut W,
    path: &str,
    at: Spot,
    pair: &SyntaxNode,
) -> io::Result<()> {
    let range = pair.text_range();
    let (text, cut) = cut(pair.as_str());
    let record = PairRecord {
        path,
        line: at.line,
        column: at.column,
        start: range.start().raw(),
        end: range.end().raw(),
        text,
        cut,
        place: word_of(place_of(pair)),
    };
    json::write_line(alloc, out, &record)
}

// Writes a result of SARIF.
fn write_sarif<W: Write>(
    alloc: Global,
    out: &mut W,
    path: &str,
    spots: &Spots<'_>,
    from: Spot,
    pair: &SyntaxNode,
    is_first: bool,
) -> io::Result<()> {
    let range = pair.text_range();
    let at = Region {
        from,
        to: spot(spots, range.end()),
        start: range.start().raw(),
        end: range.end().raw(),
    };
    let message = "needless parentheses";
    write_result(alloc, out, is_first, Rule::Parentheses, message, path, at)
}

fn write_pair<W: Write>(
    alloc: Global,
    out: &mut W,
    source: Source<'_>,
    spots: &mut Spots<'_>,
    pair: &SyntaxNode,
    is_first: bool,
    options: ReportOptions,
) -> io::Result<()> {
    let at = move_to(spots, pair.text_range().start());
    match options.format {
        ReportFormat::Json => write_json(alloc, out, source.name, at, pair),
        ReportFormat::Sarif => write_sarif(alloc, out, source.name, spots, at, pair, is_first),
        ReportFormat::Text | ReportFormat::Github => {
            write_place(out, source, at, options.style)?;
            write!(out, "needless parentheses: ")?;
            write_short(out, pair.as_str())
        }
    }
}

/// Lists pairs of a text.
pub fn list<W: Write>(
    alloc: Global,
    out: &mut W,
    source: Source<'_>,
    pairs: &[SyntaxNode],
    options: ReportOptions,
) -> Result<(), Failure> {
    if pairs.is_empty() {
        return Ok(());
    }
    let mut spots = spots(alloc, source.text)?;
    let mut is_first = options.is_first;
    for pair in pairs {
        write_pair(alloc, out, source, &mut spots, pair, is_first, options)?;
        is_first = false;
    }
    Ok(())
}
