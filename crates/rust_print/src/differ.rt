//! The command `diff`: the places where the trees of two files differ.

use crate::failure::Failure;
use crate::names::Named;
use crate::shown::{cut, name};
use crate::source::{Reading, Source, move_to, parsed, spots};
use lossless_tree::{NodeOrToken, SyntaxElement, TextSize, WalkEvent};
use rust_report::{Difference, Spots, Trivia, differences};
use std::alloc::Global;
use std::io;
use std::io::Write;

// Writes a node, or a token with its text.
fn write_element<W: Write>(alloc: Global, out: &mut W, element: &SyntaxElement) -> io::Result<()> {
    let kind = Named(element.kind());
    match element {
        NodeOrToken::Node(_) => writeln!(out, "{kind}"),
        NodeOrToken::Token(token) => {
            let (text, is_cut) = cut(token.text());
            let end = if is_cut { " .." } else { "" };
            let text = format!(in alloc; "{text:?}")?;
            writeln!(out, "{kind} {}{end}", name(text.as_str()))
        }
    }
}

// Writes the event of one tree: a node, a token with its text, or the end of a node; the end of the
// text if the walk has ended.
fn write_side<W: Write>(
    alloc: Global,
    out: &mut W,
    source: Source<'_>,
    spots: &mut Spots<'_>,
    event: &Option<WalkEvent<SyntaxElement>>,
) -> io::Result<()> {
    let offset = match event {
        None => TextSize::of(source.text).unwrap_or(TextSize::new(0)),
        Some(WalkEvent::Leave(element)) => element.text_range().end(),
        Some(WalkEvent::Enter(element)) => element.text_range().start(),
    };
    write!(out, "{}:{}: ", name(source.name), move_to(spots, offset))?;
    match event {
        None => writeln!(out, "the end"),
        Some(WalkEvent::Leave(element)) => writeln!(out, "the end of {}", Named(element.kind())),
        Some(WalkEvent::Enter(element)) => write_element(alloc, out, element),
    }
}

/// How many places were printed, and whether there are more.
#[derive(Clone, Copy, Debug)]
pub struct Told {
    /// The number of places.
    pub places: usize,
    /// Whether the trees differ at further places.
    pub more: bool,
}

// Writes at most `limit` differences.
fn write_all<W: Write>(
    alloc: Global,
    out: &mut W,
    old: Source<'_>,
    new: Source<'_>,
    found: &[Difference],
    limit: usize,
) -> Result<Told, Failure> {
    let mut old_spots = spots(alloc, old.text)?;
    let mut new_spots = spots(alloc, new.text)?;
    let mut places = 0usize;
    for difference in found {
        if places == limit {
            return Ok(Told { places, more: true });
        }
        write_side(alloc, out, old, &mut old_spots, &difference.old)?;
        write_side(alloc, out, new, &mut new_spots, &difference.new)?;
        places = places.saturating_add(1);
    }
    Ok(Told {
        places,
        more: false,
    })
}

// The first `count` differences of two texts.
fn found(
    alloc: Global,
    old: Source<'_>,
    new: Source<'_>,
    readings: (Reading, Reading),
    trivia: Trivia,
    count: usize,
) -> Result<Vec<Difference>, Failure> {
    let old = parsed(alloc, old.text, readings.0)?;
    let new = parsed(alloc, new.text, readings.1)?;
    Ok(differences(alloc, old.root(), &[], new.root(), trivia, count)?)
}

/// Writes at most `limit` places where two trees differ by kinds or by the texts of tokens: for
/// each place the node or token of each tree.
pub fn show<W: Write>(
    alloc: Global,
    out: &mut W,
    old: Source<'_>,
    new: Source<'_>,
    readings: (Reading, Reading),
    trivia: Trivia,
    limit: usize,
) -> Result<Told, Failure> {
    let found = found(alloc, old, new, readings, trivia, limit.saturating_add(1))?;
    write_all(alloc, out, old, new, found.as_slice(), limit)
}
