//! The matches of rules in a text, and what replaces them.
ghost use Rattle.std.specs.Prelude.{◌≡◌, length, IfOk};
ghost use Rattle.tree_match.specs.Finds.{found_in};
ghost use Rattle.rust_rules.specs.Macros.{IsNumberWithin};
ghost use Rattle.rust_rules.specs.Reports.{IsNumberOfMatches, IsAnswer};

use crate::place::{Place, write_one};
use crate::within::{Found, Replaced, all_found, found_within, rewriting};
use lossless_tree::SyntaxNode;
use rust_print::failure::Failure;
use rust_print::forms::ReportOptions;
use rust_print::source::{Source, parsed, spots};
use rust_report::Spots;
use rust_rewrite::{Match, Rewritten, find};
use rust_search::RuleSet;
use std::alloc::{AllocError, Global};
use std::io;
use std::io::Write;

// A match of a text.
pub(crate) fn place_of<'a>(
    source: Source<'a>,
    set: &'a RuleSet,
    found: Found,
    new: Option<&'a str>,
) -> Place<'a> {
    let start = found.range.start().raw() as usize;
    let end = found.range.end().raw() as usize;
    let (name, message) = set.note(found.rule);
    Place {
        source,
        range: found.range,
        text: source.text.get(start..end).unwrap_or(""),
        new,
        rule: set.number(found.rule),
        name,
        message,
        severity: set.severity(found.rule),
    }
}

fn write_matches<'a, W: Write>(
    alloc: Global,
    out: &mut W,
    source: Source<'a>,
    set: &'a RuleSet,
    matches: &[Found],
    options: ReportOptions,
) -> Result<(), Failure> {
    if matches.is_empty() {
        return Ok(());
    }
    let mut spots = spots(alloc, source.text)?;
    let mut is_first = options.is_first;
    for found in matches {
        let place = place_of(source, set, *found, None);
        write_one(alloc, out, &mut spots, &place, is_first, options)?;
        is_first = false;
    }
    Ok(())
}

// The matches of rules in a tree.
#[tactic(auto, using(crate::proofs::CountLemmas::as_many))]
fn matches_of(alloc: Global, set: &RuleSet, root: &SyntaxNode) -> Result<Vec<Match>, AllocError>
    ensures { IfOk result (λ m. length m.items ≡ length (found_in set.now.rules.items root.now)) }
{
    find(alloc, &set.rules, root)
}

/// Writes the matches of rules in a text. Returns their number.
pub fn search<'a, W: Write>(
    alloc: Global,
    out: &mut W,
    source: Source<'a>,
    set: &'a RuleSet,
    options: ReportOptions,
) -> Result<u64, Failure>
    ensures { IfOk result
        (IsNumberOfMatches options.reading set.now.rules.items source.entry.text.now) }
{
    let parse = parsed(alloc, source.text, options.reading)?;
    let matches = matches_of(alloc, set, parse.root())?;
    write_matches(
        alloc,
        out,
        source,
        set,
        &all_found(alloc, &matches)?,
        options,
    )?;
    Ok(matches.len() as u64)
}

/// Writes the matches of rules in a text and in the arguments of its macro calls, up to eight deep,
/// in the order of the text. Returns their number.
///
/// The arguments are searched if they read as a list of expressions, as in `vec![a; 3]` and
/// `println!("{}", a.clone())`. A match that reaches out of them is none. Takes a parse of each
/// list.
pub fn search_within<'a, W: Write>(
    alloc: Global,
    out: &mut W,
    source: Source<'a>,
    set: &'a RuleSet,
    options: ReportOptions,
) -> Result<u64, Failure>
    ensures { IfOk result
        (IsNumberWithin options.reading set.now.rules.items source.entry.text.now) }
{
    let found = found_within(alloc, source.text, &set.rules, options.reading)?;
    write_matches(alloc, out, source, set, &found, options)?;
    Ok(found.len() as u64)
}

/// A text with the matches of rules replaced; `None` if there are none.
#[tactic(auto, using(crate::proofs::MoveLemmas::answered))]
pub fn rewritten(
    alloc: Global,
    source: Source<'_>,
    set: &RuleSet,
    options: ReportOptions,
) -> Result<Option<Rewritten>, Failure>
    ensures { IfOk result (IsAnswer options.reading set.now.rules.items source.entry.text.now) }
{
    let parse = parsed(alloc, source.text, options.reading)?;
    Ok(rewriting(alloc, &set.rules, options.reading, &parse)?)
}

fn write_changes<'a, W: Write>(
    alloc: Global,
    out: &mut W,
    spots: &mut Spots<'_>,
    source: Source<'a>,
    set: &'a RuleSet,
    done: &'a Replaced,
    options: ReportOptions,
) -> io::Result<()> {
    let mut is_first = options.is_first;
    for (found, indel) in done.places.iter().zip(done.edit.iter()) {
        let place = place_of(source, set, *found, Some(indel.inserted()));
        write_one(alloc, out, spots, &place, is_first, options)?;
        is_first = false;
    }
    Ok(())
}

/// Writes the matches that are in no other match, each with what replaces it.
pub fn list<'a, W: Write>(
    alloc: Global,
    out: &mut W,
    source: Source<'a>,
    set: &'a RuleSet,
    done: &'a Replaced,
    options: ReportOptions,
) -> Result<(), Failure> {
    if done.edit.is_empty() {
        return Ok(());
    }
    let mut spots = spots(alloc, source.text)?;
    Ok(write_changes(alloc, out, &mut spots, source, set, done, options)?)
}
