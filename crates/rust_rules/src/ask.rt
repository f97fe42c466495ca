//! What is shown of a replacement before it is taken.

use crate::place::write_severity;
use crate::show::place_of;
use crate::within::Found;
use rust_print::forms::ReportOptions;
use rust_print::shown::{name, write_place};
use rust_print::source::{Source, move_to};
use rust_report::{Spots, excerpt_of};
use rust_search::{RuleSet, lines_by};
use std::alloc::Global;
use std::io;
use std::io::Write;
use text_edit::Indel;

// Writes lines with a sign before each. Control characters in them are symbols. Of a long line only
// a part is written: of the first the one around an offset, of the others the front.
fn write_signed<W: Write>(out: &mut W, sign: &str, text: &str, offset: usize) -> io::Result<()> {
    let mut at = offset;
    for line in text.trim_end_matches('\n').split('\n') {
        let line = line.trim_end_matches('\r');
        writeln!(out, "{sign}{}", excerpt_of(line, at, line.len()))?;
        at = 0;
    }
    Ok(())
}

/// Writes the place of a replacement, and its lines before and after it.
pub fn write_question<'a, W: Write>(
    alloc: Global,
    out: &mut W,
    spots: &mut Spots<'_>,
    source: Source<'a>,
    set: &'a RuleSet,
    found: Found,
    indel: &Indel,
    options: ReportOptions,
) -> io::Result<()> {
    let place = place_of(source, set, found, None);
    let at = move_to(spots, place.range.start());
    write_place(out, source, at, options.style)?;
    write_severity(out, place.severity)?;
    if !place.name.is_empty() {
        write!(out, "{}: ", name(place.name))?;
    }
    writeln!(out, "{}", name(place.message))?;
    let (old, new) = lines_by(alloc, source.text, indel)?;
    let before = source
        .text
        .get(..indel.deleted().start().raw() as usize)
        .unwrap_or("");
    let offset = before.rsplit('\n').next().unwrap_or("").len();
    write_signed(out, "-", old, offset)?;
    write_signed(out, "+", new.as_str(), offset)
}
