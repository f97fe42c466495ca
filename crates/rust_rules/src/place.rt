//! One match, in each form of a report.

use lossless_tree::TextRange;
use rule_plan::Severity;
use rust_print::forms::{ReportFormat, ReportOptions};
use rust_print::json;
use rust_print::sarif::{Region, Rule, write_leveled};
use rust_print::shown::{cut, name, write_place};
use rust_print::source::{Source, move_to, spot};
use rust_report::{Escaped, Medium, Spot, Spots, short_of};
use serde::Serialize;
use std::alloc::Global;
use std::io::Write;
use std::{fmt, io};

// A match in JSON. Lines and columns count from 1, columns in characters, and rules from 1; `start`
// and `end` are offsets in bytes. Of a long text the front is written, and `cut` says so.
#[derive(Drop, Serialize)]
struct MatchRecord<'a> {
    path: &'a str,
    line: u64,
    column: u64,
    start: u32,
    end: u32,
    rule: u64,
    name: &'a str,
    message: &'a str,
    severity: &'static str,
    text: &'a str,
    cut: bool,
}

// The same with what replaces the match.
#[derive(Drop, Serialize)]
struct ChangeRecord<'a> {
    #[serde(flatten)]
    found: MatchRecord<'a>,
    new: &'a str,
    new_cut: bool,
}

/// A match.
#[derive(Clone, Copy)]
pub(crate) struct Place<'a> {
    /// Its file.
    pub(crate) source: Source<'a>,
    /// Where it is.
    pub(crate) range: TextRange,
    /// Its text.
    pub(crate) text: &'a str,
    /// What replaces it, if it is replaced.
    pub(crate) new: Option<&'a str>,
    /// The number of its rule, from 1.
    pub(crate) rule: u64,
    /// The rule's name and message, each empty if there is none.
    pub(crate) name: &'a str,
    pub(crate) message: &'a str,
    /// How severe it is, if the rule says so.
    pub(crate) severity: Option<Severity>,
}

impl Place<'_> {
    // How severe it is: a warning if the rule does not say.
    fn severity(&self) -> Severity {
        match self.severity {
            Some(severity) => severity,
            None => Severity::Warning,
        }
    }
}

// What is said of a match on one line: the rule's name and message, the match, and what replaces
// it.
#[derive(Clone, Copy)]
struct Said<'a> {
    place: &'a Place<'a>,
}

// Writes a text and a colon, if there is one.
fn write_part<W: fmt::Write>(f: &mut fmt::Formatter<W>, text: &str) -> fmt::Result {
    if text.is_empty() {
        return Ok(());
    }
    write!(f, "{}: ", name(text))
}

impl fmt::Display for Said<'_> {
    fn fmt<W: fmt::Write>(&self, f: &mut fmt::Formatter<W>) -> fmt::Result {
        let place = self.place;
        write_part(f, place.name)?;
        write_part(f, place.message)?;
        write!(f, "{}", short_of(place.text))?;
        match place.new {
            None => Ok(()),
            Some(new) => write!(f, " ==>> {}", short_of(new)),
        }
    }
}

fn record_of<'a>(place: &Place<'a>, at: Spot) -> MatchRecord<'a> {
    let (text, cut) = cut(place.text);
    MatchRecord {
        path: place.source.name,
        line: at.line,
        column: at.column,
        start: place.range.start().raw(),
        end: place.range.end().raw(),
        rule: place.rule,
        name: place.name,
        message: place.message,
        severity: place.severity().name(),
        text,
        cut,
    }
}

fn write_json<W: Write>(alloc: Global, out: &mut W, place: &Place<'_>, at: Spot) -> io::Result<()> {
    let found = record_of(place, at);
    let Some(new) = place.new else {
        return json::write_line(alloc, out, &found);
    };
    let (new, new_cut) = cut(new);
    json::write_line(
        alloc,
        out,
        &ChangeRecord {
            found,
            new,
            new_cut,
        },
    )
}

fn write_github<W: Write>(
    alloc: Global,
    out: &mut W,
    place: &Place<'_>,
    from: Spot,
    to: Spot,
) -> io::Result<()> {
    let said = format!(in alloc; "{}", Said { place: &*place })?;
    let file = Escaped {
        text: place.source.name,
        medium: Medium::Parameter,
    };
    let message = Escaped {
        text: said.as_str(),
        medium: Medium::Message,
    };
    writeln!(
        out,
        "::{} file={file},line={},col={},endLine={},endColumn={}::{message}",
        place.severity().command(),
        from.line,
        from.column,
        to.line,
        to.column
    )
}

fn write_sarif<W: Write>(
    alloc: Global,
    out: &mut W,
    place: &Place<'_>,
    at: Region,
    is_first: bool,
) -> io::Result<()> {
    let said = format!(in alloc; "{}", Said { place: &*place })?;
    let id = if place.name.is_empty() {
        Rule::Match.id()
    } else {
        place.name
    };
    write_leveled(
        alloc,
        out,
        is_first,
        id,
        place.severity().level(),
        said.as_str(),
        place.source.name,
        at,
    )
}

/// Writes how severe a match is, if its rule says so.
pub(crate) fn write_severity<W: Write>(out: &mut W, severity: Option<Severity>) -> io::Result<()> {
    match severity {
        Some(severity) => write!(out, "{}: ", severity.name()),
        None => Ok(()),
    }
}

/// Writes a match.
pub(crate) fn write_one<W: Write>(
    alloc: Global,
    out: &mut W,
    spots: &mut Spots<'_>,
    place: &Place<'_>,
    is_first: bool,
    options: ReportOptions,
) -> io::Result<()> {
    let from = move_to(spots, place.range.start());
    let to = spot(spots, place.range.end());
    match options.format {
        ReportFormat::Text => {
            write_place(out, place.source, from, options.style)?;
            write_severity(out, place.severity)?;
            writeln!(out, "{}", Said { place })
        }
        ReportFormat::Json => write_json(alloc, out, place, from),
        ReportFormat::Github => write_github(alloc, out, place, from, to),
        ReportFormat::Sarif => {
            let at = Region {
                from,
                to,
                start: place.range.start().raw(),
                end: place.range.end().raw(),
            };
            write_sarif(alloc, out, place, at, is_first)
        }
    }
}
