//! SARIF 2.1.0, the form of results that code scanners exchange: one object with a run, and in it a
//! result for each error, pair or match.
ghost use Rattle.std.specs.Prelude.{◌≡◌};
ghost use Rattle.rust_print.specs.Results.{rule_id, level_of};

use crate::json;
use rust_report::Spot;
use std::alloc::Global;
use std::io::Write;
use std::{fmt, io};

/// What a result is about.
#[derive(Clone, Copy, Debug)]
pub enum Rule {
    /// A syntax error.
    Syntax,
    /// A needless pair of parentheses.
    Parentheses,
    /// A match of a rule of search and replace.
    Match,
}

impl Rule {
    /// The `ruleId` of its results; of a match whose rule has no name.
    pub fn id(self) -> &'static str
        ensures { result.now ≡ rule_id self }
    {
        match self {
            Rule::Syntax => "syntax-error",
            Rule::Parentheses => "needless-parentheses",
            Rule::Match => "match",
        }
    }

    /// The level of its results; of a match that no rule gives a severity.
    pub fn level(self) -> &'static str
        ensures { result.now ≡ level_of self }
    {
        match self {
            Rule::Syntax => "error",
            Rule::Parentheses => "note",
            Rule::Match => "warning",
        }
    }

    fn about(self) -> &'static str {
        match self {
            Rule::Syntax => "The text is no Rust.",
            Rule::Parentheses => "Without this pair of parentheses the text has the same tree.",
            Rule::Match => "A rule of search and replace matches here.",
        }
    }
}

/// What the report says of a rule of search and replace that has a name.
#[derive(Clone, Copy, Debug)]
pub struct Described<'a> {
    /// Its name, which is the `ruleId` of its results.
    pub name: &'a str,
    /// Its message; empty if it has none.
    pub message: &'a str,
}

impl<'a> Described<'a> {
    fn about(self) -> &'a str {
        if self.message.is_empty() {
            Rule::Match.about()
        } else {
            self.message
        }
    }
}

/// A place of a text.
#[derive(Clone, Copy, Debug)]
pub struct Region {
    /// Where it starts.
    pub from: Spot,
    /// Where it ends: behind its last character.
    pub to: Spot,
    /// The offset in bytes where it starts.
    pub start: u32,
    /// The offset in bytes where it ends.
    pub end: u32,
}

/// A path as a reference of a URI: what is neither a letter nor a digit nor one of `-._~/` is
/// percent-encoded. Before an absolute path is `file://`, without the name of a host.
#[derive(Clone, Copy)]
pub struct Uri<'a> {
    /// The path.
    pub path: &'a str,
}

impl fmt::Display for Uri<'_> {
    fn fmt<W: fmt::Write>(&self, f: &mut fmt::Formatter<W>) -> fmt::Result {
        if self.path.starts_with('/') {
            f.write_str("file://")?;
        }
        for byte in self.path.bytes() {
            if byte.is_ascii_alphanumeric() || matches!(byte, b'-' | b'.' | b'_' | b'~' | b'/') {
                write!(f, "{}", byte as char)?;
            } else {
                write!(f, "%{byte:02X}")?;
            }
        }
        Ok(())
    }
}

// Writes what a rule is, with a comma before it unless it is the first.
fn write_rule<W: Write>(
    alloc: Global,
    out: &mut W,
    is_first: bool,
    id: &str,
    about: &str,
) -> io::Result<()> {
    let comma = if is_first { "" } else { "," };
    write!(out, "{comma}{{\"id\":")?;
    json::write(alloc, out, &id)?;
    out.write_all(b",\"shortDescription\":{\"text\":")?;
    json::write(alloc, out, &about)?;
    out.write_all(b"}}")
}

/// Writes what is before the results: the tool, with its rules and the named ones of a search. The
/// names have to differ from each other and from [`Rule::id`].
pub fn write_start<W: Write>(
    alloc: Global,
    out: &mut W,
    named: &[Described<'_>],
) -> io::Result<()> {
    out.write_all(b"{\"$schema\":\"https://json.schemastore.org/sarif-2.1.0.json\",")?;
    out.write_all(
        b"\"version\":\"2.1.0\",\"runs\":[{\"tool\":{\"driver\":{\"name\":\"rust_tree\",",
    )?;
    out.write_all(b"\"version\":\"0.1.0\",\"rules\":[")?;
    let mut is_first = true;
    for rule in [Rule::Syntax, Rule::Parentheses, Rule::Match] {
        write_rule(alloc, out, is_first, rule.id(), rule.about())?;
        is_first = false;
    }
    for rule in named {
        write_rule(alloc, out, false, rule.name, rule.about())?;
    }
    out.write_all(b"]}},\"columnKind\":\"unicodeCodePoints\",\"results\":[")
}

fn write_region<W: Write>(out: &mut W, at: Region) -> io::Result<()> {
    write!(out, "\"region\":{{\"startLine\":{},", at.from.line)?;
    write!(out, "\"startColumn\":{},", at.from.column)?;
    write!(
        out,
        "\"endLine\":{},\"endColumn\":{},",
        at.to.line, at.to.column
    )?;
    let length = at.end.saturating_sub(at.start);
    write!(out, "\"byteOffset\":{},\"byteLength\":{length}}}", at.start)
}

/// Writes a result, with a comma before it unless it is the first. Its level is that of what it is
/// about.
pub fn write_result<W: Write>(
    alloc: Global,
    out: &mut W,
    is_first: bool,
    rule: Rule,
    message: &str,
    path: &str,
    at: Region,
) -> io::Result<()> {
    write_leveled(
        alloc,
        out,
        is_first,
        rule.id(),
        rule.level(),
        message,
        path,
        at,
    )
}

/// The same with a `ruleId` and a level: `error`, `warning` or `note`.
pub fn write_leveled<W: Write>(
    alloc: Global,
    out: &mut W,
    is_first: bool,
    id: &str,
    level: &str,
    message: &str,
    path: &str,
    at: Region,
) -> io::Result<()> {
    let uri = Uri {
        path: path.strip_prefix("./").unwrap_or(path),
    };
    let comma = if is_first { "" } else { "," };
    write!(out, "{comma}\n{{\"ruleId\":")?;
    json::write(alloc, out, &id)?;
    write!(out, ",\"level\":\"{level}\",\"message\":{{\"text\":")?;
    json::write(alloc, out, &message)?;
    write!(
        out,
        "}},\"locations\":[{{\"physicalLocation\":{{\"artifactLocation\":{{"
    )?;
    write!(out, "\"uri\":\"{uri}\"}},")?;
    write_region(out, at)?;
    out.write_all(b"}}]}")
}

/// Writes what is behind the results.
pub fn write_end<W: Write>(out: &mut W) -> io::Result<()> {
    out.write_all(b"\n]}]}\n")
}
