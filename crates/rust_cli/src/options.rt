//! The options of a command line.

use cargo_editions::edition_named;
use clap::ArgMatches;
use gitignore::{Rule, rule_of};
use ras_front_end::{Edition, Entry};
use rust_draw::highlight::HighlightFormat;
use rust_draw::tree::{Part, Showing, TreeFormat};
use rust_print::forms::{ReportFormat, ReportOptions, Wanted};
use rust_print::source::Reading;
use rust_print::style::Style;
use rust_report::{place_of, range_of};
use std::alloc::{AllocError, Global};

/// How the edition of a file is chosen.
#[derive(Clone, Copy, Debug)]
pub enum Choice {
    /// By the manifest that the file belongs to; without one it is the newest.
    Auto,
    /// This one, for all files.
    Only(Edition),
}

/// How folders are searched.
#[derive(Clone, Copy, Debug)]
pub struct Search {
    /// Whether links are followed.
    pub follow: bool,
    /// Whether files and folders are read whose names begin with a dot.
    pub hidden: bool,
    /// Whether ignore files and cargo's folders `target` count for nothing.
    pub no_ignore: bool,
}

/// What is printed about a file.
#[derive(Clone, Copy, Debug, PartialEq, Eq)]
pub enum Summary {
    /// All that was found.
    Whole,
    /// How much was found, if anything was.
    Count,
    /// The name of the file, if something was found.
    Name,
}

/// How files are found and read, and how reports on them are written.
#[derive(Clone, Copy, Debug)]
pub struct Options {
    /// How a text is parsed, but for its edition, and how a report on it is written.
    pub report: ReportOptions,
    /// How the edition of a file is chosen.
    pub edition: Choice,
    /// What is printed about a file.
    pub summary: Summary,
    /// How folders are searched.
    pub search: Search,
}

impl Options {
    /// The options of a command.
    pub fn of(style: Style, matches: &ArgMatches) -> Options {
        Options {
            report: report_options(style, matches),
            edition: edition(matches),
            summary: summary_of(matches),
            search: Search {
                follow: matches.get_flag("follow"),
                hidden: matches.get_flag("hidden"),
                no_ignore: matches.get_flag("no-ignore"),
            },
        }
    }
}

/// The globs of a command line: which files of a folder are read, and what is left out.
#[derive(Drop)]
pub struct Globs {
    /// Those of `--glob` and then those of `--exclude`, as rules: what they name is left out, or
    /// read if the rule is negated.
    pub rules: Vec<Rule>,
    /// Whether there is one for files that are read, so that no others are.
    pub has_wanted: bool,
}

// A glob without the `!` in front of it, and whether it had one.
fn split_glob(glob: &str) -> (&str, bool) {
    match glob.strip_prefix('!') {
        Some(glob) => (glob, true),
        None => (glob, false),
    }
}

// What a glob says. `./a` is `/a`, the `a` of the current folder.
fn glob_rule(alloc: Global, glob: &str) -> Result<Rule, AllocError> {
    match glob.strip_prefix("./") {
        Some(rest) => {
            let rest = rest.trim_start_matches("./").trim_start_matches('/');
            let anchored = format!(in alloc; "/{rest}")?;
            rule_of(alloc, anchored.as_bytes())
        }
        None => rule_of(alloc, glob.as_bytes()),
    }
}

// Adds the rule of a glob. In an ignore file `!` is before what is kept, on the command line before
// what is left out.
fn push_glob(
    alloc: Global,
    globs: &mut Globs,
    glob: &str,
    is_left_out: bool,
) -> Result<(), AllocError> {
    let mut rule = glob_rule(alloc, glob)?;
    rule.is_negated = !is_left_out;
    globs.rules.push(rule)?;
    globs.has_wanted = globs.has_wanted || !is_left_out;
    Ok(())
}

/// The globs of a command line.
pub fn globs_of(alloc: Global, matches: &ArgMatches) -> Result<Globs, AllocError> {
    let mut globs = Globs {
        rules: Vec::new(alloc),
        has_wanted: false,
    };
    for glob in matches.get_strs("glob").unwrap_or(&[]) {
        let (glob, is_left_out) = split_glob(glob);
        push_glob(alloc, &mut globs, glob, is_left_out)?;
    }
    for glob in matches.get_strs("exclude").unwrap_or(&[]) {
        push_glob(alloc, &mut globs, glob, true)?;
    }
    Ok(globs)
}

fn report_options(style: Style, matches: &ArgMatches) -> ReportOptions {
    ReportOptions {
        reading: reading(matches),
        format: form_of(matches),
        style,
        max_errors: max_errors(matches),
        all_errors: matches.get_flag("all-errors"),
        is_upstream: matches.get_str("messages") == Some("upstream"),
        wanted: wanted_of(matches),
        has_locals: matches.get_flag("locals"),
        is_first: true,
    }
}

fn summary_of(matches: &ArgMatches) -> Summary {
    if matches.get_flag("files-with-matches") {
        Summary::Name
    } else if matches.get_flag("count") {
        Summary::Count
    } else {
        Summary::Whole
    }
}

fn wanted_of(matches: &ArgMatches) -> Wanted {
    let all = matches.get_flag("all");
    let only = matches.get_str("only");
    Wanted {
        values: matches!(only, None | Some("values")),
        operands: only == Some("operands") || (all && only.is_none()),
        mixed: matches.get_flag("mixed"),
        others: only == Some("others") || (all && only.is_none()),
    }
}

fn choice_of(name: Option<&str>) -> Choice {
    match name {
        Some(name) => match edition_named(name) {
            Some(edition) => Choice::Only(edition),
            None => Choice::Auto,
        },
        None => Choice::Auto,
    }
}

/// How the edition of a file is chosen.
pub fn edition(matches: &ArgMatches) -> Choice {
    choice_of(matches.get_str("edition"))
}

fn entry_of(name: Option<&str>) -> Entry {
    match name {
        Some("expr") => Entry::Expr,
        _ => Entry::SourceFile,
    }
}

/// How a command parses its files. The edition is the newest here: it is chosen for each file.
pub fn reading(matches: &ArgMatches) -> Reading {
    Reading {
        edition: Edition::CURRENT,
        entry: entry_of(matches.get_str("entry")),
        validates: !matches.get_flag("no-validation"),
    }
}

/// Whether `diff` writes a page of HTML.
pub fn is_page(matches: &ArgMatches) -> bool {
    matches.get_str("format") == Some("html")
}

/// The most places that are printed.
pub fn limit(matches: &ArgMatches) -> usize {
    match matches.get_one::<u32>("limit") {
        Some(limit) => limit as usize,
        None if is_page(matches) => usize::MAX,
        None => 10,
    }
}

fn max_errors(matches: &ArgMatches) -> usize {
    match matches.get_one::<u32>("max-errors") {
        Some(most) => most as usize,
        None => usize::MAX,
    }
}

/// The output of `highlight`.
pub fn ink(matches: &ArgMatches) -> HighlightFormat {
    match matches.get_str("format") {
        Some("html") => HighlightFormat::Html,
        _ => HighlightFormat::Ansi,
    }
}

fn form_of(matches: &ArgMatches) -> ReportFormat {
    match matches.get_str("format") {
        Some("json") => ReportFormat::Json,
        Some("github") => ReportFormat::Github,
        Some("sarif") => ReportFormat::Sarif,
        _ => ReportFormat::Text,
    }
}

// The part of a tree that the options select. Returns `None` if a place or a range is invalid.
fn part_of(matches: &ArgMatches) -> Option<Part> {
    if let Some(text) = matches.get_str("at") {
        return Some(Part::At(place_of(text)?));
    }
    match matches.get_str("range") {
        Some(text) => Some(Part::Range(range_of(text)?)),
        None => Some(Part::Whole),
    }
}

// The text that an option gives.
fn text_of(alloc: Global, matches: &ArgMatches, name: &str) -> Result<Option<String>, AllocError> {
    match matches.get_str(name) {
        Some(text) => Ok(Some(String::from_str(alloc, text)?)),
        None => Ok(None),
    }
}

/// The path that standard input is taken for; `None` if the command line gives none.
pub fn input_name_of(alloc: Global, matches: &ArgMatches) -> Result<Option<String>, AllocError> {
    text_of(alloc, matches, "stdin-filename")
}

/// What is shown of the tree of one file, or of several, and how. Returns `None` if a place or a
/// range is invalid.
pub fn showing(
    alloc: Global,
    matches: &ArgMatches,
    has_several: bool,
) -> Result<Option<Showing>, AllocError> {
    let Some(part) = part_of(matches) else {
        return Ok(None);
    };
    let drawing = match matches.get_str("format") {
        Some("json") => TreeFormat::Json,
        Some("sexp") => TreeFormat::Sexp,
        Some("html") => TreeFormat::Html,
        _ => TreeFormat::Text,
    };
    let depth = match matches.get_one::<u32>("depth") {
        Some(depth) => depth as usize,
        None => usize::MAX,
    };
    Ok(Some(Showing {
        drawing,
        part,
        trivia: !matches.get_flag("no-trivia"),
        depth,
        stats: matches.get_flag("stats"),
        ancestors: matches.get_flag("ancestors"),
        // An object of JSON has the name of its file.
        named: has_several && !matches!(drawing, TreeFormat::Json),
        grammar: text_of(alloc, matches, "grammar")?,
    }))
}
