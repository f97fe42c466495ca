//! The commands on files, and their run over all files.

use crate::ask::ask;
use crate::editions::Manifests;
use crate::failure::{status_of, tell};
use crate::fix;
use crate::fix::Done;
use crate::inputs::{Read, files_below, is_folder, text_of};
use crate::session::{Noun, Session, UNREAD};
use ras_front_end::{Edition, ParseError};
use rust_cli::options::{Choice, Globs, Options, Summary};
use rust_cli::task::{Task, Then};
use rust_draw::{highlight, tree};
use rust_parens::Needless;
use rust_print::check::check;
use rust_print::failure::Failure;
use rust_print::forms::{ReportFormat, ReportOptions};
use rust_print::sarif::{Described, Rule, write_end, write_start};
use rust_print::shown::name;
use rust_print::source::Source;
use rust_print::{outline, parens, tokens};
use rust_query::show as query;
use rust_rules as rules;
use rust_rules::Replaced;
use rust_search::{Chosen, RuleSet, path_in};
use std::alloc::{AllocError, Global};
use std::collections::BTreeSet;
use std::io::Write;
use std::time::Instant;
use std::{fs, io};

/// A task for a list of files.
#[derive(Drop)]
pub struct Job {
    /// The command.
    pub task: Task,
    /// How the files are found and read, and the reports written.
    pub options: Options,
    /// Which files of a folder are read.
    pub globs: Globs,
    /// The path of the folder that the program runs in if names of files are links; else `None`.
    pub links: Option<String>,
    /// The path that standard input is taken for; `None` if it has none.
    pub input_name: Option<String>,
}

// What a run keeps from file to file.
#[derive(Drop)]
struct Progress {
    session: Session,
    manifests: Manifests,
    // If the command line names several files or folders: a file may be among them twice.
    read: Option<Read>,
    kept: Kept,
}

// What is known while a file is read.
#[derive(Clone, Copy)]
struct State {
    // Whether it is standard input.
    is_input: bool,
    // Whether somebody who was asked ended the run.
    is_over: bool,
}

// What a run keeps from file to file.
#[derive(Drop)]
struct Kept {
    // The rules for the file that is read.
    chosen: Chosen,
    state: State,
}

impl Progress {
    fn new(rt: &HostRuntime, edition: Choice, has_several: bool) -> Progress {
        Progress {
            session: Session::new(rt),
            manifests: Manifests::new(rt.alloc(), edition),
            read: if has_several {
                Some(Read::new(rt.alloc()))
            } else {
                None
            },
            kept: Kept {
                chosen: Chosen::new(rt.alloc()),
                state: State {
                    is_input: false,
                    is_over: false,
                },
            },
        }
    }

    // Whether a file was read before. It is noted.
    fn was_read(&mut self, rt: &HostRuntime, path: &str) -> io::Result<bool> {
        match &mut self.read {
            Some(read) => read.was_read(rt, path),
            None => Ok(false),
        }
    }
}

const FOUND: Noun = Noun {
    one: "found",
    many: "found",
};

const ITEMS: Noun = Noun {
    one: "item",
    many: "items",
};

const ERRORS: Noun = Noun {
    one: "error",
    many: "errors",
};

const PAIRS: Noun = Noun {
    one: "pair",
    many: "pairs",
};

const MATCHES: Noun = Noun {
    one: "match",
    many: "matches",
};

// Whether a file still has this text. A pipe has it no more, and would be waited for.
fn is_unchanged(rt: &HostRuntime, source: Source<'_>) -> bool {
    if !fs::metadata(rt, source.name).is_ok_and(|found| found.is_file()) {
        return false;
    }
    match text_of(rt, source.name) {
        Ok(text) => text.as_str() == source.text,
        Err(_) => false,
    }
}

// Replaces the text of a file, if anything was done in it and nobody changed it meanwhile. The new
// text of standard input is always written to the output.
fn fix_file<W: Write>(
    rt: &HostRuntime,
    out: &mut W,
    source: Source<'_>,
    new: &str,
    done: Done,
    state: State,
) -> Result<(), Failure> {
    if state.is_input {
        return Ok(out.write_all(new.as_bytes())?);
    }
    fix::tidy(rt, source.name)?;
    if done.count > 0 {
        if !is_unchanged(rt, source) {
            return Err(Failure::Kept("it was changed meanwhile"));
        }
        fix::fix(rt, out, source.name, source.folder, new, done)?;
    }
    Ok(())
}

// Writes what is done with the pairs of a text. Returns their number.
fn write_pairs<W: Write>(
    rt: &HostRuntime,
    out: &mut W,
    source: Source<'_>,
    found: &Needless,
    options: ReportOptions,
    then: Then,
    state: State,
) -> Result<u64, Failure> {
    let (alloc, pairs) = (rt.alloc(), found.pairs.as_slice());
    let new = match &found.text {
        Some(new) => new.as_str(),
        None => &*source.text,
    };
    match then {
        Then::List => parens::list(alloc, out, source, pairs, options)?,
        Then::Diff => {
            if !pairs.is_empty() {
                fix::diff(rt, out, source, new)?;
            }
        }
        Then::Fix | Then::Ask => {
            let done = Done {
                count: pairs.len(),
                noun: PAIRS,
                verb: "removed",
            };
            fix_file(rt, out, source, new, done, state)?;
        }
    }
    Ok(pairs.len() as u64)
}

// Lists or removes the pairs of a text. Returns their number.
fn parens<W: Write>(
    rt: &HostRuntime,
    out: &mut W,
    source: Source<'_>,
    options: ReportOptions,
    then: Then,
    state: State,
) -> Result<u64, Failure> {
    let found = parens::needless(rt.alloc(), source.text, options.reading, options.wanted)?;
    write_pairs(rt, out, source, &found, options, then, state)
}

// Writes what is done with a text in which nothing matches.
fn write_unchanged<W: Write>(
    rt: &HostRuntime,
    out: &mut W,
    source: Source<'_>,
    then: Then,
    state: State,
) -> Result<(), Failure> {
    match then {
        Then::List | Then::Diff | Then::Ask => Ok(()),
        Then::Fix => {
            let done = Done {
                count: 0,
                noun: MATCHES,
                verb: "replaced",
            };
            fix_file(rt, out, source, source.text, done, state)
        }
    }
}

// Asks for each replacement of a text, and replaces those that are taken in its file.
fn ask_and_fix<W: Write>(
    rt: &HostRuntime,
    out: &mut W,
    source: Source<'_>,
    set: &RuleSet,
    done: &Replaced,
    options: ReportOptions,
    state: &mut State,
) -> Result<(), Failure> {
    let marks = ask(rt, out, source, set, done, options, &mut state.is_over)?;
    let count = marks.iter().filter(|mark| **mark).count();
    if count == 0 {
        return Ok(());
    }
    let taken = rules::with_taken(rt.alloc(), source, done, marks.as_slice(), options)?;
    let told = Done {
        count,
        noun: MATCHES,
        verb: "replaced",
    };
    fix_file(rt, out, source, taken.text.as_str(), told, *state)
}

// Writes what is done with the matches of a text.
fn write_rewritten<W: Write>(
    rt: &HostRuntime,
    out: &mut W,
    source: Source<'_>,
    set: &RuleSet,
    done: &Replaced,
    options: ReportOptions,
    then: Then,
    state: &mut State,
) -> Result<(), Failure> {
    match then {
        Then::Ask => ask_and_fix(rt, out, source, set, done, options, state),
        Then::List => rules::list(rt.alloc(), out, source, set, done, options),
        Then::Diff => fix::diff_of(rt, out, source, &done.edit),
        Then::Fix => {
            let told = Done {
                count: done.edit.len(),
                noun: MATCHES,
                verb: "replaced",
            };
            fix_file(rt, out, source, done.text.as_str(), told, *state)
        }
    }
}

// The rules for a file, by its path from the folder that the program runs in if it is below that:
// what a glob leaves out, it leaves out however the file is named.
fn rules_for<'a>(
    rt: &HostRuntime,
    chosen: &'a mut Chosen,
    set: &'a RuleSet,
    source: Source<'_>,
) -> Result<&'a RuleSet, Failure> {
    if set.is_for_all() {
        return Ok(set);
    }
    let below = match fix::other_name(rt, source.name) {
        Ok(below) => below,
        Err(error) => return Err(Failure::File(error)),
    };
    let path = match &below {
        Some(below) => below.as_str(),
        None => path_in(source.name, source.folder),
    };
    match chosen.rules_for(rt.alloc(), set, path) {
        Ok(set) => Ok(set),
        Err(_) => Err(Failure::Text(ParseError::Memory)),
    }
}

// Lists the matches of rules in a text. Returns their number.
fn search<W: Write>(
    rt: &HostRuntime,
    out: &mut W,
    source: Source<'_>,
    set: &RuleSet,
    options: ReportOptions,
    in_macros: bool,
    kept: &mut Kept,
) -> Result<u64, Failure> {
    let set = rules_for(rt, &mut kept.chosen, set, source)?;
    if in_macros {
        rules::search_within(rt.alloc(), out, source, set, options)
    } else {
        rules::search(rt.alloc(), out, source, set, options)
    }
}

// A text with the matches of rules replaced; `None` if there are none.
fn replaced(
    alloc: Global,
    source: Source<'_>,
    set: &RuleSet,
    options: ReportOptions,
    in_macros: bool,
) -> Result<Option<Replaced>, Failure> {
    if in_macros {
        return rules::replaced_within(alloc, source.text, &set.rules, options.reading);
    }
    match rules::rewritten(alloc, source, set, options)? {
        Some(done) => Ok(Some(Replaced::of(alloc, done)?)),
        None => Ok(None),
    }
}

// Lists or replaces the matches of rules in a text. Returns the number of those that are in no
// other match.
fn rewrite<W: Write>(
    rt: &HostRuntime,
    out: &mut W,
    source: Source<'_>,
    set: &RuleSet,
    options: ReportOptions,
    then: Then,
    in_macros: bool,
    kept: &mut Kept,
) -> Result<u64, Failure> {
    let set = rules_for(rt, &mut kept.chosen, set, source)?;
    match replaced(rt.alloc(), source, set, options, in_macros)? {
        None => {
            write_unchanged(rt, out, source, then, kept.state)?;
            Ok(0)
        }
        Some(done) => {
            write_rewritten(rt, out, source, set, &done, options, then, &mut kept.state)?;
            Ok(done.edit.len() as u64)
        }
    }
}

// The named rules of a set. Of several with one name the first is described.
fn named_rules(alloc: Global, set: &RuleSet) -> Result<Vec<Described<'_>>, AllocError> {
    let mut seen: BTreeSet<&str> = BTreeSet::new(alloc);
    for rule in [Rule::Syntax, Rule::Parentheses, Rule::Match] {
        seen.insert(rule.id())?;
    }
    let mut named = Vec::new(alloc);
    for note in &set.notes {
        let name = note.name.as_str();
        if !name.is_empty() && seen.insert(name)? {
            let message = note.message.as_str();
            named.push(Described { name, message })?;
        }
    }
    Ok(named)
}

// Writes the line about a file that stands for a report.
fn write_summary<W: Write>(
    out: &mut W,
    path: &str,
    found: u64,
    summary: Summary,
) -> io::Result<()> {
    if found == 0 {
        return Ok(());
    }
    match summary {
        Summary::Whole => Ok(()),
        Summary::Count => writeln!(out, "{}:{found}", name(path)),
        Summary::Name => writeln!(out, "{}", name(path)),
    }
}

// Whether a path leads up. Behind a link to a folder, `..` is not the folder that the text before
// it names.
fn leads_up(path: &str) -> bool {
    for part in path.split('/') {
        if part == ".." {
            return true;
        }
    }
    false
}

// The path of a file without links and `..`; an empty text if there is none.
fn whole_path(rt: &HostRuntime, path: &str) -> io::Result<String> {
    match fs::canonicalize(rt, path) {
        Ok(whole) => Ok(String::from_str(rt.alloc(), whole.as_str())?),
        Err(_) => Ok(String::new(rt.alloc())),
    }
}

// The absolute path of a file, if names of files are links; else an empty text. Standard input has
// none.
fn link_of(rt: &HostRuntime, links: &Option<String>, path: &str) -> io::Result<String> {
    let below = path.strip_prefix("./").unwrap_or(path);
    match links {
        Some(_) if leads_up(path) => whole_path(rt, path),
        Some(_) if path.starts_with('/') => Ok(String::from_str(rt.alloc(), path)?),
        Some(folder) if path != "-" => {
            let folder = folder.as_str();
            let folder = folder.strip_suffix('/').unwrap_or(folder);
            Ok(format!(in rt.alloc(); "{folder}/{below}")?)
        }
        _ => Ok(String::new(rt.alloc())),
    }
}

impl Job {
    // The noun for what was found, in the totals.
    fn noun(&self) -> Noun {
        match &self.task {
            Task::Tree { .. } | Task::Highlight { ink: _ } => FOUND,
            Task::Outline => ITEMS,
            Task::Check | Task::Tokens => ERRORS,
            Task::Parens { then: _ } => PAIRS,
            Task::Query { .. } | Task::Search { .. } | Task::Rewrite { .. } => MATCHES,
        }
    }

    // Writes the report on a text. Returns how much was found.
    fn report<W: Write>(
        &self,
        rt: &HostRuntime,
        out: &mut W,
        source: Source<'_>,
        options: ReportOptions,
        kept: &mut Kept,
    ) -> Result<u64, Failure> {
        let alloc = rt.alloc();
        match &self.task {
            Task::Tree { showing } => tree::show(alloc, out, source, options.reading, showing),
            Task::Check => check(alloc, out, source, options),
            Task::Outline => outline::show(alloc, out, source, options),
            Task::Parens { then } => parens(rt, out, source, options, *then, kept.state),
            Task::Highlight { ink } => highlight::show(alloc, out, source, options.reading, *ink),
            Task::Tokens => tokens::show(alloc, out, source, options),
            Task::Query { pattern } => query::show(alloc, out, source, pattern, options),
            Task::Search { set, in_macros } => {
                search(rt, out, source, set, options, *in_macros, kept)
            }
            Task::Rewrite {
                set,
                then,
                in_macros,
            } => rewrite(rt, out, source, set, options, *then, *in_macros, kept),
        }
    }

    // Counts a report on a text, or reports its error. An error of the output ends the run.
    fn reported<W: Write>(
        &self,
        rt: &HostRuntime,
        out: &mut W,
        source: Source<'_>,
        edition: Edition,
        session: &mut Session,
        kept: &mut Kept,
    ) -> io::Result<()> {
        let mut options = self.options.report;
        options.reading.edition = edition;
        options.is_first = session.found == 0;
        let reported = match self.options.summary {
            Summary::Whole => self.report(rt, out, source, options, kept),
            _ => self.report(rt, &mut io::sink(), source, options, kept),
        };
        match reported {
            Ok(found) => {
                write_summary(out, source.name, found, self.options.summary)?;
                session.read(source.text.len(), found);
                session.show_progress(rt)
            }
            Err(Failure::Output(error)) => Err(error),
            Err(failure) => {
                out.flush()?;
                session.fail(status_of(&failure));
                tell(rt, failure, source.name)
            }
        }
    }

    // Writes the report on a file. A file that cannot be read is reported and counted.
    fn file<W: Write>(
        &self,
        rt: &HostRuntime,
        out: &mut W,
        path: &str,
        folder: Option<&str>,
        progress: &mut Progress,
    ) -> io::Result<()> {
        if progress.kept.state.is_over || progress.was_read(rt, path)? {
            return Ok(());
        }
        let is_input = path == "-";
        progress.kept.state.is_input = is_input;
        let shown = match &self.input_name {
            Some(input_name) if is_input => input_name.as_str(),
            _ => path,
        };
        let link = link_of(rt, &self.links, shown)?;
        match text_of(rt, path) {
            Ok(text) => {
                let source = Source {
                    name: shown,
                    folder,
                    link: link.as_str(),
                    text: text.as_str(),
                };
                let edition = progress.manifests.edition_of(rt, shown)?;
                let Progress { session, kept, .. } = progress;
                self.reported(rt, out, source, edition, session, kept)
            }
            Err(error) => {
                progress.session.fail(UNREAD);
                eprintln!(rt; "rust_tree: {}: {error}", name(shown))
            }
        }
    }

    // The files of a folder. One that cannot be searched is reported and counted.
    fn found(&self, rt: &HostRuntime, folder: &str, lost: &mut u64) -> io::Result<Vec<String>> {
        match files_below(rt, folder, self.options.search, &self.globs, lost) {
            Ok(files) => Ok(files),
            Err(error) => {
                eprintln!(rt; "rust_tree: {}: {error}", name(folder))?;
                *lost = lost.saturating_add(1);
                Ok(Vec::new(rt.alloc()))
            }
        }
    }

    // Writes the reports on all files of a folder.
    fn folder<W: Write>(
        &self,
        rt: &HostRuntime,
        out: &mut W,
        folder: &str,
        progress: &mut Progress,
    ) -> io::Result<()> {
        let mut lost = 0;
        for file in &self.found(rt, folder, &mut lost)? {
            self.file(rt, out, file.as_str(), Some(folder), progress)?;
        }
        if lost > 0 {
            progress.session.fail(UNREAD);
        }
        Ok(())
    }

    // Writes the front of a report in SARIF.
    fn start_sarif<W: Write>(&self, alloc: Global, out: &mut W) -> io::Result<()> {
        match &self.task {
            Task::Search { set, .. } | Task::Rewrite { set, .. } => {
                write_start(alloc, out, &named_rules(alloc, set)?)
            }
            _ => write_start(alloc, out, &[]),
        }
    }

    /// The exit status after a run. Pairs of parentheses that were removed do not count as found,
    /// nor do matches that were replaced, and a file may have items.
    pub fn status(&self, session: &Session) -> u8 {
        match &self.task {
            Task::Outline | Task::Parens { then: Then::Fix } => session.failed,
            Task::Rewrite {
                then: Then::Fix | Then::Ask,
                ..
            } => session.failed,
            _ => session.status(),
        }
    }

    /// Writes the reports on all files, and the totals.
    pub fn run<W: Write>(
        &self,
        rt: &HostRuntime,
        out: &mut W,
        names: &[&str],
    ) -> io::Result<Session> {
        let start = Instant::now(rt)?;
        let mut progress = Progress::new(rt, self.options.edition, names.len() > 1);
        let is_sarif = matches!(self.options.report.format, ReportFormat::Sarif)
            && self.options.summary == Summary::Whole;
        if is_sarif {
            self.start_sarif(rt.alloc(), out)?;
        }
        for name in names {
            if is_folder(rt, name) {
                self.folder(rt, out, name, &mut progress)?;
            } else {
                self.file(rt, out, name, None, &mut progress)?;
            }
        }
        if is_sarif {
            write_end(out)?;
        }
        out.flush()?;
        progress.session.tell(rt, self.noun(), start)?;
        Ok(progress.session)
    }
}
