//! The task that a command line asks for.

use crate::options::{ink, showing};
use clap::ArgMatches;
use rust_draw::highlight::HighlightFormat;
use rust_draw::tree::{Showing, TreeFormat};
use rust_query::{Pattern, QueryError, parse_pattern};
use rust_search::{RuleSet, RulesError, one_pattern, one_rule, rules_of};
use std::alloc::{AllocError, Global};
use std::fmt;

/// A command with its options.
#[derive(Drop)]
pub enum Task {
    /// Prints trees.
    Tree {
        showing: Showing,
    },
    /// Prints errors.
    Check,
    /// Lists items.
    Outline,
    /// Finds pairs of parentheses.
    Parens {
        then: Then,
    },
    /// Lists tokens.
    Tokens,
    /// Finds nodes and tokens.
    Query {
        pattern: Pattern,
    },
    /// Prints texts with their tokens coloured.
    Highlight {
        ink: HighlightFormat,
    },
    /// Finds what rules match, also in the arguments of macros if that is asked.
    Search {
        set: RuleSet,
        in_macros: bool,
    },
    /// Replaces what rules match.
    Rewrite {
        set: RuleSet,
        then: Then,
        in_macros: bool,
    },
}

/// What is done with pairs of parentheses, or with matches.
#[derive(Clone, Copy, Debug)]
pub enum Then {
    /// They are listed.
    List,
    /// A patch that removes or replaces them is printed.
    Diff,
    /// They are removed or replaced in the file.
    Fix,
    /// Those are replaced for which somebody who is asked says so.
    Ask,
}

/// Why a command line is refused.
#[derive(Drop)]
pub enum Refusal {
    /// A place or a range is invalid.
    Place,
    /// A page of HTML is asked for several files.
    Pages,
    /// `highlight` is asked for several files.
    Highlights,
    /// A pattern is invalid.
    Pattern(QueryError),
    /// A rule is invalid.
    Rule(RulesError),
    /// A file of rules is invalid.
    Rules(String, RulesError),
    /// A command has a rule and no file.
    NoFile,
    /// Out of memory.
    Memory,
}

impl From<AllocError> for Refusal {
    fn from(_error: AllocError) -> Refusal {
        Refusal::Memory
    }
}

// Writes what is wrong with a file of rules, behind the name of the file: `r.toml:2:11: ..` where
// it begins with a place.
fn write_rules<W: fmt::Write>(
    f: &mut fmt::Formatter<W>,
    path: &str,
    error: &RulesError,
) -> fmt::Result {
    match error {
        RulesError::Rule { .. }
        | RulesError::InFile { .. }
        | RulesError::Wrong { .. }
        | RulesError::NoTable { .. }
        | RulesError::NoTemplate { .. } => write!(f, "{path}:{error}"),
        _ => write!(f, "{path}: {error}"),
    }
}

impl fmt::Display for Refusal {
    fn fmt<W: fmt::Write>(&self, f: &mut fmt::Formatter<W>) -> fmt::Result {
        match self {
            Refusal::Place => f.write_str("a place is LINE:COLUMN, and a range START..END"),
            Refusal::Pages => f.write_str("`--format html` takes one file, and no folder"),
            Refusal::Highlights => f.write_str("`highlight` takes one file, and no folder"),
            Refusal::Pattern(error) => write!(f, "the pattern: {error}"),
            Refusal::Rule(error) => write!(f, "the rule: {error}"),
            Refusal::Rules(path, error) => write_rules(f, path.as_str(), error),
            Refusal::NoFile => f.write_str("a file or a folder is missing behind the rule"),
            Refusal::Memory => f.write_str("out of memory"),
        }
    }
}

fn tree_task(alloc: Global, has_several: bool, matches: &ArgMatches) -> Result<Task, Refusal> {
    let Some(showing) = showing(alloc, matches, has_several)? else {
        return Err(Refusal::Place);
    };
    if has_several && matches!(showing.drawing, TreeFormat::Html) && !showing.stats {
        return Err(Refusal::Pages);
    }
    Ok(Task::Tree { showing })
}

fn highlight_task(has_several: bool, matches: &ArgMatches) -> Result<Task, Refusal> {
    if has_several {
        return Err(Refusal::Highlights);
    }
    Ok(Task::Highlight { ink: ink(matches) })
}

fn query_task(alloc: Global, matches: &ArgMatches) -> Result<Task, Refusal> {
    match parse_pattern(alloc, matches.get_str("PATTERN").unwrap_or("")) {
        Ok(pattern) => Ok(Task::Query { pattern }),
        Err(error) => Err(Refusal::Pattern(error)),
    }
}

fn then_of(matches: &ArgMatches) -> Then {
    if matches.get_flag("interactive") {
        Then::Ask
    } else if matches.get_flag("fix") {
        Then::Fix
    } else if matches.get_flag("diff") {
        Then::Diff
    } else {
        Then::List
    }
}

fn parens_task(matches: &ArgMatches) -> Task {
    Task::Parens {
        then: then_of(matches),
    }
}

/// Whether a command takes rules.
pub fn takes_rules(name: &str) -> bool {
    matches!(name, "search" | "rewrite")
}

/// The files that a command line names: its words, without the rule in front of them.
pub fn files_of<'a>(name: &str, matches: &'a ArgMatches) -> &'a [&'a str] {
    let words = matches.get_strs("FILE").unwrap_or(&[]);
    if takes_rules(name) && matches.get_str("rules").is_none() {
        words.get(1..).unwrap_or(&[])
    } else {
        words
    }
}

// The task of a command with its rules.
fn task_with(name: &str, set: RuleSet, matches: &ArgMatches) -> Task {
    let in_macros = matches.get_flag("macros");
    if name == "rewrite" {
        Task::Rewrite {
            set,
            then: then_of(matches),
            in_macros,
        }
    } else {
        Task::Search { set, in_macros }
    }
}

// The rule of a command line, for a command.
fn rule_of(alloc: Global, name: &str, rule: &str) -> Result<RuleSet, RulesError> {
    if name == "rewrite" {
        one_rule(alloc, rule)
    } else {
        one_pattern(alloc, rule)
    }
}

/// The task of a command with the rule of its command line.
pub fn task_of_rule(alloc: Global, name: &str, matches: &ArgMatches) -> Result<Task, Refusal> {
    if files_of(name, matches).is_empty() {
        return Err(Refusal::NoFile);
    }
    let words = matches.get_strs("FILE").unwrap_or(&[]);
    let rule = match words.first() {
        Some(rule) => *rule,
        None => "",
    };
    match rule_of(alloc, name, rule) {
        Ok(set) => Ok(task_with(name, set, matches)),
        Err(error) => Err(Refusal::Rule(error)),
    }
}

// A refusal of the rules of a file.
fn refusal_of(alloc: Global, path: &str, error: RulesError) -> Refusal {
    match String::from_str(alloc, path) {
        Ok(path) => Refusal::Rules(path, error),
        Err(_) => Refusal::Rule(error),
    }
}

/// The task of a command with the rules of a file.
pub fn task_of_rules(
    alloc: Global,
    name: &str,
    path: &str,
    text: &str,
    matches: &ArgMatches,
) -> Result<Task, Refusal> {
    match rules_of(alloc, path, text, name == "rewrite") {
        Ok(set) => Ok(task_with(name, set, matches)),
        Err(error) => Err(refusal_of(alloc, path, error)),
    }
}

/// The task of a command with its options. `has_several`: whether the command line names more than
/// one file, or a folder.
pub fn task_of(
    alloc: Global,
    name: &str,
    has_several: bool,
    matches: &ArgMatches,
) -> Result<Task, Refusal> {
    match name {
        "tree" => tree_task(alloc, has_several, matches),
        "check" => Ok(Task::Check),
        "highlight" => highlight_task(has_several, matches),
        "outline" => Ok(Task::Outline),
        "tokens" => Ok(Task::Tokens),
        "query" => query_task(alloc, matches),
        "search" | "rewrite" => task_of_rule(alloc, name, matches),
        _ => Ok(parens_task(matches)),
    }
}
