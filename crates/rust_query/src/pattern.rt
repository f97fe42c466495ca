//! Patterns, and how they are written: `FN > NAME@name`, `FN|STRUCT//NAME="new"`,
//! `STRING~"^\"http"`.

use crate::reader::{Reader, unescaped};
use lossless_tree::{KINDS, SyntaxKind};
use regex::Regex;
use rust_kinds::{from_name, name_of};
use rust_report::{Link, PatternError};
use std::alloc::{AllocError, AllocFailed, Global};
use std::fmt;
use strsim::levenshtein;

// The longest word, in bytes, for which a near name is looked for.
const LONGEST: usize = 64;

/// What the text of a node or token has to be.
#[derive(Drop)]
pub enum TextTest {
    /// Any.
    Any,
    /// This one.
    Is(String),
    /// One in which the regular expression of this number has a match.
    Fits(usize),
}

/// One of the alternatives of a step.
#[derive(Drop)]
pub struct Choice {
    /// The kind; `None` for any.
    pub kind: Option<SyntaxKind>,
    /// The text.
    pub text: TextTest,
}

/// A step of a pattern.
#[derive(Drop)]
pub struct Step {
    /// How a match of it is related to one of the step before it; not used in the first step.
    pub link: Link,
    /// The alternatives.
    pub choices: Vec<Choice>,
    /// The name under which a match is shown.
    pub name: Option<String>,
}

/// A pattern.
#[derive(Drop)]
pub enum Pattern {
    /// Kinds alone, the last step first: what fits them is defined and proved in `rust_report`.
    Kinds(Vec<rust_report::Step>),
    /// Steps with texts, alternatives or names.
    Texts(TextPattern),
}

/// A pattern with texts, alternatives or names.
#[derive(Drop)]
pub struct TextPattern {
    /// The steps, of which the last one is for what is found.
    pub steps: Vec<Step>,
    /// The regular expressions of the steps.
    pub regexes: Vec<Regex>,
}

/// Why a text is not a pattern.
#[derive(Drop)]
pub enum QueryError {
    /// A kind is missing.
    NoKind,
    /// No kind has this name; and a name that is near, if there is one.
    UnknownKind(String, Option<&'static str>),
    /// A text in double quotes is missing, or has no end.
    NoQuote,
    /// A name is missing behind `@`.
    NoName,
    /// What follows a step is neither `>` nor `//`.
    NoLink,
    /// A regular expression is invalid, for this reason.
    Regex(regex::Error),
    /// Out of memory.
    Memory,
}

impl From<AllocError> for QueryError {
    fn from(_error: AllocError) -> QueryError {
        QueryError::Memory
    }
}

impl<T: Drop> From<AllocFailed<T>> for QueryError {
    fn from(_error: AllocFailed<T>) -> QueryError {
        QueryError::Memory
    }
}

impl fmt::Display for QueryError {
    fn fmt<W: fmt::Write>(&self, f: &mut fmt::Formatter<W>) -> fmt::Result {
        match self {
            QueryError::NoKind => f.write_str("a kind is missing"),
            QueryError::UnknownKind(word, None) => {
                write!(
                    f,
                    "no kind is named `{word}`; `tree` shows the kinds of a text"
                )
            }
            QueryError::UnknownKind(word, Some(near)) => {
                write!(
                    f,
                    "no kind is named `{word}`, but `{near}` is one; `tree` shows the kinds of a text"
                )
            }
            QueryError::NoQuote => f.write_str("a text in double quotes is missing, or has no end"),
            QueryError::NoName => f.write_str("a name is missing behind `@`"),
            QueryError::NoLink => f.write_str("a step is followed by `>`, `//`, `|` or `@`"),
            QueryError::Regex(error) => write!(f, "{error}"),
            QueryError::Memory => f.write_str("out of memory"),
        }
    }
}

// A name of a kind that is near, and how many signs have to be put in, left out or replaced to make
// it of a word.
#[derive(Clone, Copy)]
struct Near {
    name: Option<&'static str>,
    distance: usize,
}

impl Near {
    // Takes a name, if it is nearer.
    fn try_name(
        &mut self,
        alloc: Global,
        word: &str,
        name: &'static str,
    ) -> Result<(), AllocError> {
        let distance = levenshtein(alloc, word, name)?;
        if distance < self.distance {
            *self = Near {
                name: Some(name),
                distance,
            };
        }
        Ok(())
    }
}

// The name of a kind that is nearest to a word in capitals. At most a third of the signs differ.
fn nearest(alloc: Global, word: &str) -> Result<Option<&'static str>, AllocError> {
    let mut near = Near {
        name: None,
        distance: (word.len() / 3).saturating_add(1),
    };
    if word.len() > LONGEST {
        return Ok(None);
    }
    for &kind in &KINDS {
        if let Some(name) = name_of(kind) {
            near.try_name(alloc, word, name)?;
        }
    }
    for number in 0..=u16::MAX {
        let Some(name) = name_of(SyntaxKind::OTHER(number)) else {
            break;
        };
        near.try_name(alloc, word, name)?;
    }
    Ok(near.name)
}

// The error of a word that names no kind.
fn unknown(alloc: Global, word: &str) -> QueryError {
    match unknown_kind(alloc, word) {
        Ok(error) => error,
        Err(_) => QueryError::Memory,
    }
}

fn unknown_kind(alloc: Global, word: &str) -> Result<QueryError, AllocError> {
    let upper = word.to_ascii_uppercase(alloc)?;
    let near = nearest(alloc, upper.as_str())?;
    Ok(QueryError::UnknownKind(String::from_str(alloc, word)?, near))
}

// The kind that a word names, in any case; `None` for any kind.
fn kind_of(alloc: Global, word: &str) -> Result<Option<SyntaxKind>, QueryError> {
    if word.is_empty() {
        return Err(QueryError::NoKind);
    }
    if word == "*" {
        return Ok(None);
    }
    let name = word.to_ascii_uppercase(alloc)?;
    match from_name(name.as_str()) {
        Some(kind) => Ok(Some(kind)),
        None => Err(unknown(alloc, word)),
    }
}

// Adds a regular expression.
fn push_regex(
    alloc: Global,
    regexes: &mut Vec<Regex>,
    source: &str,
) -> Result<TextTest, QueryError> {
    let source = unescaped(alloc, source, false)?;
    match Regex::new(alloc, source.as_str()) {
        Ok(regex) => {
            let test = TextTest::Fits(regexes.len());
            regexes.push(regex)?;
            Ok(test)
        }
        Err(regex::Error::OutOfMemory) => Err(QueryError::Memory),
        Err(error) => Err(QueryError::Regex(error)),
    }
}

fn parse_text(
    alloc: Global,
    reader: &mut Reader<'_>,
    regexes: &mut Vec<Regex>,
) -> Result<TextTest, QueryError> {
    reader.skip_blanks();
    if reader.take("=") {
        let text = reader.quoted()?;
        return Ok(TextTest::Is(unescaped(alloc, text, true)?));
    }
    if reader.take("~") {
        let source = reader.quoted()?;
        return push_regex(alloc, regexes, source);
    }
    Ok(TextTest::Any)
}

fn parse_choices(
    alloc: Global,
    reader: &mut Reader<'_>,
    regexes: &mut Vec<Regex>,
    limit: usize,
) -> Result<Vec<Choice>, QueryError> {
    let mut choices = Vec::new(alloc);
    for _turn in 0..=limit {
        reader.skip_blanks();
        let kind = kind_of(alloc, reader.word())?;
        let text = parse_text(alloc, reader, regexes)?;
        choices.push(Choice { kind, text })?;
        reader.skip_blanks();
        if !reader.take("|") {
            break;
        }
    }
    Ok(choices)
}

fn parse_name(alloc: Global, reader: &mut Reader<'_>) -> Result<Option<String>, QueryError> {
    if !reader.take("@") {
        return Ok(None);
    }
    let name = reader.word();
    if name.is_empty() {
        return Err(QueryError::NoName);
    }
    Ok(Some(String::from_str(alloc, name)?))
}

// The link to the next step; none at the end.
fn parse_link(reader: &mut Reader<'_>) -> Result<Option<Link>, QueryError> {
    reader.skip_blanks();
    if reader.is_done() {
        Ok(None)
    } else if reader.take(">") {
        Ok(Some(Link::Child))
    } else if reader.take("//") {
        Ok(Some(Link::Within))
    } else {
        Err(QueryError::NoLink)
    }
}

// Whether a sign is none of a pattern of kinds alone.
fn is_text_sign(sign: char) -> bool {
    matches!(sign, '"' | '|' | '@' | '=' | '~')
}

// Parses a pattern with texts, alternatives or names.
fn parse_texts(alloc: Global, text: &str) -> Result<TextPattern, QueryError> {
    let mut reader = Reader::new(text);
    let mut steps = Vec::new(alloc);
    let mut regexes = Vec::new(alloc);
    let mut link = Link::Child;
    for _turn in 0..=text.len() {
        let choices = parse_choices(alloc, &mut reader, &mut regexes, text.len())?;
        reader.skip_blanks();
        let name = parse_name(alloc, &mut reader)?;
        steps.push(Step {
            link,
            choices,
            name,
        })?;
        match parse_link(&mut reader)? {
            Some(next) => link = next,
            None => break,
        }
    }
    Ok(TextPattern { steps, regexes })
}

/// Parses a pattern: steps with `>` before a child, or `//` before a descendant. A step is the name
/// of a kind in any case, or `*`, perhaps with `="text"` or `~"regular expression"`; several are
/// joined by `|`, and `@name` behind it names what fits.
///
/// # Errors
///
/// The first thing that is wrong; `Memory` if memory runs out.
pub fn parse_pattern(alloc: Global, text: &str) -> Result<Pattern, QueryError> {
    if text.contains(is_text_sign) {
        return Ok(Pattern::Texts(parse_texts(alloc, text)?));
    }
    // The signs of a pattern have no case.
    let upper = text.to_ascii_uppercase(alloc)?;
    match rust_report::parse_pattern(alloc, upper.as_str()) {
        Ok(steps) => Ok(Pattern::Kinds(steps)),
        Err(PatternError::NoKind) => Err(QueryError::NoKind),
        Err(PatternError::UnknownKind(word)) => Err(unknown(alloc, word.as_str())),
        Err(PatternError::Memory) => Err(QueryError::Memory),
    }
}
