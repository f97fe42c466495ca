//! The text of a pattern.
ghost use Rattle.std.specs.Prelude.{◌≡◌, ◌↔◌, ◌++◌, ◌∷◌, [], Option, Some, IfSome, MatchResult, reverse};
ghost use Rattle.syntax_kind.specs.declared.syntax_kind.SyntaxKind.{SyntaxKind};
ghost use Rattle.syntax_kind.specs.Kinds.{IsKind};
ghost use Rattle.rust_kinds.specs.Names.{IsNamed};
ghost use Rattle.rust_report.specs.declared.pattern.Link.TheVariants.{Child};
ghost use Rattle.rust_report.specs.declared.pattern.Step.{Step};
ghost use Rattle.rust_report.specs.Words.{words, is_slash, sign_at, width, Means, Fails, AreSteps, IsRefused, IsFirstSign};

use crate::pattern::{Link, Step};
use lossless_tree::SyntaxKind;
use rust_kinds::from_name;
use std::alloc::{AllocError, AllocFailed, Global};
use std::error::Error;
use std::fmt;

/// Why a text is not a pattern.
#[derive(Debug, Drop)]
pub enum PatternError {
    /// A kind is missing at the start, at the end, or between two signs.
    NoKind,
    /// No kind has this name.
    UnknownKind(String),
    /// Out of memory.
    Memory,
}

impl fmt::Display for PatternError {
    ghost use Rattle.std.specs.Prelude.{Some};
    ghost use Rattle.rust_report.specs.Words.{error_text};

    ghost output = { λ error. Some (error_text error) };

    fn fmt<W: fmt::Write>(&self, f: &mut fmt::Formatter<W>) -> fmt::Result {
        match self {
            PatternError::NoKind => f.write_str("a kind is missing"),
            PatternError::UnknownKind(word) => write!(f, "no kind is named `{word}`"),
            PatternError::Memory => f.write_str("out of memory"),
        }
    }
}

impl Error for PatternError {}

impl From<AllocError> for PatternError {
    ghost use Rattle.std.specs.Prelude.{◌≡◌};
    ghost use Rattle.rust_report.specs.declared.words.PatternError.TheVariants.{Memory};

    ghost from_gives = { λ _ r. r ≡ Memory };

    fn from(_error: AllocError) -> PatternError {
        PatternError::Memory
    }
}

impl<T: Drop> From<AllocFailed<T>> for PatternError {
    ghost use Rattle.std.specs.Prelude.{◌≡◌};
    ghost use Rattle.rust_report.specs.declared.words.PatternError.TheVariants.{Memory};

    ghost from_gives = { λ _ r. r ≡ Memory };

    fn from(_error: AllocFailed<T>) -> PatternError {
        PatternError::Memory
    }
}

/// The kind with this name, also one of the table of `rust_kinds`. Returns `None` if no kind has
/// it.
pub fn kind_named(name: &str) -> Option<SyntaxKind>
    ensures exact { (k : SyntaxKind) → IsKind k → (result ≡ Some k) ↔ IsNamed k name.now }
    ensures kind { IfSome result IsKind }
{
    from_name(name)
}

// The kind that a word of a pattern names; `None` for any kind.
fn kind_of_word(alloc: Global, word: &str) -> Result<Option<SyntaxKind>, PatternError>
    ensures { MatchResult result (Means word.now) (Fails word.now) }
{
    let word = word.trim();
    if word.is_empty() {
        return Err(PatternError::NoKind);
    }
    if word == "*" {
        return Ok(None);
    }
    match kind_named(word) {
        Some(kind) => Ok(Some(kind)),
        None => Err(PatternError::UnknownKind(String::from_str(alloc, word)?)),
    }
}

// How many bytes the sign of a link has.
fn width(link: Link) -> usize
    ensures { result ≡ width link }
{
    match link {
        Link::Child => 1,
        Link::Within => 2,
    }
}

// The sign that starts with a byte and the bytes after it.
fn sign_at(first: u8, behind: &[u8]) -> Option<Link>
    ensures { result ≡ sign_at first behind.now }
{
    if first == b'>' {
        return Some(Link::Child);
    }
    if first == b'/' && is_slash(behind) {
        return Some(Link::Within);
    }
    None
}

fn is_slash(text: &[u8]) -> bool
    ensures { result ≡ is_slash text.now }
{
    match text.split_first() {
        Some((first, _)) => *first == b'/',
        None => false,
    }
}

// Where the first word of a text ends, and the link of the sign there. Returns `None` if the text
// is one word.
fn first_sign(text: &[u8]) -> Option<(usize, Link)>
    ensures { IsFirstSign text.now result }
{
    let mut rest = text;
    while let Some((first, behind)) = rest.split_first() {
        if let Some(link) = sign_at(*first, behind) {
            return Some((text.len() - rest.len(), link));
        }
        rest = behind;
    }
    None
}

// Adds the step of a word.
fn push_step(
    alloc: Global,
    steps: &mut Vec<Step>,
    link: Link,
    word: &str,
) -> Result<(), PatternError>
    ensures { MatchResult result
        (λ _. (kind : Option SyntaxKind) × Means word.now kind
        × (steps.new.items ≡ steps.old.items ++ record { link = link; kind = kind } ∷ []))
        (Fails word.now) }
{
    let kind = kind_of_word(alloc, word)?;
    steps.push(Step { link, kind })?;
    Ok(())
}

/// Parses a pattern such as `FN > NAME` or `CALL_EXPR//PAREN_EXPR` into its steps, the last one
/// first: the step of the nodes and tokens that are searched.
///
/// A step is the name of a kind, or `*` for any kind. `>` is before a child, `//` before a
/// descendant at any depth. White space around a step is ignored. `///` is `//` and a word that
/// begins with `/`.
///
/// # Errors
///
/// The error of the first word that is no step: `NoKind` if it is empty, else `UnknownKind` with
/// the word; `Memory` if memory runs out.
pub fn parse_pattern(alloc: Global, text: &str) -> Result<Vec<Step>, PatternError>
    ensures { MatchResult result (λ steps. AreSteps (words Child text.now) (reverse steps.items))
        (IsRefused (words Child text.now)) }
{
    let mut steps = Vec::new(alloc);
    let mut link = Link::Child;
    let mut rest = text;
    while let Some((at, next)) = first_sign(rest.as_bytes()) {
        push_step(alloc, &mut steps, link, &rest[..at])?;
        rest = &rest[at + width(next)..];
        link = next;
    }
    push_step(alloc, &mut steps, link, rest)?;
    steps.reverse();
    Ok(steps)
}
