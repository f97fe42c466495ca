//! The kinds of syntax that the sides of a rule can be.
ghost use Rattle.std.specs.Prelude.{◌≡◌, true, IfErr};
ghost use Rattle.rust_rewrite.specs.Rules.{is_other};

use crate::error::RuleError;
use crate::side::{Side, Words};
use lossless_tree::{SyntaxKind, SyntaxNode};
use ras_front_end::{Entry, FrontEnd, SyntaxError};
use ras_node::sets::{Exprs, Items, KindSet, Pats, Types};
use ras_parsing::{Parse, read};
use rust_report::plain_message;
use std::alloc::{AllocError, Global};
use tree_match::ARM;

/// A kind of syntax that the sides of a rule can be.
#[derive(Clone, Copy, Debug, PartialEq, Eq, Drop)]
pub(crate) enum RuleKind {
    /// An expression.
    Expr,
    /// A type.
    Ty,
    /// A pattern.
    Pat,
    /// A path.
    Path,
    /// A statement with its `;`.
    Stmt,
    /// An item.
    Item,
}

/// All kinds.
pub(crate) static KINDS: [RuleKind; 6] = [
    RuleKind::Expr,
    RuleKind::Ty,
    RuleKind::Pat,
    RuleKind::Path,
    RuleKind::Stmt,
    RuleKind::Item,
];

/// Why a side is not of a kind, behind the kind's name, and where in its text.
#[derive(Drop)]
pub(crate) struct Unfit {
    pub(crate) message: String,
    pub(crate) at: usize,
}

impl RuleKind {
    // What it is called.
    fn name(self) -> &'static str {
        match self {
            RuleKind::Expr => "expression",
            RuleKind::Ty => "type",
            RuleKind::Pat => "pattern",
            RuleKind::Path => "path",
            RuleKind::Stmt => "statement",
            RuleKind::Item => "item",
        }
    }

    // The entry that parses it, with what stands before it and behind it.
    fn entry(self) -> (Entry, &'static str, &'static str) {
        match self {
            RuleKind::Expr => (Entry::Expr, "", ""),
            RuleKind::Ty | RuleKind::Path => (Entry::SourceFile, "type p=", ";"),
            RuleKind::Pat => (Entry::SourceFile, "fn p(){match(){", "=>()}}"),
            RuleKind::Stmt => (Entry::SourceFile, "fn p(){", "}"),
            RuleKind::Item => (Entry::SourceFile, "", ""),
        }
    }

    // Whether a node of this kind is one, or a pair round one.
    fn has_outside(self, kind: SyntaxKind) -> bool {
        kind == SyntaxKind::PAREN_EXPR && self == RuleKind::Expr || self.has(kind)
    }

    // Whether a node of this kind is one.
    fn has(self, kind: SyntaxKind) -> bool {
        match self {
            RuleKind::Expr => Exprs::has(kind) && kind != SyntaxKind::PAREN_EXPR,
            RuleKind::Ty => Types::has(kind),
            RuleKind::Pat => Pats::has(kind),
            RuleKind::Path => kind == SyntaxKind::PATH,
            RuleKind::Stmt => matches!(kind, SyntaxKind::LET_STMT | SyntaxKind::EXPR_STMT),
            RuleKind::Item => Items::has(kind),
        }
    }
}

// Whether a node is the text from one offset to another.
fn is_from_to(node: &SyntaxNode, start: usize, end: usize) -> bool {
    let range = node.text_range();
    range.start().raw() as usize == start && range.end().raw() as usize == end
}

// The outermost node of a kind that is the whole text between two offsets; for an expression what
// is in the pairs round it.
fn node_in(kind: RuleKind, root: &SyntaxNode, start: usize, end: usize) -> Option<SyntaxNode> {
    let mut is_whole = false;
    for node in root.descendants() {
        is_whole = is_whole || is_from_to(&node, start, end) && kind.has_outside(node.kind());
        if is_whole && kind.has(node.kind()) {
            return Some(node);
        }
    }
    None
}

// What the parser says behind a word that is an element of a list by itself: an arm, a field or a
// parameter without what follows its name, or an item. In `match x { p_0 }` it expects `=>`.
const ARROW: &str = "expected FAT_ARROW";

const OF_ELEMENTS: [&str; 6] = [
    ARROW,
    "expected expression",
    "expected COLON",
    "expected type",
    "missing type for function parameter",
    "expected an item",
];

// What was read of a side as one of a kind.
#[derive(Drop)]
struct Reading {
    node: Option<SyntaxNode>,
    // The first error that counts: its message, and where it is in the text.
    error: Option<(String, usize)>,
    // Where arms are that have nothing but a word for a list.
    arms: Vec<usize>,
}

// The text that is parsed for a text of a kind.
fn file_of(alloc: Global, text: &str, before: &str, behind: &str) -> Result<String, AllocError> {
    let mut file = String::from_str(alloc, before)?;
    file.push_str(text)?;
    file.push_str(behind)?;
    Ok(file)
}

// Where an error is in a text that starts at an offset.
fn place_of(error: &SyntaxError, start: usize) -> usize {
    (error.range().start().raw() as usize).saturating_sub(start)
}

// Whether an error is one of an element of a list, at a place where a word for one ends.
fn is_of_element(error: &SyntaxError, lists: &[usize], start: usize) -> bool {
    lists.contains(&place_of(error, start)) && OF_ELEMENTS.contains(&error.message())
}

// The places of such errors that want an arm.
fn arms_of(
    alloc: Global,
    errors: &[SyntaxError],
    lists: &[usize],
    start: usize,
) -> Result<Vec<usize>, AllocError> {
    let mut arms = Vec::new(alloc);
    for error in errors {
        if is_of_element(error, lists, start) && error.message() == ARROW {
            arms.push(place_of(error, start))?;
        }
    }
    Ok(arms)
}

// The first of the other errors, as it is told, and its place in a text of so many bytes.
fn told_of(
    alloc: Global,
    errors: &[SyntaxError],
    lists: &[usize],
    start: usize,
    len: usize,
) -> Result<Option<(String, usize)>, AllocError> {
    for error in errors {
        if !is_of_element(error, lists, start) {
            let message = format!(in alloc; "{}", plain_message(error.message()))?;
            return Ok(Some((message, place_of(error, start).min(len))));
        }
    }
    Ok(None)
}

// What is read of a text that starts at an offset of the one that was parsed.
fn read_in(
    alloc: Global,
    parse: &Parse<SyntaxNode>,
    lists: &[usize],
    kind: RuleKind,
    start: usize,
    len: usize,
) -> Result<Reading, AllocError> {
    let errors = parse.errors(alloc)?;
    Ok(Reading {
        node: node_in(kind, parse.root(), start, start.saturating_add(len)),
        error: told_of(alloc, &errors, lists, start, len)?,
        arms: arms_of(alloc, &errors, lists, start)?,
    })
}

// Reads a text as one of a kind. At some places of it, where words for lists end, errors of
// elements do not count.
fn reading_of<F: FrontEnd>(
    alloc: Global,
    words: &Words<'_, F>,
    text: &str,
    lists: &[usize],
    kind: RuleKind,
) -> Result<Reading, RuleError>
    ensures { IfErr result (λ e. is_other e.fault ≡ true) }
{
    let (entry, before, behind) = kind.entry();
    let file = file_of(alloc, text, before, behind)?;
    let parse: Parse<SyntaxNode> = read(alloc, words.front, entry, file.as_str(), words.edition)?;
    Ok(read_in(alloc, &parse, lists, kind, before.len(), text.len())?)
}

// A text in which an arm of a `match` stands in place of the word that ends at each of some places:
// behind `p_0` in `match x { p_0, _ => 1 }` the parser takes the comma for an expression.
fn with_arms(alloc: Global, text: &str, ends: &[usize]) -> Result<String, AllocError> {
    let mut out = String::with_capacity(alloc, text.len())?;
    let mut done = 0usize;
    for end in ends {
        if *end > done {
            out.push_str(text.get(done..*end).unwrap_or(""))?;
            out.push_str(ARM)?;
            done = *end;
        }
    }
    out.push_str(text.get(done..).unwrap_or(""))?;
    Ok(out)
}

// Where words end in such a text that end at these places.
fn moved(alloc: Global, lists: &[usize], ends: &[usize]) -> Result<Vec<usize>, AllocError> {
    let mut places = Vec::with_capacity(alloc, lists.len())?;
    for list in lists {
        let before = ends.iter().filter(|end| **end < *list).count();
        places.push(list.saturating_add(before.saturating_mul(ARM.len())))?;
    }
    Ok(places)
}

// A side as one of a kind, with arms made of its placeholders where it needs them.
fn best_reading<F: FrontEnd>(
    alloc: Global,
    words: &Words<'_, F>,
    side: &Side,
    kind: RuleKind,
) -> Result<Reading, RuleError>
    ensures { IfErr result (λ e. is_other e.fault ≡ true) }
{
    let text = side.text.as_str();
    let reading = reading_of(alloc, words, text, &side.lists, kind)?;
    if reading.error.is_none() || reading.arms.is_empty() {
        return Ok(reading);
    }
    let arms = with_arms(alloc, text, &reading.arms)?;
    let lists = moved(alloc, &side.lists, &reading.arms)?;
    let other = reading_of(alloc, words, arms.as_str(), &lists, kind)?;
    Ok(if other.error.is_none() {
        other
    } else {
        reading
    })
}

fn misfit(alloc: Global, kind: RuleKind, told: &str, at: usize) -> Result<Unfit, RuleError>
    ensures { IfErr result (λ e. is_other e.fault ≡ true) }
{
    Ok(Unfit {
        message: format!(in alloc; "{}: {told}", kind.name())?,
        at,
    })
}

/// The node of a side as one of a kind; or why it is none.
pub(crate) fn node_of<F: FrontEnd>(
    alloc: Global,
    words: &Words<'_, F>,
    side: &Side,
    kind: RuleKind,
) -> Result<Result<SyntaxNode, Unfit>, RuleError>
    ensures { IfErr result (λ e. is_other e.fault ≡ true) }
{
    let reading = best_reading(alloc, words, side, kind)?;
    match (reading.error, reading.node) {
        (Some((told, at)), _) => Ok(Err(misfit(alloc, kind, told.as_str(), at)?)),
        (None, Some(node)) => Ok(Ok(node)),
        (None, None) => Ok(Err(misfit(alloc, kind, "it is not the whole text", 0)?)),
    }
}
