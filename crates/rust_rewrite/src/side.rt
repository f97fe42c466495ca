//! A side of a rule, in which each placeholder is a word.
ghost use Rattle.std.specs.Prelude.{◌≡◌, true, IfErr};
ghost use Rattle.rust_rewrite.specs.Rules.{is_other};

use crate::condition::{begins_word, read_braced};
use crate::error::{RuleError, RuleFault, fault};
use lossless_tree::{NodeOrToken, SyntaxKind, SyntaxNode, SyntaxToken};
use ras_front_end::{Edition, Entry, FrontEnd};
use ras_parsing::{Parse, read};
use std::alloc::{AllocError, Global};
use std::mem;
use tree_match::{Condition, Hole, Piece};

/// The placeholders of a rule: their names, and where each stands first.
#[derive(Drop)]
pub(crate) struct Names {
    names: Vec<(String, usize)>,
    holes: Vec<Hole>,
}

/// One side of a rule.
#[derive(Drop)]
pub(crate) struct Side {
    /// The text in which each placeholder is a word.
    pub(crate) text: String,
    pieces: Vec<Piece>,
    // Where each piece starts in that text, and in the rule.
    starts: Vec<(usize, usize)>,
    /// Where the words of placeholders for lists end in the text.
    pub(crate) lists: Vec<usize>,
}

/// What the sides of a rule are made of.
#[derive(Drop)]
pub(crate) struct Words<'a, F: FrontEnd> {
    pub(crate) front: &'a F,
    pub(crate) edition: Edition,
    /// What the word of each placeholder begins with.
    pub(crate) prefix: &'a str,
}

fn ends_word(text: &str) -> bool {
    match text.as_bytes().last() {
        None => false,
        Some(byte) => byte.is_ascii_alphanumeric() || *byte == b'_' || *byte >= 128,
    }
}

/// A word that no name of the text begins with.
pub(crate) fn prefix_for(alloc: Global, text: &str) -> Result<String, AllocError> {
    let mut longest = 0usize;
    let mut run = 0usize;
    for byte in text.as_bytes() {
        run = if *byte == b'_' {
            run.saturating_add(1)
        } else {
            0
        };
        longest = longest.max(run);
    }
    let mut prefix = String::from_str(alloc, "p_")?;
    for _turn in 0..longest {
        prefix.push('_')?;
    }
    Ok(prefix)
}

impl Names {
    pub(crate) fn new(alloc: Global) -> Names {
        Names {
            names: Vec::new(alloc),
            holes: Vec::new(alloc),
        }
    }

    // Whether the placeholder with a number is one for a list.
    fn is_list(&self, number: usize) -> bool {
        self.holes.get(number).is_some_and(|hole| hole.is_list)
    }

    // The number of a name; a new one for `_` and for a name that is new, if it may be.
    fn number_of(
        &mut self,
        alloc: Global,
        name: &str,
        is_list: bool,
        offset: usize,
        may_be_new: bool,
    ) -> Result<usize, RuleError>
        ensures { IfErr result (λ e. is_other e.fault ≡ true) }
    {
        if name != "_" {
            for (number, known) in self.names.iter().enumerate() {
                if known.0.as_str() == name {
                    if self.is_list(number) != is_list {
                        return Err(fault(RuleFault::ListName, offset));
                    }
                    return Ok(number);
                }
            }
        }
        if !may_be_new {
            return Err(fault(RuleFault::Unknown, offset));
        }
        let number = self.names.len();
        self.names
            .push((String::from_str(alloc, name)?, offset))
            .map_err(AllocError::from)?;
        self.holes
            .push(Hole {
                conditions: Vec::new(alloc),
                is_list,
            })
            .map_err(AllocError::from)?;
        Ok(number)
    }

    // Adds conditions of the placeholder with a number.
    fn add(&mut self, number: usize, conditions: Vec<Condition>) -> Result<(), AllocError> {
        if let Some(hole) = self.holes.get_mut(number) {
            for condition in conditions {
                hole.conditions.push(condition)?;
            }
        }
        Ok(())
    }

    /// The placeholders, each with its conditions.
    pub(crate) fn take_holes(&mut self, alloc: Global) -> Vec<Hole> {
        mem::replace(&mut self.holes, Vec::new(alloc))
    }

    /// Where the placeholder with a name that is none for a list stands first.
    pub(crate) fn start_of(&self, name: &str) -> Option<usize> {
        for (number, known) in self.names.iter().enumerate() {
            if known.0.as_str() == name && !self.is_list(number) {
                return Some(known.1);
            }
        }
        None
    }

    /// Where the placeholder with a number stands first.
    pub(crate) fn offset(&self, number: usize) -> Option<usize> {
        let (_, offset) = self.names.get(number)?;
        Some(*offset)
    }
}

impl Side {
    fn push_text(&mut self, alloc: Global, text: &str, offset: usize) -> Result<(), AllocError> {
        if !text.is_empty() {
            self.starts.push((self.text.len(), offset))?;
            self.text.push_str(text)?;
            self.pieces
                .push(Piece::Text(String::from_str(alloc, text)?))?;
        }
        Ok(())
    }

    fn push_hole(
        &mut self,
        prefix: &str,
        number: usize,
        is_list: bool,
        offset: usize,
    ) -> Result<(), AllocError> {
        self.starts.push((self.text.len(), offset))?;
        self.text.push_str(prefix)?;
        write!(self.text, "{number}")?;
        if is_list {
            self.lists.push(self.text.len())?;
        }
        self.pieces
            .push(Piece::Hole(number))
            .map_err(AllocError::from)
    }

    fn push_end(&mut self, offset: usize) -> Result<(), AllocError> {
        self.starts.push((self.text.len(), offset))?;
        Ok(())
    }

    /// The pieces of the text, in which the comma that goes with a list is one of its own.
    pub(crate) fn take_pieces(
        &mut self,
        alloc: Global,
        names: &Names,
    ) -> Result<Vec<Piece>, AllocError> {
        let pieces = mem::replace(&mut self.pieces, Vec::new(alloc));
        with_commas(alloc, pieces, names)
    }

    /// The offset in the rule of a byte of the text.
    pub(crate) fn offset_of(&self, at: usize) -> usize {
        let mut offset = 0usize;
        for (start, old) in &self.starts {
            if *start > at {
                return offset.min(*old);
            }
            offset = old.saturating_add(at.saturating_sub(*start));
        }
        offset
    }
}

// The number of the placeholder for a list that a piece is.
fn list_of(piece: Option<&Piece>, names: &Names) -> Option<usize> {
    match piece {
        Some(Piece::Hole(number)) if names.is_list(*number) => Some(*number),
        _ => None,
    }
}

// The comma at the front of what follows a list, with the blanks round it, and the rest. A `;`
// goes, since statements have their own.
fn cut_front(text: &str) -> (&str, &str) {
    let shown = text.trim_start();
    if let Some(rest) = shown.strip_prefix(';') {
        return ("", rest);
    }
    let Some(inner) = shown.strip_prefix(',') else {
        return ("", text);
    };
    let rest = inner.trim_start();
    let at = text.len().saturating_sub(rest.len());
    (text.get(..at).unwrap_or(""), rest)
}

// What is before a list, and the comma at its end with the blanks round it.
fn cut_end(text: &str) -> (&str, &str) {
    match text.trim_end().strip_suffix(',') {
        None => (text, ""),
        Some(rest) => (rest, text.get(rest.len()..).unwrap_or("")),
    }
}

fn push_text(alloc: Global, pieces: &mut Vec<Piece>, text: &str) -> Result<(), AllocError> {
    if !text.is_empty() {
        pieces.push(Piece::Text(String::from_str(alloc, text)?))?;
    }
    Ok(())
}

fn push_comma(
    alloc: Global,
    pieces: &mut Vec<Piece>,
    text: &str,
    list: Option<usize>,
) -> Result<(), AllocError> {
    if let Some(number) = list {
        if !text.is_empty() {
            pieces.push(Piece::Comma(String::from_str(alloc, text)?, number))?;
        }
    }
    Ok(())
}

// The parts of a text before a list, behind another one, or neither: the comma at its front, what
// is between, and the comma at its end.
fn parted(text: &str, is_behind: bool, is_before: bool) -> (&str, &str, &str) {
    let (front, rest) = if is_behind {
        cut_front(text)
    } else {
        ("", text)
    };
    let (rest, end) = if is_before { cut_end(rest) } else { (rest, "") };
    (front, rest, end)
}

// Adds a text that stands between two pieces, with its commas as pieces of their own. The first is
// none if the list before has one. Returns whether the list behind has one.
fn push_parted(
    alloc: Global,
    out: &mut Vec<Piece>,
    text: &str,
    before: Option<usize>,
    next: Option<usize>,
    has_comma: bool,
) -> Result<bool, AllocError> {
    let (front, rest, end) = parted(text, before.is_some(), next.is_some());
    if has_comma {
        push_text(alloc, out, front)?;
    } else {
        push_comma(alloc, out, front, before)?;
    }
    push_text(alloc, out, rest)?;
    push_comma(alloc, out, end, next)?;
    Ok(!end.is_empty())
}

// Some pieces, in which the comma before a list, or else behind it, is a piece of its own.
fn with_commas(alloc: Global, pieces: Vec<Piece>, names: &Names) -> Result<Vec<Piece>, AllocError> {
    let mut out = Vec::with_capacity(alloc, pieces.len())?;
    let mut has_comma = false;
    let mut before = None;
    for (index, piece) in pieces.iter().enumerate() {
        match piece {
            Piece::Text(text) => {
                let next = list_of(pieces.get(index.saturating_add(1)), names);
                has_comma = push_parted(alloc, &mut out, text.as_str(), before, next, has_comma)?;
            }
            Piece::Hole(number) => out.push(Piece::Hole(*number))?,
            Piece::Comma(text, number) => {
                push_comma(alloc, &mut out, text.as_str(), Some(*number))?;
            }
        }
        before = list_of(Some(piece), names);
    }
    Ok(out)
}

// The `$`s of a placeholder, and the end of the name behind them; `None` if it has braces.
#[derive(Clone, Copy, Drop)]
struct Dollar {
    at: usize,
    is_list: bool,
    end: Option<usize>,
}

// A token of a rule.
#[derive(Clone, Copy, Drop)]
struct Sign {
    kind: SyntaxKind,
    start: usize,
    end: usize,
    begins_word: bool,
    ends_word: bool,
}

impl Sign {
    // A token of a text that starts at an offset.
    fn of(token: &SyntaxToken, from: usize) -> Sign {
        let range = token.text_range();
        Sign {
            kind: token.kind(),
            start: from.saturating_add(range.start().raw() as usize),
            end: from.saturating_add(range.end().raw() as usize),
            begins_word: begins_word(token.text()),
            ends_word: ends_word(token.text()),
        }
    }

    fn is_dollar(&self) -> bool {
        self.kind.to_raw() == SyntaxKind::DOLLAR.to_raw()
    }

    fn is_brace(&self) -> bool {
        self.kind.to_raw() == SyntaxKind::L_CURLY.to_raw()
    }
}

// The tokens of a tree whose text starts at an offset.
fn signs_in(alloc: Global, root: &SyntaxNode, from: usize) -> Result<Vec<Sign>, AllocError> {
    let mut signs = Vec::new(alloc);
    for element in root.descendants_with_tokens() {
        if let NodeOrToken::Token(token) = element {
            signs.push(Sign::of(&token, from))?;
        }
    }
    Ok(signs)
}

// The tokens of a text from an offset on.
fn signs_of<F: FrontEnd>(
    alloc: Global,
    words: &Words<'_, F>,
    text: &str,
    from: usize,
) -> Result<Vec<Sign>, RuleError>
    ensures { IfErr result (λ e. is_other e.fault ≡ true) }
{
    let rest = text.get(from..).unwrap_or("");
    let parse: Parse<SyntaxNode> = read(alloc, words.front, Entry::Expr, rest, words.edition)?;
    Ok(signs_in(alloc, parse.root(), from)?)
}

// The `$`s that are first among some tokens, and how many tokens they are with the name behind
// them; `None` if neither a name nor a brace follows directly.
fn dollar_at(signs: &[Sign]) -> Option<(Dollar, usize)> {
    let first = signs.first()?;
    let is_list = match signs.get(1) {
        Some(second) => second.is_dollar() && second.start == first.end,
        None => false,
    };
    let count = if is_list { 2usize } else { 1usize };
    let behind = signs.get(count)?;
    if behind.start != first.start.saturating_add(count) {
        return None;
    }
    let at = first.start;
    if behind.is_brace() && !is_list {
        return Some((
            Dollar {
                at,
                is_list,
                end: None,
            },
            count,
        ));
    }
    if !behind.begins_word {
        return None;
    }
    Some((
        Dollar {
            at,
            is_list,
            end: Some(behind.end),
        },
        count.saturating_add(1),
    ))
}

// The `$`s among some tokens, up to the first with braces.
fn dollars_in(alloc: Global, signs: &[Sign], base: usize) -> Result<Vec<Dollar>, RuleError>
    ensures { IfErr result (λ e. is_other e.fault ≡ true) }
{
    let mut dollars = Vec::new(alloc);
    let mut passed = 0usize;
    let mut before_ends_word = false;
    for (number, sign) in signs.iter().enumerate() {
        if sign.is_dollar() && passed <= number {
            let at = base.saturating_add(sign.start);
            if before_ends_word {
                return Err(fault(RuleFault::Joined, at));
            }
            let Some((dollar, count)) = dollar_at(signs.get(number..).unwrap_or(&[])) else {
                return Err(fault(RuleFault::NoName, at));
            };
            dollars.push(dollar).map_err(AllocError::from)?;
            if dollar.end.is_none() {
                return Ok(dollars);
            }
            passed = number.saturating_add(count);
        }
        before_ends_word = sign.ends_word;
    }
    Ok(dollars)
}

// The `$`s of a text from an offset on, up to the first with braces.
fn dollars_of<F: FrontEnd>(
    alloc: Global,
    words: &Words<'_, F>,
    text: &str,
    from: usize,
    base: usize,
) -> Result<Vec<Dollar>, RuleError>
    ensures { IfErr result (λ e. is_other e.fault ≡ true) }
{
    let signs = signs_of(alloc, words, text, from)?;
    dollars_in(alloc, &signs, base)
}

// Adds the number of a placeholder with its conditions, which a template cannot have. Returns the
// number, and where what follows starts.
fn braced_number(
    alloc: Global,
    text: &str,
    at: usize,
    base: usize,
    names: &mut Names,
    may_be_new: bool,
) -> Result<(usize, usize), RuleError>
    ensures { IfErr result (λ e. is_other e.fault ≡ true) }
{
    let found = read_braced(alloc, text, at.saturating_add(1), base)?;
    if let Some(first) = found.first {
        if !may_be_new {
            return Err(fault(RuleFault::TemplateCondition, base.saturating_add(first)));
        }
    }
    let number = names.number_of(
        alloc,
        found.name,
        false,
        base.saturating_add(at),
        may_be_new,
    )?;
    names.add(number, found.conditions)?;
    Ok((number, found.end))
}

// The number of the placeholder at a `$`, and where what follows it starts.
fn number_at(
    alloc: Global,
    text: &str,
    dollar: Dollar,
    base: usize,
    names: &mut Names,
    may_be_new: bool,
) -> Result<(usize, usize), RuleError>
    ensures { IfErr result (λ e. is_other e.fault ≡ true) }
{
    let at = dollar.at;
    let Some(end) = dollar.end else {
        return braced_number(alloc, text, at, base, names, may_be_new);
    };
    let is_list = dollar.is_list;
    let start = at.saturating_add(if is_list { 2 } else { 1 });
    let name = text.get(start..end).unwrap_or("");
    let number = names.number_of(alloc, name, is_list, base.saturating_add(at), may_be_new)?;
    Ok((number, end))
}

/// The side of a rule that starts at the offset `base`. Takes time for each placeholder with braces
/// that is linear in the side.
pub(crate) fn side_of<F: FrontEnd>(
    alloc: Global,
    words: &Words<'_, F>,
    text: &str,
    base: usize,
    names: &mut Names,
    may_be_new: bool,
) -> Result<Side, RuleError>
    ensures { IfErr result (λ e. is_other e.fault ≡ true) }
{
    let mut side = Side {
        text: String::new(alloc),
        pieces: Vec::new(alloc),
        starts: Vec::new(alloc),
        lists: Vec::new(alloc),
    };
    let mut done = 0usize;
    // A text has at most as many placeholders as bytes.
    for _turn in 0..=text.len() {
        let dollars = dollars_of(alloc, words, text, done, base)?;
        let mut has_braces = false;
        for dollar in &dollars {
            let (number, end) = number_at(alloc, text, *dollar, base, names, may_be_new)?;
            let before = text.get(done..dollar.at).unwrap_or("");
            side.push_text(alloc, before, base.saturating_add(done))?;
            let offset = base.saturating_add(dollar.at);
            side.push_hole(words.prefix, number, dollar.is_list, offset)?;
            done = end;
            has_braces = dollar.end.is_none();
        }
        if !has_braces {
            break;
        }
    }
    side.push_text(
        alloc,
        text.get(done..).unwrap_or(""),
        base.saturating_add(done),
    )?;
    side.push_end(base.saturating_add(text.len()))?;
    Ok(side)
}
