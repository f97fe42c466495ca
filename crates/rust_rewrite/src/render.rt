//! The text with the matches replaced, with pairs of parentheses round each value and each
//! replacement.

use crate::refusal::Failure;
use lossless_tree::TextRange;
use std::alloc::{AllocError, Global};
use tree_match::{Match, Piece, Rule, Sort};

// What is still to be written.
#[derive(Clone, Copy, Drop)]
enum Task {
    // The old text of a range, with the matches from number `next` on replaced.
    Copy { from: usize, to: usize, next: usize },
    // The pieces of a match's template from a number on.
    Fill { found: usize, piece: usize },
    // The `)` of a pair.
    Close { pair: usize },
    // The end of an outermost match.
    End,
}

/// Which pairs are put.
#[derive(Clone, Copy, Drop)]
pub(crate) enum Pairs<'a> {
    /// All.
    All,
    /// None.
    Absent,
    /// All but the marked ones. A blank is put where this text, which is to come out, has one in
    /// place of a parenthesis.
    Without(&'a [bool], &'a str),
}

/// Where the contents of a pair are that is not put.
#[derive(Clone, Copy, Drop)]
pub(crate) struct Span {
    pub(crate) start: usize,
    pub(crate) end: usize,
}

/// Where an outermost match stood, and where its replacement is in the new text.
#[derive(Clone, Copy, Drop)]
pub(crate) struct Place {
    pub(crate) old: TextRange,
    pub(crate) start: usize,
    pub(crate) end: usize,
}

/// A text in which matches are replaced.
#[derive(Drop)]
pub(crate) struct Rendered {
    pub(crate) text: String,
    // Where the `(` of each pair is, but for those that are left out.
    pub(crate) pairs: Vec<usize>,
    // Where the contents of the pairs are, if none is put, in the order of their starts, and of
    // those that start together the outermost first.
    pub(crate) spans: Vec<Span>,
    // Whether tokens may be joined there that a pair would keep apart.
    pub(crate) may_join: bool,
    pub(crate) places: Vec<Place>,
}

/// What a text is made of.
#[derive(Drop)]
pub(crate) struct Source<'a> {
    pub(crate) old: &'a str,
    pub(crate) rules: &'a [Rule],
    pub(crate) matches: &'a [Match],
    /// The ranges of statements without a `;`, in the order of their starts.
    pub(crate) open: &'a [TextRange],
    pub(crate) pairs: Pairs<'a>,
}

// The length of a text beyond which it is too long.
fn limit(source: &Source) -> usize {
    source
        .old
        .len()
        .saturating_mul(16)
        .saturating_add(1 << 20)
        .min(u32::MAX as usize)
}

// The white space that a line begins with, up to an offset at most.
fn indent_of(text: &str, line: usize, offset: usize) -> &str {
    let line = text.get(line..offset).unwrap_or("");
    let rest = line.trim_start();
    line.get(..line.len().saturating_sub(rest.len()))
        .unwrap_or("")
}

// What the first line of a text ends with.
fn line_end_of(text: &str) -> &'static str {
    match text.split_once('\n') {
        Some((line, _)) if line.ends_with('\r') => "\r\n",
        _ => "\n",
    }
}

// Whether a template has several lines.
fn is_long(rule: &Rule) -> bool {
    rule.pieces().iter().any(
        |piece| matches!(piece, Piece::Text(text) if text.as_str().contains('\n')),
    )
}

// Where the line of each match starts, if a template has several lines.
fn lines_of(alloc: Global, source: &Source) -> Result<Vec<usize>, AllocError> {
    let mut lines = Vec::new(alloc);
    if !source.rules.iter().any(is_long) {
        return Ok(lines);
    }
    let mut line = 0usize;
    let mut seen = 0usize;
    for found in source.matches {
        let start = found.range.start().raw() as usize;
        let between = source.old.get(seen..start).unwrap_or("");
        if let Some(at) = between.rfind('\n') {
            line = seen.saturating_add(at).saturating_add(1);
        }
        seen = start;
        lines.push(line)?;
    }
    Ok(lines)
}

// Whether a byte is part of no token that another byte beside it may belong to.
fn is_apart(byte: u8) -> bool {
    byte.is_ascii_whitespace()
        || matches!(byte, b'(' | b')' | b'[' | b']' | b'{' | b'}' | b',' | b';')
}

fn is_word(byte: u8) -> bool {
    byte.is_ascii_alphanumeric() || byte == b'_' || !byte.is_ascii()
}

fn is_quote(byte: u8) -> bool {
    byte == b'"' || byte == b'\''
}

// Whether a token that ends with one byte and one that begins with the other might be joined.
fn may_join(last: u8, first: u8) -> bool {
    if is_apart(last) || is_apart(first) {
        return false;
    }
    if is_word(last) {
        return is_word(first) || is_quote(first) || first == b'#';
    }
    !is_word(first) && !is_quote(last) && !is_quote(first)
}

// The same of texts.
fn may_join_at(before: &str, text: &str) -> bool {
    match (before.as_bytes().last(), text.as_bytes().first()) {
        (Some(last), Some(first)) => may_join(*last, *first),
        _ => false,
    }
}

fn push_task(tasks: &mut Vec<Task>, task: Task) -> Result<(), AllocError> {
    Ok(tasks.push(task)?)
}

// Writes a text.
#[derive(Drop)]
struct Writer<'a> {
    source: &'a Source<'a>,
    // Where the line of each match starts, if that counts.
    lines: Vec<usize>,
    line_end: &'static str,
    out: Rendered,
    count: usize,
    gap: bool,
}

impl<'a> Writer<'a> {
    // A blank where the text that is to come out has one.
    fn push_blank(&mut self, guide: &str, text: &str) -> Result<(), AllocError> {
        let at = self.out.text.len();
        if guide.as_bytes().get(at) == Some(&b' ') && !text.starts_with(' ') {
            self.out.text.push(' ')?;
            if let Some(place) = self.out.places.last_mut() {
                if place.end == at {
                    place.end = at.saturating_add(1);
                }
            }
        }
        Ok(())
    }

    // Keeps a text apart from what is before a parenthesis that is left out, if that is known.
    fn part(&mut self, text: &str) -> Result<(), AllocError> {
        match self.source.pairs {
            Pairs::All => Ok(()),
            Pairs::Absent => {
                if may_join_at(self.out.text.as_str(), text) {
                    self.out.may_join = true;
                }
                Ok(())
            }
            Pairs::Without(_, guide) => self.push_blank(guide, text),
        }
    }

    fn push(&mut self, text: &str) -> Result<(), Failure> {
        if text.is_empty() {
            return Ok(());
        }
        if self.gap {
            self.gap = false;
            self.part(text)?;
        }
        self.out.text.push_str(text)?;
        if self.out.text.len() > limit(self.source) {
            return Err(Failure::TooLong);
        }
        Ok(())
    }

    // The old text of a range.
    fn push_old(&mut self, from: usize, to: usize) -> Result<(), Failure> {
        let text = self.source.old.get(from..to).unwrap_or("");
        self.push(text)
    }

    // Whether a pair is left out.
    fn is_gone(&self, pair: usize) -> bool {
        match self.source.pairs {
            Pairs::All => false,
            Pairs::Absent => true,
            Pairs::Without(gone, _) => matches!(gone.get(pair), Some(true)),
        }
    }

    // Notes where the contents of a pair start that is left out.
    fn note_start(&mut self) -> Result<(), AllocError> {
        self.gap = true;
        if let Pairs::Absent = self.source.pairs {
            let start = self.out.text.len();
            self.out.spans.push(Span { start, end: start })?;
        }
        Ok(())
    }

    // Notes where they end.
    fn note_end(&mut self, pair: usize) {
        self.gap = true;
        let end = self.out.text.len();
        if let Some(span) = self.out.spans.get_mut(pair) {
            span.end = end;
        }
    }

    // The `(` of the next pair. Returns its number.
    fn open(&mut self) -> Result<usize, Failure> {
        let pair = self.count;
        self.count = pair.saturating_add(1);
        if self.is_gone(pair) {
            self.note_start()?;
        } else {
            self.push("(")?;
            self.out
                .pairs
                .push(self.out.text.len().saturating_sub(1))
                .map_err(AllocError::from)?;
        }
        Ok(pair)
    }

    fn close(&mut self, pair: usize) -> Result<(), Failure> {
        if self.is_gone(pair) {
            self.note_end(pair);
            return Ok(());
        }
        self.push(")")
    }

    // A text of a template, in which each line but the first is indented. Its lines end as those of
    // the old text.
    fn push_lines(&mut self, text: &str, indent: &str) -> Result<(), Failure> {
        let mut rest = text;
        for _turn in 0..text.len() {
            let Some((line, behind)) = rest.split_once('\n') else {
                break;
            };
            self.push(line.strip_suffix('\r').unwrap_or(line))?;
            self.push(self.line_end)?;
            self.push(indent)?;
            rest = behind;
        }
        self.push(rest)
    }

    // The white space that the line of a match begins with, if that counts.
    fn indent(&self, number: usize, found: &Match) -> &'a str {
        match self.lines.get(number) {
            None => "",
            Some(line) => indent_of(self.source.old, *line, found.range.start().raw() as usize),
        }
    }

    // The number of the first match from `next` on that starts at an offset or behind it.
    fn next_match(&self, next: usize, from: usize) -> usize {
        let rest = self.source.matches.get(next..).unwrap_or(&[]);
        let skipped = rest.partition_point(|it| (it.range.start().raw() as usize) < from);
        next.saturating_add(skipped)
    }

    // Whether a match is an expression, which is put into a pair.
    fn is_expr(&self, found: &Match) -> bool {
        match self.source.rules.get(found.rule) {
            Some(rule) => rule.is_expr(found.form),
            None => false,
        }
    }

    // Whether a match is a statement without a `;`: what replaces it can be one without a pair
    // alone, and `({}) ({})` is a call.
    fn is_open(&self, found: &Match) -> bool {
        let start = found.range.start();
        let at = self.source.open.partition_point(|it| it.start() < start);
        matches!(self.source.open.get(at), Some(range) if *range == found.range)
    }

    // Notes where an outermost match stood, whose replacement follows.
    fn note_place(&mut self, old: TextRange) -> Result<(), AllocError> {
        let start = self.out.text.len();
        let end = 0;
        Ok(self.out.places.push(Place { old, start, end })?)
    }

    // The old text of a range up to the next match in it. Adds what follows to the tasks.
    fn copy(
        &mut self,
        tasks: &mut Vec<Task>,
        from: usize,
        to: usize,
        next: usize,
        is_outer: bool,
    ) -> Result<(), Failure> {
        let number = self.next_match(next, from);
        let Some(found) = self.source.matches.get(number) else {
            return self.push_old(from, to);
        };
        let start = found.range.start().raw() as usize;
        let end = found.range.end().raw() as usize;
        if end > to {
            return self.push_old(from, to);
        }
        self.push_old(from, start)?;
        let next = number.saturating_add(1);
        push_task(
            tasks,
            Task::Copy {
                from: end,
                to,
                next,
            },
        )?;
        if is_outer {
            self.note_place(found.range)?;
            push_task(tasks, Task::End)?;
        }
        if self.is_expr(found) && !self.is_open(found) {
            let pair = self.open()?;
            push_task(tasks, Task::Close { pair })?;
        }
        let task = Task::Fill {
            found: number,
            piece: 0,
        };
        Ok(push_task(tasks, task)?)
    }

    // What stands for a placeholder in a match.
    fn value(&self, found: &Match, number: usize) -> Result<(usize, usize), Failure> {
        match found.values.get(number) {
            Some(Some(value)) => Ok((value.start().raw() as usize, value.end().raw() as usize)),
            _ => Err(Failure::ReadsOtherwise),
        }
    }

    // The comma beside a list, which goes if the list has no elements.
    fn fill_comma(
        &mut self,
        number: usize,
        found: &Match,
        text: &str,
        list: usize,
    ) -> Result<(), Failure> {
        let (from, to) = self.value(found, list)?;
        let old = self.source.old.get(from..to).unwrap_or("");
        if old.is_empty() {
            return Ok(());
        }
        let indent = self.indent(number, found);
        match text.strip_prefix(',') {
            // An arm of a `match` has its comma itself.
            Some(rest) if old.ends_with(',') => self.push_lines(rest, indent),
            _ => self.push_lines(text, indent),
        }
    }

    // What stands for a placeholder. Adds what follows to the tasks.
    fn fill_hole(
        &mut self,
        tasks: &mut Vec<Task>,
        number: usize,
        found: &Match,
        rule: &Rule,
        hole: usize,
    ) -> Result<(), Failure> {
        let (from, to) = self.value(found, hole)?;
        if rule.sort(found.form, hole) == Some(Sort::Expr) {
            let pair = self.open()?;
            push_task(tasks, Task::Close { pair })?;
        }
        let next = number.saturating_add(1);
        Ok(push_task(tasks, Task::Copy { from, to, next })?)
    }

    // A piece of a template. Adds what follows to the tasks.
    fn fill(&mut self, tasks: &mut Vec<Task>, number: usize, piece: usize) -> Result<(), Failure> {
        let source = self.source;
        let Some(found) = source.matches.get(number) else {
            return Ok(());
        };
        let Some(rule) = source.rules.get(found.rule) else {
            return Ok(());
        };
        let Some(here) = rule.pieces().get(piece) else {
            return Ok(());
        };
        let next = piece.saturating_add(1);
        push_task(
            tasks,
            Task::Fill {
                found: number,
                piece: next,
            },
        )?;
        match here {
            Piece::Text(text) => {
                let indent = self.indent(number, found);
                self.push_lines(text.as_str(), indent)
            }
            Piece::Comma(text, list) => self.fill_comma(number, found, text.as_str(), *list),
            Piece::Hole(hole) => self.fill_hole(tasks, number, found, rule, *hole),
        }
    }

    // The end of an outermost match.
    fn end(&mut self) {
        let end = self.out.text.len();
        if let Some(place) = self.out.places.last_mut() {
            place.end = end;
        }
    }

    fn turn(&mut self, tasks: &mut Vec<Task>, task: Task) -> Result<(), Failure> {
        match task {
            Task::Copy { from, to, next } => {
                let is_outer = tasks.is_empty();
                self.copy(tasks, from, to, next, is_outer)
            }
            Task::Fill { found, piece } => self.fill(tasks, found, piece),
            Task::Close { pair } => self.close(pair),
            Task::End => {
                self.end();
                Ok(())
            }
        }
    }

    // Each turn takes a task. A text that is too long ends it.
    fn write(&mut self, tasks: &mut Vec<Task>) -> Result<(), Failure> {
        for _turn in 0..u64::MAX {
            let Some(task) = tasks.pop() else {
                return Ok(());
            };
            self.turn(tasks, task)?;
        }
        Err(Failure::TooLong)
    }
}

// What a text is before anything is written.
fn nothing(alloc: Global, len: usize) -> Result<Rendered, AllocError> {
    Ok(Rendered {
        text: String::with_capacity(alloc, len)?,
        pairs: Vec::new(alloc),
        spans: Vec::new(alloc),
        may_join: false,
        places: Vec::new(alloc),
    })
}

/// The text.
pub(crate) fn render(alloc: Global, source: &Source) -> Result<Rendered, Failure> {
    let mut writer = Writer {
        source,
        lines: lines_of(alloc, source)?,
        line_end: line_end_of(source.old),
        out: nothing(alloc, source.old.len())?,
        count: 0,
        gap: false,
    };
    let mut tasks = Vec::new(alloc);
    push_task(
        &mut tasks,
        Task::Copy {
            from: 0,
            to: source.old.len(),
            next: 0,
        },
    )?;
    writer.write(&mut tasks)?;
    Ok(writer.out)
}
