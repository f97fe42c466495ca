//! A text with some of its replacements: those that were taken.
ghost use Rattle.std.specs.Prelude.{◌≡◌, [], IfOk, string_bytes};
ghost use Rattle.text_edit.specs.Replacements.{with_all, edited};
ghost use Rattle.rule_plan.specs.Answers.{chosen};

use crate::walk::{Step, are_same, end_of_part, steps};
use crate::within::Replaced;
use lossless_tree::TextRange;
use ras_front_end::ParseError;
use rule_plan::chosen;
use rust_print::failure::Failure;
use rust_print::forms::ReportOptions;
use rust_print::source::{Reading, Source, parsed};
use std::alloc::Global;
use text_edit::TextEdit;

const OTHERWISE: &str = "the new text would not be read as meant";

/// A text with some of its replacements.
#[derive(Drop)]
pub struct Taken {
    /// The replacements.
    pub edit: TextEdit,
    /// The new text.
    pub text: String,
}

// The edit of the marked replacements, and the text by it.
fn edited(alloc: Global, text: &str, edit: &TextEdit, marks: &[bool]) -> Result<Taken, Failure>
    ensures { IfOk result
        (λ t. string_bytes t.text ≡ edited text.now (with_all [] (chosen marks.now edit.now))) }
{
    let Ok(edit) = chosen(alloc, edit, marks) else {
        return Err(Failure::Text(ParseError::Memory));
    };
    match edit.apply(alloc, text) {
        Ok(text) => Ok(Taken { edit, text }),
        Err(_) => Err(Failure::Kept(OTHERWISE)),
    }
}

// The steps of a tree, of which some are passed.
#[derive(Drop)]
struct Side<'a> {
    text: &'a str,
    steps: Vec<Step>,
    at: usize,
    // How many bytes longer the text is than the old one up to here, and how many shorter.
    more: usize,
    fewer: usize,
}

impl<'a> Side<'a> {
    fn new(text: &'a str, steps: Vec<Step>) -> Side<'a> {
        Side {
            text,
            steps,
            at: 0,
            more: 0,
            fewer: 0,
        }
    }

    // Where an offset of the old text is in this one.
    fn moved(&self, offset: usize) -> usize {
        offset.saturating_add(self.more).saturating_sub(self.fewer)
    }

    // The steps up to an offset, which are passed.
    fn pass(&mut self, offset: usize) -> (usize, usize) {
        let from = self.at;
        let to = end_of_part(self.steps.as_slice(), from, offset);
        self.at = to;
        (from, to)
    }

    fn part(&self, part: (usize, usize)) -> &[Step] {
        self.steps.get(part.0..part.1).unwrap_or(&[])
    }

    // A range was replaced by a text of this length.
    fn grow(&mut self, range: TextRange, length: usize) {
        self.more = self.more.saturating_add(length);
        self.fewer = self.fewer.saturating_add(range.len().raw() as usize);
    }
}

// Whether a tree is the old one in which the marked replacements stand as in the tree with all of
// them.
fn reads_as_meant(
    old: &mut Side<'_>,
    all: &mut Side<'_>,
    new: &mut Side<'_>,
    edit: &TextEdit,
    marks: &[bool],
) -> bool {
    for (indel, mark) in edit.iter().zip(marks.iter()) {
        let range = indel.deleted();
        let (start, end) = (range.start().raw() as usize, range.end().raw() as usize);
        let length = indel.inserted().len();
        // What is before the match.
        let before = old.pass(start);
        let _same = all.pass(all.moved(start));
        let beside = new.pass(new.moved(start));
        if !are_same(old.text, old.part(before), new.text, new.part(beside)) {
            return false;
        }
        all.grow(range, length);
        if *mark {
            new.grow(range, length);
        }
        let inside = old.pass(end);
        let replaced = all.pass(all.moved(end));
        let found = new.pass(new.moved(end));
        let is_meant = if *mark {
            are_same(all.text, all.part(replaced), new.text, new.part(found))
        } else {
            are_same(old.text, old.part(inside), new.text, new.part(found))
        };
        if !is_meant {
            return false;
        }
    }
    let rest = old.pass(usize::MAX);
    let behind = new.pass(usize::MAX);
    are_same(old.text, old.part(rest), new.text, new.part(behind))
}

// How many errors a text has, and the steps of its tree, of which none is passed.
fn read(alloc: Global, text: &str, reading: Reading) -> Result<(usize, Side<'_>), Failure> {
    let parse = parsed(alloc, text, reading)?;
    let steps = steps(alloc, parse.root())?;
    Ok((parse.errors(alloc)?.len(), Side::new(text, steps)))
}

// Whether a text has no more errors than the old one, and its tree is as meant.
fn is_meant(
    alloc: Global,
    source: Source<'_>,
    done: &Replaced,
    text: &str,
    marks: &[bool],
    options: ReportOptions,
) -> Result<bool, Failure> {
    let (before, mut old) = read(alloc, source.text, options.reading)?;
    let (_, mut all) = read(alloc, done.text.as_str(), options.reading)?;
    let (now, mut new) = read(alloc, text, options.reading)?;
    Ok(now <= before && reads_as_meant(&mut old, &mut all, &mut new, &done.edit, marks))
}

/// A text with the marked ones of its replacements, by their numbers from 0: what `done` has for
/// the others stays as it was.
///
/// The new text has to parse, with no more errors than the old one, to the tree of the old text in
/// which the marked replacements stand as in the text with all of them. White space, comments and
/// pairs of parentheses aside.
///
/// # Errors
///
/// `Kept` if it does not; `Text` if memory runs out.
pub fn with_taken(
    alloc: Global,
    source: Source<'_>,
    done: &Replaced,
    marks: &[bool],
    options: ReportOptions,
) -> Result<Taken, Failure>
    ensures { IfOk result (λ t. string_bytes t.text
        ≡ edited source.entry.text.now (with_all [] (chosen marks.now done.now.edit))) }
{
    let taken = edited(alloc, source.text, &done.edit, marks)?;
    if is_meant(alloc, source, done, taken.text.as_str(), marks, options)? {
        Ok(taken)
    } else {
        Err(Failure::Kept(OTHERWISE))
    }
}
