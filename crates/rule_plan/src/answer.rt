//! Which replacements are taken, by the answers of somebody who is asked.
ghost use Rattle.std.specs.Prelude.{◌≡◌, [], IfOk};
ghost use Rattle.text_edit.specs.Replacements.{with_all};
ghost use Rattle.rule_plan.specs.Answers.{answer_of, is_taken, is_last, first_answer, further, taken, is_first_marked, behind_first, chosen};

use std::alloc::{AllocError, Global};
use text_edit::{Indel, OverlapError, TextEdit};

/// An answer to the question whether a replacement is taken.
#[derive(Clone, Copy, Debug, PartialEq, Eq)]
pub enum Answer {
    /// It is.
    Yes,
    /// It is not.
    No,
    /// It is, and so are all further ones of the file.
    All,
    /// It is not, nor are further ones of any file.
    Quit,
}

/// The answer that a word is: `y`, `n`, `a` or `q`, or `yes`, `no`, `all` or `quit`; `None` if it
/// is none.
pub fn answer_of(word: &str) -> Option<Answer>
    ensures { result ≡ answer_of word.now }
{
    match word {
        "y" => Some(Answer::Yes),
        "yes" => Some(Answer::Yes),
        "n" => Some(Answer::No),
        "no" => Some(Answer::No),
        "a" => Some(Answer::All),
        "all" => Some(Answer::All),
        "q" => Some(Answer::Quit),
        "quit" => Some(Answer::Quit),
        _ => None,
    }
}

impl Answer {
    /// Whether it takes what was asked for.
    pub fn is_taken(self) -> bool
        ensures { result ≡ is_taken self }
    {
        match self {
            Answer::Yes | Answer::All => true,
            Answer::No | Answer::Quit => false,
        }
    }

    /// Whether nothing more is asked in the file: it is the answer for all further replacements
    /// too.
    pub fn is_last(self) -> bool
        ensures { result ≡ is_last self }
    {
        match self {
            Answer::All | Answer::Quit => true,
            Answer::Yes | Answer::No => false,
        }
    }
}

// The first answer; `No` if there is none.
fn first_answer(answers: &[Answer]) -> Answer
    ensures { result ≡ first_answer answers.now }
{
    match answers.split_first() {
        Some((answer, _)) => *answer,
        None => Answer::No,
    }
}

// The answers for the further replacements.
fn further(answers: &[Answer]) -> &[Answer]
    ensures { result.now ≡ further answers.now }
{
    match answers.split_first() {
        Some((answer, behind)) => { if answer.is_last() { answers } else { behind } }
        None => answers,
    }
}

/// Which of so many replacements of a file are taken, by the answers for the first of them. An
/// answer after which nothing more is asked is that for all further ones; without an answer none is
/// taken.
///
/// # Errors
///
/// `AllocError` if memory runs out.
#[tactic(auto, using(crate::proofs::TakenLemmas::one_more, crate::proofs::TakenLemmas::no_more))]
pub fn taken(alloc: Global, count: usize, answers: &[Answer]) -> Result<Vec<bool>, AllocError>
    ensures { IfOk result (λ marks. marks.items ≡ taken count answers.now) }
{
    let mut marks = Vec::with_capacity(alloc, count)?;
    let mut left = answers;
    while marks.len() < count {
        marks.push(first_answer(left).is_taken())?;
        left = further(left);
    }
    Ok(marks)
}

// A replacement like another.
fn copied(alloc: Global, indel: &Indel) -> Result<Indel, AllocError>
    ensures { IfOk result (λ copy. copy ≡ indel.now) }
{
    let text = String::from_str(alloc, indel.inserted())?;
    Ok(Indel::replace(indel.deleted(), text))
}

// Whether the first mark is set.
fn is_first_marked(marks: &[bool]) -> bool
    ensures { result ≡ is_first_marked marks.now }
{
    match marks.split_first() {
        Some((mark, _)) => *mark,
        None => false,
    }
}

// The marks behind the first.
fn behind_first(marks: &[bool]) -> &[bool]
    ensures { result.now ≡ behind_first marks.now }
{
    match marks.split_first() {
        Some((_, behind)) => behind,
        None => marks,
    }
}

/// The edit with the marked replacements alone: the first mark is that of the first replacement,
/// and one without a mark is left out. Takes time linear in the edit.
///
/// # Errors
///
/// `Memory` if memory runs out; replacements of an edit do not overlap.
pub fn chosen(alloc: Global, edit: &TextEdit, marks: &[bool]) -> Result<TextEdit, OverlapError>
    ensures { IfOk result (λ new. new ≡ with_all [] (chosen marks.now edit.now)) }
{
    let mut new = TextEdit::new(alloc);
    let mut left = marks;
    for indel in edit.iter() {
        if is_first_marked(left) {
            new.add(copied(alloc, indel)?)?;
        }
        left = behind_first(left);
    }
    Ok(new)
}
