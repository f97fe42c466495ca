//! Questions on a terminal: which replacements are made.

use rule_plan::{Answer, answer_of, taken};
use rust_print::failure::Failure;
use rust_print::forms::ReportOptions;
use rust_print::source::{Source, spots};
use rust_rules::{Replaced, write_question};
use rust_search::RuleSet;
use std::alloc::AllocError;
use std::io;
use std::io::Write;

// The answer to one question. The end of the input is the end of the questions.
fn answer<W: Write>(rt: &HostRuntime, out: &mut W) -> io::Result<Answer> {
    for _turn in 0..u64::MAX {
        out.write_all(b"Replace? [y]es, [n]o, [a]ll in this file, [q]uit: ")?;
        out.flush()?;
        let mut line = String::new(rt.alloc());
        if rt.read_line(&mut line)? == 0 {
            return Ok(Answer::Quit);
        }
        if let Some(answer) = answer_of(line.as_str().trim()) {
            return Ok(answer);
        }
    }
    Ok(Answer::Quit)
}

/// Asks for each replacement of a text whether it is made. Returns a mark for each. Nothing more is
/// asked of a file after `a` and `q`, and with `q` the run is over.
pub fn ask<W: Write>(
    rt: &HostRuntime,
    out: &mut W,
    source: Source<'_>,
    set: &RuleSet,
    done: &Replaced,
    options: ReportOptions,
    is_over: &mut bool,
) -> Result<Vec<bool>, Failure> {
    let alloc = rt.alloc();
    let mut spots = spots(alloc, source.text)?;
    let mut answers = Vec::new(alloc);
    for (found, indel) in done.places.iter().zip(done.edit.iter()) {
        write_question(alloc, out, &mut spots, source, set, *found, indel, options)?;
        let answer = answer(rt, out)?;
        answers.push(answer).map_err(AllocError::from)?;
        if answer == Answer::Quit {
            *is_over = true;
        }
        if answer.is_last() {
            break;
        }
    }
    Ok(taken(alloc, done.edit.len(), answers.as_slice())?)
}
