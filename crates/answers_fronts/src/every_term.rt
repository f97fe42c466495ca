//! Every operator term up to a number of forms over the name `a`, written with spaces and parsed by
//! `Tiny`. If the built tree reads back, the parsed tree must equal it, also in a body: after
//! `let`, as a statement and as the tail. Otherwise the text must have errors, or be parsed as
//! another tree that reads back. Every other result is printed.

mod body;
mod terms;
mod verdict;
mod words;
mod written;

use crate::request::number;
use crate::stopped::Stopped;
use std::alloc::Global;
use std::fmt::Write;
use terms::Terms;
use verdict::{Verdict, verdict_of};
use written::write_term;

// How many terms had each result.
#[derive(Clone, Copy, Default)]
struct Counts {
    terms: u32,
    casts: u32,
    read_back: u32,
    refused: u32,
    others: u32,
}

fn count(alloc: Global, out: &mut String, terms: &Terms, forms: usize) -> Result<Counts, Stopped> {
    let mut counts = Counts::default();
    for term in terms.of(forms) {
        let written = write_term(alloc, terms, *term)?;
        counts.terms = counts.terms.saturating_add(1);
        if written.text.contains(" as ") {
            counts.casts = counts.casts.saturating_add(1);
        }
        match verdict_of(alloc, &written)? {
            Verdict::ReadsBack => counts.read_back = counts.read_back.saturating_add(1),
            Verdict::Refused => counts.refused = counts.refused.saturating_add(1),
            Verdict::Other => counts.others = counts.others.saturating_add(1),
            Verdict::Wrong => writeln!(out, "wrong: {}", written.text)?,
        }
    }
    Ok(counts)
}

/// Prints a line for each number of forms up to this one: how many terms had each result.
pub fn show_every_term(alloc: Global, out: &mut String, most: &str) -> Result<(), Stopped> {
    let most = number(most)? as usize;
    let terms = Terms::up_to(alloc, most)?;
    for forms in 0..=most {
        let counts = count(alloc, out, &terms, forms)?;
        writeln!(
            out,
            "{forms} forms: {} terms, {} with a cast; {} read back, {} refused, {} read as another",
            counts.terms, counts.casts, counts.read_back, counts.refused, counts.others
        )?;
    }
    Ok(())
}
