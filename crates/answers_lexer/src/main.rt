//! Answers of the lexer, to be compared with another's.
//!
//! Standard input holds, for each text, a line with the edition and the length in bytes, and then
//! the text. It prints a number made of the tokens and errors of each, and where the edition
//! follows a `=`, the tokens and errors, the one token that the text is, if it is one, and a line
//! `.`. With an argument, standard input is one text, and it prints how long the lexer takes.
#![tactic(auto)]

use ras_front_end::Edition;
use rust_kinds::name_of;
use rust_lexer::{Problem, lex, single_token};
use std::fmt::Write;
use std::time::Instant;
use std::{env, io};

fn edition_of(word: &str) -> Edition {
    match word {
        "2015" => Edition::Edition2015,
        "2018" => Edition::Edition2018,
        "2021" => Edition::Edition2021,
        _ => Edition::Edition2024,
    }
}

// The token's text, if the message has it.
fn word_of(problem: Problem, text: &str, start: usize, end: usize) -> &str {
    if problem.message().1.is_empty() {
        ""
    } else {
        text.get(start..end).unwrap_or("")
    }
}

fn show(rt: &HostRuntime, text: &str, edition: Edition) -> anyhow::Result<String> {
    let lexed = lex(rt.alloc(), text, edition)?;
    let mut out = String::new(rt.alloc());
    let mut at = 0u32;
    for token in lexed.tokens.iter() {
        let end = at.saturating_add(token.len.raw());
        let name = name_of(token.kind).unwrap_or("OTHER");
        writeln!(out, "{name}@{at}..{end}")?;
        at = end;
    }
    for error in lexed.errors.iter() {
        let start = error.range.start().raw();
        let end = error.range.end().raw();
        let (front, back) = error.problem.message();
        let word = word_of(error.problem, text, start as usize, end as usize);
        writeln!(out, "error {start}..{end}: {front}{word}{back}")?;
    }
    if let Some((kind, problem)) = single_token(text, edition) {
        let name = name_of(kind).unwrap_or("OTHER");
        let message = problem.map_or("", |problem| problem.message().0);
        writeln!(out, "one {name} {message}")?;
    }
    out.push_str(".\n")?;
    Ok(out)
}

fn mixed(sum: u64, part: u64) -> u64 {
    sum.wrapping_mul(31).wrapping_add(part) % 1_000_000_007
}

fn worded(sum: u64, word: &str) -> u64 {
    let mut sum = sum;
    for byte in word.as_bytes() {
        sum = mixed(sum, *byte as u64);
    }
    sum
}

// A number made of the tokens and errors.
fn sum(rt: &HostRuntime, text: &str, edition: Edition) -> anyhow::Result<u64> {
    let lexed = lex(rt.alloc(), text, edition)?;
    let mut sum = 7;
    for token in lexed.tokens.iter() {
        sum = worded(sum, name_of(token.kind).unwrap_or("OTHER"));
        sum = mixed(sum, token.len.raw() as u64);
    }
    for error in lexed.errors.iter() {
        let start = error.range.start().raw();
        let end = error.range.end().raw();
        let (front, back) = error.problem.message();
        let word = word_of(error.problem, text, start as usize, end as usize);
        sum = mixed(mixed(sum, start as u64), end as u64);
        sum = worded(worded(worded(sum, front), word), back);
    }
    Ok(sum)
}

fn bench(rt: &HostRuntime, text: &str) -> anyhow::Result<()> {
    let mut least = u128::MAX;
    let mut count = 0;
    for _run in 0..60 {
        let start = Instant::now(rt)?;
        let lexed = lex(rt.alloc(), text, Edition::Edition2021)?;
        let end = Instant::now(rt)?;
        count = lexed.tokens.len();
        least = least.min(end.duration_since(start).as_nanos());
    }
    let bytes = text.len();
    println!(rt; "{bytes} bytes, {count} tokens, {least} ns")?;
    Ok(())
}

// What the first text of the input comes to, and what follows it.
fn answer<'a>(rt: &HostRuntime, input: &'a str) -> anyhow::Result<&'a str> {
    let Some((line, tail)) = input.split_once('\n') else {
        return Ok("");
    };
    let Some((edition, len)) = line.split_once(' ') else {
        return Ok("");
    };
    let len = len.parse::<usize>().unwrap_or(0);
    let Some((text, rest)) = tail.split_at_checked(len) else {
        return Ok("");
    };
    match edition.strip_prefix('=') {
        Some(edition) => {
            let lines = show(rt, text, edition_of(edition))?;
            print!(rt; "{lines}")?;
        }
        None => {
            let sum = sum(rt, text, edition_of(edition))?;
            println!(rt; "{sum}")?;
        }
    }
    Ok(rest)
}

fn main(rt: HostRuntime) -> anyhow::Result<()> {
    let input = io::read_to_string(rt.alloc(), rt.reader())?;
    let words = env::args(&rt)?;
    if words.count() > 1 {
        return bench(&rt, &input);
    }
    let mut rest = input.as_str();
    for _text in 0..input.len() {
        if rest.is_empty() {
            break;
        }
        rest = answer(&rt, rest)?;
    }
    Ok(())
}
