//! The program `rust_corpus`: runs the library over lists of Rust files, and counts the answers
//! that a test of single texts can't show.
//!
//! Standard input lists the files, a line each: an edition, a tab and a path. `edits N SEED` makes
//! N random edits of each file, and compares the tree of the edited text, of which one token or one
//! block was parsed again, with that of a new parse. `operators` tests for each operator expression
//! whether it reads back, and which of its parentheses can be removed.
//!
//! For `edits` a line may also be `tiny` or `rust`, a tab and a short text, in which `\n` is a
//! newline: every range of it is replaced by each of six words, and every token too. What differs
//! from a plain model is printed, and then the status is 1. The lines of `data/texts` take a
//! minute.
//!
//! `documents N SEED` makes N random edits of each file, each on a new `Document`, N more, one
//! after the other, on one, and N of up to twelve replacements. Every range of a short text of a
//! line `rust` is replaced by each of thirty words. After each edit the document's tree and its
//! errors, in their order, have to be those of a new parse; if not, the edit is printed, and the
//! status is 1. `edits` does the same with its files, and with the text of a line `document`, a tab
//! and a short text.
//!
//! `turns-of-document N SEED` makes N random edits of each file, one after the other, by
//! `Document::edit`, `turns-of-reparse` by `Parse::reparse`, and `turns-of-none` does neither.
//! Nothing is compared: `bench/run edits` counts their instructions.
#![tactic(auto)]

mod chance;
mod edits;
mod every_edit;
mod operators;
mod sessions;
mod turns;

use every_edit::EveryEdit;
use ra_ap_syntax::Edition;
use rust_front::Rust;
use std::process::ExitCode;
use std::{env, fs, io};
use tiny_front::Tiny;
use turns::By;

fn edition_of(word: &str) -> Edition {
    match word {
        "2015" => Edition::Edition2015,
        "2018" => Edition::Edition2018,
        "2021" => Edition::Edition2021,
        _ => Edition::Edition2024,
    }
}

// What the first argument asks.
#[derive(Clone, Copy, PartialEq, Eq)]
enum Command {
    Edits,
    Documents,
    Turns(By),
    Operators,
}

fn command_of(word: &str) -> Command {
    match word {
        "edits" => Command::Edits,
        "documents" => Command::Documents,
        "turns-of-none" => Command::Turns(By::Nothing),
        "turns-of-reparse" => Command::Turns(By::Reparse),
        "turns-of-document" => Command::Turns(By::Document),
        _ => Command::Operators,
    }
}

// What the first argument asks, and what was found so far.
#[derive(Drop)]
struct Asked {
    command: Command,
    count: u64,
    edits: edits::Edits,
    sessions: sessions::Sessions,
    turns: turns::Turns,
    every: EveryEdit,
    operators: operators::Operators,
}

impl Asked {
    fn file(&mut self, rt: &HostRuntime, edition: &str, path: &str) -> anyhow::Result<()> {
        let Ok(text) = fs::read_to_string(rt, path) else {
            return Ok(());
        };
        let edition = edition_of(edition);
        let text = text.as_str();
        match self.command {
            Command::Operators => return self.operators.ask_file(rt, path, text, edition),
            Command::Turns(_) => return self.turns.try_file(rt, text, edition, self.count),
            Command::Edits => self.edits.try_file(rt, path, text, edition, self.count)?,
            Command::Documents => {}
        }
        self.sessions.try_file(rt, path, text, edition, self.count)
    }

    fn line(&mut self, rt: &HostRuntime, line: &str) -> anyhow::Result<()> {
        let (word, rest) = line.split_once('\t').unwrap_or(("2024", line));
        let text = rest.replace(rt.alloc(), "\\n", "\n")?;
        match word {
            "document" => self.sessions.try_text(rt, text.as_str()),
            "tiny" => self.every.try_text(rt, &Tiny, text.as_str()),
            "rust" => match self.command {
                Command::Documents => self.sessions.try_text(rt, text.as_str()),
                _ => self.every.try_text(rt, &Rust, text.as_str()),
            },
            _ => self.file(rt, word, rest),
        }
    }

    fn tell(&self, rt: &HostRuntime) -> anyhow::Result<()> {
        match self.command {
            Command::Operators => self.operators.tell(rt),
            Command::Documents => self.sessions.tell(rt),
            Command::Turns(_) => self.turns.tell(rt),
            Command::Edits => {
                self.edits.tell(rt)?;
                self.every.tell(rt)?;
                self.sessions.tell(rt)
            }
        }
    }
}

fn main(rt: HostRuntime) -> anyhow::Result<ExitCode> {
    let words: Vec<String> = env::args(&rt)?.collect(rt.alloc())?;
    let list = io::read_to_string(rt.alloc(), rt.reader())?;
    let number = |index: usize| words
        .get(index)
        .map_or(1, |word| word.parse::<u64>().unwrap_or(1));
    let command = words
        .get(1)
        .map_or(Command::Operators, |word| command_of(word.as_str()));
    let by = match command {
        Command::Turns(by) => by,
        _ => By::Nothing,
    };
    let mut asked = Asked {
        command,
        count: number(2),
        edits: edits::Edits::new(number(3)),
        sessions: sessions::Sessions::new(number(3)),
        turns: turns::Turns::new(by, number(3)),
        every: EveryEdit::default(),
        operators: operators::Operators::default(),
    };
    for line in list.lines() {
        asked.line(&rt, line)?;
    }
    asked.tell(&rt)?;
    Ok(if asked.every.is_wrong() || asked.sessions.is_wrong() {
        ExitCode::FAILURE
    } else {
        ExitCode::SUCCESS
    })
}
