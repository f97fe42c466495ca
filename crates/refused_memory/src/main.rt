//! Makes each call that takes memory, and repeats it if memory was refused: its receiver must be
//! unchanged.
//!
//! Prints a line for each call: its name and its result, and between them `refused; ` if the first
//! call ran out of memory, or `changed; ` if something has changed. It is for runs in which any one
//! request for memory is refused. With the argument `free` it makes the calls that take no memory,
//! for a run in which every request is refused after the line `built`.
#![tactic(auto)]

mod asking;
mod building;
mod editing;
mod free;
mod parsing;
mod reading;
mod samples;

use asking::Stopped;
use std::env;
use std::process::ExitCode;

fn ask_all(rt: &HostRuntime) -> Result<(), Stopped> {
    if env::args(rt)
        .ok()
        .and_then(|mut words| words.nth(1))
        .is_some_and(|word| word.as_str() == "free")
    {
        return free::ask(rt);
    }
    building::ask(rt)?;
    parsing::ask(rt)?;
    reading::ask(rt)?;
    editing::ask(rt)
}

fn main(rt: HostRuntime) -> ExitCode {
    match ask_all(&rt) {
        Ok(()) => ExitCode::SUCCESS,
        Err(Stopped::Twice(call)) => {
            let _said = println!(rt; "{call}: refused twice");
            ExitCode::FAILURE
        }
        Err(Stopped::Other(call)) => {
            let _said = println!(rt; "{call}: answers something else");
            ExitCode::FAILURE
        }
        Err(Stopped::Output) => ExitCode::FAILURE,
    }
}
