//! The program `benches`: measures what its first argument names, and prints a line for each
//! measurement.
#![tactic(auto)]

mod fronts;
mod literals;
mod names;
mod operators;
mod rust;
mod stopped;
mod suite;
mod timing;
mod trees;
mod walks;

use rust::time_rust;
use std::env;
use std::process::ExitCode;
use stopped::Stopped;
use suite::Suite;

fn run(rt: &HostRuntime) -> Result<(), Stopped> {
    let words: Vec<String> = env::args(rt)?.collect(rt.alloc())?;
    let suite = match words.get(1) {
        Some(word) => Suite::from_name(word.as_str()),
        None => None,
    };
    if let Some(suite) = suite {
        return suite.time(rt);
    }
    if let [_, word, name, rounds] = words.as_slice() {
        if word.as_str() == "rust" {
            return time_rust(rt, name.as_str(), rounds.parse::<u32>().unwrap_or(1));
        }
    }
    println!(rt;
        "usage: benches trees | fronts | operators | walks | literals | names | rust FILE ROUNDS"
    )?;
    Ok(())
}

fn main(rt: HostRuntime) -> ExitCode {
    match run(&rt) {
        Ok(()) => ExitCode::SUCCESS,
        Err(stopped) => {
            let _said = eprintln!(rt; "benches: {stopped}");
            ExitCode::FAILURE
        }
    }
}
