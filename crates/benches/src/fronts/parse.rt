//! Reading a text.

use super::text::Input;
use crate::stopped::Stopped;
use crate::timing::time_once;
use ra_ap_syntax::{Edition, Entry, FrontEnd, SourceFile};
use tiny_front::Tiny;

const NOW: Edition = Edition::CURRENT;

/// Prints a measure: what was done, to which text, its bytes, and the least nanoseconds.
pub fn print(
    rt: &HostRuntime,
    name: &str,
    input: Input,
    text: &str,
    nanoseconds: u128,
) -> Result<(), Stopped> {
    println!(rt; "{name} {input} {} {nanoseconds}", text.len())?;
    Ok(())
}

fn lex(rt: &HostRuntime, text: &str) -> Result<u128, Stopped> {
    time_once(rt, || Ok(Tiny.lex(rt.alloc(), text, NOW)?))
}

// Lexing, the parser's moves, and the steps of the tree.
fn steps(rt: &HostRuntime, text: &str) -> Result<u128, Stopped> {
    time_once(
        rt,
        || Ok(Tiny.parse(rt.alloc(), Entry::SourceFile, text, NOW)?),
    )
}

// The steps, and the tree that they build.
fn parse(rt: &HostRuntime, text: &str) -> Result<u128, Stopped> {
    time_once(rt, || Ok(SourceFile::parse(rt.alloc(), text, &Tiny, NOW)?))
}

fn errors(rt: &HostRuntime, text: &str) -> Result<u128, Stopped> {
    let file = SourceFile::parse(rt.alloc(), text, &Tiny, NOW)?;
    time_once(rt, || Ok(file.errors(rt.alloc())?))
}

fn dump(rt: &HostRuntime, text: &str) -> Result<u128, Stopped> {
    let file = SourceFile::parse(rt.alloc(), text, &Tiny, NOW)?;
    time_once(rt, || Ok(file.syntax_node().dump(rt.alloc())?))
}

/// Times lexing, parsing, errors and the dump of a text.
pub fn time_parse(rt: &HostRuntime, input: Input, runs: u32) -> Result<(), Stopped> {
    let text = input.text(rt.alloc())?;
    let text = text.as_str();
    let mut least = [u128::MAX; 5];
    for _run in 0..runs {
        least[0] = least[0].min(lex(rt, text)?);
        least[1] = least[1].min(steps(rt, text)?);
        least[2] = least[2].min(parse(rt, text)?);
        least[3] = least[3].min(errors(rt, text)?);
        least[4] = least[4].min(dump(rt, text)?);
    }
    print(rt, "lex", input, text, least[0])?;
    print(rt, "steps", input, text, least[1])?;
    print(rt, "parse", input, text, least[2])?;
    print(rt, "errors", input, text, least[3])?;
    print(rt, "dump", input, text, least[4])
}
