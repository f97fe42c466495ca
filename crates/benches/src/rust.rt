//! The lexer and the parser of Rust on a file: the minimum of some rounds, in nanoseconds for each
//! byte.

use crate::stopped::Stopped;
use crate::timing::time_once;
use lossless_tree::SyntaxNode;
use ra_ap_syntax::{Edition, Entry, FrontEnd, Parse};
use ras_parsing::read;
use rust_front::Rust;
use rust_lexer::lex;
use std::fs;

const NOW: Edition = Edition::CURRENT;

fn show(rt: &HostRuntime, what: &str, least: u128, text: &str) -> Result<(), Stopped> {
    let bytes = (text.len() as u128).max(1);
    let hundredths = least.saturating_mul(100) / bytes;
    println!(rt;
        "{what}: {}.{:02} ns a byte",
        hundredths / 100,
        hundredths % 100
    )?;
    Ok(())
}

/// Times lexing, parsing to steps and parsing to a tree, in this many rounds, and prints a line for
/// each.
pub fn time_rust(rt: &HostRuntime, name: &str, rounds: u32) -> Result<(), Stopped> {
    let file = fs::read_to_string(rt, name)?;
    let text = file.as_str();
    let (mut lexing, mut steps, mut tree) = (u128::MAX, u128::MAX, u128::MAX);
    for _round in 0..rounds {
        lexing = lexing.min(time_once(rt, || Ok(lex(rt.alloc(), text, NOW)?))?);
        steps = steps.min(time_once(
            rt,
            || Ok(Rust.parse(rt.alloc(), Entry::SourceFile, text, NOW)?),
        )?);
        tree = tree.min(time_once(rt, || {
            let parse: Parse<SyntaxNode> = read(rt.alloc(), &Rust, Entry::SourceFile, text, NOW)?;
            Ok(parse)
        })?);
    }
    println!(rt; "bytes: {}", text.len())?;
    show(rt, "lex", lexing, text)?;
    show(rt, "to steps", steps, text)?;
    show(rt, "to the tree", tree, text)
}
