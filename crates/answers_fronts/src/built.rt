//! Trees that are built by hand.

use crate::parses::push_errors;
use crate::request::number;
use crate::stopped::Stopped;
use ra_ap_syntax::{FinishError, SyntaxKind, SyntaxTreeBuilder, TextSize};
use std::alloc::Global;
use syntax_tool::Refusal;

fn kind_of(name: &str) -> Result<SyntaxKind, Stopped> {
    SyntaxKind::from_name(name).ok_or(Stopped::NoRequest)
}

fn add_error(
    alloc: Global,
    builder: &mut SyntaxTreeBuilder,
    position: &str,
) -> Result<(), Stopped> {
    let message = String::from_str(alloc, "stored")?;
    let position = TextSize::new(number(position)?);
    Ok(builder.error(message, position)?)
}

fn add_token(builder: &mut SyntaxTreeBuilder, name: &str, text: &str) -> Result<(), Stopped> {
    Ok(builder.token(kind_of(name)?, text)?)
}

fn add_start(builder: &mut SyntaxTreeBuilder, name: &str) -> Result<(), Stopped> {
    Ok(builder.start_node(kind_of(name)?)?)
}

fn add(alloc: Global, builder: &mut SyntaxTreeBuilder, word: &str) -> Result<(), Stopped> {
    if let Some(position) = word.strip_prefix('!') {
        add_error(alloc, builder, position)
    } else if let Some((name, text)) = word.split_once(':') {
        add_token(builder, name, text)
    } else if let Some(name) = word.strip_suffix('(') {
        add_start(builder, name)
    } else {
        Ok(builder.finish_node()?)
    }
}

fn add_all(alloc: Global, builder: &mut SyntaxTreeBuilder, words: &str) -> Result<(), Stopped> {
    for word in words.split(' ') {
        add(alloc, builder, word)?;
    }
    Ok(())
}

fn show_refusal(out: &mut String, refusal: FinishError) -> Result<(), Stopped> {
    Ok(out.push_str(Refusal::from(refusal).line())?)
}

/// The errors of the tree that the words build, or the refusal.
pub fn show_built(alloc: Global, out: &mut String, words: &str) -> Result<(), Stopped> {
    let mut builder = SyntaxTreeBuilder::new(alloc);
    add_all(alloc, &mut builder, words)?;
    match builder.finish() {
        Ok(parse) => push_errors(alloc, out, &parse),
        Err(refusal) => show_refusal(out, refusal),
    }
}
