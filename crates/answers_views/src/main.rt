//! Reads trees that are written as words, and prints the result of each call of each view of each
//! node.
//!
//! A line is a tree, or a heading that begins with `#`. The words are parted by a space: `KIND(`
//! enters a node, `)` leaves it, and `KIND:text` is a token. After a line that makes no tree is
//! `no tree`.
//!
//! With the argument `texts` a line is a text of Rust, in which `\n` is a newline. What is printed
//! is what is printed for its tree.
#![tactic(auto)]

mod attrs;
mod exprs;
mod items;
mod lookups;
mod loops;
mod paths;
mod rules;
mod sheet;
mod texts;

use crate::sheet::Sheet;
use ra_ap_syntax::{FinishError, SyntaxKind, SyntaxNode, TreeBuilder};
use std::alloc::{AllocError, Global};
use std::process::ExitCode;
use std::{env, io};

// Why a line gives no tree.
#[derive(Drop)]
enum Unread {
    // It names an unknown kind, or the words make no tree.
    NoTree,
    Memory,
}

impl From<AllocError> for Unread {
    fn from(_error: AllocError) -> Unread {
        Unread::Memory
    }
}

impl From<FinishError> for Unread {
    fn from(error: FinishError) -> Unread {
        match error {
            FinishError::Memory => Unread::Memory,
            _ => Unread::NoTree,
        }
    }
}

fn read_word(builder: &mut TreeBuilder, word: &str) -> Result<(), Unread> {
    if let Some((name, text)) = word.split_once(':') {
        builder.token(SyntaxKind::from_name(name).ok_or(Unread::NoTree)?, text)?;
    } else if let Some(name) = word.strip_suffix('(') {
        builder.start_node(SyntaxKind::from_name(name).ok_or(Unread::NoTree)?)?;
    } else {
        builder.finish_node()?;
    }
    Ok(())
}

fn read_tree(alloc: Global, words: &str) -> Result<SyntaxNode, Unread> {
    let mut builder = TreeBuilder::new(alloc);
    for word in words.split(' ') {
        read_word(&mut builder, word)?;
    }
    Ok(builder.finish()?)
}

fn answers(sheet: &mut Sheet, root: &SyntaxNode) -> Result<(), AllocError> {
    for node in root.descendants() {
        sheet.head(&node)?;
        exprs::answers(sheet, &node)?;
        items::answers(sheet, &node)?;
        paths::answers(sheet, &node)?;
        attrs::answers(sheet, &node)?;
        loops::answers(sheet, &node)?;
        lookups::answers(sheet, &node)?;
        rules::answers(sheet, &node)?;
    }
    Ok(())
}

fn answer_line(sheet: &mut Sheet, line: &str) -> Result<(), AllocError> {
    sheet.line(line)?;
    if line.is_empty() || line.starts_with('#') {
        return Ok(());
    }
    match read_tree(sheet.alloc(), line) {
        Ok(root) => {
            answers(sheet, &root)?;
            rules::violations(sheet, &root)
        }
        Err(Unread::Memory) => Err(AllocError),
        Err(Unread::NoTree) => sheet.line("no tree"),
    }
}

fn answers_of_input(rt: &HostRuntime) -> Result<Sheet, AllocError> {
    let mut sheet = Sheet::new(rt.alloc())?;
    match io::read_to_string(rt.alloc(), rt.reader()) {
        Ok(input) => {
            for line in input.as_str().lines() {
                answer_line(&mut sheet, line)?;
            }
        }
        Err(_error) => sheet.line("the input is no text")?,
    }
    Ok(sheet)
}

// Whether the first argument asks for texts.
fn is_texts(rt: &HostRuntime) -> bool {
    match env::args(rt) {
        Ok(mut words) => words.nth(1).is_some_and(|word| word.as_str() == "texts"),
        Err(_error) => false,
    }
}

fn answers_of(rt: &HostRuntime) -> Result<Sheet, AllocError> {
    if is_texts(rt) {
        texts::answers_of_texts(rt)
    } else {
        answers_of_input(rt)
    }
}

fn main(rt: HostRuntime) -> ExitCode {
    let printed = match answers_of(&rt) {
        Ok(sheet) => print!(rt; "{}", sheet.as_str()),
        Err(AllocError) => print!(rt; "out of memory\n"),
    };
    ExitCode::from(printed.is_err() as u8)
}
