//! A term as a tree and as a text.

use crate::every_term::terms::{Term, Terms};
use crate::stopped::Stopped;
use ra_ap_syntax::{SyntaxKind, SyntaxNode, TreeBuilder};
use std::alloc::Global;

// More words than any term has.
const WORDS: u32 = 1000;

/// The tree of a term, without white space, and its tokens with a space between.
#[derive(Drop)]
pub struct Written {
    pub tree: SyntaxNode,
    pub text: String,
}

// What is left of a term's words.
#[derive(Clone, Copy)]
struct Rest {
    words: &'static str,
    term: Term,
}

fn kind_of(name: &str) -> Result<SyntaxKind, Stopped> {
    SyntaxKind::from_name(name).ok_or(Stopped::NoRequest)
}

// Appends an event, and a token to the text.
fn add(builder: &mut TreeBuilder, text: &mut String, word: &str) -> Result<(), Stopped> {
    if let Some((name, token)) = word.split_once(':') {
        if !text.is_empty() {
            text.push(' ')?;
        }
        text.push_str(token)?;
        builder.token(kind_of(name)?, token)?;
    } else if let Some(name) = word.strip_suffix('(') {
        builder.start_node(kind_of(name)?)?;
    } else {
        builder.finish_node()?;
    }
    Ok(())
}

/// Writes a term down.
pub fn write_term(alloc: Global, terms: &Terms, term: Term) -> Result<Written, Stopped> {
    let mut builder = TreeBuilder::new(alloc);
    let mut text = String::new(alloc);
    let mut open: Vec<Rest> = Vec::new(alloc);
    open.push(Rest {
        words: term.form,
        term,
    })?;
    for _word in 0..WORDS {
        let Some(Rest { words, term }) = open.pop() else {
            break;
        };
        let (word, behind) = words.split_once(' ').unwrap_or((words, ""));
        if !behind.is_empty() {
            open.push(Rest {
                words: behind,
                term,
            })?;
        }
        let part = match word {
            "1" => terms.get(term.first),
            "2" => terms.get(term.second),
            _ => {
                add(&mut builder, &mut text, word)?;
                None
            }
        };
        if let Some(part) = part {
            open.push(Rest {
                words: part.form,
                term: part,
            })?;
        }
    }
    let tree = builder.finish()?;
    Ok(Written { tree, text })
}
