//! Rows on parentheses.
//!
//! A row is a tree as words, parted by a space: `KIND(` enters a node, `)` leaves it, `KIND:text`
//! is a token, and a short word stands for some of these. The tested node is marked by `>` before
//! its word, the parent by `^`, and the node in whose place it would be by `@`, if that is another.

mod short;

use crate::stopped::Stopped;
use ra_ap_syntax::{AstNode, SyntaxKind, SyntaxNode, TreeBuilder, ast};
use short::written_out;
use std::alloc::Global;
use std::fmt::Write;

// The numbers, among the nodes in preorder, of those that are marked.
#[derive(Clone, Copy, Default)]
struct Marks {
    own: Option<usize>,
    parent: Option<usize>,
    place: Option<usize>,
}

impl Marks {
    // Removes the marks of a word that begins with the node of this number.
    fn take<'a>(&mut self, word: &'a str, number: usize) -> &'a str {
        let mut left = word;
        if let Some(rest) = left.strip_prefix('^') {
            self.parent = Some(number);
            left = rest;
        }
        if let Some(rest) = left.strip_prefix('@') {
            self.place = Some(number);
            left = rest;
        }
        if let Some(rest) = left.strip_prefix('>') {
            self.own = Some(number);
            left = rest;
        }
        left
    }
}

fn kind_of(name: &str) -> Result<SyntaxKind, Stopped> {
    SyntaxKind::from_name(name).ok_or(Stopped::NoRequest)
}

// Appends an event, and returns whether it enters a node.
fn add(builder: &mut TreeBuilder, word: &str) -> Result<bool, Stopped> {
    if let Some((name, token)) = word.split_once(':') {
        builder.token(kind_of(name)?, token)?;
        return Ok(false);
    }
    if let Some(name) = word.strip_suffix('(') {
        builder.start_node(kind_of(name)?)?;
        return Ok(true);
    }
    builder.finish_node()?;
    Ok(false)
}

fn read(alloc: Global, words: &str) -> Result<(SyntaxNode, Marks), Stopped> {
    let mut builder = TreeBuilder::new(alloc);
    let mut marks = Marks::default();
    let mut nodes: usize = 0;
    for marked in words.split(' ') {
        let word = marks.take(marked, nodes);
        for event in written_out(word).split(' ') {
            if add(&mut builder, event)? {
                nodes = nodes.saturating_add(1);
            }
        }
    }
    Ok((builder.finish()?, marks))
}

fn marked(root: &SyntaxNode, number: Option<usize>) -> Result<SyntaxNode, Stopped> {
    match number {
        Some(number) => root
            .descendants()
            .skip(number)
            .next()
            .ok_or(Stopped::NoNode),
        None => Err(Stopped::NoNode),
    }
}

fn expr_asks(own: &SyntaxNode, parent: &SyntaxNode) -> Option<bool> {
    Some(ast::cast_ref::<ast::Expr>(own)?.needs_parens_in(parent))
}

fn expr_asks_in(own: &SyntaxNode, parent: &SyntaxNode, place: &SyntaxNode) -> Option<bool> {
    Some(ast::cast_ref::<ast::Expr>(own)?.needs_parens_in_place_of(parent, place))
}

fn type_asks(own: &SyntaxNode, parent: &SyntaxNode) -> Option<bool> {
    Some(ast::cast_ref::<ast::Type>(own)?.needs_parens_in(parent))
}

// Whether the marked node needs parentheses.
fn answer(alloc: Global, words: &str) -> Result<bool, Stopped> {
    let (root, marks) = read(alloc, words)?;
    let own = marked(&root, marks.own)?;
    let parent = marked(&root, marks.parent)?;
    let asks = match marks.place {
        None => expr_asks(&own, &parent),
        place => expr_asks_in(&own, &parent, &marked(&root, place)?),
    };
    asks.or(type_asks(&own, &parent)).ok_or(Stopped::NoNode)
}

/// Whether the marked node needs parentheses, and the expected result: `true` or `false`, and then
/// the row.
pub fn show_parens(alloc: Global, out: &mut String, row: &str) -> Result<(), Stopped> {
    let (wanted, words) = row.split_once(' ').unwrap_or((row, ""));
    let asks = answer(alloc, words)?;
    let said = if wanted == if asks { "true" } else { "false" } {
        "as wanted"
    } else {
        "not as wanted"
    };
    Ok(writeln!(out, "{asks}, {said}")?)
}
