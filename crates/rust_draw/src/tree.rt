//! The command `tree`: the tree of a text, with its errors, printed during a walk.

use crate::{page, tree_json};
use line_index::WideLineCol;
use lossless_tree::{NodeOrToken, SyntaxElement, SyntaxNode, SyntaxToken, TextRange, WalkEvent};
use ras_front_end::SyntaxError;
use ras_node::support::share;
use rust_print::failure::Failure;
use rust_print::json;
use rust_print::names::Named;
use rust_print::shown::{name, write_blanks, write_indent};
use rust_print::source::{Reading, Source, lines, parsed};
use rust_report::{Counts, count, noun_for, offset_of, spot_of};
use serde::Serialize;
use std::alloc::Global;
use std::io;
use std::io::Write;

/// The form of a tree.
#[derive(Clone, Copy, Debug)]
pub enum TreeFormat {
    /// A line for each node and token, indented.
    Text,
    /// One object of JSON with the path, the errors and the nested nodes and tokens.
    Json,
    /// Nested lists in parentheses.
    Sexp,
    /// A page of HTML, with the text beside the tree.
    Html,
}

/// The part of a tree that is shown.
#[derive(Clone, Copy, Debug)]
pub enum Part {
    /// The whole tree.
    Whole,
    /// The deepest node or token at a place.
    At(WideLineCol),
    /// The deepest node or token around a range of bytes.
    Range(TextRange),
}

/// What is shown of a tree, and how.
#[derive(Debug, Drop)]
pub struct Showing {
    /// The form.
    pub drawing: TreeFormat,
    /// Which part.
    pub part: Part,
    /// Whether white space and comments are shown.
    pub trivia: bool,
    /// How many levels are shown.
    pub depth: usize,
    /// Whether counts are shown instead of the tree.
    pub stats: bool,
    /// Whether the nodes around the part are shown instead of what is in it.
    pub ancestors: bool,
    /// Whether a line with the name of the file precedes the tree.
    pub named: bool,
    /// Where a page with the rules of the grammar is, to which the kinds of a page link: `KIND` to
    /// its anchor `#KIND`.
    pub grammar: Option<String>,
}

// The counts of a tree, also as an object of JSON.
#[derive(Drop, Serialize)]
struct Stats<'a> {
    path: &'a str,
    bytes: u64,
    nodes: u64,
    tokens: u64,
    levels: u64,
    errors: u64,
}

/// Whether a node or token at this many levels below the top is shown.
pub fn is_shown(showing: &Showing, level: usize, element: &SyntaxElement) -> bool {
    level < showing.depth && (showing.trivia || !element.is_trivia())
}

fn write_token_text<W: Write>(alloc: Global, out: &mut W, token: &SyntaxToken) -> io::Result<()> {
    let line = token.dump(alloc)?;
    let (_, shown) = line.as_str().split_once('@').unwrap_or(("", ""));
    // It is one line, with its line feed.
    let shown = shown.trim_end_matches('\n');
    writeln!(out, "{}@{}", Named(token.kind()), name(shown))
}

fn write_text<W: Write>(
    alloc: Global,
    out: &mut W,
    level: usize,
    element: &SyntaxElement,
) -> io::Result<()> {
    write_indent(out, level)?;
    match element {
        NodeOrToken::Node(node) => writeln!(out, "{}@{}", Named(node.kind()), node.text_range()),
        NodeOrToken::Token(token) => write_token_text(alloc, out, token),
    }
}

// Texts of tokens are strings of JSON.
fn write_sexp<W: Write>(alloc: Global, out: &mut W, element: &SyntaxElement) -> io::Result<()> {
    write!(out, "({}", Named(element.kind()))?;
    match element {
        NodeOrToken::Node(_) => Ok(()),
        NodeOrToken::Token(token) => {
            out.write_all(b" ")?;
            json::write(alloc, out, &token.text())
        }
    }
}

// Writes what precedes an element: a line feed and an indentation, or a comma between two.
fn write_before<W: Write>(
    out: &mut W,
    drawing: TreeFormat,
    level: usize,
    is_first: bool,
) -> io::Result<()> {
    match drawing {
        TreeFormat::Text | TreeFormat::Html => Ok(()),
        TreeFormat::Json => {
            if is_first {
                Ok(())
            } else {
                out.write_all(b",")
            }
        }
        TreeFormat::Sexp => {
            if level > 0 {
                out.write_all(b"\n")?;
            }
            write_blanks(out, level)
        }
    }
}

// Writes what follows the contents of an element.
fn write_behind<W: Write>(
    out: &mut W,
    drawing: TreeFormat,
    level: usize,
    element: &SyntaxElement,
) -> io::Result<()> {
    match drawing {
        TreeFormat::Text | TreeFormat::Html => Ok(()),
        TreeFormat::Json => tree_json::write_end(out, level, element),
        TreeFormat::Sexp => out.write_all(b")"),
    }
}

fn write_element<W: Write>(
    alloc: Global,
    out: &mut W,
    drawing: TreeFormat,
    level: usize,
    element: &SyntaxElement,
) -> io::Result<()> {
    match drawing {
        TreeFormat::Text | TreeFormat::Html => write_text(alloc, out, level, element),
        TreeFormat::Json => tree_json::write_element(alloc, out, level, element),
        TreeFormat::Sexp => write_sexp(alloc, out, element),
    }
}

fn write_node<W: Write>(
    alloc: Global,
    out: &mut W,
    root: &SyntaxNode,
    showing: &Showing,
) -> io::Result<()> {
    let drawing = showing.drawing;
    let mut level = 0usize;
    let mut is_first = true;
    for event in root.preorder_with_tokens() {
        match event {
            WalkEvent::Enter(element) => {
                if is_shown(showing, level, &element) {
                    write_before(out, drawing, level, is_first)?;
                    write_element(alloc, out, drawing, level, &element)?;
                    is_first = true;
                }
                level = level.saturating_add(1);
            }
            WalkEvent::Leave(element) => {
                level = level.saturating_sub(1);
                if is_shown(showing, level, &element) {
                    write_behind(out, drawing, level, &element)?;
                    is_first = false;
                }
            }
        }
    }
    match drawing {
        TreeFormat::Sexp => writeln!(out),
        _ => Ok(()),
    }
}

fn write_part<W: Write>(
    alloc: Global,
    out: &mut W,
    part: &SyntaxElement,
    showing: &Showing,
) -> io::Result<()> {
    match part {
        NodeOrToken::Node(node) => write_node(alloc, out, node, showing),
        NodeOrToken::Token(_) => {
            write_element(alloc, out, showing.drawing, 0, part)?;
            write_behind(out, showing.drawing, 0, part)?;
            match showing.drawing {
                TreeFormat::Sexp => writeln!(out),
                _ => Ok(()),
            }
        }
    }
}

// How many levels a tree has.
fn depth_of(root: &SyntaxNode) -> usize {
    let (mut level, mut depth) = (0usize, 0usize);
    for event in root.preorder_with_tokens() {
        match event {
            WalkEvent::Enter(_) => {
                level = level.saturating_add(1);
                depth = depth.max(level);
            }
            WalkEvent::Leave(_) => level = level.saturating_sub(1),
        }
    }
    depth
}

fn write_errors<W: Write>(out: &mut W, errors: &[SyntaxError]) -> io::Result<()> {
    for error in errors {
        writeln!(out, "error {}: {}", error.range(), name(error.message()))?;
    }
    Ok(())
}

// Writes a number, its noun, and what is to follow.
fn write_count<W: Write>(
    out: &mut W,
    count: u64,
    one: &'static str,
    many: &'static str,
    end: &str,
) -> io::Result<()> {
    write!(out, "{count} {}{end}", noun_for(count, one, many))
}

fn write_stats<W: Write>(
    alloc: Global,
    out: &mut W,
    stats: &Stats<'_>,
    drawing: TreeFormat,
) -> io::Result<()> {
    if matches!(drawing, TreeFormat::Json) {
        return json::write_line(alloc, out, stats);
    }
    write_count(out, stats.bytes, "byte", "bytes", ", ")?;
    write_count(out, stats.nodes, "node", "nodes", ", ")?;
    write_count(out, stats.tokens, "token", "tokens", ", ")?;
    write_count(out, stats.levels, "level", "levels", ", ")?;
    write_count(out, stats.errors, "error", "errors", "\n")
}

fn stats_of<'a>(source: Source<'a>, root: &SyntaxNode, errors: usize) -> Stats<'a> {
    let Counts { nodes, tokens } = count(root);
    Stats {
        path: source.name,
        bytes: source.text.len() as u64,
        nodes,
        tokens,
        levels: depth_of(root) as u64,
        errors: errors as u64,
    }
}

// A place of a text, as an empty range.
fn place_in(alloc: Global, text: &str, at: WideLineCol) -> Result<TextRange, Failure> {
    match offset_of(&lines(alloc, text)?, at) {
        Some(offset) => Ok(TextRange::empty(offset)),
        None => Err(Failure::Place(spot_of(at))),
    }
}

// The token at an empty range, or the deepest node or token around a range.
fn around(root: &SyntaxNode, range: TextRange) -> SyntaxElement {
    if range.is_empty() {
        if let Some(token) = root.token_at_offset(range.start()).right_biased() {
            return NodeOrToken::Token(token);
        }
    }
    root.covering_element(range)
}

fn part_of(
    alloc: Global,
    text: &str,
    root: &SyntaxNode,
    part: Part,
) -> Result<SyntaxElement, Failure> {
    match part {
        Part::Whole => Ok(NodeOrToken::Node(share(root))),
        Part::At(at) => Ok(around(root, place_in(alloc, text, at)?)),
        Part::Range(range) => {
            if range.end() <= root.text_range().end() {
                Ok(around(root, range))
            } else {
                Err(Failure::Range(range))
            }
        }
    }
}

// The node that a page shows: the part itself, or the parent of a token.
fn node_of(root: &SyntaxNode, part: &SyntaxElement) -> SyntaxNode {
    match part {
        NodeOrToken::Node(node) => share(node),
        NodeOrToken::Token(token) => token.parent().unwrap_or(share(root)),
    }
}

// Writes the nodes around a part of a tree, outermost first, and the part.
fn write_ancestors<W: Write>(alloc: Global, out: &mut W, part: &SyntaxElement) -> io::Result<()> {
    let mut around: Vec<SyntaxNode> = part.ancestors().collect(alloc)?;
    around.reverse();
    let mut level = 0usize;
    for node in around {
        write_text(alloc, out, level, &NodeOrToken::Node(node))?;
        level = level.saturating_add(1);
    }
    if part.as_token().is_some() {
        write_text(alloc, out, level, part)?;
    }
    Ok(())
}

// Writes a part of a tree and, if it is the whole tree or the form is JSON or a page, the errors of
// the text.
fn write_drawing<W: Write>(
    alloc: Global,
    out: &mut W,
    path: &str,
    root: &SyntaxNode,
    part: &SyntaxElement,
    errors: &[SyntaxError],
    showing: &Showing,
) -> io::Result<()> {
    match showing.drawing {
        TreeFormat::Html => page::show(alloc, out, path, &node_of(root, part), errors, showing),
        TreeFormat::Json => {
            tree_json::write_file(alloc, out, path, errors)?;
            write_part(alloc, out, part, showing)?;
            writeln!(out, "}}")
        }
        TreeFormat::Sexp => write_part(alloc, out, part, showing),
        TreeFormat::Text => {
            write_part(alloc, out, part, showing)?;
            match showing.part {
                Part::Whole => write_errors(out, errors),
                _ => Ok(()),
            }
        }
    }
}

fn write_shown<W: Write>(
    alloc: Global,
    out: &mut W,
    source: Source<'_>,
    root: &SyntaxNode,
    part: &SyntaxElement,
    errors: &[SyntaxError],
    showing: &Showing,
) -> io::Result<()> {
    if showing.named {
        writeln!(out, "==> {} <==", name(source.name))?;
    }
    if showing.stats {
        let stats = stats_of(source, root, errors.len());
        write_stats(alloc, out, &stats, showing.drawing)
    } else if showing.ancestors {
        write_ancestors(alloc, out, part)
    } else {
        write_drawing(alloc, out, source.name, root, part, errors, showing)
    }
}

// Writes what is shown of a tree and of the errors of its text. Returns 0.
fn write_tree<W: Write>(
    alloc: Global,
    out: &mut W,
    source: Source<'_>,
    root: &SyntaxNode,
    errors: &[SyntaxError],
    showing: &Showing,
) -> Result<u64, Failure> {
    let part = part_of(alloc, source.text, root, showing.part)?;
    write_shown(alloc, out, source, root, &part, errors, showing)?;
    Ok(0)
}

/// Writes the tree of a text and, in the forms of text and JSON, its errors. Returns 0: nothing
/// counts as found.
pub fn show<W: Write>(
    alloc: Global,
    out: &mut W,
    source: Source<'_>,
    reading: Reading,
    showing: &Showing,
) -> Result<u64, Failure> {
    let parse = parsed(alloc, source.text, reading)?;
    if !reading.validates {
        return write_tree(alloc, out, source, parse.root(), parse.stored(), showing);
    }
    let errors = parse.errors(alloc)?;
    write_tree(alloc, out, source, parse.root(), errors.as_slice(), showing)
}
