//! Every offset and every range of a text, searched in its tree and by exhaustive searches.

use crate::stopped::Stopped;
use ra_ap_syntax::algo::ancestors_at_offset;
use ra_ap_syntax::{
    Edition, FrontEnd, NodeOrToken, SourceFile, SyntaxElement, SyntaxNode, SyntaxToken, TextRange,
    TextSize,
};
use std::alloc::Global;
use std::fmt::Write;

// The tokens with a text that touch an offset: the first and the last of them, and how many nodes
// are above them in all.
#[derive(Drop)]
struct Touching {
    first: Option<SyntaxToken>,
    last: Option<SyntaxToken>,
    above: usize,
}

fn nodes_above(token: &SyntaxToken) -> usize {
    let mut count = 0_usize;
    for _node in token.parent_ancestors() {
        count = count.saturating_add(1);
    }
    count
}

fn touches(token: &SyntaxToken, offset: u32) -> bool {
    let range = token.text_range();
    !range.is_empty() && range.start().raw() <= offset && offset <= range.end().raw()
}

fn add_token(found: &mut Touching, token: SyntaxToken) -> Result<(), Stopped> {
    found.above = found.above.saturating_add(nodes_above(&token));
    if found.first.is_none() {
        found.first = Some(token.clone()?);
    }
    found.last = Some(token);
    Ok(())
}

fn add_if_touching(found: &mut Touching, token: SyntaxToken, offset: u32) -> Result<(), Stopped> {
    if touches(&token, offset) {
        add_token(found, token)
    } else {
        Ok(())
    }
}

fn add_element(found: &mut Touching, element: SyntaxElement, offset: u32) -> Result<(), Stopped> {
    match element {
        NodeOrToken::Token(token) => add_if_touching(found, token, offset),
        NodeOrToken::Node(_node) => Ok(()),
    }
}

fn tokens_touching(root: &SyntaxNode, offset: u32) -> Result<Touching, Stopped> {
    let mut found = Touching {
        first: None,
        last: None,
        above: 0,
    };
    for element in root.descendants_with_tokens() {
        add_element(&mut found, element, offset)?;
    }
    Ok(found)
}

// Whether `token_at_offset` finds the first and the last token at an offset.
fn are_tokens_at(root: &SyntaxNode, at: TextSize, wanted: &Touching) -> bool {
    root.token_at_offset(at).left_biased() == wanted.first
        && root.token_at_offset(at).right_biased() == wanted.last
}

// Whether there are `wanted` nodes above an offset, all of them touch it, and the shortest come
// first.
fn are_nodes_above(root: &SyntaxNode, offset: u32, wanted: usize) -> bool {
    let (mut above, mut len, mut ordered) = (0_usize, 0_u32, true);
    for node in ancestors_at_offset(root, TextSize::new(offset)) {
        let range = node.text_range();
        ordered = ordered
            && len <= range.len().raw()
            && range.start().raw() <= offset
            && offset <= range.end().raw();
        len = range.len().raw();
        above = above.saturating_add(1);
    }
    ordered && above == wanted
}

// Whether the searches at an offset agree with an exhaustive search of the tokens.
fn is_right_at(root: &SyntaxNode, offset: u32) -> Result<bool, Stopped> {
    let wanted = tokens_touching(root, offset)?;
    let tokens = are_tokens_at(root, TextSize::new(offset), &wanted);
    let nodes = are_nodes_above(root, offset, wanted.above);
    Ok(tokens && nodes)
}

// Whether the search for the element that covers a range continues in this child: it contains the
// range, an empty one strictly inside.
fn holds(child: TextRange, range: TextRange) -> bool {
    if range.is_empty() {
        child.start().raw() < range.start().raw() && range.end().raw() < child.end().raw()
    } else {
        child.contains_range(range)
    }
}

// The child to go to, if there is one: one that holds the range; else, for an empty range, the last
// that ends before it, or the first.
fn child_towards(node: &SyntaxNode, range: TextRange) -> Option<SyntaxElement> {
    let mut nearest = None;
    for child in node.children_with_tokens() {
        if holds(child.text_range(), range) {
            return Some(child);
        }
        let ends = child.text_range().end().raw() <= range.start().raw();
        if range.is_empty() && (ends || nearest.is_none()) {
            nearest = Some(child);
        }
    }
    nearest
}

// More steps than any of the trees here is deep.
const STEPS: u32 = 1_000_000;

// The element that covers a range, found step by step down from the root.
fn covering(root: &SyntaxNode, range: TextRange) -> Result<SyntaxElement, Stopped> {
    let mut here = root.clone()?;
    for _step in 0..STEPS {
        match child_towards(&here, range) {
            Some(NodeOrToken::Node(child)) => here = child,
            Some(token) => return Ok(token),
            None => return Ok(NodeOrToken::Node(here)),
        }
    }
    Ok(NodeOrToken::Node(here))
}

fn show_offset(out: &mut String, root: &SyntaxNode, offset: u32) -> Result<(), Stopped> {
    if !is_right_at(root, offset)? {
        writeln!(out, "wrong: {offset}")?;
    }
    Ok(())
}

// Whether `covering_element` agrees with the search step by step.
fn is_right_over(root: &SyntaxNode, range: TextRange) -> Result<bool, Stopped> {
    let covering = covering(root, range)?;
    Ok(root.covering_element(range) == covering)
}

fn show_range(out: &mut String, root: &SyntaxNode, range: TextRange) -> Result<(), Stopped> {
    if !is_right_over(root, range)? {
        writeln!(out, "wrong: {range}")?;
    }
    Ok(())
}

// The ranges from an offset to each that is not before it; how many there are.
fn show_ranges(
    out: &mut String,
    root: &SyntaxNode,
    start: u32,
    behind: u32,
) -> Result<u32, Stopped> {
    let mut ranges = 0_u32;
    for end in start..behind {
        let range = TextRange::new(TextSize::new(start), TextSize::new(end));
        ranges = ranges.saturating_add(1);
        show_range(out, root, range)?;
    }
    Ok(ranges)
}

fn show_offsets(out: &mut String, root: &SyntaxNode) -> Result<(), Stopped> {
    let behind = root.text_range().end().raw().saturating_add(1);
    let (mut offsets, mut ranges) = (0_u32, 0_u32);
    for start in 0..behind {
        offsets = offsets.saturating_add(1);
        show_offset(out, root, start)?;
        ranges = ranges.saturating_add(show_ranges(out, root, start, behind)?);
    }
    Ok(writeln!(out, "offsets {offsets}, ranges {ranges}")?)
}

/// Each offset and each range of a text.
pub fn show_every_offset<F: FrontEnd>(
    alloc: Global,
    out: &mut String,
    front: &F,
    text: &str,
) -> Result<(), Stopped> {
    let file = SourceFile::parse(alloc, text, front, Edition::CURRENT)?;
    show_offsets(out, &file.syntax_node())
}
