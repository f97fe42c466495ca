//! Searches of a tree by offset: worked rows, and every offset from every node of three small
//! trees, compared with a plain slow program.
use crate::ensure::ensure_text;
use lossless_tree::{SyntaxKind, SyntaxNode, SyntaxNodePtr, SyntaxToken, TextRange, TextSize};
use plain_trees::{PlainTree, SUM};
use std::test::Fail;

// Trees with empty tokens and empty nodes at each end and in between; each node and token has a
// kind of its own.
const TREES: [&str; 3] = [
    "( : ( ) ( ( ) :a : ( :bc ( : ) ) :d ) ( : ( ) ) :e ( ) : )",
    "( ( ( :ab ) ) ( ( ) ( ) ) ( ( ( : ) ) ) ( ( :c ) ( :d ( ) ) ) )",
    "( ( ( ) : ( ( ) ) ) ( ) )",
];

fn name_between_tokens(rt: &HostRuntime) -> Result<SyntaxNode, Fail> {
    PlainTree::read(rt.alloc(), "SOURCE_FILE( IDENT:a NAME( ) IDENT:b )")?.build(rt.alloc())
}

fn token_is(found: Option<SyntaxToken>, text: &str) -> bool {
    match found {
        Some(token) => token.text() == text,
        None => false,
    }
}

#[test]
fn one_token_is_at_the_start(rt: HostRuntime) -> Result<(), Fail> {
    let root = name_between_tokens(&rt)?;
    let mut first = root.token_at_offset(TextSize::new(0));
    assert_eq!(rt; first.size_hint(), (1, Some(1)));
    assert!(rt; token_is(first.next(), "a"));
    assert!(rt; first.next().is_none());
    Ok(())
}

#[test]
fn tokens_meet_at_an_offset(rt: HostRuntime) -> Result<(), Fail> {
    let root = name_between_tokens(&rt)?;
    let between = root.token_at_offset(TextSize::new(1));
    assert_eq!(rt; between.size_hint(), (2, Some(2)));
    assert!(rt; token_is(between.left_biased(), "a"));
    let between = root.token_at_offset(TextSize::new(1));
    assert!(rt; token_is(between.right_biased(), "b"));
    Ok(())
}

#[test]
fn no_token_is_past_the_end(rt: HostRuntime) -> Result<(), Fail> {
    let root = name_between_tokens(&rt)?;
    let outside = root.token_at_offset(TextSize::new(3));
    assert_eq!(rt; outside.size_hint(), (0, Some(0)));
    assert!(rt; outside.left_biased().is_none());
    Ok(())
}

fn is_token(found: Option<SyntaxToken>, token: &SyntaxToken) -> bool {
    match found {
        Some(found) => found == *token,
        None => false,
    }
}

// The two tokens are each other's neighbours, and have no others.
fn are_neighbours(first: &SyntaxToken, last: &SyntaxToken) -> bool {
    first.prev_token().is_none()
        && is_token(first.next_token(), last)
        && is_token(last.prev_token(), first)
        && last.next_token().is_none()
}

#[test]
fn tokens_step_past_an_empty_node(rt: HostRuntime) -> Result<(), Fail> {
    let root = name_between_tokens(&rt)?;
    let first = root.first_token().ok_or("no first token")?;
    let last = root.last_token().ok_or("no last token")?;
    assert_eq!(rt; first.text(), "a");
    assert_eq!(rt; last.text(), "b");
    assert!(rt; are_neighbours(&first, &last));
    Ok(())
}

#[test]
fn an_empty_node_has_no_tokens(rt: HostRuntime) -> Result<(), Fail> {
    let root = name_between_tokens(&rt)?;
    let name = root.first_child().ok_or("no node between the tokens")?;
    assert_eq!(rt; name.kind(), SyntaxKind::NAME);
    assert!(rt; name.first_token().is_none());
    assert!(rt; name.last_token().is_none());
    Ok(())
}

// The tokens at an offset, as `KIND@start..end` and a space each.
fn tokens(rt: &HostRuntime, node: &SyntaxNode, offset: u32) -> Result<String, Fail> {
    let mut text = String::new(rt.alloc());
    for token in node.token_at_offset(TextSize::new(offset)) {
        write!(text, "{}@{} ", token.kind(), token.text_range())?;
    }
    Ok(text)
}

// Offsets in a sum, and the tokens there.
const TOKENS: [(u32, &str); 5] = [
    (0, "INT_NUMBER@0..1 "),
    (1, "INT_NUMBER@0..1 WHITESPACE@1..2 "),
    (4, "WHITESPACE@3..4 INT_NUMBER@4..5 "),
    (5, "INT_NUMBER@4..5 "),
    (6, ""),
];

// The same in its last operand.
const LAST_TOKENS: [(u32, &str); 2] = [(4, "INT_NUMBER@4..5 "), (3, "")];

fn has_tokens(rt: &HostRuntime, node: &SyntaxNode, row: &(u32, &'static str)) -> Result<(), Fail> {
    ensure_text(rt.alloc(), tokens(rt, node, row.0)?.as_str(), row.1)
}

fn sum(rt: &HostRuntime) -> Result<SyntaxNode, Fail> {
    PlainTree::read(rt.alloc(), SUM)?.build(rt.alloc())
}

#[test]
fn tokens_of_a_sum(rt: HostRuntime) -> Result<(), Fail> {
    let root = sum(&rt)?;
    for row in &TOKENS {
        has_tokens(&rt, &root, row)?;
    }
    let last = root.last_child().ok_or("no last child")?;
    for row in &LAST_TOKENS {
        has_tokens(&rt, &last, row)?;
    }
    Ok(())
}

// The tokens at each offset, searched from a node of a plain tree.
fn tokens_are(rt: &HostRuntime, plain: &PlainTree, node: &SyntaxNode) -> Result<(), Fail> {
    let kind = node.kind();
    let here = plain.find(kind).ok_or("no such place")?;
    let start = plain.start_of(0, kind).ok_or("no such place")?;
    for offset in 0u32..8 {
        let mut wanted = Vec::new(rt.alloc());
        here.tokens_at(start, offset as usize, &mut wanted)?;
        let mut found: Vec<SyntaxKind> = Vec::new(rt.alloc());
        for token in node.token_at_offset(TextSize::new(offset)) {
            found.push(token.kind())?;
        }
        if found != wanted {
            return Err(Fail::from("other tokens are at an offset"));
        }
    }
    Ok(())
}

#[test]
fn tokens_at_every_offset(rt: HostRuntime) -> Result<(), Fail> {
    for words in &TREES {
        let plain = PlainTree::read(rt.alloc(), *words)?;
        let root = plain.build(rt.alloc())?;
        for node in root.descendants() {
            tokens_are(&rt, &plain, &node)?;
        }
    }
    Ok(())
}

fn range(from: u32, to: u32) -> TextRange {
    let start = TextSize::new(from);
    if from <= to {
        TextRange::new(start, TextSize::new(to))
    } else {
        TextRange::empty(start)
    }
}

// Ranges of a sum, and what covers them.
const COVERINGS: [(u32, u32, &str); 11] = [
    (0, 1, "INT_NUMBER@0..1"),
    (1, 2, "WHITESPACE@1..2"),
    (4, 5, "INT_NUMBER@4..5"),
    (0, 3, "BIN_EXPR@0..5"),
    (4, 9, "BIN_EXPR@0..5"),
    (0, 0, "INT_NUMBER@0..1"),
    (1, 1, "INT_NUMBER@0..1"),
    (2, 2, "WHITESPACE@1..2"),
    (4, 4, "WHITESPACE@3..4"),
    (5, 5, "INT_NUMBER@4..5"),
    (9, 9, "INT_NUMBER@4..5"),
];

// The same from its last operand.
const LAST_COVERINGS: [(u32, u32, &str); 2] = [(0, 0, "INT_NUMBER@4..5"), (0, 1, "LITERAL@4..5")];

// What covers a range, as `KIND@start..end`.
fn covers(rt: &HostRuntime, node: &SyntaxNode, row: &(u32, u32, &'static str)) -> Result<(), Fail> {
    let found = node.covering_element(range(row.0, row.1));
    let text = format!(in rt.alloc(); "{}@{}", found.kind(), found.text_range())?;
    ensure_text(rt.alloc(), text.as_str(), row.2)
}

#[test]
fn elements_cover_ranges(rt: HostRuntime) -> Result<(), Fail> {
    let root = sum(&rt)?;
    for row in &COVERINGS {
        covers(&rt, &root, row)?;
    }
    let last = root.last_child().ok_or("no last child")?;
    for row in &LAST_COVERINGS {
        covers(&rt, &last, row)?;
    }
    Ok(())
}

#[test]
fn an_empty_node_covers_its_place(rt: HostRuntime) -> Result<(), Fail> {
    covers(&rt, &name_between_tokens(&rt)?, &(1, 1, "NAME@1..1"))
}

// What covers each range, searched from a node of a plain tree.
fn coverings_are(plain: &PlainTree, node: &SyntaxNode) -> Result<(), Fail> {
    let kind = node.kind();
    let here = plain.find(kind).ok_or("no such place")?;
    let start = plain.start_of(0, kind).ok_or("no such place")?;
    for from in 0u32..8 {
        for to in from..8 {
            let wanted = here.covering(start, from as usize, to as usize);
            let found = node.covering_element(range(from, to));
            if found.kind() != wanted {
                return Err(Fail::from("another element covers a range"));
            }
        }
    }
    Ok(())
}

#[test]
fn elements_cover_every_range(rt: HostRuntime) -> Result<(), Fail> {
    for words in &TREES {
        let plain = PlainTree::read(rt.alloc(), *words)?;
        let root = plain.build(rt.alloc())?;
        for node in root.descendants() {
            coverings_are(&plain, &node)?;
        }
    }
    Ok(())
}

// The kinds of a node and those above it, and how many siblings follow each: that is its place.
fn place(rt: &HostRuntime, node: &SyntaxNode) -> Result<String, Fail> {
    let mut text = String::new(rt.alloc());
    for above in node.ancestors() {
        let mut later: usize = 0;
        let mut next = above.next_sibling_or_token();
        for _turn in 0..100 {
            let Some(sibling) = next else {
                break;
            };
            later = later.saturating_add(1);
            next = sibling.next_sibling_or_token();
        }
        write!(text, "{}+{later} ", above.kind())?;
    }
    Ok(text)
}

fn has_place(rt: &HostRuntime, found: Option<SyntaxNode>, want: &str) -> Result<(), Fail> {
    let found = found.ok_or("nothing is found")?;
    ensure_text(rt.alloc(), place(rt, &found)?.as_str(), want)
}

// A path in a path of the same range, over a segment.
fn nested_paths(rt: &HostRuntime) -> Result<SyntaxNode, Fail> {
    let words = "PATH( PATH( PATH_SEGMENT( IDENT:a ) ) )";
    PlainTree::read(rt.alloc(), words)?.build(rt.alloc())
}

fn first_child(node: &SyntaxNode) -> Result<SyntaxNode, Fail> {
    Ok(node.first_child().ok_or("no child")?)
}

#[test]
fn pointers_are_a_kind_and_a_range(rt: HostRuntime) -> Result<(), Fail> {
    let root = nested_paths(&rt)?;
    let pointer = SyntaxNodePtr::new(&root);
    assert_eq!(rt; SyntaxNodePtr::new(&first_child(&root)?), pointer);
    assert_eq!(rt; pointer.kind(), SyntaxKind::PATH);
    assert_eq!(rt; pointer.text_range(), range(0, 1));
    let text = format!(in rt.alloc(); "{pointer:?}")?;
    assert_eq!(rt; text.as_str(), "SyntaxNodePtr { kind: PATH, range: 0..1 }");
    Ok(())
}

#[test]
fn pointers_find_the_first_of_their_kind_and_range(rt: HostRuntime) -> Result<(), Fail> {
    let root = nested_paths(&rt)?;
    let inner = first_child(&root)?;
    let pointer = SyntaxNodePtr::new(&inner);
    has_place(&rt, pointer.to_node(&root), "PATH+0 ")?;
    assert!(rt; pointer.to_node(&inner).is_none());
    Ok(())
}

#[test]
fn pointers_find_what_is_deeper(rt: HostRuntime) -> Result<(), Fail> {
    let root = nested_paths(&rt)?;
    let segment = first_child(&first_child(&root)?)?;
    let found = SyntaxNodePtr::new(&segment).to_node(&root);
    has_place(&rt, found, "PATH_SEGMENT+0 PATH+0 PATH+0 ")
}

// A pointer to the node finds the node at its place in another tree.
fn is_found(rt: &HostRuntime, again: &SyntaxNode, node: &SyntaxNode) -> Result<(), Fail> {
    let found = SyntaxNodePtr::new(node).to_node(again);
    has_place(rt, found, place(rt, node)?.as_str())
}

// Each node of a tree in which each has its own kind is found again.
#[test]
fn pointers_find_their_nodes(rt: HostRuntime) -> Result<(), Fail> {
    for words in &TREES {
        let plain = PlainTree::read(rt.alloc(), *words)?;
        let root = plain.build(rt.alloc())?;
        let again = plain.build(rt.alloc())?;
        for node in root.descendants() {
            is_found(&rt, &again, &node)?;
        }
    }
    Ok(())
}
