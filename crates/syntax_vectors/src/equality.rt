//! Equality and hash of cursors, and copies of their iterators.
use lossless_tree::{Direction, SyntaxElement, SyntaxNode, TextSize};
use plain_trees::PlainTree;
use std::hash::{DefaultHasher, Hash, Hasher};
use std::iter::repeat;
use std::test::Fail;

const WORDS: &str = "( : ( ) ( ( ) :a : ( :bc ( : ) ) :d ) ( : ( ) ) :e ( ) : )";

fn built(rt: &HostRuntime, words: &'static str) -> Result<SyntaxNode, Fail> {
    PlainTree::read(rt.alloc(), words)?.build(rt.alloc())
}

fn hash_of(element: &SyntaxElement) -> u64 {
    let mut hasher = DefaultHasher::new();
    element.hash(&mut hasher);
    hasher.finish()
}

#[test]
fn equal_at_one_place_of_equal_trees(rt: HostRuntime) -> Result<(), Fail> {
    let root = built(&rt, WORDS)?;
    let copy = built(&rt, WORDS)?;
    let mut i: usize = 0;
    for here in root.descendants_with_tokens() {
        let mut j: usize = 0;
        for there in copy.descendants_with_tokens() {
            assert_eq!(rt; here == there, i == j);
            if i == j {
                assert_eq!(rt; hash_of(&here), hash_of(&there));
            }
            j = j.saturating_add(1);
        }
        i = i.saturating_add(1);
    }
    assert_eq!(rt; i, 18);
    Ok(())
}

#[test]
fn trees_that_differ_have_no_equal_places(rt: HostRuntime) -> Result<(), Fail> {
    let root = built(&rt, "SOURCE_FILE( NAME( IDENT:a ) NAME( IDENT:b ) )")?;
    let others = [
        "SOURCE_FILE( NAME( IDENT:a ) NAME( IDENT:c ) )",
        "SOURCE_FILE( NAME( IDENT:a ) NAME_REF( IDENT:b ) )",
        "SOURCE_FILE( NAME( IDENT:a IDENT:b ) NAME( ) )",
        "SOURCE_FILE( NAME( IDENT:a ) NAME( ) IDENT:b )",
        "SOURCE_FILE( NAME( IDENT:ab ) NAME( IDENT: ) )",
    ];
    for words in others {
        let other = built(&rt, words)?;
        for here in root.descendants_with_tokens() {
            for there in other.descendants_with_tokens() {
                assert!(rt; here != there);
            }
        }
    }
    Ok(())
}

#[test]
fn copies_of_iterators_go_their_own_way(rt: HostRuntime) -> Result<(), Fail> {
    let root = built(&rt, WORDS)?;
    let mut below = root.descendants_with_tokens();
    let _first = below.next();
    let mut copy = below.clone()?;
    let mut count: usize = 0;
    while let Some(element) = below.next() {
        assert!(rt; copy.next() == Some(element));
        count = count.saturating_add(1);
    }
    assert_eq!(rt; count, 17);
    assert!(rt; copy.next().is_none());
    Ok(())
}

// `repeat` requires a copy that can't fail: that these calls compile shows that each iterator, and
// an element, has one.
fn node_iterators_are_copied(root: &SyntaxNode) -> [bool; 5] {
    [
        repeat(root.ancestors()).next().is_some(),
        repeat(root.children()).next().is_some(),
        repeat(root.siblings(Direction::Next)).next().is_some(),
        repeat(root.descendants()).next().is_some(),
        repeat(root.preorder()).next().is_some(),
    ]
}

fn element_iterators_are_copied(root: &SyntaxNode) -> [bool; 4] {
    [
        repeat(root.children_with_tokens()).next().is_some(),
        repeat(root.siblings_with_tokens(Direction::Prev))
            .next()
            .is_some(),
        repeat(root.descendants_with_tokens()).next().is_some(),
        repeat(root.preorder_with_tokens()).next().is_some(),
    ]
}

#[test]
fn copies_of_iterators_take_no_memory(rt: HostRuntime) -> Result<(), Fail> {
    let root = built(&rt, WORDS)?;
    assert!(rt; node_iterators_are_copied(&root) == [true; 5]);
    assert!(rt; element_iterators_are_copied(&root) == [true; 4]);
    Ok(())
}

#[test]
fn copies_of_tokens_take_no_memory(rt: HostRuntime) -> Result<(), Fail> {
    let root = built(&rt, WORDS)?;
    let mut copies = repeat(root.token_at_offset(TextSize::new(1)));
    let between = copies.next().ok_or("no copy of the tokens")?;
    assert_eq!(rt; between.size_hint(), (2, Some(2)));
    Ok(())
}

#[test]
fn copies_of_elements_take_no_memory(rt: HostRuntime) -> Result<(), Fail> {
    let root = built(&rt, WORDS)?;
    let element: SyntaxElement = root.first_child_or_token().ok_or("no first child")?;
    let mut copies = repeat(element);
    assert!(rt; copies.next() == root.first_child_or_token());
    Ok(())
}
