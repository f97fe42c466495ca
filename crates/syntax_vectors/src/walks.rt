//! Walks and steps among nodes and tokens: each call at each place of three small trees, compared
//! with a plain slow program.
use crate::ensure::ensure;
use lossless_tree::{
    Direction, NodeOrToken, SyntaxElement, SyntaxKind, SyntaxNode, SyntaxToken, WalkEvent,
};
use plain_trees::{Among, PlainTree, before, behind};
use std::test::Fail;

// Trees with empty tokens and empty nodes at each end and in between; each node and token has a
// kind of its own.
const TREES: [&str; 3] = [
    "( : ( ) ( ( ) :a : ( :bc ( : ) ) :d ) ( : ( ) ) :e ( ) : )",
    "( ( ( :ab ) ) ( ( ) ( ) ) ( ( ( : ) ) ) ( ( :c ) ( :d ( ) ) ) )",
    "( ( ( ) : ( ( ) ) ) ( ) )",
];

fn node_kind(node: Option<SyntaxNode>) -> Option<SyntaxKind> {
    Some(node?.kind())
}

fn token_kind(token: Option<SyntaxToken>) -> Option<SyntaxKind> {
    Some(token?.kind())
}

fn element_kind(element: Option<SyntaxElement>) -> Option<SyntaxKind> {
    Some(element?.kind())
}

// The kinds of what a node's iterators give.
fn child_kinds(rt: &HostRuntime, node: &SyntaxNode) -> Result<Vec<SyntaxKind>, Fail> {
    let mut found = Vec::new(rt.alloc());
    for child in node.children() {
        found.push(child.kind())?;
    }
    Ok(found)
}

fn child_or_token_kinds(rt: &HostRuntime, node: &SyntaxNode) -> Result<Vec<SyntaxKind>, Fail> {
    let mut found = Vec::new(rt.alloc());
    for child in node.children_with_tokens() {
        found.push(child.kind())?;
    }
    Ok(found)
}

fn sibling_kinds(
    rt: &HostRuntime,
    node: &SyntaxNode,
    direction: Direction,
) -> Result<Vec<SyntaxKind>, Fail> {
    let mut found = Vec::new(rt.alloc());
    for sibling in node.siblings(direction) {
        found.push(sibling.kind())?;
    }
    Ok(found)
}

fn descendant_kinds(rt: &HostRuntime, node: &SyntaxNode) -> Result<Vec<SyntaxKind>, Fail> {
    let mut found = Vec::new(rt.alloc());
    for below in node.descendants() {
        found.push(below.kind())?;
    }
    Ok(found)
}

fn descendant_or_token_kinds(rt: &HostRuntime, node: &SyntaxNode) -> Result<Vec<SyntaxKind>, Fail> {
    let mut found = Vec::new(rt.alloc());
    for below in node.descendants_with_tokens() {
        found.push(below.kind())?;
    }
    Ok(found)
}

// A step of a walk over nodes: whether it enters, and the kind.
fn node_step(event: WalkEvent<SyntaxNode>) -> (bool, SyntaxKind) {
    match event {
        WalkEvent::Enter(below) => (true, below.kind()),
        WalkEvent::Leave(below) => (false, below.kind()),
    }
}

fn element_step(event: WalkEvent<SyntaxElement>) -> (bool, SyntaxKind) {
    match event {
        WalkEvent::Enter(below) => (true, below.kind()),
        WalkEvent::Leave(below) => (false, below.kind()),
    }
}

fn node_steps(rt: &HostRuntime, node: &SyntaxNode) -> Result<Vec<(bool, SyntaxKind)>, Fail> {
    let mut found = Vec::new(rt.alloc());
    for event in node.preorder() {
        found.push(node_step(event))?;
    }
    Ok(found)
}

fn element_steps(rt: &HostRuntime, node: &SyntaxNode) -> Result<Vec<(bool, SyntaxKind)>, Fail> {
    let mut found = Vec::new(rt.alloc());
    for event in node.preorder_with_tokens() {
        found.push(element_step(event))?;
    }
    Ok(found)
}

// A step of a walk over elements: whether it enters, and the kind.
fn element_sibling_kinds(
    rt: &HostRuntime,
    element: &SyntaxElement,
    direction: Direction,
) -> Result<Vec<SyntaxKind>, Fail> {
    let mut found = Vec::new(rt.alloc());
    for sibling in element.siblings_with_tokens(direction) {
        found.push(sibling.kind())?;
    }
    Ok(found)
}

fn ancestor_kinds(rt: &HostRuntime, element: &SyntaxElement) -> Result<Vec<SyntaxKind>, Fail> {
    let mut found = Vec::new(rt.alloc());
    for node in element.ancestors() {
        found.push(node.kind())?;
    }
    Ok(found)
}

fn children_are(rt: &HostRuntime, here: &PlainTree, node: &SyntaxNode) -> Result<(), Fail> {
    let mut wanted = Vec::new(rt.alloc());
    here.children(Among::Nodes, &mut wanted)?;
    ensure(child_kinds(rt, node)? == wanted, "children")?;
    let (first, last) = (node_kind(node.first_child()), node_kind(node.last_child()));
    ensure(first == wanted.first().copied(), "first_child")?;
    ensure(last == wanted.last().copied(), "last_child")
}

fn children_with_tokens_are(
    rt: &HostRuntime,
    here: &PlainTree,
    node: &SyntaxNode,
) -> Result<(), Fail> {
    let mut wanted = Vec::new(rt.alloc());
    here.children(Among::Both, &mut wanted)?;
    ensure(
        child_or_token_kinds(rt, node)? == wanted,
        "children_with_tokens",
    )?;
    let first = element_kind(node.first_child_or_token());
    let last = element_kind(node.last_child_or_token());
    ensure(first == wanted.first().copied(), "first_child_or_token")?;
    ensure(last == wanted.last().copied(), "last_child_or_token")
}

// The sibling nodes of a node.
fn sibling_nodes_are(
    rt: &HostRuntime,
    plain: &PlainTree,
    node: &SyntaxNode,
    direction: Direction,
) -> Result<(), Fail> {
    let mut wanted = Vec::new(rt.alloc());
    plain.siblings(node.kind(), direction, Among::Nodes, &mut wanted)?;
    let nearest = match direction {
        Direction::Next => node_kind(node.next_sibling()),
        Direction::Prev => node_kind(node.prev_sibling()),
    };
    ensure(
        nearest == wanted.first().copied(),
        "the nearest sibling node",
    )?;
    wanted.insert(0, node.kind())?;
    ensure(sibling_kinds(rt, node, direction)? == wanted, "siblings")
}

// The walks below a node.
fn descendants_are(rt: &HostRuntime, here: &PlainTree, node: &SyntaxNode) -> Result<(), Fail> {
    let mut wanted = Vec::new(rt.alloc());
    here.preorder(Among::Nodes, &mut wanted)?;
    ensure(descendant_kinds(rt, node)? == wanted, "descendants")
}

fn descendants_with_tokens_are(
    rt: &HostRuntime,
    here: &PlainTree,
    node: &SyntaxNode,
) -> Result<(), Fail> {
    let mut wanted = Vec::new(rt.alloc());
    here.preorder(Among::Both, &mut wanted)?;
    ensure(
        descendant_or_token_kinds(rt, node)? == wanted,
        "descendants_with_tokens",
    )
}

fn node_steps_are(rt: &HostRuntime, here: &PlainTree, node: &SyntaxNode) -> Result<(), Fail> {
    let mut wanted = Vec::new(rt.alloc());
    here.walk(Among::Nodes, &mut wanted)?;
    ensure(node_steps(rt, node)? == wanted, "preorder")
}

fn element_steps_are(rt: &HostRuntime, here: &PlainTree, node: &SyntaxNode) -> Result<(), Fail> {
    let mut wanted = Vec::new(rt.alloc());
    here.walk(Among::Both, &mut wanted)?;
    ensure(element_steps(rt, node)? == wanted, "preorder_with_tokens")
}

fn end_tokens_are(rt: &HostRuntime, here: &PlainTree, node: &SyntaxNode) -> Result<(), Fail> {
    let mut tokens = Vec::new(rt.alloc());
    here.preorder(Among::Tokens, &mut tokens)?;
    let (first, last) = (
        token_kind(node.first_token()),
        token_kind(node.last_token()),
    );
    ensure(first == tokens.first().copied(), "first_token")?;
    ensure(last == tokens.last().copied(), "last_token")
}

// The siblings of a node or token on one side.
fn siblings_are(
    rt: &HostRuntime,
    plain: &PlainTree,
    element: &SyntaxElement,
    direction: Direction,
) -> Result<(), Fail> {
    let mut wanted = Vec::new(rt.alloc());
    plain.siblings(element.kind(), direction, Among::Both, &mut wanted)?;
    let nearest = match direction {
        Direction::Next => element_kind(element.next_sibling_or_token()),
        Direction::Prev => element_kind(element.prev_sibling_or_token()),
    };
    ensure(
        nearest == wanted.first().copied(),
        "the nearest sibling or token",
    )?;
    wanted.insert(0, element.kind())?;
    ensure(
        element_sibling_kinds(rt, element, direction)? == wanted,
        "siblings_with_tokens",
    )
}

// What is above a node or token.
fn ancestors_are(rt: &HostRuntime, plain: &PlainTree, element: &SyntaxElement) -> Result<(), Fail> {
    let kind = element.kind();
    let mut above = Vec::new(rt.alloc());
    plain.above(kind, &mut above)?;
    let parent = node_kind(element.parent());
    ensure(parent == above.first().copied(), "parent")?;
    if let PlainTree::Node(_, _) = plain.find(kind).ok_or("no such place")? {
        above.insert(0, kind)?;
    }
    ensure(ancestor_kinds(rt, element)? == above, "ancestors")
}

fn node_is(rt: &HostRuntime, plain: &PlainTree, node: &SyntaxNode) -> Result<(), Fail> {
    let here = plain.find(node.kind()).ok_or("no such place")?;
    children_are(rt, here, node)?;
    children_with_tokens_are(rt, here, node)?;
    sibling_nodes_are(rt, plain, node, Direction::Next)?;
    sibling_nodes_are(rt, plain, node, Direction::Prev)?;
    descendants_are(rt, here, node)?;
    descendants_with_tokens_are(rt, here, node)?;
    node_steps_are(rt, here, node)?;
    element_steps_are(rt, here, node)?;
    end_tokens_are(rt, here, node)
}

fn token_is(rt: &HostRuntime, plain: &PlainTree, token: &SyntaxToken) -> Result<(), Fail> {
    let mut tokens = Vec::new(rt.alloc());
    plain.preorder(Among::Tokens, &mut tokens)?;
    let kind = token.kind();
    let (next, previous) = (
        token_kind(token.next_token()),
        token_kind(token.prev_token()),
    );
    ensure(next == behind(&tokens, kind), "next_token")?;
    ensure(previous == before(&tokens, kind), "prev_token")
}

fn element_is(rt: &HostRuntime, plain: &PlainTree, element: &SyntaxElement) -> Result<(), Fail> {
    siblings_are(rt, plain, element, Direction::Next)?;
    siblings_are(rt, plain, element, Direction::Prev)?;
    ancestors_are(rt, plain, element)?;
    match element {
        NodeOrToken::Node(node) => node_is(rt, plain, node),
        NodeOrToken::Token(token) => token_is(rt, plain, token),
    }
}

fn calls_answer(rt: &HostRuntime, plain: &PlainTree, root: &SyntaxNode) -> Result<(), Fail> {
    for element in root.descendants_with_tokens() {
        element_is(rt, plain, &element)?;
    }
    Ok(())
}

#[test]
fn calls_at_every_place(rt: HostRuntime) -> Result<(), Fail> {
    for words in TREES {
        let plain = PlainTree::read(rt.alloc(), words)?;
        calls_answer(&rt, &plain, &plain.build(rt.alloc())?)?;
    }
    Ok(())
}

#[test]
fn white_space_and_comments_are_passed(rt: HostRuntime) -> Result<(), Fail> {
    let words =
        "SOURCE_FILE( WHITESPACE:~ COMMENT:x NAME( ) COMMENT:x WHITESPACE( ) WHITESPACE:~ )";
    let root = PlainTree::read(rt.alloc(), words)?.build(rt.alloc())?;
    let name = root.first_child_no_trivia().ok_or("no first child")?;
    assert_eq!(rt; name.kind(), SyntaxKind::NAME);
    let blank = name.next_no_trivia().ok_or("no next child")?;
    assert!(rt; blank.as_node().is_some());
    assert_eq!(rt; blank.kind(), SyntaxKind::WHITESPACE);
    assert!(rt; blank.next_no_trivia().is_none());
    let first = root.first_token().ok_or("no first token")?;
    assert!(rt; first.next_no_trivia() == Some(name));
    Ok(())
}
