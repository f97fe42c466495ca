//! Trees made by the builder: results of its calls and of a cursor's.
use crate::ensure::ensure_text;
use lossless_tree::{
    FinishError, NodeOrToken, ReplaceError, SyntaxElement, SyntaxKind, SyntaxNode, TreeBuilder,
    WalkEvent,
};
use std::test::Fail;

// SOURCE_FILE over IDENT `a`, NAME without children, IDENT `b` of two bytes.
fn sample(rt: &HostRuntime) -> Result<SyntaxNode, Fail> {
    let mut builder = TreeBuilder::new(rt.alloc());
    builder.start_node(SyntaxKind::SOURCE_FILE)?;
    builder.token(SyntaxKind::IDENT, "a")?;
    builder.start_node(SyntaxKind::NAME)?;
    builder.finish_node()?;
    builder.token(SyntaxKind::IDENT, "\u{e9}")?;
    builder.finish_node()?;
    Ok(builder.finish()?)
}

#[test]
fn a_tree_keeps_its_text(rt: HostRuntime) -> Result<(), Fail> {
    let root = sample(&rt)?;
    assert_eq!(rt; root.kind(), SyntaxKind::SOURCE_FILE);
    assert_eq!(rt; root.as_str(), "a\u{e9}");
    let text = root.dump(rt.alloc())?;
    assert_eq!(rt;
        text.as_str(),
        "SOURCE_FILE@0..3\n  IDENT@0..1 \"a\"\n  NAME@1..1\n  IDENT@1..3 \"\u{e9}\"\n"
    );
    Ok(())
}

fn dumps_as(rt: &HostRuntime, element: SyntaxElement, want: &str) -> Result<(), Fail> {
    ensure_text(rt.alloc(), element.dump(rt.alloc())?.as_str(), want)
}

#[test]
fn elements_dump_as_what_they_are(rt: HostRuntime) -> Result<(), Fail> {
    let root = sample(&rt)?;
    let token = root.first_token().ok_or("no first token")?;
    dumps_as(&rt, NodeOrToken::Token(token), "IDENT@0..1 \"a\"\n")?;
    let of_node = root.dump(rt.alloc())?;
    dumps_as(&rt, NodeOrToken::Node(root), of_node.as_str())
}

#[test]
fn elements_have_their_text(rt: HostRuntime) -> Result<(), Fail> {
    let root = sample(&rt)?;
    for element in root.descendants_with_tokens() {
        match &element {
            NodeOrToken::Node(node) => assert_eq!(rt; element.text(), node.as_str()),
            NodeOrToken::Token(token) => assert_eq!(rt; element.text(), token.text()),
        }
    }
    Ok(())
}

// Nodes in round brackets, tokens in square ones.
fn show(seen: &mut String, event: WalkEvent<SyntaxElement>) -> Result<(), Fail> {
    match event {
        WalkEvent::Enter(NodeOrToken::Node(_node)) => seen.push_str("(")?,
        WalkEvent::Leave(NodeOrToken::Node(_node)) => seen.push_str(")")?,
        WalkEvent::Enter(NodeOrToken::Token(token)) => {
            seen.push_str("[")?;
            seen.push_str(token.text())?;
        }
        WalkEvent::Leave(NodeOrToken::Token(_token)) => seen.push_str("]")?,
    }
    Ok(())
}

#[test]
fn a_walk_enters_and_leaves(rt: HostRuntime) -> Result<(), Fail> {
    let root = sample(&rt)?;
    let mut seen = String::new(rt.alloc());
    for event in root.preorder_with_tokens() {
        show(&mut seen, event)?;
    }
    assert_eq!(rt; seen.as_str(), "([a]()[\u{e9}])");
    assert_eq!(rt; count_elements(&root), 4);
    Ok(())
}

#[test]
fn a_walk_passes_over_what_is_inside(rt: HostRuntime) -> Result<(), Fail> {
    let root = sample(&rt)?;
    let mut seen = String::new(rt.alloc());
    let mut walk = root.preorder_with_tokens();
    for _ in 0..3 {
        show(&mut seen, walk.next().ok_or("a step")?)?;
    }
    walk.skip_subtree();
    for event in walk {
        show(&mut seen, event)?;
    }
    assert_eq!(rt; seen.as_str(), "([a])");
    let mut nodes = root.preorder();
    nodes.next();
    nodes.skip_subtree();
    assert!(rt; matches!(nodes.next(), Some(WalkEvent::Leave(_))));
    assert!(rt; nodes.next().is_none());
    nodes.skip_subtree();
    assert!(rt; nodes.next().is_none());
    Ok(())
}

#[test]
fn a_root_stands_alone(rt: HostRuntime) -> Result<(), Fail> {
    let root = sample(&rt)?;
    assert!(rt; root.parent().is_none());
    assert!(rt; root.next_sibling_or_token().is_none());
    Ok(())
}

#[test]
fn a_copy_of_a_token_is_the_token(rt: HostRuntime) -> Result<(), Fail> {
    let first = sample(&rt)?.first_token().ok_or("no first token")?;
    let copy = first.clone()?;
    assert!(rt; copy == first);
    assert_eq!(rt; copy.kind(), SyntaxKind::IDENT);
    assert_eq!(rt; copy.text(), "a");
    dumps_as(&rt, NodeOrToken::Token(copy), "IDENT@0..1 \"a\"\n")
}

#[test]
fn elements_are_nodes_or_tokens(rt: HostRuntime) -> Result<(), Fail> {
    let first = sample(&rt)?.first_child_or_token().ok_or("no first child")?;
    assert_eq!(rt; first.kind(), SyntaxKind::IDENT);
    assert!(rt; first.as_node().is_none());
    assert!(rt; first.as_token().is_some());
    Ok(())
}

// The element after the first child.
fn second(root: &SyntaxNode) -> Option<SyntaxElement> {
    root.first_child_or_token()?.next_sibling_or_token()
}

fn parent_kind(element: &SyntaxElement) -> Option<SyntaxKind> {
    Some(element.parent()?.kind())
}

#[test]
fn elements_step(rt: HostRuntime) -> Result<(), Fail> {
    let second = second(&sample(&rt)?).ok_or("no second child")?;
    assert_eq!(rt; second.text_range().start().raw(), 1);
    assert_eq!(rt; parent_kind(&second), Some(SyntaxKind::SOURCE_FILE));
    Ok(())
}

#[test]
fn ancestors_go_up(rt: HostRuntime) -> Result<(), Fail> {
    let second = second(&sample(&rt)?).ok_or("no second child")?;
    let name = second.into_node().ok_or("no node")?;
    let mut kinds = String::new(rt.alloc());
    for above in name.ancestors() {
        write!(kinds, "{} ", above.kind())?;
    }
    assert_eq!(rt; kinds.as_str(), "NAME SOURCE_FILE ");
    Ok(())
}

#[test]
fn cursors_outlive_their_root(rt: HostRuntime) -> Result<(), Fail> {
    let root = sample(&rt)?;
    let inner = root.clone()?;
    drop(root);
    let Some(NodeOrToken::Token(first)) = inner.first_child_or_token() else {
        return Err(Fail::from("no first child"));
    };
    drop(inner);
    assert_eq!(rt; first.text(), "a");
    Ok(())
}

#[test]
fn refusals_come_in_their_order(rt: HostRuntime) -> Result<(), Fail> {
    let mut builder = TreeBuilder::new(rt.alloc());
    assert!(rt; matches!(&builder.finish(), Err(FinishError::Empty)));
    builder = TreeBuilder::new(rt.alloc());
    builder.finish_node()?;
    builder.start_node(SyntaxKind::NAME)?;
    builder.start_node(SyntaxKind::NAME)?;
    assert!(rt; matches!(&builder.finish(), Err(FinishError::OverClosed)));
    Ok(())
}

#[test]
fn refusals_print(rt: HostRuntime) -> Result<(), Fail> {
    let refusals = [
        FinishError::TooLong,
        FinishError::OverClosed,
        FinishError::Unclosed,
        FinishError::Empty,
        FinishError::ManyRoots,
        FinishError::TokenRoot,
        FinishError::Memory,
    ];
    let mut text = String::new(rt.alloc());
    for refusal in refusals {
        write!(text, "{refusal}; ")?;
    }
    assert_eq!(rt;
        text.as_str(),
        "the text is longer than 4294967295 bytes; more nodes are left than were entered; a node is not left; there are no events; there is more than one root; the root is a token; out of memory; "
    );
    Ok(())
}

#[test]
fn refused_replacements_print(rt: HostRuntime) -> Result<(), Fail> {
    let refusals = [ReplaceError::TooLong, ReplaceError::Memory];
    let mut text = String::new(rt.alloc());
    for refusal in refusals {
        write!(text, "{refusal}; ")?;
    }
    assert_eq!(rt;
        text.as_str(),
        "the text is longer than 4294967295 bytes; out of memory; "
    );
    Ok(())
}

fn nested(rt: &HostRuntime, depth: usize) -> Result<SyntaxNode, Fail> {
    let mut builder = TreeBuilder::new(rt.alloc());
    for _ in 0..depth {
        builder.start_node(SyntaxKind::NAME)?;
    }
    for _ in 0..depth {
        builder.finish_node()?;
    }
    Ok(builder.finish()?)
}

fn count_events(root: &SyntaxNode) -> usize {
    let mut count: usize = 0;
    for _event in root.preorder_with_tokens() {
        count = count.saturating_add(1);
    }
    count
}

fn count_elements(root: &SyntaxNode) -> usize {
    let mut count: usize = 0;
    for _element in root.descendants_with_tokens() {
        count = count.saturating_add(1);
    }
    count
}

// Many nested nodes.
#[test]
fn deep_trees_need_no_stack(rt: HostRuntime) -> Result<(), Fail> {
    let root = nested(&rt, 100_000)?;
    assert_eq!(rt; count_events(&root), 200_000);
    assert_eq!(rt; count_elements(&root), 100_000);
    Ok(())
}

fn siblings(rt: &HostRuntime, count: usize) -> Result<SyntaxNode, Fail> {
    let mut builder = TreeBuilder::new(rt.alloc());
    builder.start_node(SyntaxKind::SOURCE_FILE)?;
    for _ in 0..count {
        builder.start_node(SyntaxKind::NAME)?;
        builder.token(SyntaxKind::IDENT, "a")?;
        builder.finish_node()?;
    }
    builder.finish_node()?;
    Ok(builder.finish()?)
}

// The children, counted by steps from one to the next.
fn count_children(root: &SyntaxNode) -> usize {
    let mut next = root.first_child_or_token();
    let mut children: usize = 0;
    for _turn in 0..100_001 {
        let Some(child) = next else {
            break;
        };
        children = children.saturating_add(1);
        next = child.next_sibling_or_token();
    }
    children
}

// Each step of a walk takes constant time, among many siblings too.
#[test]
fn wide_trees_take_linear_time(rt: HostRuntime) -> Result<(), Fail> {
    let root = siblings(&rt, 100_000)?;
    assert_eq!(rt; count_events(&root), 400_002);
    assert_eq!(rt; count_children(&root), 100_000);
    assert_eq!(rt; root.as_str().len(), 100_000);
    assert!(rt; root.dump(rt.alloc())?.len() > 1_000_000);
    Ok(())
}
