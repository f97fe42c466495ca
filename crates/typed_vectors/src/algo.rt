//! The functions of `algo`: worked rows, mostly of the tree of `1 + 1`.
use lossless_tree::{NodeOrToken, SyntaxElement, SyntaxNode, SyntaxToken};
use plain_trees::{PlainTree, SUM};
use ra_ap_syntax::{AstNode, Direction, SyntaxKind, TextRange, TextSize, algo, ast};
use std::test::Fail;

fn built(rt: &HostRuntime, words: &'static str) -> Result<SyntaxNode, Fail> {
    PlainTree::read(rt.alloc(), words)?.build(rt.alloc())
}

fn first_child(root: &SyntaxNode) -> Result<SyntaxNode, Fail> {
    Ok(root.first_child().ok_or("no first child")?)
}

fn last_child(root: &SyntaxNode) -> Result<SyntaxNode, Fail> {
    Ok(root.last_child().ok_or("no last child")?)
}

// The token of a kind.
fn token(root: &SyntaxNode, kind: SyntaxKind) -> Result<SyntaxToken, Fail> {
    for element in root.descendants_with_tokens() {
        if let NodeOrToken::Token(token) = element {
            if token.kind() == kind {
                return Ok(token);
            }
        }
    }
    Err(Fail::from("no such token"))
}

fn start_of(token: Option<SyntaxToken>) -> Option<u32> {
    Some(token?.text_range().start().raw())
}

// The ancestors at an offset are of these kinds, in this order.
fn ancestors_are(root: &SyntaxNode, offset: TextSize, kinds: &[SyntaxKind]) -> bool {
    let mut wanted = kinds.iter();
    for node in algo::ancestors_at_offset(root, offset) {
        if wanted.next() != Some(&node.kind()) {
            return false;
        }
    }
    wanted.next().is_none()
}

#[test]
fn ancestors_of_both_tokens(rt: HostRuntime) -> Result<(), Fail> {
    let root = built(&rt, SUM)?;
    let wanted = [
        SyntaxKind::LITERAL,
        SyntaxKind::BIN_EXPR,
        SyntaxKind::BIN_EXPR,
    ];
    assert!(rt; ancestors_are(&root, TextSize::new(1), &wanted));
    assert!(rt; ancestors_are(&root, TextSize::new(6), &[]));
    Ok(())
}

// At equal lengths the left token's node comes first.
#[test]
fn left_chain_comes_first(rt: HostRuntime) -> Result<(), Fail> {
    let root = built(&rt, "TUPLE_EXPR( NAME( IDENT:a ) NAME_REF( IDENT:b ) )")?;
    let wanted = [
        SyntaxKind::NAME,
        SyntaxKind::NAME_REF,
        SyntaxKind::TUPLE_EXPR,
        SyntaxKind::TUPLE_EXPR,
    ];
    assert!(rt; ancestors_are(&root, TextSize::new(1), &wanted));
    Ok(())
}

// What was found is a view of this node.
fn is_view<N: AstNode + Drop>(found: Option<N>, node: &SyntaxNode) -> bool {
    match found {
        Some(it) => *it.syntax() == *node,
        None => false,
    }
}

fn literal_at(root: &SyntaxNode, offset: u32) -> Option<ast::Literal> {
    algo::find_node_at_offset::<ast::Literal>(root, TextSize::new(offset))
}

#[test]
fn nodes_at_offsets(rt: HostRuntime) -> Result<(), Fail> {
    let root = built(&rt, SUM)?;
    let first = first_child(&root)?;
    assert!(rt; is_view(literal_at(&root, 1), &first));
    assert!(rt; literal_at(&root, 2).is_none());
    Ok(())
}

fn place_of_2() -> TextRange {
    TextRange::new(TextSize::new(4), TextSize::new(5))
}

#[test]
fn nodes_at_ranges(rt: HostRuntime) -> Result<(), Fail> {
    let root = built(&rt, SUM)?;
    let last = last_child(&root)?;
    assert!(rt;
        is_view(
            algo::find_node_at_range::<ast::Literal>(&root, place_of_2()),
            &last
        )
    );
    Ok(())
}

#[test]
fn nodes_around_ranges(rt: HostRuntime) -> Result<(), Fail> {
    let root = built(&rt, SUM)?;
    assert!(rt;
        is_view(
            algo::find_node_at_range::<ast::BinExpr>(&root, place_of_2()),
            &root
        )
    );
    assert!(rt; algo::find_node_at_range::<ast::Path>(&root, place_of_2()).is_none());
    Ok(())
}

// The least common ancestor of both nodes is this one.
fn nodes_meet_in(left: &SyntaxNode, right: &SyntaxNode, node: &SyntaxNode) -> bool {
    match algo::least_common_ancestor(left, right) {
        Some(found) => found == *node,
        None => false,
    }
}

// The two operands of a sum.
fn operands_meet_in(sum: &SyntaxNode, node: &SyntaxNode) -> bool {
    match (sum.first_child(), sum.last_child()) {
        (Some(first), Some(last)) => nodes_meet_in(&first, &last, node),
        _ => false,
    }
}

#[test]
fn common_ancestor_of_siblings(rt: HostRuntime) -> Result<(), Fail> {
    let root = built(&rt, SUM)?;
    let again = built(&rt, SUM)?;
    assert!(rt; operands_meet_in(&root, &again));
    Ok(())
}

#[test]
fn common_ancestor_with_the_root(rt: HostRuntime) -> Result<(), Fail> {
    let root = built(&rt, SUM)?;
    let first = first_child(&root)?;
    assert!(rt; nodes_meet_in(&first, &root, &root));
    Ok(())
}

// Trees that are built alike are equal, so nodes of two of them have common ancestors.
#[test]
fn common_ancestor_of_a_node_and_its_like(rt: HostRuntime) -> Result<(), Fail> {
    let first = first_child(&built(&rt, SUM)?)?;
    let first_again = first_child(&built(&rt, SUM)?)?;
    assert!(rt; nodes_meet_in(&first, &first_again, &first));
    Ok(())
}

#[test]
fn common_ancestor_across_trees(rt: HostRuntime) -> Result<(), Fail> {
    let root = built(&rt, SUM)?;
    let first = first_child(&root)?;
    let last_again = last_child(&built(&rt, SUM)?)?;
    assert!(rt; nodes_meet_in(&last_again, &first, &root));
    Ok(())
}

#[test]
fn no_common_ancestor_of_unlike_trees(rt: HostRuntime) -> Result<(), Fail> {
    let root = built(&rt, SUM)?;
    let other = built(&rt, "PARAM( IDENT_PAT( NAME( IDENT:name ) ) )")?;
    assert!(rt; algo::least_common_ancestor(&root, &other).is_none());
    Ok(())
}

// The same of elements.
fn meet_in(left: SyntaxElement, right: SyntaxElement, node: &SyntaxNode) -> bool {
    match algo::least_common_ancestor_element(left, right) {
        Some(found) => found == *node,
        None => false,
    }
}

#[test]
fn common_ancestor_of_a_token_and_itself(rt: HostRuntime) -> Result<(), Fail> {
    let root = built(&rt, SUM)?;
    let left = token(&root, SyntaxKind::PLUS)?;
    let right = token(&root, SyntaxKind::PLUS)?;
    assert!(rt; meet_in(NodeOrToken::Token(left), NodeOrToken::Token(right), &root));
    Ok(())
}

// The token and the node meet in the node.
fn meets(token: SyntaxToken, node: &SyntaxNode) -> bool {
    match node.clone() {
        Ok(copy) => meet_in(NodeOrToken::Token(token), NodeOrToken::Node(copy), node),
        Err(_) => false,
    }
}

#[test]
fn common_ancestor_of_a_token_and_its_node(rt: HostRuntime) -> Result<(), Fail> {
    let root = built(&rt, SUM)?;
    let first = first_child(&root)?;
    let one = token(&root, SyntaxKind::INT_NUMBER)?;
    assert!(rt; meets(one, &first));
    Ok(())
}

// The literal before the plus.
fn left_literal(root: &SyntaxNode) -> Option<ast::Literal> {
    ast::Literal::cast(root.first_child()?)
}

fn next_of_left(root: &SyntaxNode) -> Option<ast::Literal> {
    algo::neighbor(&left_literal(root)?, Direction::Next)
}

#[test]
fn the_neighbor_behind(rt: HostRuntime) -> Result<(), Fail> {
    let root = built(&rt, SUM)?;
    let last = last_child(&root)?;
    assert!(rt; is_view(next_of_left(&root), &last));
    Ok(())
}

#[test]
fn no_neighbor_before(rt: HostRuntime) -> Result<(), Fail> {
    let root = built(&rt, SUM)?;
    let me = left_literal(&root).ok_or("no literal")?;
    assert!(rt; algo::neighbor(&me, Direction::Prev).is_none());
    Ok(())
}

fn there_and_back(literal: &ast::Literal) -> Option<ast::Literal> {
    let next = algo::neighbor(literal, Direction::Next)?;
    algo::neighbor(&next, Direction::Prev)
}

#[test]
fn the_neighbor_of_a_neighbor(rt: HostRuntime) -> Result<(), Fail> {
    let root = built(&rt, SUM)?;
    let me = left_literal(&root).ok_or("no literal")?;
    assert!(rt; is_view(there_and_back(&me), me.syntax()));
    Ok(())
}

// The sibling after it is this node.
fn is_before(element: SyntaxElement, node: SyntaxNode) -> bool {
    match algo::non_trivia_sibling(element, Direction::Next) {
        Some(sibling) => sibling == NodeOrToken::Node(node),
        None => false,
    }
}

#[test]
fn siblings_past_trivia(rt: HostRuntime) -> Result<(), Fail> {
    let root = built(&rt, SUM)?;
    let plus = token(&root, SyntaxKind::PLUS)?;
    let last = last_child(&root)?;
    assert!(rt; is_before(NodeOrToken::Token(plus), last));
    Ok(())
}

const SPACED: &str = "SOURCE_FILE( IDENT:a COMMENT:/**/ WHITESPACE:~ NAME( ) IDENT:b )";

// Where the first token that is no trivia starts, from a token on.
fn past_trivia(root: &SyntaxNode, kind: SyntaxKind) -> Result<Option<u32>, Fail> {
    let from = token(root, kind)?;
    Ok(start_of(algo::skip_trivia_token(from, Direction::Next)))
}

fn before_white_space(root: &SyntaxNode, kind: SyntaxKind) -> Result<Option<u32>, Fail> {
    let from = token(root, kind)?;
    Ok(start_of(algo::skip_whitespace_token(from, Direction::Prev)))
}

#[test]
fn tokens_past_trivia(rt: HostRuntime) -> Result<(), Fail> {
    let root = built(&rt, SPACED)?;
    assert!(rt; past_trivia(&root, SyntaxKind::COMMENT)? == Some(6));
    assert!(rt; past_trivia(&root, SyntaxKind::IDENT)? == Some(0));
    Ok(())
}

#[test]
fn tokens_past_white_space(rt: HostRuntime) -> Result<(), Fail> {
    let root = built(&rt, SPACED)?;
    assert!(rt; before_white_space(&root, SyntaxKind::WHITESPACE)? == Some(1));
    Ok(())
}

// Where the token after or before an element starts, trivia left out.
fn next_start(from: SyntaxElement) -> Option<u32> {
    start_of(algo::next_non_trivia_token(from))
}

fn previous_start(from: SyntaxElement) -> Option<u32> {
    start_of(algo::previous_non_trivia_token(from))
}

#[test]
fn the_token_behind_a_token(rt: HostRuntime) -> Result<(), Fail> {
    let root = built(&rt, SPACED)?;
    let a = token(&root, SyntaxKind::IDENT)?;
    assert!(rt; next_start(NodeOrToken::Token(a)) == Some(6));
    Ok(())
}

#[test]
fn the_token_before_a_token(rt: HostRuntime) -> Result<(), Fail> {
    let root = built(&rt, SPACED)?;
    let comment = token(&root, SyntaxKind::COMMENT)?;
    assert!(rt; previous_start(NodeOrToken::Token(comment)) == Some(0));
    Ok(())
}

#[test]
fn no_token_behind_an_empty_node(rt: HostRuntime) -> Result<(), Fail> {
    let root = built(&rt, SPACED)?;
    let empty = first_child(&root)?;
    assert!(rt; next_start(NodeOrToken::Node(empty)).is_none());
    Ok(())
}

#[test]
fn no_token_before_the_root(rt: HostRuntime) -> Result<(), Fail> {
    let root = built(&rt, SPACED)?;
    assert!(rt; previous_start(NodeOrToken::Node(root)).is_none());
    Ok(())
}

#[test]
fn errors_are_child_nodes(rt: HostRuntime) -> Result<(), Fail> {
    let root = built(&rt, "SOURCE_FILE( NAME( ERROR( IDENT:a ) ) )")?;
    assert!(rt; !algo::has_errors(&root));
    let name = first_child(&root)?;
    assert!(rt; algo::has_errors(&name));
    Ok(())
}
