//! Edits of trees, texts of nodes, and siblings left to read: the results when memory suffices.
//! That a replacement refuses a text that is too long is not tested, since that takes a text of 4
//! GiB.
use crate::ensure::ensure;
use lossless_tree::{
    NodeOrToken, SyntaxElement, SyntaxKind, SyntaxNode, SyntaxToken, TextSize, TreeBuilder,
};
use plain_trees::PlainTree;
use std::test::Fail;

// PARAM, IDENT_PAT, NAME and IDENT `name`, each inside the one before.
const PARAM: &str = "PARAM( IDENT_PAT( NAME( IDENT:name ) ) )";

const EMPTY_NAME: &str = "NAME( )";

fn built(rt: &HostRuntime, words: &'static str) -> Result<SyntaxNode, Fail> {
    PlainTree::read(rt.alloc(), words)?.build(rt.alloc())
}

fn literal(builder: &mut TreeBuilder) -> Result<(), Fail> {
    builder.start_node(SyntaxKind::LITERAL)?;
    builder.token(SyntaxKind::INT_NUMBER, "1")?;
    Ok(builder.finish_node()?)
}

fn add_sum(builder: &mut TreeBuilder) -> Result<(), Fail> {
    builder.start_node(SyntaxKind::BIN_EXPR)?;
    literal(builder)?;
    builder.token(SyntaxKind::WHITESPACE, " ")?;
    builder.token(SyntaxKind::PLUS, "+")?;
    builder.token(SyntaxKind::WHITESPACE, " ")?;
    literal(builder)?;
    Ok(builder.finish_node()?)
}

// BIN_EXPR with two literals: `1 + 1`, white space on both sides of the sign.
fn sum(rt: &HostRuntime) -> Result<SyntaxNode, Fail> {
    let mut builder = TreeBuilder::new(rt.alloc());
    add_sum(&mut builder)?;
    Ok(builder.finish()?)
}

// The dump of a tree.
fn ensure_dump(rt: &HostRuntime, node: &SyntaxNode, dump: &'static str) -> Result<(), Fail> {
    ensure(node.dump(rt.alloc())?.as_str() == dump, dump)
}

// The tree with another one, written as words, in place of a node: it has this dump.
fn replace(
    rt: &HostRuntime,
    node: &SyntaxNode,
    words: &'static str,
    dump: &'static str,
) -> Result<SyntaxNode, Fail> {
    let new = node.replace_with(rt.alloc(), &built(rt, words)?)?;
    ensure_dump(rt, &new, dump)?;
    Ok(new)
}

// The node that is the first child.
fn first_node(node: &SyntaxNode) -> Result<SyntaxNode, Fail> {
    let Some(NodeOrToken::Node(child)) = node.first_child_or_token() else {
        return Err(Fail::from("no first child"));
    };
    Ok(child)
}

fn first_token(node: &SyntaxNode) -> Result<SyntaxToken, Fail> {
    let Some(NodeOrToken::Token(child)) = node.first_child_or_token() else {
        return Err(Fail::from("no first child"));
    };
    Ok(child)
}

// The identifier of the parameter.
fn ident_of(root: &SyntaxNode) -> Result<SyntaxToken, Fail> {
    first_token(&first_node(&first_node(root)?)?)
}

#[test]
fn a_token_is_replaced(rt: HostRuntime) -> Result<(), Fail> {
    let root = built(&rt, PARAM)?;
    let ident = ident_of(&root)?;
    let new = ident.replace_with(rt.alloc(), SyntaxKind::IDENT, "ab")?;
    ensure_dump(
        &rt,
        &new,
        "PARAM@0..2\n  IDENT_PAT@0..2\n    NAME@0..2\n      IDENT@0..2 \"ab\"\n",
    )?;
    ensure(root.as_str() == "name", "the text that was there")?;
    ensure(ident.text() == "name", "the token that was there")
}

// The parents of all that is below a tree's root, in preorder.
fn ensure_parents(rt: &HostRuntime, root: &SyntaxNode) -> Result<(), Fail> {
    let mut kinds = String::new(rt.alloc());
    for parent in root
        .descendants_with_tokens()
        .filter_map(|element| element.parent())
    {
        write!(kinds, "{} ", parent.kind())?;
    }
    ensure(
        kinds.as_str()
            == "BIN_EXPR PARAM IDENT_PAT NAME BIN_EXPR BIN_EXPR BIN_EXPR BIN_EXPR LITERAL ",
        "parents",
    )
}

#[test]
fn the_first_child_is_replaced(rt: HostRuntime) -> Result<(), Fail> {
    let one = first_node(&sum(&rt)?)?;
    let new = replace(
        &rt,
        &one,
        PARAM,
        "BIN_EXPR@0..8\n  PARAM@0..4\n    IDENT_PAT@0..4\n      NAME@0..4\n        IDENT@0..4 \"name\"\n  WHITESPACE@4..5 \" \"\n  PLUS@5..6 \"+\"\n  WHITESPACE@6..7 \" \"\n  LITERAL@7..8\n    INT_NUMBER@7..8 \"1\"\n",
    )?;
    ensure(new.as_str() == "name + 1", "the text with a node replaced")?;
    ensure_parents(&rt, &new)
}

// The last sibling after this one, or it.
fn last_from(first: SyntaxElement) -> SyntaxElement {
    let mut last = first;
    for _step in 0..9 {
        let Some(next) = last.next_sibling_or_token() else {
            return last;
        };
        last = next;
    }
    last
}

fn last_node(root: &SyntaxNode) -> Result<SyntaxNode, Fail> {
    let first = root.first_child_or_token().ok_or("no first child")?;
    Ok(
        last_from(first)
            .into_node()
            .ok_or("the last child is a token")?,
    )
}

#[test]
fn the_last_child_goes_for_an_empty_node(rt: HostRuntime) -> Result<(), Fail> {
    let last = last_node(&sum(&rt)?)?;
    let _new = replace(
        &rt,
        &last,
        EMPTY_NAME,
        "BIN_EXPR@0..4\n  LITERAL@0..1\n    INT_NUMBER@0..1 \"1\"\n  WHITESPACE@1..2 \" \"\n  PLUS@2..3 \"+\"\n  WHITESPACE@3..4 \" \"\n  NAME@4..4\n",
    )?;
    Ok(())
}

#[test]
fn the_root_is_replaced(rt: HostRuntime) -> Result<(), Fail> {
    let root = sum(&rt)?;
    let pat = first_node(&built(&rt, PARAM)?)?;
    let new = root.replace_with(rt.alloc(), &pat)?;
    ensure_dump(
        &rt,
        &new,
        "IDENT_PAT@0..4\n  NAME@0..4\n    IDENT@0..4 \"name\"\n",
    )?;
    let _empty = replace(&rt, &root, EMPTY_NAME, "NAME@0..0\n")?;
    Ok(())
}

// A node inside a tree is a tree of its own as a copy.
fn ensure_copy(rt: &HostRuntime, node: &SyntaxNode, dump: &'static str) -> Result<(), Fail> {
    let copy = node.clone_subtree(rt.alloc())?;
    ensure(copy.parent().is_none(), "the root of a copy")?;
    ensure_dump(rt, &copy, dump)
}

#[test]
fn a_subtree_is_cloned(rt: HostRuntime) -> Result<(), Fail> {
    let one = first_node(&sum(&rt)?)?;
    let wide = one.replace_with(rt.alloc(), &built(&rt, PARAM)?)?;
    let inner = first_node(&first_node(&wide)?)?;
    ensure_copy(
        &rt,
        &inner,
        "IDENT_PAT@0..4\n  NAME@0..4\n    IDENT@0..4 \"name\"\n",
    )
}

#[test]
fn a_subtree_behind_a_longer_token_is_cloned(rt: HostRuntime) -> Result<(), Fail> {
    let one = first_node(&sum(&rt)?)?;
    let wide = one.replace_with(rt.alloc(), &built(&rt, PARAM)?)?;
    let Some(NodeOrToken::Token(sign)) = first_node(&wide)?.next_sibling_or_token() else {
        return Err(Fail::from("no white space"));
    };
    let stretched = sign.replace_with(rt.alloc(), SyntaxKind::COMMENT, "/**/")?;
    ensure_copy(
        &rt,
        &last_node(&stretched)?,
        "LITERAL@0..1\n  INT_NUMBER@0..1 \"1\"\n",
    )
}

fn ensure_child_texts(root: &SyntaxNode) -> Result<(), Fail> {
    let found = [
        root.child_text(0),
        root.child_text(2),
        root.child_text(3),
        root.child_text(5),
    ];
    ensure(found == [None, Some("+"), Some(" "), None], "child_text")
}

fn char_at(node: &SyntaxNode, offset: u32) -> Option<char> {
    node.text().char_at(TextSize::new(offset))
}

fn ensure_text_compares(root: &SyntaxNode) -> Result<(), Fail> {
    let text = root.text();
    ensure(text.len().raw() == 5, "len")?;
    ensure(text.eq_str("1 + 1"), "eq_str")?;
    ensure(!text.eq_str("1 + "), "eq_str of a prefix")
}

fn ensure_text_is_copied(rt: &HostRuntime, root: &SyntaxNode) -> Result<(), Fail> {
    let copy = root.text().to_string(rt.alloc())?;
    ensure(copy.as_str() == "1 + 1", "to_string")
}

fn ensure_text_is_printed(rt: &HostRuntime, root: &SyntaxNode) -> Result<(), Fail> {
    let mut printed = String::new(rt.alloc());
    write!(printed, "<{}>", root.text())?;
    ensure(printed.as_str() == "<1 + 1>", "Display")
}

#[test]
fn texts_answer(rt: HostRuntime) -> Result<(), Fail> {
    let root = sum(&rt)?;
    ensure(root.as_str() == "1 + 1", "as_str")?;
    ensure_child_texts(&root)?;
    let found = [char_at(&root, 2), char_at(&root, 5), char_at(&root, 6)];
    assert!(rt; found == [Some('+'), None, None]);
    ensure_text_compares(&root)?;
    ensure_text_is_copied(&rt, &root)?;
    ensure_text_is_printed(&rt, &root)
}

#[test]
fn characters_are_found_by_their_first_byte(rt: HostRuntime) -> Result<(), Fail> {
    let ident = ident_of(&built(&rt, PARAM)?)?;
    let new = ident.replace_with(rt.alloc(), SyntaxKind::IDENT, "\u{e9}t\u{e9}")?;
    assert_eq!(rt; new.text().len().raw(), 5);
    let found = [
        char_at(&new, 0),
        char_at(&new, 1),
        char_at(&new, 2),
        char_at(&new, 3),
    ];
    assert!(rt; found == [Some('\u{e9}'), None, Some('t'), Some('\u{e9}')]);
    Ok(())
}

// The first sibling, and what is inside it.
fn ensure_first_sibling(root: &SyntaxNode) -> Result<(), Fail> {
    let all = root.trees();
    ensure(!all.is_done(), "is_done of all")?;
    ensure(!all.is_token(), "is_token of a node")?;
    ensure(all.kind() == SyntaxKind::LITERAL, "kind of a node")?;
    let number = all.inside();
    ensure(number.text() == "1", "text of a token")?;
    ensure(number.kind() == SyntaxKind::INT_NUMBER, "kind of a token")?;
    ensure(number.rest().is_done(), "rest of a token")?;
    ensure(number.inside().is_done(), "inside a token")
}

// The siblings after it.
fn ensure_later_siblings(root: &SyntaxNode) -> Result<(), Fail> {
    let sign = root.trees().rest().without_trivia();
    ensure(sign.kind() == SyntaxKind::PLUS, "kind behind trivia")?;
    ensure(sign.start().raw() == 2, "start behind trivia")?;
    let last = sign.rest().without_trivia();
    ensure(last.text() == "1", "text of the last")?;
    ensure(last.start().raw() == 4, "start of the last")
}

// What is after the last one.
fn ensure_end_of_siblings(root: &SyntaxNode) -> Result<(), Fail> {
    let sign = root.trees().rest().without_trivia();
    let none = sign.rest().without_trivia().rest();
    ensure(none.is_done(), "is_done behind the last")?;
    ensure(none.start().raw() == 5, "start behind the last")?;
    ensure(none.kind() == SyntaxKind::OTHER(0), "kind behind the last")?;
    ensure(
        none.all().rest().inside().without_trivia().is_done(),
        "steps behind the last",
    )
}

#[test]
fn siblings_are_read(rt: HostRuntime) -> Result<(), Fail> {
    let root = sum(&rt)?;
    ensure_first_sibling(&root)?;
    ensure_later_siblings(&root)?;
    ensure_end_of_siblings(&root)
}
