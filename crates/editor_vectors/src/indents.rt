//! White space of what is put into a tree.
use lossless_tree::{SyntaxKind, SyntaxNode, TreeBuilder};
use std::alloc::Global;
use std::test::Fail;
use syntax_indent::{IndentLevel, dedent, indent, reset_indent};

const SPACE: SyntaxKind = SyntaxKind::WHITESPACE;

// A file of these tokens, in which a block begins at each `{` and ends behind its `}`.
fn file(alloc: Global, tokens: &[(SyntaxKind, &str)]) -> Result<SyntaxNode, Fail> {
    let mut builder = TreeBuilder::new(alloc);
    builder.start_node(SyntaxKind::SOURCE_FILE)?;
    for (kind, text) in tokens {
        if *kind == SyntaxKind::L_CURLY {
            builder.start_node(SyntaxKind::BLOCK_EXPR)?;
        }
        builder.token(*kind, *text)?;
        if *kind == SyntaxKind::R_CURLY {
            builder.finish_node()?;
        }
    }
    builder.finish_node()?;
    Ok(builder.finish()?)
}

// A block in a block, with a string and a comment that have lines of their own, and an empty line.
fn blocks(alloc: Global) -> Result<SyntaxNode, Fail> {
    file(
        alloc,
        &[
            (SyntaxKind::IDENT, "a"),
            (SPACE, " "),
            (SyntaxKind::L_CURLY, "{"),
            (SPACE, "\n\n    "),
            (SyntaxKind::STRING, "\"x\n    y\""),
            (SPACE, " "),
            (SyntaxKind::COMMENT, "/*\n    */"),
            (SPACE, "\n    "),
            (SyntaxKind::L_CURLY, "{"),
            (SPACE, "\n\t\t      \n  "),
            (SyntaxKind::IDENT, "b"),
            (SPACE, "\n        "),
            (SyntaxKind::R_CURLY, "}"),
            (SPACE, "\n"),
            (SyntaxKind::R_CURLY, "}"),
        ],
    )
}

#[test]
fn levels_are_those_of_the_line(rt: HostRuntime) -> Result<(), Fail> {
    let alloc = rt.alloc();
    let root = blocks(alloc)?;
    // The level of each token, the first on the left: white space with a newline tells its own.
    let levels = [0, 0, 0, 1, 1, 1, 1, 1, 1, 0, 0, 2, 2, 0, 0];
    let mut count = 0;
    let mut next = root.first_token();
    while let Some(token) = next {
        let level = IndentLevel::from_token(&token);
        let wanted = *levels.as_slice().get(count).ok_or("a level")?;
        if level != IndentLevel::new(wanted) {
            return Err(Fail::from(format!(in alloc; "token {count}: level {level:?}")?));
        }
        count += 1;
        next = token.next_token();
    }
    assert_eq!(rt; count, 15);
    let block = root.first_child().ok_or("a block")?;
    assert_eq!(rt; IndentLevel::from_node(&block), IndentLevel::zero());
    let inner = block.first_child().ok_or("an inner block")?;
    assert_eq!(rt; IndentLevel::from_node(&inner), IndentLevel::single());
    assert_eq!(rt; IndentLevel::new(254) + 3, IndentLevel::new(255));
    assert!(rt; IndentLevel::zero().is_zero());
    assert!(rt; !IndentLevel::single().is_zero());
    let two = IndentLevel::from(2);
    assert_eq!(rt; two, IndentLevel::new(2));
    let text = format!(in alloc; "{two}x{}", IndentLevel::zero())?;
    assert_eq!(rt; text.as_str(), "        x");
    Ok(())
}

#[test]
fn lines_get_blanks(rt: HostRuntime) -> Result<(), Fail> {
    let alloc = rt.alloc();
    let root = blocks(alloc)?;
    let more = indent(alloc, &root, IndentLevel::new(2))?;
    assert_eq!(rt;
        more.as_str(),
        "a {\n\n            \"x\n    y\" /*\n    */\n            {\n\t\t      \n          b\n                }\n        }"
    );
    let same = indent(alloc, &root, IndentLevel::zero())?;
    assert!(rt; same == root);
    let back = dedent(alloc, &more, IndentLevel::new(2))?;
    assert!(rt; back == root);
    Ok(())
}

#[test]
fn lines_lose_blanks(rt: HostRuntime) -> Result<(), Fail> {
    let alloc = rt.alloc();
    let root = blocks(alloc)?;
    let fewer = dedent(alloc, &root, IndentLevel::single())?;
    assert_eq!(rt;
        fewer.as_str(),
        "a {\n\n\"x\n    y\" /*\n    */\n{\n\t\t      \nb\n    }\n}"
    );
    // The tabs stay, and the blanks behind them.
    let none = dedent(alloc, &root, IndentLevel::new(255))?;
    assert_eq!(rt;
        none.as_str(),
        "a {\n\n\"x\n    y\" /*\n    */\n{\n\t\t      \nb\n}\n}"
    );
    let inner = root.first_child().ok_or("a block")?;
    let inner = inner.first_child().ok_or("an inner block")?;
    let alone = reset_indent(alloc, &inner)?;
    assert_eq!(rt; alone.as_str(), "{\n\t\t      \nb\n    }");
    assert!(rt; alone.parent().is_none());
    assert_eq!(rt; alone.kind(), SyntaxKind::BLOCK_EXPR);
    let same = reset_indent(alloc, &root)?;
    assert!(rt; same == root);
    Ok(())
}
