//! Tokens by themselves.
use ra_ap_syntax::{Edition, FrontEnd, NodeOrToken, SourceFile, SyntaxKind, T};
use rust_front::Rust;
use rust_kinds::contextual_kind;
use rust_make::{Make, MakeError};
use std::test::Fail;
use syntax_kind::KINDS;

#[test]
fn tokens(rt: HostRuntime) -> Result<(), Fail> {
    let make = Make::new(rt.alloc(), &Rust, Edition::CURRENT);
    let arrow = make.token(T![->])?;
    assert!(rt; arrow.kind() == SyntaxKind::THIN_ARROW && arrow.text() == "->");
    let word = make.token(T![Self])?;
    assert!(rt; word.kind() == SyntaxKind::SELF_TYPE_KW && word.text() == "Self");
    for kind in &[
        SyntaxKind::IDENT,
        SyntaxKind::WHITESPACE,
        SyntaxKind::STRING,
        SyntaxKind::BIN_EXPR,
        SyntaxKind::OTHER(3),
    ] {
        assert!(rt; matches!(make.token(*kind), Err(MakeError::NoPlace)));
    }
    Ok(())
}

// The texts of the words are those that the front end knows as keywords of these kinds, and those
// of the signs of one byte are the front end's tokens.
#[test]
fn texts_are_those_of_the_front_end(rt: HostRuntime) -> Result<(), Fail> {
    let alloc = rt.alloc();
    let now = Edition::CURRENT;
    let make = Make::new(alloc, &Rust, now);
    let mut count = 0usize;
    for kind in &KINDS {
        let Ok(token) = make.token(*kind) else {
            continue;
        };
        count += 1;
        assert!(rt; token.kind() == *kind);
        let text = token.text();
        if text.as_bytes()[0].is_ascii_alphabetic() {
            assert!(rt;
                Rust.keyword(text, now) == Some(*kind) || contextual_kind(text) == Some(*kind)
            );
        } else if text.len() == 1 {
            let lexed = Rust.lex(alloc, text, now)?;
            assert!(rt; lexed.len() == 1 && lexed[0] == *kind);
        }
    }
    assert_eq!(rt; count, 103);
    Ok(())
}

// The texts of longer signs are those of the tokens of such kinds in a file.
#[test]
fn texts_are_those_of_a_file(rt: HostRuntime) -> Result<(), Fail> {
    let make = Make::new(rt.alloc(), &Rust, Edition::CURRENT);
    let text = "fn f() -> A::B { a == b; a != b; a <= b; a >= b; a += b; a -= b; a |= b; a &= b;
        a ^= b; a /= b; a *= b; a %= b; a && b; a || b; a << b; a >> b; a <<= b; a >>= b; a..b;
        a..=b; match a { 0...1 => b } }";
    let file = SourceFile::parse(rt.alloc(), text, &Rust, Edition::CURRENT)?;
    let mut count = 0usize;
    for element in file.syntax_node().descendants_with_tokens() {
        if let NodeOrToken::Token(token) = element {
            if let Ok(made) = make.token(token.kind()) {
                assert!(rt; made.text() == token.text());
                if token.text().len() > 1 && !token.text().as_bytes()[0].is_ascii_alphabetic() {
                    count += 1;
                }
            }
        }
    }
    assert_eq!(rt; count, 24);
    Ok(())
}

#[test]
fn white_space(rt: HostRuntime) -> Result<(), Fail> {
    let make = Make::new(rt.alloc(), &Rust, Edition::CURRENT);
    for text in &[" ", "\n", "\n\n    ", "\t"] {
        let token = make.whitespace(*text)?;
        assert!(rt; token.kind() == SyntaxKind::WHITESPACE && token.text() == *text);
    }
    for text in &["", "a", " a", " // a", "\n// a\n", "a "] {
        assert!(rt; matches!(make.whitespace(*text), Err(MakeError::NotOne)));
    }
    Ok(())
}
