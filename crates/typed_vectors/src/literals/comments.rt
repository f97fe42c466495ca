//! Comments and white space.
use ras_token_ext::{AttrKind, CommentKind, CommentShape, comment_text, spans_multiple_lines};
use std::test::Fail;

const SHAPES: [(&str, CommentShape); 5] = [
    ("// a", CommentShape::Line),
    ("/* a", CommentShape::Block),
    ("/", CommentShape::Line),
    ("", CommentShape::Line),
    (" /*", CommentShape::Line),
];

#[test]
fn shapes(rt: HostRuntime) -> Result<(), Fail> {
    for (text, shape) in SHAPES {
        assert!(rt; CommentShape::from_text(text) == shape, "in {text}");
    }
    Ok(())
}

#[test]
fn shapes_by_name(rt: HostRuntime) -> Result<(), Fail> {
    assert!(rt; CommentShape::Line.is_line() && !CommentShape::Line.is_block());
    assert!(rt; CommentShape::Block.is_block() && !CommentShape::Block.is_line());
    Ok(())
}

const PREFIXES: [(CommentShape, Option<AttrKind>, &str); 6] = [
    (CommentShape::Line, None, "//"),
    (CommentShape::Line, Some(AttrKind::Inner), "//!"),
    (CommentShape::Line, Some(AttrKind::Outer), "///"),
    (CommentShape::Block, None, "/*"),
    (CommentShape::Block, Some(AttrKind::Inner), "/*!"),
    (CommentShape::Block, Some(AttrKind::Outer), "/**"),
];

#[test]
fn prefixes(rt: HostRuntime) -> Result<(), Fail> {
    for (shape, doc, prefix) in PREFIXES {
        let kind = CommentKind { shape, doc };
        assert!(rt; kind.prefix() == prefix, "not {prefix}");
    }
    Ok(())
}

#[test]
fn kinds_of_attributes(rt: HostRuntime) -> Result<(), Fail> {
    assert!(rt; AttrKind::Inner.is_inner() && !AttrKind::Inner.is_outer());
    assert!(rt; AttrKind::Outer.is_outer() && !AttrKind::Outer.is_inner());
    Ok(())
}

// A comment, the length of its marker and the text after it.
type Text = (&'static str, usize, Option<&'static str>);

const TEXTS: [Text; 13] = [
    ("// a", 2, Some(" a")),
    ("/// a", 3, Some(" a")),
    ("/* a */", 2, Some(" a ")),
    ("/** a */", 3, Some(" a ")),
    ("/* a", 2, Some(" a")),
    ("/*/", 2, Some("/")),
    ("/**/", 2, Some("")),
    ("/**/", 3, Some("/")),
    ("// a */", 2, Some(" a */")),
    ("/", 2, None),
    ("//", 3, None),
    ("", 2, None),
    ("/\u{e9}", 2, None),
];

fn has_text(row: &Text) -> bool {
    let (text, marker_len, expected) = *row;
    comment_text(text, marker_len) == expected
}

#[test]
fn texts(rt: HostRuntime) -> Result<(), Fail> {
    for row in &TEXTS {
        assert!(rt; has_text(row), "in {}", row.0);
    }
    Ok(())
}

#[test]
fn newlines(rt: HostRuntime) -> Result<(), Fail> {
    assert!(rt; spans_multiple_lines("\n\n"));
    assert!(rt; spans_multiple_lines(" \n \n "));
    assert!(rt; !spans_multiple_lines("\n"));
    assert!(rt; !spans_multiple_lines("\r\r"));
    assert!(rt; !spans_multiple_lines(""));
    Ok(())
}
