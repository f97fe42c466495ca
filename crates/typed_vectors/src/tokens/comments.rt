//! Comments and white space.
use super::typed;
use ra_ap_syntax::SyntaxKind;
use ra_ap_syntax::ast::{AnyComment, Comment, DocComment, Whitespace};
use ras_token_ext::{AttrKind, CommentShape};
use std::alloc::Global;
use std::test::Fail;

// Comments, their shapes, and their texts without what marks them.
const COMMENTS: [(&str, CommentShape, Option<&str>); 8] = [
    ("// a", CommentShape::Line, Some(" a")),
    ("/* a */", CommentShape::Block, Some(" a ")),
    ("/* a", CommentShape::Block, Some(" a")),
    ("/*/", CommentShape::Block, Some("/")),
    ("/*", CommentShape::Block, Some("")),
    ("// a */", CommentShape::Line, Some(" a */")),
    ("/", CommentShape::Line, None),
    ("", CommentShape::Line, None),
];

type CommentRow = (&'static str, CommentShape, Option<&'static str>);

fn is_comment(alloc: Global, row: &CommentRow) -> Result<bool, Fail> {
    let comment: Comment = typed(alloc, SyntaxKind::COMMENT, row.0)?;
    Ok(comment.shape() == row.1 && comment.text_without_markers() == row.2)
}

#[test]
fn comments(rt: HostRuntime) -> Result<(), Fail> {
    for row in &COMMENTS {
        assert!(rt; is_comment(rt.alloc(), row)?, "in {}", row.0);
    }
    Ok(())
}

// Texts of documentation.
const TEXTS: [(SyntaxKind, &str, Option<&str>); 10] = [
    (SyntaxKind::COMMENT, "//a", Some("a")),
    (SyntaxKind::COMMENT, "/*a*/", Some("a")),
    (SyntaxKind::COMMENT, "/", None),
    (SyntaxKind::INNER_DOC_COMMENT, "//! a", Some(" a")),
    (SyntaxKind::INNER_DOC_COMMENT, "/*! a*/", Some(" a")),
    (SyntaxKind::OUTER_DOC_COMMENT, "/// doc1", Some(" doc1")),
    (SyntaxKind::OUTER_DOC_COMMENT, "/// doc2  ", Some(" doc2  ")),
    (
        SyntaxKind::OUTER_DOC_COMMENT,
        "/** this is mod foo*/",
        Some(" this is mod foo"),
    ),
    (SyntaxKind::OUTER_DOC_COMMENT, "//", None),
    (SyntaxKind::OUTER_DOC_COMMENT, "/**/", Some("/")),
];

type TextRow = (SyntaxKind, &'static str, Option<&'static str>);

fn has_text(alloc: Global, row: &TextRow) -> Result<bool, Fail> {
    let comment: AnyComment = typed(alloc, row.0, row.1)?;
    Ok(comment.text() == row.2)
}

#[test]
fn texts_of_documentation(rt: HostRuntime) -> Result<(), Fail> {
    for row in &TEXTS {
        assert!(rt; has_text(rt.alloc(), row)?, "in {}", row.1);
    }
    Ok(())
}

#[test]
fn whole_texts(rt: HostRuntime) -> Result<(), Fail> {
    let comment: AnyComment = typed(rt.alloc(), SyntaxKind::INNER_DOC_COMMENT, "/*! a*/")?;
    assert_eq!(rt; comment.text_with_markers(), "/*! a*/");
    Ok(())
}

// A comment, its shape, what it documents, and what it begins with.
type KindRow = (
    SyntaxKind,
    &'static str,
    CommentShape,
    Option<AttrKind>,
    &'static str,
);

const INNER: Option<AttrKind> = Some(AttrKind::Inner);

const OUTER: Option<AttrKind> = Some(AttrKind::Outer);

const KINDS: [KindRow; 8] = [
    (SyntaxKind::COMMENT, "// a", CommentShape::Line, None, "//"),
    (
        SyntaxKind::COMMENT,
        "/* a */",
        CommentShape::Block,
        None,
        "/*",
    ),
    (SyntaxKind::COMMENT, "/", CommentShape::Line, None, "//"),
    (
        SyntaxKind::INNER_DOC_COMMENT,
        "//! a",
        CommentShape::Line,
        INNER,
        "//!",
    ),
    (
        SyntaxKind::INNER_DOC_COMMENT,
        "/*! a */",
        CommentShape::Block,
        INNER,
        "/*!",
    ),
    (
        SyntaxKind::OUTER_DOC_COMMENT,
        "/// a",
        CommentShape::Line,
        OUTER,
        "///",
    ),
    (
        SyntaxKind::OUTER_DOC_COMMENT,
        "/** a */",
        CommentShape::Block,
        OUTER,
        "/**",
    ),
    (
        SyntaxKind::OUTER_DOC_COMMENT,
        "//",
        CommentShape::Line,
        OUTER,
        "///",
    ),
];

fn is_of_kind(alloc: Global, row: &KindRow) -> Result<bool, Fail> {
    let comment: AnyComment = typed(alloc, row.0, row.1)?;
    Ok(comment.shape() == row.2 && comment.doc_kind() == row.3 && comment.prefix() == row.4)
}

#[test]
fn kinds_of_comments(rt: HostRuntime) -> Result<(), Fail> {
    for row in &KINDS {
        assert!(rt; is_of_kind(rt.alloc(), row)?, "in {}", row.1);
    }
    Ok(())
}

// Whether a comment documents what it is in, or what follows.
const DOCUMENTED: [(SyntaxKind, &str, bool, bool); 3] = [
    (SyntaxKind::COMMENT, "//", false, false),
    (SyntaxKind::INNER_DOC_COMMENT, "//!", true, false),
    (SyntaxKind::OUTER_DOC_COMMENT, "///", false, true),
];

fn documents(alloc: Global, row: &(SyntaxKind, &'static str, bool, bool)) -> Result<bool, Fail> {
    let comment: AnyComment = typed(alloc, row.0, row.1)?;
    Ok(
        comment.is_inner() == row.2
            && comment.is_outer() == row.3
            && comment.kind().prefix() == row.1,
    )
}

#[test]
fn what_comments_document(rt: HostRuntime) -> Result<(), Fail> {
    for row in &DOCUMENTED {
        assert!(rt; documents(rt.alloc(), row)?, "in {}", row.1);
    }
    assert_eq!(rt; DocComment::PREFIX_LEN, 3);
    Ok(())
}

// White space, and whether it spans lines.
const SPACES: [(&str, bool); 5] = [
    (" ", false),
    ("\n", false),
    ("\n\n", true),
    ("\n \n ", true),
    ("", false),
];

fn spans_lines(alloc: Global, row: &(&'static str, bool)) -> Result<bool, Fail> {
    let space: Whitespace = typed(alloc, SyntaxKind::WHITESPACE, row.0)?;
    Ok(space.spans_multiple_lines() == row.1)
}

#[test]
fn lines_of_white_space(rt: HostRuntime) -> Result<(), Fail> {
    for row in &SPACES {
        assert!(rt; spans_lines(rt.alloc(), row)?, "in {:?}", row.0);
    }
    Ok(())
}
