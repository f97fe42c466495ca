//! Comments.
ghost use Rattle.std.specs.Prelude.{◌≡◌};
ghost use Rattle.rust_lexer.specs.Comments.{line_kind_of, block_kind_of, line_comment_of, block_comment_of};

use crate::class::{Class, after, begins, skip};
use crate::problem::Problem;
use crate::scan::{Scan, run};
use crate::shape::Shape;
use syntax_kind::SyntaxKind;

// The kind of a comment, given the text after its `//`.
fn line_kind(rest: &[u8]) -> SyntaxKind
    ensures { result ≡ line_kind_of rest.now }
{
    if begins(b'!', rest) {
        SyntaxKind::INNER_DOC_COMMENT
    } else if begins(b'/', rest) && !begins(b'/', after(rest, 1)) {
        SyntaxKind::OUTER_DOC_COMMENT
    } else {
        SyntaxKind::COMMENT
    }
}

// The kind of a comment, given the text after its `/*`.
fn block_kind(rest: &[u8]) -> SyntaxKind
    ensures { result ≡ block_kind_of rest.now }
{
    if begins(b'!', rest) {
        SyntaxKind::INNER_DOC_COMMENT
    } else if begins(b'*', rest) && !begins(b'*', after(rest, 1)) && !begins(b'/', after(rest, 1)) {
        SyntaxKind::OUTER_DOC_COMMENT
    } else {
        SyntaxKind::COMMENT
    }
}

/// The comment to the end of the line, given the text after its `//`.
pub fn line_comment(rest: &[u8]) -> Shape
    ensures { result ≡ line_comment_of rest.now }
{
    Shape::plain(line_kind(rest), skip(Class::InLine, rest).len())
}

/// The comment up to its `*/`, given the text after its `/*`.
pub fn block_comment(rest: &[u8]) -> Shape
    ensures { result ≡ block_comment_of rest.now }
{
    let kind = block_kind(rest);
    let (scan, rest) = run(Scan::Comment(0), rest);
    match scan {
        Scan::Closed => Shape::plain(kind, rest.len()),
        _ => Shape::with(kind, rest.len(), Problem::UnterminatedBlockComment),
    }
}
