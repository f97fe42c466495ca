//! Comments and white space.
ghost use Rattle.std.specs.Prelude.{◌≡◌, ◌==◌, nat_le, count_by, option_map};
ghost use Rattle.ras_token_ext.specs.Comments.{shape_of, is_line_shape, is_block_shape, is_inner_kind, is_outer_kind, prefix_of, comment_text, spans_lines};

use crate::parts::{begins_with, cut, ends_with};

/// Whether a comment ends with its line or with its closing marker.
#[derive(Clone, Copy, Debug, PartialEq, Eq)]
pub enum CommentShape {
    /// `// a`
    Line,
    /// `/* a */`
    Block,
}

impl CommentShape {
    /// `Block` where the text begins with `/*`, otherwise `Line`.
    pub fn from_text(text: &str) -> CommentShape
        ensures { result ≡ shape_of text.now }
    {
        if begins_with(text, "/*") {
            CommentShape::Block
        } else {
            CommentShape::Line
        }
    }

    /// Whether it ends with its line: `//`.
    pub fn is_line(self) -> bool
        ensures { result ≡ is_line_shape self }
    {
        matches!(self, CommentShape::Line)
    }

    /// Whether it ends with a closing marker: `/* */`.
    pub fn is_block(self) -> bool
        ensures { result ≡ is_block_shape self }
    {
        matches!(self, CommentShape::Block)
    }
}

/// What an attribute or a doc comment belongs to.
#[derive(Clone, Copy, Debug, PartialEq, Eq)]
pub enum AttrKind {
    /// The item that it is inside: `#![a]`, `//! a`.
    Inner,
    /// The item that follows: `#[a]`, `/// a`.
    Outer,
}

impl AttrKind {
    /// Whether it belongs to the item that it is inside.
    pub fn is_inner(&self) -> bool
        ensures { result ≡ is_inner_kind self.now }
    {
        matches!(self, AttrKind::Inner)
    }

    /// Whether it belongs to the item that follows.
    pub fn is_outer(&self) -> bool
        ensures { result ≡ is_outer_kind self.now }
    {
        matches!(self, AttrKind::Outer)
    }
}

/// The shape of a comment, and what it documents, if anything.
#[derive(Clone, Copy, Debug, PartialEq, Eq)]
pub struct CommentKind {
    pub shape: CommentShape,
    pub doc: Option<AttrKind>,
}

impl CommentKind {
    /// The opening marker of such a comment.
    pub fn prefix(&self) -> &'static str
        ensures { result.now ≡ prefix_of self.now.shape self.now.doc }
    {
        match (self.shape, self.doc) {
            (CommentShape::Line, None) => "//",
            (CommentShape::Line, Some(AttrKind::Inner)) => "//!",
            (CommentShape::Line, Some(AttrKind::Outer)) => "///",
            (CommentShape::Block, None) => "/*",
            (CommentShape::Block, Some(AttrKind::Inner)) => "/*!",
            (CommentShape::Block, Some(AttrKind::Outer)) => "/**",
        }
    }
}

/// The text of a comment after an opening marker of `marker_len` bytes; for a block without the
/// closing `*/`, if it has one.
///
/// Returns `None` if the text is shorter than the marker, or if the marker's end is not a character
/// boundary.
pub fn comment_text(text: &str, marker_len: usize) -> Option<&str>
    ensures { option_map (λ s. s.now) result ≡ comment_text marker_len text.now }
{
    let behind = cut(text, marker_len, text.len())?;
    if CommentShape::from_text(text).is_block() && ends_with(behind, "*/") {
        cut(behind, 0, behind.len().saturating_sub(2))
    } else {
        Some(behind)
    }
}

/// Whether a text has at least two newlines.
pub fn spans_multiple_lines(text: &str) -> bool
    ensures { result ≡ spans_lines text.now }
{
    text.as_bytes()
        .iter()
        .filter(|byte| **byte == b'\n')
        .count()
        >= 2
}
