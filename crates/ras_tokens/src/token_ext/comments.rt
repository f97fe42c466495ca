//! Comments and white space.
ghost use Rattle.std.specs.Prelude.{◌≡◌, Some, None, false, option_map};
ghost use Rattle.std.specs.Option.{option_map_or};
ghost use Rattle.tree_model.specs.Tree.{text};
ghost use Rattle.tree_model.specs.Cursor.{focus};
ghost use Rattle.ras_node.specs.Nodes.{kind_at};
ghost use Rattle.ras_token_ext.specs.Comments.{shape_of, prefix_of, comment_text, spans_lines, is_inner_kind, is_outer_kind};
ghost use Rattle.ras_tokens.specs.CommentKinds.{doc_kind_of, marker_len};

use crate::{AnyComment, tokens};
use lossless_tree::SyntaxKind;
use ras_token_ext::{AttrKind, CommentKind, CommentShape};

impl tokens::Comment {
    /// Whether it ends with its line or with its closing marker.
    pub fn shape(&self) -> CommentShape
        ensures { result ≡ shape_of (text (focus self.now.syntax)) }
    {
        CommentShape::from_text(self.syntax.text())
    }

    /// The text without the markers `//`, or `/*` and `*/`, of which the last may be missing.
    /// Returns `None` if the text is shorter than two bytes, or if byte 2 is not a character
    /// boundary.
    pub fn text_without_markers(&self) -> Option<&str>
        ensures { option_map (λ s. s.now) result ≡ comment_text 2 (text (focus self.now.syntax)) }
    {
        ras_token_ext::comment_text(self.syntax.text(), 2)
    }
}

impl AnyComment {
    /// Whether it ends with its line or with its closing marker.
    pub fn shape(&self) -> CommentShape
        ensures { result ≡ shape_of (text (focus self.now.syntax)) }
    {
        CommentShape::from_text(self.syntax.text())
    }

    /// What it documents, if anything.
    pub fn doc_kind(&self) -> Option<AttrKind>
        ensures { result ≡ doc_kind_of (kind_at self.now.syntax) }
    {
        match self.syntax.kind() {
            SyntaxKind::INNER_DOC_COMMENT => Some(AttrKind::Inner),
            SyntaxKind::OUTER_DOC_COMMENT => Some(AttrKind::Outer),
            _ => None,
        }
    }

    /// Its shape, and what it documents.
    pub fn kind(&self) -> CommentKind
        ensures shape { result.shape ≡ shape_of (text (focus self.now.syntax)) }
        ensures doc { result.doc ≡ doc_kind_of (kind_at self.now.syntax) }
    {
        CommentKind {
            shape: self.shape(),
            doc: self.doc_kind(),
        }
    }

    /// The opening marker of such a comment.
    pub fn prefix(&self) -> &'static str
        ensures { result.now
            ≡ prefix_of (shape_of (text (focus self.now.syntax)))
            (doc_kind_of (kind_at self.now.syntax)) }
    {
        self.kind().prefix()
    }

    /// Whether it documents the item that it is inside.
    pub fn is_inner(&self) -> bool
        ensures { result
            ≡ option_map_or is_inner_kind (doc_kind_of (kind_at self.now.syntax)) false }
    {
        match self.doc_kind() {
            Some(kind) => kind.is_inner(),
            None => false,
        }
    }

    /// Whether it documents the item that follows.
    pub fn is_outer(&self) -> bool
        ensures { result
            ≡ option_map_or is_outer_kind (doc_kind_of (kind_at self.now.syntax)) false }
    {
        match self.doc_kind() {
            Some(kind) => kind.is_outer(),
            None => false,
        }
    }

    /// The whole text.
    pub fn text_with_markers(&self) -> &str
        ensures { result.now ≡ text (focus self.now.syntax) }
    {
        self.syntax.text()
    }

    /// The text without the markers, of which the closing one may be missing. Returns `None` if the
    /// text is shorter than its opening marker, or if that marker's end is not a character
    /// boundary.
    pub fn text(&self) -> Option<&str>
        ensures { option_map (λ s. s.now) result
            ≡ comment_text (marker_len (doc_kind_of (kind_at self.now.syntax)))
            (text (focus self.now.syntax)) }
    {
        let marker_len = match self.doc_kind() {
            None => 2,
            Some(_) => 3,
        };
        ras_token_ext::comment_text(self.syntax.text(), marker_len)
    }
}

impl tokens::Whitespace {
    /// Whether it has at least two newlines.
    pub fn spans_multiple_lines(&self) -> bool
        ensures { result ≡ spans_lines (text (focus self.now.syntax)) }
    {
        ras_token_ext::spans_multiple_lines(self.syntax.text())
    }
}
