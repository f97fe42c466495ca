//! How nodes, tokens and elements print: `{}` gives the text, and `{:?}` the kind and the range,
//! and of a token its text too.
ghost use Rattle.std.specs.Prelude.{Some};
ghost use Rattle.tree_model.specs.Tree.{text};
ghost use Rattle.tree_model.specs.Cursor.{focus};
ghost use Rattle.lossless_tree.specs.Dump.{span_text, token_line};
ghost use Rattle.lossless_tree.specs.Element.{by_case};

use super::element::NodeOrToken;
use super::node::SyntaxNode;
use super::token::SyntaxToken;
use super::tree_cursor::TreeCursor;
use crate::quoted::Quoted;
use std::fmt;

// The text of the node or token.
impl<'t> fmt::Display for TreeCursor<'t> {
    ghost output = { λ c. Some (text (focus c)) };

    fn fmt<W: fmt::Write>(&self, f: &mut fmt::Formatter<W>) -> fmt::Result {
        let text = self.text();
        write!(f, "{text}")
    }
}

// The kind and the range of the node or token, as `NAME@3..8`.
impl<'t> fmt::Debug for TreeCursor<'t> {
    ghost debug_output = { λ c. Some (span_text c) };

    fn fmt<W: fmt::Write>(&self, f: &mut fmt::Formatter<W>) -> fmt::Result {
        let kind = self.kind();
        let range = self.text_range();
        write!(f, "{kind}@{range}")
    }
}

/// The node's text.
impl fmt::Display for SyntaxNode {
    ghost output = { λ c. Some (text (focus c)) };

    fn fmt<W: fmt::Write>(&self, f: &mut fmt::Formatter<W>) -> fmt::Result {
        fmt::Display::fmt(&self.cursor(), f)
    }
}

/// The kind and the range, as `NAME@3..8`.
impl fmt::Debug for SyntaxNode {
    ghost debug_output = { λ c. Some (span_text c) };

    fn fmt<W: fmt::Write>(&self, f: &mut fmt::Formatter<W>) -> fmt::Result {
        fmt::Debug::fmt(&self.cursor(), f)
    }
}

/// The token's text.
impl fmt::Display for SyntaxToken {
    ghost output = { λ c. Some (text (focus c)) };

    fn fmt<W: fmt::Write>(&self, f: &mut fmt::Formatter<W>) -> fmt::Result {
        fmt::Display::fmt(&self.cursor(), f)
    }
}

/// The kind, the range and the text, as `IDENT@3..6 "foo"`: the token's line in a dump.
impl fmt::Debug for SyntaxToken {
    ghost debug_output = { λ c. Some (token_line c) };

    fn fmt<W: fmt::Write>(&self, f: &mut fmt::Formatter<W>) -> fmt::Result {
        fmt::Debug::fmt(&self.cursor(), f)?;
        let text = Quoted(self.text());
        write!(f, " {text}")
    }
}

/// As the node or the token in it prints.
impl<N: fmt::Display, T: fmt::Display> fmt::Display for NodeOrToken<N, T> {
    ghost output = { by_case N.output T.output };

    fn fmt<W: fmt::Write>(&self, f: &mut fmt::Formatter<W>) -> fmt::Result {
        match self {
            NodeOrToken::Node(node) => node.fmt(f),
            NodeOrToken::Token(token) => token.fmt(f),
        }
    }
}

/// Prints what `{:?}` of the node or token prints.
impl<N: fmt::Debug, T: fmt::Debug> fmt::Debug for NodeOrToken<N, T> {
    ghost debug_output = { by_case N.debug_output T.debug_output };

    fn fmt<W: fmt::Write>(&self, f: &mut fmt::Formatter<W>) -> fmt::Result {
        match self {
            NodeOrToken::Node(node) => node.fmt(f),
            NodeOrToken::Token(token) => token.fmt(f),
        }
    }
}
