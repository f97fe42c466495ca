//! The arguments of a front end: entries, editions and reparsers.

use syntax_kind::SyntaxKind;

/// The grammar rule that parses a whole text.
#[derive(Clone, Copy, Debug, PartialEq, Eq, Hash)]
pub enum Entry {
    /// A file: the root is a `SOURCE_FILE`.
    SourceFile,
    /// An expression: the root is a node of an expression, or `ERROR` if the text is not an
    /// expression.
    Expr,
}

/// An edition of Rust. Which words are keywords depends on it.
#[derive(Clone, Copy, Debug, PartialEq, Eq, Hash)]
pub enum Edition {
    /// Rust 2015.
    Edition2015,
    /// Rust 2018.
    Edition2018,
    /// Rust 2021.
    Edition2021,
    /// Rust 2024.
    Edition2024,
}

impl Edition {
    /// The newest edition, Rust 2024.
    pub const CURRENT: Edition = Edition::Edition2024;
}

/// A way to re-parse a node by itself, as returned by
/// [`FrontEnd::reparser`](crate::FrontEnd::reparser).
#[derive(Clone, Copy, Debug, PartialEq, Eq, Hash)]
pub struct Reparser {
    /// The kind of the node, before and after the re-parse.
    pub kind: SyntaxKind,
    /// Opaque to everyone but the front end: which grammar rule re-parses the node.
    pub number: u32,
}
