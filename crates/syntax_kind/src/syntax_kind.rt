//! The kinds of tokens and nodes.
ghost use Rattle.std.specs.Prelude.{◌≡◌, ◌↔◌, Some, IfSome, MatchOption, ℕ};
ghost use Rattle.syntax_kind.specs.Kinds.{kind_raw, kind_name, is_trivia, IsKind};

mod all;
mod constants;
mod find;
mod name_table;
mod node_kind;
mod token_kind;

pub use all::KINDS;
use find::{find, other_number};
pub use node_kind::NodeKind;
use std::fmt;
pub use token_kind::TokenKind;

/// The kind of a token or a node.
///
/// Each kind but `OTHER` has a constant here, by the name that it has in rust-analyzer:
/// `SyntaxKind::PLUS`, `SyntaxKind::BIN_EXPR`. `T![+]` names punctuation and keywords by their
/// text. Both are values and patterns, so the two families need not be named. Kinds are ordered as
/// their numbers are. A kind prints as its name, and `OTHER(7)` as `OTHER(7)`.
#[derive(Clone, Copy, PartialEq, Eq, PartialOrd, Ord, Hash)]
pub enum SyntaxKind {
    /// A kind of token.
    Token(TokenKind),
    /// A kind of node.
    Node(NodeKind),
    /// A kind without a name.
    OTHER(u16),
}

impl SyntaxKind {
    /// Whether the kind is `WHITESPACE` or `COMMENT` (a comment that is not documentation).
    pub fn is_trivia(self) -> bool
        ensures { result ≡ is_trivia self }
    {
        matches!(self, SyntaxKind::WHITESPACE | SyntaxKind::COMMENT)
    }

    /// The raw number of the kind: its index in `KINDS`, or 65,536 + n for `OTHER(n)`.
    pub fn to_raw(self) -> u32
        ensures { result ≡ kind_raw self }
    {
        match self {
            SyntaxKind::Token(token) => token as u32,
            SyntaxKind::Node(node) => 117 + node as u32,
            SyntaxKind::OTHER(number) => 65_536 + number as u32,
        }
    }

    /// The kind with this number, or `None` if no kind has it.
    pub fn from_raw(raw: u32) -> Option<SyntaxKind>
        ensures exact { (k : SyntaxKind) → IsKind k → (result ≡ Some k) ↔ (kind_raw k ≡ raw) }
        ensures kind { IfSome result IsKind }
    {
        match raw {
            0..264 => Some(KINDS[raw as usize]),
            65_536..131_072 => Some(SyntaxKind::OTHER((raw - 65_536) as u16)),
            _ => None,
        }
    }

    /// The kind's name, as `"PLUS"`; `None` for `OTHER`, which prints its number too.
    pub fn name(self) -> Option<&'static str>
        ensures { MatchOption result ((n : ℕ) × (self ≡ SyntaxKind.OTHER n))
            (λ s. s.now ≡ kind_name self) }
    {
        match self {
            SyntaxKind::Token(token) => Some(token.name()),
            SyntaxKind::Node(node) => Some(node.name()),
            SyntaxKind::OTHER(_) => None,
        }
    }

    /// The kind that prints as `name`, if there is one.
    ///
    /// The name must match exactly. The number of `OTHER(n)` is decimal, from 0 to 65535, with no
    /// sign and no leading zero. Takes time linear in `name`, whatever the kind.
    pub fn from_name(name: &str) -> Option<SyntaxKind>
        ensures exact { (k : SyntaxKind) → IsKind k → (result ≡ Some k) ↔ (kind_name k ≡ name.now) }
        ensures kind { IfSome result IsKind }
    {
        if let Some(kind) = find(name) {
            return Some(kind);
        }
        Some(SyntaxKind::OTHER(other_number(name)?))
    }
}

impl fmt::Display for SyntaxKind {
    ghost output = { λ k. Some (kind_name k) };

    fn fmt<W: fmt::Write>(&self, f: &mut fmt::Formatter<W>) -> fmt::Result {
        match self {
            SyntaxKind::Token(token) => write!(f, "{}", token.name()),
            SyntaxKind::Node(node) => write!(f, "{}", node.name()),
            SyntaxKind::OTHER(number) => write!(f, "OTHER({number})"),
        }
    }
}

impl fmt::Debug for SyntaxKind {
    ghost debug_output = { λ k. Some (kind_name k) };

    fn fmt<W: fmt::Write>(&self, f: &mut fmt::Formatter<W>) -> fmt::Result {
        write!(f, "{self}")
    }
}
