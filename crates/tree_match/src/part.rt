//! Patterns and templates, as walks of their trees.
ghost use Rattle.std.specs.Prelude.{◌≡◌};
ghost use Rattle.tree_match.specs.Walks.{is_word, sort_has};

use crate::kind::is_kind;
use lossless_tree::SyntaxKind;
use ras_node::sets::{Exprs, KindSet, Pats, Types};

/// What a placeholder stands for.
#[derive(Clone, Copy, Debug, PartialEq, Eq, Drop)]
pub enum Sort {
    /// An expression.
    Expr,
    /// A type.
    Ty,
    /// A pattern, as that of an arm.
    Pat,
    /// A path, or a part of one from its start on.
    Path,
    /// A word: the token of a name.
    Word,
    /// Elements of a list, as arguments, statements or fields.
    List,
}

/// Where the comma is that goes with a list: a list without elements has none.
#[derive(Clone, Copy, Drop)]
pub enum Comma {
    Nowhere,
    Before,
    Behind,
}

// Whether a token of this kind can be a name: also `0` of `x.0`, and the words of paths.
fn is_word(kind: SyntaxKind) -> bool
    ensures { result ≡ is_word kind }
{
    is_kind(kind, SyntaxKind::IDENT)
        || is_kind(kind, SyntaxKind::INT_NUMBER)
        || is_kind(kind, SyntaxKind::SELF_KW)
        || is_kind(kind, SyntaxKind::SELF_TYPE_KW)
        || is_kind(kind, SyntaxKind::SUPER_KW)
        || is_kind(kind, SyntaxKind::CRATE_KW)
}

impl Sort {
    /// Whether a node of this kind is of the sort; for a word, a token.
    pub fn has(self, kind: SyntaxKind) -> bool
        ensures { result ≡ sort_has self kind }
    {
        match self {
            Sort::Expr => Exprs::has(kind),
            Sort::Ty => Types::has(kind),
            Sort::Pat => Pats::has(kind),
            Sort::Path => is_kind(kind, SyntaxKind::PATH),
            Sort::Word => is_word(kind),
            Sort::List => false,
        }
    }
}

/// A step of the walk of a pattern or template, in which a placeholder is one step.
#[derive(Drop)]
pub enum Part {
    /// A node is entered.
    Enter(SyntaxKind),
    /// A node is left.
    Leave,
    /// A token.
    Token(SyntaxKind, String),
    /// The placeholder with this number.
    Hole(usize, Sort),
    /// The placeholder with this number for a list: all nodes that are left on its level, but for
    /// as many as this at the end.
    List(usize, Comma, usize),
}
