//! Sets of kinds, as types.
ghost use Rattle.std.specs.Prelude.{◌≡◌, Bool};
ghost use Rattle.syntax_kind.specs.declared.syntax_kind.SyntaxKind.{SyntaxKind};

use syntax_kind::SyntaxKind;

/// A set of kinds.
pub trait KindSet {
    /// The membership test of the set.
    ghost kinds: { SyntaxKind → Bool };

    /// Whether a kind is in the set.
    fn has(kind: SyntaxKind) -> bool
        ensures { result ≡ kinds kind };
}
