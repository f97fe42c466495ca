//! Comparisons of kinds.
ghost use Rattle.std.specs.Prelude.{◌≡◌};
ghost use Rattle.syntax_kind.specs.Kinds.{is_same_kind};

use lossless_tree::SyntaxKind;

/// Whether two kinds are the same.
pub(crate) fn is_kind(kind: SyntaxKind, other: SyntaxKind) -> bool
    ensures { result ≡ is_same_kind kind other }
{
    kind.to_raw() == other.to_raw()
}
