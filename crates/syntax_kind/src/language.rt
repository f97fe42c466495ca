//! How the raw numbers of a tree are read as kinds.
ghost use Rattle.std.specs.Prelude.{◌≡◌, ◌↔◌, Some, IfSome};
ghost use Rattle.syntax_kind.specs.Kinds.{kind_raw, IsKind};
ghost use Rattle.syntax_kind.specs.declared.syntax_kind.SyntaxKind.{SyntaxKind};

use crate::syntax_kind::SyntaxKind;

/// A language whose trees store kinds as numbers, like the trait of that name in `rowan`.
pub trait Language {
    /// The kind with this number, or `None` if no kind has it.
    fn kind_from_raw(raw: u32) -> Option<SyntaxKind>
        ensures exact { (k : SyntaxKind) → IsKind k → (result ≡ Some k) ↔ (kind_raw k ≡ raw) }
        ensures kind { IfSome result IsKind };

    /// The number of a kind.
    fn kind_to_raw(kind: SyntaxKind) -> u32
        ensures { result ≡ kind_raw kind };
}

/// Rust, as a `Language`. It has no values.
#[derive(Clone, Copy)]
pub enum RustLanguage {}

impl Language for RustLanguage {
    fn kind_from_raw(raw: u32) -> Option<SyntaxKind> {
        SyntaxKind::from_raw(raw)
    }

    fn kind_to_raw(kind: SyntaxKind) -> u32 {
        kind.to_raw()
    }
}
