//! The kinds of Rust's tokens and nodes for which `SyntaxKind` has no constant, as kinds
//! `SyntaxKind::OTHER(n)` with fixed numbers, and the words that are keywords: everywhere in an
//! edition, or only where the grammar asks for them.
#![tactic(auto)]

ghost use Rattle.std.specs.Prelude.{◌≡◌, ◌↔◌, [], MatchOption, IfSome, Some};
ghost use Rattle.syntax_kind.specs.Kinds.{IsKind};
ghost use Rattle.rust_kinds.specs.Names.{rust_name, IsNamed};

mod contextual;
mod keywords;
pub mod kinds;
mod names;
mod strict;

pub use contextual::{contextual_keyword, contextual_kind};
pub use keywords::keyword;
use names::{other_name, other_number};
pub use strict::is_strict_keyword;
use syntax_kind::SyntaxKind;

/// The name of a kind: the kind's own, and that of this crate's table for a kind `OTHER(n)` that
/// has a constant in [`kinds`]; `None` for another `OTHER(n)`.
pub fn name_of(kind: SyntaxKind) -> Option<&'static str>
    ensures { MatchOption result (rust_name kind ≡ []) (λ s. rust_name kind ≡ s.now) }
{
    match kind {
        SyntaxKind::OTHER(number) => other_name(number),
        _ => kind.name(),
    }
}

/// The kind with this name, as [`name_of`] gives it, or `None` if no kind has it.
pub fn from_name(name: &str) -> Option<SyntaxKind>
    ensures exact { (k : SyntaxKind) → IsKind k → (result ≡ Some k) ↔ IsNamed k name.now }
    ensures kind { IfSome result IsKind }
{
    if let Some(number) = other_number(name) {
        return Some(SyntaxKind::OTHER(number));
    }
    match SyntaxKind::from_name(name)? {
        SyntaxKind::OTHER(_) => None,
        kind => Some(kind),
    }
}
