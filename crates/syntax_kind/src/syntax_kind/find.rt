//! Kinds by their names.
ghost use Rattle.std.specs.Prelude.{◌≡◌, ◌↔◌, ◌<◌, IsTrue, MatchOption, Some, ℕ, decimal};
ghost use Rattle.syntax_kind.specs.Kinds.{kind_raw, kind_name};
ghost use Rattle.syntax_kind.specs.KindText.{IsNamedAs, has_plain_start, hash_of};

use super::SyntaxKind;
use super::name_table::{NUMBERS, SHIFTS};

/// The kind of this name, `OTHER` apart.
pub(super) fn find(name: &str) -> Option<SyntaxKind>
    ensures { MatchOption result ((k : SyntaxKind) → ¬ (IsNamedAs k name.now))
        (λ k. IsNamedAs k name.now) }
{
    let kind = candidate(name)?;
    if is_named(kind, name) {
        Some(kind)
    } else {
        None
    }
}

/// The only kind, `OTHER` apart, that can have this name.
fn candidate(name: &str) -> Option<SyntaxKind>
    ensures { (k : SyntaxKind) → kind_raw k < 264 → kind_name k ≡ name.now → result ≡ Some k }
{
    let hash = hash_of(name.as_bytes());
    let shift = SHIFTS[(hash % 128) as usize] as u32;
    let slot = (hash / 128 + shift) % 264;
    SyntaxKind::from_raw(NUMBERS[slot as usize] as u32)
}

/// The hash of a name, which selects its slot in the table.
fn hash_of(name: &[u8]) -> u32
    ensures { result ≡ hash_of name.now }
{
    let mut hash = 0u32;
    for byte in name {
        hash = (hash * 9 + *byte as u32) % 65_536;
    }
    hash
}

/// Whether the kind has this name and is not `OTHER`.
fn is_named(kind: SyntaxKind, name: &str) -> bool
    ensures { IsTrue result ↔ IsNamedAs kind name.now }
{
    match kind {
        SyntaxKind::Token(token) => token.name() == name,
        SyntaxKind::Node(node) => node.name() == name,
        SyntaxKind::OTHER(_) => false,
    }
}

/// The number `n` if `name` is `OTHER(n)`, otherwise `None`.
pub(super) fn other_number(name: &str) -> Option<u16>
    ensures { (n : ℕ) → n < 65536
        → (result ≡ Some n) ↔ (kind_name (SyntaxKind.OTHER n) ≡ name.now) }
{
    decimal_number(name.strip_prefix("OTHER(")?.strip_suffix(')')?)
}

/// The value of `text` as a decimal number without a sign or leading zeros, or `None` if it is not
/// such a number.
fn decimal_number(text: &str) -> Option<u16>
    ensures { (n : ℕ) → n < 65536 → (result ≡ Some n) ↔ (decimal n ≡ text.now) }
{
    if has_plain_start(text.as_bytes()) {
        text.parse().ok()
    } else {
        None
    }
}

/// Whether the text is not empty, and begins with no sign and no leading zero.
fn has_plain_start(text: &[u8]) -> bool
    ensures { result ≡ has_plain_start text.now }
{
    match text {
        [] => false,
        [first] => *first != b'+',
        [first, _, ..] => *first != b'+' && *first != b'0',
    }
}
