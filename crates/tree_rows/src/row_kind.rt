//! The kind of a row, in the number in which it is stored.
ghost use Rattle.std.specs.Prelude.{◌≡◌, false, true};
ghost use Rattle.tree_rows.specs.Heads.{head};

use crate::rows::{kind_number, kind_of};
use std::marker::Model;
use syntax_kind::SyntaxKind;

// What is added to the number of a token's kind.
pub(crate) const TOKEN: u32 = 2_147_483_648;

/// A kind, and whether it is that of a token, for [`RowBuilder::start`](crate::RowBuilder::start).
///
/// It is the number in which a row has both (ERROR is a kind of both), and is passed in a register,
/// where a [`SyntaxKind`] is passed in memory.
#[derive(Clone, Copy)]
pub struct RowKind {
    pub(crate) number: u32,
}

impl Model for RowKind {
    ghost use Rattle.tree_rows.specs.Stored.{kind_kept, token_kept, IsKindNumber};
    ghost use Rattle.tree_rows.specs.Heads.{Head, head, head_code};

    ghost Value = { Head };

    ghost coded = { head_code };

    ghost view = { λ a. head (kind_kept a.number) (token_kept a.number) };

    ghost invariant = { λ a. IsKindNumber a.number };

    ghost use Rattle.tree_rows.specs.Flat.{flat_kind};
    ghost use Rattle.std.proofs.Common.{ap, sym};

    ghost inverse = { λ h. record { number = flat_kind h.kind h.is_token } };

    ghost inverse_ok = { λ a h. ap (λ n. record { number = n }) (sym h) };
}

impl RowKind {
    /// The kind of a node.
    #[inline(always)]
    pub fn node(kind: SyntaxKind) -> RowKind
        ensures { result ≡ head kind false }
    {
        RowKind {
            number: kind_number(kind, false),
        }
    }

    /// The kind of a token.
    #[inline(always)]
    pub fn token(kind: SyntaxKind) -> RowKind
        ensures { result ≡ head kind true }
    {
        RowKind {
            number: kind_number(kind, true),
        }
    }

    /// The kind.
    pub fn kind(self) -> SyntaxKind
        ensures { result ≡ self.kind }
    {
        kind_of(self.number)
    }

    /// Whether it is that of a token.
    #[inline(always)]
    pub fn is_token(self) -> bool
        ensures { result ≡ self.is_token }
    {
        self.number >= TOKEN
    }
}
