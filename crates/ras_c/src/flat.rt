//! The text and the rows of a tree, taken out of a parse.
ghost use Rattle.std.specs.Prelude.{◌≡◌, ◌↔◌, ◌⊎◌, ◌<◌, ◌≤◌, ◌^◌, IfOk, IfErr, OnOk};
ghost use Rattle.tree_model.specs.Tree.{size, text};
ghost use Rattle.tree_rows.specs.Flat.{flat_rows};

use crate::kept::KeptParse;
use crate::status::{NO_MEMORY, TOO_LONG};
use lossless_tree::{FlatRow, NotFlat};
use std::alloc::Global;

/// The bytes of the text of a tree, and its rows.
#[derive(Drop)]
pub struct FlatTree {
    pub text: Vec<u8>,
    pub rows: Vec<FlatRow>,
}

/// Takes the tree out of a parse, or returns the status of the refusal. The parse is used up.
pub(crate) fn flat_tree(alloc: Global, kept: KeptParse) -> Result<FlatTree, u32>
    ensures text { IfOk result (λ t. t.text.items ≡ text kept.parse.tree) }
    ensures rows { IfOk result (λ t. t.rows.items ≡ flat_rows kept.parse.tree) }
    ensures long { IfErr result (λ s. (s ≡ 2) ↔ (2 ^ 32 ≤ size kept.parse.tree)) }
    ensures which { IfErr result (λ s. (s ≡ 2) ⊎ (s ≡ 3)) }
    ensures fits { OnOk result (size kept.parse.tree < 2 ^ 32) }
{
    match kept.into_root().into_flat_rows(alloc) {
        Ok((text, rows)) => Ok(FlatTree {
            text: text.into_bytes(),
            rows,
        }),
        Err(NotFlat::TooMany) => Err(TOO_LONG),
        Err(NotFlat::Memory) => Err(NO_MEMORY),
    }
}
