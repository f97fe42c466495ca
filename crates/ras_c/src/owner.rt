//! What owns the tree that C was handed: a box as its pointer.
ghost use Rattle.std.specs.Prelude.{◌≡◌, Option, None, Some, MatchOption};
ghost use Rattle.std.specs.Coded.{coded_option};
ghost use Rattle.ras_c.specs.Owned.{Flat, flat_code, owned};

use crate::flat::FlatTree;
use crate::loose::Loose;
use std::alloc::Global;
use std::marker::Model;

/// The memory of a tree that was handed over, or none. Its fields are private to the library.
#[repr(C)]
pub struct TreeOwner {
    /// Whether there is a tree.
    full: bool,
    /// Where its memory is.
    at: *mut u8,
    pub ghost flat: { Option Flat } by { coded_option flat_code },
}

impl Model for TreeOwner {
    ghost also_owns = { λ o. owned o.full o.at o.flat };
}

/// An owner of no tree.
pub(crate) fn empty() -> TreeOwner
    ensures { result.flat ≡ None }
{
    TreeOwner {
        full: false,
        at: std::ptr::null_mut(),
    }
}

pub(crate) fn seal(loose: Loose<FlatTree, Global>) -> TreeOwner
    ensures { result.flat ≡ Some loose.value }
{
    let Loose { at, alloc: _ } = loose;
    TreeOwner {
        full: true,
        at: at as *mut u8,
    }
}

pub(crate) fn open(alloc: Global, owner: TreeOwner) -> Option<Loose<FlatTree, Global>>
    ensures { MatchOption result (owner.flat ≡ None) (λ l. owner.flat ≡ Some l.value) }
{
    let TreeOwner { full, at } = owner;
    if full {
        return Some(Loose {
            at: at as *mut FlatTree,
            alloc,
        });
    }
    None
}
