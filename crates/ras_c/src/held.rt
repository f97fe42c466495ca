//! Puts parses into handles, and takes them out.
ghost use Rattle.std.specs.Prelude.{◌≡◌, None, Some, MatchOption};

use crate::handle::{Handle, empty, open, seal};
use crate::kept::KeptParse;
use crate::loose::Loose;
use std::alloc::Global;
use std::mem::replace;

// The parse of a handle, which is used up.
fn unseal(alloc: Global, handle: Handle) -> Option<Box<KeptParse>>
    ensures { MatchOption result (handle.kept ≡ None) (λ b. handle.kept ≡ Some b.value) }
{
    match open(alloc, handle) {
        Some(loose) => Some(loose.into_box()),
        None => None,
    }
}

/// Takes the parse out of a handle, which then holds none.
pub(crate) fn take(alloc: Global, handle: &mut Handle) -> Option<Box<KeptParse>>
    ensures taken { MatchOption result (handle.old.kept ≡ None)
        (λ b. handle.old.kept ≡ Some b.value) }
    ensures left { handle.new.kept ≡ None }
{
    unseal(alloc, replace(handle, empty()))
}

/// Puts a parse into a handle. A parse that it held is freed.
pub(crate) fn put(alloc: Global, handle: &mut Handle, parse: Box<KeptParse>)
    ensures { handle.new.kept ≡ Some parse.value }
{
    let _old = unseal(alloc, replace(handle, seal(Loose::of(parse))));
}
