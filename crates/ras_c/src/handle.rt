//! The handle of a parse, which C keeps: a box as its pointer.
ghost use Rattle.std.specs.Prelude.{◌≡◌, Option, None, Some, MatchOption};
ghost use Rattle.std.specs.Coded.{coded_option};
ghost use Rattle.ras_c.specs.Kept.{Kept, kept_code};
ghost use Rattle.ras_c.specs.Held.{held};

use crate::kept::KeptParse;
use crate::loose::Loose;
use std::alloc::Global;
use std::marker::Model;

/// A parse that is kept between calls, or no parse. A handle of all zeros holds none.
///
/// The fields are private to the library. Do not use a copy of a handle after a call that changed
/// the original. A handle may go from thread to thread; one call at a time may use it.
#[repr(C)]
pub struct Handle {
    /// Whether there is a parse.
    full: bool,
    /// Where it is.
    at: *mut u8,
    pub ghost kept: { Option Kept } by { coded_option kept_code },
}

impl Model for Handle {
    ghost also_owns = { λ h. held h.full h.at h.kept };
}

/// A handle that holds no parse.
pub(crate) fn empty() -> Handle
    ensures { result.kept ≡ None }
{
    Handle {
        full: false,
        at: std::ptr::null_mut(),
    }
}

pub(crate) fn seal(loose: Loose<KeptParse, Global>) -> Handle
    ensures { result.kept ≡ Some loose.value }
{
    let Loose { at, alloc: _ } = loose;
    Handle {
        full: true,
        at: at as *mut u8,
    }
}

pub(crate) fn open(alloc: Global, handle: Handle) -> Option<Loose<KeptParse, Global>>
    ensures { MatchOption result (handle.kept ≡ None) (λ l. handle.kept ≡ Some l.value) }
{
    let Handle { full, at } = handle;
    if full {
        return Some(Loose {
            at: at as *mut KeptParse,
            alloc,
        });
    }
    None
}
