//! The caller's buffers.
ghost use Rattle.std.specs.Prelude.{◌≡◌, ◌≤◌, ◌<◌, ◌^◌, ◌⊎◌, length, MatchOption};
ghost use Rattle.ras_c.specs.Border.{over, IsHanded, IsCounted};

use crate::status::{NO_ROOM, OK, TOO_LONG};

/// Writes the values to the front of the buffer.
pub fn fill<T: Copy>(values: &[T], out: &mut [T])
    requires { length values.now ≤ length out.old }
    ensures { out.new ≡ over values.now out.old }
{
    out[..values.len()].copy_from_slice(values);
}

/// The number as a `u32`, or `None` if it does not fit.
pub fn small(count: usize) -> Option<u32>
    ensures { MatchOption result (2 ^ 32 ≤ count) (λ n. n ≡ count) }
{
    u32::try_from(count).ok()
}

/// Writes the values to the front of the buffer if it has room for all of them, and returns their
/// number.
pub fn hand<T: Copy>(values: &[T], out: &mut [T], count: &mut u32) -> u32
    ensures done { result ≡ 0 → IsHanded values.now out.old out.new count.new }
    ensures room { result ≡ 4 → IsCounted values.now out.old out.new count.new }
    ensures long { result ≡ 2 → 2 ^ 32 ≤ length values.now }
    ensures kept { (result ≡ 0 → ⊥) → (result ≡ 4 → ⊥)
        → (out.new ≡ out.old) × (count.new ≡ count.old) }
    ensures which { (result ≡ 0) ⊎ (2 ≤ result) × (result ≤ 4) }
{
    let Some(needed) = small(values.len()) else {
        return TOO_LONG;
    };
    *count = needed;
    if out.len() < values.len() {
        return NO_ROOM;
    }
    fill(values, out);
    OK
}
