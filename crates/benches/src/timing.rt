//! How long a call takes.

use crate::stopped::Stopped;
use std::time::Instant;

/// Makes a call once, and returns how many nanoseconds it took. Its result is dropped after the
/// measurement.
pub fn time_once<T: Drop, F: FnOnce() -> Result<T, Stopped>>(
    rt: &HostRuntime,
    call: F,
) -> Result<u128, Stopped>
    requires { F.IsAlwaysCallable call }
{
    let start = Instant::now(rt)?;
    let given = call()?;
    let end = Instant::now(rt)?;
    drop(given);
    Ok(end.duration_since(start).as_nanos())
}

/// Makes a call this many times. Returns the least nanoseconds that it took, and its last result,
/// or `found` if it was not made.
pub fn least_time<T: Copy + Drop, F: FnMut() -> Result<T, Stopped>>(
    rt: &HostRuntime,
    runs: u32,
    mut found: T,
    mut call: F,
) -> Result<(u128, T), Stopped>
    requires { F.IsAlwaysCallable call }
{
    let mut least = u128::MAX;
    for _run in 0..runs {
        let start = Instant::now(rt)?;
        found = call()?;
        let end = Instant::now(rt)?;
        least = least.min(end.duration_since(start).as_nanos());
    }
    Ok((least, found))
}

/// Makes a call this many times, and returns the least nanoseconds that it took. Each result is
/// dropped after its measurement.
pub fn least_of<T: Drop, F: FnMut() -> Result<T, Stopped>>(
    rt: &HostRuntime,
    runs: u32,
    mut call: F,
) -> Result<u128, Stopped>
    requires { F.IsAlwaysCallable call }
{
    let mut least = u128::MAX;
    for _run in 0..runs {
        let start = Instant::now(rt)?;
        let given = call()?;
        let end = Instant::now(rt)?;
        drop(given);
        least = least.min(end.duration_since(start).as_nanos());
    }
    Ok(least)
}
