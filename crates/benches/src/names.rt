//! The kinds of names: `SyntaxKind::from_name` of every name of a kind. A line has the number of
//! names, the nanoseconds a call, and a sum over the kinds.

use crate::stopped::Stopped;
use crate::timing::least_time;
use ra_ap_syntax::SyntaxKind;
use std::alloc::AllocError;

// How often every name is looked up.
const TIMES: u32 = 1_000;

const RUNS: u32 = 20;

fn names(rt: &HostRuntime) -> Result<Vec<&'static str>, Stopped> {
    let mut names = Vec::new(rt.alloc());
    for raw in 0..1_000 {
        if let Some(name) = SyntaxKind::from_raw(raw).and_then(SyntaxKind::name) {
            names.push(name).map_err(|_| AllocError)?;
        }
    }
    Ok(names)
}

// A sum over the kinds of the names.
fn looked_up(names: &[&'static str]) -> u32 {
    let mut sum: u32 = 0;
    for _time in 0..TIMES {
        for name in names {
            if let Some(kind) = SyntaxKind::from_name(name) {
                sum = sum.wrapping_add(kind.to_raw());
            }
        }
    }
    sum
}

/// Looks every name up, and prints the line.
pub fn time_names(rt: &HostRuntime) -> Result<(), Stopped> {
    let names = names(rt)?;
    let (least, sum) = least_time(rt, RUNS, 0, || Ok(looked_up(names.as_slice())))?;
    let calls = (names.len() as u128).saturating_mul(TIMES as u128);
    let tenths = least.saturating_mul(10).checked_div(calls).unwrap_or(0);
    println!(rt;
        "from_name {} {}.{} {sum}",
        names.len(),
        tenths / 10,
        tenths % 10
    )?;
    Ok(())
}
