//! Lexing, parsing, errors, the dump and edits of the small language. A line for each has what was
//! done, to which text, its bytes, and the least nanoseconds of a few runs.

mod edit;
mod parse;
mod text;

use crate::stopped::Stopped;
use edit::time_edits;
use parse::time_parse;
use text::{Input, Place};

const PARSED: [(u32, u32); 4] = [(10_000, 50), (100_000, 20), (1_000_000, 5), (10_000_000, 3)];

const EDITED: [(u32, u32); 5] = [
    (1_000, 50),
    (10_000, 50),
    (100_000, 20),
    (1_000_000, 5),
    (10_000_000, 3),
];

/// Measures what is read, and then edits.
pub fn time_fronts(rt: &HostRuntime) -> Result<(), Stopped> {
    for (bytes, runs) in PARSED {
        time_parse(rt, Input::Flat(bytes), runs)?;
    }
    for (bytes, runs) in EDITED {
        time_edits(rt, Input::Wide(Place::Start, bytes), runs)?;
        time_edits(rt, Input::Wide(Place::Middle, bytes), runs)?;
        time_edits(rt, Input::Wide(Place::End, bytes), runs)?;
    }
    time_edits(rt, Input::Functions(10_000), 20)?;
    time_edits(rt, Input::Nested(1_000), 20)
}
