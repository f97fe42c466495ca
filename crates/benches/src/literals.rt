//! The values of string literals. A line for each call, content and length has the call, the
//! content, its bytes, the least nanoseconds of a few runs, and the bytes or units that were seen.

mod call;
mod content;

use crate::stopped::Stopped;
use crate::timing::least_time;
use call::Call;
use content::Content;

const CALLS: [Call; 3] = [Call::StringValue, Call::BytesValue, Call::Units];

const CONTENTS: [Content; 7] = [
    Content::Plain,
    Content::Escapes,
    Content::Raw,
    Content::ShortEscapes,
    Content::UnicodeEscapes,
    Content::WideCharacters,
    Content::Continuations,
];

// How many hundred bytes a content has, and how often it is measured.
const LENGTHS: [(u32, u32); 4] = [(100, 50), (1_000, 20), (10_000, 5), (100_000, 3)];

fn time_call(
    rt: &HostRuntime,
    call: Call,
    content: Content,
    hundreds: u32,
    runs: u32,
) -> Result<(), Stopped> {
    let literal = content.literal(rt.alloc(), hundreds)?;
    let text = literal.as_str();
    let (least, seen) = least_time(rt, runs, 0, || call.run(rt.alloc(), text))?;
    println!(rt;
        "{} {} {} {least} {seen}",
        call.name(),
        content.name(),
        text.len()
    )?;
    Ok(())
}

/// Measures every length, the short ones first.
pub fn time_literals(rt: &HostRuntime) -> Result<(), Stopped> {
    for (hundreds, runs) in LENGTHS {
        for content in CONTENTS {
            for call in CALLS {
                if content.is_of_bytes() || !call.is_of_bytes() {
                    time_call(rt, call, content, hundreds, runs)?;
                }
            }
        }
    }
    Ok(())
}
