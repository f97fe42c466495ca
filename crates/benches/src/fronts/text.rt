//! The texts that are read.

use crate::stopped::Stopped;
use std::alloc::Global;
use std::fmt;

// 72 bytes.
const FUNCTION: &str =
    "fn name() {\n    let mut sum = a + b * (c - 1);\n    f(sum, 2)[0].g()?;\n}\n";

const LINE: &str = "    sum = f(sum, 2)[0].g()?;\n";

// How many lines a block of 1,000 bytes has, and how many bytes a function with it.
const LINES: u32 = 34;

const BLOCK: u32 = 1_000;

// Where in a text an edit is.
#[derive(Clone, Copy)]
pub enum Place {
    Start,
    Middle,
    End,
}

#[derive(Clone, Copy)]
pub enum Input {
    // Small functions, this many bytes in all.
    Flat(u32),
    // Functions with a block of 1,000 bytes, this many bytes in all; one block is edited.
    Wide(Place, u32),
    // This many small functions.
    Functions(u32),
    // A function with this many nested calls.
    Nested(u32),
}

impl fmt::Display for Place {
    fn fmt<W: fmt::Write>(&self, f: &mut fmt::Formatter<W>) -> fmt::Result {
        match self {
            Place::Start => write!(f, "start"),
            Place::Middle => write!(f, "middle"),
            Place::End => write!(f, "end"),
        }
    }
}

impl fmt::Display for Input {
    fn fmt<W: fmt::Write>(&self, f: &mut fmt::Formatter<W>) -> fmt::Result {
        match self {
            Input::Flat(bytes) => write!(f, "flat-{bytes}"),
            Input::Wide(place, bytes) => write!(f, "{place}-{bytes}"),
            Input::Functions(count) => write!(f, "functions-{count}"),
            Input::Nested(depth) => write!(f, "nested-{depth}"),
        }
    }
}

fn push_times(out: &mut String, text: &str, times: u32) -> Result<(), Stopped> {
    for _time in 0..times {
        out.push_str(text)?;
    }
    Ok(())
}

impl Input {
    /// The text.
    pub fn text(self, alloc: Global) -> Result<String, Stopped> {
        let mut out = String::new(alloc);
        match self {
            Input::Flat(bytes) => push_times(&mut out, FUNCTION, bytes / 72)?,
            Input::Wide(_, bytes) => {
                for _function in 0..bytes / BLOCK {
                    out.push_str("fn name() {\n")?;
                    push_times(&mut out, LINE, LINES)?;
                    out.push_str("}\n")?;
                }
            }
            Input::Functions(count) => push_times(&mut out, FUNCTION, count)?,
            Input::Nested(depth) => {
                out.push_str("fn name() { ")?;
                push_times(&mut out, "f(", depth)?;
                out.push_str("a")?;
                push_times(&mut out, ")", depth)?;
                out.push_str("; }\n")?;
            }
        }
        Ok(out)
    }

    /// Where the edited function begins.
    pub fn function(self, text: &str) -> Option<usize> {
        let from = match self {
            Input::Wide(Place::Middle, _) => text.len() / 2,
            Input::Functions(_) => text.len() / 2,
            Input::Wide(Place::End, _) => text.len().saturating_sub(1_200),
            _ => 0,
        };
        match text.get(from..)?.find("fn ") {
            Some(found) => from.checked_add(found),
            // There is one function alone.
            None => Some(0),
        }
    }
}
