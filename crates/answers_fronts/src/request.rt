//! The parts of a request.

use crate::stopped::Stopped;
use std::alloc::{AllocError, Global};

// What the letter after a backslash stands for.
fn escape(letter: char) -> char {
    match letter {
        'n' => '\n',
        't' => '\t',
        'r' => '\r',
        other => other,
    }
}

/// The text with its escapes replaced.
pub fn unescaped(alloc: Global, text: &str) -> Result<String, AllocError> {
    let mut out = String::new(alloc);
    let mut behind = false;
    for c in text.chars() {
        if behind {
            out.push(escape(c))?;
            behind = false;
        } else if c == '\\' {
            behind = true;
        } else {
            out.push(c)?;
        }
    }
    Ok(out)
}

/// The number that digits write.
pub fn number(text: &str) -> Result<u32, Stopped> {
    match text.parse::<u32>() {
        Ok(number) => Ok(number),
        Err(_) => Err(Stopped::NoRequest),
    }
}
