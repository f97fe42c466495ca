//! Answers of `gitignore`, to be compared with those of git.
//!
//! Standard input holds, for each case, a line with the length in bytes of an ignore file and the
//! number of paths, the file, and a line for each path, a folder's with a slash at its end. It
//! prints a line for each case, with a `1` for each path that is ignored and a `0` for another.
#![tactic(auto)]

use gitignore::{IgnoreFile, is_ignored, rules_of};
use std::io;

// The first word of a line and the others.
fn numbers(line: &str) -> Option<(usize, usize)> {
    let (length, count) = line.split_once(' ')?;
    match (length.parse::<usize>(), count.parse::<usize>()) {
        (Ok(length), Ok(count)) => Some((length, count)),
        _ => None,
    }
}

fn answer(rt: &HostRuntime, files: &[IgnoreFile], path: &str) -> anyhow::Result<bool> {
    let (path, is_folder) = match path.strip_suffix('/') {
        Some(path) => (path, true),
        None => (path, false),
    };
    Ok(is_ignored(rt.alloc(), files, path.as_bytes(), is_folder)?)
}

// Prints the answers of a case. Returns what follows it.
fn case<'a>(rt: &HostRuntime, text: &'a str) -> anyhow::Result<Option<&'a str>> {
    let Some((head, rest)) = text.split_once('\n') else {
        return Ok(None);
    };
    let Some((length, count)) = numbers(head) else {
        return Ok(None);
    };
    let Some((file, paths)) = rest.split_at_checked(length) else {
        return Ok(None);
    };
    let rules = rules_of(rt.alloc(), file.as_bytes())?;
    let files = vec![in rt.alloc(); IgnoreFile { folder: 0, rules }]?;
    let mut rest = paths;
    let mut out = String::new(rt.alloc());
    for _path in 0..count {
        let (path, behind) = rest.split_once('\n').unwrap_or((rest, ""));
        out.push_str(if answer(rt, files.as_slice(), path)? {
            "1"
        } else {
            "0"
        })?;
        rest = behind;
    }
    println!(rt; "{out}")?;
    Ok(Some(rest))
}

fn main(rt: HostRuntime) -> anyhow::Result<()> {
    let text = io::read_to_string(rt.alloc(), rt.reader())?;
    let mut rest = text.as_str();
    for _case in 0..text.len() {
        match case(&rt, rest)? {
            Some(behind) => rest = behind,
            None => break,
        }
    }
    Ok(())
}
