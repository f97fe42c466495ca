//! Errors that end the report on a file: their messages, and the exit status.

use crate::session::{UNREAD, USAGE};
use rust_print::failure::Failure;
use rust_print::shown::name;
use std::io;

/// The exit status of a run in which a file has this error.
pub fn status_of(failure: &Failure) -> u8 {
    match failure {
        Failure::Place(_) | Failure::Range(_) => USAGE,
        Failure::Output(_)
        | Failure::Text(_)
        | Failure::File(_)
        | Failure::Outside
        | Failure::Kept(_)
        | Failure::Beside(..) => UNREAD,
    }
}

/// Reports the error of a file on standard error. Returns it if it is one of the output.
pub fn tell(rt: &HostRuntime, failure: Failure, path: &str) -> io::Result<()> {
    let file = name(path);
    match failure {
        Failure::Output(error) => Err(error),
        Failure::Text(error) => eprintln!(rt; "rust_tree: {file}: {error}"),
        Failure::File(error) => eprintln!(rt; "rust_tree: {file}: {error}"),
        Failure::Outside => {
            eprintln!(rt; "rust_tree: {file}: not changed, since it leads out of the folder")
        }
        Failure::Beside(new, error) => {
            eprintln!(rt;
                "rust_tree: {file}: not changed, since {} could not be written: {error}",
                name(new.as_str())
            )
        }
        Failure::Kept(reason) => eprintln!(rt; "rust_tree: {file}: not changed: {reason}"),
        Failure::Place(place) => eprintln!(rt; "rust_tree: {file}: no place {place}"),
        Failure::Range(range) => eprintln!(rt; "rust_tree: {file}: no range {range}"),
    }
}
