//! Errors that end the report on a file.

use lossless_tree::TextRange;
use ras_front_end::ParseError;
use rust_report::Spot;
use std::alloc::AllocError;
use std::io;

/// An error that ends the report on a file.
#[derive(Drop)]
pub enum Failure {
    /// The output cannot be written, so the run ends.
    Output(io::Error),
    /// The text cannot be parsed.
    Text(ParseError),
    /// The file cannot be written.
    File(io::Error),
    /// The file was found by a search and leads out of the folder that was searched, so it is not
    /// written.
    Outside,
    /// The new file beside this one, with this path, cannot be written.
    Beside(String, io::Error),
    /// The text has no such place.
    Place(Spot),
    /// The text ends before this range does.
    Range(TextRange),
    /// The matches of the file are not replaced, for this reason.
    Kept(&'static str),
}

impl From<io::Error> for Failure {
    fn from(error: io::Error) -> Failure {
        Failure::Output(error)
    }
}

impl From<ParseError> for Failure {
    fn from(error: ParseError) -> Failure {
        Failure::Text(error)
    }
}

impl From<AllocError> for Failure {
    fn from(_error: AllocError) -> Failure {
        Failure::Text(ParseError::Memory)
    }
}
