//! The error of `Parse::ok`.

use crate::parse::Parse;
use ras_front_end::SyntaxError;

/// Why [`Parse::ok`] returns no tree. Each variant contains the parse.
#[derive(Drop)]
pub enum OkError<T> {
    /// There are errors: all of them, as [`Parse::errors`] returns them.
    Errors(Vec<SyntaxError>, Parse<T>),
    /// There are no errors, but the root is of another kind.
    OtherRoot(Parse<T>),
    /// Out of memory.
    Memory(Parse<T>),
}
