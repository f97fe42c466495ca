//! The error of a failed parse.

use std::alloc::AllocError;

/// Why parsing failed. Syntax errors are not a failure; they are kept in the `Parse`.
#[derive(Clone, Copy, Debug, PartialEq, Eq, Hash, thiserror::Error)]
pub enum ParseError {
    /// The text is longer than 4,294,967,295 bytes. This is checked first.
    #[error("the text is longer than 4294967295 bytes")]
    TooLong,
    /// Out of memory.
    #[error("out of memory")]
    Memory,
}

impl From<AllocError> for ParseError {
    ghost use Rattle.std.specs.Prelude.{◌≡◌};
    ghost use Rattle.ras_front_end.specs.declared.parse_error.ParseError.TheVariants.{Memory};

    ghost from_gives = { λ _ r. r ≡ Memory };

    fn from(_error: AllocError) -> ParseError {
        ParseError::Memory
    }
}
