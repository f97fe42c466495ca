//! Why the matches of a text are not replaced.

use ras_front_end::ParseError;
use std::alloc::AllocError;
use text_edit::{ApplyError, OverlapError};

/// Why the matches of a text are not replaced.
#[derive(Clone, Copy, Debug, PartialEq, Eq, Drop, thiserror::Error)]
pub enum RewriteError {
    /// The new text does not parse to the tree that is meant, or it has more errors, those of
    /// validation among them, or a pattern to which rustc wants parentheses.
    #[error("the new text reads otherwise")]
    ReadsOtherwise,
    /// A comment would be lost: it is in what stands for a placeholder that is not in the template.
    #[error("a comment would be lost")]
    LosesComment,
    /// The new text is too long: more than sixteen times as long as the old one and 1 MiB, or than
    /// 4,294,967,295 bytes.
    #[error("the new text is too long")]
    TooLong,
    /// Out of memory.
    #[error("out of memory")]
    Memory,
}

impl From<AllocError> for RewriteError {
    ghost use Rattle.std.specs.Prelude.{◌≡◌};
    ghost use Rattle.rust_rewrite.specs.declared.refusal.RewriteError.TheVariants.{Memory};

    ghost from_gives = { λ _ e. e ≡ Memory };

    fn from(_error: AllocError) -> RewriteError {
        RewriteError::Memory
    }
}

/// Why a text is not put together, or is not what it should be. Each is a [`RewriteError`] of its
/// name.
#[derive(Clone, Copy, Drop)]
pub(crate) enum Failure {
    ReadsOtherwise,
    TooLong,
    Memory,
}

impl From<AllocError> for Failure {
    fn from(_error: AllocError) -> Failure {
        Failure::Memory
    }
}

impl From<ParseError> for Failure {
    fn from(error: ParseError) -> Failure {
        match error {
            ParseError::TooLong => Failure::TooLong,
            ParseError::Memory => Failure::Memory,
        }
    }
}

impl From<OverlapError> for Failure {
    fn from(error: OverlapError) -> Failure {
        match error {
            OverlapError::Overlap => Failure::ReadsOtherwise,
            OverlapError::Memory => Failure::Memory,
        }
    }
}

impl From<ApplyError> for Failure {
    fn from(error: ApplyError) -> Failure {
        match error {
            ApplyError::PastEnd | ApplyError::InsideCharacter => Failure::ReadsOtherwise,
            ApplyError::TooLong => Failure::TooLong,
            ApplyError::Memory => Failure::Memory,
        }
    }
}

impl From<Failure> for RewriteError {
    ghost use Rattle.rust_rewrite.specs.Rewrites.{error_of};
    ghost use Rattle.std.specs.Prelude.{◌≡◌};

    ghost from_gives = { λ failure e. e ≡ error_of failure };

    fn from(failure: Failure) -> RewriteError {
        match failure {
            Failure::ReadsOtherwise => RewriteError::ReadsOtherwise,
            Failure::TooLong => RewriteError::TooLong,
            Failure::Memory => RewriteError::Memory,
        }
    }
}
