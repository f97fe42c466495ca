//! Why an edit is refused.
ghost use Rattle.std.specs.Prelude.{◌≡◌};
ghost use Rattle.text_edit.specs.declared.error.OverlapError.TheVariants as overlap;
ghost use Rattle.text_edit.specs.declared.error.ApplyError.TheVariants as apply;

use std::alloc::AllocError;

/// Why a replacement is not added to an edit.
#[derive(Clone, Copy, Debug, PartialEq, Eq, Drop, thiserror::Error)]
pub enum OverlapError {
    /// A range overlaps one that is replaced already.
    #[error("the range overlaps one that is replaced already")]
    Overlap,
    /// Out of memory; no range overlaps another.
    #[error("out of memory")]
    Memory,
}

impl From<AllocError> for OverlapError {
    ghost from_gives = { λ _ e. e ≡ overlap.Memory };

    fn from(_e: AllocError) -> OverlapError {
        OverlapError::Memory
    }
}

/// Why an edit is not made in a text. Of several reasons, the first of this list is named.
#[derive(Clone, Copy, Debug, PartialEq, Eq, Drop, thiserror::Error)]
pub enum ApplyError {
    /// A range ends after the text.
    #[error("a range ends after the text")]
    PastEnd,
    /// A range starts or ends inside a character.
    #[error("a range starts or ends inside a character")]
    InsideCharacter,
    /// The new text is longer than 4,294,967,295 bytes.
    #[error("the text is longer than 4294967295 bytes")]
    TooLong,
    /// Out of memory.
    #[error("out of memory")]
    Memory,
}

impl From<AllocError> for ApplyError {
    ghost from_gives = { λ _ e. e ≡ apply.Memory };

    fn from(_e: AllocError) -> ApplyError {
        ApplyError::Memory
    }
}
