//! Why a change is refused.
ghost use Rattle.std.specs.Prelude.{◌≡◌};
ghost use Rattle.tree_edits.specs.declared.error.ChangeError.TheVariants.{Memory};

use std::alloc::AllocError;

/// Why a change is not taken, or the new tree not made. Of several reasons, the first of this list
/// is named.
#[derive(Clone, Copy, Debug, PartialEq, Eq, Drop, thiserror::Error)]
pub enum ChangeError {
    /// The position is one in another tree. Only a caller that knows positions of several trees
    /// says so.
    #[error("the position is in another tree")]
    OtherTree,
    /// The last element of a run is not the first one, nor a sibling after it.
    #[error("the last element is not a sibling after the first")]
    NotSiblings,
    /// The change is before, after or in the place of the root.
    #[error("the root has no siblings, and is not replaced")]
    Root,
    /// A child is put into a token.
    #[error("a token has no children")]
    Token,
    /// The element is replaced or deleted already.
    #[error("the element is replaced already")]
    Replaced,
    /// The element is inside one that is replaced or deleted.
    #[error("the element is inside one that is replaced")]
    InReplaced,
    /// Something inside the element is changed already, so that it cannot be replaced.
    #[error("something inside the element is changed already")]
    ChangedInside,
    /// The new text is longer than 4,294,967,295 bytes.
    #[error("the text is longer than 4294967295 bytes")]
    TooLong,
    /// Out of memory.
    #[error("out of memory")]
    Memory,
}

impl From<AllocError> for ChangeError {
    ghost from_gives = { λ _ e. e ≡ Memory };

    fn from(_e: AllocError) -> ChangeError {
        ChangeError::Memory
    }
}
