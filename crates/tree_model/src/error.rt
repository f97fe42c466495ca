//! The errors of `finish` and `replace_with`.
ghost use Rattle.std.specs.Prelude.{◌≡◌};
ghost use Rattle.tree_model.specs.declared.error.ReplaceError.TheVariants.{Memory};

use std::alloc::AllocError;

/// Why a builder's events do not build a tree. If several variants apply, `finish` returns the
/// first of them.
#[derive(Clone, Copy, Debug, PartialEq, Eq, Hash, thiserror::Error)]
pub enum FinishError {
    /// The text is longer than 4,294,967,295 bytes.
    #[error("the text is longer than 4294967295 bytes")]
    TooLong,
    /// Some prefix of the events has more exits than enters.
    #[error("more nodes are left than were entered")]
    OverClosed,
    /// There are more enters than exits in all.
    #[error("a node is not left")]
    Unclosed,
    /// There is no top element.
    #[error("there are no events")]
    Empty,
    /// There are two or more top elements.
    #[error("there is more than one root")]
    ManyRoots,
    /// The one top element is a token.
    #[error("the root is a token")]
    TokenRoot,
    /// The position of an error is past the end of the text. Only a builder that takes errors
    /// returns this; `TreeBuilder` never does.
    #[error("an error is past the text")]
    ErrorPastText,
    /// Out of memory. All other variants take precedence.
    #[error("out of memory")]
    Memory,
}

/// Why a node or token could not be replaced.
#[derive(Clone, Copy, Debug, PartialEq, Eq, Hash, thiserror::Error)]
pub enum ReplaceError {
    /// The new tree's text would be longer than 4,294,967,295 bytes.
    #[error("the text is longer than 4294967295 bytes")]
    TooLong,
    /// Out of memory. The other variant takes precedence.
    #[error("out of memory")]
    Memory,
}

impl From<AllocError> for ReplaceError {
    ghost from_gives = { λ _ e. e ≡ Memory };

    fn from(_e: AllocError) -> ReplaceError {
        ReplaceError::Memory
    }
}
