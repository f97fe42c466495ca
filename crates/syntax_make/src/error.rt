//! Why no node is made, and why no expression is replaced.
ghost use Rattle.std.specs.Prelude.{◌≡◌};
ghost use Rattle.syntax_make.specs.Failures.{is_misread};

use lossless_tree::ReplaceError;
use ras_front_end::{ParseError, SyntaxError};
use std::alloc::AllocError;

/// Why no node is made of a text.
#[derive(Debug, Drop, thiserror::Error)]
pub enum MakeError {
    /// The text has errors where it stands: the first of them. Its range is that in the
    /// surroundings.
    #[error("{0}")]
    Syntax(SyntaxError),
    /// There are no errors, but the text is not exactly one such node, or does not hold the nodes
    /// that were put into it.
    #[error("the text is not the node that was meant")]
    NotOne,
    /// No place is known where such a node stands: see [`PLACES`](crate::PLACES).
    #[error("no such node is made from a text")]
    NoPlace,
    /// The text with its surroundings is longer than 4,294,967,295 bytes.
    #[error("the text is longer than 4294967295 bytes")]
    TooLong,
    /// Out of memory.
    #[error("out of memory")]
    Memory,
}

/// Whether an error depends on what the text reads as.
pub(crate) fn is_misread(error: &MakeError) -> bool
    ensures { result ≡ is_misread error.now }
{
    matches!(error, MakeError::Syntax(_) | MakeError::NotOne)
}

impl From<AllocError> for MakeError {
    ghost use Rattle.std.specs.Prelude.{◌≡◌};
    ghost use Rattle.syntax_make.specs.declared.error.MakeError.TheVariants.{Memory};

    ghost from_gives = { λ _ r. r ≡ Memory };

    fn from(_error: AllocError) -> MakeError {
        MakeError::Memory
    }
}

impl From<ParseError> for MakeError {
    ghost use Rattle.std.specs.Prelude.{◌≡◌};
    ghost use Rattle.syntax_make.specs.Failures.{unread};

    ghost from_gives = { λ e r. r ≡ unread e };

    fn from(error: ParseError) -> MakeError {
        match error {
            ParseError::TooLong => MakeError::TooLong,
            ParseError::Memory => MakeError::Memory,
        }
    }
}

/// Why an expression is not put in the place of another.
#[derive(Clone, Copy, Debug, PartialEq, Eq, Drop, thiserror::Error)]
pub enum ReplaceExprError {
    /// Neither with nor without a pair of parentheses does the new text parse to the tree that is
    /// meant.
    #[error("the new text reads otherwise")]
    ReadsOtherwise,
    /// The new text is longer than 4,294,967,295 bytes.
    #[error("the text is longer than 4294967295 bytes")]
    TooLong,
    /// Out of memory.
    #[error("out of memory")]
    Memory,
}

impl From<AllocError> for ReplaceExprError {
    ghost use Rattle.std.specs.Prelude.{◌≡◌};
    ghost use Rattle.syntax_make.specs.declared.error.ReplaceExprError.TheVariants.{Memory};

    ghost from_gives = { λ _ r. r ≡ Memory };

    fn from(_error: AllocError) -> ReplaceExprError {
        ReplaceExprError::Memory
    }
}

impl From<ReplaceError> for ReplaceExprError {
    ghost use Rattle.std.specs.Prelude.{◌≡◌};
    ghost use Rattle.syntax_make.specs.Failures.{unplaced};

    ghost from_gives = { λ e r. r ≡ unplaced e };

    fn from(error: ReplaceError) -> ReplaceExprError {
        match error {
            ReplaceError::TooLong => ReplaceExprError::TooLong,
            ReplaceError::Memory => ReplaceExprError::Memory,
        }
    }
}

impl From<ParseError> for ReplaceExprError {
    ghost use Rattle.std.specs.Prelude.{◌≡◌};
    ghost use Rattle.syntax_make.specs.Failures.{unparsed};

    ghost from_gives = { λ e r. r ≡ unparsed e };

    fn from(error: ParseError) -> ReplaceExprError {
        match error {
            ParseError::TooLong => ReplaceExprError::TooLong,
            ParseError::Memory => ReplaceExprError::Memory,
        }
    }
}
