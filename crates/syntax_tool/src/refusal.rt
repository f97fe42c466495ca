//! Why the program refuses its input.
ghost use Rattle.std.specs.Prelude.{◌≡◌};

use ra_ap_syntax::{FinishError, ParseError};
use std::alloc::AllocError;

/// Why the program prints no result. It prints the name of the variant.
#[derive(Clone, Copy, Debug, PartialEq, Eq, Hash)]
pub enum Refusal {
    /// The reader failed, or was not at its end after `u64::MAX` reads.
    Read,
    /// The input is not UTF-8. This is checked first.
    NotUtf8,
    /// A line has none of the forms of an event; for `reparse`: the first line is not two numbers,
    /// or the second has a backslash that begins no escape.
    BadLine,
    /// A line has the form of an event, but names no kind.
    BadKind,
    /// A range ends before it starts, does not lie in the text on character boundaries, or ends at
    /// 2^32 or later.
    BadRange,
    /// The root of the tree of an expression's text is not an expression.
    OtherRoot,
    /// The text is longer than 4,294,967,295 bytes.
    TooLong,
    /// A prefix of the events has more exits than enters.
    OverClosed,
    /// There are more enters than exits in all.
    Unclosed,
    /// There is no top element.
    Empty,
    /// There are two or more top elements.
    ManyRoots,
    /// The one top element is a token.
    TokenRoot,
    /// An error's position is past the text. Events have no errors, so no command returns it.
    ErrorPastText,
    /// Out of memory.
    Memory,
}

impl Refusal {
    ghost use Rattle.syntax_tool.specs.Output.{refused};

    /// The line that the program prints: `refused: NAME` and a newline.
    pub fn line(self) -> &'static str
        ensures { result.now ≡ (refused self).text }
    {
        match self {
            Refusal::Read => "refused: Read\n",
            Refusal::NotUtf8 => "refused: NotUtf8\n",
            Refusal::BadLine => "refused: BadLine\n",
            Refusal::BadKind => "refused: BadKind\n",
            Refusal::BadRange => "refused: BadRange\n",
            Refusal::OtherRoot => "refused: OtherRoot\n",
            Refusal::TooLong => "refused: TooLong\n",
            Refusal::OverClosed => "refused: OverClosed\n",
            Refusal::Unclosed => "refused: Unclosed\n",
            Refusal::Empty => "refused: Empty\n",
            Refusal::ManyRoots => "refused: ManyRoots\n",
            Refusal::TokenRoot => "refused: TokenRoot\n",
            Refusal::ErrorPastText => "refused: ErrorPastText\n",
            Refusal::Memory => "refused: Memory\n",
        }
    }
}

impl From<FinishError> for Refusal {
    ghost use Rattle.std.specs.Prelude.{◌≡◌};
    ghost use Rattle.syntax_tool.specs.Output.{refusal_of_finish};

    ghost from_gives = { λ e r. r ≡ refusal_of_finish e };

    fn from(error: FinishError) -> Refusal {
        match error {
            FinishError::TooLong => Refusal::TooLong,
            FinishError::OverClosed => Refusal::OverClosed,
            FinishError::Unclosed => Refusal::Unclosed,
            FinishError::Empty => Refusal::Empty,
            FinishError::ManyRoots => Refusal::ManyRoots,
            FinishError::TokenRoot => Refusal::TokenRoot,
            FinishError::ErrorPastText => Refusal::ErrorPastText,
            FinishError::Memory => Refusal::Memory,
        }
    }
}

impl From<ParseError> for Refusal {
    ghost use Rattle.std.specs.Prelude.{◌≡◌};
    ghost use Rattle.syntax_tool.specs.Output.{refusal_of_parse};

    ghost from_gives = { λ e r. r ≡ refusal_of_parse e };

    fn from(error: ParseError) -> Refusal {
        match error {
            ParseError::TooLong => Refusal::TooLong,
            ParseError::Memory => Refusal::Memory,
        }
    }
}

impl From<AllocError> for Refusal {
    ghost use Rattle.std.specs.Prelude.{◌≡◌};
    ghost use Rattle.syntax_tool.specs.declared.refusal.Refusal.TheVariants.{Memory};

    ghost from_gives = { λ _ r. r ≡ Memory };

    fn from(_error: AllocError) -> Refusal {
        Refusal::Memory
    }
}
