//! What a token is.
ghost use Rattle.std.specs.Prelude.{◌≡◌};
ghost use Rattle.rust_lexer.specs.Shapes.{plain_of, with_of};

use crate::problem::Problem;
use literal_escape::Mode;
use syntax_kind::SyntaxKind;

/// What is wrong with a token, or has to be looked at to know it.
#[derive(Clone, Copy)]
pub enum Check {
    /// No problem.
    No,
    /// This problem.
    Is(Problem),
    /// A prefix that no literal has.
    Prefix,
    /// The problems of the content of a literal of this mode. The numbers are the bytes of the
    /// token before the content, and the bytes of the text after it.
    Content(Mode, usize, usize),
}

/// The first token of a text.
#[derive(Clone, Copy)]
pub struct Shape {
    /// Its kind.
    pub kind: SyntaxKind,
    /// The number of bytes of the text after it.
    pub left: usize,
    /// What may be wrong with it.
    pub check: Check,
}

impl Shape {
    /// A token without a problem.
    #[inline]
    pub fn plain(kind: SyntaxKind, left: usize) -> Shape
        ensures { result ≡ plain_of kind left }
    {
        Shape {
            kind,
            left,
            check: Check::No,
        }
    }

    /// A token with this problem.
    pub fn with(kind: SyntaxKind, left: usize, problem: Problem) -> Shape
        ensures { result ≡ with_of kind left problem }
    {
        Shape {
            kind,
            left,
            check: Check::Is(problem),
        }
    }
}
