//! Why a rule is refused.
ghost use Rattle.std.specs.Prelude.{◌≡◌};

use ras_front_end::ParseError;
use std::alloc::AllocError;
use std::error::Error;
use std::fmt;

/// What is wrong with a rule.
#[derive(Debug, Drop)]
pub enum RuleFault {
    /// There is no `==>>`.
    NoArrow,
    /// There is a second `==>>`, or one in a pattern without a template.
    FurtherArrow,
    /// No name follows directly behind a `$`.
    NoName,
    /// Behind the name or a condition of a placeholder in braces is neither `:` nor `}`.
    NoBrace,
    /// A placeholder in braces has a `:` without a condition.
    NoCondition,
    /// The `(` of a condition is missing.
    NoOpening,
    /// The `)` of a condition is missing.
    NoClosing,
    /// The word in `kind(..)` names no kind.
    UnknownKind(String),
    /// In `text(..)` is no regular expression between two `/`.
    NoRegex,
    /// The regular expression in `text(/../)` is not well formed.
    BadRegex(regex::Error),
    /// A placeholder of a template has conditions.
    TemplateCondition,
    /// A word stands directly before a `$`.
    Joined,
    /// The template has a placeholder that the pattern has not.
    Unknown,
    /// The text is of no kind that it could be: the name of the kind of which most of it was read,
    /// and what the parser says.
    Syntax(String),
    /// A placeholder stands where nothing is that it can stand for, as in the arguments of a macro.
    Misplaced,
    /// A placeholder has one `$` here and two of them there.
    ListName,
    /// A placeholder for a list comes twice in a side, or beside another one in one list.
    ListTwice,
    /// The pattern is a placeholder, which each expression is.
    Everything,
    /// The rule is too long.
    TooLong,
    /// Out of memory.
    Memory,
}

fn write_unknown<W: fmt::Write>(f: &mut fmt::Formatter<W>, word: &str) -> fmt::Result {
    write!(
        f,
        "expected the name of a kind, as `literal`, not `{word}`; `tree` shows the kinds of a text"
    )
}

impl RuleFault {
    // What is wrong, but for the faults that have a text of their own.
    fn told(&self) -> &'static str {
        match self {
            RuleFault::NoArrow => "expected `==>>` between a pattern and a template",
            RuleFault::FurtherArrow => "expected one pattern, without a further `==>>`",
            RuleFault::NoName => "expected the name of a placeholder behind `$`",
            RuleFault::NoBrace => "expected `:` and a condition, or `}`",
            RuleFault::NoCondition => "expected a condition: `kind(..)`, `text(/../)` or `not(..)`",
            RuleFault::NoOpening => "expected `(`",
            RuleFault::NoClosing => "expected `)`",
            RuleFault::NoRegex => "expected a regular expression between `/` and `/`",
            RuleFault::TemplateCondition =>
                "expected the condition in the pattern, not in the template",
            RuleFault::Joined => "expected white space before the placeholder",
            RuleFault::Unknown => "expected a placeholder of the pattern",
            RuleFault::Misplaced =>
                "expected a place of an expression, a type, a pattern, a path or a name for this placeholder",
            RuleFault::ListName =>
                "expected one `$` or two before this name, as where it stands first",
            RuleFault::ListTwice =>
                "expected one placeholder for a list, which comes once, in each list",
            RuleFault::Everything => "expected a pattern that is more than a placeholder",
            RuleFault::TooLong => "the rule is longer than 4294967295 bytes",
            RuleFault::Memory => "out of memory",
            RuleFault::UnknownKind(_) | RuleFault::BadRegex(_) | RuleFault::Syntax(_) => "",
        }
    }
}

impl fmt::Display for RuleFault {
    fn fmt<W: fmt::Write>(&self, f: &mut fmt::Formatter<W>) -> fmt::Result {
        match self {
            RuleFault::UnknownKind(word) => write_unknown(f, word.as_str()),
            RuleFault::BadRegex(error) => write!(f, "{error}"),
            RuleFault::Syntax(told) => write!(f, "this is no {told}"),
            _ => f.write_str(self.told()),
        }
    }
}

impl Error for RuleFault {}

/// Why a rule is refused, and where.
#[derive(Debug, Drop, thiserror::Error)]
#[error("{fault}")]
pub struct RuleError {
    /// What is wrong.
    pub fault: RuleFault,
    /// The offset in the rule, in bytes.
    pub offset: usize,
}

impl From<AllocError> for RuleError {
    ghost use Rattle.std.specs.Prelude.{◌≡◌};
    ghost use Rattle.rust_rewrite.specs.declared.error.RuleFault.TheVariants.{Memory};

    ghost from_gives = { λ _ e. e.fault ≡ Memory };

    fn from(_error: AllocError) -> RuleError {
        RuleError {
            fault: RuleFault::Memory,
            offset: 0,
        }
    }
}

impl From<ParseError> for RuleError {
    ghost use Rattle.std.specs.Prelude.{◌≡◌, true};
    ghost use Rattle.rust_rewrite.specs.Rules.{is_other};

    ghost from_gives = { λ _ e. is_other e.fault ≡ true };

    fn from(error: ParseError) -> RuleError {
        let fault = match error {
            ParseError::TooLong => RuleFault::TooLong,
            ParseError::Memory => RuleFault::Memory,
        };
        RuleError { fault, offset: 0 }
    }
}

/// A fault at an offset of the rule.
pub(crate) fn fault(fault: RuleFault, offset: usize) -> RuleError
    ensures { (result.fault ≡ fault) × (result.offset ≡ offset) }
{
    RuleError { fault, offset }
}
