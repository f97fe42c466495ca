//! A violation: which rule is broken, and where.
ghost use Rattle.std.specs.Prelude.{◌≡◌, Some};
ghost use Rattle.ras_validation.specs.Messages.{text_of};

use literal_escape::EscapeError;
use std::fmt;
use text_size::TextRange;

/// Which rule is broken. It prints as the message of a diagnostic.
#[derive(Clone, Copy, Debug, PartialEq, Eq)]
pub enum ViolationMessage {
    /// A unit of a literal has a fatal fault. The range is empty: at the start of the unit, or for
    /// a character or a byte at the start of the content.
    Escape(EscapeError),
    /// A `const` is followed by `mut`: the range is that of the `mut`.
    MutableConst,
    /// An inner attribute is in a block that may not have any: the attribute's range.
    InnerAttribute,
    /// A field is named by a number with underscores, a base or a suffix: the number's range.
    NumericName,
    /// A visibility names a path of one identifier without `in`: the visibility's range.
    VisibilityPath,
    /// A function, a constant or a type alias of the implementation of a trait has a visibility,
    /// and the implementation has no attribute: the visibility's range.
    VisibilityInTrait,
    /// A range by `..=` has no end: the range of the whole expression.
    RangeWithoutEnd,
    /// `self` is neither at the start nor at the end of its path: the keyword's range.
    SelfInPath,
    /// `crate` does not begin its path, or the path is under a prefix of a `use`: the keyword's
    /// range.
    CrateInPath,
    /// A `dyn` or `impl` type with two bounds or more is the target of a reference or a raw
    /// pointer, or the return type of a function pointer, and the token before its keyword is not
    /// one of `(`, `<` and `=`: the range of the `dyn` or `impl` type.
    AmbiguousPlus,
    /// A `dyn` or `impl` has a list of bounds in which no bound has a type: the range of the `dyn`
    /// or `impl` type.
    NoTrait,
    /// A `macro_rules!` has a visibility: the visibility's range.
    MacroRulesVisibility,
    /// A `let` is not part of a condition: the range of the whole expression.
    MisplacedLet,
}

impl ViolationMessage {
    /// The message of a diagnostic. The message about a bare carriage return contains one (byte
    /// 0D).
    pub fn text(self) -> &'static str
        ensures { result.now ≡ text_of self }
    {
        match self {
            ViolationMessage::Escape(fault) => fault.message(),
            ViolationMessage::MutableConst => "const globals cannot be mutable",
            ViolationMessage::InnerAttribute => {
                "A block in this position cannot accept inner attributes"
            }
            ViolationMessage::NumericName => {
                "Tuple (struct) field access is only allowed through decimal integers with no underscores or suffix"
            }
            ViolationMessage::VisibilityPath => "incorrect visibility restriction",
            ViolationMessage::VisibilityInTrait => "Unnecessary visibility qualifier",
            ViolationMessage::RangeWithoutEnd => "An inclusive range must have an end expression",
            ViolationMessage::SelfInPath => {
                "The `self` keyword is only allowed at the start or at the end of a path"
            }
            ViolationMessage::CrateInPath => {
                "The `crate` keyword is only allowed as the first segment of a path"
            }
            ViolationMessage::AmbiguousPlus => "ambiguous `+` in a type",
            ViolationMessage::NoTrait => "At least one trait is required for an object type",
            ViolationMessage::MacroRulesVisibility => {
                "visibilities are not allowed on `macro_rules!` items"
            }
            ViolationMessage::MisplacedLet => "`let` expressions are not supported here",
        }
    }
}

impl fmt::Display for ViolationMessage {
    ghost output = { λ message. Some (text_of message) };

    fn fmt<W: fmt::Write>(&self, f: &mut fmt::Formatter<W>) -> fmt::Result {
        let text = self.text();
        write!(f, "{text}")
    }
}

/// A broken rule, and the range of the text that breaks it.
#[derive(Clone, Copy, Debug, PartialEq, Eq)]
pub struct Violation {
    /// The rule that is broken; for a literal also how.
    pub message: ViolationMessage,
    /// The range that breaks it, as documented for each variant of `ViolationMessage`.
    pub range: TextRange,
}

impl Violation {
    /// The message of a diagnostic.
    pub fn message(&self) -> &'static str
        ensures { result.now ≡ text_of self.now.message }
    {
        self.message.text()
    }
}
