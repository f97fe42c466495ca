//! A message at a range of a text.
ghost use Rattle.std.specs.Prelude.{◌≡◌, string_bytes};
ghost use Rattle.ras_front_end.specs.ErrorModel.{fault_at};

use std::alloc::AllocError;
use std::fmt;
use std::hash::{Hash, Hasher};
use std::marker::Model;
use text_size::{TextRange, TextSize};

/// An error message and the range of the text that it is about. A clause sees the message's bytes
/// and the range.
///
/// Two are equal where message and range are. It prints as its message.
#[derive(Debug, Drop)]
pub struct SyntaxError {
    message: String,
    range: TextRange,
}

impl Model for SyntaxError {
    ghost use Rattle.std.specs.Prelude.{string_bytes};
    ghost use Rattle.ras_front_end.specs.ErrorModel.{ErrorModel, fault_code};

    ghost Value = { ErrorModel };

    ghost coded = { fault_code };

    ghost view = { λ e. record { message = string_bytes e.message; range = e.range } };
}

impl SyntaxError {
    /// The message at a range.
    pub fn new(message: String, range: TextRange) -> SyntaxError
        ensures { result ≡ record { message = string_bytes message; range = range } }
    {
        SyntaxError { message, range }
    }

    /// The message at an offset: the range is empty.
    pub fn new_at_offset(message: String, offset: TextSize) -> SyntaxError
        ensures { result ≡ fault_at (string_bytes message) offset }
    {
        SyntaxError {
            message,
            range: TextRange::empty(offset),
        }
    }

    /// The message.
    pub fn message(&self) -> &str
        ensures { result.now ≡ self.now.message }
    {
        &self.message
    }

    /// The range in the text, in bytes.
    pub fn range(&self) -> TextRange
        ensures { result ≡ self.now.range }
    {
        self.range
    }

    /// The error with another range.
    pub fn with_range(self, range: TextRange) -> SyntaxError
        ensures { result ≡ record { message = self.message; range = range } }
    {
        let SyntaxError { message, range: _ } = self;
        SyntaxError { message, range }
    }
}

impl Clone for SyntaxError {
    ghost use Rattle.std.specs.Prelude.{◌≡◌};

    ghost is_clone = { λ e copy. copy ≡ e };

    fn clone(&self) -> Result<SyntaxError, AllocError> {
        let message = self.message.clone()?;
        Ok(SyntaxError {
            message,
            range: self.range,
        })
    }
}

impl fmt::Display for SyntaxError {
    ghost use Rattle.std.specs.Prelude.{Some};

    ghost output = { λ e. Some e.message };

    fn fmt<W: fmt::Write>(&self, f: &mut fmt::Formatter<W>) -> fmt::Result {
        f.write_str(&self.message)
    }
}

impl std::error::Error for SyntaxError {}

impl PartialEq for SyntaxError {
    ghost use Rattle.ras_front_end.specs.ErrorEquality.{is_same_fault, faults_equivalence};
    ghost use Rattle.std.specs.Cmp.{partial_equiv_from_equiv};

    ghost eq = { is_same_fault };

    ghost laws = { partial_equiv_from_equiv faults_equivalence };

    fn eq(&self, other: &SyntaxError) -> bool {
        self.message == other.message && self.range == other.range
    }
}

impl Eq for SyntaxError {
    ghost use Rattle.ras_front_end.specs.ErrorEquality.{faults_equivalence};

    ghost laws = { faults_equivalence };
}

impl Hash for SyntaxError {
    ghost use Rattle.ras_front_end.specs.ErrorEquality.{fault_hash, faults_alike};

    ghost hash_input = { fault_hash };

    ghost respects_eq = { faults_alike };

    fn hash<H: Hasher>(&self, state: &mut H) {
        self.message.hash(state);
        self.range.hash(state);
    }
}
