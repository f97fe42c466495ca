// Reports, and the state of the reader.
ghost use Rattle.std.specs.Prelude.{◌≡◌, ◌<◌, ◌+◌, ◌^◌, MatchOption};
ghost use Rattle.std.specs.Result.{ForOk};
ghost use Rattle.std.specs.Char.{len_utf8};
ghost use Rattle.literal_escape.specs.Reading.{report_of, fresh_of, warning_of, warned_of, read_report_of, read_of, end_report_of};

use crate::error::EscapeError;
use crate::mode::{MixedUnit, Mode};
use crate::progress::{State, Step, advance, end_fault, is_blank};
use std::ops::Range;

/// A unit or a warning: its range in bytes, and its meaning or fault.
#[derive(Clone, Copy)]
pub struct Report {
    pub start: usize,
    pub end: usize,
    pub unit: Result<MixedUnit, EscapeError>,
}

impl Report {
    ghost use Rattle.literal_escape.specs.Literal.{numbered, number_of};
    ghost use Rattle.literal_escape.specs.Pieces.{range_of};

    pub(crate) fn range(self) -> Range<usize>
        ensures { result ≡ range_of self }
    {
        self.start..self.end
    }

    pub(crate) fn as_char(self) -> Result<char, EscapeError>
        ensures { result ≡ numbered self.unit }
    {
        self.unit.map(MixedUnit::as_char)
    }

    pub(crate) fn as_byte(self) -> Result<u8, EscapeError>
        requires { ForOk self.unit (λ unit. number_of unit < 256) }
        ensures { result ≡ numbered self.unit }
    {
        match self.unit {
            Ok(unit) => Ok(unit.as_byte()),
            Err(fault) => Err(fault),
        }
    }
}

/// The state of the reader: `at` is the offset of the next character, `start` that of the piece
/// that is being read.
#[derive(Clone, Copy)]
pub struct Reader {
    pub mode: Mode,
    pub start: usize,
    pub at: usize,
    pub state: State,
}

impl Reader {
    /// A report on what has been read of the piece, which ends here.
    pub fn finish(&mut self, unit: Result<MixedUnit, EscapeError>) -> Report
        ensures report { result ≡ report_of self.old 0 unit }
        ensures reader { self.new ≡ fresh_of self.old }
    {
        let report = Report {
            start: self.start,
            end: self.at,
            unit,
        };
        self.start = self.at;
        self.state = State::Start;
        report
    }

    /// The next warning of a continuation that ends before this character.
    #[tactic(auto, unfolding(crate::specs::Reading::warning_of, crate::specs::Reading::warned_of))]
    pub fn warn(&mut self, c: char) -> Option<Report>
        requires { self.old.at + len_utf8 c < 2 ^ 64 }
        ensures report { result ≡ warning_of self.old c }
        ensures reader { self.new ≡ warned_of self.old c }
    {
        match self.state {
            State::Continuation { lines } if !is_blank(c) => {
                if lines {
                    self.state = State::Continuation { lines: false };
                    return Some(Report {
                        start: self.start,
                        end: self.at,
                        unit: Err(EscapeError::MultipleSkippedLinesWarning),
                    });
                }
                let mut warning = self.finish(Err(EscapeError::UnskippedWhitespaceWarning));
                warning.end += c.len_utf8();
                if c.is_whitespace() {
                    Some(warning)
                } else {
                    None
                }
            }
            _ => None,
        }
    }

    /// Reads one character. Returns the report of the piece that it ends, if it ends one.
    #[tactic(auto, unfolding(crate::specs::Reading::read_report_of, crate::specs::Reading::read_of))]
    pub fn read(&mut self, c: char) -> Option<Report>
        requires { self.old.at + len_utf8 c < 2 ^ 64 }
        ensures report { result ≡ read_report_of self.old c }
        ensures reader { self.new ≡ read_of self.old c }
    {
        self.at += c.len_utf8();
        match advance(self.mode, self.state, c) {
            Step::Go(state) => {
                self.state = state;
                None
            }
            Step::Unit(unit) => Some(self.finish(unit)),
        }
    }

    /// The report of the piece that the content's end cuts off.
    #[tactic(auto, unfolding(crate::specs::Reading::end_report_of))]
    pub fn end(&mut self) -> Option<Report>
        ensures report { result ≡ end_report_of self.old }
        ensures reader { MatchOption result (self.new ≡ self.old)
            (λ _. self.new ≡ fresh_of self.old) }
        ensures over { end_report_of self.new ≡ None }
        ensures at { self.new.at ≡ self.old.at }
    {
        match end_fault(self.state) {
            Some(fault) => Some(self.finish(Err(fault))),
            None => None,
        }
    }
}
