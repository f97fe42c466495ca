// The reports of a content, one by one.
ghost use Rattle.std.specs.Prelude.{◌≡◌, ◌<◌, ◌+◌, ◌^◌, length};
ghost use Rattle.std.specs.Str.{chars};
ghost use Rattle.std.specs.List.{AllByRecursion};

use crate::mode::Mode;
use crate::progress::State;
use crate::reader::{Reader, Report};

/// The reports of a content's pieces, in order: the units of [`crate::unescape_str`] and the other
/// calls, one by one.
#[derive(Drop)]
pub struct Units<'a> {
    reader: Reader,
    rest: &'a str,
    ghost in_memory: { reader.at + length rest.now < 2 ^ 64 },
}

impl<'a> Units<'a> {
    ghost use Rattle.literal_escape.specs.Pieces.{OfReports, IsWithin};
    ghost use Rattle.literal_escape.specs.Reading.{to_come, reports_in, Gives};

    /// An iterator over the reports of this content, at the first one.
    pub fn new(mode: Mode, content: &'a str) -> Units<'a>
        ensures reports { OfReports mode (chars content.now) (λ reports. to_come result ≡ reports) }
        ensures read { to_come result ≡ reports_in mode (chars content.now) }
        ensures within { AllByRecursion (IsWithin (length content.now)) (to_come result) }
    {
        Units {
            reader: Reader {
                mode,
                start: 0,
                at: 0,
                state: State::Start,
            },
            rest: content,
        }
    }

    /// The next report, or `None` after the last one, also in all later calls.
    pub fn next(&mut self) -> Option<Report>
        ensures { Gives (to_come self.old) result (to_come self.new) }
    {
        let mut rest = self.rest.chars();
        while let Some(c) = rest.next() {
            if let Some(warning) = self.reader.warn(c) {
                return Some(warning);
            }
            let report = self.reader.read(c);
            self.rest = rest.as_str();
            if report.is_some() {
                return report;
            }
        }
        self.reader.end()
    }
}
