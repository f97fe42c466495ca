//! The quotes, contents and faults of strings.
ghost use Rattle.std.specs.Prelude.{◌≡◌, ◌<◌, length, None, IfSome, option_map};
ghost use Rattle.std.specs.Str.{chars};
ghost use Rattle.ras_token_ext.specs.Literals.{quote_places, content_of, fatal, last_fault};

use crate::parts::cut;
use crate::places::{first_place, last_place};
use literal_escape::{EscapeError, MixedUnit, Mode, Units};

/// The offsets of the first and the last `"` of a text, or `None` if there are not two.
pub fn quote_places(text: &str) -> Option<(usize, usize)>
    ensures value { result ≡ quote_places text.now }
    ensures order { IfSome result (λ p. p.0 < p.1) }
    ensures within { IfSome result (λ p. p.1 < length text.now) }
{
    let first = first_place(text, b'"')?;
    let last = last_place(text, b'"')?;
    if first < last {
        Some((first, last))
    } else {
        None
    }
}

/// The text between the first and the last `"`, or `None` if there are not two.
pub fn string_content(text: &str) -> Option<&str>
    ensures { option_map (λ s. s.now) result ≡ content_of text.now }
{
    let (first, last) = quote_places(text)?;
    cut(text, first + 1, last)
}

// The fault of a unit, if it has one that is fatal.
fn fatal(unit: Result<MixedUnit, EscapeError>) -> Option<EscapeError>
    ensures { result ≡ fatal unit }
{
    match unit {
        Ok(_) => None,
        Err(fault) => { if fault.is_fatal() { Some(fault) } else { None } }
    }
}

/// The last fatal fault of a content, if it has one.
pub fn last_fault(mode: Mode, content: &str) -> Option<EscapeError>
    ensures { result ≡ last_fault mode content.now }
{
    let mut last = None;
    let mut units = Units::new(mode, content);
    while let Some(report) = units.next() {
        if let Some(fault) = fatal(report.unit) {
            last = Some(fault);
        }
    }
    last
}
