//! What is asked of a report.

use crate::source::Reading;
use crate::style::Style;

/// The form of a report.
#[derive(Clone, Copy, Debug)]
pub enum ReportFormat {
    /// Lines of text.
    Text,
    /// A JSON object on each line.
    Json,
    /// Lines that a workflow on GitHub shows as annotations.
    Github,
    /// The results of one object of SARIF.
    Sarif,
}

/// Which pairs of parentheses are wanted, by what they are a part of.
#[derive(Clone, Copy, Debug)]
pub struct Wanted {
    /// Whole values, as rustc's lint `unused_parens` names them.
    pub values: bool,
    /// Operands.
    pub operands: bool,
    /// Arithmetic below a shift, where clippy's lint `precedence` asks for the pair.
    pub mixed: bool,
    /// Those in other places.
    pub others: bool,
}

/// How a text is read, and how a report on it is written.
#[derive(Clone, Copy, Debug)]
pub struct ReportOptions {
    /// How the text is parsed.
    pub reading: Reading,
    /// The form of the report.
    pub format: ReportFormat,
    /// Whether the report has colours.
    pub style: Style,
    /// The most errors of a file that are listed.
    pub max_errors: usize,
    /// Whether each error has lines of its own, also those of the run that another begins.
    pub all_errors: bool,
    /// Whether messages are those of rust-analyzer's parser.
    pub is_upstream: bool,
    /// Which pairs `parens` finds.
    pub wanted: Wanted,
    /// Whether `outline` lists what `let` binds.
    pub has_locals: bool,
    /// Whether nothing was found so far: in SARIF a result has a comma before it unless it is the
    /// first.
    pub is_first: bool,
}
