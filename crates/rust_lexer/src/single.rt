//! A text that is one token.
ghost use Rattle.std.specs.Prelude.{◌≡◌};
ghost use Rattle.std.specs.Str.{chars};
ghost use Rattle.literal_escape.specs.Reading.{reports_in};
ghost use Rattle.rust_lexer.specs.Single.{later_of, last_from, last_content_problem, last_problem_of, single_token_of};

use crate::escape::{is_plain, is_unit, result_problem, unit_problem};
use crate::lexer::content;
use crate::problem::Problem;
use crate::shape::Check;
use crate::token::token;
use literal_escape::{Mode, Units};
use ras_front_end::Edition;
use syntax_kind::SyntaxKind;

fn later(before: Option<Problem>, problem: Option<Problem>) -> Option<Problem>
    ensures { result ≡ later_of before problem }
{
    match problem {
        None => before,
        Some(problem) => Some(problem),
    }
}

// The last problem of a string's content.
fn last_unit_problem(mode: Mode, content: &str) -> Option<Problem>
    ensures { result ≡ last_from mode None (reports_in mode (chars content.now)) }
{
    let mut last = None;
    let mut units = Units::new(mode, content);
    while let Some(unit) = units.next() {
        last = later(last, result_problem(mode, unit.unit));
    }
    last
}

fn last_content(mode: Mode, content: &str) -> Option<Problem>
    ensures { result ≡ last_content_problem mode content.now }
{
    if is_plain(mode, content) {
        None
    } else if is_unit(mode) {
        unit_problem(mode, content)
    } else {
        last_unit_problem(mode, content)
    }
}

fn last_problem(text: &str, check: Check) -> Option<Problem>
    ensures { result ≡ last_problem_of text.now check }
{
    match check {
        Check::No => None,
        Check::Is(problem) => Some(problem),
        Check::Prefix => Some(Problem::UnknownPrefix),
        Check::Content(mode, before, behind) => {
            let content = content(text, before, behind);
            last_content(mode, content)
        }
    }
}

/// The kind of a text that is one token, and the last problem with it, or `None` if the text is
/// empty or is not one token.
///
/// A shebang or a front matter is not a token here. It takes time linear in the text, and allocates
/// nothing.
pub fn single_token(text: &str, edition: Edition) -> Option<(SyntaxKind, Option<Problem>)>
    ensures { result ≡ single_token_of edition text.now }
{
    if text.is_empty() {
        return None;
    }
    let shape = token(text, edition);
    if shape.left == 0 {
        Some((shape.kind, last_problem(text, shape.check)))
    } else {
        None
    }
}
