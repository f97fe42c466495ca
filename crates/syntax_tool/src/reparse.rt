//! The command `reparse`: an edit and a text to the dump of the tree after the edit.
ghost use Rattle.std.specs.Prelude.{◌≡◌, ◌↔◌, ◌⊎◌, ◌++◌, ◌<◌, ◌≤◌, ◌^◌, length, Ok, Err, IfOk, IfErr, IfSome, IfNone, IsTrue, MatchResult, OnOk, string_bytes};
ghost use Rattle.std.specs.List.{list_all};
ghost use Rattle.tree_model.specs.Tree.{text};
ghost use Rattle.ras_front_end.specs.declared.parse_error.ParseError.TheVariants.{TooLong};
ghost use Rattle.ras_parsing.specs.Edit.{IsEditOf, edited, replacing};
ghost use Rattle.ras_parsing.specs.AllErrors.{debug_dump_of};
ghost use Rattle.syntax_tool.specs.Requests.{is_digit, value_from, number_of, told, IsRange, IsReread, AnswersEdit, AnswersRange, AnswersLines, AnswersReparse};
ghost use Rattle.syntax_tool.specs.Lines.{HasNo, IsLine};

use crate::escapes::unescape;
use crate::lines::cut;
use crate::refusal::Refusal;
use ra_ap_syntax::{Edition, Parse, ParseError, SourceFile, TextRange, TextSize};
use std::alloc::{AllocError, Global};
use std::fmt::Write;
use tiny_front::Tiny;

// Represents every larger number: no text is this long.
const TOO_GREAT: u128 = u64::MAX as u128;

fn is_digit(byte: u8) -> bool
    ensures { result ≡ is_digit byte }
{
    48 <= byte && byte <= 57
}

fn all_digits(bytes: &[u8]) -> bool
    ensures { result ≡ list_all is_digit bytes.now }
{
    bytes.iter().all(|byte| is_digit(*byte))
}

// The number that decimal digits write.
fn number(text: &str) -> Option<usize>
    ensures { result ≡ number_of text.now }
{
    let bytes = text.as_bytes();
    if bytes.is_empty() || !all_digits(bytes) {
        return None;
    }
    Some(value(bytes))
}

fn value(digits: &[u8]) -> usize
    ensures { result ≡ value_from 0 digits.now }
{
    let mut value: u128 = 0;
    for digit in digits {
        value = (10 * value + (*digit as u128).saturating_sub(48)).min(TOO_GREAT);
    }
    value as usize
}

// The range lies in the text, on character boundaries.
fn is_range(text: &str, start: usize, end: usize) -> bool
    ensures { IsTrue result ↔ IsRange text.now start end }
{
    start <= end && end <= text.len() && text.is_char_boundary(start) && text.is_char_boundary(end)
}

// The first line, and the dump.
fn report(
    alloc: Global,
    piece: Option<TextRange>,
    new: &Parse<SourceFile>,
) -> Result<String, AllocError>
    ensures { IfOk result (λ out. string_bytes out ≡ told piece ++ debug_dump_of new.now) }
{
    let mut out = String::new(alloc);
    match piece {
        Some(range) => writeln!(&mut out, "piece {range}")?,
        None => out.push_str("whole\n")?,
    }
    let dump = new.debug_dump(alloc)?;
    out.push_str(dump.as_str())?;
    Ok(out)
}

// The parse after an edit, and the range that was parsed again, where not all was.
fn edit_parse(
    alloc: Global,
    old: &Parse<SourceFile>,
    delete: TextRange,
    insert: &str,
) -> Result<(Option<TextRange>, Parse<SourceFile>), ParseError>
    requires { IsEditOf (text old.now.tree) (replacing delete insert.now) }
    ensures read { IfOk result
        (λ p. IsReread old.now (replacing delete insert.now) p.0 p.1) }
    ensures accepted { OnOk result (length
        (edited (text old.now.tree) (replacing delete insert.now))
        < 2 ^ 32) }
    ensures refused { IfErr result (λ e. (e ≡ TooLong)
        ↔ (2 ^ 32
        ≤ length (edited (text old.now.tree) (replacing delete insert.now)))) }
{
    match old.incremental_reparse(alloc, &Tiny, delete, insert, Edition::CURRENT)? {
        Some((new, range)) => Ok((Some(range), new)),
        None => {
            let new = old.full_reparse(alloc, &Tiny, delete, insert, Edition::CURRENT)?;
            Ok((None, new))
        }
    }
}

// The answer to an edit of a parse.
fn edit_answer(
    alloc: Global,
    old: &Parse<SourceFile>,
    delete: TextRange,
    insert: &str,
) -> Result<String, Refusal>
    requires { IsEditOf (text old.now.tree) (replacing delete insert.now) }
    ensures { MatchResult result
        (λ out.
        AnswersEdit old.now (replacing delete insert.now)
        (Ok (string_bytes out)))
        (λ e. (e ≡ Refusal.Memory)
        ⊎ AnswersEdit old.now (replacing delete insert.now) (Err e)) }
{
    let (piece, new) = edit_parse(alloc, old, delete, insert)?;
    Ok(report(alloc, piece, &new)?)
}

// The answer to an edit of a text, which is read first.
fn range_answer(
    alloc: Global,
    text: &str,
    start: usize,
    end: usize,
    insert: &str,
) -> Result<String, Refusal>
    ensures { MatchResult result
        (λ out. AnswersRange text.now start end insert.now (Ok (string_bytes out)))
        (λ e. (e ≡ Refusal.Memory) ⊎ AnswersRange text.now start end insert.now (Err e)) }
{
    if !is_range(text, start, end) {
        return Err(Refusal::BadRange);
    }
    let old = SourceFile::parse(alloc, text, &Tiny, Edition::CURRENT)?;
    let delete = TextRange::new(TextSize::new(start as u32), TextSize::new(end as u32));
    edit_answer(alloc, &old, delete, insert)
}

// The first line without its newline, and what follows it; `None` if there is no newline.
fn first_line(text: &str) -> Option<(&str, &str)>
    ensures is { IfSome result (λ p. IsLine text.now p.0.now p.1.now) }
    ensures none { IfNone result (HasNo 10 text.now) }
{
    text.split_once('\n')
}

// The answer to the two lines of a request and the text after them.
fn lines_answer(alloc: Global, first: &str, second: &str, whole: &str) -> Result<String, Refusal>
    ensures { MatchResult result
        (λ out. AnswersLines first.now second.now whole.now (Ok (string_bytes out)))
        (λ e. (e ≡ Refusal.Memory) ⊎ AnswersLines first.now second.now whole.now (Err e)) }
{
    let (start, end) = cut(first, ' ');
    let mut insert = String::new(alloc);
    unescape(&mut insert, second)?;
    let (start, end) = match (number(start), number(end)) {
        (Some(start), Some(end)) => (start, end),
        _ => return Err(Refusal::BadLine),
    };
    range_answer(alloc, whole, start, end, insert.as_str())
}

// The answer to a request: its lines, and then the text.
pub(crate) fn reparse_answer(alloc: Global, input: &str) -> Result<String, Refusal>
    ensures { MatchResult result
        (λ out. AnswersReparse input.now (Ok (string_bytes out)))
        (λ e. (e ≡ Refusal.Memory) ⊎ AnswersReparse input.now (Err e)) }
{
    let (first, behind) = first_line(input).ok_or(Refusal::BadLine)?;
    let (second, whole) = first_line(behind).ok_or(Refusal::BadLine)?;
    lines_answer(alloc, first, second, whole)
}
