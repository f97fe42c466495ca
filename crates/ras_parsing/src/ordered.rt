//! Errors of a parse in the order of a new parse, after one piece was parsed again.
ghost use Rattle.std.specs.Prelude.{◌≡◌, ◌+◌, ◌-◌, ◌<◌, ◌≤◌, ◌^◌, length, OnOk, IfOk, All, ◌++◌, map, take, drop};
ghost use Rattle.ras_parsing.specs.Edit.{replacing};
ghost use Rattle.ras_parsing.specs.Reparse.{shifted, moved};
ghost use Rattle.ras_parsing.specs.Document.{earlier_fault, later_fault, in_order, all_in_order};

use crate::merge::{moved, shifted};
use ras_front_end::SyntaxError;
use std::alloc::{AllocError, Global};
use text_size::TextRange;

// Appends an old error if it ends before the piece.
fn keep_earlier(
    kept: &mut Vec<SyntaxError>,
    error: &SyntaxError,
    replaced: TextRange,
) -> Result<(), AllocError>
    ensures { OnOk result (kept.new.items ≡ kept.old.items ++ earlier_fault replaced error.now) }
{
    if error.range().end() <= replaced.start() {
        kept.push(error.clone()?)?;
    }
    Ok(())
}

// Appends an old error, moved with the text, if it begins behind the piece.
fn keep_later(
    kept: &mut Vec<SyntaxError>,
    error: &SyntaxError,
    replaced: TextRange,
    delete: TextRange,
    insert: &str,
) -> Result<(), AllocError>
    requires within { delete.end ≤ replaced.end }
    requires short { shifted (replacing delete insert.now) error.now.range.end
        < 2 ^ 32 }
    ensures { OnOk result (kept.new.items
        ≡ kept.old.items
        ++ later_fault replaced (replacing delete insert.now)
        error.now) }
{
    let range = error.range();
    if replaced.end() <= range.start() {
        let start = shifted(range.start(), delete, insert);
        let end = shifted(range.end(), delete, insert);
        kept.push(error.clone()?.with_range(TextRange::new(start, end)))?;
    }
    Ok(())
}

// Appends the old errors before a piece, its new errors, and the old ones behind it.
fn push_in_order(
    all: &mut Vec<SyntaxError>,
    old: &[SyntaxError],
    new: &[SyntaxError],
    replaced: TextRange,
    delete: TextRange,
    insert: &str,
) -> Result<(), AllocError>
    requires within { delete.end ≤ replaced.end }
    requires old_short { All
        (λ f. shifted (replacing delete insert.now) f.range.end < 2 ^ 32)
        old.now }
    requires new_short { All (λ f. f.range.end + replaced.start < 2 ^ 32) new.now }
    ensures { OnOk result (all.new.items
        ≡ all.old.items
        ++ in_order old.now new.now replaced (replacing delete insert.now)) }
{
    for error in old {
        keep_earlier(all, error, replaced)?;
    }
    for error in new {
        all.push(moved(error.clone()?, replaced.start()))?;
    }
    for error in old {
        keep_later(all, error, replaced, delete, insert)?;
    }
    Ok(())
}

/// The first errors, at most so many.
pub(crate) fn parser_part(errors: &[SyntaxError], count: usize) -> &[SyntaxError]
    ensures { result.now ≡ take count errors.now }
{
    &errors[..count.min(errors.len())]
}

/// The errors after so many.
pub(crate) fn lexer_part(errors: &[SyntaxError], count: usize) -> &[SyntaxError]
    ensures { result.now ≡ drop count errors.now }
{
    &errors[count.min(errors.len())..]
}

/// Errors in order, of which the first `parser_errors` are the parser's.
#[derive(Drop)]
pub(crate) struct CountedErrors {
    pub errors: Vec<SyntaxError>,
    pub parser_errors: usize,
}

/// The errors after a piece was parsed again, in the order of a new parse: the parser's before the
/// piece, in it and behind it, and then the lexer's. The first `count` of the old errors and the
/// first `more` of the new ones are the parser's.
pub(crate) fn ordered(
    alloc: Global,
    old: &[SyntaxError],
    count: usize,
    new: &[SyntaxError],
    more: usize,
    replaced: TextRange,
    delete: TextRange,
    insert: &str,
) -> Result<CountedErrors, AllocError>
    requires within { delete.end ≤ replaced.end }
    requires old_short { All
        (λ f. shifted (replacing delete insert.now) f.range.end < 2 ^ 32)
        old.now }
    requires new_short { All (λ f. f.range.end + replaced.start < 2 ^ 32) new.now }
    ensures errors { IfOk result (λ o. o.errors.items
        ≡ all_in_order count more old.now new.now replaced (replacing delete insert.now)) }
    ensures count { IfOk result (λ o. o.parser_errors
        ≡ length (in_order (take count old.now) (take more new.now) replaced
        (replacing delete insert.now))) }
{
    let mut errors = Vec::new(alloc);
    push_in_order(
        &mut errors,
        parser_part(old, count),
        parser_part(new, more),
        replaced,
        delete,
        insert,
    )?;
    let parser_errors = errors.len();
    push_in_order(
        &mut errors,
        lexer_part(old, count),
        lexer_part(new, more),
        replaced,
        delete,
        insert,
    )?;
    Ok(CountedErrors {
        errors,
        parser_errors,
    })
}
