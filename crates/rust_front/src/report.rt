//! The parser's errors as steps.
ghost use Rattle.std.specs.Prelude.{◌≡◌, ◌++◌, List, OnOk, map};
ghost use Rattle.ras_front_end.specs.Reading.{FrontStep};
ghost use Rattle.token_layout.specs.Report.{report_by};
ghost use Rattle.rust_front.specs.Messages.{last_of, say_of};

use crate::message::parser_message;
use event_layout::ParserError;
use ras_front_end::StepSink;
use std::alloc::{AllocError, Global};
use token_layout::Token;

// The last `count` tokens.
fn last(tokens: &[Token], count: usize) -> &[Token]
    ensures { result.now ≡ last_of tokens.now count }
{
    &tokens[tokens.len().saturating_sub(count)..]
}

/// Gives a sink a step for each error.
pub fn report_into<S: StepSink>(
    alloc: Global,
    tokens: &[Token],
    faults: &[ParserError],
    sink: &mut S,
) -> Result<(), AllocError>
    ensures { OnOk result ((before : List FrontStep) → S.took sink.old before
        → S.took sink.new (before ++ map (report_by (say_of tokens.now)) faults.now)) }
{
    for fault in faults {
        let message = parser_message(alloc, fault.message, last(tokens, fault.left))?;
        sink.error(alloc, message, fault.position)?;
    }
    Ok(())
}
