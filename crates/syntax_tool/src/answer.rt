//! The output of a command for an input.
ghost use Rattle.std.specs.Prelude.{◌≡◌, ◌⊎◌, Ok, Err, MatchResult, string_bytes};
ghost use Rattle.syntax_tool.specs.Output.{AnswersInput};

use crate::command::Command;
use crate::dump::dump;
use crate::events::events;
use crate::parens::parens;
use crate::refusal::Refusal;
use crate::reparse::reparse_answer;
use std::alloc::Global;
use std::str::from_utf8;

/// The output of a command for an input, as [`run`](crate::run) writes it, or why there is none.
///
/// `NotUtf8` is checked first. Then `events` may return `BadLine` or `BadKind` for the first such
/// line, or the builder's refusal; `dump` may return `TooLong`; `parens` `TooLong`, then
/// `OtherRoot`; `reparse` `BadLine`, then `BadRange`, then `TooLong`, for the old text or the new
/// one. `Read` and `ErrorPastText` are never returned. `Memory` is returned only if memory was
/// refused, and states nothing about the input.
pub fn answer_to(alloc: Global, command: Command, input: &[u8]) -> Result<String, Refusal>
    ensures { MatchResult result (λ text. AnswersInput command input.now (Ok (string_bytes text)))
        (λ e. (e ≡ Refusal.Memory) ⊎ AnswersInput command input.now (Err e)) }
{
    let Ok(text) = from_utf8(input) else {
        return Err(Refusal::NotUtf8);
    };
    match command {
        Command::Events => events(alloc, text),
        Command::Dump => dump(alloc, text),
        Command::Parens => parens(alloc, text),
        Command::Reparse => reparse_answer(alloc, text),
    }
}
