//! A run of the program.
ghost use Rattle.std.specs.Prelude.{◌≡◌, ◌⊎◌, Ok, Err, None, IfOk, IfErr, string_bytes};
ghost use Rattle.syntax_tool.specs.Output.{IsRun, IsEarly, AnswersReader, command_of};

use crate::answer::answer_to;
use crate::command::Command;
use crate::input::read_all;
use crate::output::write_output;
use crate::refusal::Refusal;
use std::alloc::Global;
use std::io::{Read, Write};

// The usage line, which is written if the word names no command.
const USAGE: &str = "usage: syntax_tool events|dump|parens|reparse\n";

// The output of a command for the whole input of the reader.
fn output<R: Read>(alloc: Global, command: Command, reader: &mut R) -> Result<String, Refusal>
    ensures ok { IfOk result
        (λ text. AnswersReader command (R.remaining reader.old) (Ok (string_bytes text))) }
    ensures err { IfErr result
        (λ e. IsEarly e ⊎ AnswersReader command (R.remaining reader.old) (Err e)) }
{
    let input = read_all(alloc, reader)?;
    answer_to(alloc, command, input.as_slice())
}

/// Runs a command: reads all of its input, writes its output, and returns the exit status.
///
/// `events` reads lines `enter KIND`, `exit` and `token KIND TEXT`, and writes the dump of the tree
/// that they build. `dump` reads a file of the small language [`tiny_front::Tiny`], and writes the
/// dump of its tree and a line `error a..b: message` for each error. `parens` reads an expression
/// of that language, and writes a line `reads_back true`, `reads_back false` or `reads_back none`,
/// and a line `needless a..b` for each pair of parentheses that may go. `reparse` reads a line
/// `START END`, a line with the text to insert in place of that range, in which `\n`, `\r`, `\t`
/// and `\\` are escapes and any other backslash is refused, and a file of that language; if one of
/// the two lines has no newline, the input is refused. It writes a line `piece a..b`, the range in
/// the old text that was parsed again, or `whole`, and then what `dump` writes for the text after
/// the edit.
///
/// The status is 0. If the input is refused, the line `refused: NAME` is written, with the name of
/// a [`Refusal`], and the status is 1. For any other command word the usage line is written, the
/// status is 2, and nothing is read. The whole output is computed before the first byte is written;
/// a write that fails gives status 1 and leaves a prefix of the output.
pub fn run<R: Read, W: Write>(alloc: Global, reader: &mut R, writer: &mut W, command: &str) -> u8
    ensures run { IsRun command.now (R.remaining reader.old) (W.contents writer.old)
        (W.contents writer.new) result }
    ensures reads_nothing { command_of command.now ≡ None → reader.new ≡ reader.old }
{
    let chosen = match Command::named(command) {
        Some(chosen) => chosen,
        None => return write_output(writer, USAGE, 2),
    };
    match output(alloc, chosen, reader) {
        Ok(text) => write_output(writer, text.as_str(), 0),
        Err(refusal) => write_output(writer, refusal.line(), 1),
    }
}
