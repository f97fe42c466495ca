//! The command `events`: event lines to the dump of the tree that they build.
ghost use Rattle.std.specs.Prelude.{◌≡◌, [], ◌⊎◌, Ok, Err, MatchResult, string_bytes};
ghost use Rattle.syntax_tool.specs.Lines.{lines_of, ReadsLines};
ghost use Rattle.syntax_tool.specs.Output.{AnswersEvents};

use crate::lines::{add_line, cut};
use crate::refusal::Refusal;
use ra_ap_syntax::SyntaxTreeBuilder;
use std::alloc::Global;

/// A builder with the events of all lines of a text.
///
/// A line is `enter KIND`, `exit` or `token KIND TEXT`; in TEXT, `\n`, `\r`, `\t` and `\\` are
/// escapes, and without it the token is empty. Empty lines are skipped. The first line that has
/// none of these forms (`BadLine`), or names no kind (`BadKind`), refuses; `Memory` as soon as
/// memory runs out. Time linear in the text.
pub fn read_events(alloc: Global, text: &str) -> Result<SyntaxTreeBuilder, Refusal>
    ensures { MatchResult result
        (λ builder. ReadsLines (lines_of text.now) (Ok builder.events) × (builder.faults ≡ []))
        (λ e. (e ≡ Refusal.Memory) ⊎ ReadsLines (lines_of text.now) (Err e)) }
{
    let mut builder = SyntaxTreeBuilder::new(alloc);
    let mut token_text = String::new(alloc);
    let mut rest = text;
    while !rest.is_empty() {
        let (line, after) = cut(rest, '\n');
        if !line.is_empty() {
            add_line(&mut builder, &mut token_text, line)?;
        }
        rest = after;
    }
    Ok(builder)
}

// The dump of the tree that the lines build, or why there is none.
pub(crate) fn events(alloc: Global, text: &str) -> Result<String, Refusal>
    ensures { MatchResult result (λ out. AnswersEvents text.now (Ok (string_bytes out)))
        (λ e. (e ≡ Refusal.Memory) ⊎ AnswersEvents text.now (Err e)) }
{
    let parse = read_events(alloc, text)?.finish()?;
    Ok(parse.syntax_node().dump(alloc)?)
}
