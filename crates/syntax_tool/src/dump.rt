//! The command `dump`: a text to the dump of its tree, with its errors.
ghost use Rattle.std.specs.Prelude.{◌≡◌, ◌⊎◌, Ok, Err, MatchResult, string_bytes};
ghost use Rattle.syntax_tool.specs.Output.{AnswersText};

use crate::refusal::Refusal;
use ra_ap_syntax::{Edition, SourceFile};
use std::alloc::Global;
use tiny_front::Tiny;

// The dump of the tree of a file's text, and its errors.
pub(crate) fn dump(alloc: Global, text: &str) -> Result<String, Refusal>
    ensures { MatchResult result (λ out. AnswersText text.now (Ok (string_bytes out)))
        (λ e. (e ≡ Refusal.Memory) ⊎ AnswersText text.now (Err e)) }
{
    let parse = match SourceFile::parse(alloc, text, &Tiny, Edition::CURRENT) {
        Ok(parse) => parse,
        Err(refusal) => return Err(Refusal::from(refusal)),
    };
    let dump = parse.debug_dump(alloc)?;
    Ok(dump)
}
