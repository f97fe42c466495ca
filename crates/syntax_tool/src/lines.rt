//! One line of an event text.
ghost use Rattle.std.specs.Prelude.{◌≡◌, ◌↔◌, ◌<◌, ◌++◌, ◌∷◌, [], ◌⊎◌, IsTrue, IfOk, OnOk, IfErr, codes};
ghost use Rattle.syntax_kind.specs.Kinds.{kind_name, IsKind};
ghost use Rattle.syntax_kind.specs.declared.syntax_kind.SyntaxKind.{SyntaxKind};
ghost use Rattle.syntax_tool.specs.Lines.{HasNo, IsCut, IsWord, AppendsEvent, RefusesLine};

use crate::escapes::unescape;
use crate::refusal::Refusal;
use ra_ap_syntax::{SyntaxKind, SyntaxTreeBuilder};

// The text before the first `at`, and the text after it; if there is none, the whole text and an
// empty text.
pub(crate) fn cut(text: &str, at: char) -> (&str, &str)
    requires { at < 128 }
    ensures { IsCut at text.now result.0.now result.1.now }
{
    match text.split_once(at) {
        Some(parts) => parts,
        None => (text, ""),
    }
}

// One or more bytes without a space.
fn is_word(text: &str) -> bool
    ensures { IsTrue result ↔ IsWord text.now }
{
    !text.is_empty() && !text.contains(' ')
}

// The kind that a word names.
fn kind_named(word: &str) -> Result<SyntaxKind, Refusal>
    ensures ok { IfOk result (λ k. IsKind k × (kind_name k ≡ word.now)) }
    ensures err { IfErr result
        (λ e. (e ≡ Refusal.BadKind) × ((k : SyntaxKind) → IsKind k → kind_name k ≡ word.now → ⊥)) }
{
    match SyntaxKind::from_name(word) {
        Some(kind) => Ok(kind),
        None => Err(Refusal::BadKind),
    }
}

// Appends the event of a line that is not empty. `text` is room for a token's text.
pub(crate) fn add_line(
    builder: &mut SyntaxTreeBuilder,
    text: &mut String,
    line: &str,
) -> Result<(), Refusal>
    ensures ok { OnOk result (AppendsEvent line.now builder.old builder.new) }
    ensures err { IfErr result (RefusesLine line.now) }
{
    match line.split_once(' ') {
        None => add_exit(builder, line),
        Some(("enter", name)) => add_enter(builder, name),
        Some(("token", rest)) => add_token(builder, text, rest),
        Some(_) => Err(Refusal::BadLine),
    }
}

// `exit`, a line without a space.
fn add_exit(builder: &mut SyntaxTreeBuilder, line: &str) -> Result<(), Refusal>
    requires { HasNo 32 line.now }
    ensures ok { OnOk result (AppendsEvent line.now builder.old builder.new) }
    ensures err { IfErr result (RefusesLine line.now) }
{
    if line != "exit" {
        return Err(Refusal::BadLine);
    }
    builder.finish_node()?;
    Ok(())
}

// `enter KIND`, from the kind on.
fn add_enter(builder: &mut SyntaxTreeBuilder, name: &str) -> Result<(), Refusal>
    ensures ok { OnOk result (AppendsEvent (codes "enter " ++ name.now) builder.old builder.new) }
    ensures err { IfErr result (RefusesLine (codes "enter " ++ name.now)) }
{
    if !is_word(name) {
        return Err(Refusal::BadLine);
    }
    let kind = kind_named(name)?;
    builder.start_node(kind)?;
    Ok(())
}

// `token KIND` or `token KIND TEXT`, from the kind on.
fn add_token(builder: &mut SyntaxTreeBuilder, text: &mut String, rest: &str) -> Result<(), Refusal>
    ensures ok { OnOk result (AppendsEvent (codes "token " ++ rest.now) builder.old builder.new) }
    ensures err { IfErr result (RefusesLine (codes "token " ++ rest.now)) }
{
    let (name, raw) = cut(rest, ' ');
    if name.is_empty() {
        return Err(Refusal::BadLine);
    }
    unescape(text, raw)?;
    let kind = kind_named(name)?;
    builder.token(kind, text.as_str())?;
    Ok(())
}
