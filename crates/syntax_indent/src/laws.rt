//! Laws of nodes whose lines are shifted. The functions do nothing: each contract is the law.
ghost use Rattle.syntax_indent.specs.Others.{OtherTokensStay, OnlyBlanksGo, DedentUndoesIndent};

/// The tokens that are not white space are the same, in order, however the lines are shifted.
pub fn other_tokens_stay()
    ensures { OtherTokensStay }
{}

/// [`dedent`](crate::dedent) leaves out blanks alone: the other characters of white space are the
/// same, in order.
pub fn only_blanks_go()
    ensures { OnlyBlanksGo }
{}

/// [`dedent`](crate::dedent) undoes [`indent`](crate::indent) by as many levels, in each white
/// space whose lines before the last one have no blanks. Where one has, as in `"\n  \n    "`,
/// `indent` adds nothing to it, and `dedent` leaves its blanks out.
pub fn dedent_undoes_indent()
    ensures { DedentUndoesIndent }
{}
