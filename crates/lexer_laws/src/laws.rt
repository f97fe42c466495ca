//! Laws of tokens around braces. The functions do nothing: the contract is the law.
ghost use Rattle.lexer_laws.specs.Firsts.{FirstTokensEnd};
ghost use Rattle.lexer_laws.specs.Cuts.{BracesCut, BracesAreTokens};
ghost use Rattle.lexer_laws.specs.Pieces.{PiecesAreCut, PiecesAreReplaced};
ghost use Rattle.lexer_laws.specs.Errors.{ErrorsStayNone, ErrorsAreReplaced};
ghost use Rattle.lexer_laws.specs.Quiet.{QuietErrorsAreReplaced};
ghost use Rattle.lexer_laws.specs.Heads.{PlainTextsHaveNoHead, HeadsEndBeforeBraces};
ghost use Rattle.lexer_laws.specs.Sights.{SightsAreCut};
ghost use Rattle.lexer_laws.specs.Windows.{WindowsAreReplaced};

/// The first token of a text with a brace somewhere behind its start either ends before the
/// brace, and is then, with what is wrong with it, that of the text without the brace and all
/// that follows; or the brace is in it, whatever follows.
pub fn first_tokens_end()
    ensures { FirstTokensEnd }
{}

/// If the tokens of a text are cut before a brace, those before it are the same whatever
/// follows it.
pub fn braces_cut()
    ensures { BracesCut }
{}

/// A brace at the start of a text is a token of one byte.
pub fn braces_are_tokens()
    ensures { BracesAreTokens }
{}

/// A text whose first token is `{` and whose last one is `}` has the same tokens at the start
/// of a longer text, and so has what follows it there.
pub fn pieces_are_cut()
    ensures { PiecesAreCut }
{}

/// If such a text takes the place of a part of a text that begins with `{`, and that is cut out
/// of it by the tokens, then the tokens of the new text are the old ones, with its own in the
/// place of the part's.
pub fn pieces_are_replaced()
    ensures { PiecesAreReplaced }
{}

/// The lexer's errors in the new text are those before the part, those of the new part by
/// itself, and those behind the part, moved with the text, but for which of its two messages
/// the error of a reserved prefix has.
pub fn errors_are_replaced()
    ensures { ErrorsAreReplaced }
{}

/// If, moreover, the new part by itself has no error of the lexer in its first five tokens, and the
/// old text has none behind the part, then the errors in the new text are those that end before the
/// part, as they were, and those of the new part by itself, moved. So they are with their messages.
pub fn quiet_errors_are_replaced()
    ensures { QuietErrorsAreReplaced }
{}

/// If neither the text before such an exchange nor the new part by itself has errors of the
/// lexer, the new text has none.
pub fn errors_stay_none()
    ensures { ErrorsStayNone }
{}

/// A text has neither a shebang nor a front matter if it begins with `#![` or not with `#!`,
/// and if a dash is not its first visible character of ASCII. What follows a brace does not
/// matter for this test.
pub fn plain_texts_have_no_head()
    ensures plain { PlainTextsHaveNoHead }
    ensures ends { HeadsEndBeforeBraces }
{}

/// If tokens cut a text into three parts, and those of the middle one are from `{` to `}`, then the
/// grammar's machine sees each part as it does by itself: no sign is joined with a brace.
pub fn sights_are_cut()
    ensures { SightsAreCut }
{}

/// A window of a text without a head stands between braces, which are its first and its last
/// token, or at the start or the end of the text; the text's tokens are cut where it begins. If a
/// new window takes its place that begins with the same brace,
/// and neither has errors of the lexer by itself, nor is there one behind it, then each window
/// brings the tokens that it has by itself, and those around it stay, and all errors. Where the
/// grammar's machine sees both windows alike, it sees both texts alike.
pub fn windows_are_replaced()
    ensures { WindowsAreReplaced }
{}
