//! Laws of what the front end tells of a text. The functions do nothing: the contract is the law.
ghost use Rattle.rust_front.specs.RetoldLaws.{RetoldWindowsAreAlike};

/// Where `is_retold` answers yes, the tokens of both windows are the same but for the length of
/// one, which the machine and the layout take for what it was; both windows by themselves begin
/// and end in braces, but at the start and the end of the text, and have no errors of the lexer.
pub fn retold_windows_are_alike()
    ensures { RetoldWindowsAreAlike }
{}
