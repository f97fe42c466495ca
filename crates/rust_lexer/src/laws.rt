//! Laws of how tokens are read. The functions do nothing: the contract is the law.
ghost use Rattle.rust_lexer.specs.Fronts.{LongestFronts, StringsAreRead, ContentsAreRead, RawStringsAreRead};
ghost use Rattle.rust_lexer.specs.CommentLaws.{BlockCommentsAreRead};
ghost use Rattle.rust_lexer.specs.NameLaws.{LongestCharacters, NamesAreRead};
ghost use Rattle.rust_lexer.specs.NumberLaws.{NumbersAreRead};
ghost use Rattle.rust_lexer.specs.QuoteLaws.{CharactersAreRead, CharacterContentsAreRead};

/// White space, names, digits and the rest of a line are the longest prefix of the text whose bytes
/// are in their class.
pub fn longest_fronts()
    ensures { LongestFronts }
{}

/// A string ends with the first quote that no backslash precedes, where a backslash takes what
/// follows it.
pub fn strings()
    ensures read { StringsAreRead }
    ensures contents { ContentsAreRead }
{}

/// A raw string ends with a quote and as many `#` as it begins with.
pub fn raw_strings()
    ensures { RawStringsAreRead }
{}

/// A block comment, whose text is shorter than 2^32 bytes, ends with the `*/` that closes it;
/// comments nest.
pub fn block_comments()
    ensures { BlockCommentsAreRead }
{}

/// A number is digits in one of four bases, a fraction, an exponent and a suffix; neither a digit
/// nor `_` is left after its digits.
pub fn numbers()
    ensures { NumbersAreRead }
{}

/// A name goes on with letters, digits and `_`, and past ASCII with the characters of XID_Continue;
/// the longest such prefix is read.
pub fn names()
    ensures characters { LongestCharacters }
    ensures read { NamesAreRead }
{}

/// A character ends with the first quote that no backslash precedes; the search stops at a slash
/// and at a newline that no quote follows.
pub fn characters()
    ensures read { CharactersAreRead }
    ensures contents { CharacterContentsAreRead }
{}
