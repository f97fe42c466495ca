//! The parser's messages. Written by tools/grammar from arithmetic.grammar.
ghost use Rattle.std.specs.Prelude.{◌≡◌};
ghost use Rattle.example_grammar.specs.Messages.{message_of};

/// The message of the error with this number, or an empty text if there is none. A `%` stands for the name of the next token's kind.
pub fn message(number: u16) -> &'static str
    ensures { result.now ≡ message_of number }
{
    match number {
        0 => "expected EQ",
        1 => "expected SEMICOLON",
        2 => "expected a statement",
        3 => "expected a name",
        4 => "expected R_PAREN",
        5 => "expected an expression",
        6 => "expected an argument",
        7 => "expected COMMA",
        8 => "expected the end",
        _ => "",
    }
}
