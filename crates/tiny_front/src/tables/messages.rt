//! The parser's messages. Written by tools/grammar from tiny.grammar.
ghost use Rattle.std.specs.Prelude.{◌≡◌};
ghost use Rattle.tiny_front.specs.Messages.{message_of};

/// The message of the error with this number, or an empty text if there is none. A `%` stands for the name of the next token's kind.
pub fn message(number: u16) -> &'static str
    ensures { result.now ≡ message_of number }
{
    match number {
        0 => "expected an item",
        1 => "expected a name",
        2 => "expected parameters",
        3 => "expected )",
        4 => "expected a block",
        5 => "expected a type",
        6 => "expected }",
        7 => "expected a statement",
        8 => "expected ;",
        9 => "expected an end",
        10 => "expected an expression",
        11 => "expected ]",
        _ => "",
    }
}
