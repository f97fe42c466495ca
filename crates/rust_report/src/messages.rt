//! Messages of the parser in the signs and words of the language.
ghost use Rattle.std.specs.Prelude.{◌≡◌};
ghost use Rattle.std.specs.Prelude.{option_copied};
ghost use Rattle.rust_report.specs.Messages.{said_in, first_signs, other_signs, first_words, other_words, plain_message};

fn first_sign(message: &str) -> Option<&'static str>
    ensures { option_copied result ≡ said_in first_signs message.now }
{
    match message {
        "expected R_BRACK" => Some("expected `]`"),
        "expected L_BRACK" => Some("expected `[`"),
        "expected L_PAREN" => Some("expected `(`"),
        "expected R_PAREN" => Some("expected `)`"),
        "expected COMMA" => Some("expected `,`"),
        "expected R_CURLY" => Some("expected `}`"),
        "expected BANG" => Some("expected `!`"),
        "expected R_ANGLE" => Some("expected `>`"),
        _ => None,
    }
}

fn other_sign(message: &str) -> Option<&'static str>
    ensures { option_copied result ≡ said_in other_signs message.now }
{
    match message {
        "expected COLON" => Some("expected `:`"),
        "expected CONST_KW" => Some("expected `const`"),
        "expected PIPE" => Some("expected `|`"),
        "expected EQ" => Some("expected `=`"),
        "expected DOT2" => Some("expected `..`"),
        "expected IN_KW" => Some("expected `in`"),
        "expected FAT_ARROW" => Some("expected `=>`"),
        "expected DOT" => Some("expected `.`"),
        "expected STRING" => Some("expected a string"),
        _ => None,
    }
}

fn first_word(message: &str) -> Option<&'static str>
    ensures { option_copied result ≡ said_in first_words message.now }
{
    match message {
        "expected SEMICOLON" => Some("expected `;`"),
        "expected COMMA, got %" => Some("expected `,`, got `%`"),
        "expected colon" => Some("expected `:`"),
        "expected comma" => Some("expected `,`"),
        "expected expression" => Some("expected an expression"),
        "expected expression, item or let statement" => {
            Some("expected an expression, an item or a `let` statement")
        }
        "expected type" => Some("expected a type"),
        "expected pattern" => Some("expected a pattern"),
        _ => None,
    }
}

fn other_word(message: &str) -> Option<&'static str>
    ensures { option_copied result ≡ said_in other_words message.now }
{
    match message {
        "expected identifier" => Some("expected an identifier"),
        "expected ident" => Some("expected an identifier"),
        "expected lifetime" => Some("expected a lifetime"),
        "expected match arm" => Some("expected an arm of `match`"),
        "expected field name or number" => Some("expected the name or number of a field"),
        "expected fn, trait or impl" => Some("expected `fn`, `trait` or `impl`"),
        _ => None,
    }
}

/// A message of the parser in the signs and words of the language. The parser names kinds in some
/// of its messages, as rust-analyzer's does: ``expected `)` `` for `expected R_PAREN`, and
/// `expected an expression` for `expected expression`. Any other message stays.
///
/// Takes time linear in the message.
pub fn plain_message(message: &str) -> &str
    ensures { result.now ≡ plain_message message.now }
{
    if let Some(said) = first_sign(message) {
        return said;
    }
    if let Some(said) = other_sign(message) {
        return said;
    }
    if let Some(said) = first_word(message) {
        return said;
    }
    match other_word(message) {
        Some(said) => said,
        None => message,
    }
}
