//! The parser's messages. Written by tools/grammar from rust.grammar.
ghost use Rattle.std.specs.Prelude.{◌≡◌};
ghost use Rattle.rust_grammar.specs.Messages.{part_0_of, part_1_of, part_2_of, part_3_of, message_of};

fn part_0(number: u16) -> &'static str
    ensures { result.now ≡ part_0_of number }
{
    match number {
        0 => "expected a name",
        1 => "expected R_BRACK",
        2 => "expected L_BRACK",
        3 => "expected L_PAREN",
        4 => "expected R_PAREN",
        5 => "expected a predicate",
        6 => "expected COMMA",
        7 => "expected a string",
        8 => "expected expression",
        9 => "unmatched brace",
        10 => "unmatched `}`",
        11 => "expected R_CURLY",
        12 => "expected BANG",
        13 => "expected `{`, `[`, `(`",
        14 => "expected a trait",
        15 => "expected R_ANGLE",
        16 => "expected `::`",
        17 => "expected identifier, `self`, `super`, `crate`, or `Self`",
        18 => "expected type",
        19 => "expected generic argument",
        20 => "missing associated item binding",
        21 => "expected a generic const argument",
        22 => "expected generic parameter",
        23 => "missing type for const parameter",
        24 => "expected lifetime",
        _ => "",
    }
}

fn part_1(number: u16) -> &'static str
    ensures { result.now ≡ part_1_of number }
{
    match number {
        25 => "expected COLON",
        26 => "expected identifier or lifetime",
        27 => "expected identifier or `Self`",
        28 => "expected CONST_KW",
        29 => "unexpected `!` in type path, macro calls are not allowed here",
        30 => "expected `<`",
        31 => "expected comma",
        32 => "expected colon",
        33 =>
            "expected mut or const in raw pointer type (use `*mut T` or `*const T` as appropriate)",
        34 => "expected a function pointer or path",
        35 => "expected type, found `{`",
        36 => "missing type",
        37 => "expected `;` or `]`",
        38 => "expected `fn`",
        39 => "expected parameters",
        40 => "expected PIPE",
        41 => "expected value parameter",
        42 => "expected `,`",
        43 => "missing type for function parameter",
        44 => "expected pattern",
        45 => "expected COMMA, got %",
        46 => "expected a pattern",
        47 => "expected ident",
        48 => "expected `:`",
        49 => "expected identifier",
        _ => "",
    }
}

fn part_2(number: u16) -> &'static str
    ensures { result.now ≡ part_2_of number }
{
    match number {
        50 => "expected method name, field name or number",
        51 => "expected argument list",
        52 => "illegal float literal",
        53 => "expected field name or number",
        54 => "expected EQ",
        55 => "expected DOT2",
        56 => "cannot use a comma after the base struct",
        57 => "expected a field",
        58 => "expected a curly brace",
        59 => "expected `|`",
        60 => "expected a block",
        61 => "expected IN_KW",
        62 => "expected a loop or block",
        63 => "expected `{`",
        64 => "expected match arm",
        65 => "expected FAT_ARROW",
        66 => "expected integer, identifier, `self`, `super`, `crate`, or `Self`",
        67 => "expected DOT",
        68 => "expected asm template",
        69 => "expected register name",
        70 => "expected asm operand",
        71 => "expected asm option",
        72 => "expected STRING",
        73 => "expected expression, item or let statement",
        74 => "expected SEMICOLON",
        _ => "",
    }
}

fn part_3(number: u16) -> &'static str
    ensures { result.now ≡ part_3_of number }
{
    match number {
        75 => "right curly brace `}` before `else` in a `let...else` statement not allowed",
        76 => "expected item, found `;`\nconsider removing this semicolon",
        77 => "expected an item",
        78 => "expected fn, trait or impl",
        79 => "expected `{` or `*`",
        80 => "expected one of `*`, `::`, `{`, `self`, `super` or an identifier",
        81 => "expected use tree",
        82 => "expected identifier or `self`",
        83 => "expected `;` or `{`",
        84 => "expected function arguments",
        85 => "missing thin-arrow `->`",
        86 => "expected `;`, `{`, or `(`",
        87 => "expected field",
        88 => "expected field declaration",
        89 => "expected tuple field",
        90 => "expected a type",
        91 => "expected enum variant",
        92 => "`static` may not have generic parameters",
        93 => "missing type for `static`",
        94 => "missing type for `const`",
        95 => "expected trait or type",
        96 => "unmatched `(`",
        _ => "",
    }
}

/// The message of the error with this number, or an empty text if there is none. A `%` stands for the name of the next token's kind.
pub fn message(number: u16) -> &'static str
    ensures { result.now ≡ message_of number }
{
    if number < 25 {
        part_0(number)
    } else if number < 50 {
        part_1(number)
    } else if number < 75 {
        part_2(number)
    } else {
        part_3(number)
    }
}
