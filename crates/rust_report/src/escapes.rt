//! Escapes of texts in pages of HTML, in commands of a workflow on GitHub, in JSON, in patches, and
//! on a terminal.
ghost use Rattle.std.specs.Prelude.{◌≡◌, ◌<◌, ◌∷◌, [], ◌+◌};
ghost use Rattle.std.specs.List.{flat_map, list_any};
ghost use Rattle.std.specs.Str.{chars};
ghost use Rattle.std.specs.Fmt.{WritesOnOk};
ghost use Rattle.rust_report.specs.Escapes.{is_turn, is_unsafe, symbol, in_name, hex_digit, percent, octal, unicode, in_html, in_parameter, in_message, in_json, in_quotes, needs_quotes, picture, escaped};

use std::fmt;
use std::fmt::{Formatter, Write};

/// What a text is printed to.
///
/// Unsafe characters are control characters (U+0000 to U+001F, U+007F to U+009F) and those that
/// turn the direction of a text (U+202A to U+202E, U+2066 to U+2069). The symbol of a control
/// character below U+0080 is its picture, such as `␍`; that of each other one is `�`.
#[derive(Clone, Copy, Debug)]
pub enum Medium {
    /// A page of HTML: `&`, `<`, `>`, `"` and `'` are printed as character references, and unsafe
    /// characters other than tabs and line feeds as symbols.
    Html,
    /// The value of a parameter of a workflow command: `%`, `:`, `,` and unsafe characters are
    /// printed as percent escapes, such as `%0A`.
    Parameter,
    /// The message of a workflow command: `%` and unsafe characters are printed as percent escapes.
    Message,
    /// A text of several lines on a terminal: unsafe characters other than tabs and line feeds are
    /// printed as symbols.
    Terminal,
    /// A name, or another text that has to stay within its line: each unsafe character is printed
    /// as a symbol.
    Name,
    /// A text of JSON: unsafe characters from U+007F on are printed as escapes, such as `\u202E`.
    /// JSON has those below as escapes already.
    Json,
}

/// Prints a text so that a medium shows it as it is.
#[derive(Clone, Copy, Debug)]
pub struct Escaped<'a> {
    /// The text.
    pub text: &'a str,
    /// The medium.
    pub medium: Medium,
}

impl<'a> fmt::Display for Escaped<'a> {
    ghost use Rattle.std.specs.Prelude.{Some};
    ghost use Rattle.std.specs.List.{flat_map};
    ghost use Rattle.std.specs.Str.{chars};
    ghost use Rattle.rust_report.specs.Escapes.{escaped};

    ghost output = { λ t. Some (flat_map (escaped t.medium) (chars t.text.now)) };

    fn fmt<W: Write>(&self, f: &mut Formatter<W>) -> fmt::Result {
        write_escaped(f, self.medium, self.text)
    }
}

/// Prints the name of a file as git does it in a patch: as it is, or, if it has a `"`, a `\` or an
/// unsafe character, between double quotes with escapes such as `\n` and `\033`. So it is always
/// one line.
#[derive(Clone, Copy, Debug)]
pub struct Quoted<'a> {
    /// The name.
    pub name: &'a str,
}

impl<'a> fmt::Display for Quoted<'a> {
    ghost use Rattle.std.specs.Prelude.{Some};
    ghost use Rattle.rust_report.specs.Escapes.{quoted};

    ghost output = { λ t. Some (quoted t.name.now) };

    fn fmt<W: Write>(&self, f: &mut Formatter<W>) -> fmt::Result {
        if !has_to_be_quoted(self.name) {
            return f.write_str(self.name);
        }
        f.write_str("\"")?;
        write_in_quotes(f, self.name)?;
        f.write_str("\"")
    }
}

fn needs_quotes(c: char) -> bool
    ensures { result ≡ needs_quotes c }
{
    c == '"' || c == '\\' || is_unsafe(c)
}

// Writes texts, one behind the other.
fn write_texts<W: Write>(f: &mut Formatter<W>, texts: &[&str]) -> fmt::Result
    ensures { WritesOnOk W.write_str_gives f.old result (flat_map (λ t. t.now) texts.now) f.new }
{
    for text in texts {
        f.write_str(text)?;
    }
    Ok(())
}

// Whether a name is written between double quotes in a patch.
fn has_to_be_quoted(name: &str) -> bool
    ensures { result ≡ list_any needs_quotes (chars name.now) }
{
    name.chars().any(needs_quotes)
}

fn write_in_quotes<W: Write>(f: &mut Formatter<W>, name: &str) -> fmt::Result
    ensures { WritesOnOk W.write_str_gives f.old result (flat_map in_quotes (chars name.now))
        f.new }
{
    for c in name.chars() {
        write_char_in_quotes(f, c)?;
    }
    Ok(())
}

fn write_char_in_quotes<W: Write>(f: &mut Formatter<W>, c: char) -> fmt::Result
    ensures { WritesOnOk W.write_str_gives f.old result (in_quotes c) f.new }
{
    match c {
        '\t' => f.write_str("\\t"),
        '\n' => f.write_str("\\n"),
        '\r' => f.write_str("\\r"),
        '"' => f.write_str("\\\""),
        '\\' => f.write_str("\\\\"),
        _ => {
            if is_unsafe(c) {
                write_octals(f, c.encode_utf8(&mut [0; 4]).as_bytes())
            } else {
                f.write_char(c)
            }
        }
    }
}

fn write_octals<W: Write>(f: &mut Formatter<W>, bytes: &[u8]) -> fmt::Result
    ensures { WritesOnOk W.write_str_gives f.old result (flat_map octal bytes.now) f.new }
{
    for byte in bytes {
        write_octal(f, *byte)?;
    }
    Ok(())
}

fn write_octal<W: Write>(f: &mut Formatter<W>, byte: u8) -> fmt::Result
    ensures { WritesOnOk W.write_str_gives f.old result (octal byte) f.new }
{
    write_texts(
        f,
        &[
            "\\",
            octal_digit(byte / 64),
            octal_digit(byte / 8 % 8),
            octal_digit(byte % 8),
        ],
    )
}

fn octal_digit(number: u8) -> &'static str
    requires { number < 8 }
    ensures { result.now ≡ (48 + number) ∷ [] }
{
    match number {
        0 => "0",
        1 => "1",
        2 => "2",
        3 => "3",
        4 => "4",
        5 => "5",
        6 => "6",
        _ => "7",
    }
}

fn hex_digit(number: u32) -> &'static str
    requires { number < 16 }
    ensures { result.now ≡ hex_digit number ∷ [] }
{
    match number {
        0 => "0",
        1 => "1",
        2 => "2",
        3 => "3",
        4 => "4",
        5 => "5",
        6 => "6",
        7 => "7",
        8 => "8",
        9 => "9",
        10 => "A",
        11 => "B",
        12 => "C",
        13 => "D",
        14 => "E",
        _ => "F",
    }
}

fn write_percents<W: Write>(f: &mut Formatter<W>, bytes: &[u8]) -> fmt::Result
    ensures { WritesOnOk W.write_str_gives f.old result (flat_map percent bytes.now) f.new }
{
    for byte in bytes {
        write_percent(f, *byte)?;
    }
    Ok(())
}

fn write_percent<W: Write>(f: &mut Formatter<W>, byte: u8) -> fmt::Result
    ensures { WritesOnOk W.write_str_gives f.old result (percent byte) f.new }
{
    let high = hex_digit(u32::from(byte / 16));
    let low = hex_digit(u32::from(byte % 16));
    write_texts(f, &["%", high, low])
}

fn write_unicode<W: Write>(f: &mut Formatter<W>, code: u32) -> fmt::Result
    ensures { WritesOnOk W.write_str_gives f.old result (unicode code) f.new }
{
    write_texts(
        f,
        &[
            "\\u",
            hex_digit(code / 4096 % 16),
            hex_digit(code / 256 % 16),
            hex_digit(code / 16 % 16),
            hex_digit(code % 16),
        ],
    )
}

pub(crate) fn write_escaped<W: Write>(
    f: &mut Formatter<W>,
    medium: Medium,
    text: &str,
) -> fmt::Result
    ensures { WritesOnOk W.write_str_gives f.old result (flat_map (escaped medium) (chars text.now))
        f.new }
{
    for c in text.chars() {
        write_char(f, medium, c)?;
    }
    Ok(())
}

fn write_char<W: Write>(f: &mut Formatter<W>, medium: Medium, c: char) -> fmt::Result
    ensures { WritesOnOk W.write_str_gives f.old result (escaped medium c) f.new }
{
    match medium {
        Medium::Html => write_char_in_html(f, c),
        Medium::Parameter => write_char_in_parameter(f, c),
        Medium::Message => write_char_in_message(f, c),
        Medium::Terminal => f.write_char(picture(c)),
        Medium::Name => f.write_char(in_name(c)),
        Medium::Json => write_char_in_json(f, c),
    }
}

// Whether a character turns the direction of the text behind it.
fn is_turn(c: char) -> bool
    ensures { result ≡ is_turn c }
{
    matches!(c, '\u{202a}'..='\u{202e}' | '\u{2066}'..='\u{2069}')
}

// Whether a terminal does not show a character as itself, or may show others elsewhere because of
// it.
fn is_unsafe(c: char) -> bool
    ensures { result ≡ is_unsafe c }
{
    c.is_control() || is_turn(c)
}

// The symbol of an unsafe character, such as U+240D of a carriage return.
fn symbol(c: char) -> char
    ensures { result ≡ symbol c }
{
    match c {
        '\u{7f}' => '\u{2421}',
        _ => {
            let code = c as u32;
            if code < 32 {
                char::from_u32(0x2400 + code).unwrap_or(c)
            } else {
                '\u{fffd}'
            }
        }
    }
}

// The symbol of an unsafe character. Other characters are returned as they are.
fn in_name(c: char) -> char
    ensures { result ≡ in_name c }
{
    if is_unsafe(c) { symbol(c) } else { c }
}

// The symbol of an unsafe character other than a tab and a line feed. Other characters are returned
// as they are.
pub(crate) fn picture(c: char) -> char
    ensures { result ≡ picture c }
{
    match c {
        '\t' | '\n' => c,
        _ => in_name(c),
    }
}

fn write_char_in_html<W: Write>(f: &mut Formatter<W>, c: char) -> fmt::Result
    ensures { WritesOnOk W.write_str_gives f.old result (in_html c) f.new }
{
    match c {
        '&' => f.write_str("&amp;"),
        '<' => f.write_str("&lt;"),
        '>' => f.write_str("&gt;"),
        '"' => f.write_str("&quot;"),
        '\'' => f.write_str("&#39;"),
        _ => f.write_char(picture(c)),
    }
}

fn write_char_in_parameter<W: Write>(f: &mut Formatter<W>, c: char) -> fmt::Result
    ensures { WritesOnOk W.write_str_gives f.old result (in_parameter c) f.new }
{
    match c {
        ':' => f.write_str("%3A"),
        ',' => f.write_str("%2C"),
        _ => write_char_in_message(f, c),
    }
}

fn write_char_in_message<W: Write>(f: &mut Formatter<W>, c: char) -> fmt::Result
    ensures { WritesOnOk W.write_str_gives f.old result (in_message c) f.new }
{
    if c == '%' || is_unsafe(c) {
        write_percents(f, c.encode_utf8(&mut [0; 4]).as_bytes())
    } else {
        f.write_char(c)
    }
}

fn write_char_in_json<W: Write>(f: &mut Formatter<W>, c: char) -> fmt::Result
    ensures { WritesOnOk W.write_str_gives f.old result (in_json c) f.new }
{
    if c >= '\u{7f}' && is_unsafe(c) {
        write_unicode(f, c as u32)
    } else {
        f.write_char(c)
    }
}
