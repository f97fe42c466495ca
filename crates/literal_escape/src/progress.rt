// What one character does to the piece that is being read.
ghost use Rattle.std.specs.Prelude.{◌≡◌, ◌&&◌, ◌==◌};
ghost use Rattle.literal_escape.specs.Literal.{is_string, is_bytes, is_characters, must_be_escaped, meaning, plain as plain_of, is_simple, simple, hex as hex_of, code as code_of, is_blank as is_blank_of};
ghost use Rattle.literal_escape.specs.Reading.{simple_code, pair_value, longer_code, more_digits, after_backslash, after_brace, after_digits, step_of, end_fault_of};

use crate::error::EscapeError;
use crate::mode::{MixedUnit, Mode};

/// What has been read of a piece.
#[derive(Clone, Copy)]
pub enum State {
    /// Nothing.
    Start,
    /// `\`
    Backslash,
    /// `\x`
    Hex,
    /// `\x` and this digit
    HexDigit(char),
    /// `\u`
    Unicode,
    /// `\u{`
    Brace,
    /// `\u{`, digits and underscores: the number so far and how many digits, both saturating.
    Digits { code: u32, count: u8 },
    /// A backslash, a newline and blanks. `lines`: there is a second newline among them, which
    /// needs a warning.
    Continuation { lines: bool },
}

/// The effect of a character on a piece: the piece goes on, or it is a unit that ends here.
#[derive(Clone, Copy)]
pub enum Step {
    Go(State),
    Unit(Result<MixedUnit, EscapeError>),
}

/// Whether a continuation skips the character.
pub fn is_blank(c: char) -> bool
    ensures { result ≡ is_blank_of c }
{
    c == ' ' || c == '\t' || c == '\n' || c == '\r'
}

fn unit(mode: Mode, c: char) -> Result<MixedUnit, EscapeError>
    ensures { result ≡ meaning mode c }
{
    match mode {
        Mode::CStr => {
            if c == '\0' {
                Err(EscapeError::NulInCStr)
            } else {
                Ok(MixedUnit::Char(c))
            }
        }
        _ => Ok(MixedUnit::Char(c)),
    }
}

fn is_escape_only(mode: Mode, c: char) -> bool
    ensures { result ≡ must_be_escaped mode c }
{
    match mode {
        Mode::Char | Mode::Byte => c == '\'' || c == '\n' || c == '\t',
        Mode::Str | Mode::ByteStr | Mode::CStr => c == '"',
    }
}

fn of_bytes(mode: Mode) -> bool
    ensures { result ≡ is_bytes mode }
{
    matches!(mode, Mode::Byte | Mode::ByteStr)
}

fn plain(mode: Mode, c: char) -> Result<MixedUnit, EscapeError>
    ensures { result ≡ plain_of mode c }
{
    if c == '\r' {
        Err(EscapeError::BareCarriageReturn)
    } else if is_escape_only(mode, c) {
        Err(EscapeError::EscapeOnlyChar)
    } else if of_bytes(mode) && !c.is_ascii() {
        Err(EscapeError::NonAsciiCharInByte)
    } else {
        unit(mode, c)
    }
}

/// The character that a backslash and this letter name.
fn named(c: char) -> Option<char>
    ensures { result ≡ simple_code c }
{
    match c {
        'n' => Some('\n'),
        'r' => Some('\r'),
        't' => Some('\t'),
        '0' => Some('\0'),
        '\\' | '\'' | '"' => Some(c),
        _ => None,
    }
}

fn continues(mode: Mode, c: char) -> bool
    ensures { result ≡ (is_string mode && c == 10) }
{
    c == '\n' && !matches!(mode, Mode::Char | Mode::Byte)
}

fn escape(mode: Mode, c: char) -> Step
    ensures { result ≡ after_backslash mode c }
{
    if let Some(named) = named(c) {
        Step::Unit(unit(mode, named))
    } else if c == 'x' {
        Step::Go(State::Hex)
    } else if c == 'u' {
        Step::Go(State::Unicode)
    } else if continues(mode, c) {
        Step::Go(State::Continuation { lines: false })
    } else {
        Step::Unit(Err(EscapeError::InvalidEscape))
    }
}

/// The byte that two hexadecimal digits write.
fn byte(high: char, low: char) -> Option<u8>
    ensures { result ≡ pair_value high low }
{
    let high = high.to_digit(16)?;
    let low = low.to_digit(16)?;
    Some((high * 16 + low) as u8)
}

fn hex(mode: Mode, value: u8) -> Result<MixedUnit, EscapeError>
    ensures { result ≡ hex_of mode value }
{
    if value < 0x80 {
        unit(mode, value as char)
    } else {
        match mode {
            Mode::Char | Mode::Str => Err(EscapeError::OutOfRangeHexEscape),
            _ => Ok(MixedUnit::HighByte(value)),
        }
    }
}

fn brace(c: char) -> Step
    ensures { result ≡ after_brace c }
{
    match c.to_digit(16) {
        Some(code) => Step::Go(State::Digits { code, count: 1 }),
        None => match c {
            '}' => Step::Unit(Err(EscapeError::EmptyUnicodeEscape)),
            '_' => Step::Unit(Err(EscapeError::LeadingUnderscoreUnicodeEscape)),
            _ => Step::Unit(Err(EscapeError::InvalidCharInUnicodeEscape)),
        },
    }
}

fn unicode(mode: Mode, code: u32, count: u8) -> Result<MixedUnit, EscapeError>
    ensures { result ≡ code_of mode count code }
{
    if count > 6 {
        return Err(EscapeError::OverlongUnicodeEscape);
    }
    if of_bytes(mode) {
        return Err(EscapeError::UnicodeEscapeInByte);
    }
    match char::from_u32(code) {
        Some(c) => unit(mode, c),
        None => if code > 0x10FFFF {
            Err(EscapeError::OutOfRangeUnicodeEscape)
        } else {
            Err(EscapeError::LoneSurrogateUnicodeEscape)
        },
    }
}

fn digits(mode: Mode, code: u32, count: u8, c: char) -> Step
    ensures { result ≡ after_digits mode code count c }
{
    match c.to_digit(16) {
        Some(digit) => Step::Go(State::Digits {
            code: code.saturating_mul(16).saturating_add(digit),
            count: count.saturating_add(1),
        }),
        None => match c {
            '_' => Step::Go(State::Digits { code, count }),
            '}' => Step::Unit(unicode(mode, code, count)),
            _ => Step::Unit(Err(EscapeError::InvalidCharInUnicodeEscape)),
        },
    }
}

/// The effect of the next character on the state. After a continuation it is a blank.
#[tactic(auto, unfolding(crate::specs::Reading::step_of))]
pub fn advance(mode: Mode, state: State, c: char) -> Step
    ensures { result ≡ step_of mode state c }
{
    match state {
        State::Start => {
            if c == '\\' {
                Step::Go(State::Backslash)
            } else {
                Step::Unit(plain(mode, c))
            }
        }
        State::Backslash => escape(mode, c),
        State::Hex => {
            if c.is_digit(16) {
                Step::Go(State::HexDigit(c))
            } else {
                Step::Unit(Err(EscapeError::InvalidCharInHexEscape))
            }
        }
        State::HexDigit(high) => match byte(high, c) {
            Some(value) => Step::Unit(hex(mode, value)),
            None => Step::Unit(Err(EscapeError::InvalidCharInHexEscape)),
        },
        State::Unicode => {
            if c == '{' {
                Step::Go(State::Brace)
            } else {
                Step::Unit(Err(EscapeError::NoBraceInUnicodeEscape))
            }
        }
        State::Brace => brace(c),
        State::Digits { code, count } => digits(mode, code, count, c),
        State::Continuation { lines } => Step::Go(State::Continuation {
            lines: lines || c == '\n',
        }),
    }
}

/// The report of a piece that the content's end cuts off.
pub fn end_fault(state: State) -> Option<EscapeError>
    ensures { result ≡ end_fault_of state }
{
    match state {
        State::Start => None,
        State::Backslash => Some(EscapeError::LoneSlash),
        State::Hex | State::HexDigit(_) => Some(EscapeError::TooShortHexEscape),
        State::Unicode => Some(EscapeError::NoBraceInUnicodeEscape),
        State::Brace | State::Digits { .. } => Some(EscapeError::UnclosedUnicodeEscape),
        State::Continuation { lines } => {
            if lines {
                Some(EscapeError::MultipleSkippedLinesWarning)
            } else {
                None
            }
        }
    }
}
