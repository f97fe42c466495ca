//! Integers and floating point numbers.
ghost use Rattle.std.specs.Prelude.{◌≡◌, ◌+◌, ◌*◌, ◌<◌, ◌≤◌, true, length, drop, IfOk, option_map, string_bytes};
ghost use Rattle.std.specs.List.{position_or_len, list_any};
ghost use Rattle.std.specs.Str.Parse.{digits_value};
ghost use Rattle.std.specs.Str.{IsCharBoundary};
ghost use Rattle.ras_token_ext.specs.Numbers.{radix_of, base_of, prefix_len, starts_suffix, int_prefix, int_digits, int_suffix, first_letter, is_exponent, float_len, float_digits, float_suffix, if_any, value_text, digit_of, are_digits, if_small, appended, number_after, is_no_underscore, without_underscores, int_value};

use std::alloc::{AllocError, Global};

/// The base that an integer is written in. An `as` cast to a number gives the base:
/// `Radix::Octal as u32` is 8.
#[derive(Clone, Copy, Debug, PartialEq, Eq)]
pub enum Radix {
    Binary = 2,
    Octal = 8,
    Decimal = 10,
    Hexadecimal = 16,
}

impl Radix {
    /// Each radix, the smallest first.
    pub const ALL: [Radix; 4] = [
        Radix::Binary,
        Radix::Octal,
        Radix::Decimal,
        Radix::Hexadecimal,
    ];

    /// The radix of an integer: by its prefix `0b`, `0o` or `0x`, in lower case, otherwise decimal.
    pub fn of(text: &str) -> Radix
        ensures value { result ≡ radix_of text.now }
        ensures boundary { IsCharBoundary text.now (prefix_len result) }
    {
        let bytes = text.as_bytes();
        if bytes.len() < 2 || bytes[0] != b'0' {
            return Radix::Decimal;
        }
        if bytes[1] == b'b' {
            return Radix::Binary;
        }
        if bytes[1] == b'o' {
            return Radix::Octal;
        }
        if bytes[1] == b'x' {
            return Radix::Hexadecimal;
        }
        Radix::Decimal
    }

    // How many bytes the prefix has.
    fn prefix_len(self) -> usize
        ensures { result ≡ prefix_len self }
    {
        match self {
            Radix::Decimal => 0,
            _ => 2,
        }
    }

    fn base(self) -> u32
        ensures value { result ≡ base_of self }
        ensures least { 2 ≤ result }
        ensures most { result ≤ 16 }
    {
        match self {
            Radix::Binary => 2,
            Radix::Octal => 8,
            Radix::Decimal => 10,
            Radix::Hexadecimal => 16,
        }
    }
}

// Whether a byte begins the suffix of an integer.
fn starts_suffix(radix: Radix, byte: u8) -> bool
    ensures value { result ≡ starts_suffix radix byte }
    ensures ascii { result ≡ true → byte < 128 }
{
    match radix {
        Radix::Hexadecimal => matches!(byte, b'g'..=b'z' | b'G'..=b'Z'),
        _ => byte.is_ascii_alphabetic(),
    }
}

// The offset of the suffix after a prefix; the length of the text if there is no suffix.
fn suffix_place(text: &str, radix: Radix) -> usize
    ensures value { result ≡ position_or_len (starts_suffix radix) text.now }
    ensures boundary { IsCharBoundary text.now result }
{
    let bytes = text.as_bytes();
    for i in 0..bytes.len() {
        if starts_suffix(radix, bytes[i]) {
            return i;
        }
    }
    bytes.len()
}

/// The prefix of an integer that names its radix, its digits with their underscores, and its
/// suffix; each may be empty.
pub fn split_int(text: &str) -> (&str, &str, &str)
    ensures prefix { result.0.now ≡ int_prefix text.now }
    ensures digits { result.1.now ≡ int_digits text.now }
    ensures suffix { result.2.now ≡ int_suffix text.now }
{
    let radix = Radix::of(text);
    let (prefix, body) = text.split_at(radix.prefix_len());
    let (digits, suffix) = body.split_at(suffix_place(body, radix));
    (prefix, digits, suffix)
}

// The offset of the first ASCII letter; the length of the text if there is none.
fn first_letter(text: &str) -> usize
    ensures value { result ≡ first_letter text.now }
    ensures boundary { IsCharBoundary text.now result }
{
    suffix_place(text, Radix::Decimal)
}

// Whether a byte begins an exponent.
fn is_exponent(byte: u8) -> bool
    ensures value { result ≡ is_exponent byte }
    ensures ascii { result ≡ true → byte < 128 }
{
    byte == b'e' || byte == b'E'
}

// The length of the digits of a floating point number: up to its suffix.
fn float_len(text: &str) -> usize
    ensures value { result ≡ float_len text.now }
    ensures boundary { IsCharBoundary text.now result }
{
    let letter = first_letter(text);
    let bytes = text.as_bytes();
    if letter < bytes.len() {
        if is_exponent(bytes[letter]) {
            return letter + 1 + first_letter(&text[letter + 1..]);
        }
    }
    letter
}

/// The digits of a floating point number, with point, exponent and underscores, and its suffix,
/// which may be empty: it begins at the first ASCII letter, but after an `e` or `E` at the next
/// one.
pub fn split_float(text: &str) -> (&str, &str)
    ensures digits { result.0.now ≡ float_digits text.now }
    ensures suffix { result.1.now ≡ float_suffix text.now }
{
    let (digits, suffix) = text.split_at(float_len(text));
    (digits, suffix)
}

// The text, or `None` if it is empty.
fn if_any(text: &str) -> Option<&str>
    ensures { option_map (λ s. s.now) result ≡ if_any text.now }
{
    if text.is_empty() { None } else { Some(text) }
}

/// The suffix of an integer, as `u8`, or `None` if there is none.
pub fn int_suffix(text: &str) -> Option<&str>
    ensures { option_map (λ s. s.now) result ≡ if_any (int_suffix text.now) }
{
    let (_, _, suffix) = split_int(text);
    if_any(suffix)
}

/// The suffix of a floating point number, as `f64`, or `None` if there is none.
pub fn float_suffix(text: &str) -> Option<&str>
    ensures { option_map (λ s. s.now) result ≡ if_any (float_suffix text.now) }
{
    let (_, suffix) = split_float(text);
    if_any(suffix)
}

/// Why an integer has no value. The first variant that applies is returned.
#[derive(Clone, Copy, Debug, PartialEq, Eq)]
pub enum IntError {
    /// It has no digit: nothing but underscores between the prefix and the suffix.
    Empty,
    /// It has a character that is not a digit of its radix.
    InvalidDigit,
    /// It is 2 to the power of 128 or more.
    TooLarge,
}

// Whether a text has a character other than underscores.
fn has_digits(text: &str) -> bool
    ensures { result ≡ list_any is_no_underscore text.now }
{
    text.as_bytes().iter().any(|byte| *byte != b'_')
}

// The value of a byte as a digit in a base.
fn digit(byte: u8, base: u32) -> Option<u32>
    requires most { base ≤ 36 }
    requires least { 2 ≤ base }
    ensures { result ≡ digit_of base byte }
{
    (byte as char).to_digit(base)
}

// Whether each byte is a digit of the base or an underscore.
fn are_digits(text: &str, base: u32) -> bool
    requires most { base ≤ 36 }
    requires least { 2 ≤ base }
    ensures { result ≡ are_digits base (without_underscores text.now) }
{
    let bytes = text.as_bytes();
    for i in 0..bytes.len() {
        if bytes[i] != b'_' && digit(bytes[i], base).is_none() {
            return false;
        }
    }
    true
}

// A number with one more digit; `None` if it has more than 128 bits.
fn longer(number: u128, digit: u32, base: u32) -> Option<u128>
    requires { base ≤ 36 }
    ensures { result ≡ if_small (number * base + digit) }
{
    number.checked_mul(base as u128)?.checked_add(digit as u128)
}

// A number with one more byte, which is a digit or an underscore.
fn appended(number: u128, byte: u8, base: u32) -> Option<u128>
    requires most { base ≤ 36 }
    requires least { 2 ≤ base }
    ensures { result ≡ appended base number byte }
{
    if byte == b'_' {
        return Some(number);
    }
    longer(number, digit(byte, base)?, base)
}

// The value of digits, without the underscores; `None` if it has more than 128 bits.
fn number(text: &str, base: u32) -> Option<u128>
    requires most { base ≤ 36 }
    requires least { 2 ≤ base }
    ensures { result ≡ number_after base 0 text.now }
{
    let mut number: u128 = 0;
    let bytes = text.as_bytes();
    for i in 0..bytes.len() {
        match appended(number, bytes[i], base) {
            Some(next) => number = next,
            None => return None,
        }
    }
    Some(number)
}

/// The value of an integer: the value of its digits between the prefix and the suffix, without the
/// underscores. It takes no memory.
pub fn int_value(text: &str) -> Result<u128, IntError>
    ensures { result ≡ int_value text.now }
{
    let (_, digits, _) = split_int(text);
    let base = Radix::of(text).base();
    if !has_digits(digits) {
        return Err(IntError::Empty);
    }
    if !are_digits(digits, base) {
        return Err(IntError::InvalidDigit);
    }
    match number(digits, base) {
        Some(number) => Ok(number),
        None => Err(IntError::TooLarge),
    }
}

/// The digits of an integer without the underscores.
pub fn int_value_string(alloc: Global, text: &str) -> Result<String, AllocError>
    ensures { IfOk result (λ value. string_bytes value ≡ value_text (int_digits text.now)) }
{
    let (_, digits, _) = split_int(text);
    without_underscores(alloc, digits)
}

/// The digits of a floating point number, with point and exponent, without the underscores.
pub fn float_value_string(alloc: Global, text: &str) -> Result<String, AllocError>
    ensures { IfOk result (λ value. string_bytes value ≡ value_text (float_digits text.now)) }
{
    let (digits, _) = split_float(text);
    without_underscores(alloc, digits)
}

// A text without its underscores.
fn without_underscores(alloc: Global, text: &str) -> Result<String, AllocError>
    ensures { IfOk result (λ value. string_bytes value ≡ value_text text.now) }
{
    let mut value = String::new(alloc);
    let mut rest = text.chars();
    while let Some(c) = rest.next() {
        if c != '_' {
            value.push(c)?;
        }
    }
    Ok(value)
}
