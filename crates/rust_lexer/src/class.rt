//! Classes of bytes and characters, and the longest prefix of a text in one.
ghost use Rattle.std.specs.Prelude.{◌≡◌, ◌≤◌, ◌<◌, true, length, slice_get, drop};
ghost use Rattle.bstr.specs.Utf8.{decoded};
ghost use Rattle.rust_lexer.specs.declared.class.Class.TheVariants as classes;
ghost use Rattle.rust_lexer.specs.Fast.{begins_word_of, is_prefix_of, is_alone_of};
ghost use Rattle.rust_lexer.specs.Classes.{test_on, is_letter_of, is_digit_of, is_hex_digit_of, is_in_of, is_space_of, is_name_start_of, is_name_continue_of, is_emoji_of, is_wide_of, skip_of, begins_of, begins_digit_of, begins_beyond_of, begins_wide_of, skip_wide_of};

use bstr::decode_utf8;
use unicode_ident::{is_xid_continue, is_xid_start};

/// A class of bytes.
#[derive(Clone, Copy)]
pub enum Class {
    /// White space in ASCII.
    Space,
    /// Space and tab.
    Blank,
    /// Characters that may follow in a name: ASCII letters and digits, and `_`.
    Name,
    /// Decimal digits and `_`.
    Decimal,
    /// Hexadecimal digits and `_`.
    Hexadecimal,
    /// `_`
    Underscore,
    /// `#`
    Hash,
    /// `-`
    Dash,
    /// All except a backslash.
    InString,
    /// ASCII except a backslash and NUL.
    InBytes,
    /// All except a newline.
    InLine,
    /// All except `(`.
    NoParen,
}

/// A class of characters.
#[derive(Clone, Copy)]
pub enum Wide {
    /// White space.
    Space,
    /// Characters that may follow in a name.
    Name,
    /// Characters that may follow in a name with an emoji.
    Emoji,
}

// What each byte is: `a` for `_` and a letter, `b` for a letter that may also begin a literal, `d`
// for a digit, `s` for white space in ASCII, `p` for a byte of ASCII that is a token of its own
// wherever a token begins, and `x` for all others.
static BYTES: [u8; 256] = *b"\
    pppppppppssssspppppppppppppppppp\
    spxxpppxpppppppxddddddddddpppppp\
    paaaaaaaaaaaaaaaaaaaaaaaaaappppa\
    pabbaaaaaaaaaaaaaabaaaaaaaappppp\
    xxxxxxxxxxxxxxxxxxxxxxxxxxxxxxxx\
    xxxxxxxxxxxxxxxxxxxxxxxxxxxxxxxx\
    xxxxxxxxxxxxxxxxxxxxxxxxxxxxxxxx\
    xxxxxxxxxxxxxxxxxxxxxxxxxxxxxxxx";

/// Whether it is white space in ASCII.
#[inline(always)]
pub fn is_blank(byte: u8) -> bool
    ensures { result ≡ is_in_of classes.Space byte }
{
    BYTES[byte as usize] == b's'
}

/// Whether it is a letter of ASCII, a digit or `_`.
#[inline(always)]
fn is_name_byte(byte: u8) -> bool
    ensures { result ≡ is_in_of classes.Name byte }
{
    BYTES[byte as usize] <= b'd'
}

/// Whether it is a letter of ASCII or `_`.
#[inline(always)]
pub fn begins_word(byte: u8) -> bool
    ensures { result ≡ begins_word_of byte }
{
    BYTES[byte as usize] < b'd'
}

/// Whether it is one of the letters `r`, `b` and `c`, with which literals and raw names may begin.
#[inline(always)]
pub fn is_prefix(byte: u8) -> bool
    ensures { result ≡ is_prefix_of byte }
{
    BYTES[byte as usize] == b'b'
}

/// Whether a token that begins with it is no longer than it.
#[inline(always)]
pub fn is_alone(byte: u8) -> bool
    ensures { result ≡ is_alone_of byte }
{
    BYTES[byte as usize] == b'p'
}

/// Whether it is a letter of ASCII.
#[inline]
pub fn is_letter(byte: u8) -> bool
    ensures { result ≡ is_letter_of byte }
{
    (b'a' <= byte && byte <= b'z') || (b'A' <= byte && byte <= b'Z')
}

/// Whether it is a decimal digit.
#[inline]
pub fn is_digit(byte: u8) -> bool
    ensures { result ≡ is_digit_of byte }
{
    b'0' <= byte && byte <= b'9'
}

#[inline]
fn is_hex_digit(byte: u8) -> bool
    ensures { result ≡ is_hex_digit_of byte }
{
    is_digit(byte) || (b'a' <= byte && byte <= b'f') || (b'A' <= byte && byte <= b'F')
}

/// Whether the byte is in the class.
#[inline]
pub fn is_in(class: Class, byte: u8) -> bool
    ensures { result ≡ is_in_of class byte }
{
    match class {
        Class::Space => is_blank(byte),
        Class::Blank => byte == b' ' || byte == b'\t',
        Class::Name => is_name_byte(byte),
        Class::Decimal => is_digit(byte) || byte == b'_',
        Class::Hexadecimal => is_hex_digit(byte) || byte == b'_',
        Class::Underscore => byte == b'_',
        Class::Hash => byte == b'#',
        Class::Dash => byte == b'-',
        Class::InString => byte != b'\\',
        Class::InBytes => byte != b'\\' && byte != 0 && byte < 128,
        Class::InLine => byte != b'\n',
        Class::NoParen => byte != b'(',
    }
}

// White space: the characters with the property Pattern_White_Space.
fn is_space(c: char) -> bool
    ensures { result ≡ is_space_of c }
{
    c == ' '
        || ('\t' <= c && c <= '\r')
        || c == '\u{85}'
        || c == '\u{200e}'
        || c == '\u{200f}'
        || c == '\u{2028}'
        || c == '\u{2029}'
}

/// Whether a name may begin with the character.
pub fn is_name_start(c: char) -> bool
    ensures { result ≡ is_name_start_of c }
{
    c == '_' || is_xid_start(c)
}

fn is_name_continue(c: char) -> bool
    ensures { result ≡ is_name_continue_of c }
{
    is_xid_continue(c)
}

/// An emoji that is not ASCII.
pub fn is_emoji(c: char) -> bool
    ensures { result ≡ is_emoji_of c }
{
    '\u{80}' <= c && ucd_emoji::is_emoji(c)
}

fn is_wide(class: Wide, c: char) -> bool
    ensures { result ≡ is_wide_of class c }
{
    match class {
        Wide::Space => is_space(c),
        Wide::Name => is_name_continue(c),
        Wide::Emoji => is_name_continue(c) || is_emoji(c) || c == '\u{200d}',
    }
}

/// The first byte.
#[inline]
pub fn first_byte(bytes: &[u8]) -> Option<u8>
    ensures { result ≡ slice_get bytes.now 0 }
{
    bytes.first().copied()
}

/// The bytes after the first `count`.
#[inline]
pub fn after(bytes: &[u8], count: usize) -> &[u8]
    ensures { result.now ≡ drop count bytes.now }
{
    match bytes.get(count..) {
        Some(rest) => rest,
        None => &[],
    }
}

/// The rest after the longest prefix of bytes in the class.
#[inline]
pub fn skip(class: Class, bytes: &[u8]) -> &[u8]
    ensures { result.now ≡ skip_of class bytes.now }
{
    let mut rest = bytes;
    while let Some((first, tail)) = rest.split_first() {
        if !is_in(class, *first) {
            return rest;
        }
        rest = tail;
    }
    rest
}

/// The length of the longest prefix of bytes in the class.
#[inline(always)]
pub fn count(class: Class, bytes: &[u8]) -> usize
    ensures within { result ≤ length bytes.now }
    ensures rest { drop result bytes.now ≡ skip_of class bytes.now }
    ensures some { test_on (is_in_of class) (slice_get bytes.now 0) ≡ true → 0 < result }
{
    let mut len = 0;
    while len < bytes.len() && is_in(class, bytes[len]) {
        len += 1;
    }
    len
}

/// The rest after the first UTF-8 character.
pub fn after_char(bytes: &[u8]) -> &[u8]
    ensures { result.now ≡ drop (decoded bytes.now).size bytes.now }
{
    after(bytes, decode_utf8(bytes).1)
}

/// Whether the first character is in the class.
pub fn begins_wide(class: Wide, bytes: &[u8]) -> bool
    ensures { result ≡ begins_wide_of class bytes.now }
{
    match decode_utf8(bytes).0 {
        Some(first) => is_wide(class, first),
        None => false,
    }
}

/// The rest after the longest prefix of characters in the class.
pub fn skip_wide(class: Wide, bytes: &[u8]) -> &[u8]
    ensures { result.now ≡ skip_wide_of class bytes.now }
{
    let mut rest = bytes;
    for turn in 0..bytes.len() {
        if !begins_wide(class, rest) {
            return rest;
        }
        rest = after_char(rest);
    }
    rest
}

/// Whether the first byte is this one.
#[inline]
pub fn begins(byte: u8, bytes: &[u8]) -> bool
    ensures { result ≡ begins_of byte bytes.now }
{
    match first_byte(bytes) {
        Some(first) => first == byte,
        None => false,
    }
}

/// Whether the first byte is not ASCII.
#[inline]
pub fn begins_beyond(bytes: &[u8]) -> bool
    ensures { result ≡ begins_beyond_of bytes.now }
{
    match first_byte(bytes) {
        Some(first) => 128 <= first,
        None => false,
    }
}

/// Whether a decimal digit is first.
pub fn begins_digit(bytes: &[u8]) -> bool
    ensures { result ≡ begins_digit_of bytes.now }
{
    match first_byte(bytes) {
        Some(first) => is_digit(first),
        None => false,
    }
}
