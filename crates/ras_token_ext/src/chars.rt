//! The values of characters and bytes.
ghost use Rattle.std.specs.Prelude.{◌≡◌, option_map};
ghost use Rattle.ras_token_ext.specs.Literals.{unquoted, char_value, byte_value};

use crate::parts::{begins_with, cut, ends_with};
use literal_escape::{EscapeError, unescape_byte, unescape_char};

// The text after an opening marker, without a closing quote, if it has one; `None` if the marker is
// missing.
fn unquoted<'t>(text: &'t str, marker: &str) -> Option<&'t str>
    ensures { option_map (λ s. s.now) result ≡ unquoted marker.now text.now }
{
    if !begins_with(text, marker) {
        return None;
    }
    let behind = cut(text, marker.len(), text.len())?;
    if ends_with(behind, "'") {
        cut(behind, 0, behind.len().saturating_sub(1))
    } else {
        Some(behind)
    }
}

/// The character of a character literal. Without the opening `'` it is [`EscapeError::ZeroChars`];
/// the closing one may be missing.
pub fn char_value(text: &str) -> Result<char, EscapeError>
    ensures { result ≡ char_value text.now }
{
    match unquoted(text, "'") {
        Some(content) => unescape_char(content),
        None => Err(EscapeError::ZeroChars),
    }
}

/// The byte of a byte literal. Without the opening `b'` it is [`EscapeError::ZeroChars`]; the
/// closing quote may be missing.
pub fn byte_value(text: &str) -> Result<u8, EscapeError>
    ensures { result ≡ byte_value text.now }
{
    match unquoted(text, "b'") {
        Some(content) => unescape_byte(content),
        None => Err(EscapeError::ZeroChars),
    }
}
