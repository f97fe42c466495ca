//! Integers, floating point numbers, characters and bytes.
ghost use Rattle.std.specs.Prelude.{◌≡◌, option_map, IfOk, string_bytes};
ghost use Rattle.tree_model.specs.Tree.{text};
ghost use Rattle.tree_model.specs.Cursor.{focus};
ghost use Rattle.ras_token_ext.specs.Numbers.{radix_of, int_prefix, int_digits, int_suffix, int_value, float_digits, float_suffix, if_any, value_text};
ghost use Rattle.ras_token_ext.specs.Literals.{char_value, byte_value};

use crate::tokens;
use literal_escape::EscapeError;
use ras_token_ext::{IntError, Radix};
use std::alloc::{AllocError, Global};

impl tokens::IntNumber {
    /// The radix: by the prefix `0b`, `0o` or `0x` in lower case, otherwise decimal.
    pub fn radix(&self) -> Radix
        ensures { result ≡ radix_of (text (focus self.now.syntax)) }
    {
        Radix::of(self.syntax.text())
    }

    /// The prefix that names the radix, the digits with their underscores, and the suffix; each may
    /// be empty.
    pub fn split_into_parts(&self) -> (&str, &str, &str)
        ensures prefix { result.0.now ≡ int_prefix (text (focus self.now.syntax)) }
        ensures digits { result.1.now ≡ int_digits (text (focus self.now.syntax)) }
        ensures suffix { result.2.now ≡ int_suffix (text (focus self.now.syntax)) }
    {
        ras_token_ext::split_int(self.syntax.text())
    }

    /// The suffix, or `None` if there is none.
    pub fn suffix(&self) -> Option<&str>
        ensures { option_map (λ s. s.now) result
            ≡ if_any (int_suffix (text (focus self.now.syntax))) }
    {
        ras_token_ext::int_suffix(self.syntax.text())
    }

    /// The digits without the underscores.
    pub fn value_string(&self, alloc: Global) -> Result<String, AllocError>
        ensures { IfOk result
            (λ value. string_bytes value ≡ value_text (int_digits (text (focus self.now.syntax)))) }
    {
        ras_token_ext::int_value_string(alloc, self.syntax.text())
    }

    /// The value. It takes no memory.
    pub fn value(&self) -> Result<u128, IntError>
        ensures { result ≡ int_value (text (focus self.now.syntax)) }
    {
        ras_token_ext::int_value(self.syntax.text())
    }
}

impl tokens::FloatNumber {
    /// The digits with point, exponent and underscores, and the suffix, which may be empty.
    pub fn split_into_parts(&self) -> (&str, &str)
        ensures digits { result.0.now ≡ float_digits (text (focus self.now.syntax)) }
        ensures suffix { result.1.now ≡ float_suffix (text (focus self.now.syntax)) }
    {
        ras_token_ext::split_float(self.syntax.text())
    }

    /// The suffix, or `None` if there is none.
    pub fn suffix(&self) -> Option<&str>
        ensures { option_map (λ s. s.now) result
            ≡ if_any (float_suffix (text (focus self.now.syntax))) }
    {
        ras_token_ext::float_suffix(self.syntax.text())
    }

    /// The digits with point and exponent, without the underscores.
    pub fn value_string(&self, alloc: Global) -> Result<String, AllocError>
        ensures { IfOk result (λ value. string_bytes value
            ≡ value_text (float_digits (text (focus self.now.syntax)))) }
    {
        ras_token_ext::float_value_string(alloc, self.syntax.text())
    }
}

impl tokens::Char {
    /// The character. Without the opening `'` it is [`EscapeError::ZeroChars`]; the closing one may
    /// be missing.
    pub fn value(&self) -> Result<char, EscapeError>
        ensures { result ≡ char_value (text (focus self.now.syntax)) }
    {
        ras_token_ext::char_value(self.syntax.text())
    }
}

impl tokens::Byte {
    /// The byte. Without the opening `b'` it is [`EscapeError::ZeroChars`]; the closing quote may
    /// be missing.
    pub fn value(&self) -> Result<u8, EscapeError>
        ensures { result ≡ byte_value (text (focus self.now.syntax)) }
    {
        ras_token_ext::byte_value(self.syntax.text())
    }
}
