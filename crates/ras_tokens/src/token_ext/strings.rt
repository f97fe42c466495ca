//! The values of strings, byte strings and C strings.
ghost use Rattle.std.specs.Prelude.{◌≡◌, true, codes};
ghost use Rattle.std.specs.Cow.{cow_str_bytes, IsBorrowedStr, cow_slice_items, IsBorrowedSlice};
ghost use Rattle.tree_model.specs.Tree.{text};
ghost use Rattle.tree_model.specs.Cursor.{focus};
ghost use Rattle.literal_escape.specs.declared.mode.Mode.TheVariants as modes;
ghost use Rattle.ras_token_ext.specs.Literals.{meanings, string_meanings, literal_value, can_borrow};
ghost use Rattle.ras_token_ext.specs.Answered.{IsValueOf, TakesNoMemory};
ghost use Rattle.ras_tokens.specs.AnyStringValues.{IsAnyStringValue, any_string_can_borrow};

use crate::{AnyString, tokens};
use literal_escape::Mode;
use ras_token_ext::ValueError;
use std::alloc::Global;
use std::borrow::{CowSlice, CowStr};

impl tokens::String {
    /// The value: the content of a raw string, otherwise the meanings of its units, joined.
    ///
    /// Without two quotes the result is `Escape(LoneSlash)`, otherwise the last fatal fault, if
    /// there is one; warnings are ignored. A content that is raw or has no backslash is borrowed,
    /// and takes no memory.
    pub fn value(&self, alloc: Global) -> Result<CowStr<'_, Global>, ValueError>
        ensures value { IsValueOf cow_str_bytes
            (literal_value string_meanings modes.Str (codes "r") (text (focus self.now.syntax)))
            result }
        ensures borrowed { can_borrow (codes "r") (text (focus self.now.syntax)) ≡ true
            → TakesNoMemory IsBorrowedStr result }
    {
        ras_token_ext::string_value(alloc, self.syntax.text())
    }
}

impl tokens::ByteString {
    /// The value in bytes. Errors and memory are as for a string.
    pub fn value(&self, alloc: Global) -> Result<CowSlice<'_, u8, Global>, ValueError>
        ensures value { IsValueOf cow_slice_items
            (literal_value (meanings modes.ByteStr) modes.ByteStr (codes "br")
            (text (focus self.now.syntax))) result }
        ensures borrowed { can_borrow (codes "br") (text (focus self.now.syntax)) ≡ true
            → TakesNoMemory IsBorrowedSlice result }
    {
        ras_token_ext::bytes_value(alloc, Mode::ByteStr, "br", self.syntax.text())
    }
}

impl tokens::CString {
    /// The value in bytes, without the closing NUL; characters are encoded as UTF-8. Errors and
    /// memory are as for a string.
    pub fn value(&self, alloc: Global) -> Result<CowSlice<'_, u8, Global>, ValueError>
        ensures value { IsValueOf cow_slice_items
            (literal_value (meanings modes.CStr) modes.CStr (codes "cr")
            (text (focus self.now.syntax))) result }
        ensures borrowed { can_borrow (codes "cr") (text (focus self.now.syntax)) ≡ true
            → TakesNoMemory IsBorrowedSlice result }
    {
        ras_token_ext::bytes_value(alloc, Mode::CStr, "cr", self.syntax.text())
    }
}

impl AnyString {
    /// The value as a text. Errors and memory are as for the `value` of the string, byte string or
    /// C string.
    ///
    /// Bytes that are not UTF-8 are `Escape(NonAsciiCharInByte)`. If memory runs out before that is
    /// known, the result is `Memory`.
    pub fn value(&self, alloc: Global) -> Result<CowStr<'_, Global>, ValueError>
        ensures value { IsAnyStringValue cow_str_bytes self.now result }
        ensures borrowed { any_string_can_borrow self.now ≡ true
            → TakesNoMemory IsBorrowedStr result }
    {
        match self {
            AnyString::ByteString(it) => ras_token_ext::text_value(
                alloc,
                Mode::ByteStr,
                "br",
                it.syntax.text(),
            ),
            AnyString::CString(it) => ras_token_ext::text_value(
                alloc,
                Mode::CStr,
                "cr",
                it.syntax.text(),
            ),
            AnyString::String(it) => it.value(alloc),
        }
    }
}
