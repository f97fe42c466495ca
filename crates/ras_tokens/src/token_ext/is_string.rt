//! The trait of string literals.
ghost use Rattle.std.specs.Prelude.{◌≡◌, List, ℕ, codes, option_map, unwrap_or};
ghost use Rattle.std.specs.List.{FoldsTo};
ghost use Rattle.std.specs.Option.{option_and_then};
ghost use Rattle.std.specs.Str.{chars};
ghost use Rattle.tree_model.specs.Tree.{text};
ghost use Rattle.tree_model.specs.Cursor.{focus, range_start};
ghost use Rattle.literal_escape.specs.declared.mode.Mode.{Mode};
ghost use Rattle.literal_escape.specs.declared.mode.Mode.TheVariants as modes;
ghost use Rattle.literal_escape.specs.Pieces.{CalledOnEach};
ghost use Rattle.literal_escape.specs.Reading.{reports_in};
ghost use Rattle.ras_token_ext.specs.Texts.{is_raw};
ghost use Rattle.ras_token_ext.specs.Literals.{content_of};
ghost use Rattle.ras_token_ext.specs.Quotes.{quote_offsets, range_up, offset_down};
ghost use Rattle.ras_token_ext.specs.Units.{shown, literal_calls};
ghost use Rattle.ras_tokens.specs.AnyStringCases.{any_string_prefix, any_string_literal};

use crate::{AnyString, tokens};
use literal_escape::{EscapeError, Mode};
use lossless_tree::{TextRange, TextSize};
use ras_node::AstToken;
use ras_token_ext::QuoteOffsets;
use std::ops::Range;

/// A string literal: its content is between the first and the last `"` of its text. Ranges and
/// offsets are those of the whole tree unless a call says otherwise. No call takes memory; each
/// takes time linear in the token's text.
pub trait IsString: AstToken {
    /// The prefix of raw strings of the kind.
    ghost prefix: { Self → List ℕ };

    /// The mode of the kind's contents.
    ghost literal: { Self → Mode };

    /// The prefix of raw strings of the kind: `r`, `br` or `cr`.
    fn raw_prefix(&self) -> &'static str
        ensures { result.now ≡ prefix self.now };

    /// The mode in which the content is unescaped.
    fn mode(&self) -> Mode
        ensures { result ≡ literal self.now };

    /// Calls `callback` on each unit of a content of the kind, in order, with its range in bytes
    /// from the content's start, and its character or fault, warnings too. A byte is passed as the
    /// character with that code, and each unit of a C string as `_`, without faults. Returns the
    /// callback in the state that the last call left.
    final fn unescape<F: FnMut(Range<usize>, Result<char, EscapeError>)>(
        &self,
        content: &str,
        callback: F,
    ) -> F
        requires { F.IsAlwaysCallable callback }
        ensures { CalledOnEach (shown (literal self.now))
            (λ f range unit g. F.step f range unit tt g) callback result
            (reports_in (literal self.now) (chars content.now)) }
    {
        ras_token_ext::unescape(self.mode(), content, callback)
    }

    /// Whether the text begins with that prefix.
    final fn is_raw(&self) -> bool
        ensures { result ≡ is_raw (prefix self.now) (text (focus (Self.token self.now))) }
    {
        ras_token_ext::is_raw(self.text(), self.raw_prefix())
    }

    /// The ranges of the quotes and of the content, or `None` if the text does not have two quotes.
    final fn quote_offsets(&self) -> Option<QuoteOffsets>
        ensures { result
            ≡ quote_offsets (range_start (Self.token self.now))
            (text (focus (Self.token self.now))) }
    {
        ras_token_ext::quote_offsets(self.text(), self.syntax().text_range().start())
    }

    /// The range of the content.
    final fn text_range_between_quotes(&self) -> Option<TextRange>
        ensures { result
            ≡ option_map (λ q. q.contents) (quote_offsets (range_start (Self.token self.now))
            (text (focus (Self.token self.now)))) }
    {
        let offsets = self.quote_offsets()?;
        Some(offsets.contents)
    }

    /// The content; the whole text if it does not have two quotes.
    final fn text_without_quotes(&self) -> &str
        ensures { result.now
            ≡ unwrap_or (content_of (text (focus (Self.token self.now))))
            (text (focus (Self.token self.now))) }
    {
        let text = self.text();
        match ras_token_ext::string_content(text) {
            Some(content) => content,
            None => text,
        }
    }

    /// The range from the token's start up to the content.
    final fn open_quote_text_range(&self) -> Option<TextRange>
        ensures { result
            ≡ option_map (λ q. q.quotes.0) (quote_offsets (range_start (Self.token self.now))
            (text (focus (Self.token self.now)))) }
    {
        let offsets = self.quote_offsets()?;
        Some(offsets.quotes.0)
    }

    /// The range from the content up to the token's end.
    final fn close_quote_text_range(&self) -> Option<TextRange>
        ensures { result
            ≡ option_map (λ q. q.quotes.1) (quote_offsets (range_start (Self.token self.now))
            (text (focus (Self.token self.now)))) }
    {
        let offsets = self.quote_offsets()?;
        Some(offsets.quotes.1)
    }

    /// Calls `callback` on each unit of the content, like [`IsString::unescape`], or on each
    /// character of a raw one, with its range from the token's start. It makes no call if there are
    /// not two quotes. Returns the callback in the state that the last call left.
    final fn escaped_char_ranges<F: FnMut(TextRange, Result<char, EscapeError>)>(
        &self,
        callback: F,
    ) -> F
        requires { F.IsAlwaysCallable callback }
        ensures { FoldsTo (λ f call g. F.step f call.0 call.1 tt g) callback
            (literal_calls (literal self.now)
            (is_raw (prefix self.now) (text (focus (Self.token self.now))))
            (text (focus (Self.token self.now)))) result }
    {
        // The token's range says that the text has fewer than 2^32 bytes.
        let _range = self.syntax().text_range();
        ras_token_ext::escaped_char_ranges(self.mode(), self.raw_prefix(), self.text(), callback)
    }

    /// A range of the content as one of the whole tree, or `None` if it reaches past the content,
    /// or if there are not two quotes.
    final fn map_range_up(&self, range: TextRange) -> Option<TextRange>
        ensures { result
            ≡ option_and_then (λ q. range_up q.contents range) (quote_offsets
            (range_start (Self.token self.now)) (text (focus (Self.token self.now)))) }
    {
        let offsets = self.quote_offsets()?;
        ras_token_ext::range_up(offsets.contents, range)
    }

    /// An offset of the whole tree as an offset of the content, or `None` if it is before the
    /// content, or if there are not two quotes.
    final fn map_offset_down(&self, offset: TextSize) -> Option<TextSize>
        ensures { result
            ≡ option_and_then (λ q. offset_down q.contents offset) (quote_offsets
            (range_start (Self.token self.now)) (text (focus (Self.token self.now)))) }
    {
        let offsets = self.quote_offsets()?;
        ras_token_ext::offset_down(offsets.contents, offset)
    }
}

impl IsString for tokens::String {
    ghost prefix = { λ _. codes "r" };

    ghost literal = { λ _. modes.Str };

    fn raw_prefix(&self) -> &'static str {
        "r"
    }

    fn mode(&self) -> Mode {
        Mode::Str
    }
}

impl IsString for tokens::ByteString {
    ghost prefix = { λ _. codes "br" };

    ghost literal = { λ _. modes.ByteStr };

    fn raw_prefix(&self) -> &'static str {
        "br"
    }

    fn mode(&self) -> Mode {
        Mode::ByteStr
    }
}

impl IsString for tokens::CString {
    ghost prefix = { λ _. codes "cr" };

    ghost literal = { λ _. modes.CStr };

    fn raw_prefix(&self) -> &'static str {
        "cr"
    }

    fn mode(&self) -> Mode {
        Mode::CStr
    }
}

impl IsString for AnyString {
    ghost prefix = { any_string_prefix };

    ghost literal = { any_string_literal };

    fn raw_prefix(&self) -> &'static str {
        match self {
            AnyString::ByteString(it) => it.raw_prefix(),
            AnyString::CString(it) => it.raw_prefix(),
            AnyString::String(it) => it.raw_prefix(),
        }
    }

    fn mode(&self) -> Mode {
        match self {
            AnyString::ByteString(it) => it.mode(),
            AnyString::CString(it) => it.mode(),
            AnyString::String(it) => it.mode(),
        }
    }
}
