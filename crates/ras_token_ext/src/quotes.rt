//! The ranges of the quotes and of the content of a string in the text of a whole tree.
ghost use Rattle.std.specs.Prelude.{◌≡◌, ◌+◌, ◌<◌, ◌^◌, length};
ghost use Rattle.ras_token_ext.specs.Quotes.{quote_offsets, range_up, offset_down};

use crate::strings::quote_places;
use text_size::{TextRange, TextSize};

/// The ranges of a string's quotes, each with the text outside the quote, and of its content.
#[derive(Clone, Copy, Debug, PartialEq, Eq)]
pub struct QuoteOffsets {
    /// From the token's start up to the content, and from the content up to the token's end.
    pub quotes: (TextRange, TextRange),
    /// The content, between the first and the last `"`.
    pub contents: TextRange,
}

/// The ranges of a string that starts at an offset, or `None` if it does not have two quotes.
pub fn quote_offsets(text: &str, start: TextSize) -> Option<QuoteOffsets>
    requires { start + length text.now < 2 ^ 32 }
    ensures { result ≡ quote_offsets start text.now }
{
    let (first, last) = quote_places(text)?;
    let content = TextSize::new(start.raw() + first as u32 + 1);
    let behind = TextSize::new(start.raw() + last as u32);
    let end = TextSize::new(start.raw() + text.len() as u32);
    Some(QuoteOffsets {
        quotes: (TextRange::new(start, content), TextRange::new(behind, end)),
        contents: TextRange::new(content, behind),
    })
}

/// A range of a content as a range of the whole text, or `None` if it reaches past the content.
pub fn range_up(contents: TextRange, range: TextRange) -> Option<TextRange>
    ensures { result ≡ range_up contents range }
{
    if range.end().raw() <= contents.len().raw() {
        range.checked_add(contents.start())
    } else {
        None
    }
}

/// An offset of the whole text as an offset of the content, or `None` if it is before the content.
/// It can be past the content's end.
pub fn offset_down(contents: TextRange, offset: TextSize) -> Option<TextSize>
    ensures { result ≡ offset_down contents offset }
{
    let raw = offset.raw().checked_sub(contents.start().raw())?;
    Some(TextSize::new(raw))
}
