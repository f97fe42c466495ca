//! Where a text is cut.
ghost use Rattle.std.specs.Prelude.{◌≡◌, take, drop};
ghost use Rattle.rust_lexer.specs.Cuts.{cut_of, front_of, back_of};

/// The text without its last `left` bytes, and those bytes. If they do not begin on a character
/// boundary, or are the whole text, it returns the whole text and an empty text.
#[inline]
pub fn split(text: &str, left: usize) -> (&str, &str)
    ensures front { result.0.now ≡ front_of left text.now }
    ensures back { result.1.now ≡ back_of left text.now }
{
    let len = text.len().saturating_sub(left);
    if len == 0 || !text.is_char_boundary(len) {
        (text, "")
    } else {
        text.split_at(len)
    }
}
