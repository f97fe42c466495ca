//! Parts of a text.
ghost use Rattle.std.specs.Prelude.{◌≡◌, nat_eq, option_map};
ghost use Rattle.std.specs.List.{starts_with, ends_with};
ghost use Rattle.ras_token_ext.specs.Texts.{is_boundary, part, is_raw};

// Whether a character begins at an offset, or the text ends there.
fn is_boundary(text: &str, at: usize) -> bool
    ensures { result ≡ is_boundary text.now at }
{
    let bytes = text.as_bytes();
    if at < bytes.len() {
        bytes[at] < 0x80 || 0xC0 <= bytes[at]
    } else {
        at == bytes.len()
    }
}

/// The text from one offset to another, or `None` if the first is past the second, if one of them
/// is past the text's end, or if one is not at a character boundary.
pub fn cut(text: &str, from: usize, to: usize) -> Option<&str>
    ensures { option_map (λ s. s.now) result ≡ part text.now from to }
{
    if from <= to && is_boundary(text, from) && is_boundary(text, to) {
        Some(&text[from..to])
    } else {
        None
    }
}

/// Whether a text begins with another.
pub(crate) fn begins_with(text: &str, front: &str) -> bool
    ensures { result ≡ starts_with nat_eq text.now front.now }
{
    text.starts_with(front)
}

/// Whether a text ends with another.
pub(crate) fn ends_with(text: &str, back: &str) -> bool
    ensures { result ≡ ends_with nat_eq text.now back.now }
{
    text.ends_with(back)
}

/// Whether a literal is raw: its text begins with the prefix of such literals, `r`, `br` or `cr`.
pub fn is_raw(text: &str, prefix: &str) -> bool
    ensures { result ≡ is_raw prefix.now text.now }
{
    begins_with(text, prefix)
}
