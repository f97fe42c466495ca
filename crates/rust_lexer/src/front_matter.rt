//! A front matter at a file's start, and the shebang before it.
ghost use Rattle.std.specs.Prelude.{◌≡◌};
ghost use Rattle.rust_lexer.specs.Heads.{skip_line_of, last_line_of, skip_empty_lines_of, has_shebang_of, closing_of, body_of, behind_shebang_of, prelude_of};

use crate::class::{Class, Wide, after, after_char, begins, begins_wide, skip};
use crate::scan::{Scan, run};
use crate::shebang::{begins_shebang, behind_two};

/// What precedes a file's first token; each part is given as the number of bytes after it.
#[derive(Clone, Copy)]
pub struct Prelude {
    /// The shebang, with the end of its line.
    pub shebang: Option<usize>,
    /// The front matter, with the white space before it.
    pub front_matter: Option<usize>,
}

// The rest after the line.
fn skip_line(bytes: &[u8]) -> &[u8]
    ensures { result.now ≡ skip_line_of bytes.now }
{
    after(skip(Class::InLine, bytes), 1)
}

// The rest after the newline, if one is first.
fn last_line<'a>(before: &'a [u8], rest: &'a [u8]) -> &'a [u8]
    ensures { result.now ≡ last_line_of before.now rest.now }
{
    if begins(b'\n', rest) {
        after_char(rest)
    } else {
        before
    }
}

// The rest after the lines of white space.
fn skip_empty_lines(bytes: &[u8]) -> &[u8]
    ensures { result.now ≡ skip_empty_lines_of bytes.now }
{
    let mut behind_line = bytes;
    let mut rest = bytes;
    for turn in 0..bytes.len() {
        if !begins_wide(Wide::Space, rest) {
            return behind_line;
        }
        behind_line = last_line(behind_line, rest);
        rest = after_char(rest);
    }
    behind_line
}

// Whether a shebang is first. An attribute `#![..]` is not one, even with white space before its
// bracket.
fn has_shebang(text: &str) -> bool
    ensures { result ≡ has_shebang_of text.now }
{
    begins_shebang(text.as_bytes()) && !begins(b'[', behind_two(text).trim_start().as_bytes())
}

// The number of bytes after the line of the closing fence, given the text after the fence; `None`
// if that line has more than blanks.
fn closing(bytes: &[u8]) -> Option<usize>
    ensures { result ≡ closing_of bytes.now }
{
    let rest = skip(Class::Blank, bytes);
    if rest.is_empty() {
        Some(0)
    } else if begins(b'\n', rest) {
        Some(after(rest, 1).len())
    } else if begins(b'\r', rest) && begins(b'\n', after(rest, 1)) {
        Some(after(rest, 2).len())
    } else {
        None
    }
}

// The number of bytes after the front matter, given the text after its opening fence of `dashes`
// dashes.
fn body(dashes: usize, bytes: &[u8]) -> Option<usize>
    ensures { result ≡ body_of dashes bytes.now }
{
    let (scan, rest) = run(Scan::Matter(dashes), skip(Class::InLine, bytes));
    match scan {
        Scan::Closed => match closing(rest) {
            None => None,
            Some(left) => {
                let content = after(rest, rest.len().saturating_sub(left));
                if begins(b'-', skip_empty_lines(content)) {
                    None
                } else {
                    Some(left)
                }
            }
        },
        _ => None,
    }
}

// The rest after the shebang.
fn behind_shebang(text: &str) -> &[u8]
    ensures { result.now ≡ behind_shebang_of text.now }
{
    if has_shebang(text) {
        skip_line(text.as_bytes())
    } else {
        text.as_bytes()
    }
}

/// The shebang and the front matter of a text, or `None` if the front matter is faulty.
pub fn head(text: &str) -> Option<Prelude>
    ensures { result ≡ prelude_of text.now }
{
    let bytes = behind_shebang(text);
    let shebang = if has_shebang(text) {
        Some(bytes.len())
    } else {
        None
    };
    let fence = skip_empty_lines(bytes);
    let rest = skip(Class::Dash, fence);
    let dashes = fence.len().saturating_sub(rest.len());
    if dashes == 0 {
        Some(Prelude {
            shebang,
            front_matter: None,
        })
    } else if dashes < 3 {
        None
    } else {
        match body(dashes, rest) {
            None => None,
            Some(left) => Some(Prelude {
                shebang,
                front_matter: Some(left),
            }),
        }
    }
}
