//! The state of a scan for the end of a token that ends with a mark, such as a comment or a string.
ghost use Rattle.std.specs.Prelude.{◌≡◌, Some};
ghost use Rattle.rust_lexer.specs.Scans.{after_raw_quote_of, comment_of, comment_slash_of, comment_star_of, text_of, quote_of, quote_line_of, raw_of, raw_hashes_of, seek_of, seek_second_of, matter_of, fence_of, next_of, run_of};

/// The state of the scan.
#[derive(Clone, Copy, PartialEq, Eq)]
pub enum Scan {
    /// A block comment that is nested in this many others.
    Comment(u32),
    /// The same after a `/` that may open one.
    CommentSlash(u32),
    /// The same after a `*` that may close it.
    CommentStar(u32),
    /// A string.
    Text,
    /// The same after a backslash.
    TextEscape,
    /// A character.
    Quote,
    /// The same after a backslash.
    QuoteEscape,
    /// The same after a newline.
    QuoteLine,
    /// A raw string with this many `#`.
    Raw(usize),
    /// The same after a quote: how many `#` are still needed, and how many in all.
    RawHashes(usize, usize),
    /// A front matter with a fence of this many `-`.
    Matter(usize),
    /// The same at the start of a line: how many `-` are still needed, and how many in all.
    Fence(usize, usize),
    /// A search for the first byte followed by the second.
    Seek(u8, u8),
    /// The same after the first.
    SeekSecond(u8, u8),
    /// The closing mark is read.
    Closed,
}

#[inline]
fn after_raw_quote(hashes: usize) -> Scan
    ensures { result ≡ after_raw_quote_of hashes }
{
    if hashes == 0 {
        Scan::Closed
    } else {
        Scan::RawHashes(hashes, hashes)
    }
}

#[inline]
fn comment(depth: u32, byte: u8) -> Scan
    ensures { result ≡ comment_of depth byte }
{
    match byte {
        b'/' => Scan::CommentSlash(depth),
        b'*' => Scan::CommentStar(depth),
        _ => Scan::Comment(depth),
    }
}

#[inline]
fn text(byte: u8) -> Scan
    ensures { result ≡ text_of byte }
{
    match byte {
        b'"' => Scan::Closed,
        b'\\' => Scan::TextEscape,
        _ => Scan::Text,
    }
}

#[inline]
fn quote(byte: u8) -> Option<Scan>
    ensures { result ≡ quote_of byte }
{
    match byte {
        b'\'' => Some(Scan::Closed),
        b'\\' => Some(Scan::QuoteEscape),
        b'\n' => Some(Scan::QuoteLine),
        b'/' => None,
        _ => Some(Scan::Quote),
    }
}

#[inline]
fn raw(hashes: usize, byte: u8) -> Scan
    ensures { result ≡ raw_of hashes byte }
{
    if byte == b'"' {
        after_raw_quote(hashes)
    } else {
        Scan::Raw(hashes)
    }
}

#[inline]
fn seek(first: u8, second: u8, byte: u8) -> Scan
    ensures { result ≡ seek_of first second byte }
{
    if byte == first {
        Scan::SeekSecond(first, second)
    } else {
        Scan::Seek(first, second)
    }
}

#[inline]
fn matter(dashes: usize, byte: u8) -> Scan
    ensures { result ≡ matter_of dashes byte }
{
    if byte == b'\n' {
        Scan::Fence(dashes, dashes)
    } else {
        Scan::Matter(dashes)
    }
}

#[inline]
fn comment_slash(depth: u32, byte: u8) -> Scan
    ensures { result ≡ comment_slash_of depth byte }
{
    if byte == b'*' {
        Scan::Comment(depth.saturating_add(1))
    } else {
        comment(depth, byte)
    }
}

#[inline]
fn comment_star(depth: u32, byte: u8) -> Scan
    ensures { result ≡ comment_star_of depth byte }
{
    if byte != b'/' {
        comment(depth, byte)
    } else if depth == 0 {
        Scan::Closed
    } else {
        Scan::Comment(depth - 1)
    }
}

#[inline]
fn quote_line(byte: u8) -> Option<Scan>
    ensures { result ≡ quote_line_of byte }
{
    if byte == b'\'' {
        Some(Scan::Closed)
    } else {
        None
    }
}

#[inline]
fn raw_hashes(left: usize, hashes: usize, byte: u8) -> Scan
    ensures { result ≡ raw_hashes_of left hashes byte }
{
    if byte != b'#' {
        raw(hashes, byte)
    } else if left <= 1 {
        Scan::Closed
    } else {
        Scan::RawHashes(left - 1, hashes)
    }
}

#[inline]
fn fence(left: usize, dashes: usize, byte: u8) -> Scan
    ensures { result ≡ fence_of left dashes byte }
{
    if byte != b'-' {
        matter(dashes, byte)
    } else if left <= 1 {
        Scan::Closed
    } else {
        Scan::Fence(left - 1, dashes)
    }
}

#[inline]
fn seek_second(first: u8, second: u8, byte: u8) -> Scan
    ensures { result ≡ seek_second_of first second byte }
{
    if byte == second {
        Scan::Closed
    } else {
        seek(first, second, byte)
    }
}

/// The state after one more byte, or `None` if the scan ends before it.
#[inline]
pub fn next(scan: Scan, byte: u8) -> Option<Scan>
    ensures { result ≡ next_of scan byte }
{
    match scan {
        Scan::Comment(depth) => Some(comment(depth, byte)),
        Scan::CommentSlash(depth) => Some(comment_slash(depth, byte)),
        Scan::CommentStar(depth) => Some(comment_star(depth, byte)),
        Scan::Text => Some(text(byte)),
        Scan::TextEscape => Some(Scan::Text),
        Scan::Quote => quote(byte),
        Scan::QuoteEscape => Some(Scan::Quote),
        Scan::QuoteLine => quote_line(byte),
        Scan::Raw(hashes) => Some(raw(hashes, byte)),
        Scan::RawHashes(left, hashes) => Some(raw_hashes(left, hashes, byte)),
        Scan::Matter(dashes) => Some(matter(dashes, byte)),
        Scan::Fence(left, dashes) => Some(fence(left, dashes, byte)),
        Scan::Seek(first, second) => Some(seek(first, second, byte)),
        Scan::SeekSecond(first, second) => Some(seek_second(first, second, byte)),
        Scan::Closed => None,
    }
}

/// The state after reading the bytes, and the rest.
#[inline]
pub fn run(start: Scan, bytes: &[u8]) -> (Scan, &[u8])
    ensures scan { result.0 ≡ (run_of start bytes.now).0 }
    ensures rest { result.1.now ≡ (run_of start bytes.now).1 }
{
    let mut scan = start;
    let mut rest = bytes;
    while let Some((first, tail)) = rest.split_first() {
        match next(scan, *first) {
            None => return (scan, rest),
            Some(further) => scan = further,
        }
        rest = tail;
    }
    (scan, rest)
}
