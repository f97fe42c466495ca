//! White space and comments: how many come next, and which of them go into the next node.
ghost use Rattle.std.specs.Prelude.{◌≡◌, ◌-◌, take, drop};
ghost use Rattle.event_layout.specs.Trivia.{lead, later_of, part_of, newlines_after, has_blank_line, attached_after, attached, attaches_of, is_blank_on, kept_of, outside_of};

use syntax_kind::SyntaxKind;
use text_size::TextSize;
use token_layout::Token;

/// The number of trivia at the front of the tokens.
#[inline(always)]
pub fn lead(tokens: &[Token]) -> usize
    ensures { result ≡ lead tokens.now }
{
    for (i, token) in tokens.iter().enumerate() {
        if !token.kind.is_trivia() {
            return i;
        }
    }
    tokens.len()
}

/// The sum of both, or 4,294,967,295 if it is larger.
pub fn later(start: TextSize, len: TextSize) -> TextSize
    ensures { result ≡ later_of start len }
{
    TextSize::new(start.raw().saturating_add(len.raw()))
}

/// The `len` bytes from the byte `start` on, or fewer if the text ends before.
pub fn part(bytes: &[u8], start: TextSize, len: TextSize) -> &[u8]
    ensures { result.now ≡ part_of bytes.now start len }
{
    let start = (start.raw() as usize).min(bytes.len());
    let rest = &bytes[start..];
    &rest[..(len.raw() as usize).min(rest.len())]
}

fn newlines_after(count: u8, byte: u8) -> u8
    ensures { result ≡ newlines_after count byte }
{
    if count == 2 {
        2
    } else if byte != b'\n' {
        0
    } else if count == 0 {
        1
    } else {
        2
    }
}

// Whether there are two line feeds with nothing between them.
#[tactic(auto, unfolding(crate::specs::Trivia::has_blank_line))]
fn has_blank_line(bytes: &[u8]) -> bool
    ensures { result ≡ has_blank_line bytes.now }
{
    let mut newlines = 0;
    for byte in bytes {
        newlines = newlines_after(newlines, *byte);
    }
    newlines == 2
}

// How many of the trivia read so far go into the node, and where the next one starts.
#[derive(Clone, Copy)]
struct Keep {
    kept: usize,
    start: TextSize,
}

fn kept(bytes: &[u8], start: TextSize, len: TextSize, kind: SyntaxKind, kept: usize) -> usize
    ensures { result ≡ kept_of (part_of bytes.now start len) kind kept }
{
    if matches!(kind, SyntaxKind::COMMENT) {
        kept.saturating_add(1)
    } else if kept == 0 || has_blank_line(part(bytes, start, len)) {
        0
    } else {
        kept.saturating_add(1)
    }
}

fn attached_after(bytes: &[u8], token: Token, before: Keep) -> Keep
    ensures { result ≡ attached_after bytes.now token before }
{
    Keep {
        kept: kept(bytes, before.start, token.len, token.kind, before.kept),
        start: later(before.start, token.len),
    }
}

// The number of trivia that go into the node: the comments from the last blank line on, and the
// white space after them. The first of the trivia starts at `start`.
#[tactic(auto, unfolding(crate::specs::Trivia::attached))]
fn attached(bytes: &[u8], start: TextSize, trivia: &[Token]) -> usize
    ensures { result ≡ attached bytes.now start trivia.now }
{
    let mut attached = Keep { kept: 0, start };
    for token in trivia {
        attached = attached_after(bytes, *token, attached);
    }
    attached.kept
}

fn attaches(kinds: &[SyntaxKind], kind: SyntaxKind) -> bool
    ensures { result ≡ attaches_of kinds.now kind }
{
    kinds.iter().any(|other| other.to_raw() == kind.to_raw())
}

/// Whether the first of the tokens is no comment.
#[inline(always)]
pub fn is_blank(tokens: &[Token]) -> bool
    ensures { result ≡ is_blank_on tokens.now }
{
    match tokens {
        [] => false,
        [token, ..] => !matches!(token.kind, SyntaxKind::COMMENT),
    }
}

/// How many of the next `count` trivia stay outside of a node of the kind.
pub fn outside(
    bytes: &[u8],
    attaching: &[SyntaxKind],
    kind: SyntaxKind,
    start: TextSize,
    tokens: &[Token],
    count: usize,
) -> usize
    ensures { result ≡ outside_of bytes.now attaching.now kind start tokens.now count }
{
    let attached = attached(bytes, start, first(tokens, count));
    if attached > 0 && attaches(attaching, kind) {
        count.saturating_sub(attached)
    } else {
        count
    }
}

/// The first `count` tokens, or all if there are fewer.
pub fn first(tokens: &[Token], count: usize) -> &[Token]
    ensures { result.now ≡ take count tokens.now }
{
    &tokens[..count.min(tokens.len())]
}

/// The tokens after the first `count`, or none if there are fewer.
pub fn behind(tokens: &[Token], count: usize) -> &[Token]
    ensures { result.now ≡ drop count tokens.now }
{
    &tokens[count.min(tokens.len())..]
}
