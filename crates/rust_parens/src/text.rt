//! A text without some pairs of parentheses.
ghost use Rattle.std.specs.Prelude.{◌≡◌, ◌++◌, IfOk, OnOk, set, true, string_bytes};
ghost use Rattle.rust_parens.specs.Words.{is_word};
ghost use Rattle.rust_parens.specs.Texts.{mark_pair, marked, marks_of, is_taken, is_sign, takes_equals, would_join, would_join_at, gap_of, push_token, with_element, text_without};

use crate::find::parens_of;
use lossless_tree::{NodeOrToken, SyntaxElement, SyntaxNode, TextRange};
use rust_report::is_left_out;
use std::alloc::{AllocError, Global};

fn mark_at(marks: &mut [bool], offset: usize)
    ensures { marks.new ≡ set marks.old offset true }
{
    if offset < marks.len() {
        marks[offset] = true;
    }
}

fn mark_pair(marks: &mut [bool], two: Option<(TextRange, TextRange)>)
    ensures { marks.new ≡ mark_pair two marks.old }
{
    if let Some((open, close)) = two {
        mark_at(marks, open.start().raw() as usize);
        mark_at(marks, close.start().raw() as usize);
    }
}

fn mark(marks: &mut [bool], pairs: &[SyntaxNode])
    ensures { marks.new ≡ marked marks.old pairs.now }
{
    for pair in pairs {
        mark_pair(marks, parens_of(pair));
    }
}

/// Marks the parentheses of the pairs of `chosen` and `more`, in a text of `len` bytes.
#[tactic(auto, using(crate::proofs::MarkLemmas::both_marked))]
pub(crate) fn marks_of(
    alloc: Global,
    len: usize,
    chosen: &[SyntaxNode],
    more: &[SyntaxNode],
) -> Result<Vec<bool>, AllocError>
    ensures { IfOk result (λ marks. marks.items ≡ marks_of len (chosen.now ++ more.now)) }
{
    let mut marks = vec![in alloc; false; len]?;
    let slice = marks.as_mut_slice();
    mark(slice, chosen);
    mark(slice, more);
    Ok(marks)
}

/// Whether a byte belongs to a word: a letter, a digit, `_`, and each byte that is not ASCII.
pub(crate) fn is_word(byte: u8) -> bool
    ensures { result ≡ is_word byte }
{
    (48 <= byte && byte <= 57)
        || ((65 <= byte && byte <= 90)
            || ((97 <= byte && byte <= 122) || (byte == b'_' || 128 <= byte)))
}

// Whether a byte continues a word, such as `"` after `b`.
fn is_taken(byte: u8) -> bool
    ensures { result ≡ is_taken byte }
{
    is_word(byte) || (byte == b'"' || (byte == b'\'' || byte == b'#'))
}

// Whether two bytes are one sign, or begin or end a comment.
fn is_sign(a: u8, b: u8) -> bool
    ensures { result ≡ is_sign a b }
{
    (a == b
        && (a == b'.'
            || (a == b':'
                || (a == b'&' || (a == b'|' || (a == b'<' || (a == b'>' || a == b'/')))))))
        || ((a == b'-' && b == b'>')
            || ((a == b'=' && b == b'>')
                || ((a == b'<' && b == b'-')
                    || ((a == b'/' && b == b'*') || (a == b'*' && b == b'/')))))
}

// Whether a byte and a `=` after it are one sign.
fn takes_equals(a: u8) -> bool
    ensures { result ≡ takes_equals a }
{
    matches!(
        a,
        b'=' | b'!' | b'<' | b'>' | b'+' | b'-' | b'*' | b'/' | b'%' | b'^' | b'&' | b'|'
    )
}

// Whether a token that ends with one byte and a token that begins with the other would be joined.
fn would_join(a: u8, b: u8) -> bool
    ensures { result ≡ would_join a b }
{
    (is_word(a) && is_taken(b)) || (is_sign(a, b) || (b == b'=' && takes_equals(a)))
}

fn would_join_at(a: Option<u8>, b: Option<u8>) -> bool
    ensures { result ≡ would_join_at a b }
{
    match a {
        None => false,
        Some(a) => match b {
            None => false,
            Some(b) => would_join(a, b),
        },
    }
}

// A blank if `apart` is true.
fn gap_of(apart: bool) -> &'static str
    ensures { result.now ≡ gap_of apart }
{
    if apart { " " } else { "" }
}

// Appends a token to a text; if something was left out between them, with a blank if they would be
// joined.
#[tactic(auto, using(crate::proofs::MarkLemmas::push_token_both))]
fn push_token(out: &mut String, gap: bool, token: &str) -> Result<(), AllocError>
    ensures { OnOk result (string_bytes out.new ≡ push_token gap (string_bytes out.old) token.now) }
{
    let last = out.as_bytes().last().copied();
    let first = token.as_bytes().first().copied();
    out.push_str(gap_of(gap && would_join_at(last, first)))?;
    out.push_str(token)
}

// Appends a token to a text, unless the marks leave it out; a node adds nothing. Returns whether
// something was left out before what follows.
fn push_element(
    out: &mut String,
    gap: bool,
    marks: &[bool],
    element: &SyntaxElement,
) -> Result<bool, AllocError>
    ensures { IfOk result (λ g. (string_bytes out.new, g)
        ≡ with_element marks.now (string_bytes out.old, gap) element.now) }
{
    let NodeOrToken::Token(token) = element else {
        return Ok(gap);
    };
    if is_left_out(marks, element) {
        return Ok(true);
    }
    push_token(out, gap, token.text())?;
    Ok(false)
}

/// The text of a tree without the parentheses that marks leave out, with a blank in place of those
/// whose neighbours would be joined.
///
/// Takes time linear in the tree.
///
/// # Errors
///
/// `AllocError` if memory runs out.
#[tactic(auto, using(crate::proofs::MarkLemmas::stepped, crate::proofs::MarkLemmas::ended))]
pub fn text_without(alloc: Global, root: &SyntaxNode, marks: &[bool]) -> Result<String, AllocError>
    ensures { IfOk result (λ s. string_bytes s ≡ text_without marks.now root.now) }
{
    let mut out = String::with_capacity(alloc, root.as_str().len())?;
    let mut gap = false;
    for element in root.descendants_with_tokens() {
        gap = push_element(&mut out, gap, marks, &element)?;
    }
    Ok(out)
}
