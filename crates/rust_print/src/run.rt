//! Runs of errors: those that one wrong character makes. In `let s = “a”;` the first `“` is no
//! expression, so there is no `;` before the `a`, nor one behind it, and the second `”` is no
//! statement: four errors, of which the first says what is wrong.

use lossless_tree::{Direction, SyntaxNode, TextSize};
use ras_algo::algo::skip_trivia_token;
use ras_front_end::SyntaxError;

// Where the token ends that an error at an offset is about: the one there, or the next one behind
// white space and comments.
fn end_of_token(root: &SyntaxNode, offset: TextSize) -> Option<TextSize> {
    let token = root.token_at_offset(offset).right_biased()?;
    Some(
        skip_trivia_token(token, Direction::Next)?
            .text_range()
            .end(),
    )
}

// Whether a line ends between two offsets of a tree.
fn has_line_end(root: &SyntaxNode, start: TextSize, end: TextSize) -> bool {
    let text = root.as_str().as_bytes();
    match text.get(start.raw() as usize..end.raw() as usize) {
        Some(between) => between.contains(&b'\n'),
        None => true,
    }
}

// Whether an error at an offset goes on with what is wrong at another: it is in the token there, or
// directly behind it, on the same line.
fn goes_on(root: &SyntaxNode, last: TextSize, start: TextSize) -> bool {
    match end_of_token(root, last) {
        Some(end) => {
            last.raw() < start.raw() && start.raw() <= end.raw() && !has_line_end(root, last, start)
        }
        None => false,
    }
}

/// How many of the errors of a tree, directly behind the one with a number, are of its run: each
/// begins where the one before it does, or in the token there or directly behind it, on the same
/// line.
///
/// Takes time linear in the text that they cover, and logarithmic in the tree for each of them.
pub fn more_behind(root: &SyntaxNode, errors: &[SyntaxError], at: usize) -> usize {
    let Some(first) = errors.get(at) else {
        return 0;
    };
    let mut last = first.range().start();
    let mut more: usize = 0;
    // `skip(at)` would pass the errors before, one by one.
    for other in errors.get(at.saturating_add(1)..).unwrap_or(&[]) {
        let start = other.range().start();
        if start != last && !goes_on(root, last, start) {
            break;
        }
        last = start;
        more = more.saturating_add(1);
    }
    more
}
