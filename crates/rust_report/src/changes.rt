//! The lines in which two texts differ.
ghost use Rattle.std.specs.Prelude.{◌≡◌, ◌<◌, ◌≤◌, ◌∷◌, IfOk, map, length, take, drop, IsCharBoundary};
ghost use Rattle.std.specs.List.{common_prefix_len};
ghost use Rattle.rust_report.specs.Changes.{lines_of, is_same, is_other};

use std::alloc::{AllocError, Global};

// Where the first line of a text ends, after its line feed.
fn first_end(text: &str) -> usize
    ensures within { result ≤ length text.now }
    ensures boundary { IsCharBoundary text.now result }
    ensures cut { 0 < length text.now
        → (0 < result)
        × (lines_of text.now ≡ take result text.now ∷ lines_of (drop result text.now)) }
{
    match text.split_once('\n') {
        Some((_, behind)) => text.len() - behind.len(),
        None => text.len(),
    }
}

/// The lines of a text, each with the line feed at its end; the last line may have none. Their
/// concatenation is the text.
///
/// Takes time linear in the text.
///
/// # Errors
///
/// `AllocError` if memory runs out.
pub fn lines_of(alloc: Global, text: &str) -> Result<Vec<&str>, AllocError>
    ensures { IfOk result (λ lines. map (λ line. line.now) lines.items ≡ lines_of text.now) }
{
    let mut lines = Vec::new(alloc);
    let mut rest = text;
    while !rest.is_empty() {
        let end = first_end(rest);
        lines.push(&rest[..end])?;
        rest = &rest[end..];
    }
    Ok(lines)
}

/// How many lines at the start of both lists are the same.
pub fn same_front(old: &[&str], new: &[&str]) -> usize
    ensures { result ≡ common_prefix_len is_same old.now new.now }
{
    let mut count = 0;
    while count < old.len().min(new.len()) {
        if old[count] != new[count] {
            return count;
        }
        count += 1;
    }
    count
}

/// How many lines at the start of both lists differ from the line at the same place of the other
/// list.
pub fn other_front(old: &[&str], new: &[&str]) -> usize
    ensures { result ≡ common_prefix_len is_other old.now new.now }
{
    let mut count = 0;
    while count < old.len().min(new.len()) {
        if old[count] == new[count] {
            return count;
        }
        count += 1;
    }
    count
}
