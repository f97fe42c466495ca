//! What a placeholder for a list takes of some siblings.
ghost use Rattle.std.specs.Prelude.{◌≡◌, IfOk};
ghost use Rattle.lossless_tree.specs.Trees.{first_of};
ghost use Rattle.tree_match.specs.Runs.{behind_run};
ghost use Rattle.tree_match.specs.Lists.{has_more, is_listed, extent, behind_comma, opened, closed, list_at};

use crate::bare::{Comments, is_token_of, past, without_comma};
use crate::kind::is_kind;
use crate::part::Comma;
use crate::run::Run;
use lossless_tree::SyntaxKind;
use std::alloc::AllocError;

// Whether more than so many of some siblings are nodes.
fn has_more(behind: usize, left: &Run<'_>) -> bool
    ensures { result ≡ has_more behind left.now.trees }
{
    let mut spare = behind;
    let mut rest = left.all();
    while !rest.is_done() {
        if !rest.is_token() {
            if spare == 0 {
                return true;
            }
            spare -= 1;
        }
        rest = rest.rest();
    }
    false
}

// Whether the first of some siblings is an element, or what may stand between two.
fn is_listed(left: &Run<'_>) -> bool
    ensures { result ≡ is_listed (first_of left.now.trees) }
{
    let kind = left.kind();
    !left.is_token() || kind.is_trivia() || is_kind(kind, SyntaxKind::COMMA)
}

// How many siblings there are up to the last node but so many; `None` if something else is between
// the elements.
fn extent(behind: usize, left: &Run<'_>) -> Result<Option<usize>, AllocError>
    ensures { IfOk result (λ o. o ≡ extent behind left.now.trees) }
{
    let mut count = 0usize;
    let mut rest = left.all();
    while has_more(behind, &rest) {
        if !is_listed(&rest) {
            return Ok(None);
        }
        rest = rest.rest();
        count = count.checked_add(1).ok_or(AllocError)?;
    }
    Ok(Some(count))
}

// The siblings behind the first few.
fn behind_run<'t>(count: usize, left: &Run<'t>) -> Run<'t>
    ensures { result ≡ behind_run count left.now }
{
    let mut missing = count;
    let mut rest = left.all();
    while missing > 0 {
        missing -= 1;
        rest = rest.rest();
    }
    rest
}

// The siblings behind a comma, if that is next.
fn behind_comma<'t>(comments: Comments, left: &Run<'t>) -> Option<Run<'t>>
    ensures { result ≡ behind_comma comments left.now }
{
    let here = past(comments, left);
    if is_token_of(SyntaxKind::COMMA, &here) {
        Some(past(comments, &here.rest()))
    } else {
        None
    }
}

// The siblings from the first element of a list on.
fn opened<'t>(comments: Comments, comma: Comma, left: &Run<'t>) -> Option<Run<'t>>
    ensures { result ≡ opened comments comma left.now }
{
    match comma {
        Comma::Before => behind_comma(comments, left),
        Comma::Behind | Comma::Nowhere => Some(left.all()),
    }
}

// The siblings behind a list and its comma.
fn closed<'t>(comments: Comments, comma: Comma, left: &Run<'t>) -> Option<Run<'t>>
    ensures { result ≡ closed comments comma left.now }
{
    match comma {
        Comma::Behind => behind_comma(comments, left),
        Comma::Before | Comma::Nowhere => Some(left.all()),
    }
}

/// The elements of a list that leave so many nodes, and the siblings behind it. The list is empty
/// if there are no more nodes.
pub(crate) fn list_at<'t>(
    comments: Comments,
    comma: Comma,
    behind: usize,
    here: &Run<'t>,
) -> Result<Option<(Run<'t>, Run<'t>)>, AllocError>
    ensures { IfOk result (λ o. o ≡ list_at comments comma behind here.now) }
{
    if !has_more(behind, here) {
        return Ok(Some((here.first(0), here.all())));
    }
    let Some(from) = opened(comments, comma, here) else {
        return Ok(None);
    };
    let Some(count) = extent(behind, &from)? else {
        return Ok(None);
    };
    let end = without_comma(comments, &behind_run(count, &from));
    let Some(rest) = closed(comments, comma, &end) else {
        return Ok(None);
    };
    Ok(Some((from.first(count), rest)))
}
