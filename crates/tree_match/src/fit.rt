//! Placeholders for lists among the parts of a pattern.

use crate::part::{Comma, Part, Sort};
use crate::rule::RuleRefusal;
use lossless_tree::SyntaxKind;
use std::alloc::{AllocError, Global};

fn is_comma(part: Option<&Part>) -> bool {
    matches!(part, Some(Part::Token(SyntaxKind::COMMA, _)))
}

// Where the comma is that goes with the list at an index.
fn comma_at(parts: &[Part], index: usize) -> Comma {
    if is_comma(index.checked_sub(1).and_then(|at| parts.get(at))) {
        Comma::Before
    } else if is_comma(parts.get(index.saturating_add(1))) {
        Comma::Behind
    } else {
        Comma::Nowhere
    }
}

// How many nodes start at a part: one or none.
fn nodes_at(part: &Part) -> usize {
    match part {
        Part::Enter(_) => 1,
        Part::Hole(_, sort) if *sort != Sort::Word => 1,
        _ => 0,
    }
}

// How many nodes there are behind an index on its level; or the placeholder of another list there.
fn nodes_behind(parts: &[Part], index: usize) -> Result<usize, usize> {
    let mut depth = 0usize;
    let mut count = 0usize;
    for part in parts.iter().skip(index.saturating_add(1)) {
        if depth == 0 {
            match part {
                Part::Leave => break,
                Part::List(number, ..) => return Err(*number),
                _ => count = count.saturating_add(nodes_at(part)),
            }
        }
        match part {
            Part::Enter(_) => depth = depth.saturating_add(1),
            Part::Leave => depth = depth.saturating_sub(1),
            _ => {}
        }
    }
    Ok(count)
}

// Marks the comma that goes with the list at an index.
fn mark_comma(is_gone: &mut [bool], comma: Comma, index: usize) {
    let of_comma = match comma {
        Comma::Nowhere => None,
        Comma::Before => index.checked_sub(1),
        Comma::Behind => index.checked_add(1),
    };
    let Some(at) = of_comma else {
        return;
    };
    if let Some(mark) = is_gone.get_mut(at) {
        *mark = true;
    }
}

// The list with a number that is at an index, with its comma, which it marks, and the nodes behind
// it.
fn fitted_at(
    parts: &[Part],
    index: usize,
    number: usize,
    is_gone: &mut [bool],
) -> Result<Part, RuleRefusal> {
    let comma = comma_at(parts, index);
    match nodes_behind(parts, index) {
        Err(other) => Err(RuleRefusal::Twice(other)),
        Ok(behind) => {
            mark_comma(is_gone, comma, index);
            Ok(Part::List(number, comma, behind))
        }
    }
}

// Whether the list with a number is before an index.
fn is_before(parts: &[Part], index: usize, number: usize) -> bool {
    for part in parts.iter().take(index) {
        match part {
            Part::List(other, ..) if *other == number => return true,
            _ => {}
        }
    }
    false
}

// Gives the list at an index, if one is there, its comma, which it marks, and the nodes behind it.
fn fit_at(parts: &mut [Part], index: usize, is_gone: &mut [bool]) -> Result<(), RuleRefusal> {
    let Some(Part::List(number, ..)) = parts.get(index) else {
        return Ok(());
    };
    let number = *number;
    if is_before(parts, index, number) {
        return Err(RuleRefusal::Twice(number));
    }
    let list = fitted_at(parts, index, number, is_gone)?;
    if let Some(part) = parts.get_mut(index) {
        *part = list;
    }
    Ok(())
}

// Gives the lists among some parts their commas, which it marks, and the nodes behind them.
fn fit_each(parts: &mut [Part], is_gone: &mut [bool]) -> Result<(), RuleRefusal> {
    for index in 0..parts.len() {
        fit_at(parts, index, is_gone)?;
    }
    Ok(())
}

// Drops the parts that are marked.
fn drop_marked(parts: &mut Vec<Part>, is_gone: &[bool]) {
    let mut marks = is_gone.iter();
    parts.retain(|_| !matches!(marks.next(), Some(true)));
}

/// Gives each list among some parts its comma, and how many nodes are behind it. Takes time for
/// each list that is linear in the parts.
///
/// # Errors
///
/// `Twice` if a list comes twice or two are on one level; `Memory`.
pub(crate) fn fit_lists(alloc: Global, parts: &mut Vec<Part>) -> Result<(), RuleRefusal> {
    let mut is_gone = vec![in alloc; false; parts.len()]?;
    fit_each(parts, &mut is_gone)?;
    drop_marked(parts, &is_gone);
    Ok(())
}
