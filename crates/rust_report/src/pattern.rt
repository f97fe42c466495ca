//! Patterns of kinds, and their matches in a tree.
ghost use Rattle.std.specs.Prelude.{◌≡◌, ◌<◌, ◌∷◌, [], ◌++◌, IfOk, OnOk, map};
ghost use Rattle.std.specs.List.{filter};
ghost use Rattle.tree_model.specs.Tree.{size};
ghost use Rattle.tree_model.specs.Cursor.{descendants_of};
ghost use Rattle.lossless_tree.specs.Element.{element_of};
ghost use Rattle.rust_report.specs.Patterns.{allows, fits_at};
ghost use Rattle.rust_report.specs.Marks.{marks_of, fits_row, fits_up, reaches, element_at};

use lossless_tree::{SyntaxElement, SyntaxKind, SyntaxNode};
use std::alloc::{AllocError, Global};
use tree_rows::Table;

/// How a match of a step is related to the match of the step before it.
#[derive(Clone, Copy, Debug, PartialEq, Eq)]
pub enum Link {
    /// It is a child of that: `>`.
    Child,
    /// It is a descendant of that, at any depth: `//`.
    Within,
}

/// A step of a pattern.
#[derive(Clone, Copy, Debug)]
pub struct Step {
    /// How it is related to the step before it; not used in the first step.
    pub link: Link,
    /// The kind; `None` for any kind, which is written `*`.
    pub kind: Option<SyntaxKind>,
}

fn allows(step: Step, kind: SyntaxKind) -> bool
    ensures { result ≡ allows step kind }
{
    match step.kind {
        Some(wanted) => kind.to_raw() == wanted.to_raw(),
        None => true,
    }
}

// Whether a row, or one above it, is marked: what is above is known for the rows before.
fn is_marked_up(table: &Table, row: usize, steps: &[Step], marks: &[bool], up: &[bool]) -> bool
    requires is_row { row < size table.now }
    requires marked { marks.now ≡ marks_of (fits_row table.now steps.now) (size table.now) }
    requires above { up.now ≡ marks_of (fits_up table.now steps.now) row }
    ensures { result ≡ fits_up table.now steps.now row }
{
    match table.parent_row(row) {
        Some(parent) => marks[row] || up[parent],
        None => marks[row],
    }
}

// For each row whether it, or one above it, is marked.
fn marks_up(
    alloc: Global,
    table: &Table,
    steps: &[Step],
    marks: &[bool],
) -> Result<Vec<bool>, AllocError>
    requires { marks.now ≡ marks_of (fits_row table.now steps.now) (size table.now) }
    ensures { IfOk result
        (λ up. up.items ≡ marks_of (fits_up table.now steps.now) (size table.now)) }
{
    let mut up = Vec::with_capacity(alloc, table.len())?;
    while up.len() < table.len() {
        up.push(is_marked_up(table, up.len(), steps, marks, up.as_slice()))?;
    }
    Ok(up)
}

// Whether a row matches the first of some steps, and its parent, or a row above, the others.
fn is_match(table: &Table, row: usize, step: Step, rest: &[Step], seen: &[bool]) -> bool
    requires is_row { row < size table.now }
    requires seen { seen.now ≡ marks_of (reaches step.link table.now rest.now) (size table.now) }
    ensures { result ≡ fits_row table.now (step ∷ rest.now) row }
{
    if !allows(step, table.kind_at(row)) {
        return false;
    }
    if rest.is_empty() {
        return true;
    }
    match table.parent_row(row) {
        Some(parent) => seen[parent],
        None => false,
    }
}

fn matches_by(
    alloc: Global,
    table: &Table,
    step: Step,
    rest: &[Step],
    seen: &[bool],
) -> Result<Vec<bool>, AllocError>
    requires { seen.now ≡ marks_of (reaches step.link table.now rest.now) (size table.now) }
    ensures { IfOk result
        (λ marks. marks.items ≡ marks_of (fits_row table.now (step ∷ rest.now)) (size table.now)) }
{
    let mut marks = Vec::with_capacity(alloc, table.len())?;
    while marks.len() < table.len() {
        marks.push(is_match(table, marks.len(), step, rest, seen))?;
    }
    Ok(marks)
}

// For each row whether it matches a step and the others, given this for the others.
fn matches_of(
    alloc: Global,
    table: &Table,
    step: Step,
    rest: &[Step],
    marks: &[bool],
) -> Result<Vec<bool>, AllocError>
    requires { marks.now ≡ marks_of (fits_row table.now rest.now) (size table.now) }
    ensures { IfOk result
        (λ all. all.items ≡ marks_of (fits_row table.now (step ∷ rest.now)) (size table.now)) }
{
    match step.link {
        Link::Child => matches_by(alloc, table, step, rest, marks),
        Link::Within => {
            let up = marks_up(alloc, table, rest, marks)?;
            matches_by(alloc, table, step, rest, up.as_slice())
        }
    }
}

// For each row of a table whether it matches the steps of a pattern.
fn matches(alloc: Global, table: &Table, steps: &[Step]) -> Result<Vec<bool>, AllocError>
    ensures { IfOk result
        (λ marks. marks.items ≡ marks_of (fits_row table.now steps.now) (size table.now)) }
{
    let mut marks = vec![in alloc; true; table.len()]?;
    let mut at = steps.len();
    while at > 0 {
        at -= 1;
        let (step, rest) = (steps[at], &steps[at + 1..]);
        marks = matches_of(alloc, table, step, rest, marks.as_slice())?;
    }
    Ok(marks)
}

// Adds the node or token at a row if it is marked.
fn push_marked(
    root: &SyntaxNode,
    row: usize,
    steps: &[Step],
    marks: &[bool],
    found: &mut Vec<SyntaxElement>,
) -> Result<(), AllocError>
    requires is_row { row < size root.now.tree }
    requires marked { marks.now ≡ marks_of (fits_row root.now.tree steps.now) (size root.now.tree) }
    ensures { OnOk result (found.new.items
        ≡ found.old.items ++ filter (fits_at steps.now) (element_at root.now.tree row ∷ [])) }
{
    if marks[row] {
        if let Some(element) = root.element_at_row(row) {
            found.push(element)?;
        }
    }
    Ok(())
}

/// The nodes and tokens of a subtree that match a pattern, in preorder. The steps are given last
/// step first.
///
/// Takes time and memory linear in the whole tree, once for each step.
///
/// # Errors
///
/// `AllocError` if memory runs out.
pub fn query(
    alloc: Global,
    root: &SyntaxNode,
    steps: &[Step],
) -> Result<Vec<SyntaxElement>, AllocError>
    ensures { IfOk result (λ found. found.items
        ≡ filter (fits_at steps.now) (map element_of (descendants_of root.now))) }
{
    let table = root.table().as_ref();
    let marks = matches(alloc, table, steps)?;
    let first = root.row();
    let (_, end) = table.rows_below(first);
    let mut found = Vec::new(alloc);
    let mut row = first;
    while row < end {
        push_marked(root, row, steps, marks.as_slice(), &mut found)?;
        row += 1;
    }
    Ok(found)
}
