//! A plain model of changes: what stands in each slot of each row, as printed text.
use lossless_tree::{NodeOrToken, SyntaxElement, SyntaxNode};
use std::alloc::Global;
use std::test::Fail;
use syntax_editor::ChangeError;

/// The slots of an element.
#[derive(Clone, Copy, PartialEq, Eq, Drop)]
pub enum Slot {
    Before,
    Instead,
    First,
    Last,
    After,
}

// What is done at one row.
#[derive(Drop)]
struct RowModel {
    parent: Option<usize>,
    is_token: bool,
    replaced: bool,
    before: String,
    instead: String,
    first: String,
    last: String,
    after: String,
    rows: Counts,
}

// How many nodes and tokens are put into each slot.
#[derive(Clone, Copy, Drop)]
struct Counts {
    before: usize,
    instead: usize,
    first: usize,
    last: usize,
    after: usize,
}

/// What is done at each row.
#[derive(Drop)]
pub struct Model {
    rows: Vec<RowModel>,
}

impl Model {
    /// No changes of a tree.
    pub fn new(alloc: Global, root: &SyntaxNode) -> Result<Model, Fail> {
        let mut rows = Vec::new(alloc);
        let mut row = 0;
        while let Some(element) = root.element_at_row(row) {
            let parent = match &element {
                NodeOrToken::Node(node) => node.parent(),
                NodeOrToken::Token(token) => token.parent(),
            };
            rows.push(RowModel {
                parent: parent.map(|node| node.row()),
                is_token: element.as_token().is_some(),
                replaced: false,
                before: String::new(alloc),
                instead: String::new(alloc),
                first: String::new(alloc),
                last: String::new(alloc),
                after: String::new(alloc),
                rows: Counts {
                    before: 0,
                    instead: 0,
                    first: 0,
                    last: 0,
                    after: 0,
                },
            })?;
            row += 1;
        }
        Ok(Model { rows })
    }

    /// How many rows there are.
    pub fn len(&self) -> usize {
        self.rows.len()
    }

    // Whether a row is below another one.
    fn is_below(&self, row: usize, above: usize) -> bool {
        let mut at = row;
        let mut steps = self.rows.len();
        while steps > 0 {
            match self.rows.as_slice().get(at).and_then(|model| model.parent) {
                Some(up) => {
                    if up == above {
                        return true;
                    }
                    at = up;
                }
                None => return false,
            }
            steps -= 1;
        }
        false
    }

    /// Why a change is refused, if it is.
    pub fn refusal(&self, row: usize, slot: Slot) -> Option<ChangeError> {
        let inner = slot == Slot::First || slot == Slot::Last;
        let here = self.rows.as_slice().get(row)?;
        if row == 0 && !inner {
            return Some(ChangeError::Root);
        }
        if inner && here.is_token {
            return Some(ChangeError::Token);
        }
        if here.replaced && (inner || slot == Slot::Instead) {
            return Some(ChangeError::Replaced);
        }
        let mut changed_inside = !here.first.is_empty() || !here.last.is_empty();
        for (other, model) in self.rows.as_slice().iter().enumerate() {
            if model.replaced && self.is_below(row, other) {
                return Some(ChangeError::InReplaced);
            }
            if self.is_below(other, row) {
                changed_inside = changed_inside
                    || model.replaced
                    || !model.before.is_empty()
                    || !model.first.is_empty()
                    || !model.last.is_empty()
                    || !model.after.is_empty();
            }
        }
        if slot == Slot::Instead && changed_inside {
            return Some(ChangeError::ChangedInside);
        }
        None
    }

    /// The rows of the siblings from one row to another, or `None` if the last is neither the first
    /// nor a later sibling.
    pub fn run(
        &self,
        alloc: Global,
        first: usize,
        last: usize,
    ) -> Result<Option<Vec<usize>>, Fail> {
        let parent = self.rows.as_slice().get(first).ok_or("no such row")?.parent;
        let mut run = Vec::new(alloc);
        for (row, model) in self.rows.as_slice().iter().enumerate() {
            if first <= row && row <= last && model.parent == parent {
                run.push(row)?;
            }
        }
        if run.as_slice().last() == Some(&last) {
            Ok(Some(run))
        } else {
            Ok(None)
        }
    }

    /// Makes a change: puts printed elements, which are so many nodes and tokens, into a slot.
    pub fn add(&mut self, row: usize, slot: Slot, printed: &str, count: usize) -> Result<(), Fail> {
        let model = self.rows.get_mut(row).ok_or("no such row")?;
        match slot {
            Slot::Before => model.rows.before += count,
            Slot::First => model.rows.first += count,
            Slot::Last => model.rows.last += count,
            Slot::After => model.rows.after += count,
            Slot::Instead => model.rows.instead += count,
        }
        match slot {
            Slot::Before => model.before.push_str(printed)?,
            Slot::First => model.first.push_str(printed)?,
            Slot::Last => model.last.push_str(printed)?,
            Slot::After => model.after.push_str(printed)?,
            Slot::Instead => {
                model.replaced = true;
                model.instead.push_str(printed)?;
            }
        }
        Ok(())
    }
}

/// The row of an element in its tree.
pub fn row_of(element: &SyntaxElement) -> usize {
    match element {
        NodeOrToken::Node(node) => node.row(),
        NodeOrToken::Token(token) => token.row(),
    }
}

/// How many nodes and tokens an element has, itself counted.
pub fn count(element: &SyntaxElement) -> usize {
    let mut sum = 1;
    if let NodeOrToken::Node(node) = element {
        for child in node.children_with_tokens() {
            sum += count(&child);
        }
    }
    sum
}

/// Appends the row in the new tree of each node and token of an element, or `None` where it is not
/// kept; `next` is the new row that comes next.
pub fn new_rows(
    element: &SyntaxElement,
    model: &Model,
    kept: bool,
    next: &mut usize,
    out: &mut Vec<Option<usize>>,
) -> Result<(), Fail> {
    let change = model
        .rows
        .as_slice()
        .get(row_of(element))
        .ok_or("no such row")?;
    let stays = kept && !change.replaced;
    if kept {
        *next += change.rows.before;
    }
    if stays {
        out.push(Some(*next))?;
        *next += 1 + change.rows.first;
    } else {
        out.push(None)?;
    }
    if let NodeOrToken::Node(node) = element {
        for child in node.children_with_tokens() {
            new_rows(&child, model, stays, next, out)?;
        }
    }
    if stays {
        *next += change.rows.last;
    } else if kept {
        *next += change.rows.instead;
    }
    if kept {
        *next += change.rows.after;
    }
    Ok(())
}

/// Prints an element, with the changes of a model if there is one.
pub fn print(
    alloc: Global,
    element: &SyntaxElement,
    model: Option<&Model>,
    out: &mut String,
) -> Result<(), Fail> {
    let change = model.and_then(|all| all.rows.as_slice().get(row_of(element)));
    if let Some(change) = change {
        out.push_str(&change.before)?;
        if change.replaced {
            out.push_str(&change.instead)?;
            out.push_str(&change.after)?;
            return Ok(());
        }
    }
    let kind = element.kind().to_raw();
    match element {
        NodeOrToken::Token(token) => {
            let text = token.text();
            out.push_str(&format!(in alloc; "{kind}'{text}' ")?)?;
        }
        NodeOrToken::Node(node) => {
            out.push_str(&format!(in alloc; "{kind}( ")?)?;
            if let Some(change) = change {
                out.push_str(&change.first)?;
            }
            for child in node.children_with_tokens() {
                print(alloc, &child, model, out)?;
            }
            if let Some(change) = change {
                out.push_str(&change.last)?;
            }
            out.push_str(") ")?;
        }
    }
    if let Some(change) = change {
        out.push_str(&change.after)?;
    }
    Ok(())
}
