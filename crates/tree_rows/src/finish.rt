//! From the steps of a builder to rows.
ghost use Rattle.std.specs.Prelude.{◌≡◌, ◌<◌, ◌^◌, [], Some, map, filter_map, length, IfOk};
ghost use Rattle.tree_model.specs.declared.error.FinishError.TheVariants.{Empty};
ghost use Rattle.tree_model.specs.Tree.{Forest};
ghost use Rattle.tree_model.specs.Events.{events_of};
ghost use Rattle.tree_rows.specs.Builder.{events_from, step_of};
ghost use Rattle.tree_model.specs.Scan.{after_top, scan};
ghost use Rattle.tree_rows.specs.Rows.{columns_of};
ghost use Rattle.tree_rows.specs.Run.{text_len, row_count};

use crate::builder_event::{BuilderEvent, TreeStep};
use crate::kept::Kept;
use crate::row_builder::RowBuilder;
use std::alloc::{AllocError, Global};
use tree_model::FinishError;

// The error of the top elements, after one more.
fn after_top(root: Option<FinishError>, is_token: bool) -> Option<FinishError>
    ensures { result ≡ after_top root is_token }
{
    match root {
        Some(FinishError::Empty) => {
            if is_token {
                Some(FinishError::TokenRoot)
            } else {
                None
            }
        }
        _ => Some(FinishError::ManyRoots),
    }
}

/// The first error that applies, other than `TooLong` and `Memory`.
pub fn first_refusal(steps: &[BuilderEvent]) -> Option<FinishError>
    ensures { result ≡ scan 0 (Some Empty) (events_from steps.now []) }
{
    let mut open: usize = 0;
    let mut root = Some(FinishError::Empty);
    for step in steps {
        match step {
            BuilderEvent::Enter(_) => {
                if open == 0 {
                    root = after_top(root, false);
                }
                open += 1;
            }
            BuilderEvent::Token(_, _) => {
                if open == 0 {
                    root = after_top(root, true);
                }
            }
            BuilderEvent::Exit => {
                if open == 0 {
                    return Some(FinishError::OverClosed);
                }
                open -= 1;
            }
        }
    }
    if open > 0 {
        return Some(FinishError::Unclosed);
    }
    root
}

// How many rows the steps make: one for each but the exits.
fn row_count<S: TreeStep>(steps: &[S]) -> usize
    ensures { result ≡ row_count (filter_map S.step_event steps.now) }
{
    let mut count: usize = 0;
    for step in steps {
        if let Some(BuilderEvent::Enter(_) | BuilderEvent::Token(_, _)) = step.event() {
            count += 1;
        }
    }
    count
}

/// The rows of the steps of a forest, and their parents.
pub fn build_rows<S: TreeStep>(alloc: Global, steps: &[S]) -> Result<Kept, AllocError>
    requires { text_len (filter_map S.step_event steps.now) < 2 ^ 32 }
    ensures { IfOk result (λ rows. (f : Forest)
        → filter_map S.step_event steps.now ≡ map step_of (events_of f) → rows ≡ columns_of f) }
{
    let mut rows = RowBuilder::with_capacity(alloc, row_count(steps))?;
    rows.take(steps)?;
    let kept = rows.finish(alloc)?;
    Ok(kept)
}
