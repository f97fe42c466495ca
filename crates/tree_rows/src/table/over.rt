//! The table of a tree over a complete text.
ghost use Rattle.std.specs.Prelude.{◌≡◌, ◌<◌, ◌^◌, length, filter_map, IfOk};
ghost use Rattle.tree_model.specs.Events.{BuildsNode};
ghost use Rattle.tree_rows.specs.Builder.{events_from, IsOneTree};

use crate::builder_event::TreeStep;
use crate::finish::build_rows;
use crate::table::Table;
use std::alloc::{AllocError, Global};

impl Table {
    /// The table of the tree that steps build over a text. The text is copied once.
    pub fn over<S: TreeStep>(alloc: Global, text: &str, steps: &[S]) -> Result<Table, AllocError>
        requires short { length text.now < 2 ^ 32 }
        requires one_tree { IsOneTree (filter_map S.step_event steps.now) text.now }
        ensures { IfOk result
            (BuildsNode (events_from (filter_map S.step_event steps.now) text.now)) }
    {
        let rows = build_rows(alloc, steps)?;
        let copy = String::from_str(alloc, text)?;
        Ok(Table::from_parts(copy, rows))
    }
}
