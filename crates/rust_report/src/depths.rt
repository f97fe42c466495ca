//! How many items are around each node and token of a tree.
ghost use Rattle.std.specs.Prelude.{◌≡◌, ◌<◌, IfOk, get_or};
ghost use Rattle.tree_model.specs.Tree.{size};
ghost use Rattle.rust_report.specs.Depths.{depth_at, depths_of};

use crate::items::is_listed;
use std::alloc::{AllocError, Global};
use tree_rows::Table;

// The number at an index; 0 if there is none.
pub(crate) fn number_at(numbers: &[usize], index: usize) -> usize
    ensures { result ≡ get_or numbers.now index 0 }
{
    match numbers.get(index) {
        Some(number) => *number,
        None => 0,
    }
}

// How many items are around a row, at most `usize::MAX`; `above` has this for the rows before it.
fn depth_at(table: &Table, row: usize, above: &[usize]) -> usize
    requires is_row { row < size table.now }
    requires above { above.now ≡ depths_of table.now row }
    ensures { result ≡ depth_at table.now row }
{
    match table.parent_row(row) {
        None => 0,
        Some(parent) => {
            let around = number_at(above, parent);
            if is_listed(table.kind_at(parent)) {
                around.saturating_add(1)
            } else {
                around
            }
        }
    }
}

/// For each row of a tree the number of items around it, at most `usize::MAX`. Takes time and
/// memory linear in the tree.
pub(crate) fn depths(alloc: Global, table: &Table) -> Result<Vec<usize>, AllocError>
    ensures { IfOk result (λ depths. depths.items ≡ depths_of table.now (size table.now)) }
{
    let mut depths = Vec::with_capacity(alloc, table.len())?;
    while depths.len() < table.len() {
        depths.push(depth_at(table, depths.len(), depths.as_slice()))?;
    }
    Ok(depths)
}
