//! What the walk reads of rows, before it makes a cursor.
ghost use Rattle.std.specs.Prelude.{◌≡◌, ◌<◌};
ghost use Rattle.tree_model.specs.Tree.{size};
ghost use Rattle.ras_validation.specs.Rows.{begins_with_name, is_plain_segment};

use crate::kinds::{Identifiers, NameRefs, Segments};
use ras_node::KindSet;
use tree_rows::Table;

// Whether there are rows below a row, and the first of these begins a name that is an identifier
// alone.
fn begins_with_name(table: &Table, row: usize) -> bool
    requires { row < size table.now }
    ensures { result ≡ begins_with_name table.now row }
{
    let (name, end) = table.rows_below(row);
    name < end
        && (NameRefs::has(table.kind_at(name))
            && (table.size_at(name) == 2 && Identifiers::has(table.kind_at(name + 1))))
}

/// Whether a row is a segment of a path that begins so. Most nodes with rules are such, and they
/// and the two rows below them break none.
pub fn is_plain_segment(table: &Table, row: usize) -> bool
    requires { row < size table.now }
    ensures { result ≡ is_plain_segment table.now row }
{
    Segments::has(table.kind_at(row)) && begins_with_name(table, row)
}
