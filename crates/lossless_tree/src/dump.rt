//! How a tree prints.
ghost use Rattle.std.specs.Prelude.{◌≡◌, ◌*◌, Some, replicate};
ghost use Rattle.std.specs.Fmt.{WritesOnOk};
ghost use Rattle.tree_model.specs.Rows.{IsRow, tree_at};
ghost use Rattle.tree_model.specs.Cursor.{cursor_at};
ghost use Rattle.lossless_tree.specs.Dump.{shown_text, dump_line, dump_of};

use crate::quoted::Quoted;
use shared_pointer::Shared;
use std::fmt;
use std::fmt::{Formatter, Write};
use std::marker::Model;
use tree_rows::Table;

/// Writes by `{}` what `dump` of a node or token returns, without a `String` of its own. It takes
/// no memory.
#[derive(Drop)]
pub struct Dump<'t> {
    table: &'t Shared<Table>,
    row: usize,
}

impl<'t> Model for Dump<'t> {
    ghost use Rattle.tree_model.specs.Cursor.{Cursor, cursor_code};

    ghost Value = { Cursor };

    ghost coded = { cursor_code };

    ghost use Rattle.tree_model.specs.Rows.{place_at, IsRow};

    ghost view = { λ d.
        record { tree = d.table.now.value; place = place_at d.table.now.value d.row } };

    ghost invariant = { λ d. IsRow d.table.now.value d.row };
}

impl<'t> Dump<'t> {
    // The dump of the node or token at a row.
    pub(crate) fn at(table: &'t Shared<Table>, row: usize) -> Self
        requires { IsRow table.now.value row }
        ensures { result ≡ cursor_at table.now.value row }
    {
        Dump { table, row }
    }
}

impl<'t> fmt::Display for Dump<'t> {
    ghost output = { λ c. Some (dump_of c) };

    fn fmt<W: Write>(&self, f: &mut Formatter<W>) -> fmt::Result {
        write_lines(f, self.table, self.row)
    }
}

// What follows the range of a row: a token's text.
fn write_text<W: Write>(f: &mut Formatter<W>, table: &Table, row: usize) -> fmt::Result
    requires { IsRow table.now row }
    ensures { WritesOnOk W.write_str_gives f.old result (shown_text (tree_at table.now row)) f.new }
{
    if table.is_token_at(row) {
        let text = Quoted(table.text_at(row));
        write!(f, " {text}")?;
    }
    Ok(())
}

// Two spaces a level, in pieces of sixteen while there are eight levels or more.
fn write_indent<W: Write>(f: &mut Formatter<W>, level: usize) -> fmt::Result
    ensures { WritesOnOk W.write_str_gives f.old result (replicate (2 * level) 32) f.new }
{
    for _eight in 0..level / 8 {
        f.write_str("                ")?;
    }
    for _one in 0..level % 8 {
        f.write_str("  ")?;
    }
    Ok(())
}

// The line of a row at a level below the one that is dumped.
fn write_line<W: Write>(
    f: &mut Formatter<W>,
    level: usize,
    table: &Table,
    row: usize,
) -> fmt::Result
    requires { IsRow table.now row }
    ensures { WritesOnOk W.write_str_gives f.old result (dump_line level (cursor_at table.now row))
        f.new }
{
    write_indent(f, level)?;
    let kind = table.kind_at(row);
    let range = table.range_at(row);
    write!(f, "{kind}@{range}")?;
    write_text(f, table, row)?;
    f.write_str("\n")
}

// The lines of the subtree at a row.
fn write_lines<W: Write>(f: &mut Formatter<W>, table: &Table, start: usize) -> fmt::Result
    requires { IsRow table.now start }
    ensures { WritesOnOk W.write_str_gives f.old result (dump_of (cursor_at table.now start))
        f.new }
{
    // For the proof: the number of rows fits.
    let _count = table.len();
    let mut level: usize = 0;
    let mut next = start;
    let mut innermost = None;
    while let Some(step) = table.walk_step(start, next, innermost) {
        next = step.next;
        innermost = step.innermost;
        if step.enters {
            write_line(f, level, table, step.row)?;
            level += 1;
        } else {
            level -= 1;
        }
    }
    Ok(())
}
