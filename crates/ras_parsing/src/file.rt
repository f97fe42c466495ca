//! Parses of whole files.
ghost use Rattle.std.specs.Prelude.{◌≡◌, ◌++◌, IfOk, string_bytes};
ghost use Rattle.std.specs.List.{flat_map};
ghost use Rattle.std.specs.Fmt.{WritesOnOk};
ghost use Rattle.ras_parsing.specs.AllErrors.{error_line, debug_dump_of};

use crate::parse::Parse;
use lossless_tree::{Dump, exact_string};
use ras_front_end::SyntaxError;
use ras_node::AstNode;
use std::alloc::{AllocError, Global};
use std::fmt;
use std::fmt::{Formatter, Write};

/// Marks the view of a file's root. Parses of it can be dumped and re-parsed. `SourceFile` of
/// `ra_ap_syntax` implements it.
pub trait FileView: AstNode {}

// The dump of a tree, and a line for each error.
#[derive(Drop)]
struct DebugDump<'p> {
    tree: Dump<'p>,
    errors: &'p [SyntaxError],
}

impl<'p> fmt::Display for DebugDump<'p> {
    ghost use Rattle.std.specs.Prelude.{Some};
    ghost use Rattle.lossless_tree.specs.Dump.{dump_of};

    ghost output = { λ d. Some (dump_of d.tree ++ flat_map error_line d.errors.now) };

    fn fmt<W: Write>(&self, f: &mut Formatter<W>) -> fmt::Result {
        self.tree.fmt(f)?;
        write_errors(f, self.errors)
    }
}

// `error a..b: message` for each error.
fn write_errors<W: Write>(f: &mut Formatter<W>, errors: &[SyntaxError]) -> fmt::Result
    ensures { WritesOnOk W.write_str_gives f.old result (flat_map error_line errors.now) f.new }
{
    for error in errors {
        let range = error.range();
        let message = error.message();
        writeln!(f, "error {range}: {message}")?;
    }
    Ok(())
}

impl<T: FileView> Parse<T> {
    /// The dump of the tree, and then a line for each of [`Parse::errors`], with the word `error`,
    /// its range and its message.
    pub fn debug_dump(&self, alloc: Global) -> Result<String, AllocError>
        ensures { IfOk result (λ dump. string_bytes dump ≡ debug_dump_of self.now) }
    {
        let errors = self.errors(alloc)?;
        let dump = DebugDump {
            tree: self.root().display_dump(),
            errors: errors.as_slice(),
        };
        exact_string(alloc, &dump)
    }
}
