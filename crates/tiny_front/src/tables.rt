//! The tables, which `tools/grammar` writes from `tiny.grammar`, lent out.
ghost use Rattle.std.specs.Prelude.{◌≡◌};
ghost use Rattle.grammar_machine.specs.Running.{tables_of};
ghost use Rattle.tiny_front.specs.Tables.{tiny_tables};

pub(crate) mod kind_table;
mod messages;
mod op_table;
mod power_table;
mod row_table;
mod rules;
mod sealed_table;
mod set_table;

use grammar_machine::{Grammar, Op, Power};
use kind_table::KINDS;
pub use messages::message;
use op_table::OPS;
use power_table::POWERS;
use row_table::ROWS;
pub use rules::{Rule, rule_of};
use sealed_table::SEALED;
use set_table::SETS;
use syntax_kind::SyntaxKind;

// The operations of all rules.
fn ops() -> &'static [Op]
    ensures { result.now ≡ OPS }
{
    &OPS
}

// The sets of kinds, as bits.
fn sets() -> &'static [u64]
    ensures { result.now ≡ SETS }
{
    &SETS
}

// The rows of targets.
fn rows() -> &'static [u16]
    ensures { result.now ≡ ROWS }
{
    &ROWS
}

// How the operators bind.
fn powers() -> &'static [Option<Power>]
    ensures { result.now ≡ POWERS }
{
    &POWERS
}

// The kinds of tokens, by their numbers.
fn kinds() -> &'static [SyntaxKind]
    ensures { result.now ≡ KINDS }
{
    &KINDS
}

// The kinds of the nodes that sealed calls make.
fn sealed() -> &'static [SyntaxKind]
    ensures { result.now ≡ SEALED }
{
    &SEALED
}

/// The grammar of the small language, as the text `tiny.grammar` of this crate has it.
///
/// It costs nothing: the tables are part of the program.
#[tactic(auto, unfolding(crate::specs::Tables::tiny_tables))]
pub fn grammar() -> Grammar<'static>
    ensures { tables_of result ≡ tiny_tables }
{
    Grammar {
        ops: ops(),
        sets: sets(),
        rows: rows(),
        powers: powers(),
        kinds: kinds(),
        sealed: sealed(),
        opening: 19,
        closing: 20,
    }
}
