//! What an operation looks at, and whether that is inside of a piece.
ghost use Rattle.std.specs.Prelude.{◌≡◌, length};
ghost use Rattle.grammar_machine.specs.Alone.{test_reach, reach_of, test_looks_back, looks_back_of, stays_of};

use crate::grammar::{Op, Sight, Test};
use crate::machine::Place;

fn test_reach(test: Test) -> usize
    ensures { result ≡ test_reach test }
{
    match test {
        Test::Sees { ahead, .. } | Test::In { ahead, .. } | Test::WordIn { ahead, .. } => {
            ahead as usize + 1
        }
        Test::After { .. } | Test::Flag { .. } | Test::Answered { .. } => 0,
    }
}

// The number of tokens, from the next one on, that an operation may look at.
fn reach(op: Op) -> usize
    ensures { result ≡ reach_of op }
{
    match op {
        Op::If { test, .. } | Op::Unless { test, .. } => test_reach(test),
        Op::IfKind { .. }
        | Op::UnlessKind { .. }
        | Op::IfIn { .. }
        | Op::UnlessIn { .. }
        | Op::Switch { .. }
        | Op::Take
        | Op::TakeAs { .. }
        | Op::TakeOperator
        | Op::Expect { .. }
        | Op::Piece { .. }
        | Op::Leaf { .. }
        | Op::Operator { .. }
        | Op::Sealed { .. } => 1,
        _ => 0,
    }
}

fn test_looks_back(test: Test) -> bool
    ensures { result ≡ test_looks_back test }
{
    match test {
        Test::After { .. } => true,
        _ => false,
    }
}

// Whether an operation looks at the token before the next one.
fn looks_back(op: Op) -> bool
    ensures { result ≡ looks_back_of op }
{
    match op {
        Op::If { test, .. } | Op::Unless { test, .. } => test_looks_back(test),
        _ => false,
    }
}

/// Whether an operation looks at tokens of the piece alone: at none before the first, and not at
/// what follows the last.
pub fn stays(op: &Op, at: usize, sights: &[Sight]) -> bool
    ensures { result ≡ stays_of op.now at (length sights.now) }
{
    at.saturating_add(reach(*op)) <= sights.len() && !(at == 0 && looks_back(*op))
}
