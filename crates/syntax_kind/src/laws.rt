//! Laws of the kinds. The functions do nothing: the contract is the law.
ghost use Rattle.syntax_kind.specs.Kinds.{NumbersDiffer, NamesDiffer};

mod numbers;

pub use numbers::{Numbered, OfKind, numbers_of_nodes, numbers_of_tokens};

/// No two kinds have one raw number.
pub fn kind_numbers_differ()
    ensures { NumbersDiffer }
{}

/// No two kinds print the same.
pub fn kind_names_differ()
    ensures { NamesDiffer }
{}
