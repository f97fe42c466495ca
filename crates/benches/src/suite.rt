//! What is measured, by the program's first argument.

use crate::fronts::time_fronts;
use crate::literals::time_literals;
use crate::names::time_names;
use crate::operators::time_operators;
use crate::stopped::Stopped;
use crate::trees::time_trees;
use crate::walks::time_walks;

#[derive(Clone, Copy)]
pub enum Suite {
    /// The calls on trees.
    Trees,
    /// Lexing, parses and edits of the small language.
    Fronts,
    /// The calls on parentheses.
    Operators,
    /// The test for parentheses, where it walks far.
    Walks,
    /// The values of string literals.
    Literals,
    /// The kinds of all names.
    Names,
}

impl Suite {
    /// The suite of a name, or `None` if there is none of that name.
    pub fn from_name(name: &str) -> Option<Suite> {
        match name {
            "trees" => Some(Suite::Trees),
            "fronts" => Some(Suite::Fronts),
            "operators" => Some(Suite::Operators),
            "walks" => Some(Suite::Walks),
            "literals" => Some(Suite::Literals),
            "names" => Some(Suite::Names),
            _ => None,
        }
    }

    /// Measures, and prints what was measured.
    pub fn time(self, rt: &HostRuntime) -> Result<(), Stopped> {
        match self {
            Suite::Trees => time_trees(rt),
            Suite::Fronts => time_fronts(rt),
            Suite::Operators => time_operators(rt),
            Suite::Walks => time_walks(rt),
            Suite::Literals => time_literals(rt),
            Suite::Names => time_names(rt),
        }
    }
}
