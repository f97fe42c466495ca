//! Rules of search and replace from a command line and from files, and patches of what they
//! replace.
#![tactic(auto)]

mod choice;
mod conditions;
mod hunks;
mod rules;
mod toml_place;
mod toml_rules;

pub use choice::{Chosen, path_in};
pub use hunks::{lines_by, write_hunks, write_lines};
pub use rules::{Note, RuleSet, RulesError, one_pattern, one_rule, rules_of, rules_of_lines};
