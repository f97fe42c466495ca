//! Search and replace by rules: the text of a file with the matches replaced, and parentheses
//! exactly where they are needed.
#![tactic(auto)]

mod applied;
mod condition;
mod error;
mod exposed;
mod forms;
mod kind;
mod parse;
mod plain;
mod refusal;
mod render;
mod side;

pub use applied::{Rewritten, rewrite, rewrite_matches};
pub use error::{RuleError, RuleFault};
pub use parse::{parse_pattern, parse_rule, parse_rules, placeholder_start, rule_start};
pub use refusal::RewriteError;
pub use tree_match::{Match, Rule, find};
