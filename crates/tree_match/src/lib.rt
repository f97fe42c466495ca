//! Patterns with placeholders, and where they match in trees. White space, comments and pairs of
//! parentheses do not count.
#![tactic(auto)]

mod bare;
mod compile;
mod condition;
mod field;
mod fit;
mod jump;
mod kind;
mod lead;
mod list;
mod matching;
mod part;
mod places;
mod reads;
mod roots;
mod rule;
mod run;
mod same;
mod sign;
mod walk;

pub use compile::ARM;
pub use condition::{Condition, Hole, Test};
pub use part::Sort;
pub use places::{Match, find};
pub use reads::reads_as;
pub use rule::{Form, Piece, Rule, RuleRefusal};
