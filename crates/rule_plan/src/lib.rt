//! What is decided about rules of search and replace without a tree: how severe a match is, and
//! which replacements are taken.
#![tactic(auto)]

mod answer;
mod severity;

pub use answer::{Answer, answer_of, chosen, taken};
pub use severity::Severity;
