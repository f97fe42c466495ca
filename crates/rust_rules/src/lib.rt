//! Reports on the matches of rules of search and replace, as a terminal, a program or a workflow
//! reads them.
#![tactic(auto)]

mod ask;
mod lists;
mod place;
mod show;
mod taken;
mod walk;
mod within;

pub use ask::write_question;
pub use show::{list, rewritten, search, search_within};
pub use taken::{Taken, with_taken};
pub use within::{Found, Replaced, replaced_within};
