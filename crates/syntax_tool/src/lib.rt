//! The program `syntax_tool`, over any reader and any writer.
#![tactic(auto)]

mod answer;
mod command;
mod dump;
mod escapes;
mod events;
mod input;
mod lines;
mod output;
mod parens;
mod program;
mod refusal;
mod reparse;

pub use answer::answer_to;
pub use command::Command;
pub use events::read_events;
pub use program::run;
pub use refusal::Refusal;
