//! The interface of a lexer and a parser from which trees are built, and the errors that they
//! report.
#![tactic(auto)]

mod balanced;
mod edition;
mod front_end;
mod output;
mod parse_error;
mod step_sink;
mod syntax_error;
mod tree_step;

pub use balanced::{closes_brace, is_balanced, opens_brace};
pub use edition::{Edition, Entry, Reparser};
pub use front_end::FrontEnd;
pub use output::{Output, Step};
pub use parse_error::ParseError;
pub use step_sink::StepSink;
pub use syntax_error::SyntaxError;
