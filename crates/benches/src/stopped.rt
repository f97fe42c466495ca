//! Why measuring stopped.

use lossless_tree::FinishError;
use ra_ap_syntax::ParseError;
use ras_token_ext::ValueError;
use std::alloc::AllocError;
use std::io;
use thiserror::Error;

#[derive(Debug, Error, Drop)]
pub enum Stopped {
    #[error("no memory is left")]
    Memory(#[from] AllocError),
    #[error("the events make no tree")]
    Tree(#[from] FinishError),
    #[error("a text is not read")]
    Parse(#[from] ParseError),
    #[error("a text is no expression")]
    NoExpression,
    #[error("an edit has no range in the text, or is not the one that is meant")]
    Edit,
    #[error("a literal has no value")]
    Value(ValueError),
    #[error("the clock or the output failed")]
    Io(#[from] io::Error),
}

impl From<ValueError> for Stopped {
    fn from(error: ValueError) -> Stopped {
        Stopped::Value(error)
    }
}
