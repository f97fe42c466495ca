//! Why a request has no result.

use ra_ap_syntax::{FinishError, ParseError};
use std::alloc::{AllocError, AllocFailed};
use std::io;
use thiserror::Error;

#[derive(Debug, Error, Drop)]
pub enum Stopped {
    #[error("no memory is left")]
    Memory(#[from] AllocError),
    #[error("a text is too long")]
    Text(#[from] ParseError),
    #[error("the events make no tree")]
    Tree(#[from] FinishError),
    #[error("input or output failed")]
    Io(#[from] io::Error),
    #[error("a line is no request")]
    NoRequest,
    #[error("a node is not marked, or can't be asked")]
    NoNode,
}

impl<T: Drop> From<AllocFailed<T>> for Stopped {
    fn from(_failed: AllocFailed<T>) -> Stopped {
        Stopped::Memory(AllocError)
    }
}
