//! The calls that are measured.

use ra_ap_syntax::ast;
use ra_ap_syntax::ast::prec::{needless_parens, reads_back};
use std::alloc::{AllocError, Global};

#[derive(Clone, Copy)]
pub enum Call {
    ReadsBack,
    NeedlessParens,
}

impl Call {
    /// Its name in the table.
    pub fn name(self) -> &'static str {
        match self {
            Call::ReadsBack => "reads_back",
            Call::NeedlessParens => "needless_parens",
        }
    }

    /// Calls it, and returns how many pairs were found, or 1 where the expression reads back.
    pub fn run(self, alloc: Global, expr: &ast::Expr) -> Result<usize, AllocError> {
        match self {
            Call::ReadsBack => Ok((reads_back(expr) == Some(true)) as usize),
            Call::NeedlessParens => match needless_parens(alloc, expr)? {
                Some(pairs) => Ok(pairs.len()),
                None => Ok(0),
            },
        }
    }
}
