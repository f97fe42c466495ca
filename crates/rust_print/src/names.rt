//! Names of kinds.

use rust_kinds::name_of;
use serde::{Described, Serialize, Serializer};
use std::fmt;
use syntax_kind::SyntaxKind;

/// A kind that prints as its name, also one of the table of rust_kinds; `OTHER(n)` for a kind
/// without a name. In JSON it is that name as a string.
#[derive(Clone, Copy)]
pub struct Named(pub SyntaxKind);

impl fmt::Display for Named {
    fn fmt<W: fmt::Write>(&self, f: &mut fmt::Formatter<W>) -> fmt::Result {
        match name_of(self.0) {
            Some(name) => f.write_str(name),
            None => write!(f, "{}", self.0),
        }
    }
}

impl Described for Named {}

impl Serialize for Named {
    fn serialize<S: Serializer>(&self, out: &mut S) -> Result<(), S::Error> {
        out.collect_str(self)
    }
}
