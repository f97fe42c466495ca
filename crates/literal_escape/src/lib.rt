//! The values of Rust literals: characters, bytes, strings, byte strings and C strings.
//!
//! A *content* is the text between the quotes of a literal that is not raw. It is cut into pieces:
//! a plain character, an escape, a faulty piece, or a continuation, which is a backslash before a
//! newline with the blanks after it. A continuation in a string has no value; each other piece is a
//! *unit*, with a meaning or a fault. All positions are byte offsets into the content. No call
//! takes memory, and each reads the content once.
//!
//! Source: the Rust Reference, "Tokens", its section on character and string literals.
#![tactic(auto)]

mod error;
pub mod laws;
mod mode;
mod progress;
mod reader;
mod unescape;
mod units;

pub use crate::error::EscapeError;
pub use crate::mode::{MixedUnit, Mode};
pub use crate::reader::Report;
pub use crate::unescape::{
    unescape_byte, unescape_byte_str, unescape_c_str, unescape_char, unescape_str, unescape_unit,
};
pub use crate::units::Units;
