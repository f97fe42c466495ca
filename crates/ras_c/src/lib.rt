//! The library for C, and for Rust and Python beyond Rattle: texts in, rows of plain numbers out.
//!
//! Each call writes to the caller's buffers. If a buffer is too small, the call returns the sizes
//! that are needed and changes no buffer. Only the parse in a handle, which the caller owns, is
//! kept between calls.
#![tactic(auto)]

mod change_rows;
mod changes;
mod choice;
mod edit_rows;
mod edits;
mod errors;
mod fill;
mod flat;
mod handle;
mod held;
mod kept;
mod kinds;
mod lines;
mod live;
mod loose;
mod owner;
mod parens;
mod parsed;
mod part;
mod place;
mod read;
mod rewriting;
mod root;
mod status;
mod tokens;
mod tree;
mod units;
mod values;
mod version;
mod violations;
mod words;
