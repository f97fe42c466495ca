//! The parts and values of literals and comments, by their texts alone. All places are byte offsets
//! into a token's text.
#![tactic(auto)]

pub mod chars;
pub mod comments;
pub mod fields;
pub mod laws;
pub mod numbers;
pub mod parts;
pub mod places;
pub mod quotes;
pub mod strings;
pub mod text_values;
pub mod units;
pub mod values;

pub use chars::{byte_value, char_value};
pub use comments::{AttrKind, CommentKind, CommentShape, comment_text, spans_multiple_lines};
pub use fields::tuple_field;
pub use numbers::{
    IntError, Radix, float_suffix, float_value_string, int_suffix, int_value, int_value_string,
    split_float, split_int,
};
pub use parts::{cut, is_raw};
pub use places::{first_place, last_place};
pub use quotes::{QuoteOffsets, offset_down, quote_offsets, range_up};
pub use strings::{last_fault, quote_places, string_content};
pub use text_values::text_value;
pub use units::{escaped_char_ranges, unescape};
pub use values::{ValueError, bytes_value, string_value};
