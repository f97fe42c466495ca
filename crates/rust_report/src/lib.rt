//! Reports on a text and its tree, as the program on files of Rust prints them: lines and places,
//! outlines, matches of patterns, roles of tokens, and differences.
#![tactic(auto)]

mod asked;
mod changes;
mod counts;
mod depths;
mod escapes;
mod items;
mod labels;
mod messages;
mod numbers;
mod pattern;
mod place;
mod roles;
mod same;
mod shown;
mod texts;
mod words;

pub use asked::{place_of, range_of};
pub use changes::{lines_of, other_front, same_front};
pub use counts::{Counts, count, noun_for};
pub use escapes::{Escaped, Medium, Quoted};
pub use items::{Row, is_listed, label_of, outline, word_of};
pub use labels::label_line;
pub use messages::plain_message;
pub use numbers::with_commas;
pub use pattern::{Link, Step, query};
pub use place::{Spot, Spots, offset_of, spot_of};
pub use roles::{Role, role_of};
pub use same::{Difference, Trivia, differences, first_difference, is_left_out, is_pair};
pub use shown::{Marks, excerpt_at, short_of};
pub use texts::{AFTER, BEFORE, Excerpt, WIDEST, excerpt_of, first_line, line_at};
pub use words::{PatternError, kind_named, parse_pattern};
