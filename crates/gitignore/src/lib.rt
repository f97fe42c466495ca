//! Ignore files as git reads them: which files and folders the lines of a `.gitignore` name, and
//! which line decides. (gitignore(5).)
#![tactic(auto)]

mod class;
mod globs;
mod line;
mod matching;
mod piece;
mod rules;

pub use class::{Class, Item};
pub use globs::{chooses, covers};
pub use line::{Rule, rule_of, rules_of};
pub use matching::fits;
pub use piece::{Piece, pieces_of};
pub use rules::{IgnoreFile, Verdict, is_ignored, verdict_among, verdict_of};
