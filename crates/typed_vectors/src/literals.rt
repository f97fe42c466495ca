//! The parts and values of literals and comments, by their texts.
mod comments;
mod numbers;
mod strings;
