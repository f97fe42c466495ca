//! Tests of what no contract of the crates below says, stored runs, and the examples of their
//! documentation.
#![tactic(auto)]

#[cfg(test)]
mod edits;
#[cfg(test)]
mod ensure;
#[cfg(test)]
mod equality;
#[cfg(test)]
mod escapes;
#[cfg(test)]
mod events;
#[cfg(test)]
mod kinds;
#[cfg(test)]
mod searches;
#[cfg(test)]
mod shared;
#[cfg(test)]
mod streams;
#[cfg(test)]
mod text;
#[cfg(test)]
mod trees;
#[cfg(test)]
mod walks;
