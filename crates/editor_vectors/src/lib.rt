//! Tests of sessions of changes: random ones against a plain model, and each refusal; and of white
//! space.
#![tactic(auto)]

#[cfg(test)]
mod indents;
#[cfg(test)]
mod model;
#[cfg(test)]
mod sessions;
#[cfg(test)]
mod texts;
