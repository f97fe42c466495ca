//! Tests of nodes from text: each constructor, each refusal, and expressions in the places of
//! others.
#![tactic(auto)]

#[cfg(test)]
mod forms;
#[cfg(test)]
mod made;
#[cfg(test)]
mod parts;
#[cfg(test)]
mod replaced;
#[cfg(test)]
mod texts;
#[cfg(test)]
mod tokens;
