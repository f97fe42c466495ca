//! Tests of search and replace.
#![tactic(auto)]

#[cfg(test)]
mod kinds;
#[cfg(test)]
mod lists;
#[cfg(test)]
mod replaced;
#[cfg(test)]
mod rule_files;
#[cfg(test)]
mod rules;
