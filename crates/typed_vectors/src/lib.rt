//! Tests of the typed layer: casts, searches, pointers, literals, typed tokens, lookups by each of
//! their shapes, pieces that are parsed again, and the README's tour. `answers_views` tests every
//! call of every view.
#![tactic(auto)]

#[cfg(test)]
mod algo;
#[cfg(test)]
mod casts;
#[cfg(test)]
mod edits;
#[cfg(test)]
mod elsewhere;
mod functions;
#[cfg(test)]
mod literals;
#[cfg(test)]
mod lookups;
#[cfg(test)]
mod matches;
#[cfg(test)]
mod pieces;
#[cfg(test)]
mod pointers;
#[cfg(test)]
mod precedences;
#[cfg(test)]
mod rows;
#[cfg(test)]
mod tokens;
#[cfg(test)]
mod tour;
#[cfg(test)]
mod trees;
#[cfg(test)]
mod violations;
