//! The edition of Rust that a Cargo manifest gives to its files. (The Cargo Book: "The Manifest
//! Format", "The edition field"; "Cargo Targets", "Configuring a target"; "Workspaces", "The
//! package table".)
#![tactic(auto)]

mod manifest;
mod paths;
mod targets;

pub use manifest::{Stated, edition_named, is_workspace, of_package, of_workspace};
pub use targets::of_target;
