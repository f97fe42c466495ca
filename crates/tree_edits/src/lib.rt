//! Many changes of a tree by its rows, made at once.
#![tactic(auto)]

mod change;
mod changes;
mod edits;
mod element;
mod error;
mod finish;
mod places;
mod steps;
mod unchanged;

pub use change::Slot;
pub use changes::Changes;
pub use element::Element;
pub use error::ChangeError;
