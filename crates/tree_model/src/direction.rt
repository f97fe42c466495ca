//! Forwards or backwards.

/// The direction of a search among siblings or tokens.
#[derive(Clone, Copy, PartialEq, Eq, Debug, Hash)]
pub enum Direction {
    /// Towards the end of the text.
    Next,
    /// Towards the start of the text.
    Prev,
}
