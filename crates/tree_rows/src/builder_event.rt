//! What a builder keeps of an event.
ghost use Rattle.std.specs.Prelude.{◌≡◌, Option};

use syntax_kind::SyntaxKind;

/// An event without its text; the texts of all events are in one string.
#[derive(Clone, Copy)]
pub enum BuilderEvent {
    /// A node begins.
    Enter(SyntaxKind),
    /// A token, with the length of its text in bytes.
    Token(SyntaxKind, usize),
    /// The innermost node ends.
    Exit,
}

/// A step that may be an event. Rows are built from a list of such steps directly, without a list
/// of events.
pub trait TreeStep {
    ghost use Rattle.tree_rows.specs.declared.builder_event.BuilderEvent.{BuilderEvent};

    // The event of the step, or `None` if the step adds nothing to the tree.
    ghost step_event: { Self → Option BuilderEvent };

    /// The event of the step, or `None` if the step adds nothing to the tree.
    fn event(&self) -> Option<BuilderEvent>
        ensures { result ≡ step_event self.now };
}

impl TreeStep for BuilderEvent {
    ghost use Rattle.std.specs.Prelude.{Some};

    ghost step_event = { λ event. Some event };

    fn event(&self) -> Option<BuilderEvent> {
        Some(*self)
    }
}
