//! Steps of a parse as steps of a tree builder.
ghost use Rattle.ras_front_end.specs.TreeEvent.{tree_event};

use crate::output::Step;
use lossless_tree::{BuilderEvent, TreeStep};

/// A tree is built from the steps directly; steps that report an error are skipped.
impl TreeStep for Step {
    ghost step_event = { tree_event };

    fn event(&self) -> Option<BuilderEvent> {
        match self {
            Step::Enter(kind) => Some(BuilderEvent::Enter(*kind)),
            Step::Token(kind, len) => Some(BuilderEvent::Token(*kind, len.raw() as usize)),
            Step::Exit => Some(BuilderEvent::Exit),
            Step::Error(_, _) => None,
        }
    }
}
