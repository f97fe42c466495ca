//! What takes the steps of a parse.
ghost use Rattle.std.specs.Prelude.{◌≡◌, ◌++◌, ◌∷◌, [], List, IfOk, OnOk, string_bytes};
ghost use Rattle.ras_front_end.specs.Reading.{FrontStep, front_step, front_steps, begins, takes, ends, reports};

use crate::output::Step;
use std::alloc::{AllocError, Global};
use syntax_kind::SyntaxKind;
use text_size::TextSize;

/// What takes the steps of a parse as they are made, in place of a list of all of them.
///
/// A front end gives steps to it by [`FrontEnd::parse_into`](crate::FrontEnd::parse_into). If a
/// call fails, the sink is of no further use.
///
/// A `Vec<Step>` is one: it keeps the steps.
pub trait StepSink {
    // Whether these are the steps that it took, in order.
    ghost took: { Self → List FrontStep → Type 0 };

    /// A sink that took no steps yet, with room for about so many nodes and tokens.
    fn with_room(alloc: Global, elements: usize) -> Result<Self, AllocError>
        ensures { IfOk result (λ sink. took sink []) };

    /// Enters a node.
    fn start_node(&mut self, kind: SyntaxKind) -> Result<(), AllocError>
        ensures { OnOk result ((before : List FrontStep) → took self.old before
            → took self.new (before ++ begins kind ∷ [])) };

    /// Takes a token of this many bytes.
    fn token(&mut self, kind: SyntaxKind, len: TextSize) -> Result<(), AllocError>
        ensures { OnOk result ((before : List FrontStep) → took self.old before
            → took self.new (before ++ takes kind len ∷ [])) };

    /// Leaves the node that was entered last and is still open.
    fn finish_node(&mut self) -> Result<(), AllocError>
        ensures { OnOk result ((before : List FrontStep) → took self.old before
            → took self.new (before ++ ends ∷ [])) };

    /// Takes the parser's error at a position of the text, in bytes from its start.
    fn error(
        &mut self,
        alloc: Global,
        message: String,
        position: TextSize,
    ) -> Result<(), AllocError>
        ensures { OnOk result ((before : List FrontStep) → took self.old before
            → took self.new (before ++ reports (string_bytes message) position ∷ [])) };
}

impl StepSink for Vec<Step> {
    ghost use Rattle.std.specs.Prelude.{◌≡◌};
    ghost use Rattle.ras_front_end.specs.Reading.{front_steps};

    ghost took = { λ steps made. front_steps steps.items ≡ made };

    fn with_room(alloc: Global, elements: usize) -> Result<Vec<Step>, AllocError> {
        // A token is one step, and a node two.
        Vec::with_capacity(alloc, elements.saturating_mul(2))
    }

    fn start_node(&mut self, kind: SyntaxKind) -> Result<(), AllocError> {
        self.push(Step::Enter(kind))?;
        Ok(())
    }

    fn token(&mut self, kind: SyntaxKind, len: TextSize) -> Result<(), AllocError> {
        self.push(Step::Token(kind, len))?;
        Ok(())
    }

    fn finish_node(&mut self) -> Result<(), AllocError> {
        self.push(Step::Exit)?;
        Ok(())
    }

    fn error(
        &mut self,
        alloc: Global,
        message: String,
        position: TextSize,
    ) -> Result<(), AllocError> {
        self.push(Step::Error(position, Box::new(alloc, message)?))?;
        Ok(())
    }
}

fn give_one<S: StepSink>(alloc: Global, sink: &mut S, step: &Step) -> Result<(), AllocError>
    ensures { OnOk result ((before : List FrontStep) → S.took sink.old before
        → S.took sink.new (before ++ front_step step.now ∷ [])) }
{
    match step {
        Step::Enter(kind) => sink.start_node(*kind),
        Step::Token(kind, len) => sink.token(*kind, *len),
        Step::Exit => sink.finish_node(),
        Step::Error(position, message) => {
            let text: &String = message;
            sink.error(alloc, text.clone()?, *position)
        }
    }
}

/// Gives steps to a sink.
pub(crate) fn give<S: StepSink>(
    alloc: Global,
    sink: &mut S,
    steps: &[Step],
) -> Result<(), AllocError>
    ensures { OnOk result ((before : List FrontStep) → S.took sink.old before
        → S.took sink.new (before ++ front_steps steps.now)) }
{
    for step in steps {
        give_one(alloc, sink, step)?;
    }
    Ok(())
}
