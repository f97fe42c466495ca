//! The grammar's errors as steps.
ghost use Rattle.std.specs.Prelude.{◌≡◌, ◌++◌, ◌∷◌, [], IfOk, OnOk, map};
ghost use Rattle.ras_front_end.specs.Reading.{front_step, front_steps};
ghost use Rattle.token_layout.specs.Report.{report_by};
ghost use Rattle.grammar_front.specs.Reports.{next_from, placed_of, last_of, say_of};

use crate::language::{ErrorPlace, Language};
use event_layout::ParserError;
use ras_front_end::Step;
use std::alloc::{AllocError, Global};
use text_size::TextSize;
use token_layout::Token;

// The last `count` tokens.
fn last(tokens: &[Token], count: usize) -> &[Token]
    ensures { result.now ≡ last_of tokens.now count }
{
    &tokens[tokens.len().saturating_sub(count)..]
}

// Where the first token begins that is not trivia, if the first one begins at `start`.
fn next_from(start: TextSize, tokens: &[Token]) -> TextSize
    ensures { result ≡ next_from start tokens.now }
{
    let mut position = start;
    for token in tokens {
        if !token.kind.is_trivia() {
            return position;
        }
        position = TextSize::new(position.raw().saturating_add(token.len.raw()));
    }
    position
}

// The place of an error at `position` with these tokens behind it, in a text of `end` bytes.
fn placed(place: ErrorPlace, end: TextSize, position: TextSize, rest: &[Token]) -> TextSize
    ensures { result ≡ placed_of place end position rest.now }
{
    match place {
        ErrorPlace::BehindLast => position,
        ErrorPlace::AtNext => TextSize::new(next_from(position, rest).raw().min(end.raw())),
    }
}

fn report<G: Language>(
    alloc: Global,
    language: &G,
    end: TextSize,
    tokens: &[Token],
    fault: ParserError,
) -> Result<Step, AllocError>
    ensures { IfOk result (λ step. front_step step
        ≡ report_by (say_of (G.speaks language.now) end tokens.now) fault) }
{
    let rest = last(tokens, fault.left);
    let message = language.message(alloc, fault.message, rest)?;
    let position = placed(language.error_place(), end, fault.position, rest);
    Ok(Step::Error(position, Box::new(alloc, message)?))
}

#[tactic(auto, using(ras_front_end::proofs::Steps::pushed))]
fn add(steps: &mut Vec<Step>, step: Step) -> Result<(), AllocError>
    ensures { OnOk result
        (front_steps steps.new.items ≡ front_steps steps.old.items ++ front_step step ∷ []) }
{
    steps.push(step)?;
    Ok(())
}

/// The steps, followed by a step for each error of a text of `end` bytes.
pub fn reported<G: Language>(
    alloc: Global,
    language: &G,
    end: TextSize,
    tokens: &[Token],
    mut steps: Vec<Step>,
    faults: &[ParserError],
) -> Result<Vec<Step>, AllocError>
    ensures { IfOk result (λ v. front_steps v.items ≡ front_steps steps.items
        ++ map (report_by (say_of (G.speaks language.now) end tokens.now)) faults.now) }
{
    for fault in faults {
        let step = report(alloc, language, end, tokens, *fault)?;
        add(&mut steps, step)?;
    }
    Ok(steps)
}
