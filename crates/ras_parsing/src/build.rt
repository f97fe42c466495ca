//! From steps to a tree.
ghost use Rattle.std.specs.Prelude.{◌≡◌, ◌<◌, ◌^◌, length, IfOk, OnOk, ⊤, ◌++◌, ◌∷◌, []};
ghost use Rattle.tree_model.specs.Cursor.{IsRoot};
ghost use Rattle.ras_front_end.specs.Parsed.{IsParseOf, ErrorsLieIn};
ghost use Rattle.ras_front_end.specs.Keeps.{Keeps};
ghost use Rattle.ras_front_end.specs.Reading.{reading_of};

use lossless_tree::{SyntaxNode, tree_over};
use ras_front_end::{Output, Step, SyntaxError};
use std::alloc::{AllocError, Global};

/// The root of a new tree, and the errors in its text.
#[derive(Drop)]
pub(crate) struct Built {
    /// The root.
    pub root: SyntaxNode,
    /// The errors: the parser's in the order of the steps, and then the lexer's.
    pub errors: Vec<SyntaxError>,
}

/// Appends an error.
pub(crate) fn store(errors: &mut Vec<SyntaxError>, error: SyntaxError) -> Result<(), AllocError>
    ensures { OnOk result (errors.new.items ≡ errors.old.items ++ error ∷ []) }
{
    errors.push(error)?;
    Ok(())
}

/// The tree of an output whose steps build one tree over the text, and its errors.
///
/// It takes time linear in the text and the steps.
pub(crate) fn build_output(alloc: Global, text: &str, output: Output) -> Result<Built, AllocError>
    requires short { length text.now < 2 ^ 32 }
    requires keeps { Keeps (λ root. ⊤) text.now (reading_of output) }
    ensures root { IfOk result (λ b. IsRoot b.root) }
    ensures parsed { IfOk result (λ b.
        IsParseOf text.now (reading_of output)
        (record { tree = b.root.tree; errors = b.errors.items })) }
    ensures in_text { IfOk result
        (λ b. ErrorsLieIn (record { tree = b.root.tree; errors = b.errors.items })) }
{
    let Output {
        steps,
        errors: lexer_errors,
    } = output;
    let root = tree_over(alloc, text, steps.as_slice())?;
    let mut errors = Vec::new(alloc);
    for step in steps {
        if let Step::Error(position, message) = step {
            let message = Box::into_inner(message);
            store(&mut errors, SyntaxError::new_at_offset(message, position))?;
        }
    }
    for error in lexer_errors {
        store(&mut errors, error)?;
    }
    Ok(Built { root, errors })
}
