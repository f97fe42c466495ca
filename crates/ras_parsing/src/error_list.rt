//! Stored errors and violations in one list.
ghost use Rattle.std.specs.Prelude.{◌≡◌, IfOk, map, ◌++◌};
ghost use Rattle.ras_validation.specs.Violations.{violations_of};
ghost use Rattle.ras_parsing.specs.AllErrors.{violation_fault};

use lossless_tree::SyntaxNode;
use ras_front_end::SyntaxError;
use ras_validation::{Violation, violations};
use std::alloc::{AllocError, Global};

// Copies of errors, in order.
pub(crate) fn copies(alloc: Global, errors: &[SyntaxError]) -> Result<Vec<SyntaxError>, AllocError>
    ensures { IfOk result (λ v. v.items ≡ errors.now) }
{
    let mut copies = Vec::new(alloc);
    for error in errors {
        copies.push(error.clone()?)?;
    }
    Ok(copies)
}

// A violation as an error.
fn as_error(alloc: Global, violation: Violation) -> Result<SyntaxError, AllocError>
    ensures { IfOk result (λ e. e ≡ violation_fault violation) }
{
    let message = String::from_str(alloc, violation.message())?;
    Ok(SyntaxError::new(message, violation.range))
}

// The errors, and after them the violations of a tree.
pub(crate) fn push_violations(
    alloc: Global,
    mut errors: Vec<SyntaxError>,
    root: &SyntaxNode,
) -> Result<Vec<SyntaxError>, AllocError>
    ensures { IfOk result
        (λ v. v.items ≡ errors.items ++ map violation_fault (violations_of root.now)) }
{
    let found = violations(alloc, root)?;
    for violation in &found {
        errors.push(as_error(alloc, *violation)?)?;
    }
    Ok(errors)
}
