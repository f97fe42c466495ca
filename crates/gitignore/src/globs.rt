//! Lists of globs that choose files.
ghost use Rattle.std.specs.Prelude.{◌≡◌, not, IfOk};
ghost use Rattle.std.specs.List.{list_all};
ghost use Rattle.gitignore.specs.Globs.{names_above, covers, chosen_by, chooses};

use crate::line::Rule;
use crate::rules::applies;
use std::alloc::{AllocError, Global};

// Whether a rule names a folder around a path.
fn names_above(alloc: Global, rule: &Rule, path: &[u8]) -> Result<bool, AllocError>
    ensures { IfOk result (λ r. r ≡ names_above rule.now path.now 0 path.now) }
{
    for (at, byte) in path.iter().enumerate() {
        if *byte == b'/' && applies(alloc, rule, path.split_at(at).0, true)? {
            return Ok(true);
        }
    }
    Ok(false)
}

/// Whether a rule names the path of a file, or a folder around it.
///
/// Takes the time of a comparison with each of these paths.
///
/// # Errors
///
/// `AllocError` if memory runs out.
pub fn covers(alloc: Global, rule: &Rule, path: &[u8]) -> Result<bool, AllocError>
    ensures { IfOk result (λ r. r ≡ covers rule.now path.now) }
{
    if names_above(alloc, rule, path)? {
        return Ok(true);
    }
    applies(alloc, rule, path, false)
}

// Whether all globs have a `!`.
fn are_negated(globs: &[Rule]) -> bool
    ensures { result ≡ list_all (λ r. r.is_negated) globs.now }
{
    globs.iter().all(|glob| glob.is_negated)
}

/// Whether globs choose the path of a file: the last of them that names it, or a folder around it,
/// has no `!`. If none does, it is chosen if each of them has a `!`; so no globs choose all files.
///
/// `src/` and `!src/gen/` choose `src/a.rs`, but neither `src/gen/a.rs` nor `lib.rs`.
///
/// Takes the time of a comparison of each glob with each folder around the path.
///
/// # Errors
///
/// `AllocError` if memory runs out.
pub fn chooses(alloc: Global, globs: &[Rule], path: &[u8]) -> Result<bool, AllocError>
    ensures { IfOk result (λ r. r ≡ chooses globs.now path.now) }
{
    let mut found = are_negated(globs);
    for glob in globs {
        if covers(alloc, glob, path)? {
            found = !glob.is_negated;
        }
    }
    Ok(found)
}
