//! Which line of which ignore file decides.
ghost use Rattle.std.specs.Prelude.{◌≡◌, IfOk, map};
ghost use Rattle.gitignore.specs.Rules.{name_behind, name_of, says, applies, verdict_behind, verdict_of, nearer, verdict_in, verdict_among, is_out, is_ignored};

use crate::line::Rule;
use crate::matching::fits;
use std::alloc::{AllocError, Global};

/// What ignore files say of a path.
#[derive(Clone, Copy, Debug, PartialEq, Eq)]
pub enum Verdict {
    /// No line names it.
    Unnamed,
    /// It is ignored.
    Ignored,
    /// It is kept: the line that decides begins with `!`.
    Kept,
}

/// An ignore file.
#[derive(Debug, Drop)]
pub struct IgnoreFile {
    /// How many bytes of a path are those of the file's folder, with the slash behind it: its rules
    /// see what follows.
    pub folder: usize,
    /// What its lines say, in order.
    pub rules: Vec<Rule>,
}

// What follows the last slash of a path.
fn name_of(path: &[u8]) -> &[u8]
    ensures { result.now ≡ name_of path.now }
{
    let mut name = path;
    for (at, byte) in path.iter().enumerate() {
        if *byte == b'/' {
            name = path.split_at(at + 1).1;
        }
    }
    name
}

fn says(rule: &Rule) -> Verdict
    ensures { result ≡ says rule.now }
{
    if rule.is_negated {
        Verdict::Kept
    } else {
        Verdict::Ignored
    }
}

// Whether a rule names a path, which is counted from the folder of its file on.
pub(crate) fn applies(
    alloc: Global,
    rule: &Rule,
    path: &[u8],
    is_folder: bool,
) -> Result<bool, AllocError>
    ensures { IfOk result (λ r. r ≡ applies rule.now path.now is_folder) }
{
    if rule.is_for_folders && !is_folder {
        return Ok(false);
    }
    let Some(pieces) = &rule.glob else {
        return Ok(false);
    };
    if rule.is_for_names {
        fits(alloc, pieces.as_slice(), name_of(path))
    } else {
        fits(alloc, pieces.as_slice(), path)
    }
}

/// What the rules of one file say of a path, which is counted from the file's folder on: the last
/// one that names it decides.
///
/// Takes the time of a comparison with each rule.
///
/// # Errors
///
/// `AllocError` if memory runs out.
pub fn verdict_of(
    alloc: Global,
    rules: &[Rule],
    path: &[u8],
    is_folder: bool,
) -> Result<Verdict, AllocError>
    ensures { IfOk result (λ r. r ≡ verdict_of rules.now path.now is_folder) }
{
    let mut found = Verdict::Unnamed;
    for rule in rules {
        if applies(alloc, rule, path, is_folder)? {
            found = says(rule);
        }
    }
    Ok(found)
}

// The verdict of a nearer file, or else that of one further out.
fn nearer(inner: Verdict, outer: Verdict) -> Verdict
    ensures { result ≡ nearer inner outer }
{
    match inner {
        Verdict::Unnamed => outer,
        Verdict::Ignored | Verdict::Kept => inner,
    }
}

// What one file says of a path; nothing of one that is not below its folder.
fn verdict_in(
    alloc: Global,
    file: &IgnoreFile,
    path: &[u8],
    is_folder: bool,
) -> Result<Verdict, AllocError>
    ensures { IfOk result (λ r. r ≡ verdict_in file.now path.now is_folder) }
{
    if file.folder < path.len() {
        let (_, inside) = path.split_at(file.folder);
        verdict_of(alloc, file.rules.as_slice(), inside, is_folder)
    } else {
        Ok(Verdict::Unnamed)
    }
}

/// What several files say of a path, each of a folder that the path is below, outermost first: the
/// last file of which a line names the path decides. Whether a folder around it is ignored is not
/// looked at.
///
/// Takes the time of a comparison with each rule.
///
/// # Errors
///
/// `AllocError` if memory runs out.
pub fn verdict_among(
    alloc: Global,
    files: &[IgnoreFile],
    path: &[u8],
    is_folder: bool,
) -> Result<Verdict, AllocError>
    ensures { IfOk result (λ r. r ≡ verdict_among files.now path.now is_folder) }
{
    let mut found = Verdict::Unnamed;
    for file in files {
        found = nearer(verdict_in(alloc, file, path, is_folder)?, found);
    }
    Ok(found)
}

fn is_out(verdict: Verdict) -> bool
    ensures { result ≡ is_out verdict }
{
    matches!(verdict, Verdict::Ignored)
}

/// Whether a path is ignored: it, or a folder around it, has the verdict `Ignored`. So what is
/// below an ignored folder can't be kept.
///
/// Takes the time of a comparison with each rule, for the path and for each folder around it.
///
/// # Errors
///
/// `AllocError` if memory runs out.
pub fn is_ignored(
    alloc: Global,
    files: &[IgnoreFile],
    path: &[u8],
    is_folder: bool,
) -> Result<bool, AllocError>
    ensures { IfOk result (λ r. r ≡ is_ignored files.now path.now is_folder) }
{
    for (at, byte) in path.iter().enumerate() {
        if *byte == b'/' && is_out(verdict_among(alloc, files, path.split_at(at).0, true)?) {
            return Ok(true);
        }
    }
    Ok(is_out(verdict_among(alloc, files, path, is_folder)?))
}
