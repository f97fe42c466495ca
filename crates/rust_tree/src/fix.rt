//! Patches, and replacing the text of files.

use crate::session::Noun;
use rust_print::failure::Failure;
use rust_print::shown;
use rust_print::source::Source;
use rust_report::{Escaped, Medium, Quoted, lines_of, noun_for, other_front, same_front};
use rust_search::{write_hunks, write_lines};
use std::alloc::Global;
use std::fs::File;
use std::io::{ErrorKind, IsTerminal, Write};
use std::{fs, io, str};
use text_edit::TextEdit;

// Writes a hunk for each run of lines that differ, without context lines. Both texts have the same
// number of lines.
fn write_changes<W: Write>(out: &mut W, old: &[&str], new: &[&str]) -> io::Result<()> {
    let (mut old, mut new) = (old, new);
    let mut at = 1usize;
    for _turn in 0..old.len() {
        let same = same_front(old, new);
        old = old.get(same..).unwrap_or(&[]);
        new = new.get(same..).unwrap_or(&[]);
        at = at.saturating_add(same);
        let other = other_front(old, new);
        if other == 0 {
            break;
        }
        writeln!(out, "@@ -{at},{other} +{at},{other} @@")?;
        write_lines(out, "-", old.get(..other).unwrap_or(&[]))?;
        write_lines(out, "+", new.get(..other).unwrap_or(&[]))?;
        old = old.get(other..).unwrap_or(&[]);
        new = new.get(other..).unwrap_or(&[]);
        at = at.saturating_add(other);
    }
    Ok(())
}

// Whether `git apply` and `patch` take a name as it is: it leads down from the folder that they run
// in.
fn leads_down(name: &str) -> bool {
    !name.split('/').any(|part| matches!(part, "" | "." | ".."))
}

// The name of a file from the folder that the program runs in, or `None` if the file is not below
// it.
fn name_below(rt: &HostRuntime, name: &str) -> io::Result<Option<String>> {
    let folder = fs::canonicalize(rt, ".")?;
    // Standard input may have the path of a file that is not there.
    let Ok(path) = fs::canonicalize(rt, name) else {
        return Ok(None);
    };
    match path_below(folder.as_str(), path.as_str()) {
        Some(rest) => Ok(Some(String::from_str(rt.alloc(), rest)?)),
        None => Ok(None),
    }
}

/// What follows the path of a folder in the path of what is below it.
pub fn path_below<'a>(folder: &str, path: &'a str) -> Option<&'a str> {
    if folder == "/" {
        return path.strip_prefix("/");
    }
    path.strip_prefix(folder)?.strip_prefix("/")
}

/// The name of a file from the folder that the program runs in, if it is another one: of `./a.rs`,
/// an absolute path, or one with `..`. `None` too if the file is not below that folder.
pub fn other_name(rt: &HostRuntime, path: &str) -> io::Result<Option<String>> {
    if path == "-" || leads_down(path) {
        return Ok(None);
    }
    name_below(rt, path)
}

// The name of a file in a patch. If `git apply` and `patch` do not take it, standard error says so.
fn patch_name(rt: &HostRuntime, path: &str) -> io::Result<Option<String>> {
    let below = other_name(rt, path)?;
    if below.is_none() && path != "-" && !leads_down(path) {
        eprintln!(rt;
            "rust_tree: {}: `patch` and `git apply` refuse this file unless they run in a folder above it",
            shown::name(path)
        )?;
    }
    Ok(below)
}

fn write_names<W: Write>(out: &mut W, path: &str) -> io::Result<()> {
    let name = Quoted { name: path };
    // Without the tab, `patch` reads a name that is not in quotes up to its first blank.
    let end = if path.contains(' ') { "\t" } else { "" };
    writeln!(out, "--- {name}{end}\n+++ {name}{end}")
}

// Writes the lines of a patch that name a file.
fn write_head<W: Write>(rt: &HostRuntime, out: &mut W, name: &str) -> Result<(), Failure> {
    let below = match patch_name(rt, name) {
        Ok(below) => below,
        Err(error) => return Err(Failure::File(error)),
    };
    let path = match &below {
        Some(path) => path.as_str(),
        None => name,
    };
    Ok(write_names(out, path)?)
}

// Writes a patch as it is, so that `patch` and `git apply` take it; on a terminal, control
// characters of the file are symbols.
fn write_patch<W: Write>(rt: &HostRuntime, out: &mut W, patch: &[u8]) -> io::Result<()> {
    match str::from_utf8(patch) {
        Ok(text) if rt.stdout().is_terminal() => {
            let medium = Medium::Terminal;
            write!(out, "{}", Escaped { text, medium })
        }
        _ => out.write_all(patch),
    }
}

/// Writes the change of a file as a patch. Both texts have the same number of lines.
pub fn diff<W: Write>(
    rt: &HostRuntime,
    out: &mut W,
    source: Source<'_>,
    new: &str,
) -> Result<(), Failure> {
    let alloc = rt.alloc();
    let mut patch = Vec::new(alloc);
    write_head(rt, &mut patch, source.name)?;
    let (old, new) = (lines_of(alloc, source.text)?, lines_of(alloc, new)?);
    write_changes(&mut patch, old.as_slice(), new.as_slice())?;
    Ok(write_patch(rt, out, patch.as_slice())?)
}

/// Writes an edit of a file as a patch.
pub fn diff_of<W: Write>(
    rt: &HostRuntime,
    out: &mut W,
    source: Source<'_>,
    edit: &TextEdit,
) -> Result<(), Failure> {
    let mut patch = Vec::new(rt.alloc());
    write_head(rt, &mut patch, source.name)?;
    write_hunks(rt.alloc(), &mut patch, source.text, edit)?;
    Ok(write_patch(rt, out, patch.as_slice())?)
}

// The path of the new file beside another, which takes its name once it is written.
fn path_beside(alloc: Global, path: &str) -> io::Result<String> {
    let (folder, name) = path.rsplit_once('/').unwrap_or(("", path));
    Ok(format!(in alloc; "{folder}/.{name}.rust_tree-new")?)
}

// Takes away the new file that an interrupted run left beside a file. Anything else of that name,
// such as a link, stays.
fn remove_beside(rt: &HostRuntime, new: &str) -> io::Result<()> {
    if fs::symlink_metadata(rt, new).is_ok_and(|found| found.is_file()) {
        fs::remove_file(rt, new)?;
        eprintln!(rt;
            "rust_tree: {}: removed; an interrupted run left it",
            shown::name(new)
        )?;
    }
    Ok(())
}

/// Takes away the new file that an interrupted run left beside a file.
pub fn tidy(rt: &HostRuntime, name: &str) -> Result<(), Failure> {
    let done = match fs::canonicalize(rt, name) {
        Ok(path) => match path_beside(rt.alloc(), path.as_str()) {
            Ok(new) => remove_beside(rt, new.as_str()),
            Err(error) => Err(error),
        },
        Err(error) => Err(error),
    };
    match done {
        Ok(()) => Ok(()),
        Err(error) => Err(Failure::File(error)),
    }
}

// Writes the text to a new file with the permissions of the old file, and renames it to the old
// file's name. The file is empty until it has the permissions: others may not read the old one.
fn write_new(rt: &HostRuntime, new: &str, old: &str, text: &str) -> io::Result<()> {
    let mut file = File::create_new(rt, new)?;
    file.set_permissions(fs::metadata(rt, old)?.permissions())?;
    file.write_all(text.as_bytes())?;
    file.sync_all()?;
    fs::rename(rt, new, old)
}

// Replaces the text of the file at a path without links by writing a new file and renaming it, so
// that at every moment the file has the old text or the new one. A file that must not be written is
// not replaced.
fn replace(rt: &HostRuntime, path: &str, text: &str) -> Result<(), Failure> {
    let new = match path_beside(rt.alloc(), path) {
        Ok(new) => new,
        Err(error) => return Err(Failure::File(error)),
    };
    match write_new(rt, new.as_str(), path, text) {
        Ok(()) => Ok(()),
        Err(error) => {
            // What stood there before is not this run's.
            if error.kind() != ErrorKind::AlreadyExists {
                let _gone = fs::remove_file(rt, new.as_str());
            }
            Err(Failure::Beside(new, error))
        }
    }
}

// The path without links of a file that may be written. A file that a search found has to be below
// the folder that was searched.
fn path_of(rt: &HostRuntime, name: &str, folder: Option<&str>) -> io::Result<Option<String>> {
    let path = fs::canonicalize(rt, name)?;
    if let Some(folder) = folder {
        let folder = fs::canonicalize(rt, folder)?;
        if path_below(folder.as_str(), path.as_str()).is_none() {
            return Ok(None);
        }
    }
    if fs::metadata(rt, path.as_str())?.permissions().readonly() {
        return Err(io::Error::from(ErrorKind::PermissionDenied));
    }
    Ok(Some(String::from_str(rt.alloc(), path.as_str())?))
}

fn write_over(
    rt: &HostRuntime,
    name: &str,
    folder: Option<&str>,
    text: &str,
) -> Result<(), Failure> {
    match path_of(rt, name, folder) {
        Ok(Some(path)) => replace(rt, path.as_str(), text),
        Ok(None) => Err(Failure::Outside),
        Err(error) => Err(Failure::File(error)),
    }
}

/// What was done in a file, and how often.
#[derive(Clone, Copy)]
pub struct Done {
    /// To how many.
    pub count: usize,
    /// To what.
    pub noun: Noun,
    /// What was done.
    pub verb: &'static str,
}

/// Replaces the text of a file, and writes what was done. `folder` is the folder whose search found
/// the file.
pub fn fix<W: Write>(
    rt: &HostRuntime,
    out: &mut W,
    name: &str,
    folder: Option<&str>,
    text: &str,
    done: Done,
) -> Result<(), Failure> {
    write_over(rt, name, folder, text)?;
    let Done { count, noun, verb } = done;
    let things = noun_for(count as u64, noun.one, noun.many);
    Ok(writeln!(out, "{}: {count} {things} {verb}", shown::name(name))?)
}
