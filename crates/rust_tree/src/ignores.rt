//! The ignore files of a search: `.gitignore` and `.git/info/exclude` in a repository of git, and
//! `.ignore` anywhere.

use gitignore::{IgnoreFile, Verdict, rules_of, verdict_among};
use rust_print::shown::name;
use std::alloc::{AllocError, Global};
use std::{fs, io};

// The ignore files above a file have at most so many bytes together; a larger one is not read. Each
// file and folder is compared with each line, so a file of a stranger could take hours.
const MOST: u64 = 1 << 18;

/// The ignore files of the folders around what is searched: those of git from `first` to `git`, and
/// those of any other kind up to `own`.
#[derive(Clone, Copy, Debug, Default)]
pub struct Level {
    first: usize,
    git: usize,
    own: usize,
    bytes: u64,
    is_in_repository: bool,
}

/// The ignore files of the folders on the way to the one that is searched, outermost first.
#[derive(Drop)]
pub struct Ignores {
    git: Vec<IgnoreFile>,
    own: Vec<IgnoreFile>,
}

// The bytes of an ignore file, if there is one. As in git, a link is none; a pipe or a device would
// be read for ever.
fn text_of(rt: &HostRuntime, path: &str, bytes: u64) -> io::Result<Option<Vec<u8>>> {
    let Ok(found) = fs::symlink_metadata(rt, path) else {
        return Ok(None);
    };
    if !found.is_file() {
        return Ok(None);
    }
    if found.len() > MOST.saturating_sub(bytes) {
        eprintln!(rt;
            "rust_tree: warning: {}: not read, since it is too long",
            name(path)
        )?;
        return Ok(None);
    }
    match fs::read(rt, path) {
        Ok(text) => Ok(Some(text)),
        Err(error) => {
            eprintln!(rt; "rust_tree: warning: {}: {error}", name(path))?;
            Ok(None)
        }
    }
}

// The text without a byte order mark.
fn without_mark(text: &[u8]) -> &[u8] {
    text.strip_prefix(b"\xef\xbb\xbf").unwrap_or(text)
}

// Reads an ignore file of a folder, which its path names without the slash at the end.
fn push_file(
    rt: &HostRuntime,
    files: &mut Vec<IgnoreFile>,
    folder: &str,
    file: &str,
    bytes: u64,
) -> io::Result<u64> {
    let alloc = rt.alloc();
    let path = format!(in alloc; "{folder}/{file}")?;
    let Some(text) = text_of(rt, path.as_str(), bytes)? else {
        return Ok(bytes);
    };
    let rules = rules_of(alloc, without_mark(text.as_slice()))?;
    files.push(IgnoreFile {
        folder: folder.len().saturating_add(1),
        rules,
    })?;
    Ok(bytes.saturating_add(text.len() as u64))
}

fn has_git(rt: &HostRuntime, folder: &str) -> io::Result<bool> {
    let path = format!(in rt.alloc(); "{folder}/.git")?;
    Ok(fs::symlink_metadata(rt, path.as_str()).is_ok())
}

impl Ignores {
    /// No files yet.
    pub fn new(alloc: Global) -> Ignores {
        Ignores {
            git: Vec::new(alloc),
            own: Vec::new(alloc),
        }
    }

    /// Reads the ignore files of a folder, whose real path is given without the slash at its end,
    /// and forgets those of other folders than the ones around it. In a folder that has `.git`, a
    /// repository begins, in which those of git around it do not count.
    pub fn enter(&mut self, rt: &HostRuntime, folder: &str, around: Level) -> io::Result<Level> {
        self.git.truncate(around.git);
        self.own.truncate(around.own);
        let mut level = around;
        if has_git(rt, folder)? {
            level.first = self.git.len();
            level.is_in_repository = true;
            let file = ".git/info/exclude";
            level.bytes = push_file(rt, &mut self.git, folder, file, level.bytes)?;
        }
        if level.is_in_repository {
            level.bytes = push_file(rt, &mut self.git, folder, ".gitignore", level.bytes)?;
        }
        level.bytes = push_file(rt, &mut self.own, folder, ".ignore", level.bytes)?;
        level.git = self.git.len();
        level.own = self.own.len();
        Ok(level)
    }

    /// Reads the ignore files of the folders around the one with this real path, outermost first.
    pub fn around(&mut self, rt: &HostRuntime, folder: &str) -> io::Result<Level> {
        let mut level = Level::default();
        for (at, sign) in folder.char_indices() {
            if sign == '/' && folder != "/" {
                let around = folder.get(..at).unwrap_or("");
                level = self.enter(rt, around, level)?;
            }
        }
        Ok(level)
    }

    /// What the ignore files say of a file or folder, by its real path: `.ignore` goes before those
    /// of git.
    pub fn verdict(
        &self,
        alloc: Global,
        level: Level,
        path: &str,
        is_folder: bool,
    ) -> Result<Verdict, AllocError> {
        let own = self.own.get(..level.own).unwrap_or(&[]);
        match verdict_among(alloc, own, path.as_bytes(), is_folder)? {
            Verdict::Unnamed => {
                let git = self.git.get(level.first..level.git).unwrap_or(&[]);
                verdict_among(alloc, git, path.as_bytes(), is_folder)
            }
            verdict => Ok(verdict),
        }
    }
}
