//! The files that a command line names.

use crate::fix::path_below;
use crate::ignores::{Ignores, Level};
use gitignore::{Verdict, verdict_of};
use rust_cli::options::{Globs, Search};
use rust_print::shown::name;
use std::alloc::{AllocError, Global};
use std::collections::BTreeSet;
use std::io::ErrorKind;
use std::path::Path;
use std::{fs, io};

/// Reads a file, or standard input for `-`. It is an error if the bytes are not UTF-8.
pub fn text_of(rt: &HostRuntime, name: &str) -> io::Result<String> {
    if name == "-" {
        io::read_to_string(rt.alloc(), rt.reader())
    } else {
        fs::read_to_string(rt, name)
    }
}

fn is_rust(path: Path<'_>) -> bool {
    path.extension().is_some_and(|extension| extension == "rs")
}

// What an entry of a folder is.
#[derive(Clone, Copy)]
enum Kind {
    File,
    Folder,
    // A pipe, a device, a link that leads nowhere or is not followed: to read one may take for
    // ever, or lead out of the folder.
    Other,
}

fn kind_of(file_type: fs::FileType) -> Kind {
    if file_type.is_dir() {
        Kind::Folder
    } else if file_type.is_file() {
        Kind::File
    } else {
        Kind::Other
    }
}

// What a link leads to.
fn target_of(rt: &HostRuntime, path: &str) -> Kind {
    match fs::metadata(rt, path) {
        Ok(found) => kind_of(found.file_type()),
        Err(_) => Kind::Other,
    }
}

// Whether a folder is one that cargo builds in: it is named `target` and has the tag of a folder of
// caches.
fn is_target(rt: &HostRuntime, path: Path<'_>) -> io::Result<bool> {
    if !path.file_name().is_some_and(|name| name == "target") {
        return Ok(false);
    }
    let tag = format!(in rt.alloc(); "{}/CACHEDIR.TAG", path.as_str())?;
    Ok(fs::metadata(rt, tag.as_str()).is_ok())
}

// A folder that is still to be searched.
#[derive(Drop)]
struct Todo {
    path: String,
    // The ignore files of the folders around it.
    level: Level,
}

/// What a search of a folder found.
#[derive(Drop)]
struct Walk {
    files: Vec<String>,
    folders: Vec<Todo>,
    // The real path of the folder that is searched, and the length of the path that names it.
    root: String,
    named: usize,
    // The real path of the folder that the program runs in.
    current: String,
    ignores: Ignores,
    // The real paths of the folders that were searched, if links are followed: a link may lead to a
    // folder around it.
    seen: BTreeSet<String>,
    // How many names and folders could not be read.
    lost: u64,
}

// What globs of the command line say of a path that has two names. What they leave out by one of
// the two is left out.
fn by_globs(
    alloc: Global,
    globs: &Globs,
    names: (&str, &str),
    is_folder: bool,
) -> Result<Verdict, AllocError> {
    let rules = globs.rules.as_slice();
    let first = verdict_of(alloc, rules, names.0.as_bytes(), is_folder)?;
    let second = verdict_of(alloc, rules, names.1.as_bytes(), is_folder)?;
    Ok(match (first, second) {
        (Verdict::Ignored, _) | (_, Verdict::Ignored) => Verdict::Ignored,
        (Verdict::Kept, _) | (_, Verdict::Kept) => Verdict::Kept,
        _ if globs.has_wanted && !is_folder => Verdict::Ignored,
        _ => Verdict::Unnamed,
    })
}

impl Walk {
    // The real path of what is below the folder that is searched.
    fn real(&self, alloc: Global, path: &str) -> io::Result<String> {
        let root = self.root.as_str().trim_end_matches('/');
        let inside = path.get(self.named..).unwrap_or("").trim_start_matches('/');
        Ok(format!(in alloc; "{root}/{inside}")?)
    }

    // The two names by which globs of the command line know what is below the folder that is
    // searched. The first is that of ripgrep: the path, or what follows the current folder in it.
    // The second is the path from the current folder on, or, outside of that, from the folder that
    // is searched on: `src/gen/` is also for `../other/src/gen/`.
    fn names<'a>(&self, path: &'a str, real: &'a str) -> (&'a str, &'a str) {
        let current = self.current.as_str();
        let named = match path_below(current, path) {
            Some(below) => below,
            None => path.strip_prefix("./").unwrap_or(path),
        };
        let below = match path_below(current, real) {
            Some(below) => below,
            None => path_below(self.root.as_str(), real).unwrap_or(named),
        };
        (named, below)
    }

    // Whether an entry of a folder is left out. A glob of the command line goes before an ignore
    // file, and that before what is hidden.
    fn is_left_out(
        &self,
        rt: &HostRuntime,
        path: Path<'_>,
        is_folder: bool,
        level: Level,
        search: Search,
        globs: &Globs,
    ) -> io::Result<bool> {
        let real = self.real(rt.alloc(), path.as_str())?;
        let names = self.names(path.as_str(), real.as_str());
        match by_globs(rt.alloc(), globs, names, is_folder)? {
            Verdict::Ignored => return Ok(true),
            Verdict::Kept => return Ok(false),
            Verdict::Unnamed => {}
        }
        if !search.no_ignore {
            match self
                .ignores
                .verdict(rt.alloc(), level, real.as_str(), is_folder)?
            {
                Verdict::Ignored => return Ok(true),
                Verdict::Kept => return Ok(false),
                Verdict::Unnamed => {}
            }
        }
        if !search.hidden && path.file_name().is_some_and(|name| name.starts_with('.')) {
            return Ok(true);
        }
        if search.no_ignore || !is_folder {
            return Ok(false);
        }
        is_target(rt, path)
    }

    // Adds what a folder has. A name that is not UTF-8 is reported and counted as lost.
    fn list(
        &mut self,
        rt: &HostRuntime,
        folder: &str,
        level: Level,
        search: Search,
        globs: &Globs,
    ) -> io::Result<()> {
        for entry in fs::read_dir(rt, folder)? {
            let entry = match entry {
                Ok(entry) => entry,
                Err(error) => {
                    if error.kind() != ErrorKind::InvalidFilename {
                        return Err(error);
                    }
                    eprintln!(rt;
                        "rust_tree: {}: a name in it is not valid UTF-8",
                        name(folder)
                    )?;
                    self.lost = self.lost.saturating_add(1);
                    continue;
                }
            };
            self.entry(rt, &entry, level, search, globs)?;
        }
        Ok(())
    }

    // Adds an entry of a folder, unless it is left out.
    fn entry(
        &mut self,
        rt: &HostRuntime,
        entry: &fs::DirEntry<HostRuntime>,
        level: Level,
        search: Search,
        globs: &Globs,
    ) -> io::Result<()> {
        let file_type = entry.file_type()?;
        let kind = if search.follow && file_type.is_symlink() {
            target_of(rt, entry.path().as_str())
        } else {
            kind_of(file_type)
        };
        // What is no Rust file is not compared with the rules.
        match kind {
            Kind::Folder => {}
            Kind::File if is_rust(entry.path()) => {}
            _ => return Ok(()),
        }
        let is_folder = matches!(kind, Kind::Folder);
        if self.is_left_out(rt, entry.path(), is_folder, level, search, globs)? {
            return Ok(());
        }
        let path = String::from_str(rt.alloc(), entry.path().as_str())?;
        if is_folder {
            self.folders.push(Todo { path, level })?;
        } else {
            self.files.push(path)?;
        }
        Ok(())
    }

    // Whether a folder was searched before. It is noted.
    fn was_seen(&mut self, rt: &HostRuntime, folder: &str) -> io::Result<bool> {
        let path = fs::canonicalize(rt, folder)?;
        let path = String::from_str(rt.alloc(), path.as_str())?;
        Ok(!self.seen.insert(path)?)
    }

    fn folder(
        &mut self,
        rt: &HostRuntime,
        todo: &Todo,
        search: Search,
        globs: &Globs,
    ) -> io::Result<()> {
        let folder = todo.path.as_str();
        if search.follow && self.was_seen(rt, folder)? {
            return Ok(());
        }
        let mut level = todo.level;
        if !search.no_ignore {
            let real = self.real(rt.alloc(), folder)?;
            level = self
                .ignores
                .enter(rt, real.as_str().trim_end_matches('/'), level)?;
        }
        self.list(rt, folder, level, search, globs)
    }
}

/// The `.rs` files below a folder, sorted by their paths, without what the search leaves out. Links
/// are followed only if the search says so; then each folder is searched once, however many links
/// lead to it. A folder that cannot be read, and a name that is not UTF-8, are reported on standard
/// error and counted in `lost`.
pub fn files_below(
    rt: &HostRuntime,
    folder: &str,
    search: Search,
    globs: &Globs,
    lost: &mut u64,
) -> io::Result<Vec<String>> {
    let alloc = rt.alloc();
    let root = String::from_str(alloc, fs::canonicalize(rt, folder)?.as_str())?;
    // Where the current folder was removed, it has no path.
    let current = match fs::canonicalize(rt, ".") {
        Ok(current) => String::from_str(alloc, current.as_str())?,
        Err(_) => root.clone()?,
    };
    let mut ignores = Ignores::new(alloc);
    let level = if search.no_ignore {
        Level::default()
    } else {
        ignores.around(rt, root.as_str())?
    };
    let path = String::from_str(alloc, folder)?;
    let mut walk = Walk {
        files: Vec::new(alloc),
        folders: vec![in alloc; Todo { path, level }]?,
        root,
        named: folder.len(),
        current,
        ignores,
        seen: BTreeSet::new(alloc),
        lost: 0,
    };
    for _turn in 0..u64::MAX {
        let Some(todo) = walk.folders.pop() else {
            break;
        };
        if let Err(error) = walk.folder(rt, &todo, search, globs) {
            eprintln!(rt; "rust_tree: {}: {error}", name(todo.path.as_str()))?;
            walk.lost = walk.lost.saturating_add(1);
        }
    }
    *lost = walk.lost;
    let mut files = walk.files;
    files.sort()?;
    Ok(files)
}

/// The files that a run has read, by their real paths: a file that is named twice is read once.
#[derive(Drop)]
pub struct Read {
    seen: BTreeSet<String>,
}

impl Read {
    /// No files yet.
    pub fn new(alloc: Global) -> Read {
        Read {
            seen: BTreeSet::new(alloc),
        }
    }

    /// Whether a file was read before. It is noted. Standard input, and a file that is not there,
    /// never were.
    pub fn was_read(&mut self, rt: &HostRuntime, path: &str) -> io::Result<bool> {
        if path == "-" {
            return Ok(false);
        }
        let Ok(real) = fs::canonicalize(rt, path) else {
            return Ok(false);
        };
        let real = String::from_str(rt.alloc(), real.as_str())?;
        Ok(!self.seen.insert(real)?)
    }
}

/// Whether this is the name of a folder.
pub fn is_folder(rt: &HostRuntime, name: &str) -> bool {
    name != "-" && fs::metadata(rt, name).is_ok_and(|found| found.is_dir())
}
