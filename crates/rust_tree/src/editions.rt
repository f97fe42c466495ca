//! The edition of each file: that of the manifest of Cargo that it belongs to, the nearest one
//! above it.

use cargo_editions::{Stated, is_workspace, of_package, of_target, of_workspace};
use ras_front_end::Edition;
use rust_cli::options::Choice;
use rust_print::shown::name;
use std::alloc::Global;
use std::collections::BTreeMap;
use std::io::ErrorKind;
use std::{fs, io};
use toml::Value;

// A folder that a path names, and its real path.
#[derive(Drop)]
struct Folder {
    named: String,
    real: String,
}

/// The manifests that were read, by the real paths of their folders. Each folder is looked into
/// once.
#[derive(Drop)]
pub struct Manifests {
    alloc: Global,
    choice: Choice,
    read: BTreeMap<String, Option<Value>>,
    // That of the last file: the files of a folder come one after the other.
    last: Option<Folder>,
}

// The folder of a path; `.` if the path has none.
fn folder_of(path: &str) -> &str {
    match path.rsplit_once('/') {
        None => ".",
        Some(("", _)) => "/",
        Some((folder, _)) => folder,
    }
}

// The folder around a folder, by its real path.
fn around(folder: &str) -> Option<&str> {
    if folder == "/" {
        None
    } else {
        Some(folder_of(folder))
    }
}

// The path of a file in a folder.
fn path_in(alloc: Global, folder: &str, file: &str) -> io::Result<String> {
    let slash = if folder == "/" { "" } else { "/" };
    Ok(format!(in alloc; "{folder}{slash}{file}")?)
}

// The real path of a folder. Of one that is not there, as in the path of a new file, it is that of
// the nearest one around it that is, with the rest as it is named.
fn real_path(rt: &HostRuntime, named: &str) -> io::Result<Option<String>> {
    let mut folder = named;
    let mut rest = "";
    for _turn in 0..=named.len() {
        if let Ok(real) = fs::canonicalize(rt, folder) {
            let real = if rest.is_empty() {
                String::from_str(rt.alloc(), real.as_str())?
            } else {
                path_in(rt.alloc(), real.as_str(), rest)?
            };
            return Ok(Some(real));
        }
        let around = folder_of(folder);
        rest = if folder.contains('/') {
            named
                .get(around.len()..)
                .unwrap_or("")
                .trim_start_matches('/')
        } else {
            named
        };
        folder = around;
    }
    Ok(None)
}

// Whether a path leads to a pipe or a device, which would be read for ever.
fn is_endless(rt: &HostRuntime, path: &str) -> bool {
    fs::metadata(rt, path).is_ok_and(|found| !found.is_file() && !found.is_dir())
}

// The manifest of a folder, if it has one. One that cannot be read is reported; then the next one
// above counts.
fn manifest_in(rt: &HostRuntime, folder: &str) -> io::Result<Option<Value>> {
    let path = path_in(rt.alloc(), folder, "Cargo.toml")?;
    if is_endless(rt, path.as_str()) {
        eprintln!(rt;
            "rust_tree: warning: {}: not read, since it is no file",
            name(path.as_str())
        )?;
        return Ok(None);
    }
    let text = match fs::read_to_string(rt, path.as_str()) {
        Ok(text) => text,
        Err(error) => {
            if error.kind() != ErrorKind::NotFound {
                eprintln!(rt; "rust_tree: warning: {}: {error}", name(path.as_str()))?;
            }
            return Ok(None);
        }
    };
    match toml::table_from_str(rt.alloc(), text.as_str()) {
        Ok(table) => Ok(Some(Value::Table(table))),
        Err(error) => {
            let error = format!(in rt.alloc(); "{error}")?;
            eprint!(rt; "rust_tree: warning: {}", name(path.as_str()))?;
            for line in error.as_str().lines() {
                eprint!(rt; ": {}", name(line))?;
            }
            eprintln!(rt)?;
            Ok(None)
        }
    }
}

// The edition that is named, or the newest.
fn or_newest(stated: Stated) -> Edition {
    match stated {
        Stated::Edition(edition) => edition,
        _ => Edition::CURRENT,
    }
}

impl Manifests {
    /// No manifests yet.
    pub fn new(alloc: Global, choice: Choice) -> Manifests {
        Manifests {
            alloc,
            choice,
            read: BTreeMap::new(alloc),
            last: None,
        }
    }

    // Reads the manifest of a folder, unless it was looked for before. Returns whether there is
    // one.
    fn look(&mut self, rt: &HostRuntime, folder: &str) -> io::Result<bool> {
        if let Some(known) = self.read.get(folder) {
            return Ok(known.is_some());
        }
        let manifest = manifest_in(rt, folder)?;
        let is_there = manifest.is_some();
        let folder = String::from_str(self.alloc, folder)?;
        self.read.insert(folder, manifest)?;
        Ok(is_there)
    }

    // The manifest of a folder that was looked into.
    fn manifest(&self, folder: &str) -> Option<&Value> {
        match self.read.get(folder) {
            Some(Some(manifest)) => Some(manifest),
            _ => None,
        }
    }

    // The nearest folder with a manifest, from this one upwards; if `of_workspace`, with one of a
    // workspace.
    fn nearest<'f>(
        &mut self,
        rt: &HostRuntime,
        folder: &'f str,
        of_workspace: bool,
    ) -> io::Result<Option<&'f str>> {
        let mut at = Some(folder);
        for _turn in 0..=folder.len() {
            let Some(folder) = at else {
                break;
            };
            if self.look(rt, folder)? {
                let is_one = match self.manifest(folder) {
                    Some(manifest) => !of_workspace || is_workspace(manifest),
                    None => false,
                };
                if is_one {
                    return Ok(Some(folder));
                }
            }
            at = around(folder);
        }
        Ok(None)
    }

    // The edition of the workspace's packages, for a package in this folder.
    fn of_workspace_around(&mut self, rt: &HostRuntime, folder: &str) -> io::Result<Edition> {
        let Some(root) = self.nearest(rt, folder, true)? else {
            return Ok(Edition::CURRENT);
        };
        Ok(match self.manifest(root) {
            Some(manifest) => or_newest(of_workspace(manifest)),
            None => Edition::CURRENT,
        })
    }

    // What the manifest of a folder says of the edition of a file in it: that of a target at this
    // path, else that of the package, else, if there is no package, that of the workspace.
    fn stated_in(&self, folder: &str, path: &str) -> Stated {
        let Some(manifest) = self.manifest(folder) else {
            return Stated::Nothing;
        };
        match of_target(manifest, path) {
            Stated::Nothing => match of_package(manifest) {
                Stated::Nothing => of_workspace(manifest),
                stated => stated,
            },
            stated => stated,
        }
    }

    // The edition of a file in the folder with this real path.
    fn edition_in(&mut self, rt: &HostRuntime, folder: &str, file: &str) -> io::Result<Edition> {
        let Some(root) = self.nearest(rt, folder, false)? else {
            return Ok(Edition::CURRENT);
        };
        let path = path_in(self.alloc, folder, file)?;
        let inside = match path.as_str().strip_prefix(root) {
            Some(rest) => rest.trim_start_matches('/'),
            None => file,
        };
        match self.stated_in(root, inside) {
            Stated::Workspace => self.of_workspace_around(rt, root),
            stated => Ok(or_newest(stated)),
        }
    }

    // Notes the folder of a path as the last one. Returns false if its real path cannot be told.
    fn enter(&mut self, rt: &HostRuntime, named: &str) -> io::Result<bool> {
        if let Some(last) = &self.last {
            if last.named.as_str() == named {
                return Ok(true);
            }
        }
        let Some(real) = real_path(rt, named)? else {
            return Ok(false);
        };
        self.last = Some(Folder {
            named: String::from_str(self.alloc, named)?,
            real,
        });
        Ok(true)
    }

    /// The edition of a file. Standard input, `-`, is taken for a file of the current folder.
    pub fn edition_of(&mut self, rt: &HostRuntime, path: &str) -> io::Result<Edition> {
        if let Choice::Only(edition) = self.choice {
            return Ok(edition);
        }
        if !self.enter(rt, folder_of(path))? {
            return Ok(Edition::CURRENT);
        }
        let real = match &self.last {
            Some(last) => String::from_str(self.alloc, last.real.as_str())?,
            None => return Ok(Edition::CURRENT),
        };
        let file = match path.rsplit_once('/') {
            Some((_, file)) => file,
            None => path,
        };
        self.edition_in(rt, real.as_str(), file)
    }
}
