//! The edition of a target.
ghost use Rattle.std.specs.Prelude.{◌≡◌, option_map, option_copied};
ghost use Rattle.toml.specs.View.{view, items_view};
ghost use Rattle.cargo_editions.specs.Targets.{is_at, own_edition, first_at, listed_at, library_at, target_at, target_edition};

use crate::manifest::{Stated, edition_field};
use crate::paths::is_same;
use toml::Value;

// Whether a target is at a path, by its field `path`, or by a default.
fn is_at(default: Option<&str>, path: &str, target: &Value) -> bool
    ensures { result ≡ is_at (option_copied default.entry) path.now (view target.now) }
{
    match target.get("path") {
        Some(own) => match own.as_str() {
            Some(own) => is_same(path, own),
            None => false,
        },
        None => match default {
            Some(default) => is_same(path, default),
            None => false,
        },
    }
}

// What a target says of its edition.
fn own_edition(target: &Value) -> Stated
    ensures { result ≡ own_edition (view target.now) }
{
    match target.get("edition") {
        Some(edition) => edition_field(edition),
        None => Stated::Nothing,
    }
}

// The first of some targets at a path.
fn first_at<'a>(path: &str, targets: &'a [Value]) -> Option<&'a Value>
    ensures { option_map (λ t. view t.now) result ≡ first_at path.now (items_view targets.now) }
{
    for target in targets {
        if is_at(None, path, target) {
            return Some(target);
        }
    }
    None
}

// The first of the targets of a field at a path.
fn listed_at<'a>(field: &str, path: &str, manifest: &'a Value) -> Option<&'a Value>
    ensures { option_map (λ t. view t.now) result
        ≡ listed_at field.now path.now (view manifest.now) }
{
    match manifest.get(field) {
        None => None,
        Some(list) => match list.as_array() {
            None => None,
            Some(targets) => first_at(path, targets.as_slice()),
        },
    }
}

// The library, if it is at a path.
fn library_at<'a>(path: &str, manifest: &'a Value) -> Option<&'a Value>
    ensures { option_map (λ t. view t.now) result ≡ library_at path.now (view manifest.now) }
{
    match manifest.get("lib") {
        None => None,
        Some(library) => {
            if is_at(Some("src/lib.rs"), path, library) {
                Some(library)
            } else {
                None
            }
        }
    }
}

// The target at a path: the library, else the first of the programs, examples, tests and benches.
fn target_at<'a>(path: &str, manifest: &'a Value) -> Option<&'a Value>
    ensures { option_map (λ t. view t.now) result ≡ target_at path.now (view manifest.now) }
{
    if let Some(target) = library_at(path, manifest) {
        return Some(target);
    }
    if let Some(target) = listed_at("bin", path, manifest) {
        return Some(target);
    }
    if let Some(target) = listed_at("example", path, manifest) {
        return Some(target);
    }
    if let Some(target) = listed_at("test", path, manifest) {
        return Some(target);
    }
    listed_at("bench", path, manifest)
}

/// What a manifest says of the edition of the target whose root is the file at `path`: one with a
/// field `path` that is this path, also as `./tests/old.rs` or `tests//old.rs`, or the library,
/// which is at `src/lib.rs` if its manifest names no other path. Paths are relative to the folder
/// of the manifest; `..` in them is not followed. `Nothing` if there is no such target, or if it
/// says nothing of an edition.
///
/// ```text
/// [[test]]
/// name = "old"
/// path = "tests/old.rs"
/// edition = "2015"
/// ```
pub fn of_target(manifest: &Value, path: &str) -> Stated
    ensures { result ≡ target_edition path.now (view manifest.now) }
{
    match target_at(path, manifest) {
        Some(target) => own_edition(target),
        None => Stated::Nothing,
    }
}
