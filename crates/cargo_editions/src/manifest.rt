//! The edition of a package and of a workspace.
ghost use Rattle.std.specs.Prelude.{◌≡◌, ◌↔◌, IsTrue, option_map, is_some};
ghost use Rattle.toml.specs.View.{view};
ghost use Rattle.cargo_editions.specs.Manifest.{edition_named, edition_field, package_of, package_edition, workspace_edition, workspace_of};

use ras_front_end::Edition;
use toml::Value;

/// What a manifest says of an edition.
#[derive(Clone, Copy, Debug, PartialEq, Eq)]
pub enum Stated {
    /// This edition.
    Edition(Edition),
    /// That of the workspace's packages: `edition.workspace = true`.
    Workspace,
    /// Something that names no edition, such as `edition = 2021`, or one that is newer than those
    /// known here.
    Unknown,
    /// Nothing: there is no such table, or no edition in it.
    Nothing,
}

/// The edition of a name, such as `2021`; `None` if it names none.
pub fn edition_named(name: &str) -> Option<Edition>
    ensures { result ≡ edition_named name.now }
{
    match name {
        "2015" => Some(Edition::Edition2015),
        "2018" => Some(Edition::Edition2018),
        "2021" => Some(Edition::Edition2021),
        "2024" => Some(Edition::Edition2024),
        _ => None,
    }
}

// What a value says that stands behind `edition =`.
pub(crate) fn edition_field(edition: &Value) -> Stated
    ensures { result ≡ edition_field (view edition.now) }
{
    match edition.as_str() {
        Some(name) => match edition_named(name) {
            Some(edition) => Stated::Edition(edition),
            None => Stated::Unknown,
        },
        None => match edition.get("workspace") {
            Some(inherited) => match inherited.as_bool() {
                Some(true) => Stated::Workspace,
                _ => Stated::Unknown,
            },
            None => Stated::Unknown,
        },
    }
}

// The package of a manifest: its table `package`, or `project`, the old name that cargo still reads
// before edition 2024.
fn package_of(manifest: &Value) -> Option<&Value>
    ensures { option_map (λ p. view p.now) result ≡ package_of (view manifest.now) }
{
    manifest.get("package").or(manifest.get("project"))
}

/// What a manifest says of the edition of its package. A package without the field `edition` is one
/// of 2015. `Nothing` if the manifest has no package. If it has no table `package`, its package is
/// the table `project`, as in old manifests.
///
/// ```text
/// [package]
/// name = "a"
/// edition = "2021"
/// ```
pub fn of_package(manifest: &Value) -> Stated
    ensures { result ≡ package_edition (view manifest.now) }
{
    match package_of(manifest) {
        None => Stated::Nothing,
        Some(package) => match package.get("edition") {
            None => Stated::Edition(Edition::Edition2015),
            Some(edition) => edition_field(edition),
        },
    }
}

/// Whether a manifest is that of a workspace: it has a table `workspace`.
pub fn is_workspace(manifest: &Value) -> bool
    ensures { result ≡ is_some (workspace_of (view manifest.now)) }
{
    manifest.get("workspace").is_some()
}

/// What the manifest of a workspace says of the edition of those packages that take theirs from it:
/// `workspace.package.edition`. `Nothing` if it says nothing.
pub fn of_workspace(manifest: &Value) -> Stated
    ensures { result ≡ workspace_edition (view manifest.now) }
{
    match manifest.get("workspace") {
        None => Stated::Nothing,
        Some(workspace) => match workspace.get("package") {
            None => Stated::Nothing,
            Some(package) => match package.get("edition") {
                None => Stated::Nothing,
                Some(edition) => edition_field(edition),
            },
        },
    }
}
