//! Paths of targets.
ghost use Rattle.std.specs.Prelude.{◌≡◌};
ghost use Rattle.std.specs.Path.{components_remaining};
ghost use Rattle.cargo_editions.specs.Paths.{parts_of, is_same};

use std::path::{Component, Components, Path};

// The components of a path, without a `.` in front.
fn parts_of(path: &str) -> Components<'_>
    ensures { components_remaining result ≡ parts_of path.now }
{
    let mut rest = Path::new(path).components();
    match rest.next() {
        Some(Component::CurDir) => rest,
        _ => Path::new(path).components(),
    }
}

// Whether two paths have the same components, but for a `.` in front.
pub(crate) fn is_same(path: &str, other: &str) -> bool
    ensures { result ≡ is_same path.now other.now }
{
    let mut others = parts_of(other);
    for part in parts_of(path) {
        match others.next() {
            Some(other) if other.as_os_str() == part.as_os_str() => {}
            _ => return false,
        }
    }
    others.next().is_none()
}
