//! Names of kinds.
ghost use Rattle.std.specs.Prelude.{◌≡◌, ◌↔◌, ◌<◌, ◌≤◌, ◌⊎◌, length};
ghost use Rattle.syntax_kind.specs.declared.syntax_kind.SyntaxKind.{SyntaxKind};
ghost use Rattle.syntax_kind.specs.Kinds.{IsKind, kind_raw};
ghost use Rattle.rust_kinds.specs.Names.{rust_name, IsNamed};
ghost use Rattle.ras_c.specs.Border.{over};

use crate::fill::fill;
use rust_kinds::{from_name, name_of};
use syntax_kind::SyntaxKind;

/// A number that no kind has.
pub const NO_KIND: u32 = 4_294_967_295;

/// Writes the name of the kind with this number, for example `FN`, to the front of `name`, and
/// returns the name's length in bytes: 0 if no kind has the number, or if the kind has no name. If
/// `name` is shorter than that, it is not changed. 64 bytes are enough for all.
#[unsafe(no_mangle)]
pub extern "C" fn ras_c_kind_name(kind: u32, name: &mut [u8]) -> usize
    ensures count { (k : SyntaxKind) → IsKind k → kind_raw k ≡ kind
        → result ≡ length (rust_name k) }
    ensures written { (k : SyntaxKind) → IsKind k → kind_raw k ≡ kind
        → length (rust_name k) ≤ length name.old → name.new ≡ over (rust_name k) name.old }
    ensures kept { length name.old < result → name.new ≡ name.old }
    ensures unknown { ((k : SyntaxKind) → IsKind k → kind_raw k ≡ kind → ⊥)
        → (result ≡ 0) × (name.new ≡ name.old) }
{
    match SyntaxKind::from_raw(kind) {
        None => 0,
        Some(kind) => match name_of(kind) {
            None => 0,
            Some(known) => {
                if known.len() <= name.len() {
                    fill(known.as_bytes(), name);
                }
                known.len()
            }
        },
    }
}

/// The number of the kind with this name, for example `FN`, or [`NO_KIND`] if there is none.
#[unsafe(no_mangle)]
pub extern "C" fn ras_c_kind_of_name(name: &[u8]) -> u32
    ensures exact { (k : SyntaxKind) → IsKind k → (result ≡ kind_raw k) ↔ IsNamed k name.now }
    ensures number { (result ≡ 4294967295) ⊎ ((k : SyntaxKind) × IsKind k × (kind_raw k ≡ result)) }
{
    let Ok(name) = str::from_utf8(name) else {
        return NO_KIND;
    };
    match from_name(name) {
        Some(kind) => kind.to_raw(),
        None => NO_KIND,
    }
}
