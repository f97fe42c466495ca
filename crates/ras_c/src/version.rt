//! The number of the kinds and calls. Written by bindings/make.
ghost use Rattle.std.specs.Prelude.{◌≡◌};

/// A number made of the kinds, constants, structs and calls of the library. Bindings that know another number were made for others.
pub const VERSION: u32 = 1_426_711_408;

/// The number [`VERSION`] of the library. Compare it with that of the header.
#[unsafe(no_mangle)]
pub extern "C" fn ras_c_version() -> u32
    ensures { result ≡ VERSION }
{
    VERSION
}
