//! The statuses that calls return, and the numbers of editions.
ghost use Rattle.std.specs.Prelude.{◌≡◌};
ghost use Rattle.ras_c.specs.Border.{edition_of};

use ras_front_end::Edition;

/// Success. The buffers and the counts were written.
pub const OK: u32 = 0;
/// The text is not UTF-8. Nothing was written.
pub const NOT_UTF8: u32 = 1;
/// The text, its rows or its messages have 2^32 bytes or elements or more. Nothing was written.
pub const TOO_LONG: u32 = 2;
/// Out of memory. Nothing was written.
pub const NO_MEMORY: u32 = 3;
/// A buffer is too small. The counts are the sizes that are needed; nothing else was written.
pub const NO_ROOM: u32 = 4;
/// The edition is not 2015, 2018, 2021 or 2024. Nothing was written.
pub const NO_EDITION: u32 = 5;
/// The text has no such range, or its tree no such node; or an element of a list is no offset or
/// place of the text. Nothing was written, but for the number of that element.
pub const NO_PLACE: u32 = 6;
/// The handle holds no parse. Nothing was written.
pub const NO_PARSE: u32 = 7;
/// No entry has the number. Nothing was written.
pub const NO_ENTRY: u32 = 11;
/// No choice of errors has the number. Nothing was written.
pub const NO_CHOICE: u32 = 12;

/// The edition of a year, or `None` if there is none.
pub fn edition_of(year: u32) -> Option<Edition>
    ensures { result ≡ edition_of year }
{
    match year {
        2015 => Some(Edition::Edition2015),
        2018 => Some(Edition::Edition2018),
        2021 => Some(Edition::Edition2021),
        2024 => Some(Edition::Edition2024),
        _ => None,
    }
}
