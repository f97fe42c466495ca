//! The numbers that name the fields of tuples.
ghost use Rattle.ras_token_ext.specs.Fields.{IsTupleField};

/// The text as a number, in decimal digits, with or without a `+` in front, as std parses a
/// `usize`; `None` for other texts and past 64 bits.
pub fn tuple_field(text: &str) -> Option<usize>
    ensures { IsTupleField text.now result }
{
    text.parse::<usize>().ok()
}
