//! Texts, their parses and their lines.
ghost use Rattle.std.specs.Prelude.{◌≡◌, ◌<◌, ◌≤◌, ◌↔◌, ◌^◌, length, IfOk, IfErr, OnOk};
ghost use Rattle.ras_front_end.specs.declared.parse_error.ParseError.TheVariants.{TooLong};
ghost use Rattle.rust_print.specs.Readings.{IsReadAs};

use line_index::LineIndex;
use lossless_tree::{SyntaxNode, TextSize};
use ras_front_end::{Edition, Entry, ParseError};
use ras_parsing::{Parse, read};
use rust_front::Rust;
use rust_report::{Spot, Spots};
use std::alloc::Global;

/// A text with its name.
#[derive(Clone, Copy)]
pub struct Source<'a> {
    /// The path of its file; `-` for standard input.
    pub name: &'a str,
    /// The folder whose search found the file; `None` if the command line names it.
    pub folder: Option<&'a str>,
    /// The absolute path of its file if its name is to be a link on a terminal; else empty.
    pub link: &'a str,
    /// The text.
    pub text: &'a str,
}

/// How a text is parsed.
#[derive(Clone, Copy, Debug)]
pub struct Reading {
    /// The edition of its keywords.
    pub edition: Edition,
    /// What it is parsed as.
    pub entry: Entry,
    /// Whether the tree is validated.
    pub validates: bool,
}

/// The parse of a text.
pub fn parsed(alloc: Global, text: &str, reading: Reading) -> Result<Parse<SyntaxNode>, ParseError>
    ensures { IfOk result (IsReadAs reading text.now) }
{
    read(alloc, &Rust, reading.entry, text, reading.edition)
}

/// The lines of a text.
pub fn lines(alloc: Global, text: &str) -> Result<LineIndex<'_>, ParseError>
    ensures text { IfOk result (λ lines. lines ≡ text.now) }
    ensures accepted { OnOk result (length text.now < 2 ^ 32) }
    ensures refused { IfErr result (λ e. (e ≡ TooLong) ↔ (2 ^ 32 ≤ length text.now)) }
{
    if TextSize::of(text).is_none() {
        return Err(ParseError::TooLong);
    }
    Ok(LineIndex::new(alloc, text)?)
}

/// The lines and columns of a text.
pub fn spots(alloc: Global, text: &str) -> Result<Spots<'_>, ParseError>
    ensures text { IfOk result (λ spots. spots ≡ text.now) }
    ensures accepted { OnOk result (length text.now < 2 ^ 32) }
    ensures refused { IfErr result (λ e. (e ≡ TooLong) ↔ (2 ^ 32 ≤ length text.now)) }
{
    Ok(Spots::new(lines(alloc, text)?))
}

/// Moves to an offset, and returns its line and column. Returns those of the text's start if the
/// offset has none; an offset of a tree always has them.
pub fn move_to(spots: &mut Spots<'_>, offset: TextSize) -> Spot {
    spots.move_to(offset).unwrap_or(Spot { line: 1, column: 1 })
}

/// The same without a move, for an offset near the one that was moved to last.
pub fn spot(spots: &Spots<'_>, offset: TextSize) -> Spot {
    spots.spot(offset).unwrap_or(Spot { line: 1, column: 1 })
}
