//! Globs as pieces, and how they are written: `*.rs`, `a/**/b`, `[a-z]?`.
ghost use Rattle.std.specs.Prelude.{◌≡◌, ◌<◌, ◌≤◌, ◌+◌, length, IfOk, IfSome, option_map};
ghost use Rattle.gitignore.specs.Pieces.{takes, stars, is_slash, is_escaped_slash, stars_at, escaped_at, OneOfAt, PieceAt, IsGlobOf};

use crate::class::{Class, class_at, class_has};
use std::alloc::{AllocError, Global};

/// A piece of a glob.
#[derive(Debug, Drop)]
pub enum Piece {
    /// This byte.
    Byte(u8),
    /// `?`: any byte but a slash.
    Any,
    /// `[..]`: a byte of this class, and no slash.
    OneOf(Class),
    /// `*`: any bytes but slashes, or none.
    Star,
    /// `**/`: any folders one in another, each with its slash, or none.
    Folders,
    /// `**` at the end: anything.
    Rest,
}

/// Whether a piece is one for a single byte, and takes this one.
pub(crate) fn takes(piece: &Piece, byte: u8) -> bool
    ensures { result ≡ takes piece.now byte }
{
    match piece {
        Piece::Byte(own) => *own == byte,
        Piece::Any => byte != b'/',
        Piece::OneOf(class) => class_has(class, byte),
        Piece::Star | Piece::Folders | Piece::Rest => false,
    }
}

// How many stars a text begins with.
fn stars(text: &[u8]) -> usize
    ensures value { result ≡ stars text.now }
    ensures room { result ≤ length text.now }
{
    let mut count = 0;
    for byte in text {
        if *byte != b'*' {
            break;
        }
        count += 1;
    }
    count
}

fn is_slash(text: &[u8]) -> bool
    ensures { result ≡ is_slash text.now }
{
    match text.split_first() {
        Some((first, _)) => *first == b'/',
        None => false,
    }
}

fn is_escaped_slash(text: &[u8]) -> bool
    ensures { result ≡ is_escaped_slash text.now }
{
    match text.split_first() {
        Some((first, behind)) => *first == b'\\' && is_slash(behind),
        None => false,
    }
}

// The piece of the stars at the front of a text, and how many bytes it has. `is_start`: the text is
// that of a glob, or is behind a slash.
fn stars_at(is_start: bool, text: &[u8]) -> (Piece, usize)
    requires { 0 < stars text.now }
    ensures value { result ≡ stars_at is_start text.now }
    ensures room { (0 < result.1) × (result.1 ≤ length text.now) }
{
    let count = stars(text);
    let behind = text.split_at(count).1;
    if !is_start || count < 2 {
        (Piece::Star, count)
    } else if is_slash(behind) {
        (Piece::Folders, count + 1)
    } else if behind.is_empty() || is_escaped_slash(behind) {
        (Piece::Rest, count)
    } else {
        (Piece::Star, count)
    }
}

// The byte behind a backslash; none at the end of a glob.
fn escaped_at(behind: &[u8]) -> Option<(Piece, usize)>
    ensures value { result ≡ escaped_at behind.now }
    ensures room { IfSome result (λ r. (0 < r.1) × (r.1 ≤ length behind.now + 1)) }
{
    match behind.split_first() {
        Some((byte, _)) => Some((Piece::Byte(*byte), 2)),
        None => None,
    }
}

// The piece of a class.
fn one_of(alloc: Global, behind: &[u8]) -> Result<Option<(Piece, usize)>, AllocError>
    ensures value { IfOk result (OneOfAt behind.now) }
    ensures room { IfOk result (λ r. IfSome r (λ it. (0 < it.1) × (it.1 ≤ length behind.now + 1))) }
{
    match class_at(alloc, behind)? {
        Some((class, used)) => Ok(Some((Piece::OneOf(class), used))),
        None => Ok(None),
    }
}

// The piece at the front of a text, and how many bytes it has; none if a backslash or a bracket has
// no end.
fn piece_at(
    alloc: Global,
    is_start: bool,
    text: &[u8],
) -> Result<Option<(Piece, usize)>, AllocError>
    ensures value { IfOk result (PieceAt is_start text.now) }
    ensures room { IfOk result (λ r. IfSome r (λ it. (0 < it.1) × (it.1 ≤ length text.now))) }
{
    let Some((first, behind)) = text.split_first() else {
        return Ok(None);
    };
    match *first {
        b'*' => Ok(Some(stars_at(is_start, text))),
        b'?' => Ok(Some((Piece::Any, 1))),
        b'\\' => Ok(escaped_at(behind)),
        b'[' => one_of(alloc, behind),
        byte => Ok(Some((Piece::Byte(byte), 1))),
    }
}

/// The pieces of a glob; `None` for one that nothing fits, since a backslash or a bracket in it has
/// no end.
///
/// `*` stands for any bytes but slashes, `?` for one byte that is no slash, `[a-z]` for one of
/// these, `[!a-z]` or `[^a-z]` for one of the others, and a backslash takes its meaning from the
/// byte behind it. `**/` at the start or behind a slash stands for any folders, or none, and `**`
/// there, at the end, for anything; elsewhere several stars are one. Names of sets, as
/// `[[:alpha:]]`, are not known.
///
/// Takes time and memory linear in the glob.
///
/// # Errors
///
/// `AllocError` if memory runs out.
pub fn pieces_of(alloc: Global, glob: &[u8]) -> Result<Option<Vec<Piece>>, AllocError>
    ensures { IfOk result (λ r. IsGlobOf glob.now (option_map (λ v. v.items) r)) }
{
    let mut pieces = Vec::new(alloc);
    let mut rest = glob;
    let mut is_start = true;
    while !rest.is_empty() {
        let Some((piece, used)) = piece_at(alloc, is_start, rest)? else {
            return Ok(None);
        };
        pieces.push(piece)?;
        is_start = rest[used - 1] == b'/';
        rest = rest.split_at(used).1;
    }
    Ok(Some(pieces))
}
