//! Whether a path fits a glob.
ghost use Rattle.std.specs.Prelude.{◌≡◌, ◌+◌, length, IfOk};
ghost use Rattle.std.specs.List.{list_any};
ghost use Rattle.gitignore.specs.Fits.{fits, next_mark, first_mark, seen_next, marks_of, mark_in, step, is_first, may_begin};

use crate::piece::{Piece, takes};
use std::alloc::{AllocError, Global};

// Whether a piece may end behind a byte, given whether it may begin before it (`here`) and behind
// it (`behind`), and whether it may have begun further ahead (`seen`).
fn next_mark(piece: &Piece, byte: u8, here: bool, behind: bool, seen: bool) -> bool
    ensures { result ≡ next_mark piece.now byte here behind seen }
{
    match piece {
        Piece::Star => behind || (byte != b'/' && seen),
        Piece::Folders => behind || (byte == b'/' && seen),
        Piece::Rest => behind || seen,
        Piece::Byte(_) | Piece::Any | Piece::OneOf(_) => here && takes(piece, byte),
    }
}

// Whether a piece may end where it may begin: it stands for nothing.
fn first_mark(piece: &Piece, here: bool) -> bool
    ensures { result ≡ first_mark piece.now here }
{
    match piece {
        Piece::Star | Piece::Folders | Piece::Rest => here,
        Piece::Byte(_) | Piece::Any | Piece::OneOf(_) => false,
    }
}

// What is kept of the places up to one: for a star, whether it may end there; else, whether a piece
// may have begun there or before.
fn seen_next(piece: &Piece, mark: bool, behind: bool, seen: bool) -> bool
    ensures { result ≡ seen_next piece.now mark behind seen }
{
    match piece {
        Piece::Star => mark,
        Piece::Folders | Piece::Rest | Piece::Byte(_) | Piece::Any | Piece::OneOf(_) => seen
            || behind,
    }
}

// The places of a path where a piece may end, given those where it may begin.
fn row_behind(
    alloc: Global,
    piece: &Piece,
    path: &[u8],
    before: &[bool],
) -> Result<Vec<bool>, AllocError>
    requires { length before.now ≡ length path.now + 1 }
    ensures { IfOk result (λ r. r.items
        ≡ marks_of (step piece.now path.now (mark_in before.now)) (length path.now + 1)) }
{
    let mut row = Vec::with_capacity(alloc, before.len())?;
    row.push(first_mark(piece, before[0]))?;
    let mut seen = before[0];
    for (at, byte) in path.iter().enumerate() {
        let mark = next_mark(piece, *byte, before[at], before[at + 1], seen);
        row.push(mark)?;
        seen = seen_next(piece, mark, before[at + 1], seen);
    }
    Ok(row)
}

// The one place where a path begins.
fn first_row(alloc: Global, path: &[u8]) -> Result<Vec<bool>, AllocError>
    ensures { IfOk result (λ r. r.items ≡ marks_of is_first (length path.now + 1)) }
{
    let mut row = vec![in alloc; true]?;
    for _byte in path {
        row.push(false)?;
    }
    Ok(row)
}

// Whether a place is marked.
fn is_any(row: &[bool]) -> bool
    ensures { result ≡ list_any (λ mark. mark) row.now }
{
    row.iter().any(|mark| *mark)
}

// Whether a piece may be the first of a glob that the path fits, by the first byte. Most lines of
// an ignore file begin with another one.
fn may_begin(piece: &Piece, path: &[u8]) -> bool
    ensures { result ≡ may_begin piece.now path.now }
{
    match piece {
        Piece::Byte(own) => match path.split_first() {
            Some((first, _)) => *own == *first,
            None => false,
        },
        Piece::Any | Piece::OneOf(_) | Piece::Star | Piece::Folders | Piece::Rest => true,
    }
}

/// Whether a path fits the pieces of a glob, as a whole.
///
/// Takes time proportional to the pieces times the path, at most the square of the path: once none
/// of the pieces so far fits a front of the path, the others are not tried. Takes memory linear in
/// the path.
///
/// # Errors
///
/// `AllocError` if memory runs out.
pub fn fits(alloc: Global, pieces: &[Piece], path: &[u8]) -> Result<bool, AllocError>
    ensures { IfOk result (λ r. r ≡ fits pieces.now path.now) }
{
    if let Some((piece, _)) = pieces.split_first() {
        if !may_begin(piece, path) {
            return Ok(false);
        }
    }
    let mut row = first_row(alloc, path)?;
    for piece in pieces {
        row = row_behind(alloc, piece, path, row.as_slice())?;
        if !is_any(row.as_slice()) {
            return Ok(false);
        }
    }
    Ok(row[path.len()])
}
