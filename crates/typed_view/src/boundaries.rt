//! Which boundaries a translation crosses.

ghost use Rattle.std.specs.Prelude.{ℕ, ◌≡◌, ◌+◌, ◌<◌, ◌≤◌, ◌^◌, List, All, IfOk, sum, take};
ghost use Rattle.stroke.specs.declared.pieces.Piece.{Piece};
ghost use Rattle.typed_view.specs.Covers.{IsCover, cover_at, cover_in, covers_of};

use std::alloc::{AllocError, Global};
use stroke::Piece;

/// What becomes of a boundary between two typed parts.
#[derive(Clone, Copy, Debug, PartialEq, Eq)]
pub enum Cover {
    /// No piece that is an entry has strokes on both sides.
    Kept,
    /// A piece has: the number of its entry, and how many of its strokes stand before the boundary.
    Crossed { entry: u32, place: u32 },
}

/// What becomes of each boundary, as a function, is what the relation says: one piece at most has strokes on both
/// sides.
pub fn boundary_covers()
    ensures { (pieces : List Piece) (at : ℕ) → IsCover pieces at (cover_at pieces at) }
{}

/// What becomes of a boundary so many strokes after the start of a piece of this entry, and before its end.
fn cover_in_piece(entry: Option<u32>, at: u32) -> Cover
    ensures { result ≡ cover_in entry at }
{
    match entry {
        Some(entry) if at > 0 => Cover::Crossed { entry, place: at },
        _ => Cover::Kept,
    }
}

/// What becomes of a boundary that lies before the end of the first piece, or behind all.
fn first_cover(pieces: &[Piece], at: u32) -> Cover
    requires { All (λ piece. at < piece.len) (take 1 pieces.now) }
    ensures { result ≡ cover_at pieces.now at }
{
    match pieces {
        [piece, ..] => cover_in_piece(piece.entry, at),
        [] => Cover::Kept,
    }
}

/// The pieces from the one on that ends behind the boundary, which lies `at` strokes after the start of all of them;
/// and how many strokes after their own start it lies.
fn pieces_at(pieces: &[Piece], at: u32) -> (&[Piece], u32)
    ensures first { All (λ piece. result.1 < piece.len) (take 1 result.0.now) }
    ensures later { (k : ℕ) → cover_at result.0.now (result.1 + k) ≡ cover_at pieces.now (at + k) }
    ensures less { result.1 ≤ at }
{
    let mut left = at;
    for (i, piece) in pieces.iter().enumerate() {
        if left < piece.len {
            return (&pieces[i..], left);
        }
        left -= piece.len;
    }
    (&[], left)
}

/// What becomes of each boundary between two parts, first one first.
///
/// `parts` are how many strokes each part has, and `pieces` are those of all strokes together. The cost is linear in
/// both.
pub fn covers(alloc: Global, parts: &[u32], pieces: &[Piece]) -> Result<Vec<Cover>, AllocError>
    requires { sum parts.now < 2 ^ 32 }
    ensures { IfOk result (λ covers. covers.items ≡ covers_of parts.now pieces.now) }
{
    let firsts = &parts[..parts.len().saturating_sub(1)];
    let mut covers = Vec::with_capacity(alloc, firsts.len())?;
    let mut rest = pieces;
    let mut at = 0;
    for part in firsts {
        (rest, at) = pieces_at(rest, at + *part);
        covers.push(first_cover(rest, at))?;
    }
    Ok(covers)
}
