//! The ends of what was pushed. For each piece of the window its end is the node of the strokes from the piece's start
//! on, None where no entry begins with them. One look-up advances an end by a stroke, so no stroke is kept or read
//! again.
ghost use Rattle.std.specs.Prelude.{◌≡◌, ◌+◌, ◌≤◌, ◌<◌, ◌++◌, ◌∷◌, [], All, drop, is_some, length, position, vec_capacity, Some};
ghost use Rattle.translator.specs.inside.Ends.{IsAdvance, IsEnd, longer_end, is_entry_end, lost_ends, piece_at};

use outline_trie::Trie;
use std::sync::ledger::Ledger;
use steps::Steps;
use stroke::{Piece, Stroke};

/// An end with one stroke more. At most one look-up.
fn grow<L: Ledger>(
    trie: &Trie,
    end: Option<u32>,
    stroke: Stroke,
    steps: &mut Steps<L>,
) -> Option<u32>
    requires { IsEnd trie.now end }
    ensures grown { result ≡ longer_end trie.now stroke end }
    ensures cost { steps.new ≤ steps.old + 1 }
{
    match end {
        Some(node) => trie.child_step(node, stroke, steps),
        None => None,
    }
}

/// Whether the strokes of an end are an entry.
fn is_entry(trie: &Trie, end: Option<u32>) -> bool
    requires { IsEnd trie.now end }
    ensures { result ≡ is_entry_end trie.now end }
{
    match end {
        Some(node) => trie.entry(node).is_some(),
        None => false,
    }
}

/// The piece of an end: one stroke where it is no node.
pub(crate) fn piece_of_end(trie: &Trie, end: Option<u32>) -> Piece
    requires { IsEnd trie.now end }
    ensures { result ≡ piece_at trie.now end }
{
    match end {
        Some(node) => Piece {
            len: trie.depth(node),
            entry: trie.entry(node),
        },
        None => Piece {
            len: 1,
            entry: None,
        },
    }
}

/// Takes one stroke more into each end, up to the first that is an entry with it; the ends after that one go. Where
/// none is, the stroke alone is a last end. The place of the last end.
pub(crate) fn advance<L: Ledger>(
    ends: &mut Vec<Option<u32>>,
    trie: &Trie,
    stroke: Stroke,
    steps: &mut Steps<L>,
) -> usize
    requires ends { All (IsEnd trie.now) ends.old.items }
    requires room { length ends.old.items < vec_capacity ends.old }
    ensures advance { IsAdvance trie.now stroke (ends.old.items ++ Some 0 ∷ [])
        ends.new.items result }
    ensures capacity { vec_capacity ends.new ≡ vec_capacity ends.old }
    ensures cost { steps.new ≤ steps.old + length ends.old.items + 1 }
{
    for place in 0..ends.len() {
        let end = grow(trie, ends[place], stroke, steps);
        ends[place] = end;
        if is_entry(trie, end) {
            ends.truncate(place + 1);
            return place;
        }
    }
    ends.push_reserved(trie.child_step(0, stroke, steps));
    ends.len() - 1
}

/// The place of the first end that is a node.
fn first_node(ends: &[Option<u32>]) -> Option<usize>
    ensures { result ≡ position is_some ends.now }
{
    ends.iter().position(|end| end.is_some())
}

/// Drops the pieces at the front whose ends are no nodes: no stroke makes a node of them again.
pub(crate) fn trim(pieces: &mut Vec<Piece>, ends: &mut Vec<Option<u32>>)
    requires { length pieces.old.items ≡ length ends.old.items }
    ensures pieces { pieces.new.items ≡ drop (lost_ends ends.old.items) pieces.old.items }
    ensures ends { ends.new.items ≡ drop (lost_ends ends.old.items) ends.old.items }
    ensures room_of_pieces { vec_capacity pieces.new ≡ vec_capacity pieces.old }
    ensures room_of_ends { vec_capacity ends.new ≡ vec_capacity ends.old }
{
    let lost = first_node(ends).unwrap_or(ends.len());
    pieces.drain(..lost);
    ends.drain(..lost);
}
