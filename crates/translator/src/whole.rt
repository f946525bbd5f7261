//! A whole list of strokes, one by one.
ghost use Rattle.std.specs.Prelude.{◌≡◌, ◌<◌, length, sum_by, All, IfOk, IfSome};
ghost use Rattle.stroke.specs.Pieces.{pieces as pieces_of};

use crate::translator::Translator;
use outline_trie::Trie;
use std::alloc::{AllocError, Global};
use std::marker::Brand;
use std::sync::ledger::{Blank, Ledger};
use steps::Steps;
use stroke::{Piece, Stroke};

/// The pieces of a list of strokes, first one first: each stroke is pushed, and what the push answers is done to the
/// pieces.
pub fn translate(alloc: Global, trie: &Trie, strokes: &[Stroke]) -> Result<Vec<Piece>, AllocError>
    ensures pieces { IfOk result (λ found. found.items ≡ pieces_of trie.now strokes.now) }
    ensures lengths { IfOk result (λ found. sum_by (λ p. p.len) found.items ≡ length strokes.now) }
    ensures numbers { IfOk result
        (λ found. All (λ p. IfSome p.entry (λ e. e < length trie.now)) found.items) }
{
    collect::<Brand>(alloc, trie, strokes, Blank::new(1))
}

/// The same, over a counter that nobody reads.
fn collect<L: Ledger>(
    alloc: Global,
    trie: &Trie,
    strokes: &[Stroke],
    blank: Blank,
) -> Result<Vec<Piece>, AllocError>
    requires name { blank.name ≡ L.name }
    requires parts { blank.parts ≡ L.parts }
    requires some { 0 < L.parts }
    ensures { IfOk result (λ found. found.items ≡ pieces_of trie.now strokes.now) }
{
    let mut steps: Steps<L> = Steps::new(blank);
    let mut translator = Translator::new(alloc, trie)?;
    let mut pieces = Vec::with_capacity(alloc, strokes.len())?;
    for &stroke in strokes {
        let merge = translator.push(stroke, &mut steps);
        pieces.truncate(pieces.len() - merge.replaced as usize);
        pieces.push_reserved(merge.piece);
    }
    Ok(pieces)
}
