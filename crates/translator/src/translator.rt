//! The translator and its pushes.
ghost use Rattle.std.specs.Prelude.{◌≡◌, ◌+◌, ◌≤◌, ◌++◌, ◌∷◌, [], IfOk};
ghost use Rattle.steno_rules.specs.Windows.{window};
ghost use Rattle.stroke.specs.Pieces.{pieces as pieces_of};
ghost use Rattle.outline_trie.specs.Tries.{longest_of};
ghost use Rattle.translator.specs.Translations.{IsMerge};

use crate::ends::{advance, piece_of_end, trim};
use history::History;
use outline_trie::Trie;
use std::alloc::{AllocError, Global};
use std::marker::Model;
use std::sync::ledger::Ledger;
use steps::Steps;
use stroke::{Piece, Stroke};

/// What a stroke changes: the last pieces, as many as `replaced`, give way to one.
#[derive(Clone, Copy, Debug, PartialEq, Eq)]
pub struct Merge {
    /// How many of the last pieces are taken away.
    pub replaced: u32,
    /// The piece that is added. It ends with the stroke.
    pub piece: Piece,
}

/// A translator over a trie, which it borrows. It is seen as the entries and the list of all strokes that were pushed.
#[derive(Drop)]
pub struct Translator<'a> {
    trie: &'a Trie,
    /// The pieces of the window.
    pieces: Vec<Piece>,
    /// For each of them the node of the window's strokes from its start on, None where no entry begins with them.
    ends: Vec<Option<u32>>,
    told: History<Stroke>,
}

impl<'a> Model for Translator<'a> {
    ghost use Rattle.std.specs.Prelude.{reverse, vec_capacity};
    ghost use Rattle.translator.specs.Translations.{Translation};
    ghost use Rattle.translator.specs.inside.Ends.{IsTranslator};

    ghost Value = { Translation };

    ghost view = { λ t. record { entries = t.trie.now; strokes = reverse t.told.items } };

    ghost invariant = { λ t.
        IsTranslator t.trie.now (reverse t.told.items)
        t.pieces.items t.ends.items (vec_capacity t.pieces) (vec_capacity t.ends) };
}

impl Translator<'_> {
    /// A translator to which nothing was pushed. All its memory is taken here: places for the pieces of a window and
    /// one more.
    pub fn new(alloc: Global, trie: &Trie) -> Result<Translator<'_>, AllocError>
        ensures { IfOk result (λ translator. translator ≡ record {
          entries = trie.now;
          strokes = [];
        }) }
    {
        let places = trie.longest_entry() as usize + 1;
        Ok(Translator {
            trie,
            pieces: Vec::with_capacity(alloc, places)?,
            ends: Vec::with_capacity(alloc, places)?,
            told: History::new(),
        })
    }

    /// One stroke more. At most one look-up for each piece of the window and one for the stroke alone, whatever was
    /// pushed before.
    pub fn push<L: Ledger>(&mut self, stroke: Stroke, steps: &mut Steps<L>) -> Merge
        ensures stands { self.new ≡ record {
          entries = self.old.entries;
          strokes = self.old.strokes ++ stroke ∷ [];
        } }
        ensures merge { IsMerge (pieces_of self.old.entries self.old.strokes)
            (pieces_of self.old.entries (self.old.strokes ++ stroke ∷ [])) result }
        ensures cost { steps.new ≤ steps.old + longest_of self.old.entries + 1 }
    {
        let place = advance(&mut self.ends, self.trie, stroke, steps);
        let piece = piece_of_end(self.trie, self.ends[place]);
        let replaced = (self.pieces.len() - place) as u32;
        self.pieces.truncate(place);
        self.pieces.push_reserved(piece);
        trim(&mut self.pieces, &mut self.ends);
        self.told = self.told.and(&stroke);
        Merge { replaced, piece }
    }

    /// The pieces of the window of all that was pushed, first one first: all that later strokes can change.
    pub fn pieces(&self) -> &[Piece]
        ensures { result.now ≡
            pieces_of self.now.entries (window self.now.entries self.now.strokes) }
    {
        self.pieces.as_slice()
    }
}
