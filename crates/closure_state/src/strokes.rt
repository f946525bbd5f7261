//! The strokes with which a state may still go on.
ghost use Rattle.std.specs.Prelude.{◌≡◌, ℕ, List};
ghost use Rattle.steno_rules.specs.WordSets.{IsWordSet, words_in};
ghost use Rattle.outline_trie.specs.Tries.{IsNode};
ghost use Rattle.closure_state.specs.NodeStates.{IsNodeState};
ghost use Rattle.closure_state.specs.inside.Strokes.{AreStrokes, IsRefill, IsStrokesStep};

use crate::rows::Rows;
use crate::state::State;
use crate::step::Step;
use crate::waiting::{Waiting, waiting_of};
use crate::word_set::WordSet;
use match_window::Windows;
use outline_trie::Trie;

/// The strokes that are left: the rows in which they stand, and a bound that is one past the last stroke's code.
#[derive(Drop)]
pub(crate) struct Strokes<'a> {
    pub(crate) rows: Rows<'a>,
    pub(crate) bound: u64,
}

impl Strokes<'_> {
    /// The next stroke.
    #[inline(always)]
    fn next(&mut self, trie: &Trie, windows: &Windows<'_>, state: State) -> Option<Step>
        requires windows { windows.now ≡ trie.now }
        requires word { IsNode trie.now state.word }
        requires strokes { (words : List (List ℕ)) × AreStrokes trie.now words state self.old }
        ensures { (words : List (List ℕ)) → AreStrokes trie.now words state self.old →
            IsStrokesStep trie.now words state self.old result self.new }
    {
        match self.rows.next(trie, windows, state, self.bound) {
            Some(step) => {
                self.bound = u64::from(step.code) + 1;
                Some(step)
            }
            None => None,
        }
    }

    /// The targets by the next stroke that has some; none where no stroke is left. It is inlined, so that they stay in
    /// registers.
    #[inline(always)]
    pub(crate) fn refill(
        &mut self,
        trie: &Trie,
        windows: &Windows<'_>,
        words: &WordSet,
        state: State,
    ) -> Waiting
        requires windows { windows.now ≡ trie.now }
        requires words { IsWordSet trie.now words.now }
        requires state { IsNodeState trie.now (words_in trie.now words.now) state }
        requires strokes { AreStrokes trie.now (words_in trie.now words.now) state self.old }
        ensures { IsRefill trie.now (words_in trie.now words.now) state self.old result self.new }
    {
        while let Some(step) = self.next(trie, windows, state) {
            let waiting = waiting_of(trie, words, state, step);
            if !waiting.is_empty() {
                return waiting;
            }
        }
        Waiting::none()
    }
}
