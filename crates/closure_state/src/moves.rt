//! The targets of a state, one after another.
ghost use Rattle.std.specs.Prelude.{◌≡◌, ◌++◌, MatchOption, [], map};
ghost use Rattle.std.specs.List.{AllByRecursion};
ghost use Rattle.steno_rules.specs.WordSets.{IsWordSet, words_in};
ghost use Rattle.closure_state.specs.Moving.{IfNodeState, IsNextTarget};
ghost use Rattle.closure_state.specs.NodeStates.{IsNodeState, kept_at, state_at, targets_at};
ghost use Rattle.closure_state.specs.Waits.{waits};
ghost use Rattle.closure_state.specs.inside.Left.{IsChainDepth, IsRowState};

use crate::chain::Chain;
use crate::row::Row;
use crate::rows::Rows;
use crate::state::State;
use crate::strokes::Strokes;
use crate::waiting::Waiting;
use crate::word_set::WordSet;
use match_window::Windows;
use outline_trie::Trie;
use std::marker::Model;

/// The targets of a state that are left, by rising strokes. For one stroke the target with an open word comes first,
/// and that with a new mark last; a target may be listed more than once. No memory is taken.
#[derive(Drop)]
pub struct Moves<'a> {
    trie: &'a Trie,
    windows: &'a Windows<'a>,
    words: &'a WordSet,
    state: State,
    strokes: Strokes<'a>,
    waiting: Waiting,
}

impl<'a> Model for Moves<'a> {
    ghost use Rattle.std.specs.Prelude.{◌++◌, map};
    ghost use Rattle.steno_rules.specs.WordSets.{words_in};
    ghost use Rattle.closure_state.specs.Moving.{MovesView};
    ghost use Rattle.closure_state.specs.NodeStates.{state_at};
    ghost use Rattle.closure_state.specs.inside.Invariants.{AreMoves};
    ghost use Rattle.closure_state.specs.inside.Strokes.{left_of};
    ghost use Rattle.closure_state.specs.Waits.{waits};

    ghost Value = { MovesView };

    ghost view = { λ m. record {
      entries = m.trie.now;
      words = words_in m.trie.now m.words.now;
      left = map (state_at m.trie.now) (waits m.waiting)
          ++ left_of m.trie.now (words_in m.trie.now m.words.now) m.state m.strokes;
    } };

    ghost invariant = { λ m.
        AreMoves m.windows.now m.trie.now m.words.now m.state m.strokes m.waiting };
}

/// How many strokes an end of a state's window has at least, where the kept targets are those by the children of its
/// ends: with a mark, and between two words. None for a state whose targets are all kept and stand by the children of
/// its open word.
fn chain_depth(state: &State) -> Option<u32>
    ensures { MatchOption result (IsRowState state.now) (IsChainDepth state.now) }
{
    if state.window == 0 {
        return None;
    }
    match state.mark {
        Some(mark) => Some(u32::from(mark) + 1),
        None => { if state.word == 0 { Some(1) } else { None } }
    }
}

impl<'a> Moves<'a> {
    /// All targets of a state, in time that follows the number of the open word's children.
    pub fn first(
        trie: &'a Trie,
        windows: &'a Windows<'a>,
        words: &'a WordSet,
        state: &State,
    ) -> Moves<'a>
        requires windows { windows.now ≡ trie.now }
        requires words { IsWordSet trie.now words.now }
        requires state { IsNodeState trie.now (words_in trie.now words.now) state.now }
        ensures entries { result.entries ≡ trie.now }
        ensures words { result.words ≡ words_in trie.now words.now }
        ensures targets { result.left
            ≡ targets_at trie.now (words_in trie.now words.now) state.now }
    {
        let rows = Rows::Row(Row {
            row: trie.children(state.word),
            end: state.window,
        });
        Moves {
            trie,
            windows,
            words,
            state: *state,
            strokes: Strokes { rows, bound: 0 },
            waiting: Waiting::none(),
        }
    }

    /// The kept targets of a state, in time that follows their number: a stroke after which no word is open and the
    /// window is at most that stroke isn't looked at, but from a fresh start.
    #[inline(always)]
    pub fn kept(
        trie: &'a Trie,
        windows: &'a Windows<'a>,
        words: &'a WordSet,
        state: &State,
    ) -> Moves<'a>
        requires windows { windows.now ≡ trie.now }
        requires words { IsWordSet trie.now words.now }
        requires state { IsNodeState trie.now (words_in trie.now words.now) state.now }
        ensures entries { result.entries ≡ trie.now }
        ensures words { result.words ≡ words_in trie.now words.now }
        ensures targets { result.left ≡ kept_at trie.now (words_in trie.now words.now) state.now }
    {
        let Some(depth) = chain_depth(state) else {
            return Moves::first(trie, windows, words, state)
        };
        let rows = Rows::Chain(Chain::new(trie, windows, state.window, depth));
        Moves {
            trie,
            windows,
            words,
            state: *state,
            strokes: Strokes { rows, bound: 0 },
            waiting: Waiting::none(),
        }
    }

    /// The next target, None where none is left.
    #[inline(always)]
    pub fn next(&mut self) -> Option<State>
        ensures entries { self.new.entries ≡ self.old.entries }
        ensures words { self.new.words ≡ self.old.words }
        ensures next { IsNextTarget self.old result self.new.left }
        ensures state { IfNodeState self.old.entries self.old.words result }
    {
        if self.waiting.is_empty() {
            self.waiting = self
                .strokes
                .refill(self.trie, self.windows, self.words, self.state);
        }
        self.waiting.take()
    }

    /// The targets that are left by one stroke, those by the next one that has some where none are. Nothing where no
    /// target is left.
    #[inline(always)]
    pub fn next_stroke(&mut self) -> Waiting
        ensures entries { self.new.entries ≡ self.old.entries }
        ensures words { self.new.words ≡ self.old.words }
        ensures left { self.old.left
            ≡ map (state_at self.old.entries) (waits result) ++ self.new.left }
        ensures done { waits result ≡ [] → self.new.left ≡ [] }
        ensures states { AllByRecursion
            (IsNodeState self.old.entries self.old.words) (waits result) }
    {
        if self.waiting.is_empty() {
            self.strokes
                .refill(self.trie, self.windows, self.words, self.state)
        } else {
            let left = self.waiting;
            self.waiting = Waiting::none();
            left
        }
    }
}
