//! The targets by one stroke, until they are asked for.
ghost use Rattle.std.specs.Prelude.{◌≡◌, ◌↔◌, ℕ, List, [], Some, IsTrue};
ghost use Rattle.steno_rules.specs.States.{later_mark, new_mark};
ghost use Rattle.steno_rules.specs.WordSets.{IsWordSet, words_in};
ghost use Rattle.outline_trie.specs.Tries.{IsNode, node_strokes};
ghost use Rattle.closure_state.specs.NodeStates.{IsNodeState};
ghost use Rattle.closure_state.specs.inside.Steps.{IsStepOf};
ghost use Rattle.closure_state.specs.inside.Waits.{AreTargetsBy, IsTaken};
ghost use Rattle.closure_state.specs.Waits.{listed_if, some_listed, waits};

use crate::state::State;
use crate::step::Step;
use crate::word_set::WordSet;
use outline_trie::Trie;

/// Which of the three targets by a stroke are left: with the open word going on, with the word ended and the former
/// mark one stroke later, and with the word ended and a new mark. All of them have one window.
#[derive(Clone, Copy, Debug, PartialEq, Eq)]
pub struct Waiting {
    /// The node of the window of all three.
    pub window: u32,
    /// The node of the open word of the first.
    pub word: u32,
    /// The mark of the first two.
    pub mark: Option<u8>,
    /// Whether the first is left.
    pub going_on: bool,
    /// Whether the second is left.
    pub ended: bool,
    /// Whether the third is left.
    pub marked: bool,
}

/// The mark one stroke later, None where it doesn't lie in the window any more.
fn later(trie: &Trie, mark: Option<u8>, window: u32) -> Option<Option<u8>>
    requires { IsNode trie.now window }
    ensures { some_listed result ≡ later_mark mark (node_strokes trie.now window) }
{
    match mark {
        None => Some(None),
        Some(strokes) => {
            if u32::from(strokes) + 1 < trie.depth(window) {
                Some(Some(strokes + 1))
            } else {
                None
            }
        }
    }
}

/// Whether a boundary that is reached now is marked: where none is and the window isn't empty.
fn is_marked(mark: Option<u8>, window: u32) -> bool
    ensures { (u : List ℕ) → (window ≡ 0) ↔ (u ≡ []) → new_mark mark u ≡ listed_if result (Some 0) }
{
    mark.is_none() && window != 0
}

impl Waiting {
    /// No target.
    pub(crate) fn none() -> Waiting
        ensures { waits result ≡ [] }
    {
        Waiting {
            window: 0,
            word: 0,
            mark: None,
            going_on: false,
            ended: false,
            marked: false,
        }
    }

    /// Whether no target is left.
    pub fn is_empty(&self) -> bool
        ensures { IsTrue result ↔ (waits self.now ≡ []) }
    {
        !self.going_on && !self.ended && !self.marked
    }

    /// The next target.
    pub(crate) fn take(&mut self) -> Option<State>
        ensures { IsTaken (waits self.old) result (waits self.new) }
    {
        let window = self.window;
        if self.going_on {
            self.going_on = false;
            return Some(State {
                window,
                word: self.word,
                mark: self.mark,
            });
        }
        if self.ended {
            self.ended = false;
            return Some(State {
                window,
                word: 0,
                mark: self.mark,
            });
        }
        if self.marked {
            self.marked = false;
            return Some(State {
                window,
                word: 0,
                mark: Some(0),
            });
        }
        None
    }
}

/// The targets of a state by a stroke.
pub(crate) fn waiting_of(trie: &Trie, words: &WordSet, state: State, step: Step) -> Waiting
    requires words { IsWordSet trie.now words.now }
    requires state { IsNodeState trie.now (words_in trie.now words.now) state }
    requires step { IsStepOf trie.now state step }
    ensures { AreTargetsBy trie.now (words_in trie.now words.now) state step.code (waits result) }
{
    let Some(word) = step.word else {
        return Waiting::none()
    };
    let flags = words.flags(word);
    let window = step.window;
    let later = later(trie, state.mark, window);
    let stays = later.is_some();
    Waiting {
        window,
        word,
        mark: later.unwrap_or(None),
        going_on: flags.opens & stays,
        ended: flags.is_word & stays,
        marked: flags.is_word & is_marked(state.mark, window),
    }
}
