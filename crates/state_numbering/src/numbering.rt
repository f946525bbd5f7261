//! From states to numbers and back.
ghost use Rattle.std.specs.Prelude.{◌≡◌, ◌++◌, ◌<◌, ◌≤◌, ◌^◌, IfErr, IfOk, MatchOption, None, false, length};
ghost use Rattle.std.specs.List.{AllByRecursion};
ghost use Rattle.steno_rules.specs.ClosureGraphs.{numbers_by};
ghost use Rattle.steno_rules.specs.Outlines.{AreWords, entry_number};
ghost use Rattle.steno_rules.specs.States.{kept_targets};
ghost use Rattle.steno_rules.specs.StateNumbers.{longer, number_count, state_number, state_of_number};
ghost use Rattle.steno_rules.specs.WordSets.{IsWordSet};
ghost use Rattle.outline_trie.specs.Tries.{IsNode, node_strokes, suffix_of};
ghost use Rattle.closure_state.specs.NodeStates.{IsNodeState, state_at};
ghost use Rattle.closure_state.specs.Waits.{waits};
ghost use Rattle.state_numbering.specs.ByNumber.{HasNoHit, HasNoStroke, IsHitOf, IsOpenWordOf, IsStateOf, IsStrokeInto};
ghost use Rattle.state_numbering.specs.Causes.{IsNumberCause, most_states};
ghost use Rattle.state_numbering.specs.Cursors.{OwnsMoves, numbers_at, numbers_left};
ghost use Rattle.state_numbering.specs.Following.{followed};
ghost use Rattle.state_numbering.specs.Numberings.{numbering_of};

use crate::fault::NumberFault;
use crate::offset::{Lengths, lengths_at, offset_of};
use crate::parts::Parts;
use closure_state::{Hit, Moves, State, Waiting, WordSet, hit};
use match_window::Windows;
use outline_trie::Trie;
use std::alloc::{AllocError, Global};
use std::marker::Model;
use stroke::Stroke;

/// The states over the entries of a trie and some words among them, by their numbers. It borrows the trie, its windows
/// and the words.
#[derive(Drop)]
pub struct Numbering<'a> {
    trie: &'a Trie,
    windows: &'a Windows<'a>,
    words: &'a WordSet,
    parts: Parts<'a>,
}

impl<'a> Model for Numbering<'a> {
    ghost use Rattle.state_numbering.specs.Numberings.{NumberingView, numbering_of};
    ghost use Rattle.state_numbering.specs.inside.Invariants.{IsNumbering};

    ghost Value = { NumberingView };

    ghost view = { λ n. numbering_of n.trie.now n.words.now };

    ghost invariant = { λ n. IsNumbering n.windows.now n.parts n.trie.now n.words.now };
}

impl<'a> Numbering<'a> {
    /// Numbers the states, in time linear in the nodes. `TooManyStates` exactly where there are more than 33,554,432
    /// numbers; they are counted before any memory is asked for.
    pub fn new(
        alloc: Global,
        trie: &'a Trie,
        windows: &'a Windows<'a>,
        words: &'a WordSet,
    ) -> Result<Numbering<'a>, NumberFault>
        requires windows { windows.now ≡ trie.now }
        requires words { IsWordSet trie.now words.now }
        ensures numbered { IfOk result (λ n. n ≡ numbering_of trie.now words.now) }
        ensures within { IfOk result (λ n. number_count trie.now ≤ most_states) }
        ensures cause { IfErr result (IsNumberCause (number_count trie.now)) }
    {
        match Parts::new(alloc, trie) {
            Ok(parts) => Ok(Numbering {
                trie,
                windows,
                words,
                parts,
            }),
            Err(fault) => Err(fault),
        }
    }

    /// How many numbers there are, at least 1.
    pub fn count(&self) -> u32
        ensures count { result ≡ number_count self.now.entries }
        ensures some { 0 < result }
        ensures most { result ≤ most_states }
        ensures words { AreWords self.now.entries self.now.words }
    {
        self.parts.count()
    }

    /// The number of a state, found without a look-up. Of the open word only the number of its strokes is read, unless
    /// it is the longer list.
    #[inline(always)]
    pub fn number(&self, state: State) -> u32
        requires { IsNodeState self.now.entries self.now.words state }
        ensures number { result
            ≡ state_number self.now.entries (state_at self.now.entries state) }
        ensures below { result < number_count self.now.entries }
    {
        let window = self.parts.part(state.window);
        let word = self.trie.depth(state.word);
        let start = if word <= window.depth {
            window.start
        } else {
            self.parts.part(state.word).start
        };
        start
            + offset_of(Lengths {
                window: window.depth,
                word,
                mark: state.mark,
            })
    }

    /// The state of a number, None exactly where no state has it. A block of the index, a short scan, and one look-up a
    /// stroke of the shorter list.
    #[inline(always)]
    pub fn state(&self, number: u32) -> Option<State>
        ensures { MatchOption result
            (state_of_number self.now.entries self.now.words number ≡ None)
            (IsStateOf self.now number) }
    {
        if number >= self.parts.count() {
            return None;
        }
        let node = self.parts.node_of(number);
        let part = self.parts.part(node);
        let lengths = lengths_at(part.depth, number - part.start);
        let window = self.end_of(node, part.depth, lengths.window)?;
        let word = self.end_of(node, part.depth, lengths.word)?;
        if self.words.opens(word) {
            Some(State {
                window,
                word,
                mark: lengths.mark,
            })
        } else {
            None
        }
    }

    /// The node of so many last strokes of a node, if it is one.
    fn end_of(&self, node: u32, depth: u32, len: u32) -> Option<u32>
        requires node { IsNode self.now.entries node }
        requires depth { depth ≡ length (node_strokes self.now.entries node) }
        ensures { result ≡ suffix_of self.now.entries node len }
    {
        if len == depth {
            Some(node)
        } else if len == 1 {
            self.windows.alone(node)
        } else {
            self.trie.suffix(node, len)
        }
    }

    /// The node of the open word of the state of a number, and any number where none has it. It costs less than the
    /// state.
    pub(crate) fn open_word(&self, number: u32) -> u32
        requires { number < number_count self.now.entries }
        ensures { IsOpenWordOf self.now number result }
    {
        let node = self.parts.node_of(number);
        let part = self.parts.part(node);
        let lengths = lengths_at(part.depth, number - part.start);
        match self.end_of(node, part.depth, lengths.word) {
            Some(word) => word,
            None => 0,
        }
    }

    /// The kept moves of the state of a number, None where none has it.
    #[inline(always)]
    pub(crate) fn moves(&self, number: u32) -> Option<Moves<'a>>
        ensures left { numbers_left self.now result
            ≡ numbers_by self.now.entries (kept_targets self.now.entries self.now.words)
            (state_of_number self.now.entries self.now.words number) }
        ensures owned { OwnsMoves self.now result }
        ensures few { length (numbers_left self.now result) < 2 ^ 32 }
    {
        match self.state(number) {
            Some(state) => Some(Moves::kept(self.trie, self.windows, self.words, &state)),
            None => None,
        }
    }

    /// Lists the numbers of the targets that wait behind what is listed already.
    #[inline(always)]
    pub(crate) fn push_numbers(
        &self,
        waiting: Waiting,
        numbers: &mut Vec<u32>,
    ) -> Result<(), AllocError>
        requires { AllByRecursion (IsNodeState self.now.entries self.now.words) (waits waiting) }
        ensures { IfOk result (λ _. numbers.new.items
            ≡ numbers.old.items ++ numbers_at self.now.entries (waits waiting)) }
    {
        let window = waiting.window;
        let mark = waiting.mark;
        if waiting.going_on {
            let word = waiting.word;
            numbers.push(self.number(State { window, word, mark }))?;
        }
        if waiting.ended {
            let word = 0;
            numbers.push(self.number(State { window, word, mark }))?;
        }
        if waiting.marked {
            let word = 0;
            let mark = Some(0);
            numbers.push(self.number(State { window, word, mark }))?;
        }
        Ok(())
    }

    /// The last stroke of the longer of the two lists of a number's state, u where they are of equal length. None
    /// exactly where no state has the number or both lists are empty.
    pub fn stroke_into(&self, number: u32) -> Option<Stroke>
        ensures { MatchOption result (HasNoStroke self.now number) (IsStrokeInto self.now number) }
    {
        let state = self.state(number)?;
        if self.trie.depth(state.word) <= self.trie.depth(state.window) {
            self.trie.last(state.window)
        } else {
            self.trie.last(state.word)
        }
    }

    /// Whether a number stands for no open word and a mark, as that of a hit does.
    fn may_hit(&self, number: u32) -> bool
        ensures { result ≡ false → HasNoHit self.now number }
    {
        if number >= self.parts.count() {
            return false;
        }
        let part = self.parts.part(self.parts.node_of(number));
        let lengths = lengths_at(part.depth, number - part.start);
        lengths.word == 0 && lengths.mark.is_some()
    }

    /// The hit that the state of a number is, None exactly where no state has the number or its state is no hit. No
    /// stroke is looked up.
    pub fn hit_of(&self, number: u32) -> Option<Hit>
        ensures { MatchOption result (HasNoHit self.now number) (IsHitOf self.now number) }
    {
        if !self.may_hit(number) {
            return None;
        }
        let state = self.state(number)?;
        hit(self.trie, self.windows, &state)
    }

    /// The node of the longer of a state's two lists, the window where they are of equal length.
    fn longer_node(&self, state: State) -> u32
        requires { IsNodeState self.now.entries self.now.words state }
        ensures node { IsNode self.now.entries result }
        ensures longer { node_strokes self.now.entries result
            ≡ longer (state_at self.now.entries state) }
    {
        if self.trie.depth(state.word) <= self.trie.depth(state.window) {
            state.window
        } else {
            state.word
        }
    }

    /// The node of a node's strokes and the last stroke of a state, None where no entry begins with them. The last
    /// stroke of a state is that of the longer of its two lists, and where both are empty there is none. At most one
    /// look-up, and none at the root.
    pub fn follow(&self, node: u32, state: State) -> Option<u32>
        requires node { IsNode self.now.entries node }
        requires state { IsNodeState self.now.entries self.now.words state }
        ensures { result ≡ followed self.now.entries node state }
    {
        let end = self.longer_node(state);
        match self.trie.last(end) {
            Some(stroke) => {
                if node == 0 {
                    self.windows.alone(end)
                } else {
                    self.trie.child(node, stroke)
                }
            }
            None => Some(node),
        }
    }

    /// The entry that a node is, None where it only begins one.
    pub fn entry(&self, node: u32) -> Option<u32>
        requires { IsNode self.now.entries node }
        ensures { result ≡ entry_number self.now.entries (node_strokes self.now.entries node) }
    {
        self.trie.entry(node)
    }
}
