//! The forks as a graph to be searched.
ghost use Rattle.std.specs.Prelude.{◌≡◌, ◌<◌, ◌≤◌, ◌↔◌, ◌+◌, ◌++◌, true, map, IfOk, IsTrue, length};
ghost use Rattle.graph_rules.specs.Graphs.{most_numbers, word_half};
ghost use Rattle.steno_rules.specs.Nodes.{nodes};
ghost use Rattle.steno_rules.specs.Outlines.{AreWords, entry_number, is_word};
ghost use Rattle.steno_rules.specs.States.{is_open};
ghost use Rattle.steno_rules.specs.WordSets.{IsWordSet};
ghost use Rattle.outline_trie.specs.Tries.{AreChildren, IsNode, node_strokes, suffix_of};
ghost use Rattle.reading_laws.specs.ChosenReadings.{final_stroke};
ghost use Rattle.reading_laws.specs.ForkNumbers.{end_number, fork_count, fork_number, fork_start};
ghost use Rattle.reading_laws.specs.Forks.{fork_targets, has_open_words};
ghost use Rattle.free_parse.specs.Cursors.{OwnsTargets, targets_left};
ghost use Rattle.free_parse.specs.FreeGraphs.{free_graph_of};
ghost use Rattle.free_parse.specs.inside.Forks.{IsNodesFork, fork_by};
ghost use Rattle.free_parse.specs.inside.Parts.{IsOwner};

use crate::fork::NodeFork;
use crate::moves::ForkMoves;
use crate::parts::{Parts, end_of, parts_of};
use crate::waiting::Waiting;
use closure_state::WordSet;
use outline_trie::Trie;
use round_core::{MAX_NUMBERS, StepGraph};
use std::alloc::{AllocError, Global};
use std::marker::Model;

/// The graph of the forks over the entries of a trie and some words among them. It borrows the trie and the words.
///
/// Each node of d strokes has d + 1 numbers, in the order of nodes: for the fork at which both readings have it open,
/// and for those of it and each shorter end of it. The end has the last number, and the start has 0.
#[derive(Drop)]
pub struct FreeGraph<'a> {
    trie: &'a Trie,
    words: &'a WordSet,
    parts: Parts,
}

impl<'a> Model for FreeGraph<'a> {
    ghost use Rattle.free_parse.specs.FreeGraphs.{FreeGraphView, free_graph_of};
    ghost use Rattle.free_parse.specs.inside.Graphs.{IsFreeGraph};

    ghost Value = { FreeGraphView };

    ghost view = { λ g. free_graph_of g.trie.now g.words.now };

    ghost invariant = { λ g. IsFreeGraph g.trie.now g.words.now g.parts };
}

impl<'a> FreeGraph<'a> {
    /// Whether the forks over a trie have few enough numbers, at most 33,554,432. They have where states can be
    /// numbered.
    pub fn fits(trie: &Trie) -> bool
        ensures { IsTrue result ↔ (fork_count trie.now ≤ most_numbers) }
    {
        end_of(trie) < u64::from(MAX_NUMBERS)
    }

    /// The graph of a trie and its words, in time linear in the numbers, of which there may be at most 33,554,432.
    pub fn new(
        alloc: Global,
        trie: &'a Trie,
        words: &'a WordSet,
    ) -> Result<FreeGraph<'a>, AllocError>
        requires words { IsWordSet trie.now words.now }
        requires few { fork_count trie.now ≤ most_numbers }
        ensures { IfOk result (λ graph. graph ≡ free_graph_of trie.now words.now) }
    {
        let parts = parts_of(alloc, trie)?;
        Ok(FreeGraph { trie, words, parts })
    }

    /// The number of the end.
    pub(crate) fn end(&self) -> u32
        ensures end { result ≡ end_number self.now.entries }
        ensures few { result < most_numbers }
        ensures words { AreWords self.now.entries self.now.words }
    {
        self.parts.nodes.len() as u32
    }

    /// The node in whose part a number lies.
    pub(crate) fn owner(&self, number: u32) -> u32
        requires { number < end_number self.now.entries }
        ensures { IsOwner self.now.entries number result }
    {
        self.parts.nodes[number as usize]
    }

    /// The first number of a node's part.
    pub(crate) fn part(&self, node: u32) -> u32
        requires { IsNode self.now.entries node }
        ensures start { result ≡ fork_start (nodes self.now.entries) node }
        ensures within { result + length (node_strokes self.now.entries node) + 1
            ≤ end_number self.now.entries }
        ensures few { end_number self.now.entries < most_numbers }
    {
        self.parts.starts[node as usize]
    }

    /// Whether a node is empty or a proper beginning of a word.
    pub(crate) fn opens(&self, node: u32) -> bool
        requires { IsNode self.now.entries node }
        ensures { result ≡ is_open self.now.words (node_strokes self.now.entries node) }
    {
        self.words.opens(node)
    }

    /// Whether a node is a word.
    pub(crate) fn is_word(&self, node: u32) -> bool
        requires { IsNode self.now.entries node }
        ensures { result ≡ is_word self.now.words (node_strokes self.now.entries node) }
    {
        self.words.is_word(node)
    }

    /// How many strokes a node has.
    pub(crate) fn depth(&self, node: u32) -> u32
        requires { IsNode self.now.entries node }
        ensures depth { result ≡ length (node_strokes self.now.entries node) }
        ensures short { result ≤ 64 }
    {
        self.trie.depth(node)
    }

    /// The entry that a node is, if it is one.
    pub(crate) fn entry(&self, node: u32) -> Option<u32>
        requires { IsNode self.now.entries node }
        ensures { result ≡ entry_number self.now.entries (node_strokes self.now.entries node) }
    {
        self.trie.entry(node)
    }

    /// A node's children by rising strokes.
    pub(crate) fn children(&self, node: u32) -> &'a [(u32, u32)]
        requires { IsNode self.now.entries node }
        ensures children { AreChildren self.now.entries node result.now }
        ensures words { AreWords self.now.entries self.now.words }
        ensures few { end_number self.now.entries < most_numbers }
    {
        self.trie.children(node)
    }

    /// The node of so many last strokes of a node, if it is one.
    pub(crate) fn suffix(&self, node: u32, len: u32) -> Option<u32>
        requires { IsNode self.now.entries node }
        ensures { result ≡ suffix_of self.now.entries node len }
    {
        self.trie.suffix(node, len)
    }

    /// The node of a node's strokes and the last stroke of another one, if it is one.
    pub(crate) fn child_by(&self, node: u32, other: u32) -> Option<u32>
        requires node { IsNode self.now.entries node }
        requires other { IsNode self.now.entries other }
        requires some { 0 < length (node_strokes self.now.entries other) }
        ensures child { let strokes = node_strokes self.now.entries in
            result ≡ entry_number (nodes self.now.entries)
            (strokes node ++ final_stroke (strokes other)) }
        ensures words { AreWords self.now.entries self.now.words }
    {
        match self.trie.last(other) {
            Some(stroke) => self.trie.child(node, stroke),
            None => None,
        }
    }
}

impl<'a> FreeGraph<'a> {
    /// The targets of a fork whose words can be open.
    fn moves(&self, fork: NodeFork) -> ForkMoves<'a>
        requires nodes { IsNodesFork self.now.entries fork }
        requires opens { has_open_words self.now.words (fork_by self.now.entries fork) ≡ true }
        ensures left { targets_left self.now result ≡ map (fork_number self.now.entries)
            (fork_targets self.now.words (fork_by self.now.entries fork)) }
        ensures few { length (targets_left self.now result) < word_half }
        ensures mine { OwnsTargets self.now result }
    {
        ForkMoves {
            row: self.children(fork.longer),
            shorter: fork.shorter,
            waiting: Waiting::none(),
        }
    }
}

impl<'a> StepGraph for FreeGraph<'a> {
    ghost use Rattle.reading_laws.specs.ForkNumbers.{fork_lists};
    ghost use Rattle.free_parse.specs.Cursors.{OwnsTargets, targets_left};

    type Cursor = ForkMoves<'a>;

    ghost origin = { λ _. 0 };

    ghost lists = { λ g. fork_lists g.entries g.words };

    ghost left = { λ g c. targets_left g c };

    ghost owns = { λ g c. OwnsTargets g c };

    ghost has_rank = { λ _ _ rank. rank ≡ 0 };

    fn count(&self) -> u32 {
        self.end() + 1
    }

    fn start(&self) -> u32 {
        0
    }

    fn first(&self, state: u32) -> ForkMoves<'a> {
        match self.fork(state) {
            Some(fork) => self.moves(fork),
            None => ForkMoves {
                row: &[],
                shorter: None,
                waiting: Waiting::none(),
            },
        }
    }

    fn next(&self, cursor: &mut ForkMoves<'a>) -> Option<u32> {
        if let Some(target) = cursor.waiting.take() {
            return Some(target);
        }
        self.refill(cursor);
        cursor.waiting.take()
    }

    /// The numbers of forks lie by their longer open word, whose children are the targets, so their own order will do.
    fn rank(&self, _state: u32) -> u32 {
        0
    }
}
