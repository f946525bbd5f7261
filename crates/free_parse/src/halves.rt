//! Two readings on their way, by the numbers of entries.
ghost use Rattle.std.specs.Prelude.{◌≡◌, ◌<◌, ℕ, List, Bool, Some, OnOk, length};
ghost use Rattle.steno_rules.specs.Outlines.{entry_number};
ghost use Rattle.outline_trie.specs.Tries.{IsNode, node_strokes};
ghost use Rattle.reading_laws.specs.ChosenReadings.{Halves, both_ended, end_word as end_word_of, halves_on, last_strokes_by, no_halves, one_ended};
ghost use Rattle.free_parse.specs.inside.Forks.{IfNodesFork, IsNodesFork, fork_by, fork_if, fork_of};
ghost use Rattle.free_parse.specs.inside.Halves.{AreNumbersOf};

use crate::fork::NodeFork;
use crate::graph::FreeGraph;
use std::alloc::{AllocError, Global};

/// The words that each reading has ended, and whether the longer of the two open words is the first reading's.
#[derive(Drop)]
pub(crate) struct NumberedHalves {
    pub(crate) first: Vec<u32>,
    pub(crate) second: Vec<u32>,
    pub(crate) longer_is_first: bool,
}

impl NumberedHalves {
    /// Nothing is read.
    pub(crate) fn new(alloc: Global) -> NumberedHalves
        ensures { (entries : List (List ℕ)) → AreNumbersOf entries no_halves result }
    {
        NumberedHalves {
            first: Vec::new(alloc),
            second: Vec::new(alloc),
            longer_is_first: false,
        }
    }

    /// The first reading, or the second, ends this word, if it is an entry.
    fn end_word(&mut self, is_first: bool, entry: Option<u32>) -> Result<(), AllocError>
        ensures { (entries : List (List ℕ)) (h : Halves) (w : List ℕ) →
            entry ≡ entry_number entries w → AreNumbersOf entries h self.old →
            OnOk result (AreNumbersOf entries (end_word_of is_first w h) self.new) }
    {
        match entry {
            Some(entry) => {
                if is_first {
                    self.first.push(entry)?;
                } else {
                    self.second.push(entry)?;
                }
                Ok(())
            }
            None => Ok(()),
        }
    }

    /// One of two readings has ended its word: the one with the shorter open word, or the one with the longer, and then
    /// the other is the longer.
    fn end_one(
        &mut self,
        graph: &FreeGraph<'_>,
        longer: u32,
        shorter: u32,
        to: u32,
    ) -> Result<(), AllocError>
        requires longer { IsNode graph.now.entries longer }
        requires shorter { IsNode graph.now.entries shorter }
        requires to { IsNode graph.now.entries to }
        requires some { 0 < length (node_strokes graph.now.entries to) }
        ensures { (h : Halves) → AreNumbersOf graph.now.entries h self.old →
            OnOk result (AreNumbersOf graph.now.entries (one_ended
            (node_strokes graph.now.entries longer) (node_strokes graph.now.entries shorter)
            (node_strokes graph.now.entries to) h) self.new) }
    {
        if graph.depth(to) == graph.depth(longer) + 1 {
            self.end_word(!self.longer_is_first, graph.entry_by(shorter, to))
        } else {
            self.end_word(self.longer_is_first, graph.entry_by(longer, to))?;
            self.longer_is_first = !self.longer_is_first;
            Ok(())
        }
    }

    /// Goes on from one fork to another.
    fn go_on(
        &mut self,
        graph: &FreeGraph<'_>,
        from: NodeFork,
        to: NodeFork,
    ) -> Result<(), AllocError>
        requires from { IsNodesFork graph.now.entries from }
        requires to { IsNodesFork graph.now.entries to }
        ensures { (h : Halves) → AreNumbersOf graph.now.entries h self.old →
            OnOk result (AreNumbersOf graph.now.entries (halves_on (fork_by graph.now.entries from)
            (fork_by graph.now.entries to) h) self.new) }
    {
        match to.shorter {
            None => Ok(()),
            Some(other) => match from.shorter {
                None => {
                    self.end_word(true, graph.entry(to.longer))?;
                    self.longer_is_first = false;
                    Ok(())
                }
                Some(shorter) => {
                    if other == 0 {
                        self.end_one(graph, from.longer, shorter, to.longer)
                    } else {
                        Ok(())
                    }
                }
            },
        }
    }

    /// The same where the end may be one of the forks.
    pub(crate) fn go_on_if(
        &mut self,
        graph: &FreeGraph<'_>,
        from: Option<NodeFork>,
        to: Option<NodeFork>,
    ) -> Result<(), AllocError>
        requires from { IfNodesFork graph.now.entries from }
        requires to { IfNodesFork graph.now.entries to }
        ensures { (h : Halves) → AreNumbersOf graph.now.entries h self.old →
            OnOk result (AreNumbersOf graph.now.entries (halves_on (fork_if graph.now.entries from)
            (fork_if graph.now.entries to) h) self.new) }
    {
        match from {
            Some(from) => match to {
                Some(to) => self.go_on(graph, from, to),
                None => Ok(()),
            },
            None => Ok(()),
        }
    }

    /// Both end their words, from a fork of two open words.
    fn end_two(
        &mut self,
        graph: &FreeGraph<'_>,
        longer: u32,
        shorter: u32,
    ) -> Result<(), AllocError>
        requires longer { IsNode graph.now.entries longer }
        requires shorter { IsNode graph.now.entries shorter }
        ensures { (h : Halves) → AreNumbersOf graph.now.entries h self.old →
            let s = fork_of graph.now.entries longer (Some shorter) in
            OnOk result (AreNumbersOf graph.now.entries
            (both_ended s (last_strokes_by graph.now.words s) h) self.new) }
    {
        match graph.ending(longer, shorter) {
            Some(child) => {
                self.end_word(!self.longer_is_first, graph.entry_by(shorter, child))?;
                self.end_word(self.longer_is_first, graph.entry(child))
            }
            None => Ok(()),
        }
    }

    /// Both end their words, where the fork is one of two open words.
    pub(crate) fn end_both(
        &mut self,
        graph: &FreeGraph<'_>,
        from: Option<NodeFork>,
    ) -> Result<(), AllocError>
        requires { IfNodesFork graph.now.entries from }
        ensures { (h : Halves) → AreNumbersOf graph.now.entries h self.old →
            let s = fork_if graph.now.entries from in
            OnOk result (AreNumbersOf graph.now.entries
            (both_ended s (last_strokes_by graph.now.words s) h) self.new) }
    {
        match from {
            Some(from) => match from.shorter {
                Some(shorter) => self.end_two(graph, from.longer, shorter),
                None => Ok(()),
            },
            None => Ok(()),
        }
    }
}
