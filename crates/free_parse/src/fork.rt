//! Forks by the numbers of nodes.
ghost use Rattle.std.specs.Prelude.{◌≡◌, ◌≤◌, length, true};
ghost use Rattle.steno_rules.specs.Outlines.{AreWords};
ghost use Rattle.steno_rules.specs.States.{is_open};
ghost use Rattle.outline_trie.specs.Tries.{IsNode, node_strokes};
ghost use Rattle.reading_laws.specs.ChosenReadings.{open_fork};
ghost use Rattle.free_parse.specs.inside.Forks.{IfNodesFork, fork_if, open_in_part};

use crate::graph::FreeGraph;

/// Where two readings of the same strokes are: the node of their open word, or of the longer one and of the shorter one
/// where they have differed.
#[derive(Clone, Copy, Debug, PartialEq, Eq)]
pub(crate) struct NodeFork {
    pub(crate) longer: u32,
    pub(crate) shorter: Option<u32>,
}

impl FreeGraph<'_> {
    /// The fork of a number, None for the end and where its open words can't be open.
    pub(crate) fn fork(&self, number: u32) -> Option<NodeFork>
        ensures is { fork_if self.now.entries result
            ≡ open_fork self.now.entries self.now.words number }
        ensures nodes { IfNodesFork self.now.entries result }
    {
        if number >= self.end() {
            return None;
        }
        let longer = self.owner(number);
        if self.opens(longer) {
            self.fork_at(longer, number - self.part(longer))
        } else {
            None
        }
    }

    /// The fork at a place in the part of a node that can be open.
    fn fork_at(&self, longer: u32, place: u32) -> Option<NodeFork>
        requires words { AreWords self.now.entries self.now.words }
        requires node { IsNode self.now.entries longer }
        requires place { place ≤ length (node_strokes self.now.entries longer) }
        requires opens { is_open self.now.words (node_strokes self.now.entries longer) ≡ true }
        ensures is { fork_if self.now.entries result
            ≡ open_in_part self.now.entries self.now.words longer place }
        ensures nodes { IfNodesFork self.now.entries result }
    {
        if place == 0 {
            return Some(NodeFork {
                longer,
                shorter: None,
            });
        }
        match self.suffix(longer, place - 1) {
            Some(shorter) => {
                if self.opens(shorter) {
                    Some(NodeFork {
                        longer,
                        shorter: Some(shorter),
                    })
                } else {
                    None
                }
            }
            None => None,
        }
    }
}
