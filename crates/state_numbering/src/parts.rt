//! The parts of all nodes, and the node of a number.
ghost use Rattle.std.specs.Prelude.{◌≡◌, ◌<◌, ◌≤◌, IfErr, IfOk};
ghost use Rattle.steno_rules.specs.StateNumbers.{number_count};
ghost use Rattle.outline_trie.specs.Tries.{IsNode};
ghost use Rattle.state_numbering.specs.Causes.{IsNumberCause, most_states};
ghost use Rattle.state_numbering.specs.inside.Parts.{IsInPart, IsNodePart};

use crate::blocks::{Blocks, blocks_of, last_begun};
use crate::count::{MAX_STATES, count_numbers};
use crate::fault::NumberFault;
use crate::part::{Part, parts_of};
use outline_trie::Trie;
use std::alloc::Global;
use std::marker::Model;

/// The parts of a trie's nodes. Seen, as the trie is, as the list of the entries.
#[derive(Drop)]
pub(crate) struct Parts<'a> {
    trie: &'a Trie,
    parts: Vec<Part>,
    blocks: Blocks,
    count: u32,
}

impl<'a> Model for Parts<'a> {
    ghost use Rattle.std.specs.Prelude.{ℕ, List};
    ghost use Rattle.state_numbering.specs.inside.Invariants.{AreParts};

    ghost Value = { List (List ℕ) };

    ghost view = { λ p. p.trie.now };

    ghost invariant = { λ p. AreParts p.trie.now p.parts.items p.blocks p.count };
}

impl<'a> Parts<'a> {
    /// The parts of a trie's nodes. The numbers are counted before any memory is asked for.
    pub(crate) fn new(alloc: Global, trie: &'a Trie) -> Result<Parts<'a>, NumberFault>
        ensures parts { IfOk result (λ parts. parts ≡ trie.now) }
        ensures within { IfOk result (λ parts. number_count trie.now ≤ most_states) }
        ensures cause { IfErr result (IsNumberCause (number_count trie.now)) }
    {
        let count = count_numbers(trie);
        if count > MAX_STATES {
            return Err(NumberFault::TooManyStates { count });
        }
        let count = count as u32;
        let parts = parts_of(alloc, trie)?;
        let blocks = blocks_of(alloc, &parts, count)?;
        Ok(Parts {
            trie,
            parts,
            blocks,
            count,
        })
    }

    /// How many numbers there are.
    pub(crate) fn count(&self) -> u32
        ensures count { result ≡ number_count self.now }
        ensures most { result ≤ most_states }
    {
        self.count
    }

    /// The part of a node.
    pub(crate) fn part(&self, node: u32) -> Part
        requires { IsNode self.now node }
        ensures { IsNodePart self.now node result }
    {
        self.parts[node as usize]
    }

    /// The node in whose part a number lies.
    pub(crate) fn node_of(&self, number: u32) -> u32
        requires { number < number_count self.now }
        ensures { IsInPart self.now number result }
    {
        let begin = self.blocks.nodes[(number >> self.blocks.bits) as usize];
        last_begun(&self.parts, begin, number)
    }
}
