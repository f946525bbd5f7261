//! The trie: its columns, its rows, and the look-ups.
ghost use Rattle.std.specs.Prelude.{◌≡◌, ◌+◌, ◌-◌, ◌<◌, ◌≤◌, ◌^◌, ℕ, length, IfOk, IfErr, MatchOption};
ghost use Rattle.steno_rules.specs.Outlines.{AreEntries, entry_number};
ghost use Rattle.steno_rules.specs.Nodes.{nodes};
ghost use Rattle.outline_trie.specs.declared.trie.TrieFault.TheVariants.{Memory};
ghost use Rattle.outline_trie.specs.Tries.{IsNode, node_strokes, child_of, AreChildren, suffix_of, IsParent, IsLast, longest_of, most_nodes};

use crate::count::{count_nodes, longest_and_history};
use crate::rows::{Rows, rows_of};
use crate::table::{NO_ENTRY, table_of};
use history::History;
use std::alloc::{AllocError, Global};
use std::marker::Model;
use std::sync::ledger::Ledger;
use steps::Steps;
use stroke::{Outline, Stroke};
use thiserror::Error;

/// Why no trie was made.
#[derive(Clone, Copy, Debug, PartialEq, Eq, Drop, Error)]
pub enum TrieFault {
    /// The entries have this many distinct beginnings, more than [`Trie::MAX_NODES`].
    #[error("the entries have {count} nodes, more than 4,194,304")]
    TooManyNodes { count: u64 },
    /// No memory was left.
    #[error("out of memory")]
    Memory,
}

impl From<AllocError> for TrieFault {
    ghost from_gives = { λ _ e. e ≡ Memory };

    fn from(_: AllocError) -> TrieFault {
        TrieFault::Memory
    }
}

/// The distinct beginnings of the entries, numbered in outline order from 0, the empty one. Seen as the list of the
/// entries.
#[derive(Drop)]
pub struct Trie {
    parents: Vec<u32>,
    strokes: Vec<Stroke>,
    depths: Vec<u8>,
    numbers: Vec<u32>,
    rows: Rows,
    longest: u32,
    entries: History<Outline>,
}

impl Model for Trie {
    ghost use Rattle.std.specs.Prelude.{ℕ, List, reverse};
    ghost use Rattle.outline_trie.specs.inside.Invariants.{IsTrie};

    ghost Value = { List (List ℕ) };

    ghost view = { λ t. reverse t.entries.items };

    ghost invariant = { λ t.
        IsTrie (reverse t.entries.items)
        t.parents.items t.strokes.items t.depths.items t.numbers.items t.rows t.longest };
}

impl Trie {
    ghost use Rattle.outline_trie.specs.Causes.{IsTrieCause};

    /// The most nodes of a trie.
    pub const MAX_NODES: u64 = 4_194_304;

    /// The trie of these entries, in time linear in their strokes. `TooManyNodes` exactly where they have more than
    /// [`Trie::MAX_NODES`] distinct beginnings, before any memory is asked for.
    pub fn new(alloc: Global, entries: &[Outline]) -> Result<Trie, TrieFault>
        requires entries { AreEntries entries.now }
        requires few { length entries.now < 2 ^ 31 }
        ensures built { IfOk result (λ trie. trie ≡ entries.now) }
        ensures within { IfOk result (λ trie. length (nodes entries.now) ≤ most_nodes) }
        ensures cause { IfErr result (IsTrieCause (length (nodes entries.now))) }
    {
        let count = count_nodes(entries);
        if count > Trie::MAX_NODES {
            return Err(TrieFault::TooManyNodes { count });
        }
        let table = table_of(alloc, entries, count as usize)?;
        let rows = rows_of(alloc, table.parents.as_slice(), table.strokes.as_slice())?;
        let (longest, history) = longest_and_history(entries);
        Ok(Trie {
            parents: table.parents,
            strokes: table.strokes,
            depths: table.depths,
            numbers: table.numbers,
            rows,
            longest,
            entries: history,
        })
    }

    /// How many nodes there are: one where there are no entries. Whoever holds a trie knows that it is made of entries.
    pub fn node_count(&self) -> u32
        ensures count { result ≡ length (nodes self.now) }
        ensures entries { AreEntries self.now }
    {
        self.parents.len() as u32
    }

    /// The most strokes of an entry, 0 where there are none.
    pub fn longest_entry(&self) -> u32
        ensures longest { result ≡ longest_of self.now }
        ensures short { result ≤ 64 }
    {
        self.longest
    }

    /// The node of a node's strokes and one more, None where no entry begins with them. A binary search in the row.
    pub fn child(&self, node: u32, stroke: Stroke) -> Option<u32>
        requires { IsNode self.now node }
        ensures { result ≡ child_of self.now node stroke }
    {
        let row = self.rows.row(node);
        match row.binary_search_by_key(&stroke.code(), |pair| pair.0) {
            Ok(place) => Some(row[place].1),
            Err(_) => None,
        }
    }

    /// The same, and the counter rises by one.
    pub fn child_step<L: Ledger>(
        &self,
        node: u32,
        stroke: Stroke,
        steps: &mut Steps<L>,
    ) -> Option<u32>
        requires { IsNode self.now node }
        ensures found { result ≡ child_of self.now node stroke }
        ensures cost { steps.new ≡ steps.old + 1 }
    {
        steps.tick();
        self.child(node, stroke)
    }

    /// A node's children by rising strokes: pairs of a stroke's code and a node.
    pub fn children(&self, node: u32) -> &[(u32, u32)]
        requires { IsNode self.now node }
        ensures { AreChildren self.now node result.now }
    {
        self.rows.row(node)
    }

    /// The entry that a node is, None where it only begins one.
    pub fn entry(&self, node: u32) -> Option<u32>
        requires { IsNode self.now node }
        ensures { result ≡ entry_number self.now (node_strokes self.now node) }
    {
        let number = self.numbers[node as usize];
        if number == NO_ENTRY {
            None
        } else {
            Some(number)
        }
    }

    /// How many strokes a node has.
    pub fn depth(&self, node: u32) -> u32
        requires { IsNode self.now node }
        ensures depth { result ≡ length (node_strokes self.now node) }
        ensures short { result ≤ 64 }
    {
        u32::from(self.depths[node as usize])
    }

    /// The node without the last stroke, None for the root.
    pub fn parent(&self, node: u32) -> Option<u32>
        requires { IsNode self.now node }
        ensures { MatchOption result (node ≡ 0) (IsParent self.now node) }
    {
        if node == 0 {
            None
        } else {
            Some(self.parents[node as usize])
        }
    }

    /// The last stroke of a node, None for the root.
    pub fn last(&self, node: u32) -> Option<Stroke>
        requires { IsNode self.now node }
        ensures { MatchOption result (node ≡ 0) (IsLast self.now node) }
    {
        if node == 0 {
            None
        } else {
            Some(self.strokes[node as usize])
        }
    }

    /// The node of these strokes, None where no entry begins with them. One look-up a stroke.
    pub fn find(&self, strokes: &[Stroke]) -> Option<u32>
        ensures { result ≡ entry_number (nodes self.now) strokes.now }
    {
        let mut node = 0;
        for &stroke in strokes {
            match self.child(node, stroke) {
                Some(next) => node = next,
                None => return None,
            }
        }
        Some(node)
    }

    /// The node of a node's last `len` strokes, None where they are more than it has or no entry begins with them. One
    /// look-up a stroke.
    pub fn suffix(&self, node: u32, len: u32) -> Option<u32>
        requires { IsNode self.now node }
        ensures { result ≡ suffix_of self.now node len }
    {
        if len == 0 {
            return Some(0);
        }
        if node == 0 {
            return None;
        }
        match self.suffix(self.parents[node as usize], len - 1) {
            Some(begun) => self.child(begun, self.strokes[node as usize]),
            None => None,
        }
    }
}
