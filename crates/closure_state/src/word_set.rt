//! The words among the nodes of a trie.
ghost use Rattle.std.specs.Prelude.{◌≡◌, ◌<◌, ◌↔◌, All, IsTrue, length, IfOk, slice_index_or, false};
ghost use Rattle.steno_rules.specs.Outlines.{AreEntries, flagged_entries};
ghost use Rattle.steno_rules.specs.Nodes.{nodes};
ghost use Rattle.steno_rules.specs.WordSets.{IsWordSet, words_in};
ghost use Rattle.outline_trie.specs.Tries.{IsNode};
ghost use Rattle.closure_state.specs.inside.NodeFlags.{AreFlags, AreFlagsBehind, HasGoing};

use outline_trie::Trie;
use std::alloc::{AllocError, Global};
use std::marker::Model;

/// Whether a node is a word, and whether it is empty or a proper beginning of a word.
#[derive(Clone, Copy, Debug, PartialEq, Eq)]
pub(crate) struct Flags {
    pub(crate) is_word: bool,
    pub(crate) opens: bool,
}

/// Which nodes of a trie are words, and which begin a longer word. Two bytes a node.
#[derive(Drop)]
pub struct WordSet {
    flags: Vec<Flags>,
}

impl Model for WordSet {
    ghost use Rattle.std.specs.Prelude.{map};
    ghost use Rattle.steno_rules.specs.WordSets.{WordFlags};

    ghost Value = { WordFlags };

    ghost view = { λ w. record {
      is_words = map (λ f. f.is_word) w.flags.items;
      opens = map (λ f. f.opens) w.flags.items;
    } };
}

/// Whether one of a node's children is a word or opens one.
fn opens_by(flags: &[Flags], row: &[(u32, u32)]) -> bool
    requires { All (λ pair. pair.1 < length flags.now) row.now }
    ensures { IsTrue result ↔ HasGoing flags.now row.now }
{
    for pair in row {
        let child = flags[pair.1 as usize];
        if child.is_word || child.opens {
            return true;
        }
    }
    false
}

/// The flags of a node, by those of its children.
fn flags_of(trie: &Trie, words: &[bool], flags: &[Flags], node: u32) -> Flags
    requires node { IsNode trie.now node }
    requires entries { AreEntries trie.now }
    requires words { length words.now ≡ length trie.now }
    requires flags { length flags.now ≡ length (nodes trie.now) }
    requires behind { AreFlagsBehind trie.now (flagged_entries trie.now words.now) node flags.now }
    ensures { AreFlags trie.now (flagged_entries trie.now words.now) node result }
{
    let is_word = match trie.entry(node) {
        Some(entry) => words[entry as usize],
        None => false,
    };
    let opens = node == 0 || opens_by(flags, trie.children(node));
    Flags { is_word, opens }
}

impl WordSet {
    /// The words of a trie, by one value per entry that says whether it is a word, in time linear in the nodes.
    pub fn new(alloc: Global, trie: &Trie, words: &[bool]) -> Result<WordSet, AllocError>
        requires { length words.now ≡ length trie.now }
        ensures set { IfOk result (IsWordSet trie.now) }
        ensures words { IfOk result (λ set. words_in trie.now set ≡
            flagged_entries trie.now words.now) }
    {
        let count = trie.node_count() as usize;
        let none = Flags {
            is_word: false,
            opens: false,
        };
        let mut flags = vec![in alloc; none; count]?;
        for done in 0..count {
            let node = count - 1 - done;
            flags[node] = flags_of(trie, words, &flags, node as u32);
        }
        Ok(WordSet { flags })
    }

    /// Whether the node is a word.
    pub fn is_word(&self, node: u32) -> bool
        requires { node < length self.now.is_words }
        ensures { result ≡ slice_index_or self.now.is_words node false }
    {
        self.flags[node as usize].is_word
    }

    /// Whether the node is empty or a proper beginning of a word.
    pub fn opens(&self, node: u32) -> bool
        requires { node < length self.now.is_words }
        ensures { result ≡ slice_index_or self.now.opens node false }
    {
        self.flags[node as usize].opens
    }

    /// Both flags, read at once.
    pub(crate) fn flags(&self, node: u32) -> Flags
        requires { node < length self.now.is_words }
        ensures word { result.is_word ≡ slice_index_or self.now.is_words node false }
        ensures opens { result.opens ≡ slice_index_or self.now.opens node false }
    {
        self.flags[node as usize]
    }
}
