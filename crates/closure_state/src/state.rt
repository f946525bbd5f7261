//! States and hits by the numbers of nodes.
ghost use Rattle.std.specs.Prelude.{◌↔◌, ◌≤◌, IsTrue, IfSome, length};
ghost use Rattle.steno_rules.specs.WordSets.{IsWordSet, words_in};
ghost use Rattle.outline_trie.specs.Tries.{IsNode, node_strokes};
ghost use Rattle.closure_laws.proofs.StateLemmas.{EndsOther};
ghost use Rattle.closure_state.specs.NodeStates.{IsNodeState};
ghost use Rattle.closure_state.specs.inside.Marks.{IsMarkOf};

use crate::word_set::WordSet;
use outline_trie::Trie;

/// What a translator and a writer have in mind at one moment.
#[derive(Clone, Copy, Debug, PartialEq, Eq)]
pub struct State {
    /// The node of the window of what was written.
    pub window: u32,
    /// The node of the strokes of the open word, the root where none is open.
    pub word: u32,
    /// How many strokes ago the marked boundary between two words was, if one is marked.
    pub mark: Option<u8>,
}

/// A boundary between two words inside the last piece.
#[derive(Clone, Copy, Debug, PartialEq, Eq)]
pub struct Hit {
    /// The number of the entry that the piece is.
    pub entry: u32,
    /// How many strokes of the piece lie before the boundary.
    pub place: u8,
}

/// Whether the numbers are nodes and stand for a state.
pub fn is_state(trie: &Trie, words: &WordSet, state: &State) -> bool
    requires { IsWordSet trie.now words.now }
    ensures { IsTrue result ↔ IsNodeState trie.now (words_in trie.now words.now) state.now }
{
    let count = trie.node_count();
    if state.window >= count || state.word >= count {
        return false;
    }
    words.opens(state.word) && is_mark(trie, state) && is_end(trie, state.window, state.word)
}

/// Whether a mark lies in the window and not inside the open word.
fn is_mark(trie: &Trie, state: &State) -> bool
    requires window { IsNode trie.now state.now.window }
    requires word { IsNode trie.now state.now.word }
    ensures { IsTrue result ↔ IfSome state.now.mark (IsMarkOf trie.now state.now) }
{
    match state.mark {
        Some(mark) => {
            trie.depth(state.word) <= u32::from(mark) && u32::from(mark) < trie.depth(state.window)
        }
        None => true,
    }
}

/// Whether the strokes of a node end with those of another, which are no more.
fn ends_with(trie: &Trie, node: u32, end: u32) -> bool
    requires node { IsNode trie.now node }
    requires end { IsNode trie.now end }
    requires short { length (node_strokes trie.now end) ≤ length (node_strokes trie.now node) }
    ensures { IsTrue result ↔ EndsOther (node_strokes trie.now node) (node_strokes trie.now end) }
{
    match trie.suffix(node, trie.depth(end)) {
        Some(found) => found == end,
        None => false,
    }
}

/// Whether the strokes of one of two nodes end with those of the other.
fn is_end(trie: &Trie, window: u32, word: u32) -> bool
    requires window { IsNode trie.now window }
    requires word { IsNode trie.now word }
    ensures { IsTrue result ↔
        EndsOther (node_strokes trie.now window) (node_strokes trie.now word) }
{
    if trie.depth(word) <= trie.depth(window) {
        ends_with(trie, window, word)
    } else {
        ends_with(trie, word, window)
    }
}
