//! How near words are below nodes, so that nothing is looked for where no word is.
ghost use Rattle.std.specs.Prelude.{◌≡◌, ◌≤◌, ◌++◌, ℕ, List, length, true, IfOk, get_or};
ghost use Rattle.steno_rules.specs.Outlines.{is_word};
ghost use Rattle.steno_rules.specs.WordSets.{IsWordSet, words_in};
ghost use Rattle.outline_trie.specs.Tries.{IsNode, node_strokes};
ghost use Rattle.settled_pairs.specs.inside.Near.{AreNear, IsNearAt};

use closure_state::WordSet;
use outline_trie::Trie;
use std::alloc::{AllocError, Global};

/// How many strokes the nearest word below a node is away, by those of its children; 255 where there is none.
fn near_at(trie: &Trie, words: &WordSet, near: &[u8], node: u32) -> u8
    requires words { IsWordSet trie.now words.now }
    requires node { IsNode trie.now node }
    requires near { AreNear trie.now (words_in trie.now words.now) near.now }
    ensures { IsNearAt trie.now (words_in trie.now words.now) node result }
{
    if words.is_word(node) {
        return 0;
    }
    let mut least = u8::MAX;
    for pair in trie.children(node) {
        least = least.min(nearest(near, pair.1));
    }
    least.saturating_add(1)
}

/// How many strokes the nearest word below a node is away at least.
pub(crate) fn nearest(near: &[u8], node: u32) -> u8
    ensures { result ≡ get_or near.now node 0 }
{
    if (node as usize) < near.len() {
        near[node as usize]
    } else {
        0
    }
}

/// The same for each node, in time linear in the nodes.
pub(crate) fn near_of(alloc: Global, trie: &Trie, words: &WordSet) -> Result<Vec<u8>, AllocError>
    requires { IsWordSet trie.now words.now }
    ensures { IfOk result (λ near. AreNear trie.now (words_in trie.now words.now) near.items) }
{
    let count = trie.node_count() as usize;
    let mut near = vec![in alloc; 0; count]?;
    for done in 0..count {
        let node = count - 1 - done;
        near[node] = near_at(trie, words, &near, node as u32);
    }
    Ok(near)
}
