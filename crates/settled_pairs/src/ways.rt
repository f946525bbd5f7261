//! Ways to end an open word while a piece stays.
ghost use Rattle.std.specs.Prelude.{◌≡◌, ◌≤◌, ◌+◌, ◌++◌, ◌∷◌, [], ℕ, List, MatchOption};
ghost use Rattle.steno_rules.specs.WordSets.{IsWordSet, words_in};
ghost use Rattle.outline_trie.specs.Tries.{IsNode, node_strokes};
ghost use Rattle.settled_pairs.specs.inside.Near.{AreNear};
ghost use Rattle.settled_pairs.specs.inside.Ways.{HasNoWay, HasNoWayBy, IsFirstWay, IsStepOn};

use crate::near::nearest;
use closure_state::WordSet;
use match_window::Windows;
use outline_trie::Trie;

/// The window after the last stroke of a node's child, `passed` strokes and that one behind a piece. None where the
/// piece doesn't stay, or no word is near enough below the child.
fn window_by(
    trie: &Trie,
    windows: &Windows<'_>,
    near: &[u8],
    window: u32,
    child: u32,
    passed: u32,
    left: u32,
) -> Option<u32>
    requires windows { windows.now ≡ trie.now }
    requires window { IsNode trie.now window }
    requires child { IsNode trie.now child }
    requires short { passed + left ≤ 64 }
    ensures { (words : List (List ℕ)) (x : List ℕ) (code : ℕ) → AreNear trie.now words near.now →
        node_strokes trie.now child ≡ x ++ code ∷ [] →
        MatchOption result
        (HasNoWayBy trie.now words x (node_strokes trie.now window) code passed left)
        (IsStepOn trie.now (node_strokes trie.now window) code passed) }
{
    if u32::from(nearest(near, child)) >= left {
        return None;
    }
    let stroke = trie.last(child)?;
    let next = windows.advance(window, stroke);
    if next.last.len <= passed + 1 {
        Some(next.node)
    } else {
        None
    }
}

/// The first word that ends so many strokes below a node, where a piece `passed` strokes ago stays. A node whose
/// nearest word is too far is passed over.
pub(crate) fn first_way(
    trie: &Trie,
    windows: &Windows<'_>,
    words: &WordSet,
    near: &[u8],
    node: u32,
    window: u32,
    passed: u32,
    left: u32,
) -> Option<u32>
    requires windows { windows.now ≡ trie.now }
    requires words { IsWordSet trie.now words.now }
    requires near { AreNear trie.now (words_in trie.now words.now) near.now }
    requires node { IsNode trie.now node }
    requires window { IsNode trie.now window }
    requires short { passed + left ≤ 64 }
    ensures { let entries = trie.now in let ends = words_in entries words.now in
        let front = node_strokes entries node in let behind = node_strokes entries window in
        MatchOption result
        (HasNoWay entries ends front behind passed left)
        (IsFirstWay entries ends front behind passed left) }
{
    if left == 0 {
        return if words.is_word(node) {
            trie.entry(node)
        } else {
            None
        };
    }
    for pair in trie.children(node) {
        if let Some(next) = window_by(trie, windows, near, window, pair.1, passed, left) {
            let found = first_way(
                trie,
                windows,
                words,
                near,
                pair.1,
                next,
                passed + 1,
                left - 1,
            );
            if found.is_some() {
                return found;
            }
        }
    }
    None
}
