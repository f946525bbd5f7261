//! Finishing an open hit.
ghost use Rattle.std.specs.Prelude.{◌≡◌, ◌<◌, ◌≤◌, ℕ, IfOk, IfSome, MatchOption, length};
ghost use Rattle.steno_rules.specs.WordSets.{IsWordSet, words_in};
ghost use Rattle.outline_trie.specs.Tries.{IsNode, node_strokes};
ghost use Rattle.closure_state.specs.NodeStates.{state_at};
ghost use Rattle.settled_pairs.specs.Finishes.{HasNoFinish, IsFinishOf, IsOpenState};
ghost use Rattle.settled_pairs.specs.inside.Near.{AreNear};
ghost use Rattle.settled_pairs.specs.inside.Ways.{HasNoWay, IsNearestWay};

use crate::finishes::Finish;
use crate::ways::first_way;
use closure_state::{State, WordSet};
use match_window::Windows;
use outline_trie::Trie;
use std::alloc::{AllocError, Global};

/// The fewest strokes below an open word's node that end a word while the last piece of the window stays, and the first
/// such word.
fn nearest_way(
    trie: &Trie,
    windows: &Windows<'_>,
    words: &WordSet,
    near: &[u8],
    node: u32,
    window: u32,
) -> Option<(u32, u32)>
    requires windows { windows.now ≡ trie.now }
    requires words { IsWordSet trie.now words.now }
    requires near { AreNear trie.now (words_in trie.now words.now) near.now }
    requires node { IsNode trie.now node }
    requires window { IsNode trie.now window }
    requires some { 0 < length (node_strokes trie.now node) }
    ensures ways { let entries = trie.now in let ends = words_in entries words.now in
        let front = node_strokes entries node in let behind = node_strokes entries window in
        MatchOption result
        ((left : ℕ) → HasNoWay entries ends front behind 0 left)
        (IsNearestWay entries ends front behind) }
    ensures short { IfSome result (λ found. found.0 ≤ 64) }
{
    for strokes in 0..trie.longest_entry() {
        if let Some(word) = first_way(trie, windows, words, near, node, window, 0, strokes) {
            return Some((strokes, word));
        }
    }
    None
}

/// The finish of an open hit, by how near words are below nodes.
pub(crate) fn finish_by(
    trie: &Trie,
    windows: &Windows<'_>,
    words: &WordSet,
    near: &[u8],
    state: &State,
) -> Option<Finish>
    requires windows { windows.now ≡ trie.now }
    requires words { IsWordSet trie.now words.now }
    requires near { AreNear trie.now (words_in trie.now words.now) near.now }
    requires opened { IsOpenState trie.now (words_in trie.now words.now) state.now }
    ensures finish { let entries = trie.now in let ends = words_in entries words.now in
        MatchOption result
        (HasNoFinish entries ends (state_at entries state.now))
        (IsFinishOf entries ends (state_at entries state.now)) }
    ensures short { IfSome result (λ f. f.strokes ≤ 64) }
{
    if state.word == 0 {
        return Some(Finish {
            strokes: 0,
            word: None,
        });
    }
    match nearest_way(trie, windows, words, near, state.word, state.window) {
        Some((strokes, word)) => Some(Finish {
            strokes,
            word: Some(word),
        }),
        None => None,
    }
}

/// The finish of an open hit: the fewest strokes after which the open word is a word and the last piece still stands.
/// None exactly where no strokes do that. They are looked for below the open word's node alone, depth by depth, and no
/// deeper than the finish. It takes no memory.
pub fn finish(
    _: Global,
    trie: &Trie,
    windows: &Windows<'_>,
    words: &WordSet,
    state: &State,
) -> Result<Option<Finish>, AllocError>
    requires windows { windows.now ≡ trie.now }
    requires words { IsWordSet trie.now words.now }
    requires opened { IsOpenState trie.now (words_in trie.now words.now) state.now }
    ensures { let entries = trie.now in let ends = words_in entries words.now in
        IfOk result (λ found. MatchOption found
        (HasNoFinish entries ends (state_at entries state.now))
        (IsFinishOf entries ends (state_at entries state.now))) }
{
    Ok(finish_by(trie, windows, words, &[], state))
}
