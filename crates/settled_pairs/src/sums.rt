//! The chosen open hits: for each pair of an entry and an inner place the open hit with the least sum of its distance
//! and of the strokes that finish it, and of those the one of least number.
ghost use Rattle.std.specs.Prelude.{◌≡◌, ◌≢◌, ◌+◌, ◌<◌, ◌≤◌, ◌^◌, IfOk, IfSome, MatchOption, length, min, slice_set, get_or};
ghost use Rattle.graph_rules.specs.Graphs.{IsSettledWord, unreached};
ghost use Rattle.steno_rules.specs.ClosureGraphs.{kept_lists};
ghost use Rattle.steno_rules.specs.Outlines.{AreEntries};
ghost use Rattle.steno_rules.specs.StateNumbers.{number_count};
ghost use Rattle.steno_rules.specs.WordSets.{IsWordSet, words_in};
ghost use Rattle.closure_state.specs.NodeStates.{HasNodes, state_at};
ghost use Rattle.state_numbering.specs.Causes.{most_states};
ghost use Rattle.state_numbering.specs.Numberings.{numbering_of};
ghost use Rattle.conflict_example.specs.inside.Closures.{IsClosure};
ghost use Rattle.pair_slots.specs.Slots.{AreStarts};
ghost use Rattle.settled_pairs.specs.inside.Near.{AreNear};
ghost use Rattle.settled_pairs.specs.inside.Sums.{AreFirstSums, HasNoOpenHit, HasNoSum, IsNodeOpenHit, IsSumOf};

use crate::ending::finish_by;
use closure_state::{Hit, State, WordSet, hit};
use match_window::Windows;
use outline_trie::Trie;
use state_numbering::Numbering;
use std::alloc::{AllocError, Global};

/// A settled word is a distance times so much, and a number.
pub(crate) const NUMBERS: u64 = 1 << 32;

/// A pair, and with how few strokes an open hit of it finishes.
#[derive(Clone, Copy)]
pub(crate) struct Sum {
    pub(crate) entry: u32,
    pub(crate) place: u8,
    pub(crate) strokes: u64,
}

/// The pair of which a state is an open hit, None exactly where it is none.
pub(crate) fn open_hit(trie: &Trie, windows: &Windows<'_>, state: &State) -> Option<Hit>
    requires windows { windows.now ≡ trie.now }
    requires nodes { HasNodes trie.now state.now }
    ensures { MatchOption result (HasNoOpenHit trie.now (state_at trie.now state.now))
        (IsNodeOpenHit trie.now (state_at trie.now state.now)) }
{
    let between = State {
        window: state.window,
        word: 0,
        mark: state.mark,
    };
    hit(trie, windows, &between)
}

/// The pair of which a reached number is an open hit, and the least sum of its distance and of strokes that finish it.
fn sum_of(
    trie: &Trie,
    windows: &Windows<'_>,
    words: &WordSet,
    near: &[u8],
    numbering: &Numbering<'_>,
    number: u32,
    word: u64,
) -> Option<Sum>
    requires windows { windows.now ≡ trie.now }
    requires words { IsWordSet trie.now words.now }
    requires near { AreNear trie.now (words_in trie.now words.now) near.now }
    requires numbering { numbering.now ≡ numbering_of trie.now words.now }
    requires few { number_count trie.now ≤ most_states }
    requires below { number < number_count trie.now }
    requires settled { let lists = kept_lists trie.now (words_in trie.now words.now) in
        IsSettledWord 0 lists number word }
    requires reached { word ≢ unreached }
    ensures sum { let ends = words_in trie.now words.now in
        MatchOption result (HasNoSum trie.now ends number) (IsSumOf trie.now ends number) }
    ensures small { IfSome result (λ sum. sum.strokes < 2 ^ 31) }
{
    let state = numbering.state(number)?;
    let hit = open_hit(trie, windows, &state)?;
    match finish_by(trie, windows, words, near, &state) {
        Some(finish) => Some(Sum {
            entry: hit.entry,
            place: hit.place,
            strokes: word / NUMBERS + u64::from(finish.strokes),
        }),
        None => None,
    }
}

/// Puts the lesser of the slot's word and this one into the slot.
fn keep_lesser(least: &mut Vec<u64>, slot: usize, word: u64)
    requires { slot < length least.old.items }
    ensures { least.new.items
        ≡ slice_set least.old.items slot (min (get_or least.old.items slot 0) word) }
{
    least[slot] = least[slot].min(word);
}

/// Notes the sum of a reached number, if it has one.
fn note(
    least: &mut Vec<u64>,
    trie: &Trie,
    windows: &Windows<'_>,
    words: &WordSet,
    near: &[u8],
    numbering: &Numbering<'_>,
    starts: &[u32],
    number: u32,
    word: u64,
)
    requires windows { windows.now ≡ trie.now }
    requires words { IsWordSet trie.now words.now }
    requires near { AreNear trie.now (words_in trie.now words.now) near.now }
    requires numbering { numbering.now ≡ numbering_of trie.now words.now }
    requires starts { AreStarts trie.now starts.now }
    requires entries { AreEntries trie.now }
    requires few { number_count trie.now ≤ most_states }
    requires below { number < number_count trie.now }
    requires settled { let lists = kept_lists trie.now (words_in trie.now words.now) in
        IsSettledWord 0 lists number word }
    requires reached { word ≢ unreached }
    requires first { AreFirstSums trie.now (words_in trie.now words.now) number least.old.items }
    ensures { AreFirstSums trie.now (words_in trie.now words.now) (number + 1) least.new.items }
{
    match sum_of(trie, windows, words, near, numbering, number, word) {
        Some(sum) => {
            let slot = starts[sum.entry as usize] as usize + (sum.place as usize - 1);
            keep_lesser(least, slot, sum.strokes * NUMBERS + u64::from(number));
        }
        None => {}
    }
}

/// The word of the chosen open hit in the slot of each pair, its sum times 2^32 and its number; the greatest word where
/// there is none.
pub(crate) fn first_sums(
    alloc: Global,
    trie: &Trie,
    windows: &Windows<'_>,
    words: &WordSet,
    near: &[u8],
    numbering: &Numbering<'_>,
    starts: &[u32],
    table: &[u64],
    count: u32,
) -> Result<Vec<u64>, AllocError>
    requires windows { windows.now ≡ trie.now }
    requires words { IsWordSet trie.now words.now }
    requires near { AreNear trie.now (words_in trie.now words.now) near.now }
    requires numbering { numbering.now ≡ numbering_of trie.now words.now }
    requires starts { AreStarts trie.now starts.now }
    requires count { count ≡ number_count trie.now }
    requires closure { IsClosure numbering.now table.now }
    ensures { let ends = words_in trie.now words.now in
        IfOk result (λ least. AreFirstSums trie.now ends (number_count trie.now) least.items) }
{
    let mut least = vec![in alloc; u64::MAX; starts[starts.len() - 1] as usize]?;
    for number in 0..count {
        let word = table[number as usize];
        if word != u64::MAX {
            note(
                &mut least, trie, windows, words, near, numbering, starts, number, word,
            );
        }
    }
    Ok(least)
}
