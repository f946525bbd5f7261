//! The chosen hits: for each pair of an entry and an inner place the nearest hit, and of those the one of least number.

ghost use Rattle.std.specs.Prelude.{◌≡◌, ◌≢◌, ◌+◌, ◌<◌, ◌≤◌, IfOk, length, min, slice_set, get_or};
ghost use Rattle.graph_rules.specs.Graphs.{IsSettledWord, unreached};
ghost use Rattle.steno_rules.specs.ClosureGraphs.{kept_lists};
ghost use Rattle.steno_rules.specs.Outlines.{AreEntries};
ghost use Rattle.steno_rules.specs.StateNumbers.{number_count};
ghost use Rattle.state_numbering.specs.Causes.{most_states};
ghost use Rattle.conflict_example.specs.inside.Closures.{IsClosure};
ghost use Rattle.conflict_example.specs.inside.FirstHits.{AreFirst};
ghost use Rattle.pair_slots.specs.Slots.{AreStarts};

use state_numbering::Numbering;
use std::alloc::{AllocError, Global};

/// A settled word is a distance times so much, and a number.
pub(crate) const NUMBERS: u64 = 1 << 32;

/// Puts the lesser of the slot's word and this one into the slot.
fn keep_lesser(best: &mut Vec<u64>, slot: usize, word: u64)
    requires { slot < length best.old.items }
    ensures { best.new.items
        ≡ slice_set best.old.items slot (min (get_or best.old.items slot 0) word) }
{
    best[slot] = best[slot].min(word);
}

/// Notes the hit that a reached number is, if it is one.
fn note(best: &mut Vec<u64>, numbering: &Numbering<'_>, starts: &[u32], number: u32, word: u64)
    requires starts { AreStarts numbering.now.entries starts.now }
    requires few { number_count numbering.now.entries ≤ most_states }
    requires below { number < number_count numbering.now.entries }
    requires settled { IsSettledWord
        0 (kept_lists numbering.now.entries numbering.now.words) number word }
    requires entries { AreEntries numbering.now.entries }
    requires reached { word ≢ unreached }
    requires first { AreFirst numbering.now.entries numbering.now.words number best.old.items }
    ensures { AreFirst numbering.now.entries numbering.now.words (number + 1) best.new.items }
{
    match numbering.hit_of(number) {
        Some(hit) => {
            let slot = starts[hit.entry as usize] as usize + (hit.place as usize - 1);
            keep_lesser(best, slot, word / NUMBERS * NUMBERS + u64::from(number));
        }
        None => {}
    }
}

/// The word of the chosen hit in the slot of each pair, the greatest word where there is none.
pub(crate) fn first_hits(
    alloc: Global,
    numbering: &Numbering<'_>,
    starts: &[u32],
    words: &[u64],
    count: u32,
) -> Result<Vec<u64>, AllocError>
    requires count { count ≡ number_count numbering.now.entries }
    requires starts { AreStarts numbering.now.entries starts.now }
    requires closure { IsClosure numbering.now words.now }
    ensures { IfOk result (λ best.
        AreFirst numbering.now.entries numbering.now.words count best.items) }
{
    let mut best = vec![in alloc; u64::MAX; starts[starts.len() - 1] as usize]?;
    for number in 0..count {
        let word = words[number as usize];
        if word != u64::MAX {
            note(&mut best, numbering, starts, number, word);
        }
    }
    Ok(best)
}
