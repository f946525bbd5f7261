//! What is counted before anything is built.
ghost use Rattle.std.specs.Prelude.{◌≡◌, ◌<◌, ◌≤◌, ◌^◌, length, reverse};
ghost use Rattle.steno_rules.specs.Outlines.{AreEntries};
ghost use Rattle.steno_rules.specs.Nodes.{nodes};
ghost use Rattle.outline_trie.specs.Tries.{longest_of};
ghost use Rattle.outline_trie.specs.inside.Tables.{outline_before};

use crate::shared::shared_len;
use history::History;
use stroke::{Outline, Stroke};

/// The strokes of the entry before this one, or none before the first.
pub(crate) fn strokes_before(entries: &[Outline], number: usize) -> &[Stroke]
    requires { number ≤ length entries.now }
    ensures { result.now ≡ outline_before entries.now number }
{
    if number == 0 {
        &[]
    } else {
        entries[number - 1].strokes()
    }
}

/// The number of nodes: each entry adds one for each stroke after those that it shares with the entry before.
pub(crate) fn count_nodes(entries: &[Outline]) -> u64
    requires entries { AreEntries entries.now }
    requires few { length entries.now < 2 ^ 31 }
    ensures { result ≡ length (nodes entries.now) }
{
    let mut count = 1;
    for number in 0..entries.len() {
        let strokes = entries[number].strokes();
        count += (strokes.len() - shared_len(strokes_before(entries, number), strokes)) as u64;
    }
    count
}

/// The most strokes of an entry, and the entries told to a history.
pub(crate) fn longest_and_history(entries: &[Outline]) -> (u32, History<Outline>)
    ensures longest { result.0 ≡ longest_of entries.now }
    ensures short { result.0 ≤ 64 }
    ensures history { reverse result.1.items ≡ entries.now }
{
    let mut longest = 0;
    let mut history = History::new();
    for outline in entries {
        longest = longest.max(outline.strokes().len() as u32);
        history = history.and(outline);
    }
    (longest, history)
}
