//! The conflicts of one entry over entries and their flags, by a search of its own.

ghost use Rattle.std.specs.Prelude.{◌≡◌, ◌≤◌, ◌<◌, All, IfErr, IfOk, None, length};
ghost use Rattle.steno_rules.specs.Outlines.{AreEntries, IsOutline, flagged_entries};
ghost use Rattle.steno_rules.specs.StateNumbers.{number_count};
ghost use Rattle.longest_match.specs.Rows.{AreSmall};
ghost use Rattle.dict_stack.specs.Stacks.{most_entries};
ghost use Rattle.brief_trial.specs.Limits.{IsLimitOf, searched_limit};
ghost use Rattle.brief_trial.specs.inside.Found.{AreEntryRows};

use crate::faults::TrialFault;
use closure_state::WordSet;
use conflict_example::conflicts_of;
use longest_match::Conflict;
use match_window::Windows;
use outline_trie::Trie;
use round_core::search_plain;
use state_numbering::{ClosureGraph, Numbering};
use std::alloc::Global;
use stroke::Outline;

/// The conflicts of an entry, where the entries with a flag that is true are words. Trie and table live no longer than
/// this call.
pub(crate) fn search_entry(
    alloc: Global,
    entries: &[Outline],
    words: &[bool],
    entry: u32,
) -> Result<Vec<Conflict>, TrialFault>
    requires entries { AreEntries entries.now }
    requires outlines { All IsOutline entries.now }
    requires few { length entries.now ≤ most_entries }
    requires words { length words.now ≡ length entries.now }
    requires entry { entry < length entries.now }
    ensures found { IfOk result (λ rows.
        AreEntryRows entries.now (flagged_entries entries.now words.now) entry rows.items) }
    ensures small { IfOk result (λ rows. AreSmall entries.now rows.items) }
    ensures within { IfOk result (λ _. searched_limit entries.now ≡ None) }
    ensures cause { IfErr result (IsLimitOf (searched_limit entries.now)) }
{
    let trie = Trie::new(alloc, entries)?;
    let windows = Windows::new(alloc, &trie)?;
    let words = WordSet::new(alloc, &trie, words)?;
    let numbering = Numbering::new(alloc, &trie, &windows, &words)?;
    let graph = ClosureGraph::new(&numbering);
    let searched = search_plain(alloc, &graph)?;
    let rows = conflicts_of(alloc, &numbering, entries, searched.words(), entry)?;
    Ok(rows)
}
