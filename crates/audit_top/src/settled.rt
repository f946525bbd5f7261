//! `settled`: all pairs of some dictionaries that stay across a boundary, each with a shortest sequence of words that
//! has it.

ghost use Rattle.std.specs.Prelude.{◌≡◌, ◌≤◌, ◌<◌, ◌^◌, Some, length, map, string_bytes};
ghost use Rattle.graph_rules.specs.Graphs.{AreSettled};
ghost use Rattle.steno_rules.specs.ClosureGraphs.{kept_lists};
ghost use Rattle.steno_rules.specs.StateNumbers.{number_count};
ghost use Rattle.steno_rules.specs.WordSets.{IsWordSet, words_in};
ghost use Rattle.longest_match.specs.Rows.{AreSmall};
ghost use Rattle.state_numbering.specs.Causes.{most_states};
ghost use Rattle.state_numbering.specs.Numberings.{numbering_of};
ghost use Rattle.round_core.specs.Searches.{IsSearched};
ghost use Rattle.conflict_example.specs.Chosen.{words_in_stack};
ghost use Rattle.settled_pairs.specs.SettledRows.{AreChosenRows, AreSettledPairs, HasConflicts};
ghost use Rattle.commands.specs.Commands.{settled as settled_of};
ghost use Rattle.audit_top.specs.inside.Answers.{Answers, IsAnswer};
ghost use Rattle.audit_top.specs.Outcomes.{UnlessRefused, search_limit};
ghost use Rattle.audit_top.specs.Kept.{IsSettled};
ghost use Rattle.audit_top.specs.Runs.{output, world};
ghost use Rattle.steal_rounds.specs.declared.searches.TheConstants.{MAX_WORKERS};

use crate::audit::{reached, status_of};
use crate::refusals::Refusal;
use crate::status::Status;
use closure_state::WordSet;
use dict_files::read_stack;
use dict_stack::Stack;
use longest_match::Conflict;
use match_window::Windows;
use outline_trie::Trie;
use outside::{Files, Sink};
use report::{Summary, write_settled};
use round_core::Settled;
use state_numbering::{ClosureGraph, Numbering};
use std::alloc::Global;
use std::marker::{Send, Sync};
use std::sync::Wait;
use std::thread::Threads;
use steal_rounds::{Gate, search};

/// Ends a command whose pairs were found.
fn print_pairs<S: Sink>(
    alloc: Global,
    stack: &Stack,
    searched: &Settled,
    rows: &[Conflict],
    out: &mut S,
) -> Result<Status, Refusal>
    requires few { length searched.now.words < 2 ^ 32 }
    requires rows { length rows.now < 2 ^ 32 }
    requires exact { AreSettledPairs stack.now.outlines (words_in_stack stack.now) rows.now }
    requires conflicts { HasConflicts stack.now.outlines (words_in_stack stack.now) rows.now }
    requires chosen { AreChosenRows stack.now.outlines (words_in_stack stack.now)
        searched.now.words rows.now }
    requires small { AreSmall stack.now.outlines rows.now }
    requires search { IsSearched 0
        (kept_lists stack.now.outlines (words_in_stack stack.now)) searched.now }
    ensures { let before = output (S.text out.old) (S.faults out.old) in
        let after = output (S.text out.new) (S.faults out.new) in
        Answers (IsSettled stack.now) before after result }
{
    let summary = Summary {
        states: reached(searched.words()),
        rounds: searched.rounds(),
        conflicts: rows.len() as u32,
    };
    write_settled(alloc, out, stack, &summary, rows)?;
    Ok(status_of(rows))
}

/// The command whose states are numbered.
fn settled_numbered<R: Threads + Wait + Sync, S: Sink, K: Gate + Sync>(
    rt: &R,
    alloc: Global,
    workers: u32,
    stack: &Stack,
    trie: &Trie,
    windows: &Windows<'_>,
    words: &WordSet,
    numbering: &Numbering<'_>,
    out: &mut S,
    gate: &K,
) -> Result<Status, Refusal>
    requires some { 1 ≤ workers }
    requires few { workers ≤ MAX_WORKERS }
    requires windows { windows.now ≡ trie.now }
    requires words { IsWordSet trie.now words.now }
    requires numbering { numbering.now ≡ numbering_of trie.now words.now }
    requires entries { trie.now ≡ stack.now.outlines }
    requires ends { words_in trie.now words.now ≡ words_in_stack stack.now }
    requires within { number_count stack.now.outlines ≤ most_states }
    ensures { let before = output (S.text out.old) (S.faults out.old) in
        let after = output (S.text out.new) (S.faults out.new) in
        Answers (IsSettled stack.now) before after result }
{
    let graph = ClosureGraph::new(numbering);
    let searched = search(rt, alloc, &graph, workers, gate)?;
    let rows = settled_pairs::settled(
        alloc,
        trie,
        windows,
        words,
        numbering,
        stack,
        searched.words(),
    )?;
    print_pairs(alloc, stack, &searched, &rows, out)
}

/// The command whose dictionaries were read.
fn settled_stack<R: Threads + Wait + Sync, S: Sink, K: Gate + Sync>(
    rt: &R,
    alloc: Global,
    workers: u32,
    stack: &Stack,
    out: &mut S,
    gate: &K,
) -> Result<Status, Refusal>
    requires some { 1 ≤ workers }
    requires few { workers ≤ MAX_WORKERS }
    ensures { let before = output (S.text out.old) (S.faults out.old) in
        let after = output (S.text out.new) (S.faults out.new) in
        Answers (UnlessRefused (search_limit stack.now) (IsSettled stack.now)) before after result }
{
    let trie = Trie::new(alloc, stack.outlines())?;
    let windows = Windows::new(alloc, &trie)?;
    let words = WordSet::new(alloc, &trie, stack.words())?;
    let numbering = Numbering::new(alloc, &trie, &windows, &words)?;
    settled_numbered(
        rt, alloc, workers, stack, &trie, &windows, &words, &numbering, out, gate,
    )
}

/// The pairs that stay, of the dictionaries that the arguments name.
pub(crate) fn settled<R: Threads + Wait + Sync, F: Files, S: Sink, K: Gate + Sync>(
    rt: &R,
    alloc: Global,
    workers: u32,
    dicts: &[String],
    files: &mut F,
    out: &mut S,
    gate: &K,
) -> Result<Status, Refusal>
    requires some { 1 ≤ workers }
    requires few { workers ≤ MAX_WORKERS }
    ensures { let before = world (F.view files.old) (S.text out.old) (S.faults out.old) in
        let after = world (F.view files.new) (S.text out.new) (S.faults out.new) in
        IsAnswer (Some (settled_of workers (map string_bytes dicts.now))) before after result }
{
    let stack = read_stack(alloc, files, dicts)?;
    settled_stack(rt, alloc, workers, &stack, out, gate)
}
