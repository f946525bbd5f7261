//! `parse`: whether the words of some dictionaries can be read in one way only, and if not, two readings of fewest
//! strokes.

ghost use Rattle.std.specs.Prelude.{◌≡◌, ◌≤◌, ◌<◌, ◌^◌, IfSome, Some, length, map, string_bytes};
ghost use Rattle.steno_rules.specs.StateNumbers.{number_count};
ghost use Rattle.state_numbering.specs.Causes.{most_states};
ghost use Rattle.round_core.specs.Searches.{IsSearched};
ghost use Rattle.reading_laws.specs.ForkNumbers.{fork_lists};
ghost use Rattle.free_parse.specs.FoundReadings.{AreBothNumbers, ParsedAs};
ghost use Rattle.conflict_example.specs.Chosen.{words_in_stack};
ghost use Rattle.commands.specs.Commands.{parse as parse_of};
ghost use Rattle.audit_top.specs.inside.Answers.{Answers, IsAnswer};
ghost use Rattle.audit_top.specs.Outcomes.{UnlessRefused, search_limit};
ghost use Rattle.audit_top.specs.Parsed.{IsParse, parse_status};
ghost use Rattle.audit_top.specs.Runs.{output, world};
ghost use Rattle.steal_rounds.specs.declared.searches.TheConstants.{MAX_WORKERS};

use crate::audit::reached;
use crate::refusals::Refusal;
use crate::status::Status;
use closure_state::WordSet;
use dict_files::read_stack;
use dict_stack::Stack;
use free_parse::{FreeGraph, Readings, readings, write_parse};
use match_window::Windows;
use outline_trie::Trie;
use outside::{Files, Sink};
use round_core::Settled;
use state_numbering::Numbering;
use std::alloc::Global;
use std::marker::{Send, Sync};
use std::sync::Wait;
use std::thread::Threads;
use steal_rounds::{Gate, search};

/// The status where these readings were found, or none.
fn status_of(two: &Option<Readings>) -> Status
    ensures { result ≡ parse_status two.now }
{
    match two {
        None => Status::Clean,
        Some(_) => Status::Conflicts,
    }
}

/// Ends a command whose words were read.
fn print_readings<S: Sink>(
    alloc: Global,
    stack: &Stack,
    searched: &Settled,
    two: &Option<Readings>,
    out: &mut S,
) -> Result<Status, Refusal>
    requires few { length searched.now.words < 2 ^ 32 }
    requires numbers { IfSome two.now (AreBothNumbers stack.now.outlines) }
    requires parsed { ParsedAs stack.now.outlines (words_in_stack stack.now)
        searched.now.words two.now }
    requires search { IsSearched 0
        (fork_lists stack.now.outlines (words_in_stack stack.now)) searched.now }
    ensures { let before = output (S.text out.old) (S.faults out.old) in
        let after = output (S.text out.new) (S.faults out.new) in
        Answers (IsParse stack.now) before after result }
{
    let states = reached(searched.words());
    write_parse(alloc, out, stack, states, searched.rounds(), two.as_ref())?;
    Ok(status_of(two))
}

/// The search of a graph of forks, and what it found.
fn parse_graph<R: Threads + Wait + Sync, S: Sink, K: Gate + Sync>(
    rt: &R,
    alloc: Global,
    workers: u32,
    stack: &Stack,
    graph: &FreeGraph<'_>,
    out: &mut S,
    gate: &K,
) -> Result<Status, Refusal>
    requires some { 1 ≤ workers }
    requires few { workers ≤ MAX_WORKERS }
    requires entries { graph.now.entries ≡ stack.now.outlines }
    requires words { graph.now.words ≡ words_in_stack stack.now }
    requires within { number_count stack.now.outlines ≤ most_states }
    ensures { let before = output (S.text out.old) (S.faults out.old) in
        let after = output (S.text out.new) (S.faults out.new) in
        Answers (IsParse stack.now) before after result }
{
    let searched = search(rt, alloc, graph, workers, gate)?;
    let two = readings(alloc, graph, searched.words())?;
    print_readings(alloc, stack, &searched, &two, out)
}

/// The command whose dictionaries were read. The states are numbered for their limit alone.
fn parse_stack<R: Threads + Wait + Sync, S: Sink, K: Gate + Sync>(
    rt: &R,
    alloc: Global,
    workers: u32,
    stack: &Stack,
    out: &mut S,
    gate: &K,
) -> Result<Status, Refusal>
    requires some { 1 ≤ workers }
    requires few { workers ≤ MAX_WORKERS }
    ensures { let before = output (S.text out.old) (S.faults out.old) in
        let after = output (S.text out.new) (S.faults out.new) in
        Answers (UnlessRefused (search_limit stack.now) (IsParse stack.now)) before after result }
{
    let trie = Trie::new(alloc, stack.outlines())?;
    let windows = Windows::new(alloc, &trie)?;
    let words = WordSet::new(alloc, &trie, stack.words())?;
    let numbering = Numbering::new(alloc, &trie, &windows, &words)?;
    drop(numbering);
    let graph = FreeGraph::new(alloc, &trie, &words)?;
    parse_graph(rt, alloc, workers, stack, &graph, out, gate)
}

/// Two readings of the words of the dictionaries that the arguments name, or that there are none.
pub(crate) fn parse<R: Threads + Wait + Sync, F: Files, S: Sink, K: Gate + Sync>(
    rt: &R,
    alloc: Global,
    workers: u32,
    dicts: &[String],
    files: &mut F,
    out: &mut S,
    gate: &K,
) -> Result<Status, Refusal>
    requires some { 1 ≤ workers }
    requires few { workers ≤ MAX_WORKERS }
    ensures { let before = world (F.view files.old) (S.text out.old) (S.faults out.old) in
        let after = world (F.view files.new) (S.text out.new) (S.faults out.new) in
        IsAnswer (Some (parse_of workers (map string_bytes dicts.now))) before after result }
{
    let stack = read_stack(alloc, files, dicts)?;
    parse_stack(rt, alloc, workers, &stack, out, gate)
}
