//! `audit-to`: an audit that leaves a file which proves it, and then writes its report.

ghost use Rattle.std.specs.Prelude.{◌≡◌, ◌≤◌, ◌<◌, ◌^◌, All, Some, length, map, string_bytes};
ghost use Rattle.graph_rules.specs.Graphs.{most_numbers};
ghost use Rattle.steno_rules.specs.ClosureGraphs.{kept_lists};
ghost use Rattle.steno_rules.specs.Outlines.{IsOutline};
ghost use Rattle.steno_rules.specs.StateNumbers.{number_count};
ghost use Rattle.longest_match.specs.Rows.{AreConflicts, AreSmall};
ghost use Rattle.state_numbering.specs.Causes.{most_states};
ghost use Rattle.round_core.specs.Searches.{IsSearched};
ghost use Rattle.conflict_example.specs.Chosen.{AreChosen, words_in_stack};
ghost use Rattle.report.specs.Refusals.{certificate_failed};
ghost use Rattle.commands.specs.Commands.{audit_to as audit_to_of};
ghost use Rattle.audit_top.specs.inside.Answers.{Goes, IsAnswer, writes_only};
ghost use Rattle.audit_top.specs.Outcomes.{UnlessRefused, search_limit};
ghost use Rattle.audit_top.specs.Audited.{IsAuditTo};
ghost use Rattle.audit_top.specs.Runs.{world};
ghost use Rattle.steal_rounds.specs.declared.searches.TheConstants.{MAX_WORKERS};

use crate::audit::{Form, status_of, write_found};
use crate::refusals::Refusal;
use crate::status::Status;
use audit_certificate::write_certificate;
use closure_state::WordSet;
use conflict_example::conflicts;
use dict_files::read_stack;
use dict_stack::Stack;
use longest_match::Conflict;
use match_window::Windows;
use outline_trie::Trie;
use outside::{Files, Sink};
use round_core::Settled;
use state_numbering::{ClosureGraph, Numbering};
use std::alloc::Global;
use std::marker::{Send, Sync};
use std::sync::Wait;
use std::thread::Threads;
use steal_rounds::{Gate, search};

/// Ends an audit whose conflicts were found: its certificate is written, and then its report.
fn print_with_certificate<F: Files, S: Sink>(
    alloc: Global,
    certificate: &str,
    stack: &Stack,
    searched: &Settled,
    rows: &[Conflict],
    files: &mut F,
    out: &mut S,
) -> Result<Status, Refusal>
    requires few { length searched.now.words ≤ most_numbers }
    requires outlines { All IsOutline stack.now.outlines }
    requires exact { AreConflicts stack.now.outlines (words_in_stack stack.now) rows.now }
    requires chosen { AreChosen stack.now.outlines (words_in_stack stack.now)
        searched.now.words rows.now }
    requires small { AreSmall stack.now.outlines rows.now }
    requires search { IsSearched 0
        (kept_lists stack.now.outlines (words_in_stack stack.now)) searched.now }
    ensures { let before = world (F.view files.old) (S.text out.old) (S.faults out.old) in
        let after = world (F.view files.new) (S.text out.new) (S.faults out.new) in
        Goes certificate_failed None (writes_only certificate.now)
        (λ file. IsAuditTo certificate.now stack.now) before after result }
{
    write_certificate(
        alloc,
        stack.entry_count(),
        searched.words(),
        rows,
        files,
        certificate,
    )?;
    write_found(alloc, stack, searched, rows, Form::Report, out)?;
    Ok(status_of(rows))
}

/// An audit whose states are numbered.
fn audit_to_numbered<R: Threads + Wait + Sync, F: Files, S: Sink, K: Gate + Sync>(
    rt: &R,
    alloc: Global,
    certificate: &str,
    workers: u32,
    stack: &Stack,
    numbering: &Numbering<'_>,
    files: &mut F,
    out: &mut S,
    gate: &K,
) -> Result<Status, Refusal>
    requires some { 1 ≤ workers }
    requires few { workers ≤ MAX_WORKERS }
    requires outlines { All IsOutline stack.now.outlines }
    requires entries { numbering.now.entries ≡ stack.now.outlines }
    requires words { numbering.now.words ≡ words_in_stack stack.now }
    requires within { number_count stack.now.outlines ≤ most_states }
    ensures { let before = world (F.view files.old) (S.text out.old) (S.faults out.old) in
        let after = world (F.view files.new) (S.text out.new) (S.faults out.new) in
        Goes certificate_failed None (writes_only certificate.now)
        (λ file. IsAuditTo certificate.now stack.now) before after result }
{
    let graph = ClosureGraph::new(numbering);
    let searched = search(rt, alloc, &graph, workers, gate)?;
    let rows = conflicts(alloc, numbering, stack, searched.words())?;
    print_with_certificate(alloc, certificate, stack, &searched, &rows, files, out)
}

/// An audit whose dictionaries were read.
fn audit_to_stack<R: Threads + Wait + Sync, F: Files, S: Sink, K: Gate + Sync>(
    rt: &R,
    alloc: Global,
    certificate: &str,
    workers: u32,
    stack: &Stack,
    files: &mut F,
    out: &mut S,
    gate: &K,
) -> Result<Status, Refusal>
    requires some { 1 ≤ workers }
    requires few { workers ≤ MAX_WORKERS }
    ensures { let before = world (F.view files.old) (S.text out.old) (S.faults out.old) in
        let after = world (F.view files.new) (S.text out.new) (S.faults out.new) in
        Goes certificate_failed (search_limit stack.now) (writes_only certificate.now)
        (λ file. UnlessRefused (search_limit stack.now) (IsAuditTo certificate.now stack.now))
        before after result }
{
    let trie = Trie::new(alloc, stack.outlines())?;
    let windows = Windows::new(alloc, &trie)?;
    let words = WordSet::new(alloc, &trie, stack.words())?;
    let numbering = Numbering::new(alloc, &trie, &windows, &words)?;
    audit_to_numbered(
        rt,
        alloc,
        certificate,
        workers,
        stack,
        &numbering,
        files,
        out,
        gate,
    )
}

/// The audit of the dictionaries that the arguments name, with its certificate.
pub(crate) fn audit_to<R: Threads + Wait + Sync, F: Files, S: Sink, K: Gate + Sync>(
    rt: &R,
    alloc: Global,
    certificate: &str,
    workers: u32,
    dicts: &[String],
    files: &mut F,
    out: &mut S,
    gate: &K,
) -> Result<Status, Refusal>
    requires some { 1 ≤ workers }
    requires few { workers ≤ MAX_WORKERS }
    ensures { let before = world (F.view files.old) (S.text out.old) (S.faults out.old) in
        let after = world (F.view files.new) (S.text out.new) (S.faults out.new) in
        let command = audit_to_of certificate.now workers (map string_bytes dicts.now) in
        IsAnswer (Some command) before after result }
{
    let stack = read_stack(alloc, files, dicts)?;
    audit_to_stack(rt, alloc, certificate, workers, &stack, files, out, gate)
}
